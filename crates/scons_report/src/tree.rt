//! The tree of what a word asks for: each node with what it is made of below it.
ghost use Rattle.std.specs.Prelude.{◌≡◌, ◌<◌, ◌++◌, [], false, true, IfOk, OnOk, MatchOption, get_or, length, slice_set, map, string_bytes};
ghost use Rattle.rule_graph.specs.Graphs.{path_of as path_in};
ghost use Rattle.report_texts.specs.Texts.{line_text};
ghost use Rattle.scons_report.specs.Trees.{children_of, form_of, name_text, piece, row_text, shown_in, tree_text};
ghost use Rattle.scons_report.specs.Walks.{margin_of, sides_of, side_of, text_left, GoesBelow, IsBegun, IsOver, IsWithin, PrintsTree, Takes, Writes};

use crate::tree_end::TreeEnd;
use build_files::path_of;
use rule_graph::Graph;
use scons_base::{Memory, NodeId};
use std::alloc::Global;
use task_plan::Plan;
use world_api::{Sink, print};

/// How a node stands in a tree.
#[derive(Clone, Copy, Debug, PartialEq, Eq)]
pub(crate) enum Form {
    /// It has no children.
    Leaf,
    /// With its children below it.
    Open,
    /// Without its children, which stand below it further up in the tree.
    Pruned,
}

/// Nodes side by side that aren't written yet.
#[derive(Clone, Copy)]
pub(crate) struct Level<'a> {
    pub(crate) left: &'a [NodeId],
    /// Whether the node above them is the last beside its own.
    pub(crate) is_under_last: bool,
}

/// A node that is to be written.
#[derive(Clone, Copy)]
pub(crate) struct Next {
    pub(crate) node: NodeId,
    pub(crate) is_last: bool,
}

/// How far a tree is written.
#[derive(Drop)]
pub(crate) struct Walk<'a> {
    /// The levels that the walk is within, from the outermost on.
    pub(crate) levels: Vec<Level<'a>>,
    /// Which nodes stand with their children, by their numbers.
    pub(crate) is_open: Vec<bool>,
}

/// Prints the tree of a word: the word, its children and what stands below them. It costs what it prints, besides a mark for
/// each node.
pub(crate) fn print_tree<'a, O: Sink>(
    alloc: Global,
    graph: &'a Graph,
    plan: &'a Plan,
    word: &str,
    children: &'a [NodeId],
    out: &mut O,
) -> Result<(), TreeEnd>
    ensures { PrintsTree O.meaning (tree_text (shown_in graph.now plan.now) word.now children.now) out.old out.new result }
{
    let text = word_text(alloc, word)?;
    let walk = Walk::new(alloc, graph.len() as usize, children)?;
    show(out, text.as_str())?;
    print_rows(alloc, graph, plan, walk, out)
}

/// The line of the word.
fn word_text(alloc: Global, word: &str) -> Result<String, Memory>
    ensures { IfOk result (λ text. string_bytes text ≡ line_text (row_text [] word.now)) }
{
    let mut text = String::new(alloc);
    push_row(&mut text, Form::Leaf, word)?;
    Ok(text)
}

/// Prints what is left of a walk. There are never as many lines as there are numbers.
fn print_rows<'a, O: Sink>(
    alloc: Global,
    graph: &'a Graph,
    plan: &'a Plan,
    mut walk: Walk<'a>,
    out: &mut O,
) -> Result<(), TreeEnd>
    requires { IsWithin (length graph.now.nodes) walk }
    ensures { PrintsTree O.meaning (text_left (shown_in graph.now plan.now) (length graph.now.nodes) walk.entry) out.old out.new result }
{
    for _row in 0..u64::MAX {
        match walk.take()? {
            Some(next) => walk.write(alloc, graph, plan, next, out)?,
            None => return Ok(()),
        }
    }
    Err(TreeEnd::Memory)
}

/// Prints a line.
fn show<O: Sink>(out: &mut O, line: &str) -> Result<(), TreeEnd>
    ensures { PrintsTree O.meaning line.now out.old out.new result }
{
    Ok(print(out, line)?)
}

impl<'a> Walk<'a> {
    /// A walk that begins at these, over so many nodes.
    fn new(alloc: Global, nodes: usize, children: &'a [NodeId]) -> Result<Walk<'a>, Memory>
        ensures { IfOk result (IsBegun nodes children.now) }
    {
        let is_open = Vec::from_elem(alloc, false, nodes)?;
        let mut levels = Vec::new(alloc);
        levels.push(Level {
            left: children,
            is_under_last: true,
        })?;
        Ok(Walk { levels, is_open })
    }

    /// Takes the next node off, and levels with nothing left.
    fn take(&mut self) -> Result<Option<Next>, Memory>
        ensures { IfOk result (λ next. MatchOption next (IsOver self.old) (Takes self.old self.new)) }
    {
        while let Some(level) = self.levels.pop() {
            if let [node, rest @ ..] = level.left {
                let next = Next {
                    node: *node,
                    is_last: rest.is_empty(),
                };
                self.levels.push(Level {
                    left: rest,
                    is_under_last: level.is_under_last,
                })?;
                return Ok(Some(next));
            }
        }
        Ok(None)
    }

    /// Prints the line of a node. Its children are next where they stand below it.
    fn write<O: Sink>(
        &mut self,
        alloc: Global,
        graph: &'a Graph,
        plan: &'a Plan,
        next: Next,
        out: &mut O,
    ) -> Result<(), TreeEnd>
        requires within { IsWithin (length graph.now.nodes) self.old }
        requires inner { 0 < length (sides_of self.old) }
        ensures within { OnOk result (IsWithin (length graph.now.nodes) self.new) }
        ensures writes { Writes O.meaning (shown_in graph.now plan.now) (length graph.now.nodes) next self.old self.new out.old out.new result }
    {
        let children = children_of(graph, plan, next.node);
        let form = form_of(children, self.is_open(next.node));
        let text = self.row(alloc, graph, form, next.node)?;
        show(out, text.as_str())?;
        self.go_below(form, next, children)?;
        Ok(())
    }

    /// Whether a node stands with its children.
    fn is_open(&self, node: NodeId) -> bool
        ensures { result ≡ get_or self.now.is_open.items node.0 false }
    {
        match self.is_open.get(node.0 as usize) {
            Some(is_open) => *is_open,
            None => false,
        }
    }

    /// The line of a node on the innermost level.
    fn row(&self, alloc: Global, graph: &Graph, form: Form, node: NodeId) -> Result<String, Memory>
        ensures text { IfOk result (λ text. string_bytes text
            ≡ line_text (row_text (margin_of [] (sides_of self.now)) (name_text form (path_in graph.now.nodes node)))) }
        ensures within { IfOk result (λ _. node.0 < length graph.now.nodes) }
    {
        let path = path_of(graph, node)?;
        let mut text = margin_text(alloc, self.levels.as_slice())?;
        push_row(&mut text, form, path.as_str())?;
        Ok(text)
    }

    /// The children of a node are next where they stand below it.
    fn go_below(&mut self, form: Form, next: Next, children: &'a [NodeId]) -> Result<(), Memory>
        ensures { OnOk result (GoesBelow form self.old self.new next children.now) }
    {
        match form {
            Form::Leaf | Form::Pruned => Ok(()),
            Form::Open => {
                self.set_open(next.node);
                self.levels.push(Level {
                    left: children,
                    is_under_last: next.is_last,
                })?;
                Ok(())
            }
        }
    }

    fn set_open(&mut self, node: NodeId)
        ensures levels { self.new.levels ≡ self.old.levels }
        ensures marks { self.new.is_open.items ≡ slice_set self.old.is_open.items node.0 true }
    {
        let number = node.0 as usize;
        if number < self.is_open.len() {
            self.is_open[number] = true;
        }
    }
}

/// The margin of the innermost level.
fn margin_text(alloc: Global, levels: &[Level<'_>]) -> Result<String, Memory>
    ensures { IfOk result (λ text. string_bytes text ≡ margin_of [] (map side_of levels.now)) }
{
    let mut text = String::new(alloc);
    for level in levels {
        text.push_str(piece(level.is_under_last))?;
    }
    Ok(text)
}

fn piece(is_under_last: bool) -> &'static str
    ensures { result.now ≡ piece is_under_last }
{
    if is_under_last { "  " } else { "| " }
}

/// Adds a node behind its margin.
fn push_row(text: &mut String, form: Form, path: &str) -> Result<(), Memory>
    ensures { OnOk result (string_bytes text.new ≡ line_text (row_text (string_bytes text.old) (name_text form path.now))) }
{
    match form {
        Form::Leaf | Form::Open => push_pieces(text, "+-", path, "\n"),
        Form::Pruned => push_pieces(text, "+-[", path, "]\n"),
    }
}

fn push_pieces(text: &mut String, front: &str, path: &str, back: &str) -> Result<(), Memory>
    ensures { OnOk result (string_bytes text.new ≡ string_bytes text.old ++ front.now ++ path.now ++ back.now) }
{
    text.push_str(front)?;
    text.push_str(path)?;
    text.push_str(back)?;
    Ok(())
}

fn form_of(children: &[NodeId], is_open: bool) -> Form
    ensures { result ≡ form_of children.now is_open }
{
    match (children, is_open) {
        ([], _) => Form::Leaf,
        (_, true) => Form::Pruned,
        (_, false) => Form::Open,
    }
}

/// What stands below a node: the dependencies of its rule.
pub(crate) fn children_of<'a>(graph: &'a Graph, plan: &'a Plan, node: NodeId) -> &'a [NodeId]
    ensures { result.now ≡ children_of graph.now plan.now node }
{
    match graph.rule_of(node) {
        Some(rule) => plan.deps(rule),
        None => &[],
    }
}
