//! The copy rules of variant directories, added as their paths come up.
ghost use Rattle.std.specs.List.{list_any};
ghost use Rattle.std.specs.Prelude.{◌≡◌, ◌<◌, ℕ, List, Some, None, true, length, slice_get, is_some, IfOk, OnOk, [], ◌∷◌, ◌++◌, ◌||◌, false, not, filter};
ghost use Rattle.rule_graph.specs.Rules.{rule_of, IsRule};
ghost use Rattle.rule_graph.specs.declared.rule.Rule.{Rule as DeclaredRule};
ghost use Rattle.world_api.specs.Around.{Around};
ghost use Rattle.build_means.specs.Copies.{copied_from as copied_in};
ghost use Rattle.build_means.specs.Grown.{Begun};
ghost use Rattle.build_files.specs.Causes.{HasLookCause, IsQuiet};
ghost use Rattle.build_files.specs.Copying.{copying};
ghost use Rattle.build_files.specs.Reading.{ReadsOnly};
ghost use Rattle.build_files.specs.Kept.{includes_in, past, AreTrue, Gives, IsLeftAlone, IsStill, LooksAt, SameGone, StaysTrue};
ghost use Rattle.build_files.specs.Marked.{is_among, was_settled, AreAllSought, AreGoneOver, AreGoneOverBut, AreGoneOverFor, AreGoneOverWith, AreNamedSought, IsNamedBy, IsRuleMarked, KeepsMarks, KeepsRules, KeepsSought, Marks, PutsBehind};
ghost use Rattle.build_files.specs.Searched.{meant, AreNodesOf, GrowsTo};
ghost use Rattle.world_api.specs.Looks.{Looks};

use crate::end::ListEnd;
use crate::inputs::Inputs;
use crate::known::copied_from;
use crate::lookup::{path_of, rule_at};
use indexmap::IndexSet;
use rule_graph::{Graph, Rule};
use scons_base::{Listing, Memory, NodeId, PathText, Paths, RuleId, Text, Texts};
use std::alloc::Global;
use world_api::{Decider, Work, World};

impl Inputs {
    /// The files that a file includes as a rule finds them. Their copy rules are added, but for those that the rule leaves
    /// out.
    #[tactic(auto, using(crate::proofs::Looking::looking))]
    pub fn scanned<W: World>(
        &mut self,
        world: &mut W,
        graph: &mut Graph,
        rule: RuleId,
        file: NodeId,
    ) -> Result<Listing<NodeId>, ListEnd>
        ensures looks { Looks W.meaning world.old world.new }
        ensures cause { HasLookCause (W.meaning.counts world.old) (W.meaning.counts world.new) result }
        ensures grows { GrowsTo graph.old graph.new }
        ensures gone { SameGone self.old self.new }
        ensures only { ReadsOnly (file ∷ []) self.old self.new }
        ensures truth { IsStill graph.old (W.meaning.around world.old) file.0
            → StaysTrue W.meaning graph.old self.old world.old graph.new self.new world.new }
        ensures found { IsStill graph.old (W.meaning.around world.old) file.0 → (x : DeclaredRule) (path : List ℕ)
            → slice_get graph.old.rules rule.0 ≡ Some x → slice_get graph.old.nodes file.0 ≡ Some path
            → Gives W.meaning graph.old self.old world.old world.new result (λ b found. AreNodesOf graph.new
            (meant b x.paths path (includes_in (past self.old.gone.keys (W.meaning.around world.old).tree path))) found) }
        ensures looked { AreGoneOver graph.old self.old → IfOk result (AreGoneOverFor graph.new self.new rule.0) }
    {
        let found = self.scan(world, graph, rule, file)?;
        self.add_found(world, graph, rule, &found)?;
        Ok(found)
    }

    /// Adds the copy rules of included files, but for those that the rule leaves out.
    #[tactic(auto, using(crate::proofs::Looking::looking))]
    fn add_found<W: World>(
        &mut self,
        world: &mut W,
        graph: &mut Graph,
        rule: RuleId,
        found: &Listing<NodeId>,
    ) -> Result<(), ListEnd>
        ensures looks { Looks W.meaning world.old world.new }
        ensures cause { HasLookCause (W.meaning.counts world.old) (W.meaning.counts world.new) result }
        ensures grows { GrowsTo graph.old graph.new }
        ensures gone { SameGone self.old self.new }
        ensures only { ReadsOnly [] self.old self.new }
        ensures truth { StaysTrue W.meaning graph.old self.old world.old graph.new self.new world.new }
        ensures looked { AreGoneOver graph.old self.old → OnOk result (AreGoneOverFor graph.new self.new rule.0 found.now) }
    {
        if !has_copies(graph) {
            return Ok(());
        }
        let kept = files_kept(self.alloc, rule_at(graph, rule)?, found)?;
        self.add_copies(world, graph, kept.as_slice())
    }

    /// Adds the copy rules of these files and of all that the rules of these need, as far as they name it.
    #[tactic(auto, using(crate::proofs::Looking::looking))]
    pub fn add_copies<W: World>(
        &mut self,
        world: &mut W,
        graph: &mut Graph,
        nodes: &[NodeId],
    ) -> Result<(), ListEnd>
        ensures looks { Looks W.meaning world.old world.new }
        ensures cause { HasLookCause (W.meaning.counts world.old) (W.meaning.counts world.new) result }
        ensures grows { GrowsTo graph.old graph.new }
        ensures gone { SameGone self.old self.new }
        ensures only { ReadsOnly [] self.old self.new }
        ensures truth { StaysTrue W.meaning graph.old self.old world.old graph.new self.new world.new }
        ensures looked { AreGoneOver graph.old self.old → OnOk result (AreGoneOverWith graph.new self.new nodes.now) }
    {
        if !has_copies(graph) {
            return Ok(());
        }
        let mut rules = Vec::new(self.alloc);
        self.add_each_copy(world, graph, nodes, &mut rules)?;
        self.add_rest(world, graph, &mut rules)
    }

    /// Adds the copy rules of the files that these rules name, and puts the rules of those behind.
    #[tactic(auto, using(crate::proofs::Looking::looking))]
    fn add_rest<W: World>(
        &mut self,
        world: &mut W,
        graph: &mut Graph,
        rules: &mut Vec<RuleId>,
    ) -> Result<(), ListEnd>
        ensures looks { Looks W.meaning world.old world.new }
        ensures cause { HasLookCause (W.meaning.counts world.old) (W.meaning.counts world.new) result }
        ensures grows { GrowsTo graph.old graph.new }
        ensures gone { SameGone self.old self.new }
        ensures only { ReadsOnly [] self.old self.new }
        ensures truth { StaysTrue W.meaning graph.old self.old world.old graph.new self.new world.new }
        ensures looked { AreGoneOverBut graph.old self.old rules.old.items → OnOk result (AreGoneOverBut graph.new self.new []) }
        ensures sought { OnOk result (KeepsSought graph.old self.old graph.new self.new) }
    {
        for place in 0..usize::MAX {
            let Some(rule) = rules.get(place).copied() else {
                return Ok(());
            };
            self.add_named(world, graph, rule, rules)?;
        }
        Err(ListEnd::Memory)
    }

    /// Adds the copy rules of the files that a rule names.
    #[tactic(auto, using(crate::proofs::Looking::looking))]
    fn add_named<W: World>(
        &mut self,
        world: &mut W,
        graph: &mut Graph,
        rule: RuleId,
        rules: &mut Vec<RuleId>,
    ) -> Result<(), ListEnd>
        ensures looks { Looks W.meaning world.old world.new }
        ensures cause { HasLookCause (W.meaning.counts world.old) (W.meaning.counts world.new) result }
        ensures grows { GrowsTo graph.old graph.new }
        ensures gone { SameGone self.old self.new }
        ensures only { ReadsOnly [] self.old self.new }
        ensures truth { StaysTrue W.meaning graph.old self.old world.old graph.new self.new world.new }
        ensures looked { OnOk result (PutsBehind graph.old self.old graph.new self.new rules.old.items rules.new.items) }
        ensures named { (of : DeclaredRule) → slice_get graph.old.rules rule.0 ≡ Some of → OnOk result (AreNamedSought graph.new self.new of) }
    {
        let nodes = files_named(self.alloc, rule_at(graph, rule)?)?;
        self.add_each_copy(world, graph, nodes.as_slice(), rules)
    }

    /// Adds the copy rules of these files, and puts those of their rules behind that weren't looked at.
    #[tactic(auto, using(crate::proofs::Looking::looking))]
    fn add_each_copy<W: World>(
        &mut self,
        world: &mut W,
        graph: &mut Graph,
        nodes: &[NodeId],
        rules: &mut Vec<RuleId>,
    ) -> Result<(), ListEnd>
        ensures looks { Looks W.meaning world.old world.new }
        ensures cause { HasLookCause (W.meaning.counts world.old) (W.meaning.counts world.new) result }
        ensures grows { GrowsTo graph.old graph.new }
        ensures gone { SameGone self.old self.new }
        ensures only { ReadsOnly [] self.old self.new }
        ensures truth { StaysTrue W.meaning graph.old self.old world.old graph.new self.new world.new }
        ensures looked { OnOk result (PutsBehind graph.old self.old graph.new self.new rules.old.items rules.new.items) }
        ensures sought { OnOk result (AreAllSought graph.new self.new nodes.now) }
    {
        for node in nodes {
            self.add_copy(world, graph, *node)?;
            self.add_rule(graph, *node, rules)?;
        }
        Ok(())
    }

    /// Puts the rule of a file behind others, unless it was looked at.
    fn add_rule(
        &mut self,
        graph: &Graph,
        node: NodeId,
        rules: &mut Vec<RuleId>,
    ) -> Result<(), Memory>
        ensures looks { LooksAt self.old self.new }
        ensures looked { OnOk result (PutsBehind graph.now self.old graph.now self.new rules.old.items rules.new.items) }
        ensures marked { OnOk result (IsRuleMarked graph.now self.new node.0) }
    {
        let Some(rule) = graph.rule_of(node) else {
            return Ok(());
        };
        if self.look_at(rule)? {
            rules.push(rule)?;
        }
        Ok(())
    }

    /// Notes that a rule was looked at, and says whether it wasn't before.
    fn look_at(&mut self, rule: RuleId) -> Result<bool, Memory>
        ensures looks { LooksAt self.old self.new }
        ensures marks { IfOk result (Marks self.old self.new rule.0) }
    {
        let number = rule.0 as usize;
        for _ in self.looked_at.len()..number.saturating_add(1) {
            self.looked_at.push(false)?;
        }
        match self.looked_at.get_mut(number) {
            Some(looked_at) if !*looked_at => {
                *looked_at = true;
                Ok(true)
            }
            _ => Ok(false),
        }
    }

    /// Adds the copy rule of a file, where it has one.
    #[tactic(auto, using(crate::proofs::Looking::looking))]
    fn add_copy<W: World>(
        &mut self,
        world: &mut W,
        graph: &mut Graph,
        node: NodeId,
    ) -> Result<(), ListEnd>
        ensures looks { Looks W.meaning world.old world.new }
        ensures cause { HasLookCause (W.meaning.counts world.old) (W.meaning.counts world.new) result }
        ensures grows { GrowsTo graph.old graph.new }
        ensures gone { SameGone self.old self.new }
        ensures only { ReadsOnly [] self.old self.new }
        ensures truth { StaysTrue W.meaning graph.old self.old world.old graph.new self.new world.new }
        ensures marks { KeepsMarks graph.old self.old graph.new self.new }
        ensures settled { OnOk result (rule_of graph.new.rules node.0 ≡ None → was_settled self.new node.0 ≡ true) }
    {
        graph.laws();
        if graph.rule_of(node).is_some() {
            return Ok(());
        }
        if self.files.is_settled(node) {
            return Ok(());
        }
        self.add_copy_of(world, graph, node)?;
        Ok(self.files.settle(node)?)
    }

    /// Adds the copy rule of a file without a rule, where it has one.
    #[tactic(auto, using(crate::proofs::Looking::looking))]
    fn add_copy_of<W: World>(
        &self,
        world: &mut W,
        graph: &mut Graph,
        node: NodeId,
    ) -> Result<(), ListEnd>
        ensures looks { Looks W.meaning world.old world.new }
        ensures cause { HasLookCause (W.meaning.counts world.old) (W.meaning.counts world.new) result }
        ensures grows { GrowsTo graph.old graph.new }
        ensures truth { rule_of graph.old.rules node.0 ≡ None → W.meaning.tells world.new → (b : Begun)
            → AreTrue b graph.old self.now (W.meaning.around world.old) → AreTrue b graph.new self.now (W.meaning.around world.new) }
        ensures left { rule_of graph.old.rules node.0 ≡ None
            → Gives W.meaning graph.old self.now world.old world.new result (λ b _. IsLeftAlone b graph.new node.0) }
        ensures rules { rule_of graph.old.rules node.0 ≡ None → KeepsRules graph.old graph.new node.0 }
    {
        graph.laws();
        match copied_from(world, graph, self.declared, path_of(graph, node)?)? {
            Some(source) => add_copy_rule(self.alloc, graph, node, &source),
            None => Ok(()),
        }
    }
}

/// Adds the rule that copies a file from a path.
#[tactic(auto, using(crate::proofs::Looking::looking))]
fn add_copy_rule(
    alloc: Global,
    graph: &mut Graph,
    node: NodeId,
    source: &PathText,
) -> Result<(), ListEnd>
    requires { node.0 < length graph.old.nodes }
    ensures quiet { IsQuiet result }
    ensures grows { GrowsTo graph.old graph.new }
    ensures truth { (b : Begun) (inputs : Inputs) (around : Around) (path : List ℕ) → slice_get graph.old.nodes node.0 ≡ Some path
        → rule_of graph.old.rules node.0 ≡ None → copied_in b.graph b.tree path ≡ Some source.now
        → AreTrue b graph.old inputs around → AreTrue b graph.new inputs around }
    ensures made { rule_of graph.old.rules node.0 ≡ None → OnOk result (is_some (rule_of graph.new.rules node.0) ≡ true) }
    ensures rules { rule_of graph.old.rules node.0 ≡ None → KeepsRules graph.old graph.new node.0 }
{
    graph.laws();
    let source = graph.intern(source)?;
    graph.laws();
    let rule = copy_rule(alloc, node, source)?;
    let _ = graph.add_rule(rule)?;
    graph.laws();
    Ok(())
}

/// The files that a rule doesn't leave out: neither its ignored ones nor its targets.
fn files_kept(alloc: Global, rule: &Rule, found: &Listing<NodeId>) -> Result<Vec<NodeId>, Memory>
    ensures { IfOk result (λ kept. (n : NodeId) → is_among found.now n ≡ true → is_among rule.now.ignored n ≡ false
        → is_among rule.now.targets n ≡ false → is_among kept.items n ≡ true) }
{
    let mut left_out = IndexSet::new(alloc);
    insert_all(&mut left_out, rule.ignored.as_slice())?;
    insert_all(&mut left_out, rule.targets.as_slice())?;
    let mut kept = Vec::new(alloc);
    add_kept(&mut kept, found, &left_out)?;
    Ok(kept)
}

/// The files that a rule names and that count: all but the ignored ones, and the sources of a copy in any case.
fn files_named(alloc: Global, rule: &Rule) -> Result<Vec<NodeId>, Memory>
    ensures { IfOk result (λ nodes. (n : NodeId) → IsNamedBy rule.now n → is_among nodes.items n ≡ true) }
{
    let mut nodes = Vec::new(alloc);
    nodes.extend_from_slice(rule.required.as_slice())?;
    let mut ignored = IndexSet::new(alloc);
    insert_all(&mut ignored, rule.ignored.as_slice())?;
    match rule.work {
        Work::Shell => add_kept(&mut nodes, &rule.sources, &ignored)?,
        Work::Copy | Work::Write => nodes.extend_from_slice(rule.sources.as_slice())?,
    }
    add_kept(&mut nodes, &rule.depends, &ignored)?;
    add_kept(&mut nodes, &rule.libs, &ignored)?;
    Ok(nodes)
}

fn insert_all(set: &mut IndexSet<NodeId>, nodes: &[NodeId]) -> Result<(), Memory>
    ensures { OnOk result ((n : NodeId) → is_among set.new.keys n ≡ (is_among set.old.keys n || is_among nodes.now n)) }
{
    for node in nodes {
        let _ = set.insert(*node)?;
    }
    Ok(())
}

/// Whether some variant directory has copies.
pub(crate) fn has_copies(graph: &Graph) -> bool
    ensures { result ≡ list_any (λ variant. variant.duplicate) graph.now.variants }
{
    graph
        .variants()
        .as_slice()
        .iter()
        .any(|variant| variant.duplicate)
}

/// Adds the files that aren't ignored.
fn add_kept(
    nodes: &mut Vec<NodeId>,
    named: &Listing<NodeId>,
    ignored: &IndexSet<NodeId>,
) -> Result<(), Memory>
    ensures { OnOk result (nodes.new.items ≡ nodes.old.items ++ filter (λ n. not (is_among ignored.now.keys n)) named.now) }
{
    for node in named.as_slice() {
        if !ignored.contains(node) {
            nodes.push(*node)?;
        }
    }
    Ok(())
}

/// The rule that copies a file. It has no line, and none is printed for it.
fn copy_rule(alloc: Global, target: NodeId, source: NodeId) -> Result<Rule, Memory>
    ensures rule { (nodes : ℕ) → target.0 < nodes → source.0 < nodes → IfOk result (IsRule nodes) }
    ensures is { IfOk result (λ rule. rule ≡ copying target source) }
{
    let mut targets = Listing::empty(alloc);
    targets.push(target)?;
    let mut sources = Listing::empty(alloc);
    sources.push(source)?;
    Ok(Rule {
        work: Work::Copy,
        targets,
        sources,
        libs: Listing::empty(alloc),
        depends: Listing::empty(alloc),
        required: Listing::empty(alloc),
        ignored: Listing::empty(alloc),
        lines: Listing::empty(alloc),
        signed: Texts::new(Vec::new(alloc)),
        paths: Paths::new(Vec::new(alloc)),
        scans: false,
        always: false,
        decider: Decider::Content,
        builder: Text::new(String::new(alloc)),
    })
}
