//! How a graph is told: each rule with its nodes and lines, then the aliases that are asked for, defaults and helps.
use rule_graph::{Graph, Rule, Wish};
use scons_base::{NodeId, PathText, RuleId, Text};
use trial_text::Told;
use world_api::{Decider, Line, Work};

/// Tells the rules of a graph in their order, the members of the aliases of these names, defaults and helps.
pub(crate) fn put_graph(told: &mut Told, graph: &Graph, aliases: &[Text]) {
    put_rules(told, graph);
    put_aliases(told, graph, aliases);
    put_defaults(told, graph.defaults());
    for help in graph.helps() {
        told.put_all(&["help ", help.as_str(), "\n"]);
    }
}

fn put_rules(told: &mut Told, graph: &Graph) {
    for number in 0..graph.rules() {
        put_rule(told, graph, graph.rule(RuleId(number)));
    }
}

fn put_aliases(told: &mut Told, graph: &Graph, names: &[Text]) {
    for name in names {
        if let Some(members) = graph.alias(name.as_str()) {
            put_alias(told, graph, name.as_str(), members);
        }
    }
}

/// A line with an alias and its members, where it has members.
fn put_alias(told: &mut Told, graph: &Graph, name: &str, members: &[NodeId]) {
    if !members.is_empty() {
        told.put_all(&["alias ", name]);
        put_paths(told, graph, " ", members);
        told.put("\n");
    }
}

fn put_defaults(told: &mut Told, wishes: &[Wish]) {
    for wish in wishes {
        match wish {
            Wish::Alias(name) => told.put_all(&["default alias ", name.as_str(), "\n"]),
            Wish::Path(path) => told.put_all(&["default path ", path.as_str(), "\n"]),
        }
    }
}

fn put_rule(told: &mut Told, graph: &Graph, rule: &Rule) {
    put_paths(told, graph, "", rule.targets.as_slice());
    told.put(" <-");
    put_paths(told, graph, " ", rule.sources.as_slice());
    put_marks(told, rule);
    told.put("\n");
    put_nodes(told, graph, "  libs ", rule.libs.as_slice());
    put_nodes(told, graph, "  depends ", rule.depends.as_slice());
    put_nodes(told, graph, "  required ", rule.required.as_slice());
    put_nodes(told, graph, "  ignored ", rule.ignored.as_slice());
    if rule.scans {
        put_search(told, rule.paths.as_slice());
    }
    put_lines(told, rule.lines.as_slice());
    put_signed(told, rule);
}

/// What is told of a rule beside its nodes and lines.
fn put_marks(told: &mut Told, rule: &Rule) {
    match rule.work {
        Work::Shell => {}
        Work::Copy => told.put(" (copy)"),
        Work::Write => told.put(" (write)"),
    }
    match rule.decider {
        Decider::Content => {}
        Decider::Newer => told.put(" (newer)"),
        Decider::Match => told.put(" (match)"),
        Decider::ContentMatch => told.put(" (content-match)"),
    }
    if rule.always {
        told.put(" (always)");
    }
}

/// A line with nodes behind a title, where there are nodes.
fn put_nodes(told: &mut Told, graph: &Graph, title: &str, nodes: &[NodeId]) {
    if !nodes.is_empty() {
        put_paths(told, graph, title, nodes);
        told.put("\n");
    }
}

/// The paths of nodes with a blank between two of them, and a text before the first.
fn put_paths(told: &mut Told, graph: &Graph, first: &str, nodes: &[NodeId]) {
    let mut before = first;
    for node in nodes {
        told.put(before);
        put_path(told, graph, *node);
        before = " ";
    }
}

/// The path of a node, which is one of the graph's.
fn put_path(told: &mut Told, graph: &Graph, node: NodeId) {
    if node.0 < graph.len() {
        told.put(graph.path(node).as_str());
    } else {
        told.refuse();
    }
}

/// A line with the directories in which included files are looked for, where there are any.
fn put_search(told: &mut Told, dirs: &[PathText]) {
    if dirs.is_empty() {
        return;
    }
    told.put("  search");
    for dir in dirs {
        told.put_all(&[" ", dir.as_str()]);
    }
    told.put("\n");
}

fn put_lines(told: &mut Told, lines: &[Line]) {
    for line in lines {
        let quiet = if line.quiet { "@" } else { "" };
        let ignore = if line.ignore { "-" } else { "" };
        told.put_all(&["  ", quiet, ignore, line.text.as_str(), "\n"]);
    }
}

/// The signed lines that differ from the lines in their places.
fn put_signed(told: &mut Told, rule: &Rule) {
    for (place, signed) in rule.signed.as_slice().iter().enumerate() {
        if !is_line(rule.lines.as_slice().get(place), signed) {
            told.put_all(&["  signed ", signed.as_str(), "\n"]);
        }
    }
}

fn is_line(line: Option<&Line>, signed: &Text) -> bool {
    match line {
        Some(line) => line.text == *signed,
        None => false,
    }
}
