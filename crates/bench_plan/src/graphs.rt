//! Graphs of many rules.
ghost use Rattle.std.specs.Prelude.{◌≡◌, true};
ghost use Rattle.rule_graph.specs.Rules.{are_below, IsRule};

use rule_graph::{Graph, Rule};
use scons_base::{Listing, NodeId, PathText, Paths, Text, Texts};
use std::alloc::Global;
use trial_text::Told;
use world_api::{Decider, Work};

/// There is a header for so many sources.
pub const SOURCES: u32 = 10;

/// A graph without rules.
pub fn empty_graph(alloc: Global) -> Option<Graph> {
    let top = PathText::read(alloc, "/top").ok()?;
    Graph::new(alloc, top).ok()
}

/// Adds rules with a source each, and one that needs all of them, whose target it gives. The first nodes are headers.
pub fn add_wide(alloc: Global, told: &mut Told, graph: &mut Graph, count: u32) -> NodeId {
    for number in 0..count / SOURCES {
        numbered(alloc, told, graph, "h", number, ".h");
    }
    let wanted = node(alloc, told, graph, "all");
    let objects = objects_of(alloc, told, graph, count);
    add(alloc, told, graph, wanted, objects);
    wanted
}

/// Adds rules each of which needs the one before it, and the first one a source. Gives the last one's target.
pub fn add_chain(alloc: Global, told: &mut Told, graph: &mut Graph, count: u32) -> NodeId {
    let source = node(alloc, told, graph, "s");
    add_behind(alloc, told, graph, count, source)
}

/// The same, where the first one needs the last one.
pub fn add_ring(alloc: Global, told: &mut Told, graph: &mut Graph, count: u32) -> NodeId {
    let last = numbered(alloc, told, graph, "t", count.saturating_sub(1), "");
    add_behind(alloc, told, graph, count, last)
}

/// Adds the rules of a chain behind a node.
fn add_behind(
    alloc: Global,
    told: &mut Told,
    graph: &mut Graph,
    count: u32,
    first: NodeId,
) -> NodeId {
    let mut before = first;
    for number in 0..count {
        let target = numbered(alloc, told, graph, "t", number, "");
        let sources = list_of(alloc, told, before);
        add(alloc, told, graph, target, sources);
        before = target;
    }
    before
}

/// The objects of sources, each with its rule.
fn objects_of(alloc: Global, told: &mut Told, graph: &mut Graph, count: u32) -> Vec<NodeId> {
    let mut objects = Vec::new(alloc);
    for number in 0..count {
        let source = numbered(alloc, told, graph, "s", number, ".c");
        let object = numbered(alloc, told, graph, "s", number, ".o");
        let sources = list_of(alloc, told, source);
        add(alloc, told, graph, object, sources);
        told.keep(&mut objects, object);
    }
    objects
}

/// The list of one node.
fn list_of(alloc: Global, told: &mut Told, node: NodeId) -> Vec<NodeId> {
    let mut nodes = Vec::new(alloc);
    told.keep(&mut nodes, node);
    nodes
}

/// The node of a name that a number stands in.
fn numbered(
    alloc: Global,
    told: &mut Told,
    graph: &mut Graph,
    name: &str,
    number: u32,
    suffix: &str,
) -> NodeId {
    match format!(in alloc; "{name}{number}{suffix}") {
        Ok(text) => node(alloc, told, graph, text.as_str()),
        Err(_) => no_node(told),
    }
}

/// The node of a path.
fn node(alloc: Global, told: &mut Told, graph: &mut Graph, text: &str) -> NodeId {
    match PathText::read(alloc, text) {
        Ok(path) => node_at(told, graph, &path),
        Err(_) => no_node(told),
    }
}

fn node_at(told: &mut Told, graph: &mut Graph, path: &PathText) -> NodeId {
    match graph.intern(path) {
        Ok(node) => node,
        Err(_) => no_node(told),
    }
}

/// What stands for a node where there is none, which refuses the line.
fn no_node(told: &mut Told) -> NodeId {
    told.refuse();
    NodeId(0)
}

/// Adds the rule that makes a target of sources, which scans them.
fn add(alloc: Global, told: &mut Told, graph: &mut Graph, target: NodeId, sources: Vec<NodeId>) {
    let targets = list_of(alloc, told, target);
    let rule = Rule {
        work: Work::Shell,
        targets: Listing::new(targets),
        sources: Listing::new(sources),
        libs: Listing::empty(alloc),
        depends: Listing::empty(alloc),
        required: Listing::empty(alloc),
        ignored: Listing::empty(alloc),
        lines: Listing::empty(alloc),
        signed: Texts::new(Vec::new(alloc)),
        paths: Paths::new(Vec::new(alloc)),
        scans: true,
        always: false,
        decider: Decider::Content,
        builder: Text::new(String::new(alloc)),
    };
    add_rule(told, graph, rule);
}

fn add_rule(told: &mut Told, graph: &mut Graph, rule: Rule) {
    if !is_rule(graph.len(), &rule) {
        return told.refuse();
    }
    if graph.add_rule(rule).is_err() {
        told.refuse();
    }
}

/// Whether a rule with one target may stand in a graph of so many nodes.
fn is_rule(len: u32, rule: &Rule) -> bool
    ensures { result ≡ true → IsRule len rule.now }
{
    match rule.targets.as_slice() {
        [target] => {
            target.0 < len
                && all_below(len, rule.sources.as_slice())
                && all_below(len, rule.libs.as_slice())
                && all_below(len, rule.depends.as_slice())
                && all_below(len, rule.required.as_slice())
                && all_below(len, rule.ignored.as_slice())
        }
        _ => false,
    }
}

/// Whether these are nodes of a graph of so many.
fn all_below(len: u32, nodes: &[NodeId]) -> bool
    ensures { result ≡ are_below len nodes.now }
{
    nodes.iter().all(|node| node.0 < len)
}
