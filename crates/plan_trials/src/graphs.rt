//! The graph that a plan is made for, of the rules that stand in plain lists.
ghost use Rattle.std.specs.Prelude.{◌≡◌, true};
ghost use Rattle.rule_graph.specs.Rules.{are_below, IsRule};

use model_trials::reach::PlainRule;
use model_trials::spots::Spot;
use rule_graph::{Graph, Rule};
use scons_base::{Listing, NodeId, PathText, Paths, Text, Texts};
use std::alloc::Global;
use trial_text::Told;
use world_api::{Decider, Work};

/// A graph without nodes.
pub fn empty_graph(alloc: Global) -> Option<Graph> {
    let top = PathText::read(alloc, "/top").ok()?;
    Graph::new(alloc, top).ok()
}

/// Adds a node for each target, by the number of its rule, and behind them one for the source.
pub fn add_paths(alloc: Global, told: &mut Told, graph: &mut Graph) {
    for name in "0.h 1.h 2.h 3.h s.h".split(' ') {
        match PathText::read(alloc, name) {
            Ok(path) => add_path(told, graph, &path),
            Err(_) => told.refuse(),
        }
    }
}

fn add_path(told: &mut Told, graph: &mut Graph, path: &PathText) {
    if graph.intern(path).is_err() {
        told.refuse();
    }
}

/// The path of a node.
pub fn spot_of(node: NodeId) -> Spot {
    match u8::try_from(node.0) {
        Ok(letter) => Spot::new(letter),
        Err(_) => Spot::new(u8::MAX),
    }
}

/// The nodes of some paths.
pub fn nodes_of(alloc: Global, told: &mut Told, spots: &[Spot]) -> Listing<NodeId> {
    let mut nodes = Vec::new(alloc);
    for spot in spots {
        told.keep(&mut nodes, NodeId(u32::from(spot.letter())));
    }
    Listing::new(nodes)
}

/// Adds a rule, where it may stand in the graph.
pub fn add_rule(alloc: Global, told: &mut Told, graph: &mut Graph, plain: &PlainRule) {
    let rule = rule_of(alloc, told, plain);
    if !is_rule(graph.len(), &rule) {
        return told.refuse();
    }
    if graph.add_rule(rule).is_err() {
        told.refuse();
    }
}

/// The rule that plain lists say.
fn rule_of(alloc: Global, told: &mut Told, plain: &PlainRule) -> Rule {
    Rule {
        work: if plain.keeps_sources {
            Work::Copy
        } else {
            Work::Shell
        },
        targets: nodes_of(alloc, told, plain.targets.as_slice()),
        sources: nodes_of(alloc, told, plain.sources.as_slice()),
        libs: nodes_of(alloc, told, plain.libraries.as_slice()),
        depends: nodes_of(alloc, told, plain.depends.as_slice()),
        required: nodes_of(alloc, told, plain.required.as_slice()),
        ignored: nodes_of(alloc, told, plain.ignored.as_slice()),
        lines: Listing::empty(alloc),
        signed: Texts::new(Vec::new(alloc)),
        paths: Paths::new(Vec::new(alloc)),
        scans: !plain.scanned.is_empty(),
        always: false,
        decider: Decider::Content,
        builder: Text::new(String::new(alloc)),
    }
}

/// Whether a rule with one target may stand in a graph of so many nodes.
fn is_rule(len: u32, rule: &Rule) -> bool
    ensures { result ≡ true → IsRule len rule.now }
{
    match rule.targets.as_slice() {
        [target] => {
            target.0 < len
                && all_below(len, rule.sources.as_slice())
                && all_below(len, rule.libs.as_slice())
                && all_below(len, rule.depends.as_slice())
                && all_below(len, rule.required.as_slice())
                && all_below(len, rule.ignored.as_slice())
        }
        _ => false,
    }
}

/// Whether these are nodes of a graph of so many.
fn all_below(len: u32, nodes: &[NodeId]) -> bool
    ensures { result ≡ are_below len nodes.now }
{
    nodes.iter().all(|node| node.0 < len)
}
