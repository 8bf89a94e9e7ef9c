//! What is declared for the build: `t` is a copy of `s`.
ghost use Rattle.std.specs.Prelude.{◌≡◌, ◌∷◌, [], codes, IfSome};
ghost use Rattle.node_tree.specs.Nodes.{Interns};
ghost use Rattle.rule_graph.specs.Graphs.{empty_graph};
ghost use Rattle.build_samples.specs.Copies.{copy_graph, copy_rule, target_node};

use rule_graph::{Graph, Rule};
use scons_base::{Listing, NodeId, PathText, Paths, Text, Texts};
use std::alloc::Global;
use world_api::{Decider, Work};

/// The graph of the copy, with the node of `t`.
pub(crate) fn declare_copy(alloc: Global) -> Option<(Graph, NodeId)>
    ensures { IfSome result (λ declared. (declared.0 ≡ copy_graph) × (declared.1 ≡ target_node)) }
{
    let mut graph = empty_graph(alloc)?;
    let target = node_of(alloc, &mut graph, "t")?;
    let source = node_of(alloc, &mut graph, "s")?;
    let rule = copy_rule(alloc, target, source)?;
    match graph.add_rule(rule) {
        Ok(_) => Some((graph, target)),
        Err(_) => None,
    }
}

/// A graph in which nothing is declared.
fn empty_graph(alloc: Global) -> Option<Graph>
    ensures { IfSome result (λ graph. graph ≡ empty_graph (codes "/top")) }
{
    let top = PathText::read(alloc, "/top").ok()?;
    Graph::new(alloc, top).ok()
}

/// The node of a path.
fn node_of(alloc: Global, graph: &mut Graph, path: &str) -> Option<NodeId>
    ensures node { IfSome result (λ node. Interns graph.old.nodes path.now node.0 graph.new.nodes) }
    ensures rest { graph.new ≡ record graph.old { nodes = graph.new.nodes } }
{
    let path = PathText::read(alloc, path).ok()?;
    graph.intern(&path).ok()
}

/// The rule that makes a target as a copy of a source.
fn copy_rule(alloc: Global, target: NodeId, source: NodeId) -> Option<Rule>
    ensures { IfSome result (λ rule. rule ≡ copy_rule target source) }
{
    Some(Rule {
        work: Work::Copy,
        targets: only(alloc, target)?,
        sources: only(alloc, source)?,
        libs: Listing::empty(alloc),
        depends: Listing::empty(alloc),
        required: Listing::empty(alloc),
        ignored: Listing::empty(alloc),
        lines: Listing::empty(alloc),
        signed: Texts::new(Vec::new(alloc)),
        paths: Paths::new(Vec::new(alloc)),
        scans: false,
        always: false,
        decider: Decider::Content,
        builder: Text::of(alloc, "InstallAs").ok()?,
    })
}

/// The list of one node.
fn only(alloc: Global, node: NodeId) -> Option<Listing<NodeId>>
    ensures { IfSome result (λ nodes. nodes ≡ node ∷ []) }
{
    let nodes = vec![in alloc; node].ok()?;
    Some(Listing::new(nodes))
}
