//! Numbers for paths.
ghost use Rattle.std.specs.Prelude.{◌≡◌, ◌≢◌, ◌<◌, ◌≤◌, ℕ, List, [], ◌++◌, ◌∷◌, Ok, Err, true, false, length, map, IfOk, IfErr, OnOk};
ghost use Rattle.std.specs.List.{list_any};
ghost use Rattle.std.specs.Str.{bytes_eq};
ghost use Rattle.scons_base.specs.declared.limits.TheConstants.{NODE_LIMIT};
ghost use Rattle.scons_rules.specs.Numbers.{each_once, interned, Numbers};

use crate::fault::RuleReadFault;
use env_subst::Named;
use indexmap::IndexSet;
use rule_graph::Graph;
use scons_base::{Listing, Memory, NodeId, PathText};
use std::alloc::Global;

/// Among so few paths one is looked for by going over them.
const FEW: usize = 16;

/// What has a path.
trait HasPath {
    ghost path_at: { Self → List ℕ };

    fn path(&self) -> &PathText
        ensures { result.now ≡ path_at self.now };
}

impl HasPath for PathText {
    ghost path_at = { λ p. p };

    fn path(&self) -> &PathText {
        self
    }
}

impl HasPath for Named {
    ghost path_at = { λ n. n.path };

    fn path(&self) -> &PathText {
        &self.path
    }
}

/// The numbers of these paths, each once.
pub(crate) fn nodes_of(
    alloc: Global,
    graph: &mut Graph,
    paths: &[PathText],
) -> Result<Listing<NodeId>, RuleReadFault>
    ensures ok { OnOk result (interned graph.old.nodes paths.now ≡ Ok graph.new.nodes) }
    ensures fault { IfErr result (λ e. e ≢ RuleReadFault.Memory → interned graph.old.nodes paths.now ≡ Err e) }
    ensures nodes { IfOk result (Numbers graph.old.nodes graph.new.nodes (each_once paths.now)) }
    ensures some { IfOk result (λ n. 0 < length paths.now → 0 < length n) }
    ensures rest { graph.new ≡ record graph.old { nodes = graph.new.nodes } }
{
    numbers_of(alloc, graph, paths)
}

/// The numbers of the paths of these nodes, each once.
pub(crate) fn named_nodes(
    alloc: Global,
    graph: &mut Graph,
    named: &[Named],
) -> Result<Listing<NodeId>, RuleReadFault>
    ensures ok { OnOk result (interned graph.old.nodes (map (λ n. n.path) named.now) ≡ Ok graph.new.nodes) }
    ensures fault { IfErr result (λ e. e ≢ RuleReadFault.Memory
        → interned graph.old.nodes (map (λ n. n.path) named.now) ≡ Err e) }
    ensures nodes { IfOk result (Numbers graph.old.nodes graph.new.nodes (each_once (map (λ n. n.path) named.now))) }
    ensures rest { graph.new ≡ record graph.old { nodes = graph.new.nodes } }
{
    numbers_of(alloc, graph, named)
}

/// How many paths these nodes have, each counted once.
pub(crate) fn count_once(alloc: Global, named: &[Named]) -> Result<usize, Memory>
    ensures { IfOk result (λ n. n ≡ length (each_once (map (λ n. n.path) named.now))) }
{
    let mut seen = IndexSet::new(alloc);
    for one in named {
        seen.insert(&one.path)?;
    }
    Ok(seen.len())
}

/// The numbers of the paths that these have, each once.
fn numbers_of<T: HasPath>(
    alloc: Global,
    graph: &mut Graph,
    paths: &[T],
) -> Result<Listing<NodeId>, RuleReadFault>
    ensures ok { OnOk result (interned graph.old.nodes (map T.path_at paths.now) ≡ Ok graph.new.nodes) }
    ensures fault { IfErr result (λ e. e ≢ RuleReadFault.Memory
        → interned graph.old.nodes (map T.path_at paths.now) ≡ Err e) }
    ensures nodes { IfOk result (Numbers graph.old.nodes graph.new.nodes (each_once (map T.path_at paths.now))) }
    ensures some { IfOk result (λ n. 0 < length paths.now → 0 < length n) }
    ensures rest { graph.new ≡ record graph.old { nodes = graph.new.nodes } }
{
    graph.laws();
    if paths.len() > FEW {
        many_nodes(alloc, graph, paths)
    } else {
        few_nodes(alloc, graph, paths)
    }
}

fn few_nodes<T: HasPath>(
    alloc: Global,
    graph: &mut Graph,
    paths: &[T],
) -> Result<Listing<NodeId>, RuleReadFault>
    requires { length graph.old.nodes ≤ NODE_LIMIT }
    ensures nodes { IfOk result (Numbers graph.old.nodes graph.new.nodes (each_once (map T.path_at paths.now))) }
    ensures fault { IfErr result (λ e. e ≢ RuleReadFault.Memory
        → interned graph.old.nodes (map T.path_at paths.now) ≡ Err e) }
    ensures rest { graph.new ≡ record graph.old { nodes = graph.new.nodes } }
{
    let mut nodes = Listing::new(Vec::with_capacity(alloc, paths.len())?);
    for (place, one) in paths.iter().enumerate() {
        let path = one.path();
        if !is_among(&paths[..place], path) {
            push_node(graph, &mut nodes, path)?;
        }
    }
    Ok(nodes)
}

fn many_nodes<T: HasPath>(
    alloc: Global,
    graph: &mut Graph,
    paths: &[T],
) -> Result<Listing<NodeId>, RuleReadFault>
    requires { length graph.old.nodes ≤ NODE_LIMIT }
    ensures nodes { IfOk result (Numbers graph.old.nodes graph.new.nodes (each_once (map T.path_at paths.now))) }
    ensures fault { IfErr result (λ e. e ≢ RuleReadFault.Memory
        → interned graph.old.nodes (map T.path_at paths.now) ≡ Err e) }
    ensures rest { graph.new ≡ record graph.old { nodes = graph.new.nodes } }
{
    let mut seen = IndexSet::new(alloc);
    let mut nodes = Listing::empty(alloc);
    for one in paths {
        let path = one.path();
        if seen.insert(path)? {
            push_node(graph, &mut nodes, path)?;
        }
    }
    Ok(nodes)
}

/// Whether one of these has the path.
fn is_among<T: HasPath>(paths: &[T], path: &PathText) -> bool
    ensures { result ≡ list_any (bytes_eq path.now) (map T.path_at paths.now) }
{
    for one in paths {
        if path == one.path() {
            return true;
        }
    }
    false
}

/// Puts the number of a path that isn't among these behind others.
fn push_node(
    graph: &mut Graph,
    nodes: &mut Listing<NodeId>,
    path: &PathText,
) -> Result<(), RuleReadFault>
    ensures ok { OnOk result ((first : List (List ℕ)) (paths : List (List ℕ)) → Numbers first graph.old.nodes paths nodes.old
        → list_any (bytes_eq path.now) paths ≡ false → Numbers first graph.new.nodes (paths ++ path.now ∷ []) nodes.new) }
    ensures fault { IfErr result (λ e. e ≢ RuleReadFault.Memory
        → interned graph.old.nodes (path.now ∷ []) ≡ Err e) }
    ensures rest { graph.new ≡ record graph.old { nodes = graph.new.nodes } }
{
    let node = graph.intern(path)?;
    nodes.push(node)?;
    Ok(())
}
