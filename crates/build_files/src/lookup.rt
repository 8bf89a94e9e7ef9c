//! Nodes and rules by their numbers.
ghost use Rattle.std.specs.Prelude.{◌≡◌, ◌<◌, Some, length, slice_get, IfOk};
ghost use Rattle.rule_graph.specs.Rules.{IsRule};
ghost use Rattle.build_files.specs.Firsts.{first_target_of};

use rule_graph::{Graph, Rule};
use scons_base::{Memory, NodeId, PathText, RuleId};

/// The path of a node. A plan names nodes of its graph alone, so no other comes up; one would be answered as want of
/// memory is.
pub fn path_of(graph: &Graph, node: NodeId) -> Result<&PathText, Memory>
    ensures at { IfOk result (λ path. slice_get graph.now.nodes node.0 ≡ Some path.now) }
    ensures known { IfOk result (λ path. node.0 < length graph.now.nodes) }
{
    if node.0 < graph.len() {
        Ok(graph.path(node))
    } else {
        Err(Memory)
    }
}

/// The rule of a number, as `path_of` gives paths.
pub fn rule_at(graph: &Graph, rule: RuleId) -> Result<&Rule, Memory>
    ensures at { IfOk result (λ found. slice_get graph.now.rules rule.0 ≡ Some found.now) }
    ensures valid { IfOk result (λ found. IsRule (length graph.now.nodes) found.now) }
{
    if rule.0 < graph.rules() {
        Ok(graph.rule(rule))
    } else {
        Err(Memory)
    }
}

/// The path of the first target of a rule, as it is named in faults.
pub fn first_target(graph: &Graph, rule: RuleId) -> Result<PathText, Memory>
    ensures { IfOk result (λ path. first_target_of graph.now rule.0 ≡ Some path) }
{
    match rule_at(graph, rule)?.targets.as_slice().first() {
        Some(target) => path_of(graph, *target)?.copy(),
        None => Err(Memory),
    }
}
