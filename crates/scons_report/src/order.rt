//! The order in which the rules of a plan are built.
ghost use Rattle.std.specs.Prelude.{◌≡◌, IfOk, OnOk, slice_get, slice_set, true};
ghost use Rattle.scons_report.specs.Cleans.{is_seen, steps_after, with_entered};
ghost use Rattle.scons_report.specs.Overs.{needs_over, required_of, IsPlannedOrder};

use crate::clean::{Step, enter_all, mark};
use rule_graph::Graph;
use scons_base::{Memory, NodeId, RuleId};
use std::alloc::Global;
use task_plan::Plan;

/// The rules of a plan depth first from the requested nodes, each once and after those that it needs.
pub(crate) fn build_order(
    alloc: Global,
    graph: &Graph,
    plan: &Plan,
    requested: &[NodeId],
) -> Result<Vec<RuleId>, Memory>
    ensures { IfOk result (λ order. IsPlannedOrder graph.now plan.now requested.now order.items) }
{
    let mut order = Vec::new(alloc);
    let mut seen = Vec::from_elem(alloc, false, graph.rules() as usize)?;
    let mut steps = Vec::new(alloc);
    enter_all(graph, requested, &mut steps)?;
    'walk: while let Some(step) = steps.pop() {
        match step {
            Step::Enter(rule) => enter(graph, plan, rule, &mut seen, &mut steps)?,
            Step::Leave(rule) => order.push(rule)?,
        }
    }
    Ok(order)
}

/// Enters a rule, unless that was done before.
fn enter(
    graph: &Graph,
    plan: &Plan,
    rule: RuleId,
    seen: &mut Vec<bool>,
    steps: &mut Vec<Step>,
) -> Result<(), Memory>
    ensures seen { seen.new.items ≡ slice_set seen.old.items rule.0 true }
    ensures steps { OnOk result (steps.new.items ≡ steps_after (is_seen seen.old.items rule.0) rule
        (needs_over graph.now plan.now rule.0) steps.old.items) }
{
    if !mark(seen, rule) {
        return Ok(());
    }
    steps.push(Step::Leave(rule))?;
    enter_needs(graph, plan, rule, steps)
}

/// Puts the rules that a rule needs on the steps, the first on top.
fn enter_needs(
    graph: &Graph,
    plan: &Plan,
    rule: RuleId,
    steps: &mut Vec<Step>,
) -> Result<(), Memory>
    ensures { OnOk result (steps.new.items ≡ with_entered steps.old.items (needs_over graph.now plan.now rule.0)) }
{
    enter_all(graph, plan.deps(rule), steps)?;
    enter_all(graph, required(graph, rule), steps)
}

/// What a rule requires.
fn required(graph: &Graph, rule: RuleId) -> &[NodeId]
    ensures { result.now ≡ required_of (slice_get graph.now.rules rule.0) }
{
    if rule.0 < graph.rules() {
        graph.rule(rule).required.as_slice()
    } else {
        &[]
    }
}
