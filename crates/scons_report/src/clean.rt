//! The rules that cleaning goes over.
ghost use Rattle.std.specs.Prelude.{◌≡◌, ◌∷◌, [], true, length, not, slice_set, IfOk, OnOk};
ghost use Rattle.rule_graph.specs.Rules.{are_below};
ghost use Rattle.scons_report.specs.Cleaning.{IsCleanList};
ghost use Rattle.scons_report.specs.Cleans.{is_seen, led_to, named_in, steps_after, with_entered};
ghost use Rattle.task_plan.specs.Rooted.{makers_in};

use rule_graph::{Graph, Rule};
use scons_base::{Listing, Memory, NodeId, RuleId};
use std::alloc::Global;

/// A step of the walk.
#[derive(Clone, Copy, Debug)]
pub(crate) enum Step {
    Enter(RuleId),
    Leave(RuleId),
}

/// The declared rules that the requested nodes lead to by sources, Depends, libraries and Requires, depth first, each once
/// and after those that it leads to.
pub fn clean_list(
    alloc: Global,
    graph: &Graph,
    requested: &[NodeId],
) -> Result<Listing<RuleId>, Memory>
    ensures { are_below (length graph.now.nodes) requested.now ≡ true → IfOk result (IsCleanList graph.now requested.now) }
{
    graph.laws();
    let mut order = Vec::new(alloc);
    let mut seen = Vec::from_elem(alloc, false, graph.rules() as usize)?;
    let mut steps = Vec::new(alloc);
    enter_all(graph, requested, &mut steps)?;
    'walk: while let Some(step) = steps.pop() {
        match step {
            Step::Enter(rule) => enter(graph, rule, &mut seen, &mut steps)?,
            Step::Leave(rule) => order.push(rule)?,
        }
    }
    Ok(Listing::new(order))
}

/// Enters a rule, unless that was done before.
fn enter(
    graph: &Graph,
    rule: RuleId,
    seen: &mut Vec<bool>,
    steps: &mut Vec<Step>,
) -> Result<(), Memory>
    ensures seen { seen.new.items ≡ slice_set seen.old.items rule.0 true }
    ensures steps { OnOk result (steps.new.items ≡ steps_after (is_seen seen.old.items rule.0) rule
        (led_to graph.now rule.0) steps.old.items) }
{
    if !mark(seen, rule) {
        return Ok(());
    }
    steps.push(Step::Leave(rule))?;
    enter_led(graph, rule, steps)
}

/// Puts the rules that a rule leads to on the steps, the first on top.
fn enter_led(graph: &Graph, rule: RuleId, steps: &mut Vec<Step>) -> Result<(), Memory>
    ensures { OnOk result (steps.new.items ≡ with_entered steps.old.items (led_to graph.now rule.0)) }
{
    if rule.0 < graph.rules() {
        enter_named(graph, graph.rule(rule), steps)
    } else {
        Ok(())
    }
}

/// Puts the rules of all that a rule names on the steps, the first on top.
fn enter_named(graph: &Graph, rule: &Rule, steps: &mut Vec<Step>) -> Result<(), Memory>
    ensures { OnOk result (steps.new.items ≡ with_entered steps.old.items (makers_in graph.now (named_in rule.now))) }
{
    enter_all(graph, rule.required.as_slice(), steps)?;
    enter_all(graph, rule.libs.as_slice(), steps)?;
    enter_all(graph, rule.depends.as_slice(), steps)?;
    enter_all(graph, rule.sources.as_slice(), steps)
}

pub(crate) fn enter_all(
    graph: &Graph,
    nodes: &[NodeId],
    steps: &mut Vec<Step>,
) -> Result<(), Memory>
    ensures { OnOk result (steps.new.items ≡ with_entered steps.old.items (makers_in graph.now nodes.now)) }
{
    for place in (0..nodes.len()).rev() {
        enter_one(graph, nodes[place], steps)?;
    }
    Ok(())
}

fn enter_one(graph: &Graph, node: NodeId, steps: &mut Vec<Step>) -> Result<(), Memory>
    ensures { OnOk result (steps.new.items ≡ with_entered steps.old.items (makers_in graph.now (node ∷ []))) }
{
    if let Some(rule) = graph.rule_of(node) {
        steps.push(Step::Enter(rule))?;
    }
    Ok(())
}

/// Marks a rule, and says whether it wasn't marked.
pub(crate) fn mark(seen: &mut Vec<bool>, rule: RuleId) -> bool
    ensures first { result ≡ not (is_seen seen.old.items rule.0) }
    ensures seen { seen.new.items ≡ slice_set seen.old.items rule.0 true }
{
    let number = rule.0 as usize;
    if number >= seen.len() || seen[number] {
        return false;
    }
    seen[number] = true;
    true
}
