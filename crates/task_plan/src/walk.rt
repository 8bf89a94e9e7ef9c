//! The steps of a walk over rules and what they need.

ghost use Rattle.std.specs.Prelude.{◌≡◌, [], true, not, slice_get, slice_set, option_and_then, option_to_list, IfOk, IfSome, OnOk, ◌<◌, ◌^◌, is_some};
ghost use Rattle.task_plan.specs.Settled.{needs_of, origin_of};
ghost use Rattle.task_plan.specs.Orders.{maker_of, makers_of};
ghost use Rattle.task_plan.specs.Walks.{is_seen, with_entered};

use crate::files::Files;
use crate::task::Task;
use scons_base::{Memory, RuleId};
use std::alloc::Global;

/// A step of a walk.
#[derive(Clone, Copy, Debug)]
pub(crate) enum Step {
    Enter(RuleId),
    Leave(RuleId),
}

/// Steps that enter these rules, the first on top.
pub(crate) fn enter_all(alloc: Global, rules: &[RuleId]) -> Result<Vec<Step>, Memory>
    ensures { IfOk result (λ steps. steps.items ≡ with_entered [] rules.now) }
{
    let mut steps = Vec::new(alloc);
    for place in (0..rules.len()).rev() {
        steps.push(Step::Enter(rules[place]))?;
    }
    Ok(steps)
}

/// Puts the rules that a rule needs on the steps, the first on top.
pub(crate) fn enter_needs(task: &Task, files: &Files, steps: &mut Vec<Step>) -> Result<(), Memory>
    ensures { OnOk result (steps.new.items ≡ with_entered steps.old.items
        (makers_of files.now.origins.items (needs_of task.now))) }
{
    for place in (0..task.needs()).rev() {
        enter_need(task, files, place, steps)?;
    }
    Ok(())
}

fn enter_need(task: &Task, files: &Files, place: usize, steps: &mut Vec<Step>) -> Result<(), Memory>
    ensures { OnOk result (steps.new.items ≡ with_entered steps.old.items
        (makers_of files.now.origins.items (option_to_list (slice_get (needs_of task.now) place)))) }
{
    if let Some(rule) = rule_needed(task, files, place) {
        steps.push(Step::Enter(rule))?;
    }
    Ok(())
}

/// The rule of the file that a rule needs at this place.
fn rule_needed(task: &Task, files: &Files, place: usize) -> Option<RuleId>
    ensures { result ≡ option_and_then (λ file. maker_of (origin_of files.now.origins.items file.0))
        (slice_get (needs_of task.now) place) }
{
    match task.need(place) {
        Some(node) => files.rule_of(node),
        None => None,
    }
}

/// Notes that a rule was seen, and says whether it wasn't before.
pub(crate) fn mark(seen: &mut Vec<bool>, rule: RuleId) -> bool
    ensures first { result ≡ not (is_seen seen.old.items rule.0) }
    ensures seen { seen.new.items ≡ slice_set seen.old.items rule.0 true }
{
    let number = rule.0 as usize;
    if number >= seen.len() || seen[number] {
        return false;
    }
    seen[number] = true;
    true
}

/// The rule with this number.
pub(crate) fn rule_of_number(number: usize) -> Option<RuleId>
    ensures is { IfSome result (λ rule. rule.0 ≡ number) }
    ensures some { number < 2 ^ 32 → is_some result ≡ true }
{
    Some(RuleId(u32::try_from(number).ok()?))
}
