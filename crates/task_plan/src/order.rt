//! The depth-first order of the needed rules.

ghost use Rattle.std.specs.Prelude.{◌≡◌, List, true, map, slice_set, IfOk, OnOk};
ghost use Rattle.scons_base.specs.declared.ids.RuleId.{RuleId};
ghost use Rattle.task_plan.specs.Settled.{kept_of};
ghost use Rattle.task_plan.specs.Orders.{HasNeedsFirst, HasReached, IsOrder, needed_of};
ghost use Rattle.task_plan.specs.Walks.{is_seen, steps_after};

use crate::files::Files;
use crate::task::Task;
use crate::walk::{Step, enter_all, enter_needs, mark};
use scons_base::{Memory, RuleId};
use std::alloc::Global;

/// The rules that these roots lead to, each once, and after those that it needs. A rule's needs are taken in the order of
/// its required files and its dependencies. There are never as many steps as there are numbers.
pub(crate) fn depth_first(
    alloc: Global,
    tasks: &[Task],
    files: &Files,
    roots: &[RuleId],
) -> Result<Vec<RuleId>, Memory>
    ensures order { IfOk result (λ order. IsOrder (map kept_of tasks.now) files.now.origins.items roots.now order.items) }
    // No other order is.
    ensures only { IfOk result (λ order. (other : List RuleId) →
        IsOrder (map kept_of tasks.now) files.now.origins.items roots.now other → other ≡ order.items) }
    ensures reached { IfOk result (λ order. HasReached (map kept_of tasks.now) files.now.origins.items roots.now order.items) }
    ensures needs_first { IfOk result (λ order. HasNeedsFirst (map kept_of tasks.now) files.now.origins.items order.items) }
{
    let mut order = Vec::new(alloc);
    let mut seen = Vec::from_elem(alloc, false, tasks.len())?;
    let mut steps = enter_all(alloc, roots)?;
    for _step in 0..usize::MAX {
        let Some(step) = steps.pop() else {
            return Ok(order);
        };
        match step {
            Step::Enter(rule) => enter(rule, tasks, files, &mut seen, &mut steps)?,
            Step::Leave(rule) => order.push(rule)?,
        }
    }
    Err(Memory)
}

/// Enters a rule, unless that was done before.
fn enter(
    rule: RuleId,
    tasks: &[Task],
    files: &Files,
    seen: &mut Vec<bool>,
    steps: &mut Vec<Step>,
) -> Result<(), Memory>
    ensures seen { seen.new.items ≡ slice_set seen.old.items rule.0 true }
    ensures steps { OnOk result (steps.new.items ≡ steps_after (is_seen seen.old.items rule.0) rule
        (needed_of (map kept_of tasks.now) files.now.origins.items rule.0) steps.old.items) }
{
    if !mark(seen, rule) {
        return Ok(());
    }
    steps.push(Step::Leave(rule))?;
    match tasks.get(rule.0 as usize) {
        Some(task) => enter_needs(task, files, steps),
        None => Ok(()),
    }
}
