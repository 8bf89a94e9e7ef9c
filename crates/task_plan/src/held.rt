//! The rules that wait for a rule at fault.

ghost use Rattle.std.specs.Prelude.{◌≡◌, ℕ, true, length, map, slice_get, IfOk, OnOk};
ghost use Rattle.std.specs.Option.{option_map};
ghost use Rattle.task_plan.specs.Settled.{kept_of};
ghost use Rattle.task_plan.specs.Noted.{lists_of};
ghost use Rattle.task_plan.specs.Walks.{is_seen};
ghost use Rattle.task_plan.specs.Watched.{targets_at};
ghost use Rattle.task_plan.specs.Held.{waits_for as waits_for_of, AreHeld, HasAllHeld, HasEachOnce, HaveFirstFaults, WaitsOn};
ghost use Rattle.task_plan.specs.Holding.{FindsIn, IsBlankHeld, IsFollowed, IsToldOf, IsWaiter, WalksTo};

use crate::files::Files;
use crate::states::States;
use crate::task::Task;
use crate::walk::mark;
use scons_base::{Memory, NodeId, RuleId};
use std::alloc::Global;

/// Rules that were found to wait, each with the one at fault.
#[derive(Drop)]
struct Held {
    pairs: Vec<(RuleId, RuleId)>,
    /// The rules that were found or are at fault, by their numbers.
    seen: Vec<bool>,
}

/// For each rule that waits, directly or through others, for one of these rules at fault, and is none of them: itself and
/// the first of these, in their order, for which it does.
pub(crate) fn held_by(
    alloc: Global,
    states: &States,
    tasks: &[Task],
    files: &Files,
    faulty: &[RuleId],
) -> Result<Vec<(RuleId, RuleId)>, Memory>
    ensures real { IfOk result (λ held.
        AreHeld states.now (map kept_of tasks.now) (lists_of files.now.waiters.items) faulty.now held.items) }
    ensures all { IfOk result (λ held.
        HasAllHeld states.now (map kept_of tasks.now) (lists_of files.now.waiters.items) faulty.now held.items) }
    ensures once { IfOk result (λ held. HasEachOnce held.items) }
    ensures first { IfOk result (λ held.
        HaveFirstFaults states.now (map kept_of tasks.now) (lists_of files.now.waiters.items) faulty.now held.items) }
{
    let mut held = Held::new(alloc, tasks.len(), faulty)?;
    for fault in faulty {
        held.add_held(states, tasks, files, *fault)?;
    }
    let Held { pairs, .. } = held;
    Ok(pairs)
}

impl Held {
    /// Of this many rules those at fault were seen, and none was found.
    fn new(alloc: Global, rules: usize, faulty: &[RuleId]) -> Result<Held, Memory>
        ensures { IfOk result (IsBlankHeld rules faulty.now) }
    {
        let mut seen = Vec::from_elem(alloc, false, rules)?;
        for fault in faulty {
            mark(&mut seen, *fault);
        }
        Ok(Held {
            pairs: Vec::new(alloc),
            seen,
        })
    }

    /// Adds what a rule at fault holds, and wasn't found before. What was found is walked over in its order, and there are
    /// never as many rules as there are numbers.
    fn add_held(
        &mut self,
        states: &States,
        tasks: &[Task],
        files: &Files,
        fault: RuleId,
    ) -> Result<(), Memory>
        ensures { OnOk result (WalksTo states.now (map kept_of tasks.now) (lists_of files.now.waiters.items) fault
            self.old self.new (length self.new.pairs.items)) }
    {
        let start = self.pairs.len();
        self.add_waiting(states, tasks, files, fault, fault)?;
        for place in start..usize::MAX {
            let Some(rule) = self.rule_at(place) else {
                return Ok(());
            };
            self.add_waiting(states, tasks, files, rule, fault)?;
        }
        Err(Memory)
    }

    /// The rule that was found at this place.
    fn rule_at(&self, place: usize) -> Option<RuleId>
        ensures { result ≡ option_map (λ pair. pair.0) (slice_get self.now.pairs.items place) }
    {
        match self.pairs.get(place) {
            Some((rule, _)) => Some(*rule),
            None => None,
        }
    }

    /// Adds the rules that wait for a target of this one, and weren't seen, for one at fault.
    fn add_waiting(
        &mut self,
        states: &States,
        tasks: &[Task],
        files: &Files,
        rule: RuleId,
        fault: RuleId,
    ) -> Result<(), Memory>
        ensures finds { OnOk result (FindsIn
            (λ r. WaitsOn states.now (map kept_of tasks.now) (lists_of files.now.waiters.items) r rule.0) fault self.old self.new) }
        ensures all { OnOk result (IsFollowed states.now (map kept_of tasks.now) (lists_of files.now.waiters.items)
            self.new.seen.items rule.0) }
    {
        let targets = targets_of(tasks, rule);
        for target in targets {
            self.add_told(states, tasks, *target, files.waiters(*target), fault)?;
        }
        Ok(())
    }

    /// Adds those of these rules, which are told when a file is done, that wait for it and weren't seen.
    fn add_told(
        &mut self,
        states: &States,
        tasks: &[Task],
        file: NodeId,
        rules: &[RuleId],
        fault: RuleId,
    ) -> Result<(), Memory>
        ensures finds { OnOk result (FindsIn
            (λ r. IsToldOf states.now (map kept_of tasks.now) rules.now file r) fault self.old self.new) }
        ensures all { OnOk result ((r : ℕ) → IsToldOf states.now (map kept_of tasks.now) rules.now file r
            → is_seen self.new.seen.items r ≡ true) }
    {
        for rule in rules {
            self.add_waiter(states, tasks, file, *rule, fault)?;
        }
        Ok(())
    }

    /// Adds a rule that waits for a file, unless it was seen.
    fn add_waiter(
        &mut self,
        states: &States,
        tasks: &[Task],
        file: NodeId,
        rule: RuleId,
        fault: RuleId,
    ) -> Result<(), Memory>
        ensures finds { OnOk result (FindsIn
            (λ r. IsWaiter states.now (map kept_of tasks.now) file rule.0 r) fault self.old self.new) }
        ensures seen { OnOk result (waits_for_of states.now (map kept_of tasks.now) rule.0 file ≡ true
            → is_seen self.new.seen.items rule.0 ≡ true) }
    {
        if !waits_for(states, tasks, rule, file) {
            return Ok(());
        }
        self.add(rule, fault)?;
        Ok(())
    }

    /// Adds a rule, unless it was seen.
    fn add(&mut self, rule: RuleId, fault: RuleId) -> Result<(), Memory>
        ensures finds { OnOk result (FindsIn (λ r. r ≡ rule.0) fault self.old self.new) }
        ensures seen { OnOk result (is_seen self.new.seen.items rule.0 ≡ true) }
    {
        if !mark(&mut self.seen, rule) {
            return Ok(());
        }
        self.pairs.push((rule, fault))?;
        Ok(())
    }
}

/// The targets of a rule.
fn targets_of(tasks: &[Task], rule: RuleId) -> &[NodeId]
    ensures { result.now ≡ targets_at (map kept_of tasks.now) rule.0 }
{
    match tasks.get(rule.0 as usize) {
        Some(task) => task.targets.as_slice(),
        None => &[],
    }
}

/// Whether a rule waits, and requires or depends on a file.
fn waits_for(states: &States, tasks: &[Task], rule: RuleId, file: NodeId) -> bool
    ensures { result ≡ waits_for_of states.now (map kept_of tasks.now) rule.0 file }
{
    match tasks.get(rule.0 as usize) {
        Some(task) => states.waits(rule) && task.has_need(file),
        None => false,
    }
}
