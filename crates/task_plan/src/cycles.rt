//! Rules that wait for themselves.

ghost use Rattle.std.specs.Prelude.{◌≡◌, ◌++◌, ◌∷◌, [], List, Some, false, true, map, slice_get, slice_set, IfOk, OnOk, IfSome, IfNone, MatchOption, length, take, ◌-◌};
ghost use Rattle.scons_base.specs.declared.ids.RuleId.{RuleId};
ghost use Rattle.task_plan.specs.Settled.{Kept, kept_of};
ghost use Rattle.task_plan.specs.Admits.{queues};
ghost use Rattle.task_plan.specs.Cycles.{HasNoCycle, IsCycle};
ghost use Rattle.task_plan.specs.Walks.{AllEntered, AreToEnter, ComesBack, EntersNeeds, IsBefore, IsBegun, IsOther, IsWalk, colour_of};
ghost use Rattle.task_plan.specs.declared.states.RuleState.{RuleState};
ghost use Rattle.task_plan.specs.declared.files.Origin.{Origin};

use crate::files::Files;
use crate::states::States;
use crate::task::Task;
use crate::walk::{Step, enter_needs, rule_of_number};
use scons_base::{Memory, RuleId};
use std::alloc::Global;

/// How far a walk is with a rule.
#[derive(Clone, Copy, Debug, PartialEq, Eq)]
enum Colour {
    New,
    Open,
    Closed,
}

/// A walk that looks for a rule that it is within.
#[derive(Drop)]
struct Walk {
    colours: Vec<Colour>,
    /// The rules that the walk is within, from the outermost on.
    chain: Vec<RuleId>,
    steps: Vec<Step>,
}

/// Rules of which each waits for the next, and the last waits for the first, if there are any; where these roots lead to
/// some, of those that they lead to. There are never as many steps as there are numbers.
pub(crate) fn cycle_of(
    alloc: Global,
    states: &States,
    tasks: &[Task],
    files: &Files,
    roots: &[RuleId],
) -> Result<Option<Vec<RuleId>>, Memory>
    ensures real { IfOk result (λ found. IfSome found (λ cycle.
        IsCycle states.now (map kept_of tasks.now) files.now.origins.items cycle.items)) }
    ensures none { IfOk result (λ found. IfNone found
        (HasNoCycle states.now (map kept_of tasks.now) files.now.origins.items)) }
{
    let mut walk = Walk::new(alloc, tasks.len(), roots)?;
    for _step in 0..usize::MAX {
        if walk.is_done() {
            return Ok(None);
        }
        if let Some(rule) = walk.go_on(states, tasks, files)? {
            return Ok(Some(walk.chain_from(rule)?));
        }
    }
    Err(Memory)
}

impl Walk {
    /// A walk that is to enter all rules, and these first.
    fn new(alloc: Global, rules: usize, roots: &[RuleId]) -> Result<Walk, Memory>
        ensures { IfOk result (AreToEnter rules rules) }
    {
        let mut walk = Walk::blank(alloc, rules)?;
        walk.enter_all(rules)?;
        for root in roots {
            walk.put(*root)?;
        }
        Ok(walk)
    }

    /// A walk without steps.
    fn blank(alloc: Global, rules: usize) -> Result<Walk, Memory>
        ensures { IfOk result (IsBegun rules) }
    {
        Ok(Walk {
            colours: Vec::from_elem(alloc, Colour::New, rules)?,
            chain: Vec::new(alloc),
            steps: Vec::new(alloc),
        })
    }

    /// The first so many rules are to be entered.
    fn enter_all(&mut self, rules: usize) -> Result<(), Memory>
        requires { IsBegun rules self.old }
        ensures { OnOk result (AreToEnter rules rules self.new) }
    {
        for number in 0..rules {
            let Some(rule) = rule_of_number(number) else {
                return Err(Memory);
            };
            self.put(rule)?;
        }
        Ok(())
    }

    /// A rule is to be entered before all others.
    fn put(&mut self, rule: RuleId) -> Result<(), Memory>
        ensures rest { self.new ≡ record self.old { steps = self.new.steps } }
        ensures steps { OnOk result (self.new.steps.items ≡ self.old.steps.items ++ Step.Enter rule ∷ []) }
    {
        self.steps.push(Step::Enter(rule))?;
        Ok(())
    }

    /// Whether there is no step.
    fn is_done(&self) -> bool
        ensures { result ≡ true → self.now.steps.items ≡ [] }
    {
        self.steps.is_empty()
    }

    /// Takes a step. Gives a rule that the walk came to again while it is within it.
    fn go_on(
        &mut self,
        states: &States,
        tasks: &[Task],
        files: &Files,
    ) -> Result<Option<RuleId>, Memory>
        requires { IsWalk states.now (map kept_of tasks.now) files.now.origins.items self.old }
        ensures { IfOk result (λ found. MatchOption found
            (IsWalk states.now (map kept_of tasks.now) files.now.origins.items self.new)
            (λ rule. ComesBack states.now (map kept_of tasks.now) files.now.origins.items self.new.chain.items rule)) }
    {
        match self.next_step() {
            Some(step) => self.take(states, tasks, files, step),
            None => Ok(None),
        }
    }

    /// Takes a step that was taken off.
    fn take(
        &mut self,
        states: &States,
        tasks: &[Task],
        files: &Files,
        step: Step,
    ) -> Result<Option<RuleId>, Memory>
        requires { IsBefore states.now (map kept_of tasks.now) files.now.origins.items self.old step }
        ensures { IfOk result (λ found. MatchOption found
            (IsWalk states.now (map kept_of tasks.now) files.now.origins.items self.new)
            (λ rule. ComesBack states.now (map kept_of tasks.now) files.now.origins.items self.new.chain.items rule)) }
    {
        match step {
            Step::Enter(rule) => self.enter(states, tasks, files, rule),
            Step::Leave(rule) => {
                self.leave(rule);
                Ok(None)
            }
        }
    }

    /// Takes the last step off.
    fn next_step(&mut self) -> Option<Step>
        ensures rest { self.new ≡ record self.old { steps = self.new.steps } }
        ensures last { MatchOption result (self.new.steps.items ≡ self.old.steps.items)
            (λ step. self.old.steps.items ≡ self.new.steps.items ++ step ∷ []) }
    {
        self.steps.pop()
    }

    /// Enters a rule, and gives it where the walk is within it already.
    fn enter(
        &mut self,
        states: &States,
        tasks: &[Task],
        files: &Files,
        rule: RuleId,
    ) -> Result<Option<RuleId>, Memory>
        requires { IsBefore states.now (map kept_of tasks.now) files.now.origins.items self.old (Step.Enter rule) }
        ensures { IfOk result (λ found. MatchOption found
            (IsWalk states.now (map kept_of tasks.now) files.now.origins.items self.new)
            (λ rule. ComesBack states.now (map kept_of tasks.now) files.now.origins.items self.new.chain.items rule)) }
    {
        match self.colour(rule) {
            Colour::New => {
                self.open(rule)?;
                self.enter_needs(states, tasks, files, rule)?;
                Ok(None)
            }
            Colour::Open => Ok(Some(rule)),
            Colour::Closed => Ok(None),
        }
    }

    fn colour(&self, rule: RuleId) -> Colour
        ensures { result ≡ colour_of self.now.colours.items rule.0 }
    {
        match self.colours.get(rule.0 as usize) {
            Some(colour) => *colour,
            None => Colour::Closed,
        }
    }

    /// The walk is within a rule, which it is to leave.
    fn open(&mut self, rule: RuleId) -> Result<(), Memory>
        ensures chain { OnOk result (self.new.chain.items ≡ self.old.chain.items ++ rule ∷ []) }
        ensures steps { OnOk result (self.new.steps.items ≡ self.old.steps.items ++ Step.Leave rule ∷ []) }
        ensures colours { OnOk result (self.new.colours.items ≡ slice_set self.old.colours.items rule.0 Colour.Open) }
    {
        self.chain.push(rule)?;
        self.steps.push(Step::Leave(rule))?;
        self.set(rule, Colour::Open);
        Ok(())
    }

    /// Puts the rules that a rule waits for on the steps.
    fn enter_needs(
        &mut self,
        states: &States,
        tasks: &[Task],
        files: &Files,
        rule: RuleId,
    ) -> Result<(), Memory>
        ensures rest { self.new ≡ record self.old { steps = self.new.steps } }
        ensures enters { OnOk result (EntersNeeds states.now (map kept_of tasks.now) files.now.origins.items rule
            self.old.steps.items self.new.steps.items) }
        ensures all { OnOk result (AllEntered states.now (map kept_of tasks.now) files.now.origins.items rule
            self.old.steps.items self.new.steps.items) }
    {
        if !states.is_unsettled(rule) {
            return Ok(());
        }
        match tasks.get(rule.0 as usize) {
            Some(task) => enter_needs(task, files, &mut self.steps),
            None => Ok(()),
        }
    }

    /// The walk leaves the rule that it entered last.
    fn leave(&mut self, rule: RuleId)
        ensures chain { self.new.chain.items ≡ take (length self.old.chain.items - 1) self.old.chain.items }
        ensures steps { self.new.steps ≡ self.old.steps }
        ensures colours { self.new.colours.items ≡ slice_set self.old.colours.items rule.0 Colour.Closed }
    {
        let _ = self.chain.pop();
        self.set(rule, Colour::Closed);
    }

    fn set(&mut self, rule: RuleId, colour: Colour)
        ensures rest { self.new ≡ record self.old { colours = self.new.colours } }
        ensures colours { self.new.colours.items ≡ slice_set self.old.colours.items rule.0 colour }
    {
        let number = rule.0 as usize;
        if number < self.colours.len() {
            self.colours[number] = colour;
        }
    }

    /// The rules that the walk is within, from this one on.
    fn chain_from(mut self, rule: RuleId) -> Result<Vec<RuleId>, Memory>
        requires { queues self.chain.items rule.0 ≡ true }
        ensures { IfOk result (λ cycle. (states : List RuleState) (rules : List Kept) (origins : List Origin)
            → ComesBack states rules origins self.chain.items rule → IsCycle states rules origins cycle.items) }
    {
        let first = place_of(self.chain.as_slice(), rule);
        Ok(self.chain.split_off(first)?)
    }
}

/// The place of a rule that stands among these.
#[tactic(auto, using(crate::proofs::CycleLemmas::seeking))]
fn place_of(chain: &[RuleId], rule: RuleId) -> usize
    requires { queues chain.now rule.0 ≡ true }
    ensures { slice_get chain.now result ≡ Some rule }
{
    for place in 0..chain.len() {
        if is_at(chain, place, rule) {
            return place;
        }
    }
    0
}

/// Whether a rule stands at this place.
fn is_at(chain: &[RuleId], place: usize, rule: RuleId) -> bool
    ensures here { result ≡ true → slice_get chain.now place ≡ Some rule }
    ensures other { result ≡ false → IsOther chain.now place rule.0 }
{
    match chain.get(place) {
        Some(other) => *other == rule,
        None => false,
    }
}
