//! How far the rules are, and how many run.
ghost use Rattle.std.specs.Prelude.{◌≡◌, ◌≢◌, ◌++◌, ◌∷◌, ◌<◌, ◌≤◌, ◌+◌, ◌^◌, [], ℕ, if◌then◌else◌, OnOk, OnErr, true, false, length, slice_set};
ghost use Rattle.std.specs.List.{count_by};
ghost use Rattle.task_plan.specs.States.{state_of, is_faulty as is_faulty_of, is_running};
ghost use Rattle.task_plan.specs.Cycles.{is_unsettled as is_unsettled_of};
ghost use Rattle.task_plan.specs.Plans.{AreMet};

use scons_base::{Memory, RuleId};
use std::alloc::Global;
use std::marker::Model;

/// How far a rule is.
#[derive(Clone, Copy, Debug, PartialEq, Eq)]
pub enum RuleState {
    /// No requested node needs it, as far as files were scanned.
    Unneeded,
    Waiting,
    Running,
    Settled,
    Failed,
    /// A dependency of it has no rule and is no file.
    Lacking,
}

/// The states of the rules by their numbers.
#[derive(Drop)]
pub(crate) struct States {
    states: Vec<RuleState>,
    running: usize,
}

impl Model for States {
    ghost use Rattle.std.specs.Prelude.{◌≡◌, List};
    ghost use Rattle.std.specs.List.{count_by};
    ghost use Rattle.task_plan.specs.declared.states.RuleState.{RuleState};

    ghost Value = { List RuleState };

    ghost use Rattle.task_plan.specs.States.{is_running};

    ghost view = { λ s. s.states.items };

    ghost invariant = { λ s. s.running ≡ count_by is_running s.states.items };
}

impl States {
    /// Of no rule.
    pub(crate) fn new(alloc: Global) -> States
        ensures { result ≡ [] }
    {
        States {
            states: Vec::new(alloc),
            running: 0,
        }
    }

    /// How many rules there are.
    pub(crate) fn len(&self) -> usize
        ensures { result ≡ length self.now }
    {
        self.states.len()
    }

    /// Adds a rule that isn't needed.
    #[tactic(auto, using(crate::proofs::PlanLemmas::add_none))]
    pub(crate) fn add(&mut self) -> Result<(), Memory>
        ensures ok { OnOk result (self.new ≡ self.old ++ RuleState.Unneeded ∷ []) }
        ensures err { OnErr result (self.new ≡ self.old) }
        ensures meets { AreMet self.old self.new }
        ensures len { length self.new ≤ length self.old + 1 }
        ensures longer { length self.old ≤ length self.new }
        ensures same { (rule : ℕ) → state_of self.new rule ≡ state_of self.old rule }
    {
        self.states.push(RuleState::Unneeded)?;
        Ok(())
    }

    pub(crate) fn of(&self, rule: RuleId) -> RuleState
        ensures { result ≡ state_of self.now rule.0 }
    {
        match self.states.get(rule.0 as usize) {
            Some(state) => *state,
            None => RuleState::Unneeded,
        }
    }

    /// Whether a rule waits.
    pub(crate) fn waits(&self, rule: RuleId) -> bool
        ensures waits { result ≡ true → state_of self.now rule.0 ≡ RuleState.Waiting }
        ensures not { result ≡ false → state_of self.now rule.0 ≢ RuleState.Waiting }
    {
        self.of(rule) == RuleState::Waiting
    }

    /// Whether a rule isn't needed.
    pub(crate) fn is_unneeded(&self, rule: RuleId) -> bool
        ensures unneeded { result ≡ true → state_of self.now rule.0 ≡ RuleState.Unneeded }
        ensures needed { result ≡ false → state_of self.now rule.0 ≢ RuleState.Unneeded }
    {
        self.of(rule) == RuleState::Unneeded
    }

    /// Whether a rule is needed, and isn't settled.
    pub(crate) fn is_unsettled(&self, rule: RuleId) -> bool
        ensures { result ≡ is_unsettled_of (state_of self.now rule.0) }
    {
        match self.of(rule) {
            RuleState::Waiting | RuleState::Running | RuleState::Failed | RuleState::Lacking =>
                true,
            RuleState::Unneeded | RuleState::Settled => false,
        }
    }

    /// Whether a rule failed, or lacks a dependency.
    pub(crate) fn is_faulty(&self, rule: RuleId) -> bool
        ensures { result ≡ is_faulty_of (state_of self.now rule.0) }
    {
        match self.of(rule) {
            RuleState::Failed | RuleState::Lacking => true,
            RuleState::Unneeded | RuleState::Waiting | RuleState::Running | RuleState::Settled =>
                false,
        }
    }

    pub(crate) fn set(&mut self, rule: RuleId, state: RuleState)
        ensures { self.new ≡ slice_set self.old rule.0 state }
    {
        let number = rule.0 as usize;
        if number < self.states.len() {
            self.running = changed(self.running, self.states[number], state);
            self.states[number] = state;
        }
    }

    /// How many rules run.
    pub(crate) fn running(&self) -> usize
        ensures { result ≡ count_by is_running self.now }
    {
        self.running
    }
}

/// How many run after a rule went from one state to another.
fn changed(running: usize, old: RuleState, new: RuleState) -> usize
    requires one { is_running old ≡ true → 0 < running }
    requires room { running < 2 ^ 63 }
    ensures { result + (if is_running old then 1 else 0) ≡ running + (if is_running new then 1 else 0) }
{
    match (old, new) {
        (RuleState::Running, RuleState::Running) => running,
        (RuleState::Running, _) => running - 1,
        (_, RuleState::Running) => running + 1,
        _ => running,
    }
}
