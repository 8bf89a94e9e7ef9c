//! How far a run is, by the events that its plan was told of.
use crate::cases::RULES;
use scons_base::RuleId;
use task_plan::{PlanEvent, RuleState};

/// The states of the rules, and what happened besides.
#[derive(Drop)]
pub struct Progress {
    states: [RuleState; RULES as usize],
    pub halted: bool,
    /// Something failed or was lacking.
    pub faulty: bool,
}

impl Progress {
    /// Nothing has happened.
    pub fn new() -> Progress {
        Progress {
            states: [RuleState::Waiting; RULES as usize],
            halted: false,
            faulty: false,
        }
    }

    /// Notes an event.
    pub fn note(&mut self, event: &PlanEvent) {
        match event {
            PlanEvent::Scanned(..) => {}
            PlanEvent::Fresh(rule) | PlanEvent::DoneOk(rule) => self.set(*rule, RuleState::Settled),
            PlanEvent::Started(rule) => self.set(*rule, RuleState::Running),
            PlanEvent::DoneFailed(rule) => {
                self.faulty = true;
                self.set(*rule, RuleState::Failed)
            }
            PlanEvent::Absent(rule, _) => {
                self.faulty = true;
                self.set(*rule, RuleState::Lacking)
            }
            PlanEvent::Halt => self.halted = true,
        }
    }

    fn set(&mut self, rule: RuleId, state: RuleState) {
        if let Some(place) = self.states.get_mut(rule.0 as usize) {
            *place = state;
        }
    }

    pub fn is(&self, rule: usize, state: RuleState) -> bool {
        match self.states.get(rule) {
            Some(other) => *other == state,
            None => false,
        }
    }

    /// How many actions run.
    pub fn running(&self) -> usize {
        let mut running: usize = 0;
        for state in &self.states {
            if *state == RuleState::Running {
                running = running.wrapping_add(1);
            }
        }
        running
    }
}
