//! A plan beside the slow functions.
use crate::cases::RULES;
use crate::facts::known;
use crate::graphs::spot_of;
use crate::trial::{Trial, Wrong};
use model_trials::needs::number_of;
use model_trials::spots::{Spot, has};
use scons_base::{NodeId, RuleId};
use task_plan::{Plan, RuleState, Want};
use trial_text::Told;

impl<'a> Trial<'a> {
    /// What is wrong with a plan, and with what it wants.
    pub fn compare(&self, told: &mut Told, plan: &Plan, want: Want) -> Wrong {
        if !self.facts.is_whole {
            return Some("the slow functions disagree");
        }
        if !self.has_deps(plan) {
            return Some("other dependencies");
        }
        let wrong = self.compare_cycle(told, plan);
        if wrong.is_some() {
            return wrong;
        }
        self.compare_want(want)
    }

    /// Whether each needed rule has its dependencies, by the files scanned so far.
    fn has_deps(&self, plan: &Plan) -> bool {
        for rule in 0..RULES {
            let number = rule as usize;
            if self.facts.order.contains(&number)
                && !are_same(self.facts.deps_of(number), plan.deps(RuleId(rule)))
            {
                return false;
            }
        }
        true
    }

    /// There is a cycle where a needed rule waits for itself.
    fn compare_cycle(&self, told: &mut Told, plan: &Plan) -> Wrong {
        match known(told, plan.cycle()) {
            Some(rules) if !self.is_cycle(rules.as_slice()) => Some("its cycle is none"),
            None if self.facts.is_cyclic => Some("a cycle isn't found"),
            _ => None,
        }
    }

    /// Whether each of these rules needs the next, and the last the first.
    fn is_cycle(&self, rules: &[RuleId]) -> bool {
        let Some(last) = rules.last() else {
            return false;
        };
        let mut before = last.0 as usize;
        for rule in rules {
            let rule = rule.0 as usize;
            if !self.facts.needs_of(before).contains(&rule) || !self.facts.order.contains(&rule) {
                return false;
            }
            before = rule;
        }
        true
    }

    /// What is wanted next.
    fn compare_want(&self, want: Want) -> Wrong {
        let runs = self.progress.running() > 0;
        let scans = !self.progress.halted && self.scans_any();
        let first = if self.progress.halted || scans {
            None
        } else {
            self.first()
        };
        match want {
            Want::Scan(rule, file) if scans && self.scans(rule, file) => None,
            Want::Scan(..) => Some("a scan that isn't due"),
            Want::Decide(rule) if first == Some(rule.0 as usize) => None,
            Want::Decide(_) => Some("a decision that isn't due"),
            Want::Wait if !runs => Some("it waits for nothing"),
            Want::Rest if runs => Some("it rests while something runs"),
            _ if scans || first.is_some() => Some("it is idle"),
            Want::Rest if !self.is_done() => Some("it rests early"),
            _ => None,
        }
    }

    /// Whether a file waits for nothing.
    fn is_ready(&self, file: &Spot) -> bool {
        match number_of(self.rules.as_slice(), file) {
            Some(rule) => self.progress.is(rule, RuleState::Settled),
            None => true,
        }
    }

    /// Whether a file of a rule can be scanned now.
    fn scans(&self, rule: RuleId, file: NodeId) -> bool {
        let (number, spot) = (rule.0 as usize, spot_of(file));
        has(&spot, self.facts.unscanned_of(number))
            && self.is_ready(&spot)
            && self.facts.order.contains(&number)
    }

    /// Whether some file can be scanned now.
    fn scans_any(&self) -> bool {
        for rule in &self.facts.order {
            let files = self.facts.unscanned_of(*rule);
            if files.iter().any(|file| self.is_ready(file)) {
                return true;
            }
        }
        false
    }

    /// Whether all that a rule needs is settled.
    fn has_needs(&self, rule: usize) -> bool {
        let needs = self.facts.needs_of(rule);
        needs
            .iter()
            .all(|need| self.progress.is(*need, RuleState::Settled))
    }

    /// The first rule in the build order that can be decided.
    fn first(&self) -> Option<usize> {
        for rule in &self.facts.order {
            if self.progress.is(*rule, RuleState::Waiting)
                && self.facts.unscanned_of(*rule).is_empty()
                && self.has_needs(*rule)
            {
                return Some(*rule);
            }
        }
        None
    }

    /// Whether each needed rule is settled, or something keeps them from that.
    fn is_done(&self) -> bool {
        if self.progress.halted || self.progress.faulty || self.facts.is_cyclic {
            return true;
        }
        let order = self.facts.order.as_slice();
        order
            .iter()
            .all(|rule| self.progress.is(*rule, RuleState::Settled))
    }
}

fn are_same(spots: &[Spot], nodes: &[NodeId]) -> bool {
    if spots.len() != nodes.len() {
        return false;
    }
    for (spot, node) in spots.iter().zip(nodes) {
        if node.0 != u32::from(spot.letter()) {
            return false;
        }
    }
    true
}
