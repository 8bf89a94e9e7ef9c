//! Small graphs: four rules, one source, and at most two needs of each rule, in one of several roles.
use crate::row::Row;
use model_trials::spots::Spot;
use scons_base::{NodeId, RuleId};
use std::alloc::Global;
use trial_text::Told;

/// How many rules there are. The node behind their targets is the source.
pub const RULES: u32 = 4;

/// What a rule may need: none of the five nodes, one, or two.
const NEEDS: [&str; 16] = [
    "", "0", "1", "2", "3", "4", "01", "02", "03", "04", "12", "13", "14", "23", "24", "34",
];

/// How many nodes a rule needs at most.
pub const MOST_NEEDS: usize = 2;

/// What a rule of the graph with this number needs: a digit for each node.
fn needs_of(code: u32, rule: u32) -> &'static [u8] {
    let list = code.wrapping_shr(rule.wrapping_mul(4)) % 16;
    NEEDS[list as usize].as_bytes()
}

/// Whether rules are numbered in the order in which they are met from the first one on, and those that aren't met need
/// nothing: so each graph comes once, whatever its rules are called.
pub fn is_first_of_its_kind(code: u32) -> bool {
    let mut met: u32 = 1;
    for turn in 0..RULES as usize * MOST_NEEDS {
        let rule = (turn / MOST_NEEDS) as u32;
        let Some(digit) = needs_of(code, rule).get(turn % MOST_NEEDS) else {
            continue;
        };
        let need = u32::from(digit.wrapping_sub(b'0'));
        if rule >= met || (need < RULES && need > met) {
            return false;
        }
        if need == met && need < RULES {
            met = met.saturating_add(1);
        }
    }
    true
}

/// A graph: its number says what each rule needs, and a row in which roles.
#[derive(Drop)]
pub struct Case<'a> {
    pub code: u32,
    pub row: Row<'a>,
}

impl<'a> Case<'a> {
    /// A node that is drawn for a rule to need.
    fn drawn(&self, rule: u32, place: usize) -> Option<Spot> {
        let digits = needs_of(self.code, rule);
        let place = if self.row.turned {
            digits.len().wrapping_sub(1).wrapping_sub(place)
        } else {
            place
        };
        let digit = digits.get(place)?;
        Some(Spot::new(digit.wrapping_sub(b'0')))
    }

    /// A node that a rule needs.
    pub fn need(&self, rule: u32, place: usize) -> Option<Spot> {
        if self.row.alone && rule > 0 {
            return None;
        }
        self.drawn(rule, place)
    }

    /// What a file includes, where it is scanned for a rule.
    pub fn includes(
        &self,
        alloc: Global,
        told: &mut Told,
        rule: RuleId,
        file: NodeId,
    ) -> Vec<Spot> {
        let mut includes = Vec::new(alloc);
        for place in 0..MOST_NEEDS {
            if let Some(spot) = self.included(rule.0, file.0, place) {
                told.keep(&mut includes, spot);
            }
        }
        includes
    }

    /// The source includes what is found in it for the rule, and a target what is drawn for its own rule to need.
    fn included(&self, rule: u32, file: u32, place: usize) -> Option<Spot> {
        if file < RULES && self.row.inner {
            self.drawn(file, place)
        } else if file == RULES && self.row.role(rule, place) == b'f' {
            self.need(rule, place)
        } else {
            None
        }
    }
}
