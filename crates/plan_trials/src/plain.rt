//! The rules of a graph as the plain lists that the slow functions go over.
use crate::cases::{Case, MOST_NEEDS, RULES};
use crate::graphs::spot_of;
use model_trials::reach::{PlainDecider, PlainRule};
use model_trials::spots::Spot;
use scons_base::NodeId;
use std::alloc::Global;
use trial_text::Told;

/// A rule of this number that makes nothing yet.
pub fn empty_rule(alloc: Global, number: usize) -> PlainRule {
    PlainRule {
        number,
        keeps_sources: false,
        targets: Vec::new(alloc),
        sources: Vec::new(alloc),
        scanned: Vec::new(alloc),
        depends: Vec::new(alloc),
        libraries: Vec::new(alloc),
        ignored: Vec::new(alloc),
        required: Vec::new(alloc),
        always: false,
        decider: PlainDecider::Content,
        scans: Vec::new(alloc),
    }
}

/// The rule that makes the node of its number. One that scans has the source among its sources.
pub fn plain_rule(alloc: Global, told: &mut Told, case: &Case<'_>, number: u32) -> PlainRule {
    let mut rule = empty_rule(alloc, number as usize);
    rule.keeps_sources = case.row.copies && number % 2 == 1;
    told.keep(&mut rule.targets, spot_of(NodeId(number)));
    if case.row.scans && !rule.keeps_sources {
        told.keep(&mut rule.scanned, spot_of(NodeId(RULES)));
        told.keep(&mut rule.sources, spot_of(NodeId(RULES)));
    }
    for place in 0..MOST_NEEDS {
        if let Some(need) = case.need(number, place) {
            if case.row.ignores && place == 0 {
                told.keep(&mut rule.ignored, need);
            }
            give_role(told, &mut rule, need, case.row.role(number, place));
        }
    }
    rule
}

/// Gives a need its role. A rule's own target is no source of it, and what is found in the source isn't named elsewhere.
fn give_role(told: &mut Told, rule: &mut PlainRule, need: Spot, role: u8) {
    let scans = !rule.scanned.is_empty();
    let is_own = need.letter() as usize == rule.number;
    match role {
        b'f' if scans => {}
        b'r' => told.keep(&mut rule.required, need),
        b'l' => told.keep(&mut rule.libraries, need),
        b's' if !is_own => {
            told.keep(&mut rule.sources, need);
            if scans {
                told.keep(&mut rule.scanned, need);
            }
        }
        _ => told.keep(&mut rule.depends, need),
    }
}
