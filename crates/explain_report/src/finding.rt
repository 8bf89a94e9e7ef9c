//! The first reason that holds for a target.
ghost use Rattle.std.specs.Prelude.{◌<◌, false, true, length, Some};
ghost use Rattle.std.specs.Option.{option_copied};
ghost use Rattle.explain_report.specs.Reasons.{IsReason};

use crate::changes::{first_changed, is_same_work};
use crate::names::{first_new, have_same_names};
use crate::reason::Reason;
use deciders::Rec;
use world_api::Decider;

/// The first reason that holds for the target at `place` among those of `now`, the rule's record of now. `present` says
/// whether the target is a file, `first_stamp` is the stamp of the rule's first target, and `old` is what was recorded.
pub fn reason_of(
    decider: Decider,
    always: bool,
    now: &Rec,
    place: u32,
    present: bool,
    first_stamp: Option<u64>,
    old: Option<&Rec>,
) -> Option<Reason>
    requires { place < length now.now.targets }
    ensures { IsReason decider always now.now place present first_stamp (option_copied old.entry) result }
{
    if always {
        return Some(Reason::Always(place));
    }
    if !present {
        return Some(Reason::Absent(place));
    }
    match old {
        Some(old) => reason_beside(decider, now, place, first_stamp, old),
        None => Some(Reason::NoRecord(place)),
    }
}

/// The same for a file that has a record, where the rule isn't always built.
fn reason_beside(
    decider: Decider,
    now: &Rec,
    place: u32,
    first_stamp: Option<u64>,
    old: &Rec,
) -> Option<Reason>
    ensures { IsReason decider false now.now place true first_stamp (Some old.now) result }
{
    if !is_same_work(old, now) {
        return Some(Reason::Action(place));
    }
    if let Some(dep) = first_new(old, now) {
        return Some(Reason::Newly(place, dep));
    }
    if let Some(dep) = first_new(now, old) {
        return Some(Reason::Gone(place, dep));
    }
    if !have_same_names(now, old) {
        return Some(Reason::Moved(place));
    }
    match first_changed(decider, first_stamp, old, now) {
        Some(dep) => Some(Reason::Changed(place, dep)),
        None => None,
    }
}
