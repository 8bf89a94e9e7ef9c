//! What a run answers.
ghost use Rattle.std.specs.Prelude.{◌≡◌};
ghost use Rattle.scons_top.specs.Faults.{IsLate};
ghost use Rattle.scons_top.specs.Stops.{top_of};

use crate::step::Step;
use rule_graph::{BuildFault, What};
use scons_base::{Listing, PathText, Paths, Text};
use scons_host::ReadKind;
use scons_words::UsageKind;
use world_api::Bank;

/// A fault, with its place and cause. A rule goes by its first target.
#[derive(Drop)]
pub enum Top {
    /// The word at this place, counted from 0, is refused.
    Usage(u64, UsageKind),
    /// A script can't be read: its file, the line, and why.
    Reading(PathText, u32, ReadKind),
    /// A dependency of the target has no rule and is no file.
    Missing { node: PathText, target: PathText },
    /// A word is no alias, target, file or directory.
    UnknownTarget(Text),
    /// Each of these needs the next, and the last the first.
    Cycle(Paths),
    /// The action of the target ended with this status.
    ActionFailed { target: PathText, code: i32 },
    /// The file tree refused at this path.
    TreeFault(PathText),
    /// The action of this target couldn't be started, or not run to its end.
    StartFault(PathText),
    /// The signature file refused.
    StoreFault,
    /// This half of the signature file is something else.
    StoreForeign(Bank),
    /// Text couldn't be printed.
    OutFault,
    /// The file has this many bytes, more than its limit.
    TooLarge(PathText, u64),
    /// There are more of these than may be.
    TooMany(What, u64),
}

impl From<BuildFault> for Top {
    ghost from_gives = { λ f top. IsLate top × (top ≡ top_of f) };

    fn from(fault: BuildFault) -> Self {
        match fault {
            BuildFault::Missing { node, target } => Top::Missing { node, target },
            BuildFault::Cycle(paths) => Top::Cycle(paths),
            BuildFault::ActionFailed { target, code } => Top::ActionFailed { target, code },
            BuildFault::TreeFault(path) => Top::TreeFault(path),
            BuildFault::StartFault(target) => Top::StartFault(target),
            BuildFault::StoreFault => Top::StoreFault,
            BuildFault::OutFault => Top::OutFault,
            BuildFault::TooLarge(path, size) => Top::TooLarge(path, size),
            BuildFault::TooMany(what, count) => Top::TooMany(what, count),
        }
    }
}

/// What a run answers. Status 0 is a run without a fault, 2 one with faults, and 3 one that memory ran out for; its
/// faults are then those found before.
#[derive(Drop)]
pub struct Report {
    pub status: u8,
    /// The step at which the run ended.
    pub step: Step,
    pub faults: Listing<Top>,
    /// Each rule that wasn't started because one that it needs is at fault: its first target, and that one's.
    pub skipped: Listing<(PathText, PathText)>,
}
