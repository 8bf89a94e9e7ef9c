//! What a run reports.
use crate::faults::Faults;
use crate::skipped::Skipped;
use scons_base::PathText;

/// How a word of the command line is refused.
#[derive(Clone, Copy, Debug, PartialEq, Eq)]
pub enum UsageKind {
    NotBuilt,
}

/// How a script is refused.
#[derive(Clone, Copy, Debug, PartialEq, Eq)]
pub enum ReadKind {
    NoScript,
    LineForm,
}

/// A fault that ended a run, with its place and cause. A rule goes by its target.
#[derive(Debug, PartialEq, Drop)]
pub enum Top {
    /// The word at this place, counted from 0, is refused.
    Usage(u64, UsageKind),
    /// The script can't be read: its file, the line, and why.
    Reading(PathText, u32, ReadKind),
    /// A source of the target is no file.
    Missing { node: PathText, target: PathText },
    /// The action of the target ended with this status.
    ActionFailed { target: PathText, code: i32 },
    /// The file system refused at this path.
    TreeFault(PathText),
    /// The action of this target couldn't be started, or not run to its end.
    StartFault(PathText),
    /// Text couldn't be printed.
    OutFault,
    /// The file has this many bytes, more than its limit.
    TooLarge(PathText, u64),
}

/// What a run answers. Status 0 is a run without a fault, 2 one with faults, and 3 one that memory ran out for; its
/// faults are then those found before.
#[derive(Debug, Drop)]
pub struct Report {
    pub status: u8,
    pub faults: Faults,
    /// The rules that weren't started because of one below them.
    pub skipped: Skipped,
}
