//! How a run ends, before its last text.
ghost use Rattle.std.specs.Prelude.{◌≡◌};
ghost use Rattle.one_rule.specs.Endings.{read_ending, build_ending};

use crate::report::Top;
use crate::stops::{BuildStop, ReadStop};

/// How a run ended, before its last text is printed.
#[derive(Debug, Drop)]
pub enum Ending {
    /// By a word.
    Refused(Top),
    /// By a fault of reading.
    Misread(Top),
    /// By a fault of building, before the rule's line was printed.
    Stopped(Top),
    /// The line was printed; the action wasn't started, or it failed.
    Failed(Top),
    /// The target is built.
    Built,
    /// Standard output refused.
    Unprinted,
    NoMemory,
}

impl Ending {
    pub fn of_reading(stop: ReadStop) -> Ending
        ensures { result ≡ read_ending stop }
    {
        match stop {
            ReadStop::Fault(fault) => Ending::Misread(fault),
            ReadStop::Unprinted => Ending::Unprinted,
            ReadStop::NoMemory => Ending::NoMemory,
        }
    }

    pub fn of_build(built: Result<(), BuildStop>) -> Ending
        ensures { result ≡ build_ending built }
    {
        match built {
            Ok(()) => Ending::Built,
            Err(BuildStop::Stopped(fault)) => Ending::Stopped(fault),
            Err(BuildStop::Failed(fault)) => Ending::Failed(fault),
            Err(BuildStop::Unprinted) => Ending::Unprinted,
            Err(BuildStop::NoMemory) => Ending::NoMemory,
        }
    }
}
