//! What happens to a world, and why it may not.
use scons_base::{Blob, Memory, PathText, Text};
use std::alloc::AllocFailed;

/// What happens to a world.
#[derive(Drop)]
pub enum Event {
    /// The bytes of a file are set by hand.
    Edit(PathText, Blob),
    /// A file is removed by hand.
    Delete(PathText),
    /// The command is run with these words.
    Build(Vec<Text>),
    /// The command is run with these words in a world that fails from so many calls on, and is stopped then; the second number says
    /// which of its outcomes the stop has.
    Stopped(Vec<Text>, u32, u32),
}

/// Why a history goes no further. Each has the place of the event that is refused, counted from 0.
#[derive(Clone, Copy, PartialEq, Eq)]
pub enum HistoryFault {
    /// A stop could leave a bank of the signature file otherwise than it reads, so who edits can't know what has a record.
    Unsynced(usize),
    /// The file that is edited has a record.
    HasRecord(usize),
    /// No file can stand there: a directory does, or a file above it.
    Place(usize),
    Memory,
}

impl From<Memory> for HistoryFault {
    ghost use Rattle.std.specs.Prelude.{◌≡◌};
    ghost use Rattle.build_history.specs.declared.event.HistoryFault.TheVariants as fault;

    ghost from_gives = { λ _ e. e ≡ fault.Memory };

    fn from(_: Memory) -> Self {
        HistoryFault::Memory
    }
}

impl<T: Drop> From<AllocFailed<T>> for HistoryFault {
    ghost use Rattle.std.specs.Prelude.{◌≡◌};
    ghost use Rattle.build_history.specs.declared.event.HistoryFault.TheVariants as fault;

    ghost from_gives = { λ _ e. e ≡ fault.Memory };

    fn from(_: AllocFailed<T>) -> Self {
        HistoryFault::Memory
    }
}
