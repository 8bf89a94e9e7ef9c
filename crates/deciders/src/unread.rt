//! Why bytes weren't read as a record.
ghost use Rattle.std.specs.Prelude.{◌≡◌};
ghost use Rattle.deciders.specs.declared.unread.Unread.TheVariants as unread;

use scons_base::Memory;
use std::alloc::{AllocError, AllocFailed};

/// Memory ran out, or the bytes spell no record.
#[derive(Clone, Copy, Debug, PartialEq, Eq)]
pub(crate) enum Unread {
    Memory,
    Malformed,
}

impl From<Memory> for Unread {
    ghost from_gives = { λ _ e. e ≡ unread.Memory };

    fn from(_: Memory) -> Self {
        Unread::Memory
    }
}

impl From<AllocError> for Unread {
    ghost from_gives = { λ _ e. e ≡ unread.Memory };

    fn from(_: AllocError) -> Self {
        Unread::Memory
    }
}

impl<T: Drop> From<AllocFailed<T>> for Unread {
    ghost from_gives = { λ _ e. e ≡ unread.Memory };

    fn from(_: AllocFailed<T>) -> Self {
        Unread::Memory
    }
}
