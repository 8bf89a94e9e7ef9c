//! Why the outside refused.
ghost use Rattle.std.specs.Prelude.{◌≡◌};

use scons_base::Memory;
use std::alloc::{AllocError, AllocFailed};

/// The outside refused: a file, a process or a terminal. The count that belongs to the call rose.
#[derive(Clone, Copy, Debug, PartialEq, Eq)]
pub struct Fault;

/// Why a file wasn't read. `TooLarge` carries its size.
#[derive(Clone, Copy, Debug, PartialEq, Eq)]
pub enum ReadRefusal {
    Fault,
    TooLarge(u64),
    Memory,
}

/// Why the world didn't do what it was asked.
#[derive(Clone, Copy, Debug, PartialEq, Eq)]
pub enum AskRefusal {
    Fault,
    Memory,
}

impl From<Memory> for ReadRefusal {
    ghost use Rattle.world_api.specs.declared.refusal.ReadRefusal.TheVariants.{Memory};

    ghost from_gives = { λ _ e. e ≡ Memory };

    fn from(_: Memory) -> Self {
        ReadRefusal::Memory
    }
}

impl From<AllocError> for ReadRefusal {
    ghost use Rattle.world_api.specs.declared.refusal.ReadRefusal.TheVariants.{Memory};

    ghost from_gives = { λ _ e. e ≡ Memory };

    fn from(_: AllocError) -> Self {
        ReadRefusal::Memory
    }
}

impl From<Memory> for AskRefusal {
    ghost use Rattle.world_api.specs.declared.refusal.AskRefusal.TheVariants.{Memory};

    ghost from_gives = { λ _ e. e ≡ Memory };

    fn from(_: Memory) -> Self {
        AskRefusal::Memory
    }
}

impl From<AllocError> for AskRefusal {
    ghost use Rattle.world_api.specs.declared.refusal.AskRefusal.TheVariants.{Memory};

    ghost from_gives = { λ _ e. e ≡ Memory };

    fn from(_: AllocError) -> Self {
        AskRefusal::Memory
    }
}

impl<T: Drop> From<AllocFailed<T>> for AskRefusal {
    ghost use Rattle.world_api.specs.declared.refusal.AskRefusal.TheVariants.{Memory};

    ghost from_gives = { λ _ e. e ≡ Memory };

    fn from(_: AllocFailed<T>) -> Self {
        AskRefusal::Memory
    }
}
