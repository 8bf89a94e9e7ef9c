//! Why a text is no path.
ghost use Rattle.std.specs.Prelude.{◌≡◌};
ghost use Rattle.scons_base.specs.declared.fault.PathFault.TheVariants.{Memory};

use crate::memory::Memory as NoMemory;
use std::alloc::AllocError;
use thiserror::Error;

/// Why a text is no path.
#[derive(Clone, Copy, Debug, PartialEq, Eq, Error)]
pub enum PathFault {
    #[error("the path is empty")]
    Empty,
    /// A zero byte stands at this place.
    #[error("a zero byte stands at byte {0}")]
    BadByte(usize),
    /// The path in normal form has this many bytes.
    #[error("the path has {0} bytes, more than 4096")]
    TooLong(usize),
    #[error("the path isn't in normal form")]
    NotNormal,
    #[error("memory ran out")]
    Memory,
}

impl From<AllocError> for PathFault {
    ghost from_gives = { λ _ e. e ≡ Memory };

    fn from(_: AllocError) -> Self {
        PathFault::Memory
    }
}

impl From<NoMemory> for PathFault {
    ghost from_gives = { λ _ e. e ≡ Memory };

    fn from(_: NoMemory) -> Self {
        PathFault::Memory
    }
}
