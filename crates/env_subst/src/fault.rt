//! Why a text has no form.
ghost use Rattle.std.specs.Prelude.{◌≡◌};
ghost use Rattle.env_subst.specs.declared.fault.SubstFault.TheVariants.{Memory};

use scons_base::{Memory as NoMemory, PathFault, Text};
use std::alloc::{AllocError, AllocFailed};

/// Why a text has no form.
#[derive(Debug, Drop)]
pub enum SubstFault {
    /// The `$` at this byte of this variable's value refers to nothing that can be read. The given text has no name.
    BadBrace { name: Text, at: u64 },
    /// It refers to an attribute that there isn't, or of a value that isn't a list of nodes.
    BadAttr { name: Text, at: u64 },
    /// The piece of this number ends a part that isn't open; or a part is open behind the last piece.
    Marks(u32),
    /// The pieces would have this many bytes.
    TooLong(u64),
    /// This reference is one more than there may be.
    TooMany(u64),
    /// What stands for a directory names no path.
    BadPath(PathFault),
    Memory,
}

impl From<NoMemory> for SubstFault {
    ghost from_gives = { λ _ e. e ≡ Memory };

    fn from(_: NoMemory) -> Self {
        SubstFault::Memory
    }
}

impl From<AllocError> for SubstFault {
    ghost from_gives = { λ _ e. e ≡ Memory };

    fn from(_: AllocError) -> Self {
        SubstFault::Memory
    }
}

impl<T: Drop> From<AllocFailed<T>> for SubstFault {
    ghost from_gives = { λ _ e. e ≡ Memory };

    fn from(_: AllocFailed<T>) -> Self {
        SubstFault::Memory
    }
}
