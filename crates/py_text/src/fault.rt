//! Why a text isn't read as a number or a format.
ghost use Rattle.std.specs.Prelude.{◌≡◌};
ghost use Rattle.py_text.specs.declared.fault.FormatFault.TheVariants.{Memory};

use scons_base::Memory as OutOfMemory;
use std::alloc::{AllocError, AllocFailed};

/// Why a text isn't read as a number.
#[derive(Clone, Copy, Debug, PartialEq, Eq)]
pub enum IntFault {
    /// The text isn't decimal digits behind at most one sign.
    BadText,
    /// The number has more than 64 bits.
    Overflow,
}

/// Why a `%` format has no pieces.
#[derive(Clone, Copy, Debug, PartialEq, Eq)]
pub enum FormatFault {
    /// A `%` stands at the end, or before a character other than `s`, `d` and `%`.
    BadText,
    Memory,
}

impl From<AllocError> for FormatFault {
    ghost from_gives = { λ _ e. e ≡ Memory };

    fn from(_: AllocError) -> Self {
        FormatFault::Memory
    }
}

impl<T: Drop> From<AllocFailed<T>> for FormatFault {
    ghost from_gives = { λ _ e. e ≡ Memory };

    fn from(_: AllocFailed<T>) -> Self {
        FormatFault::Memory
    }
}

impl From<OutOfMemory> for FormatFault {
    ghost from_gives = { λ _ e. e ≡ Memory };

    fn from(_: OutOfMemory) -> Self {
        FormatFault::Memory
    }
}
