//! Why a script has no tokens.
ghost use Rattle.std.specs.Prelude.{◌≡◌};
ghost use Rattle.py_lex.specs.declared.fault.LexFault.TheVariants.{Memory};

use scons_base::Memory as OutOfMemory;
use std::alloc::{AllocError, AllocFailed};
use thiserror::Error;

/// Why a script has no tokens.
#[derive(Clone, Copy, Debug, PartialEq, Eq, Error)]
pub enum LexFault {
    #[error("line {line}: {kind:?}")]
    At { line: u32, kind: LexKind },
    #[error("memory ran out")]
    Memory,
}

#[derive(Clone, Copy, Debug, PartialEq, Eq)]
pub enum LexKind {
    /// The script isn't UTF-8.
    NotUtf8,
    /// An indentation mixes tabs and spaces otherwise than the line above.
    Tab,
    /// An indentation closes blocks and stands at none of those that are open.
    Indent,
    /// A bracket or a text isn't closed.
    Unclosed,
    BadNumber,
    BadEscape,
    /// A byte begins no token.
    BadByte,
    /// A field of an f-text holds a quote, a backslash, a `#` or a line end, or a closing brace stands alone in an f-text.
    BadField,
    /// The script has more than 1,048,576 bytes.
    TooLong,
}

impl From<AllocError> for LexFault {
    ghost from_gives = { λ _ e. e ≡ Memory };

    fn from(_: AllocError) -> Self {
        LexFault::Memory
    }
}

impl<T: Drop> From<AllocFailed<T>> for LexFault {
    ghost from_gives = { λ _ e. e ≡ Memory };

    fn from(_: AllocFailed<T>) -> Self {
        LexFault::Memory
    }
}

impl From<OutOfMemory> for LexFault {
    ghost from_gives = { λ _ e. e ≡ Memory };

    fn from(_: OutOfMemory) -> Self {
        LexFault::Memory
    }
}
