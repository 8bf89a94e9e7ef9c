//! Why tokens are no script.
ghost use Rattle.std.specs.Prelude.{◌≡◌};
ghost use Rattle.py_parse.specs.declared.fault.ParseFault.TheVariants.{Memory};
ghost use Rattle.py_parse.specs.Outside.{spelling_of};

use py_token::{Keyword, Mark};
use scons_base::Memory as OutOfMemory;
use std::alloc::{AllocError, AllocFailed};
use thiserror::Error;

/// Why tokens are no script: the first of them that no continuation allows.
#[derive(Clone, Copy, Debug, PartialEq, Eq, Error)]
pub enum ParseFault {
    /// The token has this number, counted from 0, and stands on this line. Where all tokens are taken and more would
    /// have to follow, the number is how many there are, and the line is that of the last one, or 1.
    #[error("line {line}: {kind:?}")]
    At {
        line: u32,
        token: u32,
        kind: ParseKind,
    },
    #[error("memory ran out")]
    Memory,
}

#[derive(Clone, Copy, Debug, PartialEq, Eq)]
pub enum ParseKind {
    /// Python has it and a script hasn't.
    OutOfSubset(Unsupported),
    /// The token would open a level too many.
    TooDeep,
    Unexpected,
}

/// What of Python a script hasn't.
#[derive(Clone, Copy, Debug, PartialEq, Eq)]
pub enum Unsupported {
    /// A keyword; or a form that is named by one: `def` in a block, `is` with a right side
    /// that is no constant, `import` of another module.
    Word(Keyword),
    Mark(Mark),
    /// A second comparison.
    Chain,
}

impl Unsupported {
    /// The word by which it is told.
    pub fn word(self) -> &'static str
        ensures { result.now ≡ spelling_of self }
    {
        match self {
            Unsupported::Word(word) => word.word(),
            Unsupported::Mark(mark) => mark.text(),
            Unsupported::Chain => "chain",
        }
    }
}

impl From<AllocError> for ParseFault {
    ghost from_gives = { λ _ e. e ≡ Memory };

    fn from(_: AllocError) -> Self {
        ParseFault::Memory
    }
}

impl<T: Drop> From<AllocFailed<T>> for ParseFault {
    ghost from_gives = { λ _ e. e ≡ Memory };

    fn from(_: AllocFailed<T>) -> Self {
        ParseFault::Memory
    }
}

impl From<OutOfMemory> for ParseFault {
    ghost from_gives = { λ _ e. e ≡ Memory };

    fn from(_: OutOfMemory) -> Self {
        ParseFault::Memory
    }
}
