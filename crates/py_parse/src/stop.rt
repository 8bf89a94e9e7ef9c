//! Why reading stops.
ghost use Rattle.std.specs.Prelude.{◌≡◌};
ghost use Rattle.py_parse.specs.declared.stop.Stop.TheVariants as stop';

use py_token::Token;
use scons_base::Memory;
use std::alloc::{AllocError, AllocFailed};

/// Why reading stops: at the first of these tokens, or for want of memory.
#[derive(Debug, Drop)]
pub enum Stop<'a> {
    /// The token doesn't fit.
    At(&'a [Token]),
    /// The token would open a level too many.
    TooDeep(&'a [Token]),
    Memory,
}

impl<'a> From<AllocError> for Stop<'a> {
    ghost from_gives = { λ _ e. e ≡ stop'.Memory };

    fn from(_: AllocError) -> Self {
        Stop::Memory
    }
}

impl<'a, T: Drop> From<AllocFailed<T>> for Stop<'a> {
    ghost from_gives = { λ _ e. e ≡ stop'.Memory };

    fn from(_: AllocFailed<T>) -> Self {
        Stop::Memory
    }
}

impl<'a> From<Memory> for Stop<'a> {
    ghost from_gives = { λ _ e. e ≡ stop'.Memory };

    fn from(_: Memory) -> Self {
        Stop::Memory
    }
}
