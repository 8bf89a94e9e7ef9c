//! Why a text isn't made.
ghost use Rattle.std.specs.Prelude.{◌≡◌};
ghost use Rattle.text_files.specs.declared.refusal.TextRefusal.TheVariants as refusal;

use scons_base::Memory;
use std::alloc::{AllocError, AllocFailed};

#[derive(Clone, Copy, Debug, PartialEq, Eq)]
pub enum TextRefusal {
    /// It would have so many bytes, or the greatest number of 64 bits where that is more.
    TooLarge(u64),
    Memory,
}

impl From<Memory> for TextRefusal {
    ghost from_gives = { λ _ e. e ≡ refusal.Memory };

    fn from(_: Memory) -> Self {
        TextRefusal::Memory
    }
}

impl From<AllocError> for TextRefusal {
    ghost from_gives = { λ _ e. e ≡ refusal.Memory };

    fn from(_: AllocError) -> Self {
        TextRefusal::Memory
    }
}

impl<T: Drop> From<AllocFailed<T>> for TextRefusal {
    ghost from_gives = { λ _ e. e ≡ refusal.Memory };

    fn from(_: AllocFailed<T>) -> Self {
        TextRefusal::Memory
    }
}
