//! Why a host does not answer.
use scons_base::Memory as NoMemory;
use std::alloc::{AllocError, AllocFailed};

/// Why a host doesn't answer.
#[derive(Clone, Copy, Debug, PartialEq, Eq)]
pub enum HostRefusal {
    /// The host is at fault, and keeps why.
    Host,
    Memory,
}

impl From<NoMemory> for HostRefusal {
    ghost use Rattle.std.specs.Prelude.{◌≡◌};
    ghost use Rattle.py_host.specs.declared.refusal.HostRefusal.TheVariants as refusal;

    ghost from_gives = { λ _ e. e ≡ refusal.Memory };

    fn from(_: NoMemory) -> Self {
        HostRefusal::Memory
    }
}

impl From<AllocError> for HostRefusal {
    ghost use Rattle.std.specs.Prelude.{◌≡◌};
    ghost use Rattle.py_host.specs.declared.refusal.HostRefusal.TheVariants as refusal;

    ghost from_gives = { λ _ e. e ≡ refusal.Memory };

    fn from(_: AllocError) -> Self {
        HostRefusal::Memory
    }
}

impl<T: Drop> From<AllocFailed<T>> for HostRefusal {
    ghost use Rattle.std.specs.Prelude.{◌≡◌};
    ghost use Rattle.py_host.specs.declared.refusal.HostRefusal.TheVariants as refusal;

    ghost from_gives = { λ _ e. e ≡ refusal.Memory };

    fn from(_: AllocFailed<T>) -> Self {
        HostRefusal::Memory
    }
}
