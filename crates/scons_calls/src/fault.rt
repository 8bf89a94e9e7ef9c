//! Why a call isn't taken.
ghost use Rattle.std.specs.Prelude.{◌≡◌, ◌≢◌};

use scons_base::{Memory as NoMemory, Text};
use std::alloc::{AllocError, AllocFailed, Global};

/// Why the arguments of a call are refused.
#[derive(Drop)]
pub enum CallFault {
    /// A wrong number, name or kind of arguments.
    Arguments,
    /// An argument of another kind than its name takes.
    Argument(Text),
    /// A named argument on which SCons acts and that is left out here.
    LeftOut(Text),
    Memory,
}

impl From<NoMemory> for CallFault {
    ghost use Rattle.std.specs.Prelude.{◌≡◌};
    ghost use Rattle.scons_calls.specs.declared.fault.CallFault.TheVariants as fault;

    ghost from_gives = { λ _ e. e ≡ fault.Memory };

    fn from(_: NoMemory) -> Self {
        CallFault::Memory
    }
}

impl From<AllocError> for CallFault {
    ghost use Rattle.std.specs.Prelude.{◌≡◌};
    ghost use Rattle.scons_calls.specs.declared.fault.CallFault.TheVariants as fault;

    ghost from_gives = { λ _ e. e ≡ fault.Memory };

    fn from(_: AllocError) -> Self {
        CallFault::Memory
    }
}

impl<T: Drop> From<AllocFailed<T>> for CallFault {
    ghost use Rattle.std.specs.Prelude.{◌≡◌};
    ghost use Rattle.scons_calls.specs.declared.fault.CallFault.TheVariants as fault;

    ghost from_gives = { λ _ e. e ≡ fault.Memory };

    fn from(_: AllocFailed<T>) -> Self {
        CallFault::Memory
    }
}

/// The fault of what is left out, by its name.
pub fn left_out(alloc: Global, name: &str) -> CallFault
    ensures { result ≢ CallFault.Memory → result ≡ CallFault.LeftOut name.now }
{
    match Text::of(alloc, name) {
        Ok(name) => CallFault::LeftOut(name),
        Err(_) => CallFault::Memory,
    }
}
