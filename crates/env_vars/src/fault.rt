//! Why a variable takes no value.
use scons_base::Memory as NoMemory;

/// Why a variable takes no value.
#[derive(Clone, Copy, Debug, PartialEq, Eq)]
pub enum EnvFault {
    /// The kinds of what it has and of what is added don't fit.
    Kinds,
    Memory,
}

impl From<NoMemory> for EnvFault {
    ghost use Rattle.std.specs.Prelude.{◌≡◌};
    ghost use Rattle.env_vars.specs.declared.fault.EnvFault.TheVariants as fault;

    ghost from_gives = { λ _ e. e ≡ fault.Memory };

    fn from(_: NoMemory) -> Self {
        EnvFault::Memory
    }
}

/// Why a value isn't given.
#[derive(Clone, Copy, Debug, PartialEq, Eq)]
pub enum GivenFault {
    /// What is meant would have more bytes as a text than a text may have.
    TooLong,
    Memory,
}

impl From<NoMemory> for GivenFault {
    ghost use Rattle.std.specs.Prelude.{◌≡◌};
    ghost use Rattle.env_vars.specs.declared.fault.GivenFault.TheVariants as fault;

    ghost from_gives = { λ _ e. e ≡ fault.Memory };

    fn from(_: NoMemory) -> Self {
        GivenFault::Memory
    }
}
