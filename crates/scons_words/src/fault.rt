//! Why a command line is refused.
use scons_base::Memory as NoMemory;
use std::alloc::{AllocError, AllocFailed};

/// Why a word is refused.
#[derive(Clone, Copy, Debug, PartialEq, Eq)]
pub enum UsageKind {
    /// An option that there isn't, a lone `-`, or a value given to an option that takes none.
    Unknown,
    /// An option without its value.
    NeedsValue,
    /// Jobs other than 1 to 64, or a load other than 1 to 20,000.
    BadNumber,
    /// A hash format that there isn't, or another value than the one that an option takes.
    BadValue,
    /// A target, or a script, that is no path in normal form.
    BadTarget,
    /// A word that begins with `=`.
    BadArgument,
    /// A word beside `--load` that isn't `-j`.
    Mixed,
}

impl UsageKind {
    ghost use Rattle.std.specs.Prelude.{◌≡◌};
    ghost use Rattle.scons_words.specs.Names.{usage_name};

    /// The name by which it is told.
    pub fn name(self) -> &'static str
        ensures { result.now ≡ usage_name self }
    {
        match self {
            UsageKind::Unknown => "Unknown",
            UsageKind::NeedsValue => "NeedsValue",
            UsageKind::BadNumber => "BadNumber",
            UsageKind::BadValue => "BadValue",
            UsageKind::BadTarget => "BadTarget",
            UsageKind::BadArgument => "BadArgument",
            UsageKind::Mixed => "Mixed",
        }
    }
}

#[derive(Clone, Copy, Debug, PartialEq, Eq)]
pub enum WordsFault {
    /// This is the first word that is refused.
    At(u64, UsageKind),
    Memory,
}

impl From<NoMemory> for WordsFault {
    ghost use Rattle.std.specs.Prelude.{◌≡◌};
    ghost use Rattle.scons_words.specs.declared.fault.WordsFault.TheVariants as fault;

    ghost from_gives = { λ _ e. e ≡ fault.Memory };

    fn from(_: NoMemory) -> Self {
        WordsFault::Memory
    }
}

/// Why a word isn't read.
#[derive(Clone, Copy)]
pub(crate) enum Refusal {
    Kind(UsageKind),
    Memory,
}

impl From<NoMemory> for Refusal {
    ghost use Rattle.std.specs.Prelude.{◌≡◌};
    ghost use Rattle.scons_words.specs.declared.fault.Refusal.TheVariants as refusal;

    ghost from_gives = { λ _ e. e ≡ refusal.Memory };

    fn from(_: NoMemory) -> Self {
        Refusal::Memory
    }
}

impl From<AllocError> for Refusal {
    ghost use Rattle.std.specs.Prelude.{◌≡◌};
    ghost use Rattle.scons_words.specs.declared.fault.Refusal.TheVariants as refusal;

    ghost from_gives = { λ _ e. e ≡ refusal.Memory };

    fn from(_: AllocError) -> Self {
        Refusal::Memory
    }
}

impl<T: Drop> From<AllocFailed<T>> for Refusal {
    ghost use Rattle.std.specs.Prelude.{◌≡◌};
    ghost use Rattle.scons_words.specs.declared.fault.Refusal.TheVariants as refusal;

    ghost from_gives = { λ _ e. e ≡ refusal.Memory };

    fn from(_: AllocFailed<T>) -> Self {
        Refusal::Memory
    }
}
