//! Why a variant directory is not added.
use scons_base::{Memory as NoMemory, PathFault};

/// Why a variant directory isn't added, or a name isn't searched.
#[derive(Clone, Copy, Debug, PartialEq, Eq)]
pub enum VariantFault {
    /// The directory or its source would lie in a variant directory.
    Nested,
    /// The directory stands with another source, or with the other flag.
    Twice,
    /// The name gives no path.
    BadName(PathFault),
    Memory,
}

impl From<NoMemory> for VariantFault {
    ghost use Rattle.std.specs.Prelude.{◌≡◌};
    ghost use Rattle.variant_dirs.specs.declared.fault.VariantFault.TheVariants as fault;

    ghost from_gives = { λ _ e. e ≡ fault.Memory };

    fn from(_: NoMemory) -> Self {
        VariantFault::Memory
    }
}
