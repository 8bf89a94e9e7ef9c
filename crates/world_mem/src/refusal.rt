//! Why a world in memory wasn't made or changed.
use scons_base::Memory;

/// Why a world wasn't made: the file at this place is listed twice, or lies below or above one before it.
#[derive(Clone, Copy, Debug, PartialEq, Eq)]
pub enum NewRefusal {
    Place(usize),
    Memory,
}

impl From<Memory> for NewRefusal {
    ghost use Rattle.std.specs.Prelude.{◌≡◌};
    ghost use Rattle.world_mem.specs.declared.refusal.NewRefusal.TheVariants.{Memory};

    ghost from_gives = { λ _ e. e ≡ Memory };

    fn from(_: Memory) -> Self {
        NewRefusal::Memory
    }
}

/// Why a file wasn't edited: a directory stands there, a file above it, or a running job makes it.
#[derive(Clone, Copy, Debug, PartialEq, Eq)]
pub enum EditRefusal {
    Place,
    Memory,
}

impl From<Memory> for EditRefusal {
    ghost use Rattle.std.specs.Prelude.{◌≡◌};
    ghost use Rattle.world_mem.specs.declared.refusal.EditRefusal.TheVariants.{Memory};

    ghost from_gives = { λ _ e. e ≡ Memory };

    fn from(_: Memory) -> Self {
        EditRefusal::Memory
    }
}
