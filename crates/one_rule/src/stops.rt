//! Why a step of a run stops it.
ghost use Rattle.std.specs.Prelude.{◌≡◌};

use crate::report::Top;
use scons_base::Memory;
use std::alloc::AllocError;
use world_api::Fault;

/// Why reading ended without a rule.
#[derive(Debug, Drop)]
pub enum ReadStop {
    Fault(Top),
    /// Standard output refused.
    Unprinted,
    NoMemory,
}

impl From<Fault> for ReadStop {
    ghost use Rattle.one_rule.specs.declared.stops.ReadStop.TheVariants.{Unprinted};

    ghost from_gives = { λ _ e. e ≡ Unprinted };

    fn from(_: Fault) -> Self {
        ReadStop::Unprinted
    }
}

impl From<Memory> for ReadStop {
    ghost use Rattle.one_rule.specs.declared.stops.ReadStop.TheVariants.{NoMemory};

    ghost from_gives = { λ _ e. e ≡ NoMemory };

    fn from(_: Memory) -> Self {
        ReadStop::NoMemory
    }
}

/// Why a text wasn't printed whole.
#[derive(Clone, Copy, Debug, PartialEq, Eq)]
pub enum PrintStop {
    Unprinted,
    NoMemory,
}

impl From<Fault> for PrintStop {
    ghost use Rattle.one_rule.specs.declared.stops.PrintStop.TheVariants.{Unprinted};

    ghost from_gives = { λ _ e. e ≡ Unprinted };

    fn from(_: Fault) -> Self {
        PrintStop::Unprinted
    }
}

impl From<Memory> for PrintStop {
    ghost use Rattle.one_rule.specs.declared.stops.PrintStop.TheVariants.{NoMemory};

    ghost from_gives = { λ _ e. e ≡ NoMemory };

    fn from(_: Memory) -> Self {
        PrintStop::NoMemory
    }
}

/// Why building ended without the target.
#[derive(Debug, Drop)]
pub enum BuildStop {
    /// A fault before the line of the rule was printed.
    Stopped(Top),
    /// The line was printed; the action wasn't started, or it failed.
    Failed(Top),
    /// Standard output refused.
    Unprinted,
    NoMemory,
}

impl From<Fault> for BuildStop {
    ghost use Rattle.one_rule.specs.declared.stops.BuildStop.TheVariants.{Unprinted};

    ghost from_gives = { λ _ e. e ≡ Unprinted };

    fn from(_: Fault) -> Self {
        BuildStop::Unprinted
    }
}

impl From<Memory> for BuildStop {
    ghost use Rattle.one_rule.specs.declared.stops.BuildStop.TheVariants.{NoMemory};

    ghost from_gives = { λ _ e. e ≡ NoMemory };

    fn from(_: Memory) -> Self {
        BuildStop::NoMemory
    }
}

impl From<AllocError> for BuildStop {
    ghost use Rattle.one_rule.specs.declared.stops.BuildStop.TheVariants.{NoMemory};

    ghost from_gives = { λ _ e. e ≡ NoMemory };

    fn from(_: AllocError) -> Self {
        BuildStop::NoMemory
    }
}
