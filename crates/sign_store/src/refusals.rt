//! Why the store refused.
ghost use Rattle.std.specs.Prelude.{◌≡◌};
ghost use Rattle.sign_store.specs.declared.refusals.StoreRefusal.TheVariants as store;
ghost use Rattle.sign_store.specs.declared.refusals.PrepareRefusal.TheVariants as prepare;

use scons_base::Memory;
use std::alloc::{AllocError, AllocFailed};
use world_api::{Bank, Fault};

/// Why a store isn't read or begun.
#[derive(Clone, Copy, Debug, PartialEq, Eq)]
pub enum StoreRefusal {
    Fault,
    /// This bank is live and has another mark.
    Foreign(Bank),
    /// A bank has this many bytes, more than it may have.
    Large(u64),
    Memory,
}

/// Why a record can't be put.
#[derive(Clone, Copy, Debug, PartialEq, Eq)]
pub enum PrepareRefusal {
    /// The payload of its put, or the bank with the entries of all tickets, would have this many bytes.
    Full(u64),
    Memory,
}

impl From<Fault> for StoreRefusal {
    ghost from_gives = { λ _ e. e ≡ store.Fault };

    fn from(_: Fault) -> Self {
        StoreRefusal::Fault
    }
}

impl From<Memory> for StoreRefusal {
    ghost from_gives = { λ _ e. e ≡ store.Memory };

    fn from(_: Memory) -> Self {
        StoreRefusal::Memory
    }
}

impl From<AllocError> for StoreRefusal {
    ghost from_gives = { λ _ e. e ≡ store.Memory };

    fn from(_: AllocError) -> Self {
        StoreRefusal::Memory
    }
}

impl From<Memory> for PrepareRefusal {
    ghost from_gives = { λ _ e. e ≡ prepare.Memory };

    fn from(_: Memory) -> Self {
        PrepareRefusal::Memory
    }
}
