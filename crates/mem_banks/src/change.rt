//! What happened to a bank.
ghost use Rattle.std.specs.Prelude.{◌≡◌};
ghost use Rattle.mem_banks.specs.Past.{same_bank};

use world_api::Bank;

/// A write: `count` bytes of the range from `place` on may have been written. The bank had `size` bytes before, of which
/// `kept` were overwritten and saved.
#[derive(Clone, Copy, Debug, PartialEq, Eq)]
pub struct Write {
    pub bank: Bank,
    pub place: usize,
    pub count: usize,
    pub size: usize,
    pub kept: usize,
}

#[derive(Clone, Copy, Debug, PartialEq, Eq)]
pub enum Change {
    Wrote(Write),
    Synced(Bank),
}

pub(crate) fn is_same(one: Bank, other: Bank) -> bool
    ensures { result ≡ same_bank one other }
{
    matches!((one, other), (Bank::A, Bank::A) | (Bank::B, Bank::B))
}
