//! Two banks of bytes, which outlive a stop.
ghost use Rattle.std.specs.Prelude.{◌≡◌, ◌≢◌, ◌+◌, ◌^◌, ◌≤◌, ℕ, List, length, slice_range, IfOk, OnOk, OnErr};
ghost use Rattle.world_api.specs.Around.{Around};
ghost use Rattle.world_api.specs.Banks.{Banks, Holds, Torn, Follows};
ghost use Rattle.world_api.specs.Causes.{DiskFails};
ghost use Rattle.world_api.specs.Laws.{CountsNow, HasOnlyNow};
ghost use Rattle.world_api.specs.Meaning.{Meaning, IsImage, IsSettled, Told, Recalls, BankKept, BanksKept, Throughout, AtEither};

use crate::refusal::Fault;

/// Which bank. A call on one leaves the other alone.
#[derive(Clone, Copy, Debug, PartialEq, Eq)]
pub enum Bank {
    A,
    B,
}

/// Two banks of bytes. Until a bank is synced, a stop may leave anything in the ranges that were written, and a part of
/// its growth.
pub trait Disk {
    ghost meaning: { Meaning Self };

    /// How many bytes a bank has.
    fn size(&mut self, bank: Bank) -> Result<u64, Fault>
        ensures size { meaning.tells self.new → IfOk result (λ size. size ≡ length (meaning.seen self.new bank)) }

        ensures banks { meaning.tells self.new → BanksKept meaning self.old self.new }
        ensures around { meaning.tells self.new → meaning.around self.new ≡ meaning.around self.old }
        ensures told { Told meaning self.old self.new }
        ensures recalls { Recalls meaning self.old self.new }
        ensures time { Throughout meaning self.old self.new (AtEither meaning self.old self.new) }
        ensures kept { OnOk result (meaning.counts self.new ≡ meaning.counts self.old) }
        ensures rose { OnErr result (DiskFails (meaning.counts self.old) (meaning.counts self.new)) };

    /// Fills `into` from a place of a bank on.
    fn read_at(&mut self, bank: Bank, place: u64, into: &mut [u8]) -> Result<(), Fault>
        requires { meaning.tells self.old → place + length into.old ≤ length (meaning.seen self.old bank) }
        ensures read { meaning.tells self.new → OnOk result (into.new ≡ slice_range (meaning.seen self.new bank) place (place + length into.old)) }

        ensures banks { meaning.tells self.new → BanksKept meaning self.old self.new }
        ensures around { meaning.tells self.new → meaning.around self.new ≡ meaning.around self.old }
        ensures told { Told meaning self.old self.new }
        ensures recalls { Recalls meaning self.old self.new }
        ensures time { Throughout meaning self.old self.new (AtEither meaning self.old self.new) }
        ensures kept { OnOk result (meaning.counts self.new ≡ meaning.counts self.old) }
        ensures rose { OnErr result (DiskFails (meaning.counts self.old) (meaning.counts self.new)) };

    /// Writes the bytes at a place of a bank. A refused write may have written any part of them, and any bytes in their
    /// range.
    fn write_at(&mut self, bank: Bank, place: u64, bytes: &[u8]) -> Result<(), Fault>
        requires within { meaning.tells self.old → place ≤ length (meaning.seen self.old bank) }
        requires small { place + length bytes.now ≤ 2 ^ 41 }
        ensures written { meaning.tells self.new → OnOk result (Holds (meaning.seen self.old bank) place bytes.now (meaning.seen self.new bank)) }
        ensures cut { meaning.tells self.new → OnErr result (Torn place (length bytes.now) (meaning.seen self.old bank) (meaning.seen self.new bank)) }
        ensures image { meaning.tells self.new → Follows (Torn place (length bytes.now)) (meaning.image self.old bank) (meaning.image self.new bank) }
        ensures other { meaning.tells self.new → (other : Bank) → other ≢ bank → BankKept meaning other self.old self.new }

        ensures around { meaning.tells self.new → meaning.around self.new ≡ meaning.around self.old }
        ensures told { Told meaning self.old self.new }
        ensures recalls { Recalls meaning self.old self.new }
        ensures time { Throughout meaning self.old self.new (AtEither meaning self.old self.new) }
        ensures kept { OnOk result (meaning.counts self.new ≡ meaning.counts self.old) }
        ensures rose { OnErr result (DiskFails (meaning.counts self.old) (meaning.counts self.new)) };

    /// Makes a stop leave a bank as it reads.
    fn sync(&mut self, bank: Bank) -> Result<(), Fault>
        ensures durable { meaning.tells self.new → OnOk result (IsSettled meaning self.new bank) }

        ensures banks { meaning.tells self.new → BanksKept meaning self.old self.new }
        ensures around { meaning.tells self.new → meaning.around self.new ≡ meaning.around self.old }
        ensures told { Told meaning self.old self.new }
        ensures recalls { Recalls meaning self.old self.new }
        ensures time { Throughout meaning self.old self.new (AtEither meaning self.old self.new) }
        ensures kept { OnOk result (meaning.counts self.new ≡ meaning.counts self.old) }
        ensures rose { OnErr result (DiskFails (meaning.counts self.old) (meaning.counts self.new)) };

    /// A stop may leave the banks as they read.
    ghost reads_as: { (disk : Self) → meaning.tells disk → IsImage meaning disk (meaning.seen disk) };

    /// The present moment is one of those since any time.
    ghost counts_now: { CountsNow meaning };

    /// Since now there is the present moment alone.
    ghost only_now: { HasOnlyNow meaning };
}
