//! The world on threads as a disk.
ghost use Rattle.std.specs.Prelude.{◌≡◌, ◌+◌, ◌≤◌, ◌↔◌, length};

use crate::world::ThreadWorld;
use world_api::{Bank, Disk, Fault};

impl<T, G> Disk for ThreadWorld<T, G> {
    ghost use Rattle.std.specs.Prelude.{◌≢◌, ◌^◌, [], IsOk, IsErr, IfOk, OnOk, OnErr};
    ghost use Rattle.mem_banks.specs.AsStore.{store_of};
    ghost use Rattle.mem_banks.specs.Past.{synced};
    ghost use Rattle.world_api.specs.Banks.{Holds};
    ghost use Rattle.world_api.specs.Causes.{DiskFails};
    ghost use Rattle.world_api.specs.Meaning.{IsSettled, Told, Recalls, BankKept, BanksKept, Throughout, AtEither};
    ghost use Rattle.world_mem.specs.EachCall.{DiskCall};
    ghost use Rattle.world_mem.specs.Laws.{reads_as_of, counts_now_of, only_now_of};
    ghost use Rattle.world_mem.specs.Means.{tells, seen_in, AreReadAt};
    ghost use Rattle.world_mem.specs.Refuses.{IsCutAt, IsTornAt, Writes};
    ghost use Rattle.world_mem.specs.Room.{recorded, HasRoom};
    ghost use Rattle.world_mem.specs.declared.calls.Call.{Call};
    ghost use Rattle.thread_world.specs.Means.{thread_meaning};

    ghost meaning = { thread_meaning };

    ghost reads_as = { λ w told. reads_as_of w.world };

    ghost counts_now = { λ w told time banks at image. counts_now_of w.world time banks image };

    ghost only_now = { λ w told around banks left. only_now_of w.world around banks left };

    fn size(&mut self, bank: Bank) -> Result<u64, Fault>
        ensures size { thread_meaning.tells self.new → IfOk result (λ size. size ≡ length (thread_meaning.seen self.new bank)) }
        ensures banks { thread_meaning.tells self.new → BanksKept thread_meaning self.old self.new }
        ensures around { thread_meaning.tells self.new → thread_meaning.around self.new ≡ thread_meaning.around self.old }
        ensures told { Told thread_meaning self.old self.new }
        ensures recalls { Recalls thread_meaning self.old self.new }
        ensures time { Throughout thread_meaning self.old self.new (AtEither thread_meaning self.old self.new) }
        ensures kept { OnOk result (thread_meaning.counts self.new ≡ thread_meaning.counts self.old) }
        ensures rose { OnErr result (DiskFails (thread_meaning.counts self.old) (thread_meaning.counts self.new)) }
        ensures never { IsOk result }
        ensures stays { self.new.world.banks ≡ self.old.world.banks }
        ensures each { DiskCall Call.Size (IsErr result) self.old.world self.new.world }
    {
        self.world.size(bank)
    }

    fn read_at(&mut self, bank: Bank, place: u64, into: &mut [u8]) -> Result<(), Fault>
        requires { thread_meaning.tells self.old → place + length into.old ≤ length (thread_meaning.seen self.old bank) }
        ensures read { tells self.new.world → OnOk result (AreReadAt bank place (length into.old) self.new.world into.new) }
        ensures banks { thread_meaning.tells self.new → BanksKept thread_meaning self.old self.new }
        ensures around { thread_meaning.tells self.new → thread_meaning.around self.new ≡ thread_meaning.around self.old }
        ensures told { Told thread_meaning self.old self.new }
        ensures recalls { Recalls thread_meaning self.old self.new }
        ensures time { Throughout thread_meaning self.old self.new (AtEither thread_meaning self.old self.new) }
        ensures kept { OnOk result (thread_meaning.counts self.new ≡ thread_meaning.counts self.old) }
        ensures rose { OnErr result (DiskFails (thread_meaning.counts self.old) (thread_meaning.counts self.new)) }
        ensures never { IsOk result }
        ensures stays { self.new.world.banks ≡ self.old.world.banks }
        ensures each { DiskCall Call.ReadAt (IsErr result) self.old.world self.new.world }
    {
        self.world.read_at(bank, place, into)
    }

    fn write_at(&mut self, bank: Bank, place: u64, bytes: &[u8]) -> Result<(), Fault>
        requires within { thread_meaning.tells self.old → place ≤ length (thread_meaning.seen self.old bank) }
        requires small { place + length bytes.now ≤ 2 ^ 41 }
        ensures written { tells self.new.world
            → OnOk result (Holds (seen_in self.old.world bank) place bytes.now (seen_in self.new.world bank)) }
        ensures cut { tells self.new.world → OnErr result (IsCutAt place (length bytes.now) bank self.old.world self.new.world) }
        ensures image { tells self.new.world → IsTornAt place (length bytes.now) bank self.old.world self.new.world }
        ensures other { thread_meaning.tells self.new → (other : Bank) → other ≢ bank → BankKept thread_meaning other self.old self.new }
        ensures around { thread_meaning.tells self.new → thread_meaning.around self.new ≡ thread_meaning.around self.old }
        ensures told { Told thread_meaning self.old self.new }
        ensures recalls { Recalls thread_meaning self.old self.new }
        ensures time { Throughout thread_meaning self.old self.new (AtEither thread_meaning self.old self.new) }
        ensures kept { OnOk result (thread_meaning.counts self.new ≡ thread_meaning.counts self.old) }
        ensures rose { OnErr result (DiskFails (thread_meaning.counts self.old) (thread_meaning.counts self.new)) }
        ensures exactly { IsErr result ↔ ((bytes.now ≢ []) × (HasRoom self.old.world place (length bytes.now) → ⊥)) }
        ensures writes { Writes bank place bytes.now self.old.world self.new.world }
        ensures each { DiskCall Call.WriteAt (IsErr result) self.old.world self.new.world }
    {
        self.world.write_at(bank, place, bytes)
    }

    fn sync(&mut self, bank: Bank) -> Result<(), Fault>
        ensures durable { thread_meaning.tells self.new → OnOk result (IsSettled thread_meaning self.new bank) }
        ensures banks { thread_meaning.tells self.new → BanksKept thread_meaning self.old self.new }
        ensures around { thread_meaning.tells self.new → thread_meaning.around self.new ≡ thread_meaning.around self.old }
        ensures told { Told thread_meaning self.old self.new }
        ensures recalls { Recalls thread_meaning self.old self.new }
        ensures time { Throughout thread_meaning self.old self.new (AtEither thread_meaning self.old self.new) }
        ensures kept { OnOk result (thread_meaning.counts self.new ≡ thread_meaning.counts self.old) }
        ensures rose { OnErr result (DiskFails (thread_meaning.counts self.old) (thread_meaning.counts self.new)) }
        ensures exactly { IsErr result ↔ (262144 ≤ recorded self.old.world) }
        ensures synced { OnOk result (store_of self.new.world.banks ≡ synced bank (store_of self.old.world.banks)) }
        ensures stays { OnErr result (self.new.world.banks ≡ self.old.world.banks) }
        ensures each { DiskCall Call.Sync (IsErr result) self.old.world self.new.world }
    {
        self.world.sync(bank)
    }
}
