//! The world in memory as a disk.
ghost use Rattle.std.specs.Prelude.{◌≡◌, ◌+◌, ◌<◌, ◌≤◌, ◌++◌, ◌∷◌, [], IsTrue, ◌↔◌, length};

use crate::calls::{Call, Verdict};
use crate::past::Turn;
use crate::world::{MemWorld, push};
use mem_banks::{BANK_ROOM, WRITTEN_ROOM};
use world_api::{Bank, Disk, Fault};

impl Disk for MemWorld {
    ghost use Rattle.std.specs.Prelude.{◌⊎◌, OnOk, OnErr, IsErr};
    ghost use Rattle.world_api.specs.Causes.{DiskFails};
    ghost use Rattle.std.specs.Prelude.{◌≢◌, ◌^◌, ℕ, List, slice_range, IfOk};
    ghost use Rattle.world_api.specs.Around.{Around};
    ghost use Rattle.world_api.specs.Banks.{Banks, Holds, Torn, Follows};
    ghost use Rattle.world_api.specs.Meaning.{IsImage, IsSettled, Told, Recalls, BankKept, BanksKept, Throughout, AtEither};
    ghost use Rattle.mem_banks.specs.AsStore.{store_of};
    ghost use Rattle.mem_banks.specs.Past.{synced};
    ghost use Rattle.world_mem.specs.CallCounts.{Fails};
    ghost use Rattle.world_mem.specs.EachCall.{DiskCall, Looks};
    ghost use Rattle.world_mem.specs.Laws.{reads_as_of, counts_now_of, only_now_of};
    ghost use Rattle.world_mem.specs.Means.{world_meaning, seen_in, tells, AreReadAt};
    ghost use Rattle.world_mem.specs.Room.{recorded, HasRoom};
    ghost use Rattle.world_mem.specs.Refuses.{IsCutAt, IsTornAt, LacksRoom, Writes};
    ghost use Rattle.world_mem.specs.declared.calls.Call.{Call};

    ghost meaning = { world_meaning };

    ghost reads_as = { λ w told. reads_as_of w };

    ghost counts_now = { λ w told time banks at image. counts_now_of w time banks image };

    ghost only_now = { λ w told around banks left. only_now_of w around banks left };

    fn size(&mut self, bank: Bank) -> Result<u64, Fault>
        ensures size { world_meaning.tells self.new → IfOk result (λ size. size ≡ length (world_meaning.seen self.new bank)) }
        ensures banks { world_meaning.tells self.new → BanksKept world_meaning self.old self.new }
        ensures around { world_meaning.tells self.new → world_meaning.around self.new ≡ world_meaning.around self.old }
        ensures told { Told world_meaning self.old self.new }
        ensures recalls { Recalls world_meaning self.old self.new }
        ensures time { Throughout world_meaning self.old self.new (AtEither world_meaning self.old self.new) }
        ensures kept { OnOk result (world_meaning.counts self.new ≡ world_meaning.counts self.old) }
        ensures rose { OnErr result (DiskFails (world_meaning.counts self.old) (world_meaning.counts self.new)) }
        ensures exactly { IsErr result ↔ Fails Call.Size self.old.calls }
        ensures stays { self.new.banks ≡ self.old.banks }
        ensures looks { Looks self.old self.new }
        ensures each { DiskCall Call.Size (IsErr result) self.old self.new }
    {
        if self.calls.next(Call::Size) != Verdict::Goes {
            self.faults.disk = self.faults.disk.saturating_add(1);
            return Err(Fault);
        }
        Ok(self.banks.bytes(bank).len() as u64)
    }

    fn read_at(&mut self, bank: Bank, place: u64, into: &mut [u8]) -> Result<(), Fault>
        requires { world_meaning.tells self.old → place + length into.old ≤ length (world_meaning.seen self.old bank) }
        ensures read { tells self.new → OnOk result (AreReadAt bank place (length into.old) self.new into.new) }
        ensures banks { world_meaning.tells self.new → BanksKept world_meaning self.old self.new }
        ensures around { world_meaning.tells self.new → world_meaning.around self.new ≡ world_meaning.around self.old }
        ensures told { Told world_meaning self.old self.new }
        ensures recalls { Recalls world_meaning self.old self.new }
        ensures time { Throughout world_meaning self.old self.new (AtEither world_meaning self.old self.new) }
        ensures kept { OnOk result (world_meaning.counts self.new ≡ world_meaning.counts self.old) }
        ensures rose { OnErr result (DiskFails (world_meaning.counts self.old) (world_meaning.counts self.new)) }
        ensures exactly { IsErr result ↔ Fails Call.ReadAt self.old.calls }
        ensures stays { self.new.banks ≡ self.old.banks }
        ensures untouched { OnErr result (into.new ≡ into.old) }
        ensures looks { Looks self.old self.new }
        ensures each { DiskCall Call.ReadAt (IsErr result) self.old self.new }
    {
        if self.calls.next(Call::ReadAt) != Verdict::Goes {
            self.faults.disk = self.faults.disk.saturating_add(1);
            return Err(Fault);
        }
        let place = place as usize;
        let end = place + into.len();
        into.copy_from_slice(&self.banks.bytes(bank)[place..end]);
        Ok(())
    }

    /// Writes all bytes. Where the call is listed as one that fails it writes the first half of them.
    fn write_at(&mut self, bank: Bank, place: u64, bytes: &[u8]) -> Result<(), Fault>
        requires within { world_meaning.tells self.old → place ≤ length (world_meaning.seen self.old bank) }
        requires small { place + length bytes.now ≤ 2 ^ 41 }
        ensures written { tells self.new → OnOk result (Holds (seen_in self.old bank) place bytes.now (seen_in self.new bank)) }
        ensures cut { tells self.new → OnErr result (IsCutAt place (length bytes.now) bank self.old self.new) }
        ensures image { tells self.new → IsTornAt place (length bytes.now) bank self.old self.new }
        ensures other { tells self.new → (other : Bank) → other ≢ bank → BankKept world_meaning other self.old self.new }
        ensures around { world_meaning.tells self.new → world_meaning.around self.new ≡ world_meaning.around self.old }
        ensures told { Told world_meaning self.old self.new }
        ensures recalls { Recalls world_meaning self.old self.new }
        ensures time { Throughout world_meaning self.old self.new (AtEither world_meaning self.old self.new) }
        ensures kept { OnOk result (world_meaning.counts self.new ≡ world_meaning.counts self.old) }
        ensures rose { OnErr result (DiskFails (world_meaning.counts self.old) (world_meaning.counts self.new)) }
        ensures exactly { IsErr result ↔ (Fails Call.WriteAt self.old.calls ⊎ LacksRoom self.old place bytes.now) }
        ensures writes { Writes bank place bytes.now self.old self.new }
        ensures each { DiskCall Call.WriteAt (IsErr result) self.old self.new }
    {
        let verdict = self.calls.next(Call::WriteAt);
        if verdict == Verdict::Goes && bytes.is_empty() {
            return Ok(());
        }
        let fits = self.has_room(place, bytes.len());
        let room = fits && !bytes.is_empty();
        if verdict == Verdict::Spent || !room {
            self.faults.disk = self.faults.disk.saturating_add(1);
            return Err(Fault);
        }
        if verdict == Verdict::Listed {
            let half = bytes.len() / 2;
            self.put(bank, place as usize, &bytes[..half], bytes.len());
            self.faults.disk = self.faults.disk.saturating_add(1);
            return Err(Fault);
        }
        self.put(bank, place as usize, bytes, bytes.len());
        Ok(())
    }

    fn sync(&mut self, bank: Bank) -> Result<(), Fault>
        ensures durable { world_meaning.tells self.new → OnOk result (IsSettled world_meaning self.new bank) }
        ensures banks { world_meaning.tells self.new → BanksKept world_meaning self.old self.new }
        ensures around { world_meaning.tells self.new → world_meaning.around self.new ≡ world_meaning.around self.old }
        ensures told { Told world_meaning self.old self.new }
        ensures recalls { Recalls world_meaning self.old self.new }
        ensures time { Throughout world_meaning self.old self.new (AtEither world_meaning self.old self.new) }
        ensures kept { OnOk result (world_meaning.counts self.new ≡ world_meaning.counts self.old) }
        ensures rose { OnErr result (DiskFails (world_meaning.counts self.old) (world_meaning.counts self.new)) }
        ensures exactly { IsErr result ↔ (Fails Call.Sync self.old.calls ⊎ (262144 ≤ recorded self.old)) }
        ensures synced { OnOk result (store_of self.new.banks ≡ synced bank (store_of self.old.banks)) }
        ensures count { self.new.banks.written ≡ self.old.banks.written }
        ensures stays { OnErr result (self.new.banks ≡ self.old.banks) }
        ensures each { DiskCall Call.Sync (IsErr result) self.old self.new }
    {
        let goes = self.calls.next(Call::Sync) == Verdict::Goes;
        let full = self.is_full();
        if !goes || full {
            self.faults.disk = self.faults.disk.saturating_add(1);
            return Err(Fault);
        }
        self.banks.sync(bank);
        push(&mut self.turns, Turn::Disk);
        Ok(())
    }
}

impl MemWorld {
    ghost use Rattle.std.specs.Prelude.{false};
    ghost use Rattle.mem_banks.specs.AsStore.{store_of};
    ghost use Rattle.mem_banks.specs.Past.{bytes_in, wrote};
    ghost use Rattle.world_mem.specs.Room.{HasRoom};

    /// Whether a bank and the record have room for a write.
    fn has_room(&self, place: u64, count: usize) -> bool
        ensures { IsTrue result ↔ HasRoom self.now place count }
    {
        !self.is_full()
            && place <= BANK_ROOM as u64
            && count <= BANK_ROOM - place as usize
            && count <= WRITTEN_ROOM - self.banks.written()
    }

    /// Writes, and records it.
    fn put(&mut self, bank: Bank, place: usize, bytes: &[u8], count: usize)
        requires within { place ≤ length (bytes_in (store_of self.old.banks) bank) }
        requires count { length bytes.now ≤ count }
        requires some { 0 < count }
        requires room { HasRoom self.old place count }
        ensures banks { store_of self.new.banks ≡ wrote bank place bytes.now count (store_of self.old.banks) }
        ensures written { self.new.banks.written ≡ self.old.banks.written + count }
        ensures turns { self.new.turns.items ≡ self.old.turns.items ++ Turn.Disk ∷ [] }
        ensures state { self.new.state ≡ self.old.state }
        ensures horizon { self.new.horizon ≡ self.old.horizon }
        ensures calls { self.new.calls ≡ self.old.calls }
        ensures faults { self.new.faults ≡ self.old.faults }
        ensures orders { self.new.orders ≡ self.old.orders }
    {
        self.banks.write(bank, place, bytes, count);
        push(&mut self.turns, Turn::Disk);
    }
}
