//! The world in memory, and its calls that are no calls of a world.
ghost use Rattle.std.specs.Prelude.{◌≡◌, ◌+◌, ◌-◌, ◌<◌, ◌≤◌, ◌++◌, ◌∷◌, [], ℕ, List, None, Some, Contains, IfOk, length, vec_len};
ghost use Rattle.std.specs.Vec.{vec_capacity};
ghost use Rattle.mem_banks.specs.AsStore.{store_of};
ghost use Rattle.mem_banks.specs.declared.change.Change.TheVariants as changes;
ghost use Rattle.mem_banks.specs.declared.change.Write.{Write};
ghost use Rattle.world_mem.specs.AsAround.{around_of};
ghost use Rattle.world_mem.specs.Runs.{AreUnmade};

use crate::calls::{Call, Calls};
use crate::event::Faults;
use crate::past::Turn;
use crate::refusal::{EditRefusal, NewRefusal};
use crate::state::State;
use act_table::ActTable;
use mem_banks::{CALL_ROOM, MemBanks};
use scons_base::{Blob, Listing, Memory, PathText};
use std::alloc::Global;
use world_api::{Bank, Job};

/// Files with their bytes, in byte order of their paths.
pub type Files = Listing<(PathText, Blob)>;

/// A world in memory. It tells all. No target of a running job is a file: what the job makes stands from its ending on.
#[derive(Drop)]
pub struct MemWorld {
    pub(crate) state: State,
    pub(crate) banks: MemBanks,
    pub(crate) turns: Vec<Turn>,
    pub(crate) horizon: usize,
    pub(crate) calls: Calls,
    pub(crate) orders: Vec<u32>,
    pub(crate) faults: Faults,
    pub(crate) alloc: Global,
    ghost unmade: { AreUnmade (around_of state) },
    ghost turns_room: { vec_len turns + vec_len state.running + (262144 - (vec_len banks.changes + state.removals))
        ≤ vec_capacity turns },
    ghost since: { horizon ≤ length turns.items },
    ghost recorded_within: { vec_len banks.changes + state.removals ≤ 262144 },
    ghost turns_capacity: { 262144 ≤ vec_capacity turns },
    ghost counts: { (write : Write) → Contains (store_of banks).changes (changes.Wrote write) → 0 < write.count },
}

impl MemWorld {
    ghost use Rattle.std.specs.Prelude.{◌↔◌, nat_le, map, not, Err, IfErr, OnOk, OnErr, IsTrue};
    ghost use Rattle.mem_banks.specs.Past.{is_dirty};
    ghost use Rattle.world_api.specs.Meaning.{IsSettled};
    ghost use Rattle.world_api.specs.declared.disk.Bank.{Bank};
    ghost use Rattle.world_api.specs.Around.{started_of};
    ghost use Rattle.world_mem.specs.ByHand.{Edits, Loses};
    ghost use Rattle.world_mem.specs.Files.{AreFiles};
    ghost use Rattle.world_mem.specs.Stamps.{Stamps};
    ghost use Rattle.world_mem.specs.Stays.{Stays, IsAnew};
    ghost use Rattle.world_mem.specs.Blocked.{IsKept, IsRefused, NamesFirst};
    ghost use Rattle.world_mem.specs.CallCounts.{count_of};
    ghost use Rattle.world_mem.specs.InSlots.{file_at};
    ghost use Rattle.world_mem.specs.Kept.{counts_of, no_faults};
    ghost use Rattle.world_mem.specs.Means.{world_meaning};
    ghost use Rattle.world_mem.specs.Room.{recorded};
    ghost use Rattle.world_mem.specs.Raises.{AreDirsOf};
    ghost use Rattle.world_mem.specs.Table.{law_of};
    ghost use Rattle.world_mem.specs.declared.calls.Call.{Call};
    ghost use Rattle.world_mem.specs.declared.refusal.NewRefusal.{NewRefusal};

    /// A world with these files in which nothing has run or failed. The pair of a call and a number makes the call of
    /// that number fail, counted from 0; the orders say which of the running jobs ends at each wait.
    pub fn new(
        alloc: Global,
        files: Vec<(PathText, Blob)>,
        table: ActTable,
        orders: Vec<u32>,
        failing: Vec<(Call, u32)>,
    ) -> Result<MemWorld, NewRefusal>
        ensures tree { IfOk result (λ world. (path : List ℕ) → (around_of world.state).tree path ≡ file_at files.items path) }
        ensures dirs { IfOk result (λ world. AreDirsOf files.items (around_of world.state)) }
        ensures running { IfOk result (λ world. (around_of world.state).running ≡ []) }
        ensures log { IfOk result (λ world. (around_of world.state).log ≡ []) }
        ensures met { IfOk result (λ world. (around_of world.state).met ≡ map (λ file. file.1) files.items) }
        ensures law { IfOk result (λ world. (around_of world.state).law ≡ law_of table) }
        ensures table { IfOk result (λ world. world.state.table ≡ table) }
        ensures seen { IfOk result (λ world. (bank : Bank) → world_meaning.seen world bank ≡ []) }
        ensures settled { IfOk result (λ world. (bank : Bank) → IsSettled world_meaning world bank) }
        ensures changes { IfOk result (λ world. (store_of world.banks).changes ≡ []) }
        ensures room { IfOk result (λ world. recorded world ≡ 0) }
        ensures written { IfOk result (λ world. world.banks.written ≡ 0) }
        ensures anew { IfOk result IsAnew }
        ensures clock { IfOk result (λ world. world_meaning.clock world ≡ 0) }
        ensures counts { IfOk result (λ world. counts_of world.faults ≡ no_faults) }
        ensures calls { IfOk result (λ world. (call : Call) → count_of call world.calls ≡ 0) }
        ensures orders { IfOk result (λ world. world.orders ≡ orders) }
        ensures stamp { IfOk result (λ world. world.state.stamp ≡ 0) }
        ensures stamps { IfOk result (λ world. (path : List ℕ) → (around_of world.state).stamps path ≡ 0) }
        ensures failing { IfOk result (λ world. world.calls.failing ≡ failing) }
        ensures unfused { IfOk result (λ world. world.calls.fuse ≡ None) }
        ensures stand { OnOk result ((place : ℕ) → IsRefused files.items place → ⊥) }
        ensures place { IfErr result (NamesFirst files.items) }
    {
        let state = State::new(alloc, &files, table)?;
        let banks = MemBanks::new(alloc)?;
        let turns = room_for_turns(alloc)?;
        Ok(MemWorld {
            state,
            banks,
            turns,
            horizon: 0,
            calls: Calls::new(failing),
            orders,
            faults: Faults {
                disk: 0,
                tree: 0,
                start: 0,
                action: 0,
            },
            alloc,
        })
    }

    /// The bytes of a bank. This is no call of a disk.
    pub fn bank(&self, bank: Bank) -> &[u8]
        ensures { result.now ≡ world_meaning.seen self.now bank }
    {
        self.banks.bytes(bank)
    }

    /// Whether a stop leaves the bank as it reads. This is no call of a disk.
    pub fn synced(&self, bank: Bank) -> bool
        ensures settled { IsTrue result ↔ IsSettled world_meaning self.now bank }
        ensures exactly { result ≡ not (is_dirty bank (store_of self.now.banks).changes) }
    {
        self.banks.is_synced(bank)
    }

    /// The jobs that started, in order.
    pub fn jobs(&self) -> &[Job]
        ensures { result.now ≡ started_of (around_of self.now.state).log }
    {
        self.state.jobs.as_slice()
    }

    /// The files of the tree.
    pub fn files(&self) -> Result<Files, Memory>
        ensures { IfOk result (AreFiles (around_of self.now.state).tree) }
    {
        self.state.slots.files(self.alloc)
    }

    /// Sets the bytes of a file, and lets the directories above it stand. The record of moments begins anew.
    pub fn edit(&mut self, path: &PathText, bytes: &[u8]) -> Result<(), EditRefusal>
        ensures edited { OnOk result (Edits path.now bytes.now (around_of self.old.state) (around_of self.new.state)) }
        ensures same { OnErr result (Stays self.old self.new) }
        ensures place { result ≡ Err EditRefusal.Place ↔ IsKept (around_of self.old.state) path.now }
        ensures idle { (around_of self.old.state).running ≡ [] → (around_of self.new.state).running ≡ [] }
        ensures clock { world_meaning.clock self.new ≡ world_meaning.clock self.old }
        ensures anew { OnOk result (IsAnew self.new) }
        ensures stamps { OnOk result (Stamps (λ other. other ≡ path.now) self.old.state self.new.state) }
        ensures removals { self.new.state.removals ≡ self.old.state.removals }
        ensures table { self.new.state.table ≡ self.old.state.table }
        ensures banks { self.new.banks ≡ self.old.banks }
        ensures faults { self.new.faults ≡ self.old.faults }
        ensures calls { self.new.calls ≡ self.old.calls }
        ensures orders { self.new.orders ≡ self.old.orders }
    {
        if self.state.is_made(path) || self.state.is_barred(path) {
            return Err(EditRefusal::Place);
        }
        self.state.edit(self.alloc, path, bytes)?;
        self.horizon = self.turns.len();
        Ok(())
    }

    /// Removes a file. The record of moments begins anew.
    pub fn remove_file(&mut self, path: &PathText)
        ensures lost { Loses path.now (around_of self.old.state) (around_of self.new.state) }
        ensures idle { (around_of self.old.state).running ≡ [] → (around_of self.new.state).running ≡ [] }
        ensures clock { world_meaning.clock self.new ≡ world_meaning.clock self.old }
        ensures anew { IsAnew self.new }
        ensures stamp { self.new.state.stamp ≡ self.old.state.stamp }
        ensures removals { self.new.state.removals ≡ self.old.state.removals }
        ensures table { self.new.state.table ≡ self.old.state.table }
        ensures banks { self.new.banks ≡ self.old.banks }
        ensures faults { self.new.faults ≡ self.old.faults }
        ensures calls { self.new.calls ≡ self.old.calls }
        ensures orders { self.new.orders ≡ self.old.orders }
    {
        self.state.lose(path);
        self.horizon = self.turns.len();
    }

    /// After so many further calls of a disk or a world every call fails; a job that runs then ends broken.
    pub fn fuse(&mut self, calls: u32)
        ensures fuse { self.new.calls ≡ record self.old.calls { fuse = Some calls } }
        ensures state { self.new.state ≡ self.old.state }
        ensures banks { self.new.banks ≡ self.old.banks }
        ensures turns { self.new.turns ≡ self.old.turns }
        ensures horizon { self.new.horizon ≡ self.old.horizon }
        ensures faults { self.new.faults ≡ self.old.faults }
        ensures orders { self.new.orders ≡ self.old.orders }
    {
        self.calls.set_fuse(calls);
    }

    /// Whether no further write, sync or removal can be recorded.
    pub(crate) fn is_full(&self) -> bool
        ensures { result ≡ nat_le 262144 (recorded self.now) }
    {
        self.recorded() >= CALL_ROOM
    }

    /// How many writes, syncs and removals are recorded.
    pub(crate) fn recorded(&self) -> usize
        ensures { result ≡ recorded self.now }
    {
        self.banks.calls() + self.state.removals
    }
}

/// Puts a turn at the end of a record that has the room.
pub(crate) fn push(turns: &mut Vec<Turn>, turn: Turn)
    requires { vec_len turns.old < vec_capacity turns.old }
    ensures items { turns.new.items ≡ turns.old.items ++ turn ∷ [] }
    ensures len { vec_len turns.new ≡ vec_len turns.old + 1 }
    ensures capacity { vec_capacity turns.old ≤ vec_capacity turns.new }
{
    turns.push(turn).unwrap();
}

fn room_for_turns(alloc: Global) -> Result<Vec<Turn>, Memory>
    ensures empty { IfOk result (λ turns. turns.items ≡ []) }
    ensures len { IfOk result (λ turns. vec_len turns ≡ 0) }
    ensures room { IfOk result (λ turns. vec_capacity turns ≡ 262144) }
{
    Ok(Vec::with_capacity(alloc, CALL_ROOM)?)
}
