//! The world on threads, and its calls that are no calls of a world.
ghost use Rattle.std.specs.Prelude.{◌≡◌, [], IfOk};
ghost use Rattle.job_runner.specs.Outs.{out_of};
ghost use Rattle.world_mem.specs.AsAround.{around_of};
ghost use Rattle.thread_world.specs.Step.{InStep, IsSpared};

use crate::runner::TableRunner;
use act_table::{ActTable, SharedTable};
use job_runner::{Gate, Pool};
use scons_base::{Blob, Memory, PathText};
use std::alloc::Global;
use std::sync::{Arc, Wait};
use std::thread::Threads;
use world_api::{Bank, Job};
use world_mem::{Call, EditRefusal, Files, MemWorld, NewRefusal};

/// A world in memory, and the pool that runs its jobs: what is out of the pool is what runs in the world, in the same order, each job
/// with what it was given as it started and with the world's table. No call is made to fail.
#[derive(Drop)]
pub struct ThreadWorld<T, G> {
    pub(crate) world: MemWorld,
    pub(crate) pool: Pool<T, TableRunner, G>,
    pub(crate) table: SharedTable,
    pub(crate) alloc: Global,
    ghost shared: { table ≡ world.state.table },
    ghost step: { InStep world.state.table (around_of world.state).running (out_of pool.out) },
    ghost spared: { IsSpared world.calls },
}

impl<T, G> ThreadWorld<T, G>
where
    T: Threads + Wait + Clone + Send + Sync + Drop + 'static,
    G: Gate + Send + Sync + Drop + 'static,
{
    ghost use Rattle.std.specs.Prelude.{ℕ, IfErr, OnOk};
    ghost use Rattle.world_mem.specs.Blocked.{IsRefused, NamesFirst};
    ghost use Rattle.thread_world.specs.New.{IsNew};

    /// A world with these files in which nothing has run, and no worker yet.
    pub fn new(
        alloc: Global,
        rt: T,
        files: Vec<(PathText, Blob)>,
        table: ActTable,
        gate: G,
    ) -> Result<ThreadWorld<T, G>, NewRefusal>
        ensures fresh { IfOk result (λ made. IsNew files.items table made.world) }
        ensures out { IfOk result (λ made. out_of made.pool.out ≡ []) }
        ensures stand { OnOk result ((place : ℕ) → IsRefused files.items place → ⊥) }
        ensures place { IfErr result (NamesFirst files.items) }
    {
        let shared = SharedTable::new(alloc, table.copy()?)?;
        let world = MemWorld::new(alloc, files, table, Vec::new(alloc), Vec::new(alloc))?;
        let pool = pool_of(alloc, rt, gate)?;
        Ok(ThreadWorld {
            world,
            pool,
            table: shared,
            alloc,
        })
    }
}

/// A pool whose runner goes by the table of each slip.
fn pool_of<T, G>(alloc: Global, rt: T, gate: G) -> Result<Pool<T, TableRunner, G>, Memory>
where
    T: Threads + Wait + Clone + Send + Sync + Drop + 'static,
    G: Gate + Send + Sync + Drop + 'static,
    ensures { IfOk result (λ pool. out_of pool.out ≡ []) }
{
    let runner = Arc::new(alloc, TableRunner { alloc })?;
    Pool::new(alloc, rt, runner, gate)
}

impl<T, G> ThreadWorld<T, G> {
    ghost use Rattle.std.specs.Prelude.{◌↔◌, ◌⊎◌, not, Err, OnOk, OnErr, IsTrue};
    ghost use Rattle.mem_banks.specs.AsStore.{store_of};
    ghost use Rattle.mem_banks.specs.Past.{is_dirty};
    ghost use Rattle.world_api.specs.Around.{started_of};
    ghost use Rattle.world_api.specs.Meaning.{IsSettled};
    ghost use Rattle.world_mem.specs.Blocked.{IsKept};
    ghost use Rattle.world_mem.specs.ByHand.{Edits, Loses};
    ghost use Rattle.world_mem.specs.Files.{AreFiles};
    ghost use Rattle.world_mem.specs.Means.{world_meaning};
    ghost use Rattle.world_mem.specs.Stamps.{Stamps};
    ghost use Rattle.world_mem.specs.Stays.{Stays, IsAnew};
    ghost use Rattle.thread_world.specs.New.{ByHand};

    /// The bytes of a bank. This is no call of a disk.
    pub fn bank(&self, bank: Bank) -> &[u8]
        ensures { result.now ≡ world_meaning.seen self.now.world bank }
    {
        self.world.bank(bank)
    }

    /// Whether a stop leaves the bank as it reads. This is no call of a disk.
    pub fn synced(&self, bank: Bank) -> bool
        ensures settled { IsTrue result ↔ IsSettled world_meaning self.now.world bank }
        ensures exactly { result ≡ not (is_dirty bank (store_of self.now.world.banks).changes) }
    {
        self.world.synced(bank)
    }

    /// The jobs that started, in order.
    pub fn jobs(&self) -> &[Job]
        ensures { result.now ≡ started_of (around_of self.now.world.state).log }
    {
        self.world.jobs()
    }

    /// The files of the tree.
    pub fn files(&self) -> Result<Files, Memory>
        ensures { IfOk result (AreFiles (around_of self.now.world.state).tree) }
    {
        self.world.files()
    }

    /// Sets the bytes of a file, and lets the directories above it stand. The record of moments begins anew.
    pub fn edit(&mut self, path: &PathText, bytes: &[u8]) -> Result<(), EditRefusal>
        ensures edited { OnOk result (Edits path.now bytes.now (around_of self.old.world.state) (around_of self.new.world.state)) }
        ensures same { OnErr result (Stays self.old.world self.new.world) }
        ensures place { result ≡ Err EditRefusal.Place ↔ IsKept (around_of self.old.world.state) path.now }
        ensures anew { OnOk result (IsAnew self.new.world) }
        ensures stamps { OnOk result (Stamps (λ other. other ≡ path.now) self.old.world.state self.new.world.state) }
        ensures idle { (around_of self.old.world.state).running ≡ [] → (around_of self.new.world.state).running ≡ [] }
        ensures keeps { ByHand self.old.world self.new.world }
        ensures pool { self.new.pool ≡ self.old.pool }
    {
        self.world.edit(path, bytes)
    }

    /// Removes a file. The record of moments begins anew.
    pub fn remove_file(&mut self, path: &PathText)
        ensures lost { Loses path.now (around_of self.old.world.state) (around_of self.new.world.state) }
        ensures anew { IsAnew self.new.world }
        ensures stamp { self.new.world.state.stamp ≡ self.old.world.state.stamp }
        ensures idle { (around_of self.old.world.state).running ≡ [] → (around_of self.new.world.state).running ≡ [] }
        ensures keeps { ByHand self.old.world self.new.world }
        ensures pool { self.new.pool ≡ self.old.pool }
    {
        self.world.remove_file(path);
    }
}
