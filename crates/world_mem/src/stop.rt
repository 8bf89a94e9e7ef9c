//! A stop: what it leaves of a world in memory.
ghost use Rattle.std.specs.Prelude.{◌≡◌, ◌++◌, ◌<◌, ◌≤◌, IfOk, OnOk, vec_len};
ghost use Rattle.std.specs.List.{flat_map};
ghost use Rattle.std.specs.Vec.{vec_capacity};
ghost use Rattle.world_mem.specs.Left.{Cover, left_at, left_over, number_after};

use crate::state::State;
use crate::world::MemWorld;
use act_table::Contents;
use mem_banks::MemBanks;
use scons_base::{Blob, Memory, PathText};
use std::alloc::Global;
use world_api::{Bank, Content};

/// What is left of the banks and at the targets of the jobs that ran, and the same contents once more to keep.
#[derive(Drop)]
struct Left {
    a: Vec<u8>,
    b: Vec<u8>,
    targets: Contents,
    kept: Contents,
    ghost small_a: { vec_len a ≤ 4194304 },
    ghost small_b: { vec_len b ≤ 4194304 },
    ghost same: { kept ≡ targets },
}

/// What is left at a target: nothing, what the job makes, the first half of it, or junk.
fn left_at(alloc: Global, made: &Content, number: u32) -> Result<Content, Memory>
    ensures { IfOk result (λ left. left ≡ left_at number made.now) }
{
    match (made, number % 4) {
        (_, 0) => Ok(None),
        (Some(bytes), 1) => Ok(Some(bytes.copy()?)),
        (Some(bytes), 2) => {
            let bytes = bytes.as_slice();
            Ok(Some(Blob::of(alloc, &bytes[..bytes.len() / 2])?))
        }
        _ => Ok(Some(Blob::of(alloc, b"junk")?)),
    }
}

/// Adds what is left at the targets of one job, by outcomes from this number on. Gives the number of the next.
fn leave_targets(
    alloc: Global,
    left: &mut Contents,
    made: &Contents,
    first: u32,
) -> Result<u32, Memory>
    ensures left { OnOk result (left.new ≡ left.old ++ left_over first made.now) }
    ensures next { IfOk result (λ number. number ≡ number_after first made.now) }
{
    let mut number = first;
    for (path, content) in made.as_slice() {
        left.push(path.copy()?, left_at(alloc, content, number)?)?;
        number = number.wrapping_add(1);
    }
    Ok(number)
}

/// What is left at the targets of the running jobs. Each has an outcome of its own.
fn left_targets(alloc: Global, state: &State, pick: u32) -> Result<Contents, Memory>
    ensures { IfOk result (λ left. left ≡ left_over pick (flat_map (λ run. run.made) state.now.running.items)) }
{
    let mut left = Contents::new(Vec::new(alloc));
    let mut number = pick;
    for run in &state.running {
        number = leave_targets(alloc, &mut left, &run.made, number)?;
    }
    Ok(left)
}

impl MemWorld {
    ghost use Rattle.std.specs.Prelude.{◌%◌, IfErr, List, [], None, ℕ, Contains};
    ghost use Rattle.mem_banks.specs.AsStore.{store_of};
    ghost use Rattle.mem_banks.specs.Past.{one_of, synced_in};
    ghost use Rattle.mem_banks.specs.Picks.{left_of};
    ghost use Rattle.world_api.specs.Meaning.{IsSettled};
    ghost use Rattle.world_api.specs.declared.disk.Bank.{Bank};
    ghost use Rattle.world_mem.specs.AsAround.{around_of};
    ghost use Rattle.world_mem.specs.CallCounts.{Fails};
    ghost use Rattle.world_api.specs.Around.{IsRunningTarget};
    ghost use Rattle.world_mem.specs.Left.{AreTargets, Leaves};
    ghost use Rattle.world_mem.specs.LeftBy.{AreLeft, AreSynced, LeavesBy, banks_of, outcomes_of};
    ghost use Rattle.world_mem.specs.Means.{world_meaning, image_in, seen_in};
    ghost use Rattle.world_mem.specs.Room.{recorded};
    ghost use Rattle.world_mem.specs.Stamps.{Stamps};
    ghost use Rattle.world_mem.specs.Stays.{Stays, IsAnew};
    ghost use Rattle.world_mem.specs.declared.calls.Call.{Call};

    /// One outcome of a stop at this moment, chosen by `pick`: nothing runs, the log is empty, and no call is to fail. By
    /// pick 0 every write stands, by 1 none that wasn't synced.
    pub fn stop(self, pick: u32) -> Result<MemWorld, (MemWorld, Memory)>
        ensures image { IfOk result (λ world. (bank : Bank) → world_meaning.image self bank (world_meaning.seen world bank)) }
        ensures picked { IfOk result (λ world. AreLeft pick (store_of self.banks) (seen_in world)) }
        ensures stands { pick ≡ 0 → IfOk result (λ world. (bank : Bank) → seen_in world bank ≡ seen_in self bank) }
        ensures lost { pick % 4 ≡ 1 → IfOk result (λ world. AreSynced (store_of self.banks) (seen_in world)) }
        ensures settled { IfOk result (λ world. (bank : Bank) → IsSettled world_meaning world bank) }
        ensures left { IfOk result (λ world. LeavesBy pick self.state world.state) }
        ensures stamps { IfOk result (λ world. Stamps (IsRunningTarget (around_of self.state).running) self.state world.state) }
        ensures idle { IfOk result (λ world. (around_of world.state).running ≡ []) }
        ensures clock { IfOk result (λ world. world_meaning.clock world ≡ 0) }
        ensures anew { IfOk result IsAnew }
        ensures room { IfOk result (λ world. recorded world ≡ 0) }
        ensures written { IfOk result (λ world. world.banks.written ≡ 0) }
        ensures failing { IfOk result (λ world. world.calls.failing.items ≡ []) }
        ensures unfused { IfOk result (λ world. world.calls.fuse ≡ None) }
        ensures spared { IfOk result (λ world. (call : Call) → Fails call world.calls → ⊥) }
        ensures calls { IfOk result (λ world. world.calls.made ≡ self.calls.made) }
        ensures faults { IfOk result (λ world. world.faults ≡ self.faults) }
        ensures orders { IfOk result (λ world. world.orders ≡ self.orders) }
        ensures table { IfOk result (λ world. world.state.table ≡ self.state.table) }
        ensures same { IfErr result (λ kept. Stays self kept.0) }
    {
        let mut world = self;
        match world.left_by(pick) {
            Ok(left) => {
                world.go_on(left);
                Ok(world)
            }
            Err(memory) => Err((world, memory)),
        }
    }

    /// What a stop leaves, and room to keep it.
    fn left_by(&mut self, pick: u32) -> Result<Left, Memory>
        ensures image { IfOk result (λ left. (bank : Bank) → image_in self.old bank (banks_of left bank)) }
        ensures picked { IfOk result (λ left. AreLeft pick (store_of self.old.banks) (banks_of left)) }
        ensures stands { pick ≡ 0 → IfOk result (λ left. (bank : Bank) → banks_of left bank ≡ seen_in self.old bank) }
        ensures lost { pick % 4 ≡ 1 → IfOk result (λ left. AreSynced (store_of self.old.banks) (banks_of left)) }
        ensures targets { IfOk result (λ left. left.targets ≡ outcomes_of pick self.new.state) }
        ensures covers { IfOk result (λ left. Cover self.new.state.running.items left.targets) }
        ensures only { IfOk result (λ left. AreTargets left.targets (around_of self.new.state).running) }
        ensures room { OnOk result (vec_len self.new.state.met < vec_capacity self.new.state.met) }
        ensures stays { Stays self.old self.new }
        ensures table { self.new.state.table ≡ self.old.state.table }
    {
        self.state.widen_met()?;
        let a = self.banks.outcome(self.alloc, Bank::A, pick)?;
        let b = self.banks.outcome(self.alloc, Bank::B, pick)?;
        let targets = left_targets(self.alloc, &self.state, pick)?;
        let kept = targets.copy()?;
        Ok(Left {
            a,
            b,
            targets,
            kept,
        })
    }

    /// Goes on with what was left.
    fn go_on(&mut self, left: Left)
        requires covers { Cover self.old.state.running.items left.targets }
        requires only { AreTargets left.targets (around_of self.old.state).running }
        requires room { vec_len self.old.state.met < vec_capacity self.old.state.met }
        ensures seen { (bank : Bank) → world_meaning.seen self.new bank ≡ one_of bank left.a.items left.b.items }
        ensures settled { (bank : Bank) → IsSettled world_meaning self.new bank }
        ensures left { Leaves left.targets (around_of self.old.state) (around_of self.new.state) }
        ensures stamps { Stamps (IsRunningTarget (around_of self.old.state).running) self.old.state self.new.state }
        ensures clock { world_meaning.clock self.new ≡ 0 }
        ensures anew { IsAnew self.new }
        ensures room { recorded self.new ≡ 0 }
        ensures written { self.new.banks.written ≡ 0 }
        ensures failing { self.new.calls.failing.items ≡ [] }
        ensures unfused { self.new.calls.fuse ≡ None }
        ensures spared { (call : Call) → Fails call self.new.calls → ⊥ }
        ensures calls { self.new.calls.made ≡ self.old.calls.made }
        ensures faults { self.new.faults ≡ self.old.faults }
        ensures orders { self.new.orders ≡ self.old.orders }
        ensures table { self.new.state.table ≡ self.old.state.table }
    {
        let Left {
            a,
            b,
            targets,
            kept,
        } = left;
        self.banks.reset(a.as_slice(), b.as_slice());
        self.state.leave(targets, kept);
        self.turns.clear();
        self.horizon = 0;
        self.calls.spare();
    }
}
