//! The world on threads as a world.
ghost use Rattle.std.specs.Prelude.{◌≡◌, ◌≢◌, ◌≤◌, ◌<◌, ◌↔◌, ℕ, IfOk, length};

use crate::handing::{hand_on, made_of};
use crate::world::ThreadWorld;
use job_runner::Gate;
use scons_base::{PathText, Paths};
use std::sync::Wait;
use world_api::{AskRefusal, Content, Ended, Fault, Job, Kind, ReadRefusal, World};

impl<T: Wait, G: Gate> World for ThreadWorld<T, G> {
    ghost use Rattle.std.specs.Prelude.{[], List, None, Err, Contains, IsTrue, IsOk, IsErr, IfErr, IfSome, OnOk, OnErr};
    ghost use Rattle.scons_base.specs.Parts.{is_absolute};
    ghost use Rattle.world_api.specs.Around.{IsUnused};
    ghost use Rattle.world_api.specs.Calls.{Asks, MakesDir, Removes, CanStart, IsClosed, IsOpen, Ends};
    ghost use Rattle.world_api.specs.Causes.{TreeFails, StartFails, HasOutcomeCause};
    ghost use Rattle.world_api.specs.Meaning.{Told, Recalls, BanksKept, Throughout, Meanwhile};
    ghost use Rattle.world_api.specs.Reads.{IsOver, IsListing, kind_of, stamp_of};
    ghost use Rattle.world_mem.specs.AsAround.{around_of};
    ghost use Rattle.world_mem.specs.Blocked.{AreBlocked, IsInTheWay};
    ghost use Rattle.world_mem.specs.CallCounts.{counted};
    ghost use Rattle.world_mem.specs.EachCall.{Keeps, RecordsRemoval, RemoveCall, TreeCall};
    ghost use Rattle.world_mem.specs.Ending.{faults_after};
    ghost use Rattle.world_mem.specs.Held.{held_of};
    ghost use Rattle.world_mem.specs.Kept.{counts_of, tree_fault, start_fault};
    ghost use Rattle.world_mem.specs.Laws.{none_closed};
    ghost use Rattle.world_mem.specs.Means.{tells, around_in};
    ghost use Rattle.world_mem.specs.Ready.{StartsNow};
    ghost use Rattle.world_mem.specs.Room.{recorded};
    ghost use Rattle.world_mem.specs.declared.calls.Call.{Call};
    ghost use Rattle.thread_world.specs.Ends.{EndsOne};
    ghost use Rattle.thread_world.specs.Means.{thread_meaning};

    ghost held = { λ w told path bytes is off. held_of w.world.state path bytes is };

    ghost shut = { λ w told path closed. none_closed path closed };

    fn top_path(&mut self) -> Result<PathText, AskRefusal>
        ensures top { thread_meaning.tells self.new → IfOk result (λ path. path ≡ (thread_meaning.around self.new).top) }
        ensures absolute { IfOk result (λ path. IsTrue (is_absolute path)) }
        ensures around { thread_meaning.tells self.new → Asks (thread_meaning.around self.old) (thread_meaning.around self.new) }
        ensures banks { thread_meaning.tells self.new → BanksKept thread_meaning self.old self.new }
        ensures told { Told thread_meaning self.old self.new }
        ensures recalls { Recalls thread_meaning self.old self.new }
        ensures time { Throughout thread_meaning self.old self.new (Meanwhile thread_meaning self.old self.new) }
        ensures kept { result ≢ Err AskRefusal.Fault → thread_meaning.counts self.new ≡ thread_meaning.counts self.old }
        ensures rose { result ≡ Err AskRefusal.Fault → TreeFails (thread_meaning.counts self.old) (thread_meaning.counts self.new) }
        ensures never { result ≢ Err AskRefusal.Fault }
        ensures each { TreeCall Call.TopPath tree_fault (result ≡ Err AskRefusal.Fault) self.old.world self.new.world }
    {
        self.world.top_path()
    }

    fn kind(&mut self, path: &PathText) -> Result<Kind, Fault>
        ensures kind { thread_meaning.tells self.new → IfOk result (λ kind. kind ≡ kind_of (thread_meaning.around self.new) path.now) }
        ensures shut { IsClosed (thread_meaning.closed self.old) path.now → IfOk result (λ kind. kind ≡ Kind.Absent) }
        ensures around { thread_meaning.tells self.new → Asks (thread_meaning.around self.old) (thread_meaning.around self.new) }
        ensures banks { thread_meaning.tells self.new → BanksKept thread_meaning self.old self.new }
        ensures told { Told thread_meaning self.old self.new }
        ensures recalls { Recalls thread_meaning self.old self.new }
        ensures time { Throughout thread_meaning self.old self.new (Meanwhile thread_meaning self.old self.new) }
        ensures kept { OnOk result (thread_meaning.counts self.new ≡ thread_meaning.counts self.old) }
        ensures rose { OnErr result (TreeFails (thread_meaning.counts self.old) (thread_meaning.counts self.new)) }
        ensures never { IsOk result }
        ensures each { TreeCall Call.Kind tree_fault (IsErr result) self.old.world self.new.world }
    {
        self.world.kind(path)
    }

    fn read_file(&mut self, path: &PathText, limit: u64) -> Result<Content, ReadRefusal>
        ensures content { thread_meaning.tells self.new → IfOk result (λ content. content ≡ (thread_meaning.around self.new).tree path.now) }
        ensures within { IfOk result (λ content. IfSome content (λ bytes. length bytes ≤ limit)) }
        ensures large { thread_meaning.tells self.new → IfErr result (IsOver ((thread_meaning.around self.new).tree path.now)) }
        ensures over { IfErr result (λ refusal. (size : ℕ) → refusal ≡ ReadRefusal.TooLarge size → limit < size) }
        ensures shut { IsClosed (thread_meaning.closed self.old) path.now → IfOk result (λ content. content ≡ None) }
        ensures around { thread_meaning.tells self.new → Asks (thread_meaning.around self.old) (thread_meaning.around self.new) }
        ensures banks { thread_meaning.tells self.new → BanksKept thread_meaning self.old self.new }
        ensures told { Told thread_meaning self.old self.new }
        ensures recalls { Recalls thread_meaning self.old self.new }
        ensures time { Throughout thread_meaning self.old self.new (Meanwhile thread_meaning self.old self.new) }
        ensures kept { result ≢ Err ReadRefusal.Fault → thread_meaning.counts self.new ≡ thread_meaning.counts self.old }
        ensures rose { result ≡ Err ReadRefusal.Fault → TreeFails (thread_meaning.counts self.old) (thread_meaning.counts self.new) }
        ensures never { result ≢ Err ReadRefusal.Fault }
        ensures each { TreeCall Call.ReadFile tree_fault (result ≡ Err ReadRefusal.Fault) self.old.world self.new.world }
    {
        self.world.read_file(path, limit)
    }

    fn list(&mut self, dir: &PathText) -> Result<Paths, AskRefusal>
        ensures files { thread_meaning.tells self.new → IfOk result (IsListing (thread_meaning.around self.new) dir.now) }
        ensures shut { IfOk result (λ paths. (path : List ℕ) → Contains paths path → IsClosed (thread_meaning.closed self.old) path → ⊥) }
        ensures around { thread_meaning.tells self.new → Asks (thread_meaning.around self.old) (thread_meaning.around self.new) }
        ensures banks { thread_meaning.tells self.new → BanksKept thread_meaning self.old self.new }
        ensures told { Told thread_meaning self.old self.new }
        ensures recalls { Recalls thread_meaning self.old self.new }
        ensures time { Throughout thread_meaning self.old self.new (Meanwhile thread_meaning self.old self.new) }
        ensures kept { result ≢ Err AskRefusal.Fault → thread_meaning.counts self.new ≡ thread_meaning.counts self.old }
        ensures rose { result ≡ Err AskRefusal.Fault → TreeFails (thread_meaning.counts self.old) (thread_meaning.counts self.new) }
        ensures never { result ≢ Err AskRefusal.Fault }
        ensures each { TreeCall Call.List tree_fault (result ≡ Err AskRefusal.Fault) self.old.world self.new.world }
    {
        self.world.list(dir)
    }

    fn stamp(&mut self, path: &PathText) -> Result<Option<u64>, Fault>
        ensures stamp { thread_meaning.tells self.new → IfOk result (λ stamp. stamp ≡ stamp_of (thread_meaning.around self.new) path.now) }
        ensures shut { IsClosed (thread_meaning.closed self.old) path.now → IfOk result (λ stamp. stamp ≡ None) }
        ensures around { thread_meaning.tells self.new → Asks (thread_meaning.around self.old) (thread_meaning.around self.new) }
        ensures banks { thread_meaning.tells self.new → BanksKept thread_meaning self.old self.new }
        ensures told { Told thread_meaning self.old self.new }
        ensures recalls { Recalls thread_meaning self.old self.new }
        ensures time { Throughout thread_meaning self.old self.new (Meanwhile thread_meaning self.old self.new) }
        ensures kept { OnOk result (thread_meaning.counts self.new ≡ thread_meaning.counts self.old) }
        ensures rose { OnErr result (TreeFails (thread_meaning.counts self.old) (thread_meaning.counts self.new)) }
        ensures never { IsOk result }
        ensures each { TreeCall Call.Stamp tree_fault (IsErr result) self.old.world self.new.world }
    {
        self.world.stamp(path)
    }

    fn make_dir(&mut self, path: &PathText) -> Result<(), AskRefusal>
        requires { IsClosed (thread_meaning.closed self.old) path.now → ⊥ }
        ensures made { tells self.new.world → OnOk result (MakesDir path.now (around_in self.old.world) (around_in self.new.world)) }
        ensures refused { thread_meaning.tells self.new → OnErr result (Asks (thread_meaning.around self.old) (thread_meaning.around self.new)) }
        ensures banks { thread_meaning.tells self.new → BanksKept thread_meaning self.old self.new }
        ensures told { Told thread_meaning self.old self.new }
        ensures recalls { Recalls thread_meaning self.old self.new }
        ensures time { Throughout thread_meaning self.old self.new (Meanwhile thread_meaning self.old self.new) }
        ensures kept { result ≢ Err AskRefusal.Fault → thread_meaning.counts self.new ≡ thread_meaning.counts self.old }
        ensures rose { result ≡ Err AskRefusal.Fault → TreeFails (thread_meaning.counts self.old) (thread_meaning.counts self.new) }
        ensures exactly { result ≡ Err AskRefusal.Fault ↔ IsInTheWay (around_of self.old.world.state) path.now }
        ensures each { TreeCall Call.MakeDir tree_fault (result ≡ Err AskRefusal.Fault) self.old.world self.new.world }
    {
        self.world.make_dir(path)
    }

    fn remove(&mut self, path: &PathText) -> Result<(), Fault>
        requires { thread_meaning.tells self.old → IsUnused (thread_meaning.around self.old).running path.now }
        ensures gone { thread_meaning.tells self.new → OnOk result ((thread_meaning.around self.new).tree path.now ≡ None) }
        ensures around { thread_meaning.tells self.new → Removes path.now (thread_meaning.around self.old) (thread_meaning.around self.new) }
        ensures banks { thread_meaning.tells self.new → BanksKept thread_meaning self.old self.new }
        ensures told { Told thread_meaning self.old self.new }
        ensures recalls { Recalls thread_meaning self.old self.new }
        ensures time { Throughout thread_meaning self.old self.new (Meanwhile thread_meaning self.old self.new) }
        ensures kept { OnOk result (thread_meaning.counts self.new ≡ thread_meaning.counts self.old) }
        ensures rose { OnErr result (TreeFails (thread_meaning.counts self.old) (thread_meaning.counts self.new)) }
        ensures exactly { IsErr result ↔ (262144 ≤ recorded self.old.world) }
        ensures stays { OnErr result (self.new.world.state ≡ self.old.world.state) }
        ensures removals { RecordsRemoval path.now self.old.world self.new.world }
        ensures each { RemoveCall (IsErr result) self.old.world self.new.world }
    {
        self.world.remove(path)
    }

    /// Starts a job, and hands it to the pool. Where the pool has no memory for it, it doesn't start.
    fn start(&mut self, job: Job) -> Result<(), AskRefusal>
        requires free { thread_meaning.tells self.old → CanStart job (thread_meaning.around self.old) }
        requires reachable { IsOpen (thread_meaning.closed self.old) job }
        ensures started { tells self.new.world → OnOk result (StartsNow job self.old.world self.new.world) }
        ensures refused { thread_meaning.tells self.new → OnErr result (Asks (thread_meaning.around self.old) (thread_meaning.around self.new)) }
        ensures banks { thread_meaning.tells self.new → BanksKept thread_meaning self.old self.new }
        ensures told { Told thread_meaning self.old self.new }
        ensures recalls { Recalls thread_meaning self.old self.new }
        ensures time { Throughout thread_meaning self.old self.new (Meanwhile thread_meaning self.old self.new) }
        ensures kept { result ≢ Err AskRefusal.Fault → thread_meaning.counts self.new ≡ thread_meaning.counts self.old }
        ensures rose { result ≡ Err AskRefusal.Fault → StartFails (thread_meaning.counts self.old) (thread_meaning.counts self.new) }
        ensures only { result ≡ Err AskRefusal.Fault → AreBlocked (around_of self.old.world.state) job.targets }
        ensures clear { OnOk result (AreBlocked (around_of self.old.world.state) job.targets → ⊥) }
        ensures counted { self.new.world.calls ≡ counted Call.Start self.old.world.calls }
        ensures once { result ≡ Err AskRefusal.Fault → counts_of self.new.world.faults ≡ start_fault (counts_of self.old.world.faults) }
        ensures stamp { self.new.world.state.stamp ≡ self.old.world.state.stamp }
        ensures keeps { Keeps self.old.world self.new.world }
    {
        let entering = hand_on(&mut self.world, &mut self.pool, &self.table, job)?;
        self.world.enter(entering);
        Ok(())
    }

    /// Ends the job whose ending the pool has next, as that ending says.
    fn wait(&mut self) -> Ended
        requires { thread_meaning.tells self.old → (thread_meaning.around self.old).running ≢ [] }
        ensures around { tells self.new.world
            → Ends (thread_meaning.sure self.new) result (around_in self.old.world) (around_in self.new.world) }
        ensures banks { thread_meaning.tells self.new → BanksKept thread_meaning self.old self.new }
        ensures told { Told thread_meaning self.old self.new }
        ensures recalls { Recalls thread_meaning self.old self.new }
        ensures time { Throughout thread_meaning self.old self.new (Meanwhile thread_meaning self.old self.new) }
        ensures cause { HasOutcomeCause result.outcome (thread_meaning.counts self.old) (thread_meaning.counts self.new) }
        ensures ends { EndsOne result self.old.world self.new.world }
        ensures once { self.new.world.faults ≡ faults_after result.outcome self.old.world.faults }
        ensures counted { self.new.world.calls ≡ self.old.world.calls }
        ensures keeps { Keeps self.old.world self.new.world }
    {
        let (place, ending) = self.pool.next_place();
        let outcome = ending.outcome;
        let made = made_of(self.alloc, ending);
        self.world.end(place, outcome, made)
    }
}
