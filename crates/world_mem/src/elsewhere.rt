//! A world in memory whose jobs run elsewhere, as on threads: a start in two steps, between which what runs the job can
//! refuse it, and an ending that is told.
ghost use Rattle.std.specs.Prelude.{◌≡◌, ◌≢◌, ◌⊎◌, ◌<◌, Err, Contains, IfOk, OnOk, length};
ghost use Rattle.std.specs.List.{remove};

use crate::calls::{Call, Verdict};
use crate::past::Turn;
use crate::room::widen;
use crate::state::Entering;
use crate::world::{MemWorld, push};
use mem_banks::CALL_ROOM;
use scons_base::{Listing, Memory};
use world_api::{AskRefusal, Content, Ended, Job, Outcome};

impl Entering {
    ghost use Rattle.act_table.specs.Filled.{contents_of};

    /// What the job is given: a content for each of its dependencies.
    pub fn given(&self) -> Result<Listing<Content>, Memory>
        ensures { IfOk result (λ contents. contents ≡ contents_of self.now.run.given) }
    {
        self.run.given.contents()
    }

    /// The job once more.
    pub fn job(&self) -> Result<Job, Memory>
        ensures { IfOk result (λ job. job ≡ self.now.job) }
    {
        self.job.copy(self.run.given.alloc())
    }
}

impl MemWorld {
    ghost use Rattle.world_api.specs.Around.{Running, given_of};
    ghost use Rattle.world_api.specs.Calls.{CanStart, Ends};
    ghost use Rattle.world_api.specs.Causes.{StartFails, HasOutcomeCause};
    ghost use Rattle.world_api.specs.Meaning.{Recalls, Throughout, Meanwhile};
    ghost use Rattle.world_mem.specs.AsAround.{around_of};
    ghost use Rattle.world_mem.specs.Blocked.{AreBlocked};
    ghost use Rattle.world_mem.specs.CallCounts.{Fails};
    ghost use Rattle.world_mem.specs.EachCall.{Keeps, TreeCall};
    ghost use Rattle.world_mem.specs.Ending.{faults_after};
    ghost use Rattle.world_mem.specs.Kept.{counts_of, start_fault};
    ghost use Rattle.world_mem.specs.Means.{machine_of, world_meaning};
    ghost use Rattle.world_mem.specs.Raises.{Raises, SameDirs};
    ghost use Rattle.world_mem.specs.Ready.{MayEnter, StartsTold};
    ghost use Rattle.world_mem.specs.Refuses.{CantStart};
    ghost use Rattle.world_mem.specs.Runs.{run_at, LeavesNoneAt};
    ghost use Rattle.world_mem.specs.Stamps.{StampsRun};
    ghost use Rattle.world_mem.specs.Told.{IsTold};
    ghost use Rattle.world_mem.specs.Waits.{MeetsRow};
    ghost use Rattle.world_mem.specs.declared.calls.Call.{Call};
    ghost use Rattle.world_mem.specs.declared.event.Event.{Event};

    /// Takes all that the start of a job needs, or refuses it as a start does. The job doesn't start yet.
    pub fn prepare(&mut self, job: Job) -> Result<Entering, AskRefusal>
        requires { CanStart job (around_of self.old.state) }
        ensures ready { IfOk result (λ entering. MayEnter entering self.new) }
        ensures job { IfOk result (λ entering. entering.run.job ≡ job) }
        ensures event { IfOk result (λ entering. entering.event ≡ Event.Started job self.new.faults) }
        ensures given { IfOk result (λ entering. entering.run.given ≡ given_of (around_of self.new.state).tree job.deps) }
        ensures machine { machine_of self.new ≡ machine_of self.old }
        ensures turns { self.new.turns.items ≡ self.old.turns.items }
        ensures horizon { self.new.horizon ≡ self.old.horizon }
        ensures kept { result ≢ Err AskRefusal.Fault → self.new.faults ≡ self.old.faults }
        ensures rose { result ≡ Err AskRefusal.Fault → StartFails (counts_of self.old.faults) (counts_of self.new.faults) }
        ensures listed { Fails Call.Start self.old.calls → result ≡ Err AskRefusal.Fault }
        ensures only { result ≡ Err AskRefusal.Fault → CantStart self.old job.targets }
        ensures clear { OnOk result (AreBlocked (around_of self.old.state) job.targets → ⊥) }
        ensures each { TreeCall Call.Start start_fault (result ≡ Err AskRefusal.Fault) self.old self.new }
    {
        let goes = self.calls.next(Call::Start) == Verdict::Goes;
        if !goes || self.state.is_blocked(self.alloc, &job.targets)? {
            self.faults.start = self.faults.start.saturating_add(1);
            return Err(AskRefusal::Fault);
        }
        let owed = self.state.running() + (CALL_ROOM - self.recorded());
        widen(&mut self.turns, owed + 2)?;
        Ok(self.state.ready(self.alloc, job, self.faults)?)
    }

    /// Starts a job for which all was taken.
    pub fn enter(&mut self, entering: Entering)
        requires { MayEnter entering self.old }
        ensures started { StartsTold entering self.old self.new }
        ensures raised { Raises entering.run.job (around_of self.old.state) (around_of self.new.state) }
        ensures recalls { Recalls world_meaning self.old self.new }
        ensures time { Throughout world_meaning self.old self.new (Meanwhile world_meaning self.old self.new) }
        ensures stamp { self.new.state.stamp ≡ self.old.state.stamp }
        ensures faults { self.new.faults ≡ self.old.faults }
        ensures calls { self.new.calls ≡ self.old.calls }
        ensures keeps { Keeps self.old self.new }
    {
        self.state.enter_ready(entering);
        push(&mut self.turns, Turn::Tree);
    }

    /// Ends the job at a place among those that run as it is told, with these contents at its targets where it is done.
    pub fn end(&mut self, place: usize, outcome: Outcome, made: Listing<Content>) -> Ended
        requires place { place < length (around_of self.old.state).running }
        requires told { (d : Running) → IsTold self.old.state.table (run_at (around_of self.old.state) place d) outcome made }
        ensures around { Ends (Unit {0}) result (around_of self.old.state) (around_of self.new.state) }
        ensures recalls { Recalls world_meaning self.old self.new }
        ensures time { Throughout world_meaning self.old self.new (Meanwhile world_meaning self.old self.new) }
        ensures cause { HasOutcomeCause outcome (counts_of self.old.faults) (counts_of self.new.faults) }
        ensures once { self.new.faults ≡ faults_after outcome self.old.faults }
        ensures rest { (around_of self.new.state).running ≡ remove (around_of self.old.state).running place }
        ensures stamps { StampsRun place self.old.state self.new.state }
        ensures dirs { SameDirs (around_of self.old.state) (around_of self.new.state) }
        ensures outcome { result.outcome ≡ outcome }
        ensures chosen { (d : Running) → result.id ≡ (run_at (around_of self.old.state) place d).job.id }
        ensures absent { LeavesNoneAt place outcome (around_of self.old.state) (around_of self.new.state) }
        ensures met { (d : Running) → MeetsRow self.old (run_at (around_of self.old.state) place d) outcome self.new }
        ensures unmet { outcome ≢ Outcome.Done → (around_of self.new.state).met ≡ (around_of self.old.state).met }
        ensures calls { self.new.calls ≡ self.old.calls }
        ensures keeps { Keeps self.old self.new }
    {
        let ended = self.state.end_as(place, outcome, made);
        push(&mut self.turns, Turn::Tree);
        self.faults = self.faults.after(outcome);
        ended
    }
}
