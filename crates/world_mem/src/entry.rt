//! A start in two steps, and an ending that is told: what a world whose jobs run elsewhere asks of the files and jobs.
ghost use Rattle.std.specs.Prelude.{◌≡◌, ◌≢◌, ◌+◌, ◌<◌, ◌≤◌, ◌++◌, ℕ, List, None, Contains, IfOk, OnOk, length, vec_len};
ghost use Rattle.std.specs.List.{remove, slice_index_or};
ghost use Rattle.std.specs.Vec.{vec_capacity};
ghost use Rattle.act_table.specs.Filled.{contents_of};
ghost use Rattle.world_mem.specs.declared.running.RunningJob.{RunningJob};

use crate::event::Faults;
use crate::running::RunningJob;
use crate::state::{Entering, State};
use scons_base::{Listing, Memory};
use std::alloc::Global;
use world_api::{Content, Ended, Job, Outcome};

impl State {
    ghost use Rattle.world_api.specs.Around.{Running};
    ghost use Rattle.world_api.specs.Calls.{CanStart, Ends};
    ghost use Rattle.world_mem.specs.AsAround.{around_of};
    ghost use Rattle.world_mem.specs.AsCourse.{course_of};
    ghost use Rattle.world_mem.specs.Past.{before};
    ghost use Rattle.world_mem.specs.Raises.{Raises};
    ghost use Rattle.world_mem.specs.Ready.{IsReady, StartsAs};
    ghost use Rattle.world_mem.specs.Runs.{run_at, LeavesNoneAt, MeetsMadeAt};
    ghost use Rattle.world_mem.specs.Stamps.{StampsRun};
    ghost use Rattle.world_mem.specs.Told.{IsTold};
    ghost use Rattle.world_mem.specs.declared.event.Event.{Event};

    /// Plans a job, and takes all room that its start and its ending need. It doesn't start yet.
    pub(crate) fn ready(
        &mut self,
        alloc: Global,
        job: Job,
        faults: Faults,
    ) -> Result<Entering, Memory>
        requires { CanStart job (around_of self.old) }
        ensures ready { IfOk result (λ entering. IsReady entering self.new) }
        ensures job { IfOk result (λ entering. entering.run.job ≡ job) }
        ensures event { IfOk result (λ entering. entering.event ≡ Event.Started job faults) }
        ensures course { course_of self.new ≡ course_of self.old }
        ensures running { vec_len self.new.running ≡ vec_len self.old.running }
        ensures stamp { self.new.stamp ≡ self.old.stamp }
        ensures removals { self.new.removals ≡ self.old.removals }
        ensures table { self.new.table ≡ self.old.table }
    {
        let entering = self.prepare(alloc, job, faults)?;
        self.make_room(alloc, &entering)?;
        Ok(entering)
    }

    /// Starts a job that is ready.
    pub(crate) fn enter_ready(&mut self, entering: Entering)
        requires { IsReady entering self.old }
        ensures started { StartsAs entering (around_of self.old) (around_of self.new) }
        ensures raised { Raises entering.run.job (around_of self.old) (around_of self.new) }
        ensures back { before (course_of self.new) ≡ course_of self.old }
        ensures more { vec_len self.new.running ≡ vec_len self.old.running + 1 }
        ensures stamp { self.new.stamp ≡ self.old.stamp }
        ensures removals { self.new.removals ≡ self.old.removals }
        ensures table { self.new.table ≡ self.old.table }
    {
        self.enter(entering);
    }

    /// Ends the job at a place among those that run as it is told, with these contents at its targets where it is done.
    pub(crate) fn end_as(&mut self, place: usize, outcome: Outcome, made: Listing<Content>) -> Ended
        requires place { place < length (around_of self.old).running }
        requires told { (d : Running) → IsTold self.old.table (run_at (around_of self.old) place d) outcome made }
        ensures ended { Ends (Unit {0}) result (around_of self.old) (around_of self.new) }
        ensures back { before (course_of self.new) ≡ course_of self.old }
        ensures chosen { (d : Running) → result.id ≡ (run_at (around_of self.old) place d).job.id }
        ensures outcome { result.outcome ≡ outcome }
        ensures absent { LeavesNoneAt place outcome (around_of self.old) (around_of self.new) }
        ensures met { MeetsMadeAt self.old.table place outcome (around_of self.old) (around_of self.new) }
        ensures unmet { outcome ≢ Outcome.Done → (around_of self.new).met ≡ (around_of self.old).met }
        ensures rest { self.new.running.items ≡ remove self.old.running.items place }
        ensures stamps { StampsRun place self.old self.new }
        ensures dirs { self.new.dirs ≡ self.old.dirs }
        ensures fewer { vec_len self.new.running + 1 ≡ vec_len self.old.running }
        ensures removals { self.new.removals ≡ self.old.removals }
        ensures table { self.new.table ≡ self.old.table }
    {
        if outcome == Outcome::Done {
            self.refill(place, made);
            return self.end(place, None);
        }
        self.end(place, Some(outcome))
    }

    /// Puts contents in the place of equal ones that were planned for a running job.
    fn refill(&mut self, place: usize, made: Listing<Content>)
        requires place { place < vec_len self.old.running }
        requires planned { (d : RunningJob) → made ≡ contents_of (slice_index_or self.old.running.items place d).made }
        ensures course { course_of self.new ≡ course_of self.old }
        ensures running { self.new.running.items ≡ self.old.running.items }
        ensures len { vec_len self.new.running ≡ vec_len self.old.running }
        ensures dirs { self.new.dirs ≡ self.old.dirs }
        ensures stamp { self.new.stamp ≡ self.old.stamp }
        ensures removals { self.new.removals ≡ self.old.removals }
        ensures table { self.new.table ≡ self.old.table }
    {
        put_made(&mut self.running, place, made);
    }
}

/// The same, in the list of those that run.
fn put_made(running: &mut Vec<RunningJob>, place: usize, made: Listing<Content>)
    requires place { place < length running.old.items }
    requires planned { (d : RunningJob) → made ≡ contents_of (slice_index_or running.old.items place d).made }
    ensures items { running.new.items ≡ running.old.items }
    ensures len { vec_len running.new ≡ vec_len running.old }
    ensures capacity { vec_capacity running.old ≤ vec_capacity running.new }
{
    let run = &mut running[place];
    run.made.refill(made);
}
