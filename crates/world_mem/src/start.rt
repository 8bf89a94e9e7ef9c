//! A start: what it needs is planned and taken first, and then it can't fail any more.
ghost use Rattle.std.specs.Prelude.{◌≡◌, ◌≢◌, ◌+◌, ◌-◌, ◌<◌, ◌≤◌, ◌++◌, ◌∷◌, [], ◌||◌, ℕ, List, None, false, Contains, IfOk, OnOk, OnErr, length, vec_len};
ghost use Rattle.std.specs.Vec.{vec_capacity};
ghost use Rattle.world_mem.specs.declared.running.RunningJob.{RunningJob};

use crate::event::{Event, Faults};
use crate::past::Change;
use crate::plan::{ending_by, given_of};
use crate::room::{add, make_places, widen_all};
use crate::running::RunningJob;
use crate::state::{Entering, State};
use mem_banks::CALL_ROOM;
use scons_base::{Memory, Paths};
use std::alloc::Global;
use world_api::Job;

impl State {
    ghost use Rattle.world_api.specs.Around.{given_of, started_of};
    ghost use Rattle.world_api.specs.Calls.{CanStart, Starts};
    ghost use Rattle.world_mem.specs.AsAround.{around_of};
    ghost use Rattle.world_mem.specs.AsCourse.{course_of};
    ghost use Rattle.world_mem.specs.InSlots.{slot_at, content_of};
    ghost use Rattle.act_table.specs.Listed.{contents_in};
    ghost use Rattle.world_mem.specs.Kept.{counts_of, entry_of, HaveOwn};
    ghost use Rattle.world_mem.specs.Past.{before};
    ghost use Rattle.world_mem.specs.Planned.{makes, ends};
    ghost use Rattle.world_mem.specs.Raises.{Raises};
    ghost use Rattle.world_mem.specs.Ready.{AreMissing, HasPastRoom};
    ghost use Rattle.world_mem.specs.Settles.{HavePlaces};
    ghost use Rattle.world_mem.specs.Slotwise.{HoldNone, OthersStay};
    ghost use Rattle.world_mem.specs.Standing.{is_dir, is_in};
    ghost use Rattle.world_mem.specs.declared.event.Event.{Event};

    /// Starts a job.
    pub fn start(&mut self, alloc: Global, job: Job, faults: Faults) -> Result<(), Memory>
        requires { CanStart job (around_of self.old) }
        ensures ok { OnOk result (Starts job (counts_of faults) (around_of self.old) (around_of self.new)) }
        ensures raised { OnOk result (Raises job (around_of self.old) (around_of self.new)) }
        ensures back { OnOk result (before (course_of self.new) ≡ course_of self.old) }
        ensures same { OnErr result (course_of self.new ≡ course_of self.old) }
        ensures removals { self.new.removals ≡ self.old.removals }
        ensures more { OnOk result (vec_len self.new.running ≡ vec_len self.old.running + 1) }
        ensures fewer { OnErr result (vec_len self.new.running ≡ vec_len self.old.running) }
        ensures table { self.new.table ≡ self.old.table }
        ensures stamp { self.new.stamp ≡ self.old.stamp }
    {
        let entering = self.ready(alloc, job, faults)?;
        self.enter_ready(entering);
        Ok(())
    }

    pub(crate) fn prepare(
        &self,
        alloc: Global,
        job: Job,
        faults: Faults,
    ) -> Result<Entering, Memory>
        ensures job { IfOk result (λ e. e.run.job ≡ job) }
        ensures given { IfOk result (λ e. e.run.given ≡ given_of (around_of self.now).tree job.deps) }
        ensures made { IfOk result (λ e. e.run.made ≡ makes self.now.table job e.run.given) }
        ensures kept { IfOk result (λ e. e.run.kept ≡ e.run.made) }
        ensures gains { IfOk result (λ e. e.run.gained ≡ length (contents_in e.run.made)) }
        ensures outcome { IfOk result (λ e. e.run.outcome ≡ ends self.now.table job e.run.given) }
        ensures event { IfOk result (λ e. e.event ≡ Event.Started job faults) }
        ensures started { IfOk result (λ e. e.job ≡ job) }
        ensures dirs { IfOk result (λ e. AreMissing self.now job.targets e.dirs) }
    {
        let event = Event::Started(job.copy(alloc)?, faults);
        let started = job.copy(alloc)?;
        let mut dirs = Paths::new(Vec::new(alloc));
        self.missing_above(alloc, &job.targets, &mut dirs)?;
        let run = self.plan(alloc, job)?;
        Ok(Entering {
            run,
            event,
            job: started,
            dirs,
        })
    }

    fn missing_above(&self, alloc: Global, targets: &Paths, dirs: &mut Paths) -> Result<(), Memory>
        requires { dirs.old ≡ [] }
        ensures { OnOk result (AreMissing self.now targets.now dirs.new) }
    {
        for target in targets.as_slice() {
            self.dirs.missing_above(alloc, target, dirs)?;
        }
        Ok(())
    }

    fn plan(&self, alloc: Global, job: Job) -> Result<RunningJob, Memory>
        ensures job { IfOk result (λ run. run.job ≡ job) }
        ensures given { IfOk result (λ run. run.given ≡ given_of (around_of self.now).tree job.deps) }
        ensures made { IfOk result (λ run. run.made ≡ makes self.now.table job run.given) }
        ensures kept { IfOk result (λ run. run.kept ≡ run.made) }
        ensures gains { IfOk result (λ run. run.gained ≡ length (contents_in run.made)) }
        ensures outcome { IfOk result (λ run. run.outcome ≡ ends self.now.table job run.given) }
    {
        let given = given_of(alloc, &self.slots, &job.deps)?;
        let (outcome, made) = ending_by(alloc, &self.table, &job, &given)?;
        let kept = made.copy()?;
        let gained = made.files();
        Ok(RunningJob {
            job,
            given,
            outcome,
            made,
            kept,
            gained,
        })
    }

    /// Takes the room for a job, its start and its ending.
    pub(crate) fn make_room(&mut self, alloc: Global, entering: &Entering) -> Result<(), Memory>
        ensures course { course_of self.new ≡ course_of self.old }
        ensures running { self.new.running.items ≡ self.old.running.items }
        ensures running_len { vec_len self.new.running ≡ vec_len self.old.running }
        ensures log { self.new.log.items ≡ self.old.log.items }
        ensures met { self.new.met.items ≡ self.old.met.items }
        ensures past { self.new.past.items ≡ self.old.past.items }
        ensures dirs { (dir : List ℕ) → is_dir self.new.dirs dir ≡ is_dir self.old.dirs dir }
        ensures table { self.new.table ≡ self.old.table }
        ensures stamp { self.new.stamp ≡ self.old.stamp }
        ensures removals { self.new.removals ≡ self.old.removals }
        ensures places { OnOk result (HavePlaces entering.now.run.job.targets self.new.slots) }
        ensures fresh { OnOk result (HavePlaces entering.now.dirs self.new.dirs.slots) }
        ensures log_room { OnOk result (vec_len self.new.log + vec_len self.new.running + 2 ≤ vec_capacity self.new.log) }
        ensures met_room { OnOk result (vec_len self.new.met + vec_len self.new.running + 1 ≤ vec_capacity self.new.met) }
        ensures run_room { OnOk result (vec_len self.new.running + 1 ≤ vec_capacity self.new.running) }
        ensures job_room { OnOk result (vec_len self.new.jobs + 1 ≤ vec_capacity self.new.jobs) }
        ensures past_room { OnOk result (HasPastRoom self.new) }
    {
        self.make_places(alloc, &entering.run.job.targets, &entering.dirs)?;
        self.widen()?;
        Ok(())
    }

    /// Makes the places of a job's targets, and of the directories above them.
    pub(crate) fn make_places(
        &mut self,
        alloc: Global,
        targets: &Paths,
        fresh: &Paths,
    ) -> Result<(), Memory>
        ensures course { course_of self.new ≡ course_of self.old }
        ensures running { self.new.running ≡ self.old.running }
        ensures log { self.new.log ≡ self.old.log }
        ensures met { self.new.met ≡ self.old.met }
        ensures past { self.new.past ≡ self.old.past }
        ensures dirs { (dir : List ℕ) → is_dir self.new.dirs dir ≡ is_dir self.old.dirs dir }
        ensures table { self.new.table ≡ self.old.table }
        ensures stamp { self.new.stamp ≡ self.old.stamp }
        ensures removals { self.new.removals ≡ self.old.removals }
        ensures places { OnOk result (HavePlaces targets.now self.new.slots) }
        ensures fresh { OnOk result (HavePlaces fresh.now self.new.dirs.slots) }
    {
        make_places(alloc, &mut self.slots, &mut self.dirs, targets, fresh)
    }

    /// Takes the room for one job more in what is listed.
    fn widen(&mut self) -> Result<(), Memory>
        ensures course { course_of self.new ≡ course_of self.old }
        ensures running { self.new.running.items ≡ self.old.running.items }
        ensures running_len { vec_len self.new.running ≡ vec_len self.old.running }
        ensures log { self.new.log.items ≡ self.old.log.items }
        ensures met { self.new.met.items ≡ self.old.met.items }
        ensures past { self.new.past.items ≡ self.old.past.items }
        ensures slots { self.new.slots ≡ self.old.slots }
        ensures dirs { self.new.dirs ≡ self.old.dirs }
        ensures table { self.new.table ≡ self.old.table }
        ensures stamp { self.new.stamp ≡ self.old.stamp }
        ensures removals { self.new.removals ≡ self.old.removals }
        ensures log_room { OnOk result (vec_len self.new.log + vec_len self.new.running + 2 ≤ vec_capacity self.new.log) }
        ensures met_room { OnOk result (vec_len self.new.met + vec_len self.new.running + 1 ≤ vec_capacity self.new.met) }
        ensures run_room { OnOk result (vec_len self.new.running + 1 ≤ vec_capacity self.new.running) }
        ensures job_room { OnOk result (vec_len self.new.jobs + 1 ≤ vec_capacity self.new.jobs) }
        ensures past_room { OnOk result (HasPastRoom self.new) }
    {
        let changes = self.running.len() + (CALL_ROOM - self.removals) + 2;
        widen_all(
            &mut self.past,
            &mut self.log,
            &mut self.met,
            &mut self.jobs,
            &mut self.running,
            changes,
        )
    }

    pub(crate) fn enter(&mut self, entering: Entering)
        requires new_id { (other : RunningJob) → Contains self.old.running.items other → other.job.id ≢ entering.run.job.id }
        requires own_targets { HaveOwn self.old.running.items entering.run.job.targets }
        requires clear { HoldNone entering.run.job.targets self.old.slots }
        requires made { entering.run.made ≡ makes self.old.table entering.run.job entering.run.given }
        requires kept { entering.run.kept ≡ entering.run.made }
        requires gains { entering.run.gained ≡ length (contents_in entering.run.made) }
        requires outcome { entering.run.outcome ≡ ends self.old.table entering.run.job entering.run.given }
        requires places { HavePlaces entering.run.job.targets self.old.slots }
        requires fresh { HavePlaces entering.dirs self.old.dirs.slots }
        requires absent { (dir : List ℕ) → Contains entering.dirs dir → is_dir self.old.dirs dir ≡ false }
        requires started { started_of (entry_of entering.event ∷ []) ≡ entering.job ∷ [] }
        requires log_room { vec_len self.old.log + vec_len self.old.running + 2 ≤ vec_capacity self.old.log }
        requires met_room { vec_len self.old.met + vec_len self.old.running + 1 ≤ vec_capacity self.old.met }
        requires run_room { vec_len self.old.running + 1 ≤ vec_capacity self.old.running }
        requires job_room { vec_len self.old.jobs + 1 ≤ vec_capacity self.old.jobs }
        requires past_room { HasPastRoom self.old }
        ensures others { OthersStay entering.run.job.targets self.old.slots self.new.slots }
        ensures dirs { (dir : List ℕ) → is_dir self.new.dirs dir ≡ (is_in entering.dirs dir || is_dir self.old.dirs dir) }
        ensures running { self.new.running.items ≡ self.old.running.items ++ entering.run ∷ [] }
        ensures running_len { vec_len self.new.running ≡ vec_len self.old.running + 1 }
        ensures log { self.new.log.items ≡ self.old.log.items ++ entering.event ∷ [] }
        ensures met { self.new.met.items ≡ self.old.met.items }
        ensures back { before (course_of self.new) ≡ course_of self.old }
        ensures table { self.new.table ≡ self.old.table }
        ensures stamp { self.new.stamp ≡ self.old.stamp }
        ensures removals { self.new.removals ≡ self.old.removals }
    {
        let Entering {
            run,
            event,
            job,
            dirs,
        } = entering;
        self.slots.mark(&run.job.targets, run.job.id);
        self.dirs.raise(&dirs);
        add(&mut self.running, run);
        add(&mut self.log, event);
        add(&mut self.jobs, job);
        add(&mut self.past, Change::Started(dirs));
    }
}
