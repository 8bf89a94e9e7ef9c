//! The files, the jobs that run and the past.
ghost use Rattle.std.specs.Prelude.{◌≡◌, ◌≢◌, ◌+◌, ◌-◌, ◌<◌, ◌≤◌, ℕ, List, Some, IsTrue, Contains, length, vec_len, IfOk, IfErr, map, [], ◌∷◌};
ghost use Rattle.std.specs.List.{list_any};
ghost use Rattle.std.specs.Str.{bytes_eq};
ghost use Rattle.std.specs.Vec.{vec_capacity};
ghost use Rattle.world_mem.specs.InSlots.{slot_at, file_of, content_of, mark_of, file_at};
ghost use Rattle.world_api.specs.Around.{started_of};
ghost use Rattle.act_table.specs.Listed.{contents_in};
ghost use Rattle.world_mem.specs.Kept.{met_of, entry_of, AreOwned, HoldMet, IdsApart, MarkTargets};
ghost use Rattle.std.specs.Prelude.{◌↔◌, ◌⊎◌, OnOk};
ghost use Rattle.world_mem.specs.Blocked.{HasBelow, HasFile};
ghost use Rattle.world_mem.specs.Planned.{makes, ends};
ghost use Rattle.world_mem.specs.Raises.{Gains};
ghost use Rattle.world_mem.specs.Standing.{is_dir};
ghost use Rattle.world_mem.specs.declared.running.RunningJob.{RunningJob};
ghost use Rattle.world_mem.specs.declared.slots.File.{File};
ghost use Rattle.world_mem.specs.declared.slots.Slot.TheVariants as slot;

use crate::dirs::Dirs;
use crate::ending::conclude;
use crate::event::Event;
use crate::past::{Change, Ending};
use crate::refusal::NewRefusal;
use crate::room::{add, widen};
use crate::running::RunningJob;
use crate::slots::{File, Slot, Slots, file_of};
use act_table::{ActTable, Contents, group_of};
use mem_banks::CALL_ROOM;
use scons_base::{Blob, Memory, PathText, Paths};
use std::alloc::Global;
use world_api::{Ended, Job, Kind, Outcome};

/// How many changes have their room from the beginning: all removals that are recorded, and some starts and endings.
const PAST_ROOM: usize = CALL_ROOM + 16_384;

/// The files, the directories, the jobs that run and the past. The ending of each running job has its room, and so has
/// each removal that is recorded.
#[derive(Drop)]
pub struct State {
    pub(crate) slots: Slots,
    pub(crate) dirs: Dirs,
    pub(crate) running: Vec<RunningJob>,
    pub(crate) log: Vec<Event>,
    pub(crate) jobs: Vec<Job>,
    pub(crate) met: Vec<Contents>,
    pub(crate) past: Vec<Change>,
    pub(crate) removals: usize,
    pub(crate) stamp: u64,
    pub(crate) table: ActTable,
    ghost log_room: { vec_len log + vec_len running ≤ vec_capacity log },
    ghost met_room: { vec_len met + vec_len running ≤ vec_capacity met },
    ghost removals_within: { removals ≤ 262144 },
    ghost past_capacity: { 262144 ≤ vec_capacity past },
    ghost past_room: { vec_len past + vec_len running + (262144 - removals) ≤ vec_capacity past },
    ghost owned: { AreOwned running.items slots },
    ghost marks: { MarkTargets running.items slots },
    ghost apart: { IdsApart running.items },
    ghost planned: { (run : RunningJob) → Contains running.items run → run.made ≡ makes table run.job run.given },
    ghost kept: { (run : RunningJob) → Contains running.items run → run.kept ≡ run.made },
    ghost gains: { (run : RunningJob) → Contains running.items run → run.gained ≡ length (contents_in run.made) },
    ghost ending: { (run : RunningJob) → Contains running.items run → run.outcome ≡ ends table run.job run.given },
    ghost held: { HoldMet met.items slots },
    ghost named: { (path : List ℕ) (file : File) → file_of (slot_at slots path) ≡ Some file → file.name ≡ path },
    ghost started: { jobs.items ≡ started_of (map entry_of log.items) },
}

/// What a job that is to run is entered with.
#[derive(Drop)]
pub struct Entering {
    pub run: RunningJob,
    pub event: Event,
    pub job: Job,
    pub dirs: Paths,
}

impl State {
    ghost use Rattle.std.specs.Prelude.{◌++◌, ◌||◌, if◌then◌else◌, OnErr, IsSome, None, false, unwrap_or, codes};
    ghost use Rattle.std.specs.List.{remove};
    ghost use Rattle.std.specs.Option.{option_copied, is_some};
    ghost use Rattle.world_api.specs.Around.{IsUnused, IsRunningTarget, Running, given_of};
    ghost use Rattle.world_api.specs.Calls.{Asks, MakesDir, Removes, CanStart, Starts, Ends};
    ghost use Rattle.world_api.specs.Reads.{IsListing, kind_of, stamp_of};
    ghost use Rattle.world_mem.specs.AsAround.{around_of};
    ghost use Rattle.world_mem.specs.AsCourse.{course_of};
    ghost use Rattle.world_mem.specs.Blocked.{AreBlocked, IsBarred, IsInTheWay, IsRefused, LiesBelow, NamesFirst};
    ghost use Rattle.world_mem.specs.Standing.{is_always, is_in};
    ghost use Rattle.world_mem.specs.declared.refusal.NewRefusal.{NewRefusal};
    ghost use Rattle.world_mem.specs.ByHand.{Edits, FilesStay, Loses, StampsStay};
    ghost use Rattle.world_mem.specs.InSlots.{settled};
    ghost use Rattle.world_mem.specs.CallCounts.{next};
    ghost use Rattle.world_mem.specs.Kept.{counts_of};
    ghost use Rattle.world_mem.specs.Left.{Cover};
    ghost use Rattle.world_mem.specs.Raises.{AreDirsOf};
    ghost use Rattle.world_mem.specs.Runs.{run_at, EndsBy, LeavesNoneAt, MeetsMadeAt};
    ghost use Rattle.world_mem.specs.Settles.{HavePlaces};
    ghost use Rattle.world_mem.specs.Slotwise.{AreSettled};
    ghost use Rattle.world_mem.specs.Stamps.{Stamps, StampsRun};
    ghost use Rattle.world_mem.specs.Past.{before};
    ghost use Rattle.world_mem.specs.Table.{law_of};

    pub fn new(
        alloc: Global,
        files: &[(PathText, Blob)],
        table: ActTable,
    ) -> Result<State, NewRefusal>
        ensures tree { IfOk result (λ state. (path : List ℕ) → (around_of state).tree path ≡ file_at files.now path) }
        ensures dirs { IfOk result (λ state. AreDirsOf files.now (around_of state)) }
        ensures running { IfOk result (λ state. (around_of state).running ≡ []) }
        ensures none { IfOk result (λ state. vec_len state.running ≡ 0) }
        ensures log { IfOk result (λ state. (around_of state).log ≡ []) }
        ensures met { IfOk result (λ state. (around_of state).met ≡ map (λ file. file.1) files.now) }
        ensures law { IfOk result (λ state. (around_of state).law ≡ law_of table) }
        ensures table { IfOk result (λ state. state.table ≡ table) }
        ensures past { IfOk result (λ state. state.past.items ≡ []) }
        ensures removals { IfOk result (λ state. state.removals ≡ 0) }
        ensures stamp { IfOk result (λ state. state.stamp ≡ 0) }
        ensures stamps { IfOk result (λ state. (path : List ℕ) → (around_of state).stamps path ≡ 0) }
        ensures stand { OnOk result ((place : ℕ) → IsRefused files.now place → ⊥) }
        ensures place { IfErr result (NamesFirst files.now) }
    {
        let mut slots = Slots::new(alloc);
        slots.fill(alloc, files)?;
        let mut dirs = Dirs::new(alloc);
        raise_above(alloc, &mut dirs, files)?;
        let group = contents_of(alloc, files)?;
        let mut met = with_room(alloc, 1)?;
        add(&mut met, group);
        let past = with_room(alloc, PAST_ROOM)?;
        Ok(State {
            slots,
            dirs,
            running: Vec::new(alloc),
            log: Vec::new(alloc),
            jobs: Vec::new(alloc),
            met,
            past,
            removals: 0,
            stamp: 0,
            table,
        })
    }

    pub fn content(&self, path: &PathText) -> Option<&Blob>
        ensures { option_copied result ≡ (around_of self.now).tree path.now }
    {
        self.slots.content(path)
    }

    /// What stands at a path.
    pub fn kind(&self, path: &PathText) -> Kind
        ensures { result ≡ kind_of (around_of self.now) path.now }
    {
        if self.slots.content(path).is_some() {
            return Kind::File;
        }
        if self.dirs.stands(path.as_str().as_bytes()) {
            return Kind::Dir;
        }
        Kind::Absent
    }

    /// When the file at a path last changed.
    pub fn stamp(&self, path: &PathText) -> Option<u64>
        ensures { result ≡ stamp_of (around_of self.now) path.now }
    {
        match self.slots.file(path) {
            Some(file) => Some(file.stamp),
            None => None,
        }
    }

    /// The files directly in a directory.
    pub fn list(&self, alloc: Global, dir: &PathText) -> Result<Paths, Memory>
        ensures files { IfOk result (IsListing (around_of self.now) dir.now) }
    {
        self.slots.list(alloc, dir)
    }

    pub fn running(&self) -> usize
        ensures { result ≡ length (around_of self.now).running }
    {
        self.running.len()
    }

    /// Whether a target is a directory, lies below a file or the target of a running job, or lies below or above another
    /// one of these.
    pub fn is_blocked(&self, alloc: Global, targets: &Paths) -> Result<bool, Memory>
        ensures { IfOk result (λ blocked. IsTrue blocked ↔ AreBlocked (around_of self.now) targets.now) }
    {
        let mut own = Slots::new(alloc);
        for target in targets.as_slice() {
            if self.is_barred(target) || own.is_blocked(alloc, target)? {
                return Ok(true);
            }
            own.put(alloc, target, Slot::Running(0))?;
        }
        Ok(false)
    }

    /// Whether a path can't be a file: a directory stands there, or a file or the target of a running job above it.
    pub fn is_barred(&self, path: &PathText) -> bool
        ensures { IsTrue result ↔ IsBarred (around_of self.now) path.now }
    {
        let bytes = path.as_str().as_bytes();
        self.dirs.stands(bytes) || self.slots.stands_above(bytes)
    }

    /// Whether a path can't be a directory: a file or the target of a running job stands there or above it.
    pub fn is_taken(&self, path: &PathText) -> bool
        ensures { IsTrue result ↔ IsInTheWay (around_of self.now) path.now }
    {
        let bytes = path.as_str().as_bytes();
        self.slots.stands(bytes) || self.slots.stands_above(bytes)
    }

    /// Removes a file. Says whether one stood there.
    #[tactic(auto, using(crate::proofs::Went::stands))]
    pub fn remove(&mut self, path: &PathText) -> bool
        requires unused { IsUnused (around_of self.old).running path.now }
        requires room { self.old.removals < 262144 }
        ensures removed { Removes path.now (around_of self.old) (around_of self.new) }
        ensures gone { (around_of self.new).tree path.now ≡ None }
        ensures stood { result ≡ is_some ((around_of self.old).tree path.now) }
        ensures back { IsTrue result → before (course_of self.new) ≡ course_of self.old }
        ensures same { result ≡ false → course_of self.new ≡ course_of self.old }
        ensures removals { self.new.removals ≡ self.old.removals + (if result then 1 else 0) }
        ensures running { self.new.running.items ≡ self.old.running.items }
        ensures table { self.new.table ≡ self.old.table }
        ensures stamp { self.new.stamp ≡ self.old.stamp }
    {
        match self.slots.take(path) {
            Some(file) => {
                self.removals += 1;
                add(&mut self.past, Change::Removed(file));
                true
            }
            None => false,
        }
    }

    /// Removes a file. The past does not tell of it.
    pub fn lose(&mut self, path: &PathText)
        ensures lost { Loses path.now (around_of self.old) (around_of self.new) }
        ensures removals { self.new.removals ≡ self.old.removals }
        ensures stamp { self.new.stamp ≡ self.old.stamp }
        ensures table { self.new.table ≡ self.old.table }
        ensures running { vec_len self.new.running ≡ vec_len self.old.running }
    {
        let _ = self.slots.take(path);
    }

    /// Makes a directory and those above it.
    pub fn make_dir(&mut self, alloc: Global, path: &PathText) -> Result<(), Memory>
        ensures made { OnOk result (MakesDir path.now (around_of self.old) (around_of self.new)) }
        ensures back { OnOk result (before (course_of self.new) ≡ course_of self.old) }
        ensures same { OnErr result (course_of self.new ≡ course_of self.old) }
        ensures removals { self.new.removals ≡ self.old.removals }
        ensures running { self.new.running.items ≡ self.old.running.items }
        ensures table { self.new.table ≡ self.old.table }
        ensures stamp { self.new.stamp ≡ self.old.stamp }
    {
        let mut fresh = Paths::new(Vec::new(alloc));
        self.dirs.missing(alloc, path, &mut fresh)?;
        let owed = self.running.len() + (CALL_ROOM - self.removals);
        widen(&mut self.past, owed + 1)?;
        self.dirs.make_places(alloc, &fresh)?;
        self.dirs.raise(&fresh);
        add(&mut self.past, Change::Made(fresh));
        Ok(())
    }

    /// Ends the job at a place among those that run, the oldest at 0: as planned, or as it is cut.
    pub fn end(&mut self, place: usize, cut: Option<Outcome>) -> Ended
        requires place { place < length (around_of self.old).running }
        requires cut { cut ≢ Some Outcome.Done }
        ensures ended { Ends (Unit {0}) result (around_of self.old) (around_of self.new) }
        ensures back { before (course_of self.new) ≡ course_of self.old }
        ensures chosen { (d : Running) → result.id ≡ (run_at (around_of self.old) place d).job.id }
        ensures outcome { EndsBy self.old.table place cut result.outcome (around_of self.old) }
        ensures absent { LeavesNoneAt place result.outcome (around_of self.old) (around_of self.new) }
        ensures met { MeetsMadeAt self.old.table place result.outcome (around_of self.old) (around_of self.new) }
        ensures unmet { result.outcome ≢ Outcome.Done → (around_of self.new).met ≡ (around_of self.old).met }
        ensures rest { self.new.running.items ≡ remove self.old.running.items place }
        ensures stamps { StampsRun place self.old self.new }
        ensures fewer { vec_len self.new.running + 1 ≡ vec_len self.old.running }
        ensures no_memory { cut ≢ Some Outcome.NoMemory → result.outcome ≢ Outcome.NoMemory }
        ensures dirs { self.new.dirs ≡ self.old.dirs }
        ensures removals { self.new.removals ≡ self.old.removals }
        ensures table { self.new.table ≡ self.old.table }
    {
        let RunningJob {
            job,
            given,
            outcome,
            made,
            kept,
            gained,
        } = self.running.remove(place);
        let outcome = cut.unwrap_or(outcome);
        self.stamp = self.stamp.saturating_add(1);
        conclude(
            &mut self.slots,
            &mut self.met,
            &job,
            outcome,
            made,
            kept,
            self.stamp,
        );
        let gained = gained_by(outcome, gained);
        let id = job.id;
        add(&mut self.log, Event::Finished(id, outcome));
        let ending = Ending {
            place,
            job,
            given,
            gained,
        };
        add(&mut self.past, Change::Ended(ending));
        Ended { id, outcome }
    }

    /// Whether a running job makes a path.
    pub fn is_made(&self, path: &PathText) -> bool
        ensures { IsTrue result ↔ IsRunningTarget (around_of self.now).running path.now }
    {
        self.slots.is_kept(path)
    }

    /// Sets the bytes of a file that no running job makes.
    pub fn edit(&mut self, alloc: Global, path: &PathText, bytes: &[u8]) -> Result<(), Memory>
        requires { IsRunningTarget (around_of self.old).running path.now → ⊥ }
        ensures edited { OnOk result (Edits path.now bytes.now (around_of self.old) (around_of self.new)) }
        ensures same { OnErr result (course_of self.new ≡ course_of self.old) }
        ensures stamps { OnOk result (Stamps (λ other. other ≡ path.now) self.old self.new) }
        ensures stamp { OnErr result (self.new.stamp ≡ self.old.stamp) }
        ensures removals { self.new.removals ≡ self.old.removals }
        ensures jobs { vec_len self.new.running ≡ vec_len self.old.running }
        ensures table { self.new.table ≡ self.old.table }
    {
        let stamp = self.stamp.saturating_add(1);
        let file = file_of(alloc, path, bytes, stamp)?;
        let group = group_of(alloc, path, bytes)?;
        let mut own = Paths::new(Vec::new(alloc));
        own.push(path.copy()?)?;
        let mut fresh = Paths::new(Vec::new(alloc));
        self.dirs.missing_above(alloc, path, &mut fresh)?;
        self.make_places(alloc, &own, &fresh)?;
        self.widen_met()?;
        self.put(path, file, group, &fresh);
        Ok(())
    }

    /// Takes the room for one group more that is met.
    pub(crate) fn widen_met(&mut self) -> Result<(), Memory>
        ensures course { course_of self.new ≡ course_of self.old }
        ensures running { self.new.running ≡ self.old.running }
        ensures slots { self.new.slots ≡ self.old.slots }
        ensures dirs { self.new.dirs ≡ self.old.dirs }
        ensures met { self.new.met.items ≡ self.old.met.items }
        ensures table { self.new.table ≡ self.old.table }
        ensures stamp { self.new.stamp ≡ self.old.stamp }
        ensures log { self.new.log ≡ self.old.log }
        ensures removals { self.new.removals ≡ self.old.removals }
        ensures room { OnOk result (vec_len self.new.met + vec_len self.new.running + 1 ≤ vec_capacity self.new.met) }
    {
        let owed = self.running.len() + 1;
        widen(&mut self.met, owed)
    }

    /// Puts a file at its place, and lets these directories stand. The file has been met from then on, by this group.
    fn put(&mut self, path: &PathText, file: File, group: Contents, fresh: &Paths)
        requires free { IsRunningTarget (around_of self.old).running path.now → ⊥ }
        requires name { file.name ≡ path.now }
        requires group { group ≡ (path.now, Some file.bytes) ∷ [] }
        requires place { IsSome (slot_at self.old.slots path.now) }
        requires places { HavePlaces fresh.now self.old.dirs.slots }
        requires room { vec_len self.old.met + vec_len self.old.running + 1 ≤ vec_capacity self.old.met }
        ensures file { (around_of self.new).tree path.now ≡ Some file.bytes }
        ensures others { FilesStay path.now (around_of self.old) (around_of self.new) }
        ensures stamps { StampsStay path.now (around_of self.old) (around_of self.new) }
        ensures stamp { self.new.stamp ≡ file.stamp }
        ensures stamped { (around_of self.new).stamps path.now ≡ file.stamp }
        ensures dirs { (dir : List ℕ) → is_dir self.new.dirs dir ≡ (is_in fresh.now dir || is_dir self.old.dirs dir) }
        ensures met { self.new.met.items ≡ self.old.met.items ++ group ∷ [] }
        ensures running { self.new.running ≡ self.old.running }
        ensures log { self.new.log ≡ self.old.log }
        ensures table { self.new.table ≡ self.old.table }
        ensures removals { self.new.removals ≡ self.old.removals }
        ensures jobs { vec_len self.new.running ≡ vec_len self.old.running }
    {
        self.stamp = file.stamp;
        self.dirs.raise(fresh);
        self.slots.write(path, Slot::Settled(Some(file)));
        add(&mut self.met, group);
    }

    /// What a stop leaves: these contents at the targets of the jobs that ran, which have been met from then on.
    pub fn leave(&mut self, targets: Contents, kept: Contents)
        requires room { vec_len self.old.met < vec_capacity self.old.met }
        requires same { kept ≡ targets }
        requires covers { Cover self.old.running.items targets }
        ensures gone { self.new.removals ≡ 0 }
        ensures idle { vec_len self.new.running ≡ 0 }
        ensures none { self.new.running.items ≡ [] }
        ensures log { self.new.log.items ≡ [] }
        ensures stamp { self.new.stamp ≡ next self.old.stamp }
        ensures settled { AreSettled self.new.stamp targets self.old.slots self.new.slots }
        ensures met { self.new.met.items ≡ self.old.met.items ++ kept ∷ [] }
        ensures dirs { self.new.dirs ≡ self.old.dirs }
        ensures table { self.new.table ≡ self.old.table }
    {
        self.stamp = self.stamp.saturating_add(1);
        self.slots.settle(targets, self.stamp);
        self.running.clear();
        self.log.clear();
        self.jobs.clear();
        self.past.clear();
        self.removals = 0;
        add(&mut self.met, kept);
    }
}

/// How many contents are met by an ending.
fn gained_by(outcome: Outcome, gained: usize) -> usize
    ensures done { outcome ≡ Outcome.Done → result ≡ gained }
    ensures other { outcome ≢ Outcome.Done → result ≡ 0 }
{
    if outcome == Outcome::Done { gained } else { 0 }
}

fn with_room<T: Drop>(alloc: Global, room: usize) -> Result<Vec<T>, Memory>
    ensures empty { IfOk result (λ items. items.items ≡ []) }
    ensures len { IfOk result (λ items. vec_len items ≡ 0) }
    ensures room { IfOk result (λ items. vec_capacity items ≡ room) }
{
    Ok(Vec::with_capacity(alloc, room)?)
}

/// Lets the directories above the files stand.
fn raise_above(alloc: Global, dirs: &mut Dirs, files: &[(PathText, Blob)]) -> Result<(), Memory>
    ensures { OnOk result (Gains (HasBelow (HasFile files.now)) dirs.old dirs.new) }
{
    for (path, _) in files {
        dirs.raise_above(alloc, path)?;
    }
    Ok(())
}

/// The files as contents.
fn contents_of(alloc: Global, files: &[(PathText, Blob)]) -> Result<Contents, Memory>
    ensures { IfOk result (λ group. group ≡ map (λ file. (file.0, Some file.1)) files.now) }
{
    let mut group = Contents::new(Vec::new(alloc));
    for (path, bytes) in files {
        group.push(path.copy()?, Some(bytes.copy()?))?;
    }
    Ok(group)
}
