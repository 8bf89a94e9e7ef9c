//! A world in memory in which at most one job runs.
ghost use Rattle.std.specs.Prelude.{◌≡◌, false, [], length, if◌then◌else◌, IfSome};
ghost use Rattle.world_mem.specs.AsAround.{around_of};

use crate::calls::{disk_call, look};
use crate::fields::{bank_of, bytes_of, failures_of, pair};
use crate::job::{job_of, only};
use crate::shown::{put_bytes, put_done, put_edited, put_ended, put_files, put_jobs, put_refusal};
use scons_base::PathText;
use std::alloc::Global;
use trial_text::Told;
use world_api::World;
use world_mem::{ActTable, Call, MemWorld};

#[derive(Drop)]
pub(crate) struct Held {
    world: MemWorld,
    busy: bool,
    ghost one: { length (around_of world.state).running ≡ (if busy then 1 else 0) },
}

/// A world without files, in which these calls fail.
pub(crate) fn bare_world(alloc: Global, failing: Vec<(Call, u32)>) -> Option<MemWorld>
    ensures { IfSome result (λ world. (around_of world.state).running ≡ []) }
{
    let table = ActTable::new(Vec::new(alloc));
    MemWorld::new(alloc, Vec::new(alloc), table, Vec::new(alloc), failing).ok()
}

impl Held {
    /// A world without files, in which these calls fail.
    pub(crate) fn new(alloc: Global, told: &mut Told, failures: &str) -> Option<Held> {
        match bare_world(alloc, failures_of(alloc, told, failures)) {
            Some(world) => Some(Held { world, busy: false }),
            None => {
                told.refuse();
                None
            }
        }
    }

    /// Makes the call of a row, and tells what it gives. `false` where it is no call.
    pub(crate) fn call(&mut self, alloc: Global, told: &mut Told, verb: &str, rest: &str) -> bool {
        match verb {
            "remove" => self.remove(alloc, told, rest),
            "start" => self.start(alloc, told, rest),
            "wait" => self.wait(told),
            _ => return self.ask(alloc, told, verb, rest),
        }
        true
    }

    fn ask(&mut self, alloc: Global, told: &mut Told, verb: &str, rest: &str) -> bool {
        if disk_call(alloc, told, &mut self.world, verb, rest) {
            return true;
        }
        look(alloc, told, &mut self.world, verb, rest)
    }

    fn remove(&mut self, alloc: Global, told: &mut Told, path: &str) {
        if self.busy {
            return told.refuse();
        }
        match PathText::read(alloc, path) {
            Ok(path) => put_done(told, self.world.remove(&path).is_ok()),
            Err(_) => told.refuse(),
        }
    }

    /// `ID TARGET DEPENDENCY SIGNED`.
    fn start(&mut self, alloc: Global, told: &mut Told, text: &str) {
        if self.busy {
            return told.refuse();
        }
        let (id, rest) = pair(told, text);
        let (target, rest) = pair(told, rest);
        let id = told.number(id);
        match PathText::read(alloc, target) {
            Ok(target) => self.start_one(alloc, told, id, &target, rest),
            Err(_) => told.refuse(),
        }
    }

    /// Takes away by hand what stands at the target, and starts the job.
    fn start_one(&mut self, alloc: Global, told: &mut Told, id: u32, target: &PathText, rest: &str)
        requires { self.old.busy ≡ false }
    {
        let Some(targets) = only(alloc, target) else {
            return told.refuse();
        };
        let job = job_of(alloc, told, id, targets, rest);
        self.world.remove_file(target);
        match self.world.start(job) {
            Ok(()) => {
                self.busy = true;
                told.put("ok");
            }
            Err(refusal) => put_refusal(told, refusal),
        }
    }

    fn wait(&mut self, told: &mut Told) {
        if !self.busy {
            return told.refuse();
        }
        let ended = self.world.wait();
        self.busy = false;
        put_ended(told, ended);
    }

    /// Changes the world by hand, or shows it.
    pub(crate) fn by_hand(&mut self, alloc: Global, told: &mut Told, verb: &str, rest: &str) {
        match verb {
            "edit" => self.edit(alloc, told, rest),
            "remove_file" => self.remove_file(alloc, told, rest),
            "fuse" => self.fuse(told, rest),
            _ => self.put_shown(told, verb, rest),
        }
    }

    /// `PATH BYTES`.
    fn edit(&mut self, alloc: Global, told: &mut Told, text: &str) {
        if self.busy {
            return told.refuse();
        }
        let (path, bytes) = pair(told, text);
        match (PathText::read(alloc, path), bytes_of(alloc, bytes)) {
            (Ok(path), Some(bytes)) => put_edited(told, self.world.edit(&path, bytes.as_slice())),
            _ => told.refuse(),
        }
    }

    fn remove_file(&mut self, alloc: Global, told: &mut Told, path: &str) {
        if self.busy {
            return told.refuse();
        }
        match PathText::read(alloc, path) {
            Ok(path) => {
                self.world.remove_file(&path);
                told.put("ok");
            }
            Err(_) => told.refuse(),
        }
    }

    fn fuse(&mut self, told: &mut Told, calls: &str) {
        self.world.fuse(told.number(calls));
        told.put("ok");
    }

    fn put_shown(&self, told: &mut Told, verb: &str, rest: &str) {
        match (verb, bank_of(rest)) {
            ("files", _) => put_files(told, self.world.files()),
            ("jobs", _) => put_jobs(told, self.world.jobs()),
            ("bank", Some(bank)) => put_bytes(told, self.world.bank(bank)),
            ("synced", Some(bank)) => told.show(self.world.synced(bank)),
            _ => told.refuse(),
        }
    }

    /// A stop by this pick. Where memory is short for it the world is lost.
    pub(crate) fn stopped(self, told: &mut Told, pick: u32) -> Option<Held> {
        let Held { world, busy: _ } = self;
        match world.stop(pick) {
            Ok(world) => Some(Held { world, busy: false }),
            Err(_) => {
                told.refuse();
                None
            }
        }
    }
}
