//! Many rounds of many jobs over one world.
ghost use Rattle.std.specs.Prelude.{◌≡◌, [], length};
ghost use Rattle.world_mem.specs.AsAround.{around_of};
ghost use Rattle.job_trials.specs.Below.{AreBelow};

use job_runner::NoGate;
use scons_base::{Listing, Paths, Texts};
use std::alloc::Global;
use std::sync::Wait;
use std::thread::Threads;
use thread_world::ThreadWorld;
use world_api::{Job, Outcome, Work, World};
use world_mem::ActTable;

const JOBS: u32 = 1000;

const ROUNDS: u32 = 100;

const MOST: u32 = 64;

/// How many endings came, and how many of them were no running job's, came twice or weren't well.
#[derive(Drop)]
pub struct Tally {
    pub endings: u32,
    pub strange: u32,
}

/// A world, how many jobs run in it, and the id of the next one, which is greater than those of all before.
#[derive(Drop)]
struct Rounds<T> {
    alloc: Global,
    world: ThreadWorld<T, NoGate>,
    running: u32,
    next: u32,
    ghost counted: { length (around_of world.world.state).running ≡ running },
    ghost below: { AreBelow next (around_of world.world.state).running },
}

pub fn run<T>(alloc: Global, rt: T) -> Option<Tally>
where
    T: Threads + Wait + Clone + Send + Sync + Drop + 'static,
{
    let table = ActTable::new(Vec::new(alloc));
    let Ok(world) = ThreadWorld::new(alloc, rt, Vec::new(alloc), table, NoGate) else {
        return None;
    };
    let mut rounds = Rounds {
        alloc,
        world,
        running: 0,
        next: 0,
    };
    let mut tally = Tally {
        endings: 0,
        strange: 0,
    };
    for _ in 0..ROUNDS {
        round(alloc, &mut rounds, &mut tally)?;
    }
    Some(tally)
}

fn round<T: Wait + Drop>(alloc: Global, rounds: &mut Rounds<T>, tally: &mut Tally) -> Option<()> {
    let first = rounds.next;
    let mut seen = Vec::from_elem(alloc, false, JOBS as usize).ok()?;
    for _ in 0..JOBS {
        if rounds.running >= MOST {
            take_one(rounds, first, &mut seen, tally);
        }
        if !rounds.start() {
            return None;
        }
    }
    for _ in 0..MOST {
        if rounds.running > 0 {
            take_one(rounds, first, &mut seen, tally);
        }
    }
    Some(())
}

fn take_one<T: Wait + Drop>(
    rounds: &mut Rounds<T>,
    first: u32,
    seen: &mut Vec<bool>,
    tally: &mut Tally,
) {
    let Some((id, outcome)) = rounds.end() else {
        return;
    };
    tally.endings = tally.endings.saturating_add(1);
    if !is_new(seen, id.saturating_sub(first)) || outcome != Outcome::Done {
        tally.strange = tally.strange.saturating_add(1);
    }
}

/// Whether the job of this place is one of the round and hasn't ended before. It has from now on.
fn is_new(seen: &mut Vec<bool>, place: u32) -> bool {
    match seen.get_mut(place as usize) {
        Some(ended) => {
            let is_new = !*ended;
            *ended = true;
            is_new
        }
        None => false,
    }
}

impl<T: Wait + Drop> Rounds<T> {
    /// Starts the next job, where there is a further id.
    fn start(&mut self) -> bool {
        if self.next == u32::MAX || self.running == u32::MAX {
            return false;
        }
        let job = job_of(self.alloc, self.next);
        match self.world.start(job) {
            Ok(()) => {
                self.next += 1;
                self.running += 1;
                true
            }
            Err(_) => false,
        }
    }

    /// Waits for an ending, where a job runs.
    fn end(&mut self) -> Option<(u32, Outcome)> {
        if self.running == 0 {
            return None;
        }
        let ended = self.world.wait();
        self.running -= 1;
        Some((ended.id, ended.outcome))
    }
}

fn job_of(alloc: Global, id: u32) -> Job
    ensures id { result.id ≡ id }
    ensures targets { result.targets ≡ [] }
    ensures deps { result.deps ≡ [] }
{
    Job {
        id,
        work: Work::Shell,
        targets: Paths::new(Vec::new(alloc)),
        lines: Listing::empty(alloc),
        signed: Texts::new(Vec::new(alloc)),
        deps: Paths::new(Vec::new(alloc)),
    }
}
