//! Many rounds of many jobs over one pool.
ghost use Rattle.std.specs.Prelude.{◌≡◌, ◌%◌, None, Some, true, pos};
ghost use Rattle.world_api.specs.declared.job.Outcome.TheVariants.{Failed};

use job_runner::{Ending, NoGate, Pool, Runner, Slip};
use scons_base::{Listing, Memory, Paths, Texts};
use std::alloc::Global;
use std::sync::{Arc, Wait};
use std::thread::Threads;
use world_api::{Job, Outcome, Work};

const ROUNDS: u32 = 10;

const JOBS: u32 = 1000;

const MOST: usize = 64;

/// How many endings came, and how many of them were another job's, came twice or had another outcome.
#[derive(Drop)]
pub struct Tally {
    pub endings: u32,
    pub strange: u32,
}

/// Ends each job with a status that tells its id.
#[derive(Drop)]
pub struct Teller;

impl Runner for Teller {
    ghost answer = { λ slip. Some (record { outcome = Failed (pos (slip.job.id % 1000)); made = None }) };

    ghost gave = { λ ending. true };

    fn run(&self, slip: Arc<Slip, Global>) -> Ending {
        let outcome = Outcome::Failed(status_of(slip.job.id));
        Ending {
            slip,
            outcome,
            made: None,
        }
    }
}

/// A status of its own for each id of a round.
fn status_of(id: u32) -> i32
    ensures { result ≡ pos (id % 1000) }
{
    (id % JOBS) as i32
}

pub fn slip_of(alloc: Global, id: u32) -> Slip {
    let job = Job {
        id,
        work: Work::Write,
        targets: Paths::new(Vec::new(alloc)),
        lines: Listing::empty(alloc),
        signed: Texts::new(Vec::new(alloc)),
        deps: Paths::new(Vec::new(alloc)),
    };
    Slip {
        job,
        given: None,
        table: None,
    }
}

pub fn run<T>(alloc: Global, rt: T) -> Result<Tally, Memory>
where
    T: Threads + Wait + Clone + Send + Sync + Drop + 'static,
{
    let mut pool = Pool::new(alloc, rt, Arc::new(alloc, Teller)?, NoGate)?;
    let mut tally = Tally {
        endings: 0,
        strange: 0,
    };
    for _ in 0..ROUNDS {
        round(alloc, &mut pool, &mut tally)?;
    }
    Ok(tally)
}

fn round<T: Wait>(
    alloc: Global,
    pool: &mut Pool<T, Teller, NoGate>,
    tally: &mut Tally,
) -> Result<(), Memory> {
    let mut seen = Vec::with_capacity(alloc, JOBS as usize)?;
    for _ in 0..JOBS {
        seen.push(false)?;
    }
    for id in 0..JOBS {
        if pool.out() >= MOST {
            take_one(pool, &mut seen, tally);
        }
        pool.hand_in(slip_of(alloc, id))?;
    }
    for _ in 0..MOST {
        if pool.out() > 0 {
            take_one(pool, &mut seen, tally);
        }
    }
    Ok(())
}

fn take_one<T: Wait>(pool: &mut Pool<T, Teller, NoGate>, seen: &mut Vec<bool>, tally: &mut Tally) {
    let ending = pool.next_end();
    let id = ending.slip.job.id;
    tally.endings = tally.endings.saturating_add(1);
    if !is_new(seen, id) || ending.outcome != Outcome::Failed(status_of(id)) {
        tally.strange = tally.strange.saturating_add(1);
    }
}

/// Whether the job of this id is one of the round and hasn't ended before. It has from now on.
fn is_new(seen: &mut Vec<bool>, id: u32) -> bool {
    match seen.get_mut(id as usize) {
        Some(ended) => {
            let is_new = !*ended;
            *ended = true;
            is_new
        }
        None => false,
    }
}
