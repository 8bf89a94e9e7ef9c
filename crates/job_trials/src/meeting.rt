//! Two jobs that run at the same time, or the gate says that they didn't.
use crate::rounds::{Teller, slip_of};
use job_runner::{Gate, Pool};
use scons_base::Memory;
use std::alloc::Global;
use std::sync::atomic::{AtomicU64, Ordering};
use std::sync::{Arc, Wait};
use std::thread::Threads;

/// How long a job is held at most.
const TURNS: u32 = 100_000_000;

/// How many jobs have come to the gate, and how many went on without the other.
#[derive(Drop)]
pub struct Meeting {
    come: AtomicU64,
    missed: AtomicU64,
}

/// A gate that holds each job until two have come.
#[derive(Drop)]
pub struct Door {
    meeting: Arc<Meeting, Global>,
}

impl Gate for Door {
    type Leave = u32;

    ghost lets = { λ leave. leave };

    fn pass(&self, id: u32) -> u32 {
        self.meeting.come.fetch_add(1, Ordering::SeqCst);
        for _ in 0..TURNS {
            if self.meeting.come.load(Ordering::SeqCst) >= 2 {
                return id;
            }
        }
        self.meeting.missed.fetch_add(1, Ordering::SeqCst);
        id
    }

    fn take_back(&self, _leave: u32) {}
}

/// How many of two jobs went on without the other.
pub fn run<T>(alloc: Global, rt: T) -> Result<u64, Memory>
where
    T: Threads + Wait + Clone + Send + Sync + Drop + 'static,
{
    let meeting = Meeting {
        come: AtomicU64::new(0),
        missed: AtomicU64::new(0),
    };
    let meeting = Arc::new(alloc, meeting)?;
    let door = Door {
        meeting: Arc::try_clone(&meeting)?,
    };
    let mut pool = Pool::new(alloc, rt, Arc::new(alloc, Teller)?, door)?;
    pool.hand_in(slip_of(alloc, 0))?;
    pool.hand_in(slip_of(alloc, 1))?;
    let _ = pool.next_end();
    let _ = pool.next_end();
    Ok(meeting.missed.load(Ordering::SeqCst))
}
