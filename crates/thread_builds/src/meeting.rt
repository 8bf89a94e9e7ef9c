//! Jobs that run at the same time, or the gate says that they didn't.
use job_runner::Gate;
use std::alloc::Global;
use std::sync::Arc;
use std::sync::atomic::{AtomicU64, Ordering};

/// How long a job is held at most.
const TURNS: u32 = 100_000_000;

/// How many jobs have come to the gate, and how many went on without the other.
#[derive(Drop)]
pub(crate) struct Meeting {
    come: AtomicU64,
    missed: AtomicU64,
}

impl Meeting {
    /// A gate to which nobody has come.
    pub(crate) fn shared(alloc: Global) -> Option<Arc<Meeting, Global>> {
        let meeting = Meeting {
            come: AtomicU64::new(0),
            missed: AtomicU64::new(0),
        };
        Arc::new(alloc, meeting).ok()
    }

    pub(crate) fn missed(&self) -> u64 {
        self.missed.load(Ordering::SeqCst)
    }
}

/// A gate that holds each job until two have come.
#[derive(Drop)]
pub(crate) struct Door {
    meeting: Arc<Meeting, Global>,
}

impl Door {
    pub(crate) fn to(meeting: &Arc<Meeting, Global>) -> Option<Door> {
        match Arc::try_clone(meeting) {
            Ok(meeting) => Some(Door { meeting }),
            Err(_) => None,
        }
    }
}

impl Gate for Door {
    type Leave = u32;

    ghost lets = { λ leave. leave };

    fn pass(&self, id: u32) -> u32 {
        self.meeting.come.fetch_add(1, Ordering::SeqCst);
        for _ in 0..TURNS {
            if self.meeting.come.load(Ordering::SeqCst) >= 2 {
                return id;
            }
        }
        self.meeting.missed.fetch_add(1, Ordering::SeqCst);
        id
    }

    fn take_back(&self, _leave: u32) {}
}
