//! What the threads do. A worker waits for a slip, takes it, passes the gate, runs it, and puts its ending; one thread more starts
//! workers as they are wanted.
ghost use Rattle.std.specs.Prelude.{◌≡◌};
ghost use Rattle.std.specs.Arc.{arc_value};
ghost use Rattle.job_runner.specs.Outs.{IsFound, out_of};

use crate::desk::{OutList, Shared, Turn};
use crate::runner::{Gate, Runner};
use crate::slip::{Ending, Slip};
use std::alloc::Global;
use std::sync::{Arc, Wait};
use std::thread;
use std::thread::Threads;

/// What the caller finds: an ending, with the place at which its slip was out, or a slip that it has to run itself.
pub enum Found {
    Ended(usize, Ending),
    Deserted(Turn, Arc<Slip, Global>),
}

impl<R: Runner, G: Gate> Shared<R, G> {
    /// Works until the program ends.
    fn work<T: Wait>(&self, rt: &T) {
        for _ in rt.forever() {
            let (turn, slip) = self.next_slip(rt);
            self.run(rt, turn, slip);
        }
    }

    /// Waits for a slip, and takes it.
    fn next_slip<T: Wait>(&self, rt: &T) -> (Turn, Arc<Slip, Global>)
        ensures { result.0.slip.value ≡ arc_value result.1 }
    {
        let mut desk = self.desk.lock(rt);
        for _ in rt.forever() {
            match desk.take() {
                Some(taken) => return taken,
                None => {}
            }
            desk = self.handed_in.wait(rt, desk);
        }
        unreachable!()
    }

    /// Runs the slip of a turn, and puts its ending.
    pub fn run<T: Wait>(&self, rt: &T, turn: Turn, slip: Arc<Slip, Global>)
        requires { turn.slip.value ≡ arc_value slip }
    {
        let leave = self.gated.pass(slip.job.id);
        let ending = self.gated.run(slip, leave);
        let _ = self.desk.lock(rt).put_end(turn, ending);
        self.ended.notify_one();
    }

    /// Waits for an ending, whichever, of a slip that is out, or for a slip that no worker will run.
    pub fn find<T: Wait>(&self, rt: &T, out: &mut OutList) -> Found
        ensures { IsFound R.answer R.gave result (out_of out.old) (out_of out.new) }
    {
        let mut desk = self.desk.lock(rt);
        for _ in rt.forever() {
            if let Some((place, ending)) = desk.pick_end(out) {
                return Found::Ended(place, ending);
            }
            match desk.take_deserted() {
                Some((turn, slip)) => return Found::Deserted(turn, slip),
                None => {}
            }
            desk = self.ended.wait(rt, desk);
        }
        unreachable!()
    }

    /// Waits until a further worker is wanted, and counts it as started.
    fn next_worker<T: Wait>(&self, rt: &T) {
        let mut desk = self.desk.lock(rt);
        for _ in rt.forever() {
            if desk.start_worker() {
                return;
            }
            desk = self.wanted.wait(rt, desk);
        }
    }

    /// Takes a worker back that couldn't be started. No further one is tried.
    fn refuse<T: Wait>(&self, rt: &T) {
        self.desk.lock(rt).lose_worker();
        self.ended.notify_one();
    }
}

/// Starts workers as they are wanted, until one can't be started.
pub fn start_workers<T, R, G>(rt: &T, shared: &Arc<Shared<R, G>, Global>)
where
    T: Threads + Wait + Clone + Send + Sync + Drop + 'static,
    R: Runner + Send + Sync + Drop + 'static,
    G: Gate + Send + Sync + Drop + 'static,
{
    for _ in rt.forever() {
        shared.next_worker(rt);
        if !start_worker(rt, shared) {
            shared.refuse(rt);
            return;
        }
    }
}

fn start_worker<T, R, G>(rt: &T, shared: &Arc<Shared<R, G>, Global>) -> bool
where
    T: Threads + Wait + Clone + Send + Sync + Drop + 'static,
    R: Runner + Send + Sync + Drop + 'static,
    G: Gate + Send + Sync + Drop + 'static,
{
    let Ok(theirs) = Arc::try_clone(shared) else {
        return false;
    };
    let Ok(handle) = rt.clone() else {
        return false;
    };
    thread::spawn(rt, move || theirs.work(&handle)).is_ok()
}
