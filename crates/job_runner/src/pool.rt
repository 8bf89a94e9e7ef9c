//! A pool of workers round a board. Its caller alone hands slips in and is given their endings.
ghost use Rattle.std.specs.Prelude.{◌≡◌, ◌++◌, ◌∷◌, [], ℕ, IfOk, OnOk, OnErr, length};
ghost use Rattle.std.specs.Arc.{arc_value};
ghost use Rattle.job_runner.specs.Answers.{Gives};
ghost use Rattle.job_runner.specs.Outs.{Returns, ReturnsAt, out_of};

use crate::desk::{OutList, Shared};
use crate::runner::{Gate, Runner};
use crate::slip::{Ending, Slip};
use crate::worker::{Found, start_workers};
use scons_base::Memory;
use std::alloc::Global;
use std::sync::{Arc, Wait};
use std::thread;
use std::thread::Threads;

/// No call ends the workers: one that has nothing to do waits until the program ends.
#[derive(Drop)]
pub struct Pool<T, R: Runner, G> {
    rt: T,
    alloc: Global,
    shared: Arc<Shared<R, G>, Global>,
    out: OutList,
}

impl<T, R, G> Pool<T, R, G>
where
    T: Threads + Wait + Clone + Send + Sync + Drop + 'static,
    R: Runner + Send + Sync + Drop + 'static,
    G: Gate + Send + Sync + Drop + 'static,
{
    /// A pool without workers yet, and the thread that starts them as they are wanted.
    pub fn new(
        alloc: Global,
        rt: T,
        runner: Arc<R, Global>,
        gate: G,
    ) -> Result<Pool<T, R, G>, Memory>
        ensures { IfOk result (λ pool. out_of pool.out ≡ []) }
    {
        let (shared, out) = Shared::new(alloc, runner, gate);
        let shared = Arc::new(alloc, shared)?;
        let theirs = Arc::try_clone(&shared)?;
        let Ok(handle) = rt.clone() else {
            return Err(Memory);
        };
        if thread::spawn(&rt, move || start_workers(&handle, &theirs)).is_err() {
            shared.desk.lock(&rt).refuse();
        }
        Ok(Pool {
            rt,
            alloc,
            shared,
            out,
        })
    }
}

impl<T: Wait, R: Runner, G: Gate> Pool<T, R, G> {
    /// How many jobs are out.
    pub fn out(&self) -> usize
        ensures { result ≡ length (out_of self.now.out) }
    {
        self.out.len()
    }

    /// Hands a slip in, and has a further worker started where more jobs are out than there are workers. A refusal drops the slip.
    pub fn hand_in(&mut self, slip: Slip) -> Result<(), Memory>
        ensures ok { OnOk result ((number : ℕ) × (out_of self.new.out ≡ out_of self.old.out ++ (number, slip) ∷ [])) }
        ensures err { OnErr result (out_of self.new.out ≡ out_of self.old.out) }
    {
        let slip = Arc::new(self.alloc, slip)?;
        put_on(&self.shared, &self.rt, slip, &mut self.out)
    }

    /// Waits for the ending of a slip that is out. Where no worker could be started a waiting slip is run here.
    pub fn next_end(&mut self) -> Ending
        ensures out { Returns result (out_of self.old.out) (out_of self.new.out) }
        ensures own { Gives R.answer R.gave result }
    {
        self.next_place().1
    }

    /// The same, with the place of the slip on the list of what was out.
    pub fn next_place(&mut self) -> (usize, Ending)
        ensures out { ReturnsAt result.0 result.1 (out_of self.old.out) (out_of self.new.out) }
        ensures own { Gives R.answer R.gave result.1 }
    {
        next_of(&self.rt, &self.shared, &mut self.out)
    }
}

/// Puts a slip on the board and onto the list of what is out, and asks for as many workers as slips are out.
fn put_on<T: Wait, R: Runner, G: Gate>(
    shared: &Shared<R, G>,
    rt: &T,
    slip: Arc<Slip, Global>,
    out: &mut OutList,
) -> Result<(), Memory>
    ensures ok { OnOk result ((number : ℕ) × (out_of out.new ≡ out_of out.old ++ (number, arc_value slip) ∷ [])) }
    ensures err { OnErr result (out_of out.new ≡ out_of out.old) }
{
    let mut desk = shared.desk.lock(rt);
    desk.hand_in(slip, out)?;
    desk.ask(out.len());
    drop(desk);
    shared.wanted.notify_one();
    shared.handed_in.notify_one();
    Ok(())
}

/// Waits for an ending of a slip that is out, and gives the place of that slip too. A slip that no worker will run is run here.
fn next_of<T: Wait, R: Runner, G: Gate>(
    rt: &T,
    shared: &Shared<R, G>,
    out: &mut OutList,
) -> (usize, Ending)
    ensures out { ReturnsAt result.0 result.1 (out_of out.old) (out_of out.new) }
    ensures own { Gives R.answer R.gave result.1 }
{
    for _ in rt.forever() {
        match shared.find(rt, out) {
            Found::Ended(place, ending) => return (place, ending),
            Found::Deserted(turn, slip) => shared.run(rt, turn, slip),
        }
    }
    unreachable!()
}
