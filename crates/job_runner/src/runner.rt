//! What runs a slip, and what a worker passes before it does.
ghost use Rattle.std.specs.Prelude.{◌≡◌, ℕ, Bool, Option};
ghost use Rattle.std.specs.Arc.{arc_value};
ghost use Rattle.job_runner.specs.Answers.{Answer, Gives};
ghost use Rattle.job_runner.specs.declared.slip.Slip.{Slip};
ghost use Rattle.job_runner.specs.declared.slip.Ending.{Ending};

use crate::slip::{Ending, Slip};
use std::alloc::Global;
use std::sync::Arc;

/// Runs the job of a slip to its end. The ending carries that slip.
pub trait Runner {
    /// What a job comes to, by its slip alone, whichever runner runs it; nothing where that isn't told.
    ghost answer: { Slip → Option Answer };

    /// Whether a run gave the ending. Code over any runner knows it of no ending but one that a run gave.
    ghost gave: { Ending → Bool };

    fn run(&self, slip: Arc<Slip, Global>) -> Ending
        ensures own { arc_value result.slip ≡ arc_value slip }
        ensures gives { Gives Self.answer Self.gave result };
}

/// Passed by a worker before each run.
pub trait Gate {
    /// A leave to run a job. Nothing but the gate gives one, and it goes back to the gate.
    type Leave;

    /// The id of the job that a leave is for.
    ghost lets: { Self.Leave → ℕ };

    /// Waits until the job of this id may run.
    fn pass(&self, id: u32) -> Self::Leave
        ensures { Self.lets result ≡ id };

    /// Takes the leave back once the job has run.
    fn take_back(&self, leave: Self::Leave);
}

/// The gate that holds nobody.
#[derive(Clone, Copy)]
pub struct NoGate;

impl Gate for NoGate {
    /// The id itself.
    type Leave = u32;

    ghost lets = { λ leave. leave };

    fn pass(&self, id: u32) -> u32 {
        id
    }

    fn take_back(&self, _leave: u32) {}
}
