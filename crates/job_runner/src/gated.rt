//! A runner behind its gate.
ghost use Rattle.std.specs.Prelude.{◌≡◌};
ghost use Rattle.std.specs.Arc.{arc_value};
ghost use Rattle.job_runner.specs.Answers.{Gives};

use crate::runner::{Gate, Runner};
use crate::slip::{Ending, Slip};
use std::alloc::Global;
use std::sync::Arc;

/// Runs a job by the gate's leave for it alone: whoever has no leave can't reach the runner.
#[derive(Drop)]
pub struct Gated<R, G> {
    runner: Arc<R, Global>,
    gate: G,
}

impl<R: Runner, G: Gate> Gated<R, G> {
    pub fn new(runner: Arc<R, Global>, gate: G) -> Gated<R, G> {
        Gated { runner, gate }
    }

    /// Waits until the job of this id may run.
    pub fn pass(&self, id: u32) -> G::Leave
        ensures { G.lets result ≡ id }
    {
        self.gate.pass(id)
    }

    /// Runs a slip to its end, by the leave for its job.
    pub fn run(&self, slip: Arc<Slip, Global>, leave: G::Leave) -> Ending
        requires { G.lets leave ≡ (arc_value slip).job.id }
        ensures own { arc_value result.slip ≡ arc_value slip }
        ensures gives { Gives R.answer R.gave result }
    {
        let ending = self.runner.run(slip);
        self.gate.take_back(leave);
        ending
    }
}
