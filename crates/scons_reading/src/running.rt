//! The run of all scripts over the host, and the end that their fault is.
ghost use Rattle.std.specs.Prelude.{◌≡◌, ℕ, List, None, Some};
ghost use Rattle.py_tree.specs.Tree.{script_tree};
ghost use Rattle.scons_host.specs.Causes.{Outside, HasEndCause, HasCause, HasKeptCause, ReadingCauses};
ghost use Rattle.scons_host.specs.Files.{Files};
ghost use Rattle.scons_host.specs.Prints.{Prints};
ghost use Rattle.scons_host.specs.SoFar.{so_far};
ghost use Rattle.scons_reading.specs.Coming.{CameTo, EndedSo, IsFaultOf, StopsWith, Over};
ghost use Rattle.scons_reading.specs.Ends.{IsToldEnd};
ghost use Rattle.scons_reading.specs.Reads.{Begun, begun_of};
ghost use Rattle.scons_reading.specs.Running.{HasFaultCause, HasRunCause, ScriptsCause};
ghost use Rattle.world_api.specs.Looks.{LooksAtFiles};

use crate::ends::own_end;
use py_eval::{EvalFault, EvalKind, Ran, run};
use py_heap::{Budget, Heap};
use py_tree::Script;
use scons_base::limits::UNIT_LIMIT;
use scons_host::{HostEnd, Kept, ReadingHost, State};
use world_api::{Sink, World};

/// Runs the scripts.
pub fn run_all<W: World, O: Sink>(
    world: &mut W,
    out: &mut O,
    state: &mut State,
    heap: Heap,
    script: &Script,
) -> Result<(), HostEnd>
    ensures looks { LooksAtFiles W.meaning world.old world.new }
    ensures prints { Prints O.meaning out.old out.new }
    ensures causes { ReadingCauses W.meaning O.meaning world.old out.old world.new out.new result }
    ensures ended { let b = begun_of (script_tree script.now) (so_far state.old) heap in
        Over W.meaning O.meaning world.old out.old world.new out.new (λ f text. EndedSo f b text (so_far state.new) result) }
{
    let mut kept = Kept {
        end: None,
        refusals: 0,
    };
    let outcome = run_kept(world, out, state, &mut kept, heap, script);
    told(state, kept, outcome)
}

/// Runs the scripts over a host that keeps its refusals.
fn run_kept<W: World, O: Sink>(
    world: &mut W,
    out: &mut O,
    state: &mut State,
    kept: &mut Kept,
    heap: Heap,
    script: &Script,
) -> Result<Ran, EvalFault>
    requires { kept.old ≡ record { end = None; refusals = 0 } }
    ensures looks { LooksAtFiles W.meaning world.old world.new }
    ensures prints { Prints O.meaning out.old out.new }
    ensures cause { ScriptsCause W.meaning O.meaning world.old out.old world.new out.new kept.new.end result }
    ensures came { let b = begun_of (script_tree script.now) (so_far state.old) heap in
        Over W.meaning O.meaning world.old out.old world.new out.new (λ f text.
        CameTo f b text (so_far state.new) kept.new.end result) }
{
    let mut host = ReadingHost {
        world,
        out,
        state,
        kept,
    };
    run(script, heap, &mut host, Budget::new(UNIT_LIMIT))
}

/// Whether the scripts ran, or the end that their fault is.
fn told(state: &State, kept: Kept, outcome: Result<Ran, EvalFault>) -> Result<(), HostEnd>
    ensures cause { (old new : Outside) → HasRunCause old new kept.end outcome → HasCause old new result }
    ensures ended { (f : Files) (b : Begun) (text : List ℕ) → CameTo f b text (so_far state.now) kept.end outcome →
        EndedSo f b text (so_far state.now) result }
{
    match outcome {
        Ok(_) => Ok(()),
        Err(fault) => Err(ended(state, kept, fault)),
    }
}

/// The end that a fault of the evaluator is.
fn ended(state: &State, kept: Kept, fault: EvalFault) -> HostEnd
    ensures cause { (old new : Outside) → HasFaultCause old new kept.end fault → HasEndCause old new result }
    ensures stops { (f : Files) (b : Begun) (text : List ℕ) → IsFaultOf f b text (so_far state.now) kept.end fault →
        StopsWith f b text result }
{
    match fault {
        EvalFault::At { script, line, kind } => match kind {
            EvalKind::Host => kept_end(kept),
            kind => own_end(state, script, line, kind),
        },
        EvalFault::Memory => HostEnd::Memory,
    }
}

/// The end that the host has kept.
fn kept_end(kept: Kept) -> HostEnd
    ensures cause { (old new : Outside) → HasKeptCause old new kept.end → HasEndCause old new result }
    ensures told { IsToldEnd result → kept.end ≡ Some result }
{
    match kept.end {
        Some(end) => end,
        None => HostEnd::Memory,
    }
}
