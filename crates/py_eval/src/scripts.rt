//! First scripts, one after another.
ghost use Rattle.std.specs.Prelude.{◌≡◌, ◌≤◌, IfErr};
ghost use Rattle.py_tree.specs.Tree.{script_tree};
ghost use Rattle.py_meaning.specs.States.{Frame, script_frame};
ghost use Rattle.py_meaning.specs.Jobs.{first_scripts};
ghost use Rattle.py_meaning.specs.Evaluates.{plan};
ghost use Rattle.py_state.specs.Stores.{store_of, state_by};
ghost use Rattle.py_eval.specs.Answers.{IsFound, IsOnly, HasCause, IsStop, fault_by};
ghost use Rattle.py_eval.specs.Bodies.{LeadsToNext, ExitsOrStops};

use crate::asking::{pay_script, script_behind};
use crate::calls::run_script;
use py_heap::{Budget, Heap};
use py_host::Host;
use py_meaning::{EvalFault, Exit};
use py_state::{Machine, Stop};
use py_tree::Script;
use scons_base::limits::CALL_DEPTH_LIMIT;

/// What scripts that have run leave. After a fault nothing is left.
#[derive(Drop)]
pub struct Ran {
    pub exit: Exit,
    pub heap: Heap,
    pub budget: Budget,
}

/// Runs a script, and then each further first script that the host gives.
pub fn run<H: Host>(
    script: &Script,
    heap: Heap,
    host: &mut H,
    budget: Budget,
) -> Result<Ran, EvalFault>
    ensures found { IsFound H.meaning (script_tree script.now) heap budget host.old result host.new }
    ensures only { IsOnly H.meaning (script_tree script.now) heap budget host.old result host.new }
    ensures later { H.meaning.refusals host.old ≤ H.meaning.refusals host.new }
    ensures keeps { H.meaning.keeps host.old host.new }
    ensures cause { IfErr result (λ e. HasCause e (H.meaning.refusals host.old) (H.meaning.refusals host.new)) }
{
    let alloc = heap.allocator();
    let mut machine = Machine::new(alloc, heap, budget);
    match run_first(&mut machine, host, script) {
        Ok(exit) => Ok(left_by(machine, exit)),
        Err(stop) => Err(fault_by(stop)),
    }
}

fn left_by(machine: Machine, exit: Exit) -> Ran
    ensures { result ≡ record { exit = exit; heap = machine.heap; budget = machine.budget } }
{
    let Machine { heap, budget, .. } = machine;
    Ran { exit, heap, budget }
}

/// The fault that stops all scripts.
fn fault_by(stop: Stop) -> EvalFault
    requires { IsStop stop }
    ensures { result ≡ fault_by stop }
{
    match stop {
        Stop::Fault { script, line, kind } => EvalFault::At { script, line, kind },
        Stop::End => unreachable!(),
        Stop::Memory => EvalFault::Memory,
    }
}

/// What there is behind a first script.
#[derive(Drop)]
enum Next {
    Script(Script),
    Exit(Exit),
}

fn run_first<H: Host>(machine: &mut Machine, host: &mut H, script: &Script) -> Result<Exit, Stop>
    ensures keeps { H.meaning.keeps host.old host.new }
    ensures exits { ExitsOrStops H.meaning CALL_DEPTH_LIMIT
        (plan (first_scripts (script_tree script.now)) (state_by (store_of machine.old) (script_frame 0)))
        host.old result (store_of machine.new) host.new }
{
    let mut next = run_one(machine, host, script)?;
    'scripts: for _ in 0..u64::MAX {
        match next {
            Next::Script(script) => next = run_one(machine, host, &script)?,
            Next::Exit(exit) => return Ok(exit),
        }
    }
    Err(Stop::Memory)
}

/// Runs a first script from its beginning. A script behind it is paid for.
fn run_one<H: Host>(machine: &mut Machine, host: &mut H, script: &Script) -> Result<Next, Stop>
    ensures keeps { H.meaning.keeps host.old host.new }
    ensures leads { (f : Frame) → LeadsToNext H.meaning CALL_DEPTH_LIMIT
        (plan (first_scripts (script_tree script.now)) (state_by (store_of machine.old) f)) host.old result
        (store_of machine.new) host.new }
{
    let number = machine.begin_script()?;
    let exit = run_script(
        machine,
        host,
        CALL_DEPTH_LIMIT,
        number,
        script.lines.as_slice(),
    )?;
    let Some(script) = script_behind(machine, host)? else {
        return Ok(Next::Exit(exit));
    };
    pay_script(machine)?;
    Ok(Next::Script(script))
}
