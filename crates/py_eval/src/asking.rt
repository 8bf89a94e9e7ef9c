//! Questions to the host that scripts and calls of objects come to.
ghost use Rattle.std.specs.Prelude.{◌≤◌, ℕ, Option};
ghost use Rattle.py_tree.specs.Tree.{Tree};
ghost use Rattle.py_host.specs.Calls.{Given, next_script, arguments_of, given_of, tree_of};
ghost use Rattle.py_meaning.specs.States.{State, Frame as Place};
ghost use Rattle.py_meaning.specs.Plans.{Plan, asks, asked_on};
ghost use Rattle.py_meaning.specs.Calls.{call_question, end_question, next_place, paid_script};
ghost use Rattle.py_state.specs.Stores.{store_of, state_of, state_by};
ghost use Rattle.py_steps.specs.Leads.{Steps};
ghost use Rattle.py_eval.specs.Bodies.{LeadsOrStops};

use py_heap::HostId;
use py_host::{Args, Host, Reply};
use py_state::{Frame, Machine, Stop, ask_call, ask_done, refused};
use py_tree::Script;

/// What the host replies to the call of an object.
pub(crate) fn reply_to_call<H: Host>(
    machine: &mut Machine,
    host: &mut H,
    frame: &Frame,
    line: u32,
    object: HostId,
    args: &Args,
) -> Result<Reply, Stop>
    ensures keeps { H.meaning.keeps host.old host.new }
    ensures leads { (c : ℕ) (k : Given → State → Plan) → LeadsOrStops H.meaning c
        (asked_on line (call_question line object.0 (arguments_of args.now) (state_of machine.old frame.now))
        (state_of machine.old frame.now) k)
        host.old result (λ reply. k (given_of reply) (state_of machine.new frame.now)) host.new }
{
    match ask_call(machine, host, frame, line, object, args) {
        Ok(reply) => Ok(reply),
        Err(refusal) => Err(refused(frame, line, refusal)),
    }
}

/// What it replies to that call once a script that the call began has ended.
pub(crate) fn reply_to_end<H: Host>(
    machine: &mut Machine,
    host: &mut H,
    frame: &Frame,
    line: u32,
    script: u64,
) -> Result<Reply, Stop>
    ensures keeps { H.meaning.keeps host.old host.new }
    ensures leads { (c : ℕ) (k : Given → State → Plan) → LeadsOrStops H.meaning c
        (asked_on line (end_question script (state_of machine.old frame.now)) (state_of machine.old frame.now) k)
        host.old result (λ reply. k (given_of reply) (state_of machine.new frame.now)) host.new }
{
    match ask_done(machine, host, script) {
        Ok(reply) => Ok(reply),
        Err(refusal) => Err(refused(frame, line, refusal)),
    }
}

/// The first script behind one that has ended. A refusal is told of the script that would be next, on its first line.
pub(crate) fn script_behind<H: Host>(
    machine: &mut Machine,
    host: &mut H,
) -> Result<Option<Script>, Stop>
    ensures keeps { H.meaning.keeps host.old host.new }
    ensures leads { (c : ℕ) (f : Place) (k : Option Tree → State → Plan) → LeadsOrStops H.meaning c
        (asks next_script (state_by (store_of machine.old) f) (next_place (state_by (store_of machine.old) f)) k)
        host.old result (λ next. k (tree_of next) (state_by (store_of machine.new) f)) host.new }
{
    let frame = Frame::of_script(machine.alloc, machine.globals.len() as u64);
    match host.next_script(&mut machine.heap) {
        Ok(next) => Ok(next),
        Err(refusal) => Err(refused(&frame, 1, refusal)),
    }
}

/// One unit for a script that begins behind another one, on its first line.
pub(crate) fn pay_script(machine: &mut Machine) -> Result<(), Stop>
    ensures { (f : Place) (k : State → Plan) → Steps (paid_script (state_by (store_of machine.old) f) k) result
        (k (state_by (store_of machine.new) f)) }
{
    let frame = Frame::of_script(machine.alloc, machine.globals.len() as u64);
    machine.pay(&frame, 1)
}
