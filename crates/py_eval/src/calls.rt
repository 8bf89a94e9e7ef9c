//! Calls, and the bodies and scripts that they run.
ghost use Rattle.std.specs.Prelude.{◌≤◌, ℕ, map};
ghost use Rattle.py_tree.specs.Tree.{trees, line_tree, script_tree};
ghost use Rattle.py_heap.specs.declared.value.Value.TheVariants as value;
ghost use Rattle.py_host.specs.Calls.{arguments_of, given_of};
ghost use Rattle.py_meaning.specs.Jobs.{a_value, exec_all, inner_script, reply};
ghost use Rattle.py_meaning.specs.States.{script_frame};
ghost use Rattle.py_meaning.specs.Calls.{begun};
ghost use Rattle.py_meaning.specs.Evaluates.{plan};
ghost use Rattle.py_state.specs.Stores.{store_of, state_of, state_by};
ghost use Rattle.py_steps.specs.Todos.{callee};
ghost use Rattle.py_steps.specs.Leads.{left_with, left_at};
ghost use Rattle.py_eval.specs.Bodies.{GivesOrHalts, LeadsOrHalts, FlowsOrHalts, EndsOrHalts, IsOverOrStops};

use crate::asking::{pay_script, reply_to_call, reply_to_end};
use crate::opening::{opened, plain, unfitting};
use crate::operations::{do_builtin, do_method};
use py_builtins::takes;
use py_heap::{FuncId, HostId, Value};
use py_host::{Args, Host, Reply};
use py_meaning::{Called, EvalKind, Exit};
use py_methods::Name;
use py_state::{Frame, Machine, Stop, arguments_by, bound, fault};
use py_steps::{Desk, Flow, Task};
use py_tree::{Argument, Line, Script};

/// Runs the lines of a script that has begun: whether the host ended it.
#[cycle(calls)]
pub(crate) fn run_script<H: Host>(
    machine: &mut Machine,
    host: &mut H,
    calls: u32,
    number: u64,
    lines: &[Line],
) -> Result<Exit, Stop>
    ensures keeps { H.meaning.keeps host.old host.new }
    ensures over { IsOverOrStops H.meaning calls
        (plan (exec_all (trees (map line_tree lines.now))) (state_by (store_of machine.old) (script_frame number)))
        host.old result (store_of machine.new) host.new }
{
    let mut frame = Frame::of_script(machine.alloc, number);
    match run_body(machine, host, &mut frame, calls, lines) {
        Ok(_) => Ok(Exit::End),
        Err(Stop::End) => Ok(Exit::Returned),
        Err(stop) => Err(stop),
    }
}

/// Runs the lines of a body: what it returns, if it returns.
#[cycle(calls)]
fn run_body<H: Host>(
    machine: &mut Machine,
    host: &mut H,
    frame: &mut Frame,
    calls: u32,
    lines: &[Line],
) -> Result<Option<Value>, Stop>
    ensures keeps { H.meaning.keeps host.old host.new }
    ensures ends { EndsOrHalts H.meaning calls
        (plan (exec_all (trees (map line_tree lines.now))) (state_of machine.old frame.old))
        host.old result (state_of machine.new frame.new) host.new }
{
    let mut desk = Desk::new(machine.alloc);
    desk.push(Task::Lines(lines))?;
    'tasks: for _ in 0..u64::MAX {
        let Some(task) = desk.next() else {
            return Ok(None);
        };
        match step(machine, host, frame, calls, &mut desk, task)? {
            Flow::GoesOn => {}
            Flow::Returns(value) => return Ok(Some(value)),
        }
    }
    Err(Stop::Memory)
}

/// Does a task.
#[cycle(calls)]
fn step<'a, H: Host>(
    machine: &mut Machine,
    host: &mut H,
    frame: &mut Frame,
    calls: u32,
    desk: &mut Desk<'a>,
    task: Task<'a>,
) -> Result<Flow, Stop>
    ensures keeps { H.meaning.keeps host.old host.new }
    ensures flows { FlowsOrHalts H.meaning calls (left_with task.entry desk.old machine.old frame.old) host.old result
        (left_at desk.new machine.new frame.new) (state_of machine.new frame.new) host.new }
{
    match task {
        Task::Call {
            line,
            method,
            arguments,
            base,
        } => {
            call_task(
                machine, host, frame, calls, desk, line, method, arguments, base,
            )?;
            Ok(Flow::GoesOn)
        }
        _ => py_steps::step(machine, host, frame, desk, task),
    }
}

/// Calls the value below its arguments, which stand above a height, or its method.
#[cycle(calls)]
fn call_task<'a, H: Host>(
    machine: &mut Machine,
    host: &mut H,
    frame: &Frame,
    calls: u32,
    desk: &mut Desk<'a>,
    line: u32,
    method: Option<Name>,
    arguments: &'a [Argument],
    base: usize,
) -> Result<(), Stop>
    ensures keeps { H.meaning.keeps host.old host.new }
    ensures leads { LeadsOrHalts H.meaning calls
        (left_with (Task.Call line method arguments.entry base) desk.old machine.old frame.now)
        host.old result (λ _. left_at desk.new machine.new frame.now) (state_of machine.new frame.now) host.new }
{
    let values = desk.take_above(base)?;
    let called = desk.take();
    let args = arguments_by(machine.alloc, arguments, values.as_slice())?;
    machine.pay(frame, line)?;
    let value = call(machine, host, frame, calls, line, called, method, &args)?;
    desk.give(value)?;
    Ok(())
}

/// A call that is paid for: first what is called is looked at, then its arguments, then how many calls are open.
#[cycle(calls)]
fn call<H: Host>(
    machine: &mut Machine,
    host: &mut H,
    frame: &Frame,
    calls: u32,
    line: u32,
    called: Value,
    method: Option<Name>,
    args: &Args,
) -> Result<Value, Stop>
    ensures keeps { H.meaning.keeps host.old host.new }
    ensures gives { GivesOrHalts H.meaning calls
        (begun line (callee called method) (arguments_of args.now) (state_of machine.old frame.now))
        host.old result (state_of machine.new frame.now) host.new }
{
    let positional = args.positional.as_slice();
    match method {
        Some(name) => {
            plain(
                frame,
                line,
                args,
                name.takes(positional.len()),
                Called::Method(name),
            )?;
            let _inside = opened(frame, line, calls)?;
            do_method(machine, frame, line, called, name, positional)
        }
        None => match called {
            Value::Func(id) => call_function(machine, host, frame, calls, line, id, args),
            Value::Builtin(builtin) => {
                plain(
                    frame,
                    line,
                    args,
                    takes(builtin, positional.len()),
                    Called::Builtin(builtin),
                )?;
                let _inside = opened(frame, line, calls)?;
                do_builtin(machine, host, frame, line, builtin, positional)
            }
            Value::Object(object) => call_object(machine, host, frame, calls, line, object, args),
            _ => Err(fault(frame, line, EvalKind::NotCallable)),
        },
    }
}

/// Runs the body of a function with the names that the arguments set.
#[cycle(calls)]
fn call_function<H: Host>(
    machine: &mut Machine,
    host: &mut H,
    frame: &Frame,
    calls: u32,
    line: u32,
    id: FuncId,
    args: &Args,
) -> Result<Value, Stop>
    ensures keeps { H.meaning.keeps host.old host.new }
    ensures gives { GivesOrHalts H.meaning calls
        (begun line (a_value (value.Func id)) (arguments_of args.now) (state_of machine.old frame.now))
        host.old result (state_of machine.new frame.now) host.new }
{
    let Some(function) = machine.function(id)? else {
        return Err(fault(frame, line, EvalKind::NotCallable));
    };
    let Some(names) = bound(machine.alloc, &function, args)? else {
        return Err(unfitting(frame, line, &function));
    };
    let inside = opened(frame, line, calls)?;
    let body = function.body.clone()?;
    let mut own = Frame::of_function(machine.alloc, frame.running, function, names);
    match run_body(machine, host, &mut own, inside, body.as_slice())? {
        Some(value) => Ok(value),
        None => Ok(Value::Nil),
    }
}

/// Calls an object, and does what the host replies.
#[cycle(calls)]
fn call_object<H: Host>(
    machine: &mut Machine,
    host: &mut H,
    frame: &Frame,
    calls: u32,
    line: u32,
    object: HostId,
    args: &Args,
) -> Result<Value, Stop>
    ensures keeps { H.meaning.keeps host.old host.new }
    ensures gives { GivesOrHalts H.meaning calls
        (begun line (a_value (value.Object object)) (arguments_of args.now) (state_of machine.old frame.now))
        host.old result (state_of machine.new frame.now) host.new }
{
    let inside = opened(frame, line, calls)?;
    let mut reply = reply_to_call(machine, host, frame, line, object, args)?;
    'scripts: for _ in 0..u64::MAX {
        match reply {
            Reply::Value(value) => return Ok(value),
            Reply::Names(names) => {
                machine.set_globals(frame.running, &names)?;
                return Ok(Value::Nil);
            }
            Reply::Return => return Err(Stop::End),
            Reply::Script(script) => {
                reply = run_inner(machine, host, frame, inside, line, &script)?;
            }
        }
    }
    Err(Stop::Memory)
}

/// Runs a script that a call began, and asks the host for the reply to the call. A script behind it is paid for.
#[cycle(calls)]
fn run_inner<H: Host>(
    machine: &mut Machine,
    host: &mut H,
    frame: &Frame,
    calls: u32,
    line: u32,
    script: &Script,
) -> Result<Reply, Stop>
    ensures keeps { H.meaning.keeps host.old host.new }
    ensures leads { LeadsOrHalts H.meaning calls
        (plan (inner_script line (script_tree script.now)) (state_of machine.old frame.now))
        host.old result (λ r. plan (reply line (given_of r)) (state_of machine.new frame.now))
        (state_of machine.new frame.now) host.new }
{
    let number = machine.begin_script()?;
    let _exit = run_script(machine, host, calls, number, script.lines.as_slice())?;
    let reply = reply_to_end(machine, host, frame, line, number)?;
    if let Reply::Script(_) = &reply {
        pay_script(machine)?;
        return Ok(reply);
    }
    Ok(reply)
}
