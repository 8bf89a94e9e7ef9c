//! Calls of built-in functions and of methods, which are open.
ghost use Rattle.std.specs.Prelude.{◌≤◌, [], ℕ};
ghost use Rattle.py_heap.specs.declared.value.Value.TheVariants as value;
ghost use Rattle.py_meaning.specs.Jobs.{a_value, a_method};
ghost use Rattle.py_builtins.specs.Builtins.{builtin_of};
ghost use Rattle.py_meaning.specs.Plans.{made};
ghost use Rattle.py_meaning.specs.Calls.{plan_perform};
ghost use Rattle.py_state.specs.Stores.{state_of};
ghost use Rattle.py_eval.specs.Bodies.{GivesAlone, GivesOrHalts};

use crate::printing::print;
use py_builtins::call_builtin;
use py_heap::{Builtin, Value};
use py_host::Host;
use py_methods::{Name, method};
use py_state::{Frame, Machine, Stop, value_fault};

/// What a method of a value gives.
pub(crate) fn do_method(
    machine: &mut Machine,
    frame: &Frame,
    line: u32,
    value: Value,
    name: Name,
    args: &[Value],
) -> Result<Value, Stop>
    ensures { GivesAlone
        (plan_perform line (a_method value name) (record { positional = args.now; named = [] })
        (state_of machine.old frame.now))
        result (state_of machine.new frame.now) }
{
    match method(&mut machine.heap, &mut machine.budget, value, name, args) {
        Ok(value) => Ok(value),
        Err(fault) => Err(value_fault(frame, line, fault)),
    }
}

/// What a built-in function gives.
pub(crate) fn do_builtin<H: Host>(
    machine: &mut Machine,
    host: &mut H,
    frame: &Frame,
    line: u32,
    builtin: Builtin,
    args: &[Value],
) -> Result<Value, Stop>
    ensures keeps { H.meaning.keeps host.old host.new }
    ensures gives { (c : ℕ) → GivesOrHalts H.meaning c
        (plan_perform line (a_value (value.Builtin builtin)) (record { positional = args.now; named = [] })
        (state_of machine.old frame.now))
        host.old result (state_of machine.new frame.now) host.new }
{
    match builtin {
        Builtin::Print => print(machine, host, frame, line, args),
        _ => do_alone(machine, frame, line, builtin, args),
    }
}

/// What one gives that prints nothing.
fn do_alone(
    machine: &mut Machine,
    frame: &Frame,
    line: u32,
    builtin: Builtin,
    args: &[Value],
) -> Result<Value, Stop>
    ensures { GivesAlone (made line (state_of machine.old frame.now)
        (builtin_of machine.old.heap machine.old.budget builtin args.now)) result (state_of machine.new frame.now) }
{
    match call_builtin(&mut machine.heap, &mut machine.budget, builtin, args) {
        Ok(value) => Ok(value),
        Err(fault) => Err(value_fault(frame, line, fault)),
    }
}
