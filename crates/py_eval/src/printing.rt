//! The built-in function `print`.
ghost use Rattle.std.specs.Prelude.{◌≡◌, ◌≢◌, ◌≤◌, [], ℕ, Ok, Err, IfOk, IfErr};
ghost use Rattle.std.specs.String.{string_bytes};
ghost use Rattle.py_heap.specs.declared.value.Value.TheVariants as value;
ghost use Rattle.py_meaning.specs.Jobs.{a_value};
ghost use Rattle.py_meaning.specs.Calls.{printed, plan_perform};
ghost use Rattle.py_state.specs.Stores.{store_of, state_of};
ghost use Rattle.py_eval.specs.Bodies.{GivesOrHalts};

use py_compare::show;
use py_heap::{Builtin, Value, ValueFault};
use py_host::Host;
use py_state::{Frame, Machine, Stop, refused, value_fault};

/// Prints values with spaces between them, and a line feed.
pub(crate) fn print<H: Host>(
    machine: &mut Machine,
    host: &mut H,
    frame: &Frame,
    line: u32,
    values: &[Value],
) -> Result<Value, Stop>
    ensures keeps { H.meaning.keeps host.old host.new }
    ensures gives { (c : ℕ) → GivesOrHalts H.meaning c
        (plan_perform line (a_value (value.Builtin Builtin.Print)) (record { positional = values.now; named = [] })
        (state_of machine.old frame.now))
        host.old result (state_of machine.new frame.now) host.new }
{
    let text = match printed(machine, values) {
        Ok(text) => text,
        Err(fault) => return Err(value_fault(frame, line, fault)),
    };
    match host.print(text.as_str()) {
        Ok(()) => Ok(Value::Nil),
        Err(refusal) => Err(refused(frame, line, refusal)),
    }
}

/// What is printed.
fn printed(machine: &mut Machine, values: &[Value]) -> Result<String, ValueFault>
    ensures ok { IfOk result (λ text.
        printed machine.old.heap machine.old.budget values.now ≡ Ok (string_bytes text, machine.new.budget)) }
    ensures fault { IfErr result (λ e.
        e ≢ ValueFault.Memory → printed machine.old.heap machine.old.budget values.now ≡ Err e) }
    ensures stays { store_of machine.new ≡ record (store_of machine.old) { units = machine.new.budget } }
{
    let mut text = String::new(machine.alloc);
    'values: for (place, value) in values.iter().enumerate() {
        if place > 0 {
            text.push(' ')?;
        }
        let shown = show(&machine.heap, &mut machine.budget, *value, false)?;
        text.push_str(shown.as_str())?;
    }
    text.push('\n')?;
    Ok(text)
}
