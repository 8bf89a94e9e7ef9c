//! What names stand for.
ghost use Rattle.std.specs.Prelude.{◌≡◌, ◌≢◌, ◌≤◌, IfOk, IfErr, Some, None, [], slice_index_or};
ghost use Rattle.py_host.specs.Meaning.{Meaning};
ghost use Rattle.py_meaning.specs.Lookup.{builtin_named, found_in, global_found};
ghost use Rattle.py_state.specs.Stores.{state_of};
ghost use Rattle.py_state.specs.Lookups.{found_of, IsNamed, IsUnnamed};
ghost use Rattle.py_state.specs.Stops.{refusals_told};

use crate::frame::Frame;
use crate::machine::Machine;
use crate::stop::{Stop, fault};
use py_heap::{Builtin, Value};
use py_host::Host;
use py_meaning::EvalKind;
use scons_base::Text;

/// What scripts and the language know of a name.
#[derive(Clone, Copy)]
pub enum Found {
    Value(Value),
    /// A local name that isn't set.
    Unset,
    Outside,
}

/// The value of a name.
pub fn named<H: Host>(
    machine: &Machine,
    host: &mut H,
    frame: &Frame,
    line: u32,
    name: &Text,
) -> Result<Value, Stop>
    ensures ok { IfOk result (λ v.
        IsNamed H.meaning (found_in (state_of machine.now frame.now) name.now) name.now host.old v host.new) }
    ensures fault { IfErr result (IsUnnamed H.meaning (found_in (state_of machine.now frame.now) name.now)
        frame.now.script line name.now host.old host.new) }
    ensures keeps { H.meaning.keeps host.old host.new }
    ensures own { IfErr result (λ e. refusals_told e ≡ 0) }
{
    match found_in(machine, frame, name) {
        Found::Value(value) => Ok(value),
        Found::Unset => Err(unknown(frame, line, name)),
        Found::Outside => match host.name(name.as_str()) {
            Some(value) => Ok(value),
            None => Err(unknown(frame, line, name)),
        },
    }
}

fn unknown(frame: &Frame, line: u32, name: &Text) -> Stop
    ensures named { result ≢ Stop.Memory → result ≡ Stop.Fault frame.now.script line (EvalKind.Name name.now) }
    ensures own { refusals_told result ≡ 0 }
{
    match name.copy() {
        Ok(name) => fault(frame, line, EvalKind::Name(name)),
        Err(_) => Stop::Memory,
    }
}

fn found_in(machine: &Machine, frame: &Frame, name: &Text) -> Found
    ensures { found_of result ≡ found_in (state_of machine.now frame.now) name.now }
{
    if let Some(value) = frame.inner_value(name) {
        return Found::Value(value);
    }
    match &frame.function {
        Some(function) => {
            if function.locals.contains(name) {
                match frame.values.get(name.as_str()) {
                    Some(value) => Found::Value(value),
                    None => Found::Unset,
                }
            } else {
                global_found(machine, frame.script, name)
            }
        }
        None => global_found(machine, frame.script, name),
    }
}

fn global_found(machine: &Machine, script: u64, name: &Text) -> Found
    ensures { found_of result ≡ global_found (slice_index_or machine.now.globals.items script []) name.now }
{
    match machine.global(script, name) {
        Some(value) => Found::Value(value),
        None => match builtin_named(name.as_str()) {
            Some(builtin) => Found::Value(Value::Builtin(builtin)),
            None => Found::Outside,
        },
    }
}

fn builtin_named(name: &str) -> Option<Builtin>
    ensures { result ≡ builtin_named name.now }
{
    match name {
        "len" => Some(Builtin::Len),
        "range" => Some(Builtin::Range),
        "str" => Some(Builtin::Str),
        "int" => Some(Builtin::Int),
        "bool" => Some(Builtin::Bool),
        "list" => Some(Builtin::List),
        "tuple" => Some(Builtin::Tuple),
        "dict" => Some(Builtin::Dict),
        "sorted" => Some(Builtin::Sorted),
        "enumerate" => Some(Builtin::Enumerate),
        "zip" => Some(Builtin::Zip),
        "print" => Some(Builtin::Print),
        _ => None,
    }
}
