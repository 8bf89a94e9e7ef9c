//! From the values that a call gives for a parameter to an argument of the parameter's kind.
ghost use Rattle.std.specs.Prelude.{◌≡◌, ◌≢◌, Ok, Err, IfOk, IfErr};
ghost use Rattle.scons_calls.specs.Binding.{one_by, single_by, converted_by};

use crate::argument::Argument;
use crate::exports::exports_of;
use crate::fault::CallFault;
use crate::nodes::{nodes, place};
use crate::objects::Objects;
use crate::replacing::pairs;
use crate::signature::Kind;
use crate::texts::{lines, names, text, texts};
use crate::words::{flag, mode};
use py_heap::{Heap, Value};

/// The argument that values are by a kind.
pub fn converted(
    heap: &Heap,
    objects: &Objects,
    kind: Kind,
    values: &[Value],
) -> Result<Argument, CallFault>
    ensures ok { IfOk result (λ a. converted_by heap.now objects.now kind values.now ≡ Ok a) }
    ensures fault { IfErr result (λ e. e ≢ CallFault.Memory →
        converted_by heap.now objects.now kind values.now ≡ Err e) }
{
    match kind {
        Kind::Nodes => Ok(Argument::Nodes(nodes(heap, objects, values)?)),
        Kind::Lines => Ok(Argument::Texts(lines(heap, values)?)),
        Kind::Names => Ok(Argument::Texts(names(heap, values)?)),
        Kind::Texts => Ok(Argument::Texts(texts(heap, values)?)),
        Kind::Exports => Ok(Argument::Exports(exports_of(heap, values)?)),
        kind => single(heap, objects, kind, values),
    }
}

/// One value, where there is one alone.
fn single(
    heap: &Heap,
    objects: &Objects,
    kind: Kind,
    values: &[Value],
) -> Result<Argument, CallFault>
    ensures ok { IfOk result (λ a. single_by heap.now objects.now kind values.now ≡ Ok a) }
    ensures fault { IfErr result (λ e. e ≢ CallFault.Memory → single_by heap.now objects.now kind values.now ≡ Err e) }
{
    match values {
        [value] => one(heap, objects, kind, *value),
        [] | [_, _, ..] => Err(CallFault::Arguments),
    }
}

fn one(heap: &Heap, objects: &Objects, kind: Kind, value: Value) -> Result<Argument, CallFault>
    ensures ok { IfOk result (λ a. one_by heap.now objects.now kind value ≡ Ok a) }
    ensures fault { IfErr result (λ e. e ≢ CallFault.Memory → one_by heap.now objects.now kind value ≡ Err e) }
{
    match kind {
        Kind::Text => Ok(Argument::Text(text(heap, value)?)),
        Kind::Pairs => Ok(Argument::Pairs(pairs(heap, value)?)),
        Kind::Place => Ok(Argument::Place(place(heap, objects, value)?)),
        Kind::Flag => Ok(Argument::Flag(flag(value)?)),
        Kind::Mode => Ok(Argument::Mode(mode(value)?)),
        Kind::True | Kind::False | Kind::None | Kind::Any => Ok(Argument::Any(value)),
        Kind::Nodes | Kind::Lines | Kind::Names | Kind::Texts | Kind::Exports => {
            Ok(Argument::Any(value))
        }
    }
}
