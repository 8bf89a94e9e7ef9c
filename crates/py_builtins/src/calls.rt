//! The built-in functions by their names.
ghost use Rattle.std.specs.Prelude.{◌≡◌, Ok, IfOk, OnErr};
ghost use Rattle.py_builtins.specs.Builtins.{builtin_of};
ghost use Rattle.py_compare.specs.Outcomes.{FailsAs};

use crate::collections::{dict, list, tuple};
use crate::empty::{empty_dict, empty_list, empty_text, empty_tuple};
use crate::numbers::{int, len, range, str};
use crate::rows::enumerate;
use crate::sorting::sorted;
use crate::zips::zip;
use py_heap::{Budget, Builtin, Heap, Value, ValueFault, settled, truth};

/// What a built-in function gives. A number of arguments that it doesn't take is refused before the call, as `takes` tells
/// it, and `print` is done by whoever runs the script. A call that fails leaves the heap and the units as they were.
pub fn call_builtin(
    heap: &mut Heap,
    budget: &mut Budget,
    b: Builtin,
    args: &[Value],
) -> Result<Value, ValueFault>
    ensures ok { IfOk result (λ v. builtin_of heap.old budget.old b args.now ≡ Ok (v, heap.new, budget.new)) }
    ensures fault { FailsAs result (builtin_of heap.old budget.old b args.now) }
    ensures err { OnErr result (heap.new ≡ heap.old) }
    ensures unpaid { OnErr result (budget.new ≡ budget.old) }
{
    let before = budget.copy();
    let answer = builtin_of(heap, budget, b, args);
    settled(budget, before, answer)
}

/// The same, but for the units after a fault.
fn builtin_of(
    heap: &mut Heap,
    budget: &mut Budget,
    b: Builtin,
    args: &[Value],
) -> Result<Value, ValueFault>
    ensures ok { IfOk result (λ v. builtin_of heap.old budget.old b args.now ≡ Ok (v, heap.new, budget.new)) }
    ensures fault { FailsAs result (builtin_of heap.old budget.old b args.now) }
    ensures err { OnErr result (heap.new ≡ heap.old) }
{
    match b {
        Builtin::Len => match args {
            [value] => len(heap, budget, *value),
            _ => Err(ValueFault::NoMethod),
        },
        Builtin::Range => match args {
            [to] => range(heap, budget, Value::Int(0), *to),
            [from, to] => range(heap, budget, *from, *to),
            _ => Err(ValueFault::NoMethod),
        },
        Builtin::Enumerate => match args {
            [value] => enumerate(heap, budget, *value, Value::Int(0)),
            [value, from] => enumerate(heap, budget, *value, *from),
            _ => Err(ValueFault::NoMethod),
        },
        Builtin::Zip => zip(heap, budget, args),
        Builtin::Str => match args {
            [] => empty_text(heap, budget),
            [value] => str(heap, budget, *value),
            _ => Err(ValueFault::NoMethod),
        },
        Builtin::Int => match args {
            [] => Ok(Value::Int(0)),
            [value] => Ok(Value::Int(int(heap, *value)?)),
            _ => Err(ValueFault::NoMethod),
        },
        Builtin::Bool => match args {
            [] => Ok(Value::Bool(false)),
            [value] => Ok(Value::Bool(truth(heap, *value))),
            _ => Err(ValueFault::NoMethod),
        },
        Builtin::List => match args {
            [] => empty_list(heap, budget),
            [value] => list(heap, budget, *value),
            _ => Err(ValueFault::NoMethod),
        },
        Builtin::Tuple => match args {
            [] => empty_tuple(heap, budget),
            [value] => tuple(heap, budget, *value),
            _ => Err(ValueFault::NoMethod),
        },
        Builtin::Dict => match args {
            [] => empty_dict(heap, budget),
            [value] => dict(heap, budget, *value),
            _ => Err(ValueFault::NoMethod),
        },
        Builtin::Sorted => match args {
            [value] => sorted(heap, budget, *value),
            _ => Err(ValueFault::NoMethod),
        },
        Builtin::Print => Err(ValueFault::NoMethod),
    }
}
