//! Methods by the kind that they belong to.
ghost use Rattle.std.specs.Prelude.{◌≡◌, Ok, IfOk, OnErr};
ghost use Rattle.py_methods.specs.Calls.{method_of};
ghost use Rattle.py_compare.specs.Outcomes.{FailsAs};

use crate::methods::{dict_method, list_method};
use crate::name::Name;
use crate::text_methods::text_method;
use py_heap::{Budget, Heap, Value, ValueFault, settled};

/// What a method of a value gives. A number of arguments that it doesn't take is refused before the call. A call that fails
/// leaves the heap and the units as they were.
pub fn method(
    heap: &mut Heap,
    budget: &mut Budget,
    a: Value,
    name: Name,
    args: &[Value],
) -> Result<Value, ValueFault>
    ensures ok { IfOk result (λ v. method_of heap.old budget.old a name args.now ≡ Ok (v, heap.new, budget.new)) }
    ensures fault { FailsAs result (method_of heap.old budget.old a name args.now) }
    ensures err { OnErr result (heap.new ≡ heap.old) }
    ensures unpaid { OnErr result (budget.new ≡ budget.old) }
{
    let before = budget.copy();
    let answer = method_of(heap, budget, a, name, args);
    settled(budget, before, answer)
}

/// The same, but for the units after a fault.
fn method_of(
    heap: &mut Heap,
    budget: &mut Budget,
    a: Value,
    name: Name,
    args: &[Value],
) -> Result<Value, ValueFault>
    ensures ok { IfOk result (λ v. method_of heap.old budget.old a name args.now ≡ Ok (v, heap.new, budget.new)) }
    ensures fault { FailsAs result (method_of heap.old budget.old a name args.now) }
    ensures err { OnErr result (heap.new ≡ heap.old) }
{
    match a {
        Value::Text(text) => text_method(heap, budget, text, name, args),
        Value::List(list) => list_method(heap, budget, list, name, args),
        Value::Dict(dict) => dict_method(heap, budget, dict, name, args),
        _ => Err(ValueFault::NoMethod),
    }
}
