//! Lists, tuples and dicts made of other values.
ghost use Rattle.std.specs.Prelude.{◌≡◌, Ok, IfOk, OnOk, OnErr};
ghost use Rattle.py_builtins.specs.Collections.{items_cost, paid_items, list_of, tuple_of, dict_of};
ghost use Rattle.py_compare.specs.Outcomes.{FailsAs};

use py_compare::{copied_dict, iterable_bytes, iterable_items, iterable_texts, needed_length};
use py_heap::{Budget, Heap, Value, ValueFault};
use scons_base::Memory;
use scons_base::limits::LIST_LIMIT;

/// A list of all that a value gives.
pub(crate) fn list(heap: &mut Heap, budget: &mut Budget, value: Value) -> Result<Value, ValueFault>
    ensures ok { IfOk result (λ v. list_of heap.old budget.old value ≡ Ok (v, heap.new, budget.new)) }
    ensures fault { FailsAs result (list_of heap.old budget.old value) }
    ensures err { OnErr result (heap.new ≡ heap.old) }
{
    let count = needed_length(heap, value)?;
    items_room(heap, budget, value, count)?;
    let texts = iterable_texts(heap, value, count)?;
    let items = iterable_items(heap, value, heap.text_count(), count)?;
    let list = heap.add_list_with(texts, items)?;
    Ok(list)
}

/// A tuple of all that a value gives.
pub(crate) fn tuple(heap: &mut Heap, budget: &mut Budget, value: Value) -> Result<Value, ValueFault>
    ensures ok { IfOk result (λ v. tuple_of heap.old budget.old value ≡ Ok (v, heap.new, budget.new)) }
    ensures fault { FailsAs result (tuple_of heap.old budget.old value) }
    ensures err { OnErr result (heap.new ≡ heap.old) }
{
    let count = needed_length(heap, value)?;
    items_room(heap, budget, value, count)?;
    let texts = iterable_texts(heap, value, count)?;
    let items = iterable_items(heap, value, heap.text_count(), count)?;
    let tuple = heap.add_tuple_with(texts, items)?;
    Ok(tuple)
}

/// Charges for a list or tuple of so many items of a value.
fn items_room(
    heap: &Heap,
    budget: &mut Budget,
    value: Value,
    count: usize,
) -> Result<(), ValueFault>
    ensures ok { OnOk result (paid_items heap.now budget.old value count ≡ Ok budget.new) }
    ensures fault { FailsAs result (paid_items heap.now budget.old value count) }
{
    let cost = items_cost(heap, value, count)?;
    budget.charge(cost as u64)?;
    Ok(())
}

#[tactic(auto, using(py_compare::proofs::Limits::exact_limits))]
pub(crate) fn items_cost(heap: &Heap, value: Value, count: usize) -> Result<usize, ValueFault>
    ensures ok { IfOk result (λ n. items_cost heap.now value count ≡ Ok n) }
    ensures fault { FailsAs result (items_cost heap.now value count) }
{
    if count as u64 > LIST_LIMIT {
        return Err(ValueFault::TooBig(count as u64));
    }
    let bytes = iterable_bytes(heap, value, count);
    let cost = count.checked_add(bytes).ok_or(Memory)?;
    Ok(cost)
}

/// A new dict with the entries of another one.
pub(crate) fn dict(heap: &mut Heap, budget: &mut Budget, value: Value) -> Result<Value, ValueFault>
    ensures ok { IfOk result (λ v. dict_of heap.old budget.old value ≡ Ok (v, heap.new, budget.new)) }
    ensures fault { FailsAs result (dict_of heap.old budget.old value) }
    ensures err { OnErr result (heap.new ≡ heap.old) }
{
    match value {
        Value::Dict(dict) => copied_dict(heap, budget, dict),
        _ => Err(ValueFault::Mismatch(value.kind(), value.kind())),
    }
}
