//! The comparisons.
ghost use Rattle.std.specs.Prelude.{◌≡◌, Ok, IfOk};
ghost use Rattle.py_compare.specs.Comparisons.{ordered, within_of, is_constant, is_among};
ghost use Rattle.py_compare.specs.Equality.{is_nil, equal_of};
ghost use Rattle.py_compare.specs.Outcomes.{FailsAs};

use crate::equal::{equal, place_of};
use crate::order::order_of;
use py_heap::{Budget, Heap, Value, ValueFault};
use scons_base::limits::VALUE_DEPTH_LIMIT;
use std::cmp::Ordering;

/// How two values are ordered, once their meeting is charged for.
pub fn ordered(heap: &Heap, budget: &mut Budget, a: Value, b: Value) -> Result<Ordering, ValueFault>
    ensures ok { IfOk result (λ o. ordered heap.now budget.old a b ≡ Ok (o, budget.new)) }
    ensures fault { FailsAs result (ordered heap.now budget.old a b) }
{
    budget.charge(1)?;
    let order = order_of(heap, a, b)?;
    Ok(order)
}

/// Whether a value stands in another one.
pub fn within(
    heap: &Heap,
    budget: &mut Budget,
    item: Value,
    owner: Value,
) -> Result<bool, ValueFault>
    ensures ok { IfOk result (λ x. within_of heap.now budget.old item owner ≡ Ok (x, budget.new)) }
    ensures fault { FailsAs result (within_of heap.now budget.old item owner) }
{
    match owner {
        Value::List(list) => is_among(heap, budget, heap.list_at(list), item),
        Value::Tuple(tuple) => is_among(heap, budget, heap.tuple_at(tuple), item),
        Value::Dict(dict) => {
            let Some(key) = heap.key_of(item)? else {
                return Err(ValueFault::KeyKind(item.kind()));
            };
            Ok(heap.entry_at(dict, &key).is_some())
        }
        Value::Text(text) => match item {
            Value::Text(part) => Ok(py_text::contains(heap.text_at(text), heap.text_at(part))),
            _ => Err(ValueFault::Mismatch(item.kind(), owner.kind())),
        },
        _ => Err(ValueFault::Mismatch(item.kind(), owner.kind())),
    }
}

fn is_among(
    heap: &Heap,
    budget: &mut Budget,
    items: &[Value],
    item: Value,
) -> Result<bool, ValueFault>
    ensures ok { IfOk result (λ x. is_among heap.now budget.old items.now item ≡ Ok (x, budget.new)) }
    ensures fault { FailsAs result (is_among heap.now budget.old items.now item) }
{
    let found = place_of(heap, budget, items, item)?;
    Ok(found.is_some())
}

/// Whether a value is that very constant.
pub fn is_constant(value: Value, constant: Value) -> bool
    ensures { result ≡ is_constant value constant }
{
    match constant {
        Value::Nil => match value {
            Value::Nil => true,
            _ => false,
        },
        Value::Bool(true) => match value {
            Value::Bool(flag) => flag,
            _ => false,
        },
        Value::Bool(false) => match value {
            Value::Bool(flag) => !flag,
            _ => false,
        },
        _ => false,
    }
}

/// Whether two values are equal.

pub fn same(heap: &Heap, budget: &mut Budget, a: Value, b: Value) -> Result<bool, ValueFault>
    ensures ok { IfOk result (λ x. equal_of heap.now budget.old a b ≡ Ok (x, budget.new)) }
    ensures fault { FailsAs result (equal_of heap.now budget.old a b) }
{
    equal(heap, budget, VALUE_DEPTH_LIMIT, a, b)
}
