//! The arithmetic operators.
ghost use Rattle.std.specs.Prelude.{◌≡◌, Ok, IfOk, OnErr};
ghost use Rattle.py_operators.specs.Arithmetic.{sum_of, difference_of, quotient_of, product_of, negative_of};
ghost use Rattle.py_compare.specs.Outcomes.{FailsAs};

use crate::joining::{join_lists, join_tuples, repeat_list, repeat_tuple};
use crate::texts::{join_texts, repeat_text};
use py_compare::{floor_div, minus, negative, plus, times};
use py_heap::{Budget, Heap, Value, ValueFault};

/// `+`
pub(crate) fn sum(
    heap: &mut Heap,
    budget: &mut Budget,
    a: Value,
    b: Value,
) -> Result<Value, ValueFault>
    ensures ok { IfOk result (λ v. sum_of heap.old budget.old a b ≡ Ok (v, heap.new, budget.new)) }
    ensures fault { FailsAs result (sum_of heap.old budget.old a b) }
    ensures err { OnErr result (heap.new ≡ heap.old) }
{
    match a {
        Value::Int(number) => match b {
            Value::Int(other) => Ok(Value::Int(plus(number, other)?)),
            _ => Err(ValueFault::Mismatch(a.kind(), b.kind())),
        },
        Value::Text(text) => match b {
            Value::Text(other) => join_texts(heap, budget, text, other),
            _ => Err(ValueFault::Mismatch(a.kind(), b.kind())),
        },
        Value::List(list) => match b {
            Value::List(other) => join_lists(heap, budget, list, other),
            _ => Err(ValueFault::Mismatch(a.kind(), b.kind())),
        },
        Value::Tuple(tuple) => match b {
            Value::Tuple(other) => join_tuples(heap, budget, tuple, other),
            _ => Err(ValueFault::Mismatch(a.kind(), b.kind())),
        },
        _ => Err(ValueFault::Mismatch(a.kind(), b.kind())),
    }
}

/// `-`
pub(crate) fn difference(
    heap: &Heap,
    budget: &mut Budget,
    a: Value,
    b: Value,
) -> Result<Value, ValueFault>
    ensures ok { IfOk result (λ v. difference_of heap.now budget.old a b ≡ Ok (v, heap.now, budget.new)) }
    ensures fault { FailsAs result (difference_of heap.now budget.old a b) }
{
    match a {
        Value::Int(number) => match b {
            Value::Int(other) => Ok(Value::Int(minus(number, other)?)),
            _ => Err(ValueFault::Mismatch(a.kind(), b.kind())),
        },
        _ => Err(ValueFault::Mismatch(a.kind(), b.kind())),
    }
}

/// `//`
pub(crate) fn quotient(
    heap: &Heap,
    budget: &mut Budget,
    a: Value,
    b: Value,
) -> Result<Value, ValueFault>
    ensures ok { IfOk result (λ v. quotient_of heap.now budget.old a b ≡ Ok (v, heap.now, budget.new)) }
    ensures fault { FailsAs result (quotient_of heap.now budget.old a b) }
{
    match a {
        Value::Int(number) => match b {
            Value::Int(other) => Ok(Value::Int(floor_div(number, other)?)),
            _ => Err(ValueFault::Mismatch(a.kind(), b.kind())),
        },
        _ => Err(ValueFault::Mismatch(a.kind(), b.kind())),
    }
}

/// `*`
pub(crate) fn product(
    heap: &mut Heap,
    budget: &mut Budget,
    a: Value,
    b: Value,
) -> Result<Value, ValueFault>
    ensures ok { IfOk result (λ v. product_of heap.old budget.old a b ≡ Ok (v, heap.new, budget.new)) }
    ensures fault { FailsAs result (product_of heap.old budget.old a b) }
    ensures err { OnErr result (heap.new ≡ heap.old) }
{
    match a {
        Value::Int(number) => match b {
            Value::Int(other) => Ok(Value::Int(times(number, other)?)),
            Value::Text(text) => repeat_text(heap, budget, text, number),
            Value::List(list) => repeat_list(heap, budget, list, number),
            Value::Tuple(tuple) => repeat_tuple(heap, budget, tuple, number),
            _ => Err(ValueFault::Mismatch(a.kind(), b.kind())),
        },
        Value::Text(text) => match b {
            Value::Int(number) => repeat_text(heap, budget, text, number),
            _ => Err(ValueFault::Mismatch(a.kind(), b.kind())),
        },
        Value::List(list) => match b {
            Value::Int(number) => repeat_list(heap, budget, list, number),
            _ => Err(ValueFault::Mismatch(a.kind(), b.kind())),
        },
        Value::Tuple(tuple) => match b {
            Value::Int(number) => repeat_tuple(heap, budget, tuple, number),
            _ => Err(ValueFault::Mismatch(a.kind(), b.kind())),
        },
        _ => Err(ValueFault::Mismatch(a.kind(), b.kind())),
    }
}

/// The sign turned.
pub(crate) fn negative_of(
    heap: &mut Heap,
    budget: &mut Budget,
    a: Value,
) -> Result<Value, ValueFault>
    ensures ok { IfOk result (λ v. negative_of heap.old budget.old a ≡ Ok (v, heap.new, budget.new)) }
    ensures fault { FailsAs result (negative_of heap.old budget.old a) }
    ensures err { OnErr result (heap.new ≡ heap.old) }
{
    match a {
        Value::Int(number) => Ok(Value::Int(negative(number)?)),
        _ => Err(ValueFault::Mismatch(a.kind(), a.kind())),
    }
}
