//! Lengths, integers and what values show.
ghost use Rattle.std.specs.Prelude.{◌≡◌, Ok, IfOk, OnErr};
ghost use Rattle.py_text.specs.Numbers.{int_of as spelled_number};
ghost use Rattle.py_builtins.specs.Numbers.{len_of, span, counted, range_list, as_int, range_of, number_or_fault};
ghost use Rattle.py_builtins.specs.Numbers.{int_of, str_of};
ghost use Rattle.py_compare.specs.Outcomes.{FailsAs};

use py_compare::{above_zero, needed_length, show};
use py_heap::{Budget, Heap, Value, ValueFault, Values, list_room, text_room};
use py_text::IntFault;
use scons_base::Memory;
use std::alloc::Global;

/// How many characters, items or keys.
pub(crate) fn len(heap: &Heap, budget: &mut Budget, value: Value) -> Result<Value, ValueFault>
    ensures ok { IfOk result (λ v. len_of heap.now budget.old value ≡ Ok (v, heap.now, budget.new)) }
    ensures fault { FailsAs result (len_of heap.now budget.old value) }
{
    let length = needed_length(heap, value)?;
    Ok(Value::Int(above_zero(length as u64)?))
}

/// The integers from one on and below another one.
pub(crate) fn range(
    heap: &mut Heap,
    budget: &mut Budget,
    from: Value,
    to: Value,
) -> Result<Value, ValueFault>
    ensures ok { IfOk result (λ v. range_of heap.old budget.old from to ≡ Ok (v, heap.new, budget.new)) }
    ensures fault { FailsAs result (range_of heap.old budget.old from to) }
    ensures err { OnErr result (heap.new ≡ heap.old) }
{
    let from = as_int(from)?;
    let to = as_int(to)?;
    range_list(heap, budget, from, to)
}

pub(crate) fn as_int(value: Value) -> Result<i64, ValueFault>
    ensures { result ≡ as_int value }
{
    match value {
        Value::Int(number) => Ok(number),
        _ => Err(ValueFault::Mismatch(value.kind(), value.kind())),
    }
}

fn range_list(heap: &mut Heap, budget: &mut Budget, from: i64, to: i64) -> Result<Value, ValueFault>
    ensures ok { IfOk result (λ v. range_list heap.old budget.old from to ≡ Ok (v, heap.new, budget.new)) }
    ensures fault { FailsAs result (range_list heap.old budget.old from to) }
    ensures err { OnErr result (heap.new ≡ heap.old) }
{
    list_room(budget, span(from, to))?;
    let made = counted(heap.allocator(), from, to)?;
    let list = heap.add_list(made)?;
    Ok(list)
}

/// How many integers there are from one on and below another one.
#[tactic(auto, using(crate::proofs::Counting::gaps))]
fn span(from: i64, to: i64) -> u64
    ensures { result ≡ span from to }
{
    if from < to {
        (to as i128 - from as i128) as u64
    } else {
        0
    }
}

#[tactic(auto, using(crate::proofs::Counting::counting))]
fn counted(alloc: Global, from: i64, to: i64) -> Result<Values, Memory>
    ensures { IfOk result (λ v. v ≡ counted (span from to) from) }
{
    let mut made = Values::new(Vec::new(alloc));
    let mut next = from;
    'numbers: while next < to {
        made.push(Value::Int(next))?;
        next += 1;
    }
    Ok(made)
}

/// The integer that a value is or spells.
pub(crate) fn int(heap: &Heap, value: Value) -> Result<i64, ValueFault>
    ensures { result ≡ int_of heap.now value }
{
    match value {
        Value::Int(number) => Ok(number),
        Value::Bool(true) => Ok(1),
        Value::Bool(false) => Ok(0),
        Value::Text(text) => spelled(heap.text_at(text)),
        _ => Err(ValueFault::Mismatch(value.kind(), value.kind())),
    }
}

fn spelled(text: &str) -> Result<i64, ValueFault>
    ensures { result ≡ number_or_fault (spelled_number text.now) }
{
    match py_text::int_of(text) {
        Ok(number) => Ok(number),
        Err(IntFault::BadText) => Err(ValueFault::BadText),
        Err(IntFault::Overflow) => Err(ValueFault::Overflow),
    }
}

/// What a value shows, as a text.
pub(crate) fn str(heap: &mut Heap, budget: &mut Budget, value: Value) -> Result<Value, ValueFault>
    ensures ok { IfOk result (λ v. str_of heap.old budget.old value ≡ Ok (v, heap.new, budget.new)) }
    ensures fault { FailsAs result (str_of heap.old budget.old value) }
    ensures err { OnErr result (heap.new ≡ heap.old) }
{
    let shown = show(heap, budget, value, false)?;
    text_room(budget, shown.as_str().len() as u64)?;
    let text = heap.add_text(shown)?;
    Ok(text)
}
