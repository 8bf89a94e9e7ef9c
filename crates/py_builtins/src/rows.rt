//! Rows of numbers and items.
ghost use Rattle.std.specs.Prelude.{◌≡◌, ◌<◌, ◌≤◌, ◌^◌, ◌∷◌, [], pos, ◌+ℤ◌, ◌≤ℤ◌, length, slice_index_or, Ok, IfOk};
ghost use Rattle.std.specs.Prelude.{OnOk, OnErr};
ghost use Rattle.py_heap.specs.Many.{text_values};
ghost use Rattle.py_compare.specs.Iterables.{iterable_items};
ghost use Rattle.py_builtins.specs.Numbers.{counted};
ghost use Rattle.py_builtins.specs.Rows.{row_at, rows_from, numbers_fit, numbered_cost, paid_numbered, numbered};
ghost use Rattle.py_builtins.specs.Rows.{enumerate_of};
ghost use Rattle.py_compare.specs.Outcomes.{FailsAs};

use crate::numbers::as_int;
use py_compare::{iterable_bytes, iterable_texts, needed_length};
use py_heap::{Budget, Heap, TextId, Value, ValueFault, Values};
use scons_base::Memory;
use scons_base::limits::LIST_LIMIT;

/// A value whose items stand in a column of rows, with the number of the first of its new texts.
#[derive(Clone, Copy, Debug)]
pub(crate) struct Column {
    pub(crate) value: Value,
    pub(crate) first: usize,
}

/// The items of a value, numbered from an integer on.
pub(crate) fn enumerate(
    heap: &mut Heap,
    budget: &mut Budget,
    value: Value,
    from: Value,
) -> Result<Value, ValueFault>
    ensures ok { IfOk result (λ v. enumerate_of heap.old budget.old value from ≡ Ok (v, heap.new, budget.new)) }
    ensures fault { FailsAs result (enumerate_of heap.old budget.old value from) }
    ensures err { OnErr result (heap.new ≡ heap.old) }
{
    let count = needed_length(heap, value)?;
    let from = as_int(from)?;
    numbered(heap, budget, value, count, from)
}

fn numbered(
    heap: &mut Heap,
    budget: &mut Budget,
    value: Value,
    count: usize,
    from: i64,
) -> Result<Value, ValueFault>
    ensures ok { IfOk result (λ v. numbered heap.old budget.old value count from ≡ Ok (v, heap.new, budget.new)) }
    ensures fault { FailsAs result (numbered heap.old budget.old value count from) }
    ensures err { OnErr result (heap.new ≡ heap.old) }
{
    numbered_room(heap, budget, value, count, from)?;
    let texts = iterable_texts(heap, value, count)?;
    let column = Column {
        value,
        first: heap.text_count(),
    };
    let rows = numbered_rows(heap, column, count, from)?;
    let list = heap.add_tuple_list_with(texts, rows)?;
    Ok(list)
}

/// Charges for so many items with their numbers.
fn numbered_room(
    heap: &Heap,
    budget: &mut Budget,
    value: Value,
    count: usize,
    from: i64,
) -> Result<(), ValueFault>
    ensures ok { OnOk result (paid_numbered heap.now budget.old value count from ≡ Ok budget.new) }
    ensures fault { FailsAs result (paid_numbered heap.now budget.old value count from) }
    ensures few { OnOk result (count ≤ LIST_LIMIT) }
    ensures fits { OnOk result ((from +ℤ pos count) ≤ℤ pos (2 ^ 63)) }
{
    let cost = numbered_cost(heap, value, count)?;
    numbers_fit(from, count)?;
    budget.charge(cost as u64)?;
    Ok(())
}

#[tactic(auto, using(py_compare::proofs::Limits::exact_limits))]
fn numbered_cost(heap: &Heap, value: Value, count: usize) -> Result<usize, ValueFault>
    ensures ok { IfOk result (λ n. numbered_cost heap.now value count ≡ Ok n) }
    ensures fault { FailsAs result (numbered_cost heap.now value count) }
    ensures few { OnOk result (count ≤ LIST_LIMIT) }
{
    if count as u64 > LIST_LIMIT {
        return Err(ValueFault::TooBig(count as u64));
    }
    let bytes = iterable_bytes(heap, value, count);
    let cost = (3 * count).checked_add(bytes).ok_or(Memory)?;
    Ok(cost)
}

/// One more than the greatest integer.
const REACH: i128 = 1 << 63;

#[tactic(auto, using(crate::proofs::Counting::fitting))]
fn numbers_fit(from: i64, count: usize) -> Result<(), ValueFault>
    ensures same { result ≡ numbers_fit from count }
    ensures fits { OnOk result ((from +ℤ pos count) ≤ℤ pos (2 ^ 63)) }
{
    if from as i128 + count as i128 <= REACH {
        Ok(())
    } else {
        Err(ValueFault::Overflow)
    }
}

#[tactic(auto, using(crate::proofs::RowTurns::row_turns))]
fn numbered_rows(
    heap: &Heap,
    column: Column,
    count: usize,
    from: i64,
) -> Result<Vec<Values>, Memory>
    requires few { count ≤ LIST_LIMIT }
    requires fits { (from +ℤ pos count) ≤ℤ pos (2 ^ 63) }
    ensures { IfOk result (λ rows. rows.items ≡ rows_from 0 count
        (counted count from ∷ iterable_items heap.now column.first count column.value ∷ [])) }
{
    let mut rows = Vec::new(heap.allocator());
    'places: for place in 0..count {
        rows.push(numbered_row(heap, column, count, from, place)?)?;
    }
    Ok(rows)
}

fn numbered_row(
    heap: &Heap,
    column: Column,
    count: usize,
    from: i64,
    place: usize,
) -> Result<Values, Memory>
    requires inside { place < count }
    requires few { count ≤ LIST_LIMIT }
    requires fits { (from +ℤ pos count) ≤ℤ pos (2 ^ 63) }
    ensures { IfOk result (λ row. row ≡ row_at (counted count from ∷ iterable_items heap.now column.first count
        column.value ∷ []) place) }
{
    let item = column_item(heap, column, count, place)?;
    let number = number_at(from, count, place);
    let row = Values::of(heap.allocator(), &[number, item])?;
    Ok(row)
}

/// The number beside the item at a place, where so many are counted from one on.
fn number_at(from: i64, count: usize, place: usize) -> Value
    requires inside { place < count }
    requires few { count ≤ LIST_LIMIT }
    requires fits { (from +ℤ pos count) ≤ℤ pos (2 ^ 63) }
    ensures { result ≡ slice_index_or (counted count from) place Value.Nil }
{
    Value::Int(from + place as i64)
}

/// The value at a place of a column, of which so many new texts are taken; none stands past its end.
#[tactic(auto, using(crate::proofs::RowTurns::key_places))]
pub(crate) fn column_item(
    heap: &Heap,
    column: Column,
    count: usize,
    place: usize,
) -> Result<Value, Memory>
    ensures { IfOk result (λ v.
        v ≡ slice_index_or (iterable_items heap.now column.first count column.value) place Value.Nil) }
{
    match column.value {
        Value::Text(_) => numbered_text(column.first, count, place),
        Value::List(list) => Ok(value_at(heap.list_at(list), place)),
        Value::Tuple(tuple) => Ok(value_at(heap.tuple_at(tuple), place)),
        Value::Dict(dict) => Ok(heap.key_at(dict, place).unwrap_or(Value::Nil)),
        _ => Ok(Value::Nil),
    }
}

fn value_at(items: &[Value], place: usize) -> Value
    ensures { result ≡ slice_index_or items.now place Value.Nil }
{
    match items.get(place) {
        Some(item) => *item,
        None => Value::Nil,
    }
}

/// The new text at a place, where so many are numbered from one on.
#[tactic(auto, using(crate::proofs::RowTurns::text_places))]
fn numbered_text(first: usize, count: usize, place: usize) -> Result<Value, Memory>
    ensures { IfOk result (λ v. v ≡ slice_index_or (text_values first count) place Value.Nil) }
{
    if place < count {
        let number = first.checked_add(place).ok_or(Memory)?;
        Ok(Value::Text(TextId(number as u64)))
    } else {
        Ok(Value::Nil)
    }
}
