//! Rows of the items of some values.
ghost use Rattle.std.specs.Prelude.{◌≡◌, ◌+◌, ◌*◌, map, length, Ok, IfOk, OnOk, OnErr};
ghost use Rattle.py_compare.specs.Iterables.{total_length, iterable_items};
ghost use Rattle.py_builtins.specs.Rows.{row_at, rows_from, shortest_from, shortest_of, text_share, zip_texts};
ghost use Rattle.py_builtins.specs.Rows.{zip_columns, zip_cost, paid_zip, zipped, zip_of};
ghost use Rattle.py_compare.specs.Outcomes.{FailsAs};

use crate::rows::{Column, column_item};
use py_compare::{iterable_bytes, iterable_texts, needed_length};
use py_heap::{Budget, Heap, Value, ValueFault, Values};
use scons_base::limits::LIST_LIMIT;
use scons_base::{Memory, Text};

/// The items of some values side by side, as long as the shortest.
pub(crate) fn zip(
    heap: &mut Heap,
    budget: &mut Budget,
    values: &[Value],
) -> Result<Value, ValueFault>
    ensures ok { IfOk result (λ v. zip_of heap.old budget.old values.now ≡ Ok (v, heap.new, budget.new)) }
    ensures fault { FailsAs result (zip_of heap.old budget.old values.now) }
    ensures err { OnErr result (heap.new ≡ heap.old) }
{
    let count = shortest(heap, values)?;
    zipped(heap, budget, values, count)
}

/// How many items the shortest of some values gives.
fn shortest(heap: &Heap, values: &[Value]) -> Result<usize, ValueFault>
    ensures { result ≡ shortest_of heap.now values.now }
{
    match values {
        [] => Ok(0),
        [first, others @ ..] => {
            let count = needed_length(heap, *first)?;
            shortest_from(heap, count, others)
        }
    }
}

fn shortest_from(heap: &Heap, count: usize, values: &[Value]) -> Result<usize, ValueFault>
    ensures { result ≡ shortest_from heap.now count values.now }
{
    let mut shortest = count;
    'values: for value in values {
        let length = needed_length(heap, *value)?;
        shortest = shortest.min(length);
    }
    Ok(shortest)
}

fn zipped(
    heap: &mut Heap,
    budget: &mut Budget,
    values: &[Value],
    count: usize,
) -> Result<Value, ValueFault>
    ensures ok { IfOk result (λ v. zipped heap.old budget.old values.now count ≡ Ok (v, heap.new, budget.new)) }
    ensures fault { FailsAs result (zipped heap.old budget.old values.now count) }
    ensures err { OnErr result (heap.new ≡ heap.old) }
{
    zip_room(heap, budget, values, count)?;
    let texts = zip_texts(heap, values, count)?;
    let columns = columns_of(heap, values, count)?;
    let rows = rows_of(heap, columns.as_slice(), count)?;
    let list = heap.add_tuple_list_with(texts, rows)?;
    Ok(list)
}

/// Charges for so many rows of the items of some values.
fn zip_room(
    heap: &Heap,
    budget: &mut Budget,
    values: &[Value],
    count: usize,
) -> Result<(), ValueFault>
    ensures ok { OnOk result (paid_zip heap.now budget.old values.now count ≡ Ok budget.new) }
    ensures fault { FailsAs result (paid_zip heap.now budget.old values.now count) }
{
    let cost = zip_cost(heap, values, count)?;
    budget.charge(cost as u64)?;
    Ok(())
}

#[tactic(auto, using(crate::proofs::Zipping::zip_costs))]
fn zip_cost(heap: &Heap, values: &[Value], count: usize) -> Result<usize, ValueFault>
    ensures ok { IfOk result (λ n. zip_cost heap.now values.now count ≡ Ok n) }
    ensures fault { FailsAs result (zip_cost heap.now values.now count) }
{
    let width = values.len();
    if count as u64 > LIST_LIMIT {
        return Err(ValueFault::TooBig(count as u64));
    }
    if count > 0 && width as u64 > LIST_LIMIT {
        return Err(ValueFault::TooBig(width as u64));
    }
    let bytes = bytes_of(heap, values, count)?;
    let cost = rows_cost(count, width, bytes)?;
    Ok(cost)
}

fn rows_cost(count: usize, width: usize, bytes: usize) -> Result<usize, Memory>
    ensures { IfOk result (λ n. n ≡ count * (1 + width) + bytes) }
{
    let places = width.checked_add(1).ok_or(Memory)?;
    let values = count.checked_mul(places).ok_or(Memory)?;
    values.checked_add(bytes).ok_or(Memory)
}

/// How many bytes the new texts have that so many items of each value are.
fn bytes_of(heap: &Heap, values: &[Value], count: usize) -> Result<usize, Memory>
    ensures { IfOk result (λ n. n ≡ total_length (zip_texts heap.now count values.now)) }
{
    let mut bytes: usize = 0;
    'values: for value in values {
        let more = iterable_bytes(heap, *value, count);
        bytes = bytes.checked_add(more).ok_or(Memory)?;
    }
    Ok(bytes)
}

#[tactic(auto, using(crate::proofs::Zipping::zip_turns))]
fn zip_texts(heap: &Heap, values: &[Value], count: usize) -> Result<Vec<Text>, Memory>
    ensures { IfOk result (λ made. made.items ≡ zip_texts heap.now count values.now) }
{
    let mut texts = Vec::new(heap.allocator());
    'values: for value in values {
        let mut more = iterable_texts(heap, *value, count)?;
        texts.append(&mut more)?;
    }
    Ok(texts)
}

/// Where the items of each value come from.
#[tactic(auto, using(crate::proofs::Zipping::zip_turns))]
fn columns_of(heap: &Heap, values: &[Value], count: usize) -> Result<Vec<Column>, Memory>
    ensures { IfOk result (λ made. map (λ c. iterable_items heap.now c.first count c.value) made.items
        ≡ zip_columns heap.now (length heap.now.texts) count values.now) }
{
    let mut columns = Vec::new(heap.allocator());
    let mut first = heap.text_count();
    'values: for value in values {
        columns.push(Column {
            value: *value,
            first,
        })?;
        first = first.checked_add(text_share(count, *value)).ok_or(Memory)?;
    }
    Ok(columns)
}

/// How many new texts so many items of a value are.
fn text_share(count: usize, value: Value) -> usize
    ensures { result ≡ text_share count value }
{
    match value {
        Value::Text(_) => count,
        _ => 0,
    }
}

#[tactic(auto, using(crate::proofs::RowTurns::row_turns))]
fn rows_of(heap: &Heap, columns: &[Column], count: usize) -> Result<Vec<Values>, Memory>
    ensures { IfOk result (λ rows.
        rows.items ≡ rows_from 0 count (map (λ c. iterable_items heap.now c.first count c.value) columns.now)) }
{
    let mut rows = Vec::new(heap.allocator());
    'places: for place in 0..count {
        rows.push(row_of(heap, columns, count, place)?)?;
    }
    Ok(rows)
}

fn row_of(heap: &Heap, columns: &[Column], count: usize, place: usize) -> Result<Values, Memory>
    ensures { IfOk result (λ row.
        row ≡ row_at (map (λ c. iterable_items heap.now c.first count c.value) columns.now) place) }
{
    let mut row = Values::new(Vec::new(heap.allocator()));
    'columns: for column in columns {
        row.push(column_item(heap, *column, count, place)?)?;
    }
    Ok(row)
}
