//! The methods of a list.
ghost use Rattle.std.specs.Prelude.{◌≡◌, Ok, Err, IfOk, IfErr, OnErr};
ghost use Rattle.py_methods.specs.Lists.{append_of, extended, extend_of, insert_of, insert_at, pop_at, pop_of};
ghost use Rattle.py_methods.specs.Lists.{pop_last_of, remove_of, index_of, reverse_of, sort_of};
ghost use Rattle.py_compare.specs.Outcomes.{FailsAs};

use py_compare::{
    above_zero, iterable_bytes, iterable_items, iterable_length, iterable_texts, place_of,
    sorted_items,
};
use py_heap::{Budget, Heap, ListId, Value, ValueFault};
use py_operators::{end_in, place_in};
use scons_base::limits::LIST_LIMIT;

#[tactic(auto, using(py_compare::proofs::Limits::limits))]
pub(crate) fn append(heap: &mut Heap, list: ListId, item: Value) -> Result<Value, ValueFault>
    ensures ok { IfOk result (λ v. append_of heap.old list.0 item ≡ Ok (v, heap.new)) }
    ensures fault { FailsAs result (append_of heap.old list.0 item) }
    ensures err { OnErr result (heap.new ≡ heap.old) }
{
    let length = (heap.list_at(list).len() as u64).saturating_add(1);
    if length > LIST_LIMIT {
        return Err(ValueFault::TooBig(length));
    }
    heap.push_item(list, item)?;
    Ok(Value::Nil)
}

/// Appends the items of a list, tuple, dict or text.
pub(crate) fn extend(
    heap: &mut Heap,
    budget: &mut Budget,
    list: ListId,
    more: Value,
) -> Result<Value, ValueFault>
    ensures ok { IfOk result (λ v. extend_of heap.old budget.old list.0 more ≡ Ok (v, heap.new, budget.new)) }
    ensures fault { FailsAs result (extend_of heap.old budget.old list.0 more) }
    ensures err { OnErr result (heap.new ≡ heap.old) }
{
    match iterable_length(heap, more) {
        Some(count) => extend_by(heap, budget, list, more, count),
        None => Err(ValueFault::Mismatch(Value::List(list).kind(), more.kind())),
    }
}

/// Appends so many items of a value.
#[tactic(auto, using(crate::proofs::Extending::extending))]
fn extend_by(
    heap: &mut Heap,
    budget: &mut Budget,
    list: ListId,
    more: Value,
    count: usize,
) -> Result<Value, ValueFault>
    ensures ok { IfOk result (λ v. extended heap.old budget.old list.0 more count ≡ Ok (v, heap.new, budget.new)) }
    ensures fault { FailsAs result (extended heap.old budget.old list.0 more count) }
    ensures err { OnErr result (heap.new ≡ heap.old) }
{
    let length = (heap.list_at(list).len() as u64).saturating_add(count as u64);
    if length > LIST_LIMIT {
        return Err(ValueFault::TooBig(length));
    }
    budget.charge(iterable_bytes(heap, more, count) as u64)?;
    let texts = iterable_texts(heap, more, count)?;
    let items = iterable_items(heap, more, heap.text_count(), count)?;
    heap.extend_list_with(list, texts, items.as_slice())?;
    Ok(Value::Nil)
}

pub(crate) fn insert(
    heap: &mut Heap,
    list: ListId,
    index: Value,
    item: Value,
) -> Result<Value, ValueFault>
    ensures ok { IfOk result (λ v. insert_of heap.old list.0 (Value.List list) index item ≡ Ok (v, heap.new)) }
    ensures fault { FailsAs result (insert_of heap.old list.0 (Value.List list) index item) }
    ensures err { OnErr result (heap.new ≡ heap.old) }
{
    match index {
        Value::Int(index) => insert_at(heap, list, index, item),
        _ => Err(ValueFault::Mismatch(Value::List(list).kind(), index.kind())),
    }
}

#[tactic(auto, using(py_compare::proofs::Limits::limits))]
fn insert_at(heap: &mut Heap, list: ListId, index: i64, item: Value) -> Result<Value, ValueFault>
    ensures ok { IfOk result (λ v. insert_at heap.old list.0 index item ≡ Ok (v, heap.new)) }
    ensures fault { FailsAs result (insert_at heap.old list.0 index item) }
    ensures err { OnErr result (heap.new ≡ heap.old) }
{
    let count = heap.list_at(list).len();
    let length = (count as u64).saturating_add(1);
    if length > LIST_LIMIT {
        return Err(ValueFault::TooBig(length));
    }
    heap.insert_item(list, end_in(index, count), item)?;
    Ok(Value::Nil)
}

/// Takes the last item out.
pub(crate) fn pop_last(heap: &mut Heap, list: ListId) -> Result<Value, ValueFault>
    ensures ok { IfOk result (λ v. pop_last_of heap.old list.0 ≡ Ok (v, heap.new)) }
    ensures fault { IfErr result (λ e. pop_last_of heap.old list.0 ≡ Err e) }
    ensures err { OnErr result (heap.new ≡ heap.old) }
{
    pop_at(heap, list, -1)
}

pub(crate) fn pop(heap: &mut Heap, list: ListId, index: Value) -> Result<Value, ValueFault>
    ensures ok { IfOk result (λ v. pop_of heap.old list.0 (Value.List list) index ≡ Ok (v, heap.new)) }
    ensures fault { IfErr result (λ e. pop_of heap.old list.0 (Value.List list) index ≡ Err e) }
    ensures err { OnErr result (heap.new ≡ heap.old) }
{
    match index {
        Value::Int(index) => pop_at(heap, list, index),
        _ => Err(ValueFault::Mismatch(Value::List(list).kind(), index.kind())),
    }
}

fn pop_at(heap: &mut Heap, list: ListId, index: i64) -> Result<Value, ValueFault>
    ensures ok { IfOk result (λ v. pop_at heap.old list.0 index ≡ Ok (v, heap.new)) }
    ensures fault { IfErr result (λ e. pop_at heap.old list.0 index ≡ Err e) }
    ensures err { OnErr result (heap.new ≡ heap.old) }
{
    let items = heap.list_at(list);
    let length = items.len();
    match place_in(index, length) {
        Some(place) => {
            let item = items[place];
            heap.remove_item(list, place);
            Ok(item)
        }
        None => Err(ValueFault::Index(index, length as u64)),
    }
}

/// Takes the first item out that is equal to a value.
pub(crate) fn remove(
    heap: &mut Heap,
    budget: &mut Budget,
    list: ListId,
    item: Value,
) -> Result<Value, ValueFault>
    ensures ok { IfOk result (λ v. remove_of heap.old budget.old list.0 item ≡ Ok (v, heap.new, budget.new)) }
    ensures fault { FailsAs result (remove_of heap.old budget.old list.0 item) }
    ensures err { OnErr result (heap.new ≡ heap.old) }
{
    let found = place_of(heap, budget, heap.list_at(list), item)?;
    match found {
        Some(place) => {
            heap.remove_item(list, place);
            Ok(Value::Nil)
        }
        None => Err(heap.missing(item)?),
    }
}

/// The place of the first item equal to a value.
pub(crate) fn index(
    heap: &Heap,
    budget: &mut Budget,
    list: ListId,
    item: Value,
) -> Result<Value, ValueFault>
    ensures ok { IfOk result (λ v. index_of heap.now budget.old list.0 item ≡ Ok (v, heap.now, budget.new)) }
    ensures fault { FailsAs result (index_of heap.now budget.old list.0 item) }
{
    let found = place_of(heap, budget, heap.list_at(list), item)?;
    match found {
        Some(place) => Ok(Value::Int(above_zero(place as u64)?)),
        None => Err(heap.missing(item)?),
    }
}

pub(crate) fn reverse(heap: &mut Heap, list: ListId) -> Value
    ensures { (result, heap.new) ≡ reverse_of heap.old list.0 }
{
    heap.reverse_list(list);
    Value::Nil
}

pub(crate) fn sort(heap: &mut Heap, budget: &mut Budget, list: ListId) -> Result<Value, ValueFault>
    ensures ok { IfOk result (λ v. sort_of heap.old budget.old list.0 ≡ Ok (v, heap.new, budget.new)) }
    ensures fault { FailsAs result (sort_of heap.old budget.old list.0) }
    ensures err { OnErr result (heap.new ≡ heap.old) }
{
    let items = sorted_items(heap, budget, heap.list_at(list))?;
    heap.replace_list(list, items);
    Ok(Value::Nil)
}
