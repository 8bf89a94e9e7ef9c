//! Indices and slices.
ghost use Rattle.std.specs.Prelude.{◌≡◌, Ok, IfOk, OnErr};
ghost use Rattle.py_heap.specs.Heap.{text_at, list_at, tuple_at};
ghost use Rattle.py_compare.specs.Outcomes.{FailsAs, paid_text, new_text, new_list, new_tuple};
ghost use Rattle.py_operators.specs.Slices.{slice_of};
ghost use Rattle.py_operators.specs.Indexing.{char_text, char_in, indexed, end_of, text_between, sliced};

use crate::joining::copied_items;
use crate::places::{item_at, keyed, place_in};
use crate::slices::{from_in, slice_of, to_in};
use crate::texts::copied_text;
use py_heap::{Budget, Heap, ListId, TextId, TupleId, Value, ValueFault};
use scons_base::Text;
use std::alloc::Global;

/// An item of a list or tuple, the item under a key of a dict, or a character of a text.
pub(crate) fn indexed(
    heap: &mut Heap,
    budget: &mut Budget,
    a: Value,
    i: Value,
) -> Result<Value, ValueFault>
    ensures ok { IfOk result (λ v. indexed heap.old budget.old a i ≡ Ok (v, heap.new, budget.new)) }
    ensures fault { FailsAs result (indexed heap.old budget.old a i) }
    ensures err { OnErr result (heap.new ≡ heap.old) }
{
    match a {
        Value::List(list) => Ok(item_at(heap.list_at(list), a, i)?),
        Value::Tuple(tuple) => Ok(item_at(heap.tuple_at(tuple), a, i)?),
        Value::Dict(dict) => Ok(keyed(heap, dict, i)?),
        Value::Text(text) => match i {
            Value::Int(place) => char_in(heap, budget, text, place),
            _ => Err(ValueFault::Mismatch(a.kind(), i.kind())),
        },
        _ => Err(ValueFault::Mismatch(a.kind(), a.kind())),
    }
}

/// The character at an index, as a new text.
fn char_in(
    heap: &mut Heap,
    budget: &mut Budget,
    text: TextId,
    index: i64,
) -> Result<Value, ValueFault>
    ensures ok { IfOk result (λ v.
        char_in heap.old budget.old (text_at heap.old text.0) index ≡ Ok (v, heap.new, budget.new)) }
    ensures fault { FailsAs result (char_in heap.old budget.old (text_at heap.old text.0) index) }
    ensures err { OnErr result (heap.new ≡ heap.old) }
{
    let length = py_text::char_count(heap.text_at(text));
    match place_in(index, length) {
        Some(place) => {
            let made = char_copied(heap.allocator(), budget, heap.text_at(text), place)?;
            let value = heap.add_text(made)?;
            Ok(value)
        }
        None => Err(ValueFault::Index(index, length as u64)),
    }
}

fn char_copied(
    alloc: Global,
    budget: &mut Budget,
    text: &str,
    place: usize,
) -> Result<Text, ValueFault>
    ensures ok { IfOk result (λ made. paid_text budget.old (char_text text.now place) ≡ Ok (made, budget.new)) }
    ensures fault { FailsAs result (paid_text budget.old (char_text text.now place)) }
{
    match py_text::char_at(text, place) {
        Some(c) => copied_text(alloc, budget, c),
        None => copied_text(alloc, budget, ""),
    }
}

/// The items of a list or tuple, or the characters of a text, between two ends.
pub(crate) fn sliced(
    heap: &mut Heap,
    budget: &mut Budget,
    a: Value,
    from: Option<Value>,
    to: Option<Value>,
) -> Result<Value, ValueFault>
    ensures ok { IfOk result (λ v. sliced heap.old budget.old a from to ≡ Ok (v, heap.new, budget.new)) }
    ensures fault { FailsAs result (sliced heap.old budget.old a from to) }
    ensures err { OnErr result (heap.new ≡ heap.old) }
{
    match a {
        Value::List(list) => {
            let from = end_of(a, from)?;
            let to = end_of(a, to)?;
            slice_list(heap, budget, list, from, to)
        }
        Value::Tuple(tuple) => {
            let from = end_of(a, from)?;
            let to = end_of(a, to)?;
            slice_tuple(heap, budget, tuple, from, to)
        }
        Value::Text(text) => {
            let from = end_of(a, from)?;
            let to = end_of(a, to)?;
            slice_text(heap, budget, text, from, to)
        }
        _ => Err(ValueFault::Mismatch(a.kind(), a.kind())),
    }
}

/// An end of a slice, which is an integer where it isn't left out.
fn end_of(owner: Value, end: Option<Value>) -> Result<Option<i64>, ValueFault>
    ensures { result ≡ end_of owner end }
{
    match end {
        None => Ok(None),
        Some(end) => match end {
            Value::Int(place) => Ok(Some(place)),
            _ => Err(ValueFault::Mismatch(owner.kind(), end.kind())),
        },
    }
}

fn slice_list(
    heap: &mut Heap,
    budget: &mut Budget,
    list: ListId,
    from: Option<i64>,
    to: Option<i64>,
) -> Result<Value, ValueFault>
    ensures ok { IfOk result (λ v.
        new_list heap.old budget.old (slice_of (list_at heap.old list.0) from to) ≡ Ok (v, heap.new, budget.new)) }
    ensures fault { FailsAs result (new_list heap.old budget.old (slice_of (list_at heap.old list.0) from to)) }
    ensures err { OnErr result (heap.new ≡ heap.old) }
{
    let made = copied_items(
        heap.allocator(),
        budget,
        slice_of(heap.list_at(list), from, to),
    )?;
    let value = heap.add_list(made)?;
    Ok(value)
}

fn slice_tuple(
    heap: &mut Heap,
    budget: &mut Budget,
    tuple: TupleId,
    from: Option<i64>,
    to: Option<i64>,
) -> Result<Value, ValueFault>
    ensures ok { IfOk result (λ v. new_tuple heap.old budget.old (slice_of (tuple_at heap.old tuple.0) from to)
        ≡ Ok (v, heap.new, budget.new)) }
    ensures fault { FailsAs result (new_tuple heap.old budget.old (slice_of (tuple_at heap.old tuple.0) from to)) }
    ensures err { OnErr result (heap.new ≡ heap.old) }
{
    let made = copied_items(
        heap.allocator(),
        budget,
        slice_of(heap.tuple_at(tuple), from, to),
    )?;
    let value = heap.add_tuple(made)?;
    Ok(value)
}

fn slice_text(
    heap: &mut Heap,
    budget: &mut Budget,
    text: TextId,
    from: Option<i64>,
    to: Option<i64>,
) -> Result<Value, ValueFault>
    ensures ok { IfOk result (λ v. new_text heap.old budget.old (text_between (text_at heap.old text.0) from to)
        ≡ Ok (v, heap.new, budget.new)) }
    ensures fault { FailsAs result (new_text heap.old budget.old (text_between (text_at heap.old text.0) from to)) }
    ensures err { OnErr result (heap.new ≡ heap.old) }
{
    let made = copied_text(
        heap.allocator(),
        budget,
        text_between(heap.text_at(text), from, to),
    )?;
    let value = heap.add_text(made)?;
    Ok(value)
}

fn text_between(text: &str, from: Option<i64>, to: Option<i64>) -> &str
    ensures { result.now ≡ text_between text.now from to }
{
    let length = py_text::char_count(text);
    py_text::slice(text, from_in(from, length), to_in(to, length))
}
