//! What a value gives item after item.
ghost use Rattle.std.specs.Prelude.{◌≡◌, length, IfOk};
ghost use Rattle.py_compare.specs.Iterables.{total_length, iterable_length, needed_length, characters};
ghost use Rattle.py_compare.specs.Iterables.{iterable_texts, iterable_items};

use py_heap::{Heap, Value, ValueFault, Values, text_values};
use scons_base::{Memory, Text};
use std::alloc::Global;

/// How many items a value gives, if it gives any.
pub fn iterable_length(heap: &Heap, value: Value) -> Option<usize>
    ensures { result ≡ iterable_length heap.now value }
{
    match value {
        Value::Text(text) => Some(py_text::char_count(heap.text_at(text))),
        Value::List(list) => Some(heap.list_at(list).len()),
        Value::Tuple(tuple) => Some(heap.tuple_at(tuple).len()),
        Value::Dict(dict) => Some(heap.dict_len(dict)),
        _ => None,
    }
}

/// How many items an argument gives that has to give some.
pub fn needed_length(heap: &Heap, value: Value) -> Result<usize, ValueFault>
    ensures { result ≡ needed_length heap.now value }
{
    match iterable_length(heap, value) {
        Some(length) => Ok(length),
        None => Err(ValueFault::Mismatch(value.kind(), value.kind())),
    }
}

/// How many bytes the new texts have that stand for so many items.
pub fn iterable_bytes(heap: &Heap, value: Value, count: usize) -> usize
    ensures { result ≡ total_length (iterable_texts heap.now count value) }
{
    match value {
        Value::Text(text) => characters_length(heap.text_at(text), count),
        _ => 0,
    }
}

fn characters_length(text: &str, count: usize) -> usize
    ensures { result ≡ total_length (characters count text.now) }
{
    py_text::slice(text, 0, count).len()
}

/// The new texts that stand for so many items: the characters of a text.
pub fn iterable_texts(heap: &Heap, value: Value, count: usize) -> Result<Vec<Text>, Memory>
    ensures { IfOk result (λ made. made.items ≡ iterable_texts heap.now count value) }
{
    match value {
        Value::Text(text) => characters(heap.allocator(), heap.text_at(text), count),
        _ => Ok(Vec::new(heap.allocator())),
    }
}

fn characters(alloc: Global, text: &str, count: usize) -> Result<Vec<Text>, Memory>
    ensures { IfOk result (λ made. made.items ≡ characters count text.now) }
{
    let mut made = Vec::new(alloc);
    let mut rest = text;
    'characters: while made.len() < count {
        let Some((first, after)) = py_text::first_char(rest) else {
            return Ok(made);
        };
        made.push(Text::of(alloc, first)?)?;
        rest = after;
    }
    Ok(made)
}

/// The items of a value: so many new texts are numbered from one on.
pub fn iterable_items(
    heap: &Heap,
    value: Value,
    first: usize,
    count: usize,
) -> Result<Values, Memory>
    ensures { IfOk result (λ v. v ≡ iterable_items heap.now first count value) }
{
    match value {
        Value::Text(_) => text_values(heap.allocator(), first, count),
        Value::List(list) => Values::of(heap.allocator(), heap.list_at(list)),
        Value::Tuple(tuple) => Values::of(heap.allocator(), heap.tuple_at(tuple)),
        Value::Dict(dict) => heap.keys_of(dict),
        _ => Ok(Values::new(Vec::new(heap.allocator()))),
    }
}
