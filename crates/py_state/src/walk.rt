//! What a `for` and a comprehension go over.
ghost use Rattle.std.specs.Prelude.{◌≡◌, ◌≢◌, ◌≤◌, ◌+◌, Ok, Err, None, IfOk, IfErr, IfSome, length};
ghost use Rattle.std.specs.Option.{option_map};
ghost use Rattle.py_meaning.specs.Loops.{walk_of, next_of, unpacked, list_from, tuple_from, keys_from, text_from};
ghost use Rattle.py_meaning.specs.Loops.{char_from};
ghost use Rattle.py_state.specs.Walks.{plain, told_next};

use py_compare::{iterable_items, iterable_texts, needed_length};
use py_heap::{DictId, Heap, ListId, TextId, TupleId, Value, ValueFault, Values};
use py_text::first_char;
use scons_base::{Memory, Text};

#[derive(Clone, Copy, Debug)]
pub enum Walk {
    List {
        list: ListId,
        place: usize,
    },
    Tuple {
        tuple: TupleId,
        place: usize,
    },
    /// As many keys as the dict had.
    Keys {
        dict: DictId,
        place: usize,
        count: usize,
    },
    /// The byte at which the next character begins.
    Text {
        text: TextId,
        at: usize,
    },
}

impl Walk {
    pub fn over(heap: &Heap, value: Value) -> Result<Walk, ValueFault>
        ensures ok { IfOk result (λ w. walk_of heap.now value ≡ Ok (plain w)) }
        ensures fault { IfErr result (λ e. walk_of heap.now value ≡ Err e) }
        ensures told { IfErr result (λ e. e ≢ ValueFault.Memory) }
    {
        match value {
            Value::List(list) => Ok(Walk::List { list, place: 0 }),
            Value::Tuple(tuple) => Ok(Walk::Tuple { tuple, place: 0 }),
            Value::Dict(dict) => Ok(Walk::Keys {
                dict,
                place: 0,
                count: heap.dict_len(dict),
            }),
            Value::Text(text) => Ok(Walk::Text { text, at: 0 }),
            _ => Err(ValueFault::Mismatch(value.kind(), value.kind())),
        }
    }

    /// The next item, and what is left behind it.
    pub fn next(self, heap: &mut Heap) -> Result<Option<(Value, Walk)>, Memory>
        ensures item { IfOk result (λ next. next_of heap.old (plain self) ≡ told_next heap.new next) }
        ensures none { result ≡ Ok None → heap.new ≡ heap.old }
    {
        match self {
            Walk::List { list, place } => Ok(next_in_list(heap, list, place)),
            Walk::Tuple { tuple, place } => Ok(next_in_tuple(heap, tuple, place)),
            Walk::Keys { dict, place, count } => Ok(next_key(heap, dict, place, count)),
            Walk::Text { text, at } => next_char(heap, text, at),
        }
    }
}

fn next_in_list(heap: &Heap, list: ListId, place: usize) -> Option<(Value, Walk)>
    ensures { next_of heap.now (list_from list.0 place) ≡ told_next heap.now result }
{
    let item = heap.list_at(list).get(place)?;
    let rest = Walk::List {
        list,
        place: place + 1,
    };
    Some((*item, rest))
}

fn next_in_tuple(heap: &Heap, tuple: TupleId, place: usize) -> Option<(Value, Walk)>
    ensures { next_of heap.now (tuple_from tuple.0 place) ≡ told_next heap.now result }
{
    let item = heap.tuple_at(tuple).get(place)?;
    let rest = Walk::Tuple {
        tuple,
        place: place + 1,
    };
    Some((*item, rest))
}

fn next_key(heap: &Heap, dict: DictId, place: usize, count: usize) -> Option<(Value, Walk)>
    ensures { next_of heap.now (keys_from dict.0 place count) ≡ told_next heap.now result }
{
    if place < count {
        let key = heap.key_at(dict, place)?;
        let rest = Walk::Keys {
            dict,
            place: place + 1,
            count,
        };
        Some((key, rest))
    } else {
        None
    }
}

/// The character that begins at a byte, as a new text.
fn next_char(heap: &mut Heap, text: TextId, at: usize) -> Result<Option<(Value, Walk)>, Memory>
    ensures item { IfOk result (λ next. next_of heap.old (text_from text.0 at) ≡ told_next heap.new next) }
    ensures none { result ≡ Ok None → heap.new ≡ heap.old }
{
    let Some(first) = char_from(heap.text_at(text), at) else {
        return Ok(None);
    };
    let next = at + first.len();
    let character = Text::of(heap.allocator(), first)?;
    let value = heap.add_text(character)?;
    Ok(Some((value, Walk::Text { text, at: next })))
}

/// The character that begins at a byte of a text.
fn char_from(text: &str, at: usize) -> Option<&str>
    ensures told { option_map (λ c. c.now) result ≡ char_from text.now at }
    ensures within { IfSome result (λ c. at + length c.now ≤ length text.now) }
{
    if !text.is_char_boundary(at) {
        return None;
    }
    let (first, _) = first_char(&text[at..])?;
    Some(first)
}

/// The items of a value, as many as there are names for them. Characters are new texts.
pub fn unpacked(heap: &mut Heap, value: Value, count: usize) -> Result<Values, ValueFault>
    ensures ok { IfOk result (λ items. unpacked heap.old count value ≡ Ok (items, heap.new)) }
    ensures fault { IfErr result (λ e. e ≢ ValueFault.Memory → unpacked heap.old count value ≡ Err e) }
{
    if needed_length(heap, value)? != count {
        return Err(ValueFault::Mismatch(value.kind(), value.kind()));
    }
    let items = iterable_items(heap, value, heap.text_count(), count)?;
    let texts = iterable_texts(heap, value, count)?;
    heap.add_texts(texts)?;
    Ok(items)
}
