//! Places of lists and tuples, and keys of dicts.
ghost use Rattle.std.specs.Prelude.{◌≡◌, ◌<◌, length, Ok, IfOk, OnErr, OnOk, IfSome};
ghost use Rattle.py_operators.specs.Places.{place_in, item_in, item_at, keyed, set_of, with_item, with_entry};
ghost use Rattle.py_heap.specs.Heap.{dict_at};
ghost use Rattle.py_heap.specs.Dicts.{length_with};
ghost use Rattle.py_heap.specs.Units.{told_length};
ghost use Rattle.py_compare.specs.Outcomes.{FailsAs};

use py_heap::{DictId, Heap, Key, ListId, Value, ValueFault};
use scons_base::limits::LIST_LIMIT;

/// The place that an index names in something of a length.
pub fn place_in(index: i64, length: usize) -> Option<usize>
    ensures place { result ≡ place_in index length }
    ensures within { IfSome result (λ n. n < length) }
{
    let distance = index.unsigned_abs() as usize;
    if index >= 0 {
        if distance < length {
            Some(distance)
        } else {
            None
        }
    } else if distance <= length {
        Some(length - distance)
    } else {
        None
    }
}

/// What stands at an index of a list or tuple.
fn item_in(items: &[Value], index: i64) -> Result<Value, ValueFault>
    ensures { result ≡ item_in items.now index }
{
    match place_in(index, items.len()) {
        Some(place) => Ok(items[place]),
        None => Err(ValueFault::Index(index, items.len() as u64)),
    }
}

/// The same, where the index is a value of any kind.
pub(crate) fn item_at(items: &[Value], owner: Value, index: Value) -> Result<Value, ValueFault>
    ensures { result ≡ item_at items.now owner index }
{
    match index {
        Value::Int(index) => item_in(items, index),
        _ => Err(ValueFault::Mismatch(owner.kind(), index.kind())),
    }
}

/// The item under a key of a dict.
pub(crate) fn keyed(heap: &Heap, dict: DictId, key: Value) -> Result<Value, ValueFault>
    ensures ok { IfOk result (λ v. keyed heap.now (dict_at heap.now dict.0) key ≡ Ok v) }
    ensures fault { FailsAs result (keyed heap.now (dict_at heap.now dict.0) key) }
{
    let Some(content) = heap.key_of(key)? else {
        return Err(ValueFault::KeyKind(key.kind()));
    };
    match heap.entry_at(dict, &content) {
        Some(entry) => Ok(entry.item),
        None => Err(ValueFault::Key(content)),
    }
}

/// Sets a place of a list or a key of a dict.
pub fn set_index(heap: &mut Heap, a: Value, i: Value, v: Value) -> Result<(), ValueFault>
    ensures ok { OnOk result (set_of heap.old a i v ≡ Ok heap.new) }
    ensures fault { FailsAs result (set_of heap.old a i v) }
    ensures err { OnErr result (heap.new ≡ heap.old) }
{
    match a {
        Value::List(list) => match i {
            Value::Int(index) => set_item(heap, list, index, v),
            _ => Err(ValueFault::Mismatch(a.kind(), i.kind())),
        },
        Value::Dict(dict) => set_entry(heap, dict, i, v),
        _ => Err(ValueFault::Mismatch(a.kind(), a.kind())),
    }
}

fn set_item(heap: &mut Heap, list: ListId, index: i64, v: Value) -> Result<(), ValueFault>
    ensures ok { OnOk result (with_item heap.old list.0 index v ≡ Ok heap.new) }
    ensures fault { FailsAs result (with_item heap.old list.0 index v) }
    ensures err { OnErr result (heap.new ≡ heap.old) }
{
    let length = heap.list_at(list).len();
    match place_in(index, length) {
        Some(place) => {
            heap.set_item(list, place, v);
            Ok(())
        }
        None => Err(ValueFault::Index(index, length as u64)),
    }
}

#[tactic(auto, using(crate::proofs::Grown::grown))]
pub(crate) fn set_entry(
    heap: &mut Heap,
    dict: DictId,
    key: Value,
    v: Value,
) -> Result<(), ValueFault>
    ensures ok { OnOk result (with_entry heap.old dict.0 key v ≡ Ok heap.new) }
    ensures fault { FailsAs result (with_entry heap.old dict.0 key v) }
    ensures err { OnErr result (heap.new ≡ heap.old) }
{
    let Some(content) = heap.key_of(key)? else {
        return Err(ValueFault::KeyKind(key.kind()));
    };
    let length = length_with(heap, dict, &content);
    if length > LIST_LIMIT {
        return Err(ValueFault::TooBig(length));
    }
    heap.put_item(dict, content, key, v)?;
    Ok(())
}

/// The length of a dict once it has an item under a key.
pub fn length_with(heap: &Heap, dict: DictId, key: &Key) -> u64
    ensures { result ≡ told_length (length_with (dict_at heap.now dict.0) key.now) }
{
    let more = match heap.entry_at(dict, key) {
        Some(_) => 0,
        None => 1,
    };
    (heap.dict_len(dict) as u64).saturating_add(more)
}
