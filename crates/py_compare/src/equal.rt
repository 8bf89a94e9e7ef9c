//! Equality by content.
ghost use Rattle.std.specs.Prelude.{◌≡◌, Ok, IfOk, ◌<◌, length, slice_get, IfSome};
ghost use Rattle.py_compare.specs.Equality.{number_of, is_number, builtin_place, is_builtin, flat_equal, equal_by};
ghost use Rattle.py_compare.specs.Equality.{equal_at, items_at, entries_at, equal_of, place_from, facing_items};
ghost use Rattle.std.specs.Option.{option_map};
ghost use Rattle.py_heap.specs.Heap.{dict_at};
ghost use Rattle.py_heap.specs.Dicts.{entry_at};
ghost use Rattle.py_compare.specs.Outcomes.{FailsAs};

use py_heap::{Budget, Builtin, DictId, Heap, Key, Value, ValueFault};
use scons_base::limits::VALUE_DEPTH_LIMIT;

/// The number that a value is: True is 1 and False is 0.
pub(crate) fn number_of(value: Value) -> Option<i64>
    ensures { result ≡ number_of value }
{
    match value {
        Value::Int(number) => Some(number),
        Value::Bool(true) => Some(1),
        Value::Bool(false) => Some(0),
        _ => None,
    }
}

fn is_number(number: i64, value: Value) -> bool
    ensures { result ≡ is_number number value }
{
    match number_of(value) {
        Some(other) => number == other,
        None => false,
    }
}

fn builtin_place(builtin: Builtin) -> u8
    ensures { result ≡ builtin_place builtin }
{
    match builtin {
        Builtin::Len => 0,
        Builtin::Range => 1,
        Builtin::Str => 2,
        Builtin::Int => 3,
        Builtin::Bool => 4,
        Builtin::List => 5,
        Builtin::Tuple => 6,
        Builtin::Dict => 7,
        Builtin::Sorted => 8,
        Builtin::Enumerate => 9,
        Builtin::Zip => 10,
        Builtin::Print => 11,
    }
}

fn is_builtin(builtin: Builtin, value: Value) -> bool
    ensures { result ≡ is_builtin builtin value }
{
    match value {
        Value::Builtin(other) => builtin_place(builtin) == builtin_place(other),
        _ => false,
    }
}

/// Equality of values in which no others stand.
fn flat_equal(heap: &Heap, a: Value, b: Value) -> bool
    ensures { result ≡ flat_equal heap.now a b }
{
    match a {
        Value::Nil => match b {
            Value::Nil => true,
            _ => false,
        },
        Value::Bool(true) => is_number(1, b),
        Value::Bool(false) => is_number(0, b),
        Value::Int(number) => is_number(number, b),
        Value::Text(text) => match b {
            Value::Text(other) => heap.text_at(text) == heap.text_at(other),
            _ => false,
        },
        Value::Func(id) => match b {
            Value::Func(other) => id.0 == other.0,
            _ => false,
        },
        Value::Builtin(builtin) => is_builtin(builtin, b),
        Value::Object(id) => match b {
            Value::Object(other) => id.0 == other.0,
            _ => false,
        },
        Value::List(_) | Value::Tuple(_) | Value::Dict(_) => false,
    }
}

/// Whether two values are equal, where so many levels may still be looked into.
#[cycle(equality)]
#[tactic(auto, using(crate::proofs::Steps::steps))]
pub(crate) fn equal(
    heap: &Heap,
    budget: &mut Budget,
    levels: u32,
    a: Value,
    b: Value,
) -> Result<bool, ValueFault>
    ensures ok { IfOk result (λ x. equal_at levels heap.now budget.old a b ≡ Ok (x, budget.new)) }
    ensures fault { FailsAs result (equal_at levels heap.now budget.old a b) }
{
    budget.charge(1)?;
    let same = equal_inside(heap, budget, levels, a, b)?;
    Ok(same)
}

/// The same, once the pair is charged for.
#[cycle(equality)]
fn equal_inside(
    heap: &Heap,
    budget: &mut Budget,
    levels: u32,
    a: Value,
    b: Value,
) -> Result<bool, ValueFault>
    ensures ok { IfOk result (λ x. equal_by (items_at levels heap.now) (entries_at levels heap.now) heap.now
        budget.old a b ≡ Ok (x, budget.new)) }
    ensures fault { FailsAs result (equal_by (items_at levels heap.now) (entries_at levels heap.now) heap.now
        budget.old a b) }
{
    match a {
        Value::List(list) => match b {
            Value::List(other) => {
                equal_items(
                    heap,
                    budget,
                    levels,
                    heap.list_at(list),
                    heap.list_at(other),
                )
            }
            _ => Ok(false),
        },
        Value::Tuple(tuple) => match b {
            Value::Tuple(other) => {
                equal_items(
                    heap,
                    budget,
                    levels,
                    heap.tuple_at(tuple),
                    heap.tuple_at(other),
                )
            }
            _ => Ok(false),
        },
        Value::Dict(dict) => match b {
            Value::Dict(other) => equal_entries(heap, budget, levels, dict, other),
            _ => Ok(false),
        },
        _ => Ok(flat_equal(heap, a, b)),
    }
}

#[cycle(equality)]
fn equal_items(
    heap: &Heap,
    budget: &mut Budget,
    levels: u32,
    items: &[Value],
    others: &[Value],
) -> Result<bool, ValueFault>
    ensures ok { IfOk result (λ x. items_at levels heap.now budget.old items.now others.now ≡ Ok (x, budget.new)) }
    ensures fault { FailsAs result (items_at levels heap.now budget.old items.now others.now) }
{
    if levels == 0 {
        return Err(ValueFault::Deep);
    }
    if items.len() != others.len() {
        return Ok(false);
    }
    'items: for (place, item) in items.iter().enumerate() {
        let same = equal(heap, budget, levels - 1, *item, others[place])?;
        if !same {
            return Ok(false);
        }
    }
    Ok(true)
}

#[cycle(equality)]
#[tactic(auto, using(crate::proofs::Facing::facing_pairs))]
fn equal_entries(
    heap: &Heap,
    budget: &mut Budget,
    levels: u32,
    dict: DictId,
    other: DictId,
) -> Result<bool, ValueFault>
    ensures ok { IfOk result (λ x. entries_at levels heap.now budget.old (dict_at heap.now dict.0)
        (dict_at heap.now other.0) ≡ Ok (x, budget.new)) }
    ensures fault { FailsAs result (entries_at levels heap.now budget.old (dict_at heap.now dict.0)
        (dict_at heap.now other.0)) }
{
    if levels == 0 {
        return Err(ValueFault::Deep);
    }
    let count = heap.dict_len(dict);
    if count != heap.dict_len(other) {
        return Ok(false);
    }
    'places: for place in 0..count {
        let Some((item, under)) = facing(heap, dict, other, place) else {
            return Ok(true);
        };
        let Some(other_item) = under else {
            return Ok(false);
        };
        let same = equal(heap, budget, levels - 1, item, other_item)?;
        if !same {
            return Ok(false);
        }
    }
    Ok(true)
}

/// The item at a place of a dict, and what another dict has under its key.
fn facing(heap: &Heap, dict: DictId, other: DictId, place: usize) -> Option<(Value, Option<Value>)>
    ensures { result ≡ slice_get (facing_items (dict_at heap.now dict.0) (dict_at heap.now other.0)) place }
{
    let (key, entry) = heap.place_at(dict, place)?;
    Some((entry.item, item_under(heap, other, key)))
}

fn item_under(heap: &Heap, dict: DictId, key: &Key) -> Option<Value>
    ensures { result ≡ option_map (λ e. e.item) (entry_at (dict_at heap.now dict.0) key.now) }
{
    match heap.entry_at(dict, key) {
        Some(entry) => Some(entry.item),
        None => None,
    }
}

/// The place of the first item equal to a value.
pub fn place_of(
    heap: &Heap,
    budget: &mut Budget,
    items: &[Value],
    value: Value,
) -> Result<Option<usize>, ValueFault>
    ensures within { IfOk result (λ found. IfSome found (λ n. n < length items.now)) }
    ensures ok { IfOk result (λ x. place_from 0 heap.now budget.old items.now value ≡ Ok (x, budget.new)) }
    ensures fault { FailsAs result (place_from 0 heap.now budget.old items.now value) }
{
    'items: for (place, item) in items.iter().enumerate() {
        let same = equal(heap, budget, VALUE_DEPTH_LIMIT, *item, value)?;
        if same {
            return Ok(Some(place));
        }
    }
    Ok(None)
}
