//! How values show.
ghost use Rattle.std.specs.Prelude.{◌≡◌, Ok, IfOk, OnOk, OnErr, true, slice_get, if◌then◌else◌};
ghost use Rattle.py_text.specs.Numbers.{decimals};
ghost use Rattle.py_text.specs.Quoting.{quoted as in_quotes};
ghost use Rattle.py_heap.specs.Heap.{dict_at};
ghost use Rattle.py_compare.specs.Growing.{grown};
ghost use Rattle.py_compare.specs.Showing.{separator, onto_entry, tuple_end, flat_text, entries_of, shown_by};
ghost use Rattle.py_compare.specs.Showing.{show_at, items_shown, entries_shown, show_of};
ghost use Rattle.py_compare.specs.Outcomes.{FailsAs};

use crate::growing::GrowingText;
use py_heap::{Budget, DictId, Entry, Heap, Value, ValueFault, settled};
use scons_base::limits::VALUE_DEPTH_LIMIT;
use scons_base::{Memory, Text};

/// What a value shows; in quotes where it is a text and is to stand in them. Where it fails, the units are as they were.
pub fn show(heap: &Heap, budget: &mut Budget, a: Value, quoted: bool) -> Result<Text, ValueFault>
    ensures ok { IfOk result (λ s. show_of heap.now budget.old a quoted ≡ Ok (s, budget.new)) }
    ensures fault { FailsAs result (show_of heap.now budget.old a quoted) }
    ensures unpaid { OnErr result (budget.new ≡ budget.old) }
{
    let before = budget.copy();
    let answer = show_of(heap, budget, a, quoted);
    settled(budget, before, answer)
}

/// The same, but for the units after a fault.
#[tactic(auto, using(crate::proofs::Growths::whole_shown))]
fn show_of(heap: &Heap, budget: &mut Budget, a: Value, quoted: bool) -> Result<Text, ValueFault>
    ensures ok { IfOk result (λ s. show_of heap.now budget.old a quoted ≡ Ok (s, budget.new)) }
    ensures fault { FailsAs result (show_of heap.now budget.old a quoted) }
{
    let mut text = GrowingText::new(heap.allocator());
    show_onto(heap, budget, VALUE_DEPTH_LIMIT, quoted, &mut text, a)?;
    let shown = text.into_text()?;
    Ok(shown)
}

/// Puts what a value shows behind a text, where so many levels may still be opened.
#[cycle(showing)]
#[tactic(auto, using(crate::proofs::Shows::shows))]
pub fn show_onto(
    heap: &Heap,
    budget: &mut Budget,
    levels: u32,
    quoted: bool,
    text: &mut GrowingText,
    value: Value,
) -> Result<(), ValueFault>
    ensures ok { OnOk result (show_at grown levels heap.now quoted text.old budget.old value
        ≡ Ok (text.new, budget.new)) }
    ensures fault { FailsAs result (show_at grown levels heap.now quoted text.old budget.old value) }
{
    budget.charge(1)?;
    show_inside(heap, budget, levels, quoted, text, value)?;
    Ok(())
}

/// The same, once the value is charged for.
#[cycle(showing)]
fn show_inside(
    heap: &Heap,
    budget: &mut Budget,
    levels: u32,
    quoted: bool,
    text: &mut GrowingText,
    value: Value,
) -> Result<(), ValueFault>
    ensures ok { OnOk result (shown_by grown (items_shown grown levels heap.now) (entries_shown grown levels heap.now)
        heap.now quoted text.old budget.old value ≡ Ok (text.new, budget.new)) }
    ensures fault { FailsAs result (shown_by grown (items_shown grown levels heap.now)
        (entries_shown grown levels heap.now) heap.now quoted text.old budget.old value) }
{
    match value {
        Value::List(list) => {
            text.put("[")?;
            show_items(heap, budget, levels, text, heap.list_at(list))?;
            text.put("]")?;
        }
        Value::Tuple(tuple) => {
            let items = heap.tuple_at(tuple);
            text.put("(")?;
            show_items(heap, budget, levels, text, items)?;
            text.put(tuple_end(items.len()))?;
        }
        Value::Dict(dict) => {
            text.put("{")?;
            show_entries(heap, budget, levels, text, dict)?;
            text.put("}")?;
        }
        _ => push_flat(heap, quoted, text, value)?,
    }
    Ok(())
}

#[cycle(showing)]
fn show_items(
    heap: &Heap,
    budget: &mut Budget,
    levels: u32,
    text: &mut GrowingText,
    items: &[Value],
) -> Result<(), ValueFault>
    ensures ok { OnOk result (items_shown grown levels heap.now text.old budget.old items.now
        ≡ Ok (text.new, budget.new)) }
    ensures fault { FailsAs result (items_shown grown levels heap.now text.old budget.old items.now) }
{
    if levels == 0 {
        return Err(ValueFault::Deep);
    }
    'items: for (place, item) in items.iter().enumerate() {
        text.put(separator(place))?;
        show_onto(heap, budget, levels - 1, true, text, *item)?;
    }
    Ok(())
}

#[cycle(showing)]
fn show_entries(
    heap: &Heap,
    budget: &mut Budget,
    levels: u32,
    text: &mut GrowingText,
    dict: DictId,
) -> Result<(), ValueFault>
    ensures ok { OnOk result (entries_shown grown levels heap.now text.old budget.old
        (entries_of (dict_at heap.now dict.0)) ≡ Ok (text.new, budget.new)) }
    ensures fault { FailsAs result (entries_shown grown levels heap.now text.old budget.old
        (entries_of (dict_at heap.now dict.0))) }
{
    if levels == 0 {
        return Err(ValueFault::Deep);
    }
    'places: for place in 0..heap.dict_len(dict) {
        let Some(entry) = entry_in(heap, dict, place) else {
            return Ok(());
        };
        text.put(separator(place))?;
        show_entry(heap, budget, levels - 1, text, entry)?;
    }
    Ok(())
}

#[cycle(showing)]
fn show_entry(
    heap: &Heap,
    budget: &mut Budget,
    levels: u32,
    text: &mut GrowingText,
    entry: Entry,
) -> Result<(), ValueFault>
    ensures ok { OnOk result (onto_entry grown (show_at grown levels heap.now true) text.old budget.old entry
        ≡ Ok (text.new, budget.new)) }
    ensures fault { FailsAs result (onto_entry grown (show_at grown levels heap.now true) text.old budget.old entry) }
{
    show_onto(heap, budget, levels, true, text, entry.key)?;
    text.put(": ")?;
    show_onto(heap, budget, levels, true, text, entry.item)?;
    Ok(())
}

/// The entry at a place of a dict.
pub fn entry_in(heap: &Heap, dict: DictId, place: usize) -> Option<Entry>
    ensures { result ≡ slice_get (entries_of (dict_at heap.now dict.0)) place }
{
    let (_, entry) = heap.place_at(dict, place)?;
    Some(entry)
}

/// What stands in front of the item at a place.
fn separator(place: usize) -> &'static str
    ensures { result.now ≡ separator place }
{
    if place == 0 { "" } else { ", " }
}

fn tuple_end(length: usize) -> &'static str
    ensures { result.now ≡ tuple_end length }
{
    if length == 1 { ",)" } else { ")" }
}

/// Puts what a value shows in which no others stand behind a text.
fn push_flat(heap: &Heap, quoted: bool, text: &mut GrowingText, value: Value) -> Result<(), Memory>
    ensures { OnOk result (text.new ≡ grown text.old (flat_text heap.now quoted value)) }
{
    match value {
        Value::Nil => text.put("None")?,
        Value::Bool(true) => text.put("True")?,
        Value::Bool(false) => text.put("False")?,
        Value::Int(number) => push_number(heap, text, number)?,
        Value::Text(id) => push_text(heap, quoted, text, heap.text_at(id))?,
        Value::Func(_) => text.put("<function>")?,
        Value::Builtin(_) => text.put("<built-in>")?,
        Value::Object(id) => match heap.shown_of(id) {
            Some(shown) => text.put(shown)?,
            None => text.put("<object>")?,
        },
        Value::List(_) | Value::Tuple(_) | Value::Dict(_) => text.put("")?,
    }
    Ok(())
}

fn push_number(heap: &Heap, text: &mut GrowingText, number: i64) -> Result<(), Memory>
    ensures { OnOk result (text.new ≡ grown text.old (decimals number)) }
{
    let shown = py_text::decimals(heap.allocator(), number)?;
    text.put(shown.as_str())?;
    Ok(())
}

fn push_text(heap: &Heap, quoted: bool, text: &mut GrowingText, shown: &str) -> Result<(), Memory>
    ensures { OnOk result (text.new ≡ grown text.old (if quoted then in_quotes shown.now else shown.now)) }
{
    if quoted {
        text.put_quoted(heap.allocator(), shown)?;
    } else {
        text.put(shown)?;
    }
    Ok(())
}
