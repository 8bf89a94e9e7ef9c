//! What no script can ask: which of two equal texts stands where in a sorted list, how an object is refused, and what a
//! heap tells of values of each kind.
use py_heap::{Budget, Heap, HostId, Value, ValueFault};
use py_methods::{Name, method};
use py_operators::index;
use scons_base::limits::UNIT_LIMIT;
use std::alloc::Global;
use trial_text::Told;

/// A line for each.
pub fn put_beside(alloc: Global, told: &mut Told) {
    put_sorted(told, &mut Heap::new(alloc));
    put_refused(told, &mut Heap::new(alloc));
    put_found(told, &mut Heap::new(alloc));
}

/// What a list of equal items is once it is sorted.
fn put_sorted(told: &mut Told, heap: &mut Heap) {
    match equal_items(heap) {
        Ok(list) => {
            let items = heap.items_of(list).unwrap_or(&[]);
            told.show(format_args!("sorted: {items:?}\n"));
        }
        Err(fault) => told.show(format_args!("sorted: {fault:?}\n")),
    }
}

/// A list of the texts numbered 2, 0, 1 and 2, of which all but the one numbered 1 are equal, once it is sorted.
fn equal_items(heap: &mut Heap) -> Result<Value, ValueFault> {
    let first = heap.text("x")?;
    let least = heap.text("a")?;
    let second = heap.text("x")?;
    let list = heap.list(&[second, first, least, second])?;
    let mut budget = Budget::new(UNIT_LIMIT);
    method(heap, &mut budget, list, Name::Sort, &[])?;
    Ok(list)
}

/// What an object answers to an index and to a method.
fn put_refused(told: &mut Told, heap: &mut Heap) {
    let mut budget = Budget::new(UNIT_LIMIT);
    let object = Value::Object(HostId(0));
    let indexed = index(heap, &mut budget, object, Value::Int(0));
    told.show(format_args!("indexed: {indexed:?}\n"));
    let called = method(heap, &mut budget, object, Name::Keys, &[]);
    told.show(format_args!("called: {called:?}\n"));
}

/// What a heap tells of a text and a dict as a text, as items and as pairs, and of an object that shows as a path.
fn put_found(told: &mut Told, heap: &mut Heap) {
    match text_and_dict(heap) {
        Ok((text, dict)) => put_views(told, heap, text, dict),
        Err(fault) => told.show(format_args!("found: {fault:?}\n")),
    }
}

/// A text and a dict, beside which an object shows as a path.
fn text_and_dict(heap: &mut Heap) -> Result<(Value, Value), ValueFault> {
    let text = heap.text("é")?;
    let dict = heap.dict(&[(Value::Bool(true), text), (Value::Int(1), Value::Nil)])?;
    heap.object(HostId(3), "a/b.c")?;
    Ok((text, dict))
}

fn put_views(told: &mut Told, heap: &Heap, text: Value, dict: Value) {
    let texts = [
        heap.text_of(text),
        heap.text_of(dict),
        heap.shown_of(HostId(3)),
        heap.shown_of(HostId(4)),
    ];
    told.show(format_args!("found: {texts:?}"));
    let pairs = [
        heap.pair_of(dict, 0),
        heap.pair_of(dict, 1),
        heap.pair_of(text, 0),
    ];
    told.show(format_args!(" {pairs:?}"));
    let items = [heap.items_of(text), heap.items_of(dict)];
    told.show(format_args!(" {items:?}\n"));
}
