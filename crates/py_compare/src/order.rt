//! The order of integers and of texts.
ghost use Rattle.std.specs.Prelude.{◌≡◌};
ghost use Rattle.py_heap.specs.Heap.{text_at};
ghost use Rattle.py_heap.specs.Many.{with_texts};
ghost use Rattle.py_compare.specs.Order.{order_of};

use py_heap::{Heap, TextId, Value, ValueFault};
use scons_base::Text;
use std::cmp::Ordering;

/// How two values are ordered: two integers, or two texts by their characters.
#[tactic(auto, using(crate::proofs::Coming::no_texts))]
pub fn order_of(heap: &Heap, a: Value, b: Value) -> Result<Ordering, ValueFault>
    ensures { result ≡ order_of heap.now a b }
{
    order_among(heap, &[], a, b)
}

/// The same, where texts that are still to be added to the heap have their numbers already.
pub(crate) fn order_among(
    heap: &Heap,
    texts: &[Text],
    a: Value,
    b: Value,
) -> Result<Ordering, ValueFault>
    ensures { result ≡ order_of (with_texts heap.now texts.now) a b }
{
    match a {
        Value::Int(number) => match b {
            Value::Int(other) => Ok(number.cmp(&other)),
            _ => Err(ValueFault::Mismatch(a.kind(), b.kind())),
        },
        Value::Text(text) => match b {
            Value::Text(other) => {
                let other = text_among(heap, texts, other);
                Ok(text_among(heap, texts, text).cmp(other))
            }
            _ => Err(ValueFault::Mismatch(a.kind(), b.kind())),
        },
        _ => Err(ValueFault::Mismatch(a.kind(), b.kind())),
    }
}

/// The text of a number, which may be one of those to be added.
#[tactic(auto, using(crate::proofs::Coming::coming))]
fn text_among<'a>(heap: &'a Heap, texts: &'a [Text], id: TextId) -> &'a str
    ensures { result.now ≡ text_at (with_texts heap.now texts.now) id.0 }
{
    let count = heap.text_count();
    let place = id.0 as usize;
    if place < count {
        return heap.text_at(id);
    }
    match texts.get(place - count) {
        Some(text) => text.as_str(),
        None => "",
    }
}
