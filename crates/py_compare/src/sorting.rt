//! Sorting integers and sorting texts.
ghost use Rattle.std.specs.Prelude.{◌≡◌, Ok, Err, IfOk, IfErr, OnOk};
ghost use Rattle.py_heap.specs.Many.{with_texts};
ghost use Rattle.py_compare.specs.Sorting.{sortable, sortable_beside, sortable_items, sort_paid, in_order, sorted_of};
ghost use Rattle.py_compare.specs.SortOrder.{sort_order, sort_rank};
ghost use Rattle.py_compare.specs.Outcomes.{FailsAs};

use crate::order::order_among;
use py_heap::{Budget, Heap, Value, ValueFault, Values};
use scons_base::{Memory, Text};
use std::cmp::Ordering;

/// Items in order, once they are charged for.
pub fn sorted_items(heap: &Heap, budget: &mut Budget, items: &[Value]) -> Result<Values, ValueFault>
    ensures ok { IfOk result (λ made. sorted_of heap.now budget.old items.now ≡ Ok (made, budget.new)) }
    ensures fault { FailsAs result (sorted_of heap.now budget.old items.now) }
{
    sort_room(budget, items)?;
    let made = in_order(heap, items)?;
    Ok(made)
}

/// Charges for a sort of items, once it is known that they can be sorted.
pub fn sort_room(budget: &mut Budget, items: &[Value]) -> Result<(), ValueFault>
    ensures sortable { OnOk result (sortable_items items.now ≡ Ok tt) }
    ensures ok { OnOk result (sort_paid budget.old items.now ≡ Ok budget.new) }
    ensures fault { IfErr result (λ e. sort_paid budget.old items.now ≡ Err e) }
{
    sortable_items(items)?;
    budget.charge(items.len() as u64)?;
    Ok(())
}

fn sortable_items(items: &[Value]) -> Result<(), ValueFault>
    ensures { result ≡ sortable_items items.now }
{
    match items.first() {
        Some(first) => sortable_beside(*first, items),
        None => Ok(()),
    }
}

fn sortable_beside(value: Value, items: &[Value]) -> Result<(), ValueFault>
    ensures { result ≡ sortable_beside value items.now }
{
    'items: for item in items {
        if !sortable(value, *item) {
            return Err(ValueFault::Mismatch(value.kind(), item.kind()));
        }
    }
    Ok(())
}

fn sortable(a: Value, b: Value) -> bool
    ensures { result ≡ sortable a b }
{
    match a {
        Value::Int(_) => match b {
            Value::Int(_) => true,
            _ => false,
        },
        Value::Text(_) => match b {
            Value::Text(_) => true,
            _ => false,
        },
        _ => false,
    }
}

/// Items in order.
#[tactic(auto, using(crate::proofs::Coming::no_texts))]
fn in_order(heap: &Heap, items: &[Value]) -> Result<Values, Memory>
    requires { sortable_items items.now ≡ Ok tt }
    ensures { IfOk result (λ made. made ≡ in_order heap.now items.now) }
{
    in_order_with(heap, &[], items)
}

/// Items in order, where texts that are still to be added to the heap may stand among them.
pub fn in_order_with(heap: &Heap, texts: &[Text], items: &[Value]) -> Result<Values, Memory>
    requires { sortable_items items.now ≡ Ok tt }
    ensures { IfOk result (λ made. made ≡ in_order (with_texts heap.now texts.now) items.now) }
{
    let mut made = Vec::new(heap.allocator());
    made.extend_from_slice(items)?;
    made.sort_by(|a, b| sort_order(heap, texts, *a, *b))?;
    Ok(Values::new(made))
}

/// An order of all values, since a sort wants one: integers, then texts, then the others, which are left as they stand.
fn sort_order(heap: &Heap, texts: &[Text], a: Value, b: Value) -> Ordering
    ensures { result ≡ sort_order (with_texts heap.now texts.now) a b }
{
    match order_among(heap, texts, a, b) {
        Ok(order) => order,
        Err(_) => sort_rank(a).cmp(&sort_rank(b)),
    }
}

fn sort_rank(value: Value) -> u8
    ensures { result ≡ sort_rank value }
{
    match value {
        Value::Int(_) => 0,
        Value::Text(_) => 1,
        _ => 2,
    }
}
