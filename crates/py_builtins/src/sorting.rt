//! Lists in order.
ghost use Rattle.std.specs.Prelude.{◌≡◌, length, Ok, IfOk, OnOk, OnErr};
ghost use Rattle.py_heap.specs.Heap.{with_list};
ghost use Rattle.py_heap.specs.Given.{next_list};
ghost use Rattle.py_heap.specs.Many.{with_texts};
ghost use Rattle.py_compare.specs.Sorting.{sortable_items, sort_paid, in_order};
ghost use Rattle.py_compare.specs.Iterables.{iterable_items};
ghost use Rattle.py_builtins.specs.Sorted.{paid_order, ordered_list, sorted_list_of};
ghost use Rattle.py_compare.specs.Outcomes.{FailsAs};

use crate::collections::items_cost;
use py_compare::{in_order_with, iterable_items, iterable_texts, needed_length, sort_room};
use py_heap::{Budget, Heap, Value, ValueFault, Values};
use scons_base::{Memory, Text};

/// A list, in order, of all that a value gives.
pub(crate) fn sorted(
    heap: &mut Heap,
    budget: &mut Budget,
    value: Value,
) -> Result<Value, ValueFault>
    ensures ok { IfOk result (λ v. sorted_list_of heap.old budget.old value ≡ Ok (v, heap.new, budget.new)) }
    ensures fault { FailsAs result (sorted_list_of heap.old budget.old value) }
    ensures err { OnErr result (heap.new ≡ heap.old) }
{
    let count = needed_length(heap, value)?;
    ordered_list(heap, budget, value, count)
}

fn ordered_list(
    heap: &mut Heap,
    budget: &mut Budget,
    value: Value,
    count: usize,
) -> Result<Value, ValueFault>
    ensures ok { IfOk result (λ v. ordered_list heap.old budget.old value count ≡ Ok (v, heap.new, budget.new)) }
    ensures fault { FailsAs result (ordered_list heap.old budget.old value count) }
    ensures err { OnErr result (heap.new ≡ heap.old) }
{
    order_room(heap, budget, value, count)?;
    let texts = iterable_texts(heap, value, count)?;
    let items = iterable_items(heap, value, heap.text_count(), count)?;
    let list = add_in_order(heap, texts, items.as_slice())?;
    Ok(list)
}

/// Charges for a sort of so many items and for a list of them.
fn order_room(
    heap: &Heap,
    budget: &mut Budget,
    value: Value,
    count: usize,
) -> Result<(), ValueFault>
    ensures sortable { OnOk result (sortable_items (iterable_items heap.now (length heap.now.texts) count value)
        ≡ Ok tt) }
    ensures ok { OnOk result (paid_order heap.now budget.old value count ≡ Ok budget.new) }
    ensures fault { FailsAs result (paid_order heap.now budget.old value count) }
{
    let cost = items_cost(heap, value, count)?;
    sort_paid(heap, budget, value, count)?;
    budget.charge(cost as u64)?;
    Ok(())
}

/// Charges for a sort of so many items, once it is known that they can be sorted.
fn sort_paid(heap: &Heap, budget: &mut Budget, value: Value, count: usize) -> Result<(), ValueFault>
    ensures sortable { OnOk result (sortable_items (iterable_items heap.now (length heap.now.texts) count value)
        ≡ Ok tt) }
    ensures ok { OnOk result (sort_paid budget.old (iterable_items heap.now (length heap.now.texts) count value)
        ≡ Ok budget.new) }
    ensures fault { FailsAs result (sort_paid budget.old
        (iterable_items heap.now (length heap.now.texts) count value)) }
{
    match value {
        Value::List(list) => sort_room(budget, heap.list_at(list)),
        Value::Tuple(tuple) => sort_room(budget, heap.tuple_at(tuple)),
        _ => {
            let items = iterable_items(heap, value, heap.text_count(), count)?;
            sort_room(budget, items.as_slice())
        }
    }
}

/// Adds texts, and a list in order of items among which they may stand.
fn add_in_order(heap: &mut Heap, texts: Vec<Text>, items: &[Value]) -> Result<Value, Memory>
    requires { sortable_items items.now ≡ Ok tt }
    ensures ok { IfOk result (λ v. (v ≡ next_list heap.old)
        × (heap.new ≡ with_list (with_texts heap.old texts.items)
        (in_order (with_texts heap.old texts.items) items.now))) }
    ensures err { OnErr result (heap.new ≡ heap.old) }
{
    let made = in_order_with(heap, texts.as_slice(), items)?;
    heap.add_list_with(texts, made)
}
