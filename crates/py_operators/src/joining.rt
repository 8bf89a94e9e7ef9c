//! Lists and tuples put together, and repeated.
ghost use Rattle.std.specs.Prelude.{◌≡◌, ◌++◌, length, Ok, IfOk, OnErr};
ghost use Rattle.std.specs.List.{repeat};
ghost use Rattle.py_heap.specs.Units.{room};
ghost use Rattle.py_heap.specs.Heap.{list_at, tuple_at};
ghost use Rattle.py_compare.specs.Outcomes.{FailsAs, paid_items, new_list, new_tuple};
ghost use Rattle.py_operators.specs.Joining.{times_of};

use py_heap::{Budget, Heap, ListId, TupleId, Value, ValueFault, Values, list_room};
use scons_base::limits::LIST_LIMIT;
use std::alloc::Global;

/// How many times an integer repeats.
pub(crate) fn times_of(number: i64) -> u64
    ensures { result ≡ times_of number }
{
    if number > 0 { number.unsigned_abs() } else { 0 }
}

/// The items of two lists or tuples, once they are charged for.
#[tactic(auto, using(crate::proofs::Lengths::lengths))]
pub(crate) fn joined_items(
    alloc: Global,
    budget: &mut Budget,
    items: &[Value],
    more: &[Value],
) -> Result<Values, ValueFault>
    ensures ok { IfOk result (λ x. paid_items budget.old (items.now ++ more.now) ≡ Ok (x, budget.new)) }
    ensures fault { FailsAs result (paid_items budget.old (items.now ++ more.now)) }
{
    list_room(
        budget,
        (items.len() as u64).saturating_add(more.len() as u64),
    )?;
    let mut made = Values::new(Vec::new(alloc));
    made.extend(items)?;
    made.extend(more)?;
    Ok(made)
}

/// The items of a list or tuple so many times, once they are charged for.
#[tactic(auto, using(crate::proofs::Lengths::lengths))]
pub(crate) fn repeated_items(
    alloc: Global,
    budget: &mut Budget,
    items: &[Value],
    times: u64,
) -> Result<Values, ValueFault>
    ensures ok { IfOk result (λ x. paid_items budget.old (repeat times items.now) ≡ Ok (x, budget.new)) }
    ensures fault { FailsAs result (paid_items budget.old (repeat times items.now)) }
{
    list_room(budget, (items.len() as u64).saturating_mul(times))?;
    let mut made = Values::new(Vec::new(alloc));
    if items.is_empty() {
        return Ok(made);
    }
    'turns: for _ in 0..times {
        made.extend(items)?;
    }
    Ok(made)
}

/// A new list of the items of two.
pub(crate) fn join_lists(
    heap: &mut Heap,
    budget: &mut Budget,
    list: ListId,
    other: ListId,
) -> Result<Value, ValueFault>
    ensures ok { IfOk result (λ v. new_list heap.old budget.old (list_at heap.old list.0 ++ list_at heap.old other.0)
        ≡ Ok (v, heap.new, budget.new)) }
    ensures fault { FailsAs result (new_list heap.old budget.old
        (list_at heap.old list.0 ++ list_at heap.old other.0)) }
    ensures err { OnErr result (heap.new ≡ heap.old) }
{
    let made = joined_items(
        heap.allocator(),
        budget,
        heap.list_at(list),
        heap.list_at(other),
    )?;
    let value = heap.add_list(made)?;
    Ok(value)
}

pub(crate) fn join_tuples(
    heap: &mut Heap,
    budget: &mut Budget,
    tuple: TupleId,
    other: TupleId,
) -> Result<Value, ValueFault>
    ensures ok { IfOk result (λ v. new_tuple heap.old budget.old
        (tuple_at heap.old tuple.0 ++ tuple_at heap.old other.0) ≡ Ok (v, heap.new, budget.new)) }
    ensures fault { FailsAs result (new_tuple heap.old budget.old
        (tuple_at heap.old tuple.0 ++ tuple_at heap.old other.0)) }
    ensures err { OnErr result (heap.new ≡ heap.old) }
{
    let made = joined_items(
        heap.allocator(),
        budget,
        heap.tuple_at(tuple),
        heap.tuple_at(other),
    )?;
    let value = heap.add_tuple(made)?;
    Ok(value)
}

/// A new list of the items of one, so many times.
pub(crate) fn repeat_list(
    heap: &mut Heap,
    budget: &mut Budget,
    list: ListId,
    number: i64,
) -> Result<Value, ValueFault>
    ensures ok { IfOk result (λ v. new_list heap.old budget.old (repeat (times_of number) (list_at heap.old list.0))
        ≡ Ok (v, heap.new, budget.new)) }
    ensures fault { FailsAs result (new_list heap.old budget.old (repeat (times_of number) (list_at heap.old list.0))) }
    ensures err { OnErr result (heap.new ≡ heap.old) }
{
    let made = repeated_items(
        heap.allocator(),
        budget,
        heap.list_at(list),
        times_of(number),
    )?;
    let value = heap.add_list(made)?;
    Ok(value)
}

pub(crate) fn repeat_tuple(
    heap: &mut Heap,
    budget: &mut Budget,
    tuple: TupleId,
    number: i64,
) -> Result<Value, ValueFault>
    ensures ok { IfOk result (λ v. new_tuple heap.old budget.old (repeat (times_of number) (tuple_at heap.old tuple.0))
        ≡ Ok (v, heap.new, budget.new)) }
    ensures fault { FailsAs result (new_tuple heap.old budget.old
        (repeat (times_of number) (tuple_at heap.old tuple.0))) }
    ensures err { OnErr result (heap.new ≡ heap.old) }
{
    let made = repeated_items(
        heap.allocator(),
        budget,
        heap.tuple_at(tuple),
        times_of(number),
    )?;
    let value = heap.add_tuple(made)?;
    Ok(value)
}

/// A copy of items that is to be made, once they are charged for.
pub(crate) fn copied_items(
    alloc: Global,
    budget: &mut Budget,
    items: &[Value],
) -> Result<Values, ValueFault>
    ensures ok { IfOk result (λ x. paid_items budget.old items.now ≡ Ok (x, budget.new)) }
    ensures fault { FailsAs result (paid_items budget.old items.now) }
{
    list_room(budget, items.len() as u64)?;
    let made = Values::of(alloc, items)?;
    Ok(made)
}
