//! A million items of a list: appended, indexed, joined and sorted.
use py_heap::{Budget, Heap, Value, ValueFault};
use py_methods::{Name, method};
use py_operators::index;
use std::io;
use std::time::Instant;

const ITEMS: i64 = 1_000_000;

const UNITS: u64 = 100_000_000;

/// A step from one item to the next, so that they come in no order.
const STEP: i64 = 614_657;

/// Says how long each operation took.
pub fn time_operations(rt: &HostRuntime) -> io::Result<()> {
    let mut heap = Heap::new(rt.alloc());
    let mut budget = Budget::new(UNITS);
    let Ok(list) = heap.list(&[]) else {
        return rt.println("refused");
    };
    time_over(rt, &mut heap, &mut budget, list)
}

fn time_over(
    rt: &HostRuntime,
    heap: &mut Heap,
    budget: &mut Budget,
    list: Value,
) -> io::Result<()> {
    let append = time_appends(rt, heap, budget, list)?;
    let start = Instant::now(rt)?;
    let sum = sum_of(heap, budget, list).unwrap_or(0);
    let index = start.elapsed(rt)?.as_micros();
    let join = time_join(rt, heap, budget)?;
    let sort = time_sort(rt, heap, budget, list)?;
    println!(rt;
        "py_value: append {append}, index {index}, join {join}, sort {sort} microseconds, sum {sum}"
    )
}

fn time_appends(
    rt: &HostRuntime,
    heap: &mut Heap,
    budget: &mut Budget,
    list: Value,
) -> io::Result<u128> {
    let start = Instant::now(rt)?;
    if append_all(heap, budget, list).is_err() {
        rt.println("refused")?;
    }
    Ok(start.elapsed(rt)?.as_micros())
}

fn time_join(rt: &HostRuntime, heap: &mut Heap, budget: &mut Budget) -> io::Result<u128> {
    let texts = texts(heap, budget).unwrap_or(Value::Nil);
    let comma = heap.text(",").unwrap_or(Value::Nil);
    let start = Instant::now(rt)?;
    if method(heap, budget, comma, Name::Join, &[texts]).is_err() {
        rt.println("refused")?;
    }
    Ok(start.elapsed(rt)?.as_micros())
}

fn time_sort(
    rt: &HostRuntime,
    heap: &mut Heap,
    budget: &mut Budget,
    list: Value,
) -> io::Result<u128> {
    let start = Instant::now(rt)?;
    if method(heap, budget, list, Name::Sort, &[]).is_err() {
        rt.println("refused")?;
    }
    Ok(start.elapsed(rt)?.as_micros())
}

fn append_all(heap: &mut Heap, budget: &mut Budget, list: Value) -> Result<(), ValueFault> {
    let mut item = 0;
    for _ in 0..ITEMS {
        method(heap, budget, list, Name::Append, &[Value::Int(item)])?;
        item = item.wrapping_add(STEP) % ITEMS;
    }
    Ok(())
}

fn sum_of(heap: &mut Heap, budget: &mut Budget, list: Value) -> Result<i64, ValueFault> {
    let mut sum: i64 = 0;
    for place in 0..ITEMS {
        if let Value::Int(item) = index(heap, budget, list, Value::Int(place))? {
            sum = sum.wrapping_add(item);
        }
    }
    Ok(sum)
}

/// A list of a million texts of two bytes.
fn texts(heap: &mut Heap, budget: &mut Budget) -> Result<Value, ValueFault> {
    let list = heap.list(&[])?;
    for _ in 0..ITEMS {
        let text = heap.text("ab")?;
        method(heap, budget, list, Name::Append, &[text])?;
    }
    Ok(list)
}
