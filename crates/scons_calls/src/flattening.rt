//! Lists and tuples that nest, as one flat list.
ghost use Rattle.std.specs.Prelude.{◌≡◌, ◌≢◌, Ok, Err, IfOk, IfErr, OnOk};
ghost use Rattle.scons_calls.specs.Flattening.{flat_by, flat_items, flattened};

use crate::fault::CallFault;
use py_heap::{Heap, Value};
use scons_base::limits::{LIST_LIMIT, NESTING_LIMIT};
use std::marker::Model;

/// How many values more may be met, and the items so far.
#[derive(Drop)]
struct Flat {
    room: u64,
    items: Vec<Value>,
}

impl Model for Flat {
    ghost use Rattle.scons_calls.specs.Flattening.{Flat as FlatSpec};

    ghost Value = { FlatSpec };

    ghost view = { λ f. record { room = f.room; items = f.items.items } };
}

/// The items of lists and tuples, and what is no list. None stands for no item where it is given by itself.
pub fn flattened(heap: &Heap, values: &[Value]) -> Result<Vec<Value>, CallFault>
    ensures ok { IfOk result (λ items. flattened heap.now values.now ≡ Ok items.items) }
    ensures fault { IfErr result (λ e. e ≢ CallFault.Memory → flattened heap.now values.now ≡ Err e) }
{
    if let [Value::Nil] = values {
        return Ok(Vec::new(heap.allocator()));
    }
    flat_items(heap, values)
}

/// The same, where None is an item wherever it stands.
pub fn flat_items(heap: &Heap, values: &[Value]) -> Result<Vec<Value>, CallFault>
    ensures ok { IfOk result (λ items. flat_items heap.now values.now ≡ Ok items.items) }
    ensures fault { IfErr result (λ e. e ≢ CallFault.Memory → flat_items heap.now values.now ≡ Err e) }
{
    let mut flat = Flat {
        room: LIST_LIMIT,
        items: Vec::new(heap.allocator()),
    };
    flatten(heap, values, NESTING_LIMIT, &mut flat)?;
    let Flat { items, .. } = flat;
    Ok(items)
}

#[tactic(auto, using(crate::proofs::Flats::flats, crate::proofs::Loops::loops))]
fn flatten(heap: &Heap, values: &[Value], levels: u32, flat: &mut Flat) -> Result<(), CallFault>
    ensures ok { OnOk result (flat_by heap.now levels flat.old values.now ≡ Ok flat.new) }
    ensures fault { IfErr result (λ e. e ≢ CallFault.Memory → flat_by heap.now levels flat.old values.now ≡ Err e) }
{
    for value in values {
        if flat.room == 0 {
            return Err(CallFault::Arguments);
        }
        flat.room -= 1;
        match heap.items_of(*value) {
            Some(inner) => {
                if levels == 0 {
                    return Err(CallFault::Arguments);
                }
                flatten(heap, inner, levels - 1, flat)?;
            }
            None => flat.items.push(*value)?,
        }
    }
    Ok(())
}
