//! Arguments that stand for nodes.
ghost use Rattle.std.specs.Prelude.{◌≡◌, ◌≢◌, Ok, Err, IfOk, IfErr, option_copied};
ghost use Rattle.scons_calls.specs.Kinds.{place_at, place_by, nodes_by};
ghost use Rattle.scons_calls.specs.Results.{each};

use crate::fault::CallFault;
use crate::flattening::flattened;
use crate::objects::Objects;
use crate::thing::Thing;
use py_heap::{Heap, Value};
use scons_base::{Listing, Text};
use scons_decls::{Given, Nodes};

/// A path text, or a node, directory or alias.
pub fn place(heap: &Heap, objects: &Objects, value: Value) -> Result<Given, CallFault>
    ensures ok { IfOk result (λ g. place_by heap.now objects.now value ≡ Ok g) }
    ensures fault { IfErr result (λ e. e ≢ CallFault.Memory → place_by heap.now objects.now value ≡ Err e) }
{
    match value {
        Value::Object(id) => place_of(objects.thing(id)),
        value => match heap.text_of(value) {
            Some(text) => Ok(Given::Text(Text::of(heap.allocator(), text)?)),
            None => Err(CallFault::Arguments),
        },
    }
}

/// The node, directory or alias that an object stands for.
fn place_of(thing: Option<&Thing>) -> Result<Given, CallFault>
    ensures ok { IfOk result (λ g. place_at (option_copied thing.entry) ≡ Ok g) }
    ensures fault { IfErr result (λ e. e ≢ CallFault.Memory → place_at (option_copied thing.entry) ≡ Err e) }
{
    match thing {
        Some(Thing::File(path)) => Ok(Given::File(path.copy()?)),
        Some(Thing::Dir(path)) => Ok(Given::Dir(path.copy()?)),
        Some(Thing::Alias(name)) => Ok(Given::Alias(name.copy()?)),
        Some(Thing::Name(_) | Thing::Env(_) | Thing::Method(..) | Thing::OwnMethod(..)) => {
            Err(CallFault::Arguments)
        }
        Some(Thing::Builders(_) | Thing::Builder(_)) | None => Err(CallFault::Arguments),
    }
}

/// Path texts and nodes, flattened.
#[tactic(auto, using(crate::proofs::Tails::tails))]
pub fn nodes(heap: &Heap, objects: &Objects, values: &[Value]) -> Result<Nodes, CallFault>
    ensures ok { IfOk result (λ nodes. nodes_by heap.now objects.now values.now ≡ Ok nodes) }
    ensures fault { IfErr result (λ e. e ≢ CallFault.Memory → nodes_by heap.now objects.now values.now ≡ Err e) }
{
    let items = flattened(heap, values)?;
    places(heap, objects, items.as_slice())
}

#[tactic(auto, using(crate::proofs::Loops::loops))]
fn places(heap: &Heap, objects: &Objects, items: &[Value]) -> Result<Nodes, CallFault>
    ensures ok { IfOk result (λ nodes. each (place_by heap.now objects.now) items.now ≡ Ok nodes) }
    ensures fault { IfErr result (λ e. e ≢ CallFault.Memory → each (place_by heap.now objects.now) items.now ≡ Err e) }
{
    let mut nodes = Listing::empty(heap.allocator());
    for item in items {
        nodes.push(place(heap, objects, *item)?)?;
    }
    Ok(nodes)
}
