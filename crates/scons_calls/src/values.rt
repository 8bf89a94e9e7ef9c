//! What the host answers, as values of the heap. Whatever is answered, what stood in the heap stands there.
ghost use Rattle.std.specs.Prelude.{◌≡◌, ◌≢◌, Ok, Err, IfOk, IfErr};
ghost use Rattle.py_heap.specs.Given.{given_text, given_list, given_tuple, given_dict, given_object};
ghost use Rattle.py_host.specs.Extends.{Extends};
ghost use Rattle.scons_calls.specs.Things.{numbered};
ghost use Rattle.scons_calls.specs.Values.{shown_in, shown_value, given_value, node_values, nodes_value, text_values, texts_value};

use crate::objects::Objects;
use crate::thing::Thing;
use py_heap::{Heap, HostId, Value, ValueFault};
use scons_base::Text;
use scons_decls::Given;

/// A new text.
pub fn text_value(heap: &mut Heap, text: &str) -> Result<Value, ValueFault>
    ensures ok { IfOk result (λ v. given_text heap.old text.now ≡ Ok (v, heap.new)) }
    ensures fault { IfErr result (λ e. e ≢ ValueFault.Memory → given_text heap.old text.now ≡ Err e) }
    ensures stands { Extends heap.old heap.new }
{
    heap.text(text)
}

/// A new list.
pub fn list_value(heap: &mut Heap, items: &[Value]) -> Result<Value, ValueFault>
    ensures ok { IfOk result (λ v. given_list heap.old items.now ≡ Ok (v, heap.new)) }
    ensures fault { IfErr result (λ e. e ≢ ValueFault.Memory → given_list heap.old items.now ≡ Err e) }
    ensures stands { Extends heap.old heap.new }
{
    heap.list(items)
}

/// A new tuple.
pub fn tuple_value(heap: &mut Heap, items: &[Value]) -> Result<Value, ValueFault>
    ensures ok { IfOk result (λ v. given_tuple heap.old items.now ≡ Ok (v, heap.new)) }
    ensures fault { IfErr result (λ e. e ≢ ValueFault.Memory → given_tuple heap.old items.now ≡ Err e) }
    ensures stands { Extends heap.old heap.new }
{
    heap.tuple(items)
}

/// A new dict.
pub fn dict_value(heap: &mut Heap, pairs: &[(Value, Value)]) -> Result<Value, ValueFault>
    ensures ok { IfOk result (λ v. given_dict heap.old pairs.now ≡ Ok (v, heap.new)) }
    ensures fault { IfErr result (λ e. e ≢ ValueFault.Memory → given_dict heap.old pairs.now ≡ Err e) }
    ensures stands { Extends heap.old heap.new }
{
    heap.dict(pairs)
}

/// An object, which shows as this text.
fn object_value(heap: &mut Heap, id: HostId, text: &str) -> Result<Value, ValueFault>
    ensures ok { IfOk result (λ v. given_object heap.old id.0 text.now ≡ Ok (v, heap.new)) }
    ensures fault { IfErr result (λ e. e ≢ ValueFault.Memory → given_object heap.old id.0 text.now ≡ Err e) }
    ensures stands { Extends heap.old heap.new }
{
    heap.object(id, text)
}

/// The value of a node, directory or alias: its one object, which shows as its path or name.
#[tactic(auto, using(crate::proofs::Standing::standing, crate::proofs::Tails::tails, crate::proofs::Numbering::naming))]
pub fn given_value(
    heap: &mut Heap,
    objects: &mut Objects,
    given: &Given,
) -> Result<Value, ValueFault>
    ensures ok { IfOk result (λ v. given_value objects.old heap.old given.now ≡ Ok (v, objects.new, heap.new)) }
    ensures fault { IfErr result (λ e. e ≢ ValueFault.Memory → given_value objects.old heap.old given.now ≡ Err e) }
    ensures stands { Extends heap.old heap.new }
{
    match given {
        Given::File(path) => one_value(heap, objects, Thing::File(path.copy()?), path.as_str()),
        Given::Dir(path) => one_value(heap, objects, Thing::Dir(path.copy()?), path.as_str()),
        Given::Alias(name) => one_value(heap, objects, Thing::Alias(name.copy()?), name.as_str()),
        Given::Text(text) => text_value(heap, text.as_str()),
    }
}

/// The one object of a thing, which shows as this text.
#[tactic(auto, using(crate::proofs::Standing::standing, crate::proofs::Tails::tails))]
fn one_value(
    heap: &mut Heap,
    objects: &mut Objects,
    thing: Thing,
    text: &str,
) -> Result<Value, ValueFault>
    ensures ok { IfOk result (λ v.
        shown_value heap.old text.now (numbered objects.old thing) ≡ Ok (v, objects.new, heap.new)) }
    ensures fault { IfErr result (λ e. e ≢ ValueFault.Memory →
        shown_value heap.old text.now (numbered objects.old thing) ≡ Err e) }
    ensures stands { Extends heap.old heap.new }
{
    let id = objects.object(thing)?;
    shown(heap, id, text)
}

/// An object, which shows as this text from its first giving out on.
#[tactic(auto, using(crate::proofs::Standing::standing, crate::proofs::Tails::tails))]
pub(crate) fn shown(heap: &mut Heap, id: HostId, text: &str) -> Result<Value, ValueFault>
    ensures ok { IfOk result (λ v. shown_in heap.old id.0 text.now ≡ Ok (v, heap.new)) }
    ensures fault { IfErr result (λ e. e ≢ ValueFault.Memory → shown_in heap.old id.0 text.now ≡ Err e) }
    ensures stands { Extends heap.old heap.new }
{
    match heap.shown_of(id) {
        Some(_) => Ok(Value::Object(id)),
        None => object_value(heap, id, text),
    }
}

/// A list of nodes.
#[tactic(auto, using(crate::proofs::Standing::standing, crate::proofs::Tails::tails))]
pub fn nodes_value(
    heap: &mut Heap,
    objects: &mut Objects,
    nodes: &[Given],
) -> Result<Value, ValueFault>
    ensures ok { IfOk result (λ v. nodes_value objects.old heap.old nodes.now ≡ Ok (v, objects.new, heap.new)) }
    ensures fault { IfErr result (λ e. e ≢ ValueFault.Memory → nodes_value objects.old heap.old nodes.now ≡ Err e) }
    ensures stands { Extends heap.old heap.new }
{
    let values = node_values(heap, objects, nodes)?;
    list_value(heap, values.as_slice())
}

#[tactic(auto, using(crate::proofs::Standing::standing, crate::proofs::Loops::loops))]
fn node_values(
    heap: &mut Heap,
    objects: &mut Objects,
    nodes: &[Given],
) -> Result<Vec<Value>, ValueFault>
    ensures ok { IfOk result (λ v. node_values objects.old heap.old nodes.now ≡ Ok (v.items, objects.new, heap.new)) }
    ensures fault { IfErr result (λ e. e ≢ ValueFault.Memory → node_values objects.old heap.old nodes.now ≡ Err e) }
    ensures stands { Extends heap.old heap.new }
{
    let mut values = Vec::new(heap.allocator());
    for node in nodes {
        values.push(given_value(heap, objects, node)?)?;
    }
    Ok(values)
}

/// A list of texts.
#[tactic(auto, using(crate::proofs::Standing::standing, crate::proofs::Tails::tails))]
pub fn texts_value(heap: &mut Heap, texts: &[Text]) -> Result<Value, ValueFault>
    ensures ok { IfOk result (λ v. texts_value heap.old texts.now ≡ Ok (v, heap.new)) }
    ensures fault { IfErr result (λ e. e ≢ ValueFault.Memory → texts_value heap.old texts.now ≡ Err e) }
    ensures stands { Extends heap.old heap.new }
{
    let values = text_values(heap, texts)?;
    list_value(heap, values.as_slice())
}

#[tactic(auto, using(crate::proofs::Standing::standing, crate::proofs::Loops::loops))]
fn text_values(heap: &mut Heap, texts: &[Text]) -> Result<Vec<Value>, ValueFault>
    ensures ok { IfOk result (λ v. text_values heap.old texts.now ≡ Ok (v.items, heap.new)) }
    ensures fault { IfErr result (λ e. e ≢ ValueFault.Memory → text_values heap.old texts.now ≡ Err e) }
    ensures stands { Extends heap.old heap.new }
{
    let mut values = Vec::new(heap.allocator());
    for text in texts {
        values.push(text_value(heap, text.as_str())?)?;
    }
    Ok(values)
}
