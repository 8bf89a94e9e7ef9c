//! Copies of variables' values, as values of the heap.
ghost use Rattle.std.specs.Prelude.{◌≡◌, ◌≢◌, Ok, Err, IfOk, IfErr};
ghost use Rattle.py_host.specs.Extends.{Extends};
ghost use Rattle.scons_calls.specs.Values.{node_value, item_value, item_values, entry_value, pair_value, pair_values, variable_value, listed, keyed, tuple_of};

use crate::objects::Objects;
use crate::values::{dict_value, list_value, shown, text_value, texts_value, tuple_value};
use env_vars::{EnvValue, Item};
use py_heap::{Heap, Value, ValueFault};
use scons_base::{PathText, Text};

/// A copy of a variable's value.
#[tactic(auto, using(crate::proofs::Standing::standing, crate::proofs::Tails::tails))]
pub fn variable_value(
    heap: &mut Heap,
    objects: &mut Objects,
    value: &EnvValue,
) -> Result<Value, ValueFault>
    ensures ok { IfOk result (λ v. variable_value objects.old heap.old value.now ≡ Ok (v, objects.new, heap.new)) }
    ensures fault { IfErr result (λ e. e ≢ ValueFault.Memory → variable_value objects.old heap.old value.now ≡ Err e) }
    ensures stands { Extends heap.old heap.new }
{
    match value {
        EnvValue::Nil => Ok(Value::Nil),
        EnvValue::Bool(flag) => Ok(Value::Bool(*flag)),
        EnvValue::Int(number) => Ok(Value::Int(*number)),
        EnvValue::Text(text) => text_value(heap, text.as_str()),
        EnvValue::Words(words) => texts_value(heap, words.as_slice()),
        EnvValue::List(items) => items_value(heap, objects, items.as_slice()),
        EnvValue::Pairs(pairs) => pairs_value(heap, objects, pairs.as_slice()),
    }
}

#[tactic(auto, using(crate::proofs::Standing::standing, crate::proofs::Tails::tails))]
fn items_value(heap: &mut Heap, objects: &mut Objects, items: &[Item]) -> Result<Value, ValueFault>
    ensures ok { IfOk result (λ v.
        listed (item_values objects.old heap.old items.now) ≡ Ok (v, objects.new, heap.new)) }
    ensures fault { IfErr result (λ e. e ≢ ValueFault.Memory →
        listed (item_values objects.old heap.old items.now) ≡ Err e) }
    ensures stands { Extends heap.old heap.new }
{
    let values = item_values(heap, objects, items)?;
    list_value(heap, values.as_slice())
}

#[tactic(auto, using(crate::proofs::Standing::standing, crate::proofs::Loops::loops))]
fn item_values(
    heap: &mut Heap,
    objects: &mut Objects,
    items: &[Item],
) -> Result<Vec<Value>, ValueFault>
    ensures ok { IfOk result (λ v. item_values objects.old heap.old items.now ≡ Ok (v.items, objects.new, heap.new)) }
    ensures fault { IfErr result (λ e. e ≢ ValueFault.Memory → item_values objects.old heap.old items.now ≡ Err e) }
    ensures stands { Extends heap.old heap.new }
{
    let mut values = Vec::new(heap.allocator());
    for item in items {
        values.push(item_value(heap, objects, item)?)?;
    }
    Ok(values)
}

#[tactic(auto, using(crate::proofs::Standing::standing, crate::proofs::Tails::tails))]
fn pairs_value(
    heap: &mut Heap,
    objects: &mut Objects,
    pairs: &[(Text, Item)],
) -> Result<Value, ValueFault>
    ensures ok { IfOk result (λ v. keyed (pair_values objects.old heap.old pairs.now) ≡ Ok (v, objects.new, heap.new)) }
    ensures fault { IfErr result (λ e. e ≢ ValueFault.Memory →
        keyed (pair_values objects.old heap.old pairs.now) ≡ Err e) }
    ensures stands { Extends heap.old heap.new }
{
    let values = pair_values(heap, objects, pairs)?;
    dict_value(heap, values.as_slice())
}

#[tactic(auto, using(crate::proofs::Standing::standing, crate::proofs::Loops::loops))]
fn pair_values(
    heap: &mut Heap,
    objects: &mut Objects,
    pairs: &[(Text, Item)],
) -> Result<Vec<(Value, Value)>, ValueFault>
    ensures ok { IfOk result (λ v. pair_values objects.old heap.old pairs.now ≡ Ok (v.items, objects.new, heap.new)) }
    ensures fault { IfErr result (λ e. e ≢ ValueFault.Memory → pair_values objects.old heap.old pairs.now ≡ Err e) }
    ensures stands { Extends heap.old heap.new }
{
    let mut values = Vec::new(heap.allocator());
    for (name, item) in pairs {
        values.push(pair_value(heap, objects, name, item)?)?;
    }
    Ok(values)
}

#[tactic(auto, using(crate::proofs::Standing::standing, crate::proofs::Tails::tails))]
fn pair_value(
    heap: &mut Heap,
    objects: &mut Objects,
    name: &Text,
    item: &Item,
) -> Result<(Value, Value), ValueFault>
    ensures ok { IfOk result (λ p.
        pair_value objects.old heap.old (name.now, item.now) ≡ Ok (p, objects.new, heap.new)) }
    ensures fault { IfErr result (λ e. e ≢ ValueFault.Memory →
        pair_value objects.old heap.old (name.now, item.now) ≡ Err e) }
    ensures stands { Extends heap.old heap.new }
{
    let key = text_value(heap, name.as_str())?;
    let value = entry_value(heap, objects, item)?;
    Ok((key, value))
}

/// What stands in a dict: a pair there tells the value, or None.
#[tactic(auto, using(crate::proofs::Standing::standing, crate::proofs::Tails::tails))]
fn entry_value(heap: &mut Heap, objects: &mut Objects, item: &Item) -> Result<Value, ValueFault>
    ensures ok { IfOk result (λ v. entry_value objects.old heap.old item.now ≡ Ok (v, objects.new, heap.new)) }
    ensures fault { IfErr result (λ e. e ≢ ValueFault.Memory → entry_value objects.old heap.old item.now ≡ Err e) }
    ensures stands { Extends heap.old heap.new }
{
    match item {
        Item::Pair(_, Some(value)) => text_value(heap, value.as_str()),
        Item::Pair(_, None) => Ok(Value::Nil),
        Item::Text(_) | Item::Int(_) | Item::Node(_) => item_value(heap, objects, item),
    }
}

#[tactic(auto, using(crate::proofs::Standing::standing, crate::proofs::Tails::tails))]
fn item_value(heap: &mut Heap, objects: &mut Objects, item: &Item) -> Result<Value, ValueFault>
    ensures ok { IfOk result (λ v. item_value objects.old heap.old item.now ≡ Ok (v, objects.new, heap.new)) }
    ensures fault { IfErr result (λ e. e ≢ ValueFault.Memory → item_value objects.old heap.old item.now ≡ Err e) }
    ensures stands { Extends heap.old heap.new }
{
    match item {
        Item::Text(text) => text_value(heap, text.as_str()),
        Item::Int(number) => Ok(Value::Int(*number)),
        Item::Node(path) => node_value(heap, objects, path),
        Item::Pair(name, None) => text_value(heap, name.as_str()),
        Item::Pair(name, Some(value)) => two_texts(heap, name, value),
    }
}

/// A tuple of two texts.
#[tactic(auto, using(crate::proofs::Standing::standing, crate::proofs::Tails::tails))]
fn two_texts(heap: &mut Heap, name: &Text, value: &Text) -> Result<Value, ValueFault>
    ensures ok { IfOk result (λ v. tuple_of heap.old name.now value.now ≡ Ok (v, heap.new)) }
    ensures fault { IfErr result (λ e. e ≢ ValueFault.Memory → tuple_of heap.old name.now value.now ≡ Err e) }
    ensures stands { Extends heap.old heap.new }
{
    let name = text_value(heap, name.as_str())?;
    let value = text_value(heap, value.as_str())?;
    tuple_value(heap, &[name, value])
}

#[tactic(auto, using(crate::proofs::Standing::standing, crate::proofs::Tails::tails))]
fn node_value(heap: &mut Heap, objects: &mut Objects, path: &PathText) -> Result<Value, ValueFault>
    ensures ok { IfOk result (λ v. node_value objects.old heap.old path.now ≡ Ok (v, objects.new, heap.new)) }
    ensures fault { IfErr result (λ e. e ≢ ValueFault.Memory → node_value objects.old heap.old path.now ≡ Err e) }
    ensures stands { Extends heap.old heap.new }
{
    let id = objects.node(path)?;
    shown(heap, id, path.as_str())
}
