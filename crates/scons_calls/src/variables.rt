//! Values of construction variables.
ghost use Rattle.std.specs.Prelude.{◌≡◌, ◌≢◌, Ok, Err, IfOk, IfErr, OnOk};
ghost use Rattle.std.specs.List.{list_all};
ghost use Rattle.env_vars.specs.Given.{flag_text};
ghost use Rattle.scons_calls.specs.Identifiers.{is_letter, is_part, is_identifier};
ghost use Rattle.scons_calls.specs.Results.{and_one, and_more, each, each_joined};
ghost use Rattle.scons_calls.specs.Variables.{item_by, item_of, entry_by, pair_by, dict_by, definition_by, define_by, only, macro_by, macros_by, tuple_macros, list_for, is_macros, variable_by};

use crate::fault::CallFault;
use crate::flattening::flattened;
use crate::nodes::place;
use crate::objects::Objects;
use crate::pairs::pair_at;
use crate::texts::text;
use env_vars::{EnvValue, Item};
use py_heap::{DictId, Heap, Value};
use py_text::decimals;
use scons_base::{Listing, Text};
use scons_decls::Given;

/// The variable whose pairs aren't flattened.
const DEFINES: &str = "CPPDEFINES";

/// Whether a text is a name: letters, digits and `_`, no digit in front.
pub fn is_identifier(text: &str) -> bool
    ensures { result ≡ is_identifier text.now }
{
    match text.as_bytes() {
        [] => false,
        [first, rest @ ..] => is_letter(*first) && are_parts(rest),
    }
}

fn are_parts(bytes: &[u8]) -> bool
    ensures { result ≡ list_all is_part bytes.now }
{
    bytes.iter().all(|byte| is_part(*byte))
}

fn is_part(byte: u8) -> bool
    ensures { result ≡ is_part byte }
{
    is_letter(byte) || byte.is_ascii_digit()
}

fn is_letter(byte: u8) -> bool
    ensures { result ≡ is_letter byte }
{
    byte == b'_' || byte.is_ascii_alphabetic()
}

/// The value that a script gives a variable.
pub fn variable_of(
    heap: &Heap,
    objects: &Objects,
    name: &str,
    value: Value,
) -> Result<EnvValue, CallFault>
    ensures ok { IfOk result (λ x. variable_by heap.now objects.now name.now value ≡ Ok x) }
    ensures fault { IfErr result (λ e. e ≢ CallFault.Memory → variable_by heap.now objects.now name.now value ≡ Err e) }
{
    match value {
        Value::Nil => Ok(EnvValue::Nil),
        Value::Bool(flag) => Ok(EnvValue::Bool(flag)),
        Value::Int(number) => Ok(EnvValue::Int(number)),
        Value::Text(id) => Ok(EnvValue::Text(Text::of(heap.allocator(), heap.text_at(id))?)),
        Value::Dict(id) => Ok(EnvValue::Pairs(pairs(heap, objects, id)?)),
        value => Ok(EnvValue::List(list(heap, objects, name, value)?)),
    }
}

#[tactic(auto, using(crate::proofs::Tails::tails))]
fn list(
    heap: &Heap,
    objects: &Objects,
    name: &str,
    value: Value,
) -> Result<Listing<Item>, CallFault>
    ensures ok { IfOk result (λ items. list_for heap.now objects.now (is_macros name.now) value ≡ Ok items) }
    ensures fault { IfErr result (λ e. e ≢ CallFault.Memory →
        list_for heap.now objects.now (is_macros name.now) value ≡ Err e) }
{
    if name == DEFINES {
        return defines(heap, objects, value);
    }
    let values = flattened(heap, &[value])?;
    items(heap, objects, values.as_slice())
}

#[tactic(auto, using(crate::proofs::Loops::loops))]
fn items(heap: &Heap, objects: &Objects, values: &[Value]) -> Result<Listing<Item>, CallFault>
    ensures ok { IfOk result (λ items. each (item_by heap.now objects.now) values.now ≡ Ok items) }
    ensures fault { IfErr result (λ e. e ≢ CallFault.Memory → each (item_by heap.now objects.now) values.now ≡ Err e) }
{
    let mut items = Listing::empty(heap.allocator());
    for value in values {
        items.push(item(heap, objects, *value)?)?;
    }
    Ok(items)
}

/// An item of a list.
fn item(heap: &Heap, objects: &Objects, value: Value) -> Result<Item, CallFault>
    ensures ok { IfOk result (λ one. item_by heap.now objects.now value ≡ Ok one) }
    ensures fault { IfErr result (λ e. e ≢ CallFault.Memory → item_by heap.now objects.now value ≡ Err e) }
{
    match value {
        Value::Int(number) => Ok(Item::Int(number)),
        Value::Bool(flag) => Ok(Item::Text(Text::of(heap.allocator(), word_of(flag))?)),
        value => item_of(place(heap, objects, value)?),
    }
}

/// What stands for a node, as an item.
fn item_of(given: Given) -> Result<Item, CallFault>
    ensures { result ≡ item_of given }
{
    match given {
        Given::Text(text) => Ok(Item::Text(text)),
        Given::File(path) | Given::Dir(path) => Ok(Item::Node(path)),
        Given::Alias(_) => Err(CallFault::Arguments),
    }
}

/// How True and False are written.
fn word_of(flag: bool) -> &'static str
    ensures { result.now ≡ flag_text flag }
{
    if flag { "True" } else { "False" }
}

/// The pairs of a dict.
#[tactic(auto, using(crate::proofs::Loops::loops))]
fn pairs(heap: &Heap, objects: &Objects, dict: DictId) -> Result<Listing<(Text, Item)>, CallFault>
    ensures ok { IfOk result (λ pairs. dict_by heap.now objects.now dict.0 ≡ Ok pairs) }
    ensures fault { IfErr result (λ e. e ≢ CallFault.Memory → dict_by heap.now objects.now dict.0 ≡ Err e) }
{
    let mut pairs = Listing::empty(heap.allocator());
    'pairs: for at in 0..heap.dict_len(dict) {
        if let Some((key, value)) = pair_at(heap, dict, at) {
            push_pair(heap, objects, &mut pairs, key, value)?;
        }
    }
    Ok(pairs)
}

fn push_pair(
    heap: &Heap,
    objects: &Objects,
    pairs: &mut Listing<(Text, Item)>,
    key: Value,
    value: Value,
) -> Result<(), CallFault>
    ensures ok { OnOk result (and_one pairs.old (pair_by heap.now objects.now (key, value)) ≡ Ok pairs.new) }
    ensures fault { IfErr result (λ e. e ≢ CallFault.Memory →
        and_one pairs.old (pair_by heap.now objects.now (key, value)) ≡ Err e) }
{
    Ok(pairs.push(pair(heap, objects, key, value)?)?)
}

/// A pair of a dict.
fn pair(heap: &Heap, objects: &Objects, key: Value, value: Value) -> Result<(Text, Item), CallFault>
    ensures ok { IfOk result (λ p. pair_by heap.now objects.now (key, value) ≡ Ok p) }
    ensures fault { IfErr result (λ e. e ≢ CallFault.Memory → pair_by heap.now objects.now (key, value) ≡ Err e) }
{
    let name = text(heap, key)?;
    let item = entry(heap, objects, &name, value)?;
    Ok((name, item))
}

/// What stands under a key. None is told as a pair without a value.
fn entry(heap: &Heap, objects: &Objects, name: &Text, value: Value) -> Result<Item, CallFault>
    ensures ok { IfOk result (λ one. entry_by heap.now objects.now name.now value ≡ Ok one) }
    ensures fault { IfErr result (λ e. e ≢ CallFault.Memory → entry_by heap.now objects.now name.now value ≡ Err e) }
{
    match value {
        Value::Nil => Ok(Item::Pair(name.copy()?, None)),
        value => item(heap, objects, value),
    }
}

/// The macros of a list, or of one value.
fn defines(heap: &Heap, objects: &Objects, value: Value) -> Result<Listing<Item>, CallFault>
    ensures ok { IfOk result (λ items. macros_by heap.now objects.now value ≡ Ok items) }
    ensures fault { IfErr result (λ e. e ≢ CallFault.Memory → macros_by heap.now objects.now value ≡ Err e) }
{
    let Some(inner) = heap.items_of(value) else {
        return only(heap, item(heap, objects, value));
    };
    match value {
        Value::Tuple(_) => tuple_macros(heap, objects, inner),
        _ => macros(heap, objects, inner),
    }
}

/// A tuple of two is a pair of a name and a value.
fn tuple_macros(heap: &Heap, objects: &Objects, inner: &[Value]) -> Result<Listing<Item>, CallFault>
    ensures ok { IfOk result (λ items. tuple_macros heap.now objects.now inner.now ≡ Ok items) }
    ensures fault { IfErr result (λ e. e ≢ CallFault.Memory → tuple_macros heap.now objects.now inner.now ≡ Err e) }
{
    match inner {
        [name, value] => only(heap, define(heap, *name, *value)),
        [] | [_] | [_, _, _, ..] => macros(heap, objects, inner),
    }
}

/// A list of one item.
fn only(heap: &Heap, item: Result<Item, CallFault>) -> Result<Listing<Item>, CallFault>
    ensures ok { IfOk result (λ items. only item ≡ Ok items) }
    ensures fault { IfErr result (λ e. e ≢ CallFault.Memory → only item ≡ Err e) }
{
    let mut items = Listing::empty(heap.allocator());
    items.push(item?)?;
    Ok(items)
}

/// Each item of a list.
#[tactic(auto, using(crate::proofs::Loops::loops))]
fn macros(heap: &Heap, objects: &Objects, values: &[Value]) -> Result<Listing<Item>, CallFault>
    ensures ok { IfOk result (λ items. each_joined (macro_by heap.now objects.now) values.now ≡ Ok items) }
    ensures fault { IfErr result (λ e. e ≢ CallFault.Memory →
        each_joined (macro_by heap.now objects.now) values.now ≡ Err e) }
{
    let mut items = Listing::empty(heap.allocator());
    for value in values {
        push_macro(heap, objects, *value, &mut items)?;
    }
    Ok(items)
}

/// A list or tuple in a list is a pair, or a name alone.
fn push_macro(
    heap: &Heap,
    objects: &Objects,
    value: Value,
    items: &mut Listing<Item>,
) -> Result<(), CallFault>
    ensures ok { OnOk result (and_more items.old (macro_by heap.now objects.now value) ≡ Ok items.new) }
    ensures fault { IfErr result (λ e. e ≢ CallFault.Memory →
        and_more items.old (macro_by heap.now objects.now value) ≡ Err e) }
{
    match heap.items_of(value) {
        Some([]) => Ok(()),
        Some([name]) => Ok(items.push(item(heap, objects, *name)?)?),
        Some([name, value]) => Ok(items.push(define(heap, *name, *value)?)?),
        Some([_, _, _, ..]) => Err(CallFault::Arguments),
        None => Ok(items.push(item(heap, objects, value)?)?),
    }
}

/// A macro with its value, or without one.
fn define(heap: &Heap, name: Value, value: Value) -> Result<Item, CallFault>
    ensures ok { IfOk result (λ one. define_by heap.now name value ≡ Ok one) }
    ensures fault { IfErr result (λ e. e ≢ CallFault.Memory → define_by heap.now name value ≡ Err e) }
{
    let name = text(heap, name)?;
    let value = definition(heap, value)?;
    Ok(Item::Pair(name, value))
}

/// The value of a macro, if it has one.
fn definition(heap: &Heap, value: Value) -> Result<Option<Text>, CallFault>
    ensures ok { IfOk result (λ one. definition_by heap.now value ≡ Ok one) }
    ensures fault { IfErr result (λ e. e ≢ CallFault.Memory → definition_by heap.now value ≡ Err e) }
{
    let alloc = heap.allocator();
    match value {
        Value::Nil => Ok(None),
        Value::Int(number) => Ok(Some(Text::new(decimals(alloc, number)?))),
        Value::Bool(flag) => Ok(Some(Text::of(alloc, word_of(flag))?)),
        value => Ok(Some(text(heap, value)?)),
    }
}
