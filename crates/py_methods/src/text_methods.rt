//! The methods of a text.
ghost use Rattle.std.specs.Prelude.{◌≡◌, Ok, Err, IfOk, IfErr, OnErr, [], map};
ghost use Rattle.py_text.specs.Letters.{lower, upper};
ghost use Rattle.py_text.specs.Stripping.{lstrip, rstrip, strip};
ghost use Rattle.py_heap.specs.Heap.{text_at};
ghost use Rattle.py_compare.specs.Outcomes.{FailsAs, paid_text, new_text};
ghost use Rattle.py_methods.specs.TextMethods.{as_text, texts_onto, paid_join, joined_by, joined_items, found};
ghost use Rattle.py_methods.specs.TextMethods.{starts, ends, finds, splits, paid_replacement, replaces, text_method};

use crate::many::{parts, words};
use crate::name::Name;
use py_compare::above_zero;
use py_heap::{Budget, Heap, TextId, Value, ValueFault, text_room};
use py_operators::copied_text;
use scons_base::Text;
use std::alloc::Global;

pub(crate) fn text_method(
    heap: &mut Heap,
    budget: &mut Budget,
    text: TextId,
    name: Name,
    args: &[Value],
) -> Result<Value, ValueFault>
    ensures ok { IfOk result (λ v.
        text_method heap.old budget.old text.0 name args.now ≡ Ok (v, heap.new, budget.new)) }
    ensures fault { FailsAs result (text_method heap.old budget.old text.0 name args.now) }
    ensures err { OnErr result (heap.new ≡ heap.old) }
{
    match name {
        Name::Split => match args {
            [] => words(heap, budget, text),
            [separator] => split(heap, budget, text, *separator),
            _ => Err(ValueFault::NoMethod),
        },
        Name::Strip => match args {
            [] => strip(heap, budget, text),
            _ => Err(ValueFault::NoMethod),
        },
        Name::Lstrip => match args {
            [] => lstrip(heap, budget, text),
            _ => Err(ValueFault::NoMethod),
        },
        Name::Rstrip => match args {
            [] => rstrip(heap, budget, text),
            _ => Err(ValueFault::NoMethod),
        },
        Name::Lower => match args {
            [] => lower(heap, budget, text),
            _ => Err(ValueFault::NoMethod),
        },
        Name::Upper => match args {
            [] => upper(heap, budget, text),
            _ => Err(ValueFault::NoMethod),
        },
        Name::Startswith => match args {
            [part] => starts(heap, budget, text, *part),
            _ => Err(ValueFault::NoMethod),
        },
        Name::Endswith => match args {
            [part] => ends(heap, budget, text, *part),
            _ => Err(ValueFault::NoMethod),
        },
        Name::Find => match args {
            [part] => find(heap, budget, text, *part),
            _ => Err(ValueFault::NoMethod),
        },
        Name::Replace => match args {
            [old, new] => replace(heap, budget, text, *old, *new),
            _ => Err(ValueFault::NoMethod),
        },
        Name::Join => match args {
            [parts] => join(heap, budget, text, *parts),
            _ => Err(ValueFault::NoMethod),
        },
        _ => Err(ValueFault::NoMethod),
    }
}

fn strip(heap: &mut Heap, budget: &mut Budget, text: TextId) -> Result<Value, ValueFault>
    ensures ok { IfOk result (λ v.
        new_text heap.old budget.old (strip (text_at heap.old text.0)) ≡ Ok (v, heap.new, budget.new)) }
    ensures fault { FailsAs result (new_text heap.old budget.old (strip (text_at heap.old text.0))) }
    ensures err { OnErr result (heap.new ≡ heap.old) }
{
    let made = copied_text(heap.allocator(), budget, py_text::strip(heap.text_at(text)))?;
    let value = heap.add_text(made)?;
    Ok(value)
}

fn lstrip(heap: &mut Heap, budget: &mut Budget, text: TextId) -> Result<Value, ValueFault>
    ensures ok { IfOk result (λ v.
        new_text heap.old budget.old (lstrip (text_at heap.old text.0)) ≡ Ok (v, heap.new, budget.new)) }
    ensures fault { FailsAs result (new_text heap.old budget.old (lstrip (text_at heap.old text.0))) }
    ensures err { OnErr result (heap.new ≡ heap.old) }
{
    let made = copied_text(
        heap.allocator(),
        budget,
        py_text::lstrip(heap.text_at(text)),
    )?;
    let value = heap.add_text(made)?;
    Ok(value)
}

fn rstrip(heap: &mut Heap, budget: &mut Budget, text: TextId) -> Result<Value, ValueFault>
    ensures ok { IfOk result (λ v.
        new_text heap.old budget.old (rstrip (text_at heap.old text.0)) ≡ Ok (v, heap.new, budget.new)) }
    ensures fault { FailsAs result (new_text heap.old budget.old (rstrip (text_at heap.old text.0))) }
    ensures err { OnErr result (heap.new ≡ heap.old) }
{
    let made = copied_text(
        heap.allocator(),
        budget,
        py_text::rstrip(heap.text_at(text)),
    )?;
    let value = heap.add_text(made)?;
    Ok(value)
}

fn lower(heap: &mut Heap, budget: &mut Budget, text: TextId) -> Result<Value, ValueFault>
    ensures ok { IfOk result (λ v.
        new_text heap.old budget.old (lower (text_at heap.old text.0)) ≡ Ok (v, heap.new, budget.new)) }
    ensures fault { FailsAs result (new_text heap.old budget.old (lower (text_at heap.old text.0))) }
    ensures err { OnErr result (heap.new ≡ heap.old) }
{
    let made = lower_paid(heap.allocator(), budget, heap.text_at(text))?;
    let value = heap.add_text(made)?;
    Ok(value)
}

#[tactic(auto, using(crate::proofs::Letters::letters))]
fn lower_paid(alloc: Global, budget: &mut Budget, text: &str) -> Result<Text, ValueFault>
    ensures ok { IfOk result (λ made. paid_text budget.old (lower text.now) ≡ Ok (made, budget.new)) }
    ensures fault { FailsAs result (paid_text budget.old (lower text.now)) }
{
    text_room(budget, text.len() as u64)?;
    let made = py_text::lower(alloc, text)?;
    Ok(Text::new(made))
}

fn upper(heap: &mut Heap, budget: &mut Budget, text: TextId) -> Result<Value, ValueFault>
    ensures ok { IfOk result (λ v.
        new_text heap.old budget.old (upper (text_at heap.old text.0)) ≡ Ok (v, heap.new, budget.new)) }
    ensures fault { FailsAs result (new_text heap.old budget.old (upper (text_at heap.old text.0))) }
    ensures err { OnErr result (heap.new ≡ heap.old) }
{
    let made = upper_paid(heap.allocator(), budget, heap.text_at(text))?;
    let value = heap.add_text(made)?;
    Ok(value)
}

#[tactic(auto, using(crate::proofs::Letters::letters))]
fn upper_paid(alloc: Global, budget: &mut Budget, text: &str) -> Result<Text, ValueFault>
    ensures ok { IfOk result (λ made. paid_text budget.old (upper text.now) ≡ Ok (made, budget.new)) }
    ensures fault { FailsAs result (paid_text budget.old (upper text.now)) }
{
    text_room(budget, text.len() as u64)?;
    let made = py_text::upper(alloc, text)?;
    Ok(Text::new(made))
}

/// An argument that has to be a text.
fn as_text(heap: &Heap, owner: Value, value: Value) -> Result<&str, ValueFault>
    ensures ok { IfOk result (λ t. as_text heap.now owner value ≡ Ok t.now) }
    ensures fault { IfErr result (λ e. as_text heap.now owner value ≡ Err e) }
{
    match value {
        Value::Text(text) => Ok(heap.text_at(text)),
        _ => Err(ValueFault::Mismatch(owner.kind(), value.kind())),
    }
}

/// Cuts a text at each place of another one.
fn split(
    heap: &mut Heap,
    budget: &mut Budget,
    text: TextId,
    separator: Value,
) -> Result<Value, ValueFault>
    ensures ok { IfOk result (λ v. splits heap.old budget.old (text_at heap.old text.0) (Value.Text text) separator
        ≡ Ok (v, heap.new, budget.new)) }
    ensures fault { FailsAs result (splits heap.old budget.old (text_at heap.old text.0) (Value.Text text) separator) }
    ensures err { OnErr result (heap.new ≡ heap.old) }
{
    match separator {
        Value::Text(separator) => {
            if heap.text_at(separator).is_empty() {
                return Err(ValueFault::BadText);
            }
            parts(heap, budget, text, separator)
        }
        _ => Err(ValueFault::Mismatch(Value::Text(text).kind(), separator.kind())),
    }
}

fn starts(heap: &Heap, budget: &mut Budget, text: TextId, part: Value) -> Result<Value, ValueFault>
    ensures ok { IfOk result (λ v. starts heap.now budget.old (text_at heap.now text.0) (Value.Text text) part
        ≡ Ok (v, heap.now, budget.new)) }
    ensures fault { IfErr result (λ e.
        starts heap.now budget.old (text_at heap.now text.0) (Value.Text text) part ≡ Err e) }
{
    let part = as_text(heap, Value::Text(text), part)?;
    Ok(Value::Bool(py_text::starts_with(heap.text_at(text), part)))
}

fn ends(heap: &Heap, budget: &mut Budget, text: TextId, part: Value) -> Result<Value, ValueFault>
    ensures ok { IfOk result (λ v.
        ends heap.now budget.old (text_at heap.now text.0) (Value.Text text) part ≡ Ok (v, heap.now, budget.new)) }
    ensures fault { IfErr result (λ e.
        ends heap.now budget.old (text_at heap.now text.0) (Value.Text text) part ≡ Err e) }
{
    let part = as_text(heap, Value::Text(text), part)?;
    Ok(Value::Bool(py_text::ends_with(heap.text_at(text), part)))
}

/// The first place of a part, in characters, or -1.
fn find(heap: &Heap, budget: &mut Budget, text: TextId, part: Value) -> Result<Value, ValueFault>
    ensures ok { IfOk result (λ v.
        finds heap.now budget.old (text_at heap.now text.0) (Value.Text text) part ≡ Ok (v, heap.now, budget.new)) }
    ensures fault { FailsAs result (finds heap.now budget.old (text_at heap.now text.0) (Value.Text text) part) }
{
    let part = as_text(heap, Value::Text(text), part)?;
    match py_text::find(heap.text_at(text), part) {
        Some(place) => Ok(Value::Int(above_zero(place as u64)?)),
        None => Ok(Value::Int(-1)),
    }
}

fn replace(
    heap: &mut Heap,
    budget: &mut Budget,
    text: TextId,
    old: Value,
    new: Value,
) -> Result<Value, ValueFault>
    ensures ok { IfOk result (λ v. replaces heap.old budget.old (text_at heap.old text.0) (Value.Text text) old new
        ≡ Ok (v, heap.new, budget.new)) }
    ensures fault { FailsAs result (replaces heap.old budget.old (text_at heap.old text.0) (Value.Text text) old new) }
    ensures err { OnErr result (heap.new ≡ heap.old) }
{
    let made = replaced(heap, budget, text, old, new)?;
    let value = heap.add_text(made)?;
    Ok(value)
}

#[tactic(auto, using(crate::proofs::MadeTexts::made_texts))]
fn replaced(
    heap: &Heap,
    budget: &mut Budget,
    text: TextId,
    old: Value,
    new: Value,
) -> Result<Text, ValueFault>
    ensures ok { IfOk result (λ made. paid_replacement heap.now budget.old (text_at heap.now text.0) (Value.Text text)
        old new ≡ Ok (made, budget.new)) }
    ensures fault { FailsAs result (paid_replacement heap.now budget.old (text_at heap.now text.0) (Value.Text text)
        old new) }
{
    let old = as_text(heap, Value::Text(text), old)?;
    let new = as_text(heap, Value::Text(text), new)?;
    let text = heap.text_at(text);
    text_room(budget, py_text::replaced_length(text, old, new))?;
    let made = py_text::replaced(heap.allocator(), text, old, new)?;
    Ok(Text::new(made))
}

/// The texts of a list or tuple, with this one between each two.
fn join(
    heap: &mut Heap,
    budget: &mut Budget,
    text: TextId,
    parts: Value,
) -> Result<Value, ValueFault>
    ensures ok { IfOk result (λ v. joined_by heap.old budget.old (Value.Text text) (text_at heap.old text.0) parts
        ≡ Ok (v, heap.new, budget.new)) }
    ensures fault { FailsAs result (joined_by heap.old budget.old (Value.Text text) (text_at heap.old text.0) parts) }
    ensures err { OnErr result (heap.new ≡ heap.old) }
{
    match parts {
        Value::List(list) => {
            let made = joined_texts(heap, budget, text, heap.list_at(list))?;
            let value = heap.add_text(made)?;
            Ok(value)
        }
        Value::Tuple(tuple) => {
            let made = joined_texts(heap, budget, text, heap.tuple_at(tuple))?;
            let value = heap.add_text(made)?;
            Ok(value)
        }
        _ => Err(ValueFault::Mismatch(Value::Text(text).kind(), parts.kind())),
    }
}

#[tactic(auto, using(crate::proofs::MadeTexts::made_texts))]
fn joined_texts(
    heap: &Heap,
    budget: &mut Budget,
    text: TextId,
    items: &[Value],
) -> Result<Text, ValueFault>
    ensures ok { IfOk result (λ made.
        paid_join heap.now budget.old (Value.Text text) (text_at heap.now text.0) items.now ≡ Ok (made, budget.new)) }
    ensures fault { FailsAs result (paid_join heap.now budget.old (Value.Text text) (text_at heap.now text.0)
        items.now) }
{
    let parts = texts_of(heap, Value::Text(text), items)?;
    let separator = heap.text_at(text);
    text_room(budget, py_text::joined_length(separator, parts.as_slice()))?;
    let made = py_text::joined(heap.allocator(), separator, parts.as_slice())?;
    Ok(Text::new(made))
}

fn texts_of<'a>(heap: &'a Heap, owner: Value, items: &[Value]) -> Result<Vec<&'a str>, ValueFault>
    ensures ok { IfOk result (λ texts. texts_onto heap.now owner [] items.now ≡ Ok (map (λ t. t.now) texts.items)) }
    ensures fault { FailsAs result (texts_onto heap.now owner [] items.now) }
{
    let mut texts = Vec::new(heap.allocator());
    'items: for item in items {
        texts.push(as_text(heap, owner, *item)?)?;
    }
    Ok(texts)
}
