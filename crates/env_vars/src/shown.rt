//! Values as texts, and as items of a list.
ghost use Rattle.std.specs.Prelude.{◌≡◌, ◌++◌, length, map, IfOk, OnOk, string_bytes};
ghost use Rattle.env_vars.specs.Added.{as_items, as_pairs, text_items};
ghost use Rattle.env_vars.specs.Given.{behind_spaces, item_text, items_text, flag_text, value_text, value_items};

use crate::forms::{as_pairs, push_words};
use crate::value::{EnvValue, Item, push_copies};
use scons_base::{Memory, Text};
use std::alloc::Global;

/// A value as a text.
pub(crate) fn value_text(alloc: Global, value: &EnvValue) -> Result<String, Memory>
    ensures { IfOk result (λ s. string_bytes s ≡ value_text value.now) }
{
    match value {
        EnvValue::Nil => Ok(String::new(alloc)),
        EnvValue::Bool(flag) => Ok(String::from_str(alloc, flag_text(*flag))?),
        EnvValue::Int(number) => Ok(format!(in alloc; "{number}")?),
        EnvValue::Text(text) => Ok(String::from_str(alloc, text.as_str())?),
        EnvValue::List(items) => items_text(alloc, items.as_slice()),
        value => {
            let mut items = Vec::new(alloc);
            push_value(alloc, &mut items, value)?;
            items_text(alloc, items.as_slice())
        }
    }
}

fn flag_text(flag: bool) -> &'static str
    ensures { result.now ≡ flag_text flag }
{
    if flag { "True" } else { "False" }
}

/// Puts a value behind other items.
pub(crate) fn push_value(
    alloc: Global,
    items: &mut Vec<Item>,
    value: &EnvValue,
) -> Result<(), Memory>
    ensures { OnOk result (items.new.items ≡ items.old.items ++ value_items value.now) }
{
    match value {
        EnvValue::Nil => Ok(()),
        EnvValue::Bool(flag) => push_flag(alloc, items, *flag),
        EnvValue::Int(number) => Ok(items.push(Item::Int(*number))?),
        EnvValue::Text(text) => push_text(items, text),
        EnvValue::Words(words) => push_words(items, words.as_slice()),
        EnvValue::List(list) => push_copies(items, list.as_slice()),
        EnvValue::Pairs(pairs) => {
            let pairs = as_pairs(alloc, pairs.as_slice())?;
            push_copies(items, pairs.as_slice())
        }
    }
}

fn push_flag(alloc: Global, items: &mut Vec<Item>, flag: bool) -> Result<(), Memory>
    ensures { OnOk result (items.new.items ≡ items.old.items ++ value_items (EnvValue.Bool flag)) }
{
    let text = Text::of(alloc, flag_text(flag))?;
    Ok(items.push(Item::Text(text))?)
}

/// Puts a text behind other items, unless it is empty.
pub(crate) fn push_text(items: &mut Vec<Item>, text: &Text) -> Result<(), Memory>
    ensures { OnOk result (items.new.items ≡ items.old.items ++ text_items text.now) }
{
    if !text.as_str().is_empty() {
        items.push(Item::Text(text.copy()?))?;
    }
    Ok(())
}

/// Items with a space between them.
fn items_text(alloc: Global, items: &[Item]) -> Result<String, Memory>
    ensures { IfOk result (λ s. string_bytes s ≡ items_text items.now) }
{
    let mut text = String::new(alloc);
    if let Some((first, rest)) = items.split_first() {
        put_item(&mut text, first)?;
        put_rest(&mut text, rest)?;
    }
    Ok(text)
}

fn put_rest(text: &mut String, items: &[Item]) -> Result<(), Memory>
    ensures { OnOk result (string_bytes text.new
        ≡ string_bytes text.old ++ behind_spaces (map item_text items.now)) }
{
    for item in items {
        text.push(' ')?;
        put_item(text, item)?;
    }
    Ok(())
}

fn put_item(text: &mut String, item: &Item) -> Result<(), Memory>
    ensures { OnOk result (string_bytes text.new ≡ string_bytes text.old ++ item_text item.now) }
{
    match item {
        Item::Text(there) => text.push_str(there.as_str())?,
        Item::Int(number) => write!(text, "{number}")?,
        Item::Node(path) => text.push_str(path.as_str())?,
        Item::Pair(name, None) => text.push_str(name.as_str())?,
        Item::Pair(name, Some(value)) => put_pair(text, name, value)?,
    }
    Ok(())
}

/// Puts a name with its value.
fn put_pair(text: &mut String, name: &Text, value: &Text) -> Result<(), Memory>
    ensures { OnOk result (string_bytes text.new ≡ string_bytes text.old ++ item_text (Item.Pair name.now (Some value.now))) }
{
    text.push_str(name.as_str())?;
    text.push('=')?;
    text.push_str(value.as_str())?;
    Ok(())
}

/// How many bytes an item has as a text.
pub(crate) fn item_len(alloc: Global, item: &Item) -> Result<usize, Memory>
    ensures { IfOk result (λ n. n ≡ length (item_text item.now)) }
{
    match item {
        Item::Text(text) => Ok(text.as_str().len()),
        Item::Int(number) => Ok(format!(in alloc; "{number}")?.len()),
        Item::Node(path) => Ok(path.as_str().len()),
        Item::Pair(name, None) => Ok(name.as_str().len()),
        Item::Pair(name, Some(value)) => Ok(name.as_str().len() + 1 + value.as_str().len()),
    }
}
