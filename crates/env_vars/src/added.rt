//! What is added to what.
ghost use Rattle.std.specs.Prelude.{◌≡◌, ◌++◌, fold, position, IfOk, OnOk};
ghost use Rattle.std.specs.List.{list_any};
ghost use Rattle.std.specs.Option.{option_map};
ghost use Rattle.std.specs.Str.{bytes_eq};
ghost use Rattle.env_vars.specs.Added.{as_set, item_eq, text_eq, add_new, put_items, put_text, beside_text, items_for_words, items_for_list, added_to_text, added_to_dict, added_to_list, added_to, set_pair, word_list};

use crate::forms::{as_pairs, push_words, word_list};
use crate::names::{is_word_variable, takes_dict};
use crate::place::Place;
use crate::shown::push_text;
use crate::value::{EnvValue, Item, push_copies, push_pairs};
use crate::words::words_of;
use scons_base::{Listing, Memory, Text};
use std::alloc::Global;

/// What a value becomes where another is added to it: none where their kinds don't fit.
pub(crate) fn added_to(
    alloc: Global,
    place: Place,
    name: &str,
    old: &EnvValue,
    value: &EnvValue,
) -> Result<Option<EnvValue>, Memory>
    ensures { IfOk result (λ o. o ≡ added_to place name.now old.now value.now) }
{
    match old {
        EnvValue::Words(words) => {
            let mut items = Vec::new(alloc);
            push_words(&mut items, words.as_slice())?;
            added_to_words(alloc, place, items.as_slice(), value)
        }
        EnvValue::List(items) if is_word_variable(name) => {
            added_to_words(alloc, place, items.as_slice(), value)
        }
        EnvValue::List(items) => added_to_items(alloc, place, name, items.as_slice(), value),
        EnvValue::Text(text) => added_to_text(alloc, place, text, value),
        EnvValue::Pairs(pairs) => added_to_dict(alloc, pairs, value),
        _ => Ok(None),
    }
}

/// The row of a word list.
fn added_to_words(
    alloc: Global,
    place: Place,
    old: &[Item],
    value: &EnvValue,
) -> Result<Option<EnvValue>, Memory>
    ensures { IfOk result (λ o. o
        ≡ option_map (λ added. word_list (put_items place old.now added)) (items_for_words value.now)) }
{
    let Some(added) = items_for_words(alloc, value)? else {
        return Ok(None);
    };
    let items = put_items(alloc, place, old, added.as_slice())?;
    Ok(Some(word_list(alloc, items)?))
}

/// The row of a list.
fn added_to_items(
    alloc: Global,
    place: Place,
    name: &str,
    old: &[Item],
    value: &EnvValue,
) -> Result<Option<EnvValue>, Memory>
    ensures { IfOk result (λ o. o ≡ option_map (λ added. EnvValue.List (put_items place old.now added))
        (items_for_list name.now value.now)) }
{
    let Some(added) = items_for_list(alloc, name, value)? else {
        return Ok(None);
    };
    let items = put_items(alloc, place, old, added.as_slice())?;
    Ok(Some(EnvValue::List(Listing::new(items))))
}

pub(crate) fn items_for_words(alloc: Global, value: &EnvValue) -> Result<Option<Vec<Item>>, Memory>
    ensures { IfOk result (λ o. option_map (λ v. v.items) o ≡ items_for_words value.now) }
{
    let mut items = Vec::new(alloc);
    match value {
        EnvValue::Text(text) => {
            push_words(&mut items, words_of(alloc, text.as_str())?.as_slice())?;
        }
        EnvValue::Words(words) => push_words(&mut items, words.as_slice())?,
        EnvValue::List(list) => push_copies(&mut items, list.as_slice())?,
        _ => return Ok(None),
    }
    Ok(Some(items))
}

pub(crate) fn items_for_list(
    alloc: Global,
    name: &str,
    value: &EnvValue,
) -> Result<Option<Vec<Item>>, Memory>
    ensures { IfOk result (λ o. option_map (λ v. v.items) o ≡ items_for_list name.now value.now) }
{
    let mut items = Vec::new(alloc);
    match value {
        EnvValue::Text(text) => items.push(Item::Text(text.copy()?))?,
        EnvValue::Int(number) => items.push(Item::Int(*number))?,
        EnvValue::Words(words) => push_words(&mut items, words.as_slice())?,
        EnvValue::List(list) => push_copies(&mut items, list.as_slice())?,
        EnvValue::Pairs(pairs) if takes_dict(name) => {
            return Ok(Some(as_pairs(alloc, pairs.as_slice())?));
        }
        _ => return Ok(None),
    }
    Ok(Some(items))
}

/// Items put behind others, in front of them, or behind them where they aren't there already.
fn put_items(alloc: Global, place: Place, old: &[Item], added: &[Item]) -> Result<Vec<Item>, Memory>
    ensures { IfOk result (λ v. v.items ≡ put_items place old.now added.now) }
{
    let mut items = Vec::new(alloc);
    match place {
        Place::Behind => {
            push_copies(&mut items, old)?;
            push_copies(&mut items, added)?;
        }
        Place::InFront => {
            push_copies(&mut items, added)?;
            push_copies(&mut items, old)?;
        }
        Place::New => {
            push_copies(&mut items, old)?;
            push_new(&mut items, added)?;
        }
    }
    Ok(items)
}

fn push_new(items: &mut Vec<Item>, added: &[Item]) -> Result<(), Memory>
    ensures { OnOk result (items.new.items ≡ fold add_new items.old.items added.now) }
{
    for item in added {
        if !is_there(items.as_slice(), item) {
            items.push(item.copy()?)?;
        }
    }
    Ok(())
}

pub(crate) fn is_there(items: &[Item], item: &Item) -> bool
    ensures { result ≡ list_any (item_eq item.now) items.now }
{
    items.iter().any(|there| is_same(item, there))
}

fn is_same(a: &Item, b: &Item) -> bool
    ensures { result ≡ item_eq a.now b.now }
{
    match (a, b) {
        (Item::Text(a), Item::Text(b)) => a == b,
        (Item::Int(a), Item::Int(b)) => *a == *b,
        (Item::Node(a), Item::Node(b)) => a == b,
        (Item::Pair(m, a), Item::Pair(n, b)) => m == n && is_same_text(a, b),
        _ => false,
    }
}

fn is_same_text(a: &Option<Text>, b: &Option<Text>) -> bool
    ensures { result ≡ text_eq a.now b.now }
{
    match (a, b) {
        (None, None) => true,
        (Some(a), Some(b)) => a == b,
        _ => false,
    }
}

/// The row of a text.
fn added_to_text(
    alloc: Global,
    place: Place,
    old: &Text,
    value: &EnvValue,
) -> Result<Option<EnvValue>, Memory>
    ensures { IfOk result (λ o. o ≡ added_to_text place old.now value.now) }
{
    let mut items = Vec::new(alloc);
    match value {
        EnvValue::Text(text) => {
            return Ok(Some(EnvValue::Text(put_text(alloc, place, old, text)?)));
        }
        EnvValue::Words(words) => push_words(&mut items, words.as_slice())?,
        EnvValue::List(list) => push_copies(&mut items, list.as_slice())?,
        _ => return Ok(None),
    }
    let items = beside_text(alloc, place, old, items.as_slice())?;
    Ok(Some(EnvValue::List(Listing::new(items))))
}

fn put_text(alloc: Global, place: Place, old: &Text, added: &Text) -> Result<Text, Memory>
    ensures { IfOk result (λ t. t ≡ put_text place old.now added.now) }
{
    let mut text = String::new(alloc);
    match place {
        Place::InFront => {
            text.push_str(added.as_str())?;
            text.push_str(old.as_str())?;
        }
        Place::Behind | Place::New => {
            text.push_str(old.as_str())?;
            text.push_str(added.as_str())?;
        }
    }
    Ok(Text::new(text))
}

fn beside_text(alloc: Global, place: Place, old: &Text, added: &[Item]) -> Result<Vec<Item>, Memory>
    ensures { IfOk result (λ v. v.items ≡ beside_text place old.now added.now) }
{
    let mut items = Vec::new(alloc);
    match place {
        Place::InFront => {
            push_copies(&mut items, added)?;
            push_text(&mut items, old)?;
        }
        Place::Behind | Place::New => {
            push_text(&mut items, old)?;
            push_copies(&mut items, added)?;
        }
    }
    Ok(items)
}

/// The row of a dict.
fn added_to_dict(
    alloc: Global,
    old: &Listing<(Text, Item)>,
    value: &EnvValue,
) -> Result<Option<EnvValue>, Memory>
    ensures { IfOk result (λ o. o ≡ added_to_dict old.now value.now) }
{
    let EnvValue::Pairs(added) = value else {
        return Ok(None);
    };
    let mut pairs = Vec::new(alloc);
    push_pairs(&mut pairs, old.as_slice())?;
    set_pairs(&mut pairs, added.as_slice())?;
    Ok(Some(EnvValue::Pairs(Listing::new(pairs))))
}

fn set_pairs(pairs: &mut Vec<(Text, Item)>, added: &[(Text, Item)]) -> Result<(), Memory>
    ensures { OnOk result (pairs.new.items ≡ fold set_pair pairs.old.items added.now) }
{
    for (name, item) in added {
        set_pair(pairs, name.copy()?, item.copy()?)?;
    }
    Ok(())
}

/// Sets a pair in the place of the one of its name, or last.
fn set_pair(pairs: &mut Vec<(Text, Item)>, name: Text, item: Item) -> Result<(), Memory>
    ensures { OnOk result (pairs.new.items ≡ set_pair pairs.old.items (name, item)) }
{
    match place_of(pairs.as_slice(), &name) {
        Some(place) => pairs[place] = (name, item),
        None => pairs.push((name, item))?,
    }
    Ok(())
}

fn place_of(pairs: &[(Text, Item)], name: &Text) -> Option<usize>
    ensures { result ≡ position (λ p. bytes_eq name.now p.0) pairs.now }
{
    pairs.iter().position(|(there, _)| name == there)
}
