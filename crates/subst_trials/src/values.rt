//! How the table writes values: `nil`, `true`, `false`, a number `7`, a text `'a b'` or `9*c` for one so many times, a word list
//! `w[a,b]`, a list `['a b',7,<n.c>,A=1,B]` of a text, a number, a path and pairs with a value and without one, and a dict
//! `{A:7,B:'x'}`.
use env_vars::{EnvValue, Item};
use scons_base::{Listing, PathText, Text, Texts};
use std::alloc::Global;

/// The value that is written so.
pub(crate) fn value(alloc: Global, text: &str) -> Option<EnvValue> {
    if let Some(words) = between(text, "w[", "]") {
        return words_in(alloc, words);
    }
    if let Some(items) = between(text, "[", "]") {
        return items_in(alloc, items);
    }
    if let Some(pairs) = between(text, "{", "}") {
        return pairs_in(alloc, pairs);
    }
    match text {
        "nil" => Some(EnvValue::Nil),
        "true" => Some(EnvValue::Bool(true)),
        "false" => Some(EnvValue::Bool(false)),
        _ => value_of(item(alloc, text)?),
    }
}

/// What stands between an opening and a closing.
fn between<'a>(text: &'a str, open: &str, close: &str) -> Option<&'a str> {
    text.strip_prefix(open)?.strip_suffix(close)
}

/// The value that an item is by itself.
fn value_of(item: Item) -> Option<EnvValue> {
    match item {
        Item::Text(text) => Some(EnvValue::Text(text)),
        Item::Int(number) => Some(EnvValue::Int(number)),
        _ => None,
    }
}

fn words_in(alloc: Global, text: &str) -> Option<EnvValue> {
    let mut words = Texts::new(Vec::new(alloc));
    for word in text.split_terminator(',') {
        if words.push(text_of(alloc, word)?).is_err() {
            return None;
        }
    }
    Some(EnvValue::Words(words))
}

fn items_in(alloc: Global, text: &str) -> Option<EnvValue> {
    let mut items = Listing::empty(alloc);
    for part in text.split_terminator(',') {
        if items.push(item(alloc, part)?).is_err() {
            return None;
        }
    }
    Some(EnvValue::List(items))
}

fn pairs_in(alloc: Global, text: &str) -> Option<EnvValue> {
    let mut pairs = Listing::empty(alloc);
    for part in text.split_terminator(',') {
        if pairs.push(pair(alloc, part)?).is_err() {
            return None;
        }
    }
    Some(EnvValue::Pairs(pairs))
}

fn pair(alloc: Global, text: &str) -> Option<(Text, Item)> {
    let (name, value) = text.split_once(':')?;
    Some((text_of(alloc, name)?, item(alloc, value)?))
}

fn item(alloc: Global, text: &str) -> Option<Item> {
    if let Some(inside) = between(text, "'", "'") {
        return Some(Item::Text(text_of(alloc, inside)?));
    }
    if let Some(path) = between(text, "<", ">") {
        return Some(Item::Node(PathText::read(alloc, path).ok()?));
    }
    match text.parse::<i64>() {
        Ok(number) => Some(Item::Int(number)),
        Err(_) => named_item(alloc, text),
    }
}

/// A name with a value or without one, or a text so many times.
fn named_item(alloc: Global, text: &str) -> Option<Item> {
    if let Some((name, value)) = text.split_once('=') {
        let name = text_of(alloc, name)?;
        return Some(Item::Pair(name, Some(text_of(alloc, value)?)));
    }
    match text.split_once('*') {
        Some((count, part)) => many_times(alloc, count, part),
        None => Some(Item::Pair(text_of(alloc, text)?, None)),
    }
}

fn many_times(alloc: Global, count: &str, part: &str) -> Option<Item> {
    let text = part.repeat(alloc, count.parse::<usize>().ok()?).ok()?;
    Some(Item::Text(Text::new(text)))
}

fn text_of(alloc: Global, text: &str) -> Option<Text> {
    Text::of(alloc, text).ok()
}
