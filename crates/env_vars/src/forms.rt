//! The forms that values take.
ghost use Rattle.std.specs.Prelude.{◌≡◌, ◌++◌, map, IfOk, OnOk};
ghost use Rattle.std.specs.Option.{option_map};
ghost use Rattle.env_vars.specs.Added.{as_items, texts_of, word_list, pair_text, as_pairs, set_words, set_list, as_set};

use crate::names::{is_list_variable, is_word_variable, takes_dict};
use crate::value::{EnvValue, Item};
use crate::words::words_of;
use scons_base::{Listing, Memory, Text, Texts};
use std::alloc::Global;

/// The value that setting a variable gives it.
pub(crate) fn as_set(alloc: Global, name: &str, value: EnvValue) -> Result<EnvValue, Memory>
    ensures { IfOk result (λ v. v ≡ as_set name.now value) }
{
    if is_word_variable(name) {
        set_words(alloc, value)
    } else if is_list_variable(name) {
        set_list(alloc, name, value)
    } else {
        Ok(value)
    }
}

fn set_words(alloc: Global, value: EnvValue) -> Result<EnvValue, Memory>
    ensures { IfOk result (λ v. v ≡ set_words value) }
{
    match value {
        EnvValue::Text(text) => Ok(EnvValue::Words(Texts::new(words_of(alloc, text.as_str())?))),
        EnvValue::List(items) => word_list(alloc, items.into_vec()),
        value => Ok(value),
    }
}

fn set_list(alloc: Global, name: &str, value: EnvValue) -> Result<EnvValue, Memory>
    ensures { IfOk result (λ v. v ≡ set_list name.now value) }
{
    match value {
        EnvValue::Text(text) => {
            let mut items = Vec::new(alloc);
            items.push(Item::Text(text))?;
            Ok(EnvValue::List(Listing::new(items)))
        }
        EnvValue::Pairs(pairs) => dict_form(alloc, name, pairs),
        value => Ok(value),
    }
}

fn dict_form(alloc: Global, name: &str, pairs: Listing<(Text, Item)>) -> Result<EnvValue, Memory>
    ensures { IfOk result (λ v. v ≡ set_list name.now (EnvValue.Pairs pairs)) }
{
    if takes_dict(name) {
        let items = as_pairs(alloc, pairs.as_slice())?;
        Ok(EnvValue::List(Listing::new(items)))
    } else {
        Ok(EnvValue::Pairs(pairs))
    }
}

/// A word list of these items, which is a list where an item is no text.
pub(crate) fn word_list(alloc: Global, items: Vec<Item>) -> Result<EnvValue, Memory>
    ensures { IfOk result (λ v. v ≡ word_list items.items) }
{
    match texts_of(alloc, items.as_slice())? {
        Some(words) => Ok(EnvValue::Words(Texts::new(words))),
        None => Ok(EnvValue::List(Listing::new(items))),
    }
}

/// The texts of a list that has nothing else.
pub(crate) fn texts_of(alloc: Global, items: &[Item]) -> Result<Option<Vec<Text>>, Memory>
    ensures { IfOk result (λ o. option_map (λ v. v.items) o ≡ texts_of items.now) }
{
    let mut texts = Vec::new(alloc);
    for item in items {
        match item {
            Item::Text(text) => texts.push(text.copy()?)?,
            _ => return Ok(None),
        }
    }
    Ok(Some(texts))
}

/// Puts words behind others, as items.
pub(crate) fn push_words(items: &mut Vec<Item>, words: &[Text]) -> Result<(), Memory>
    ensures { OnOk result (items.new.items ≡ items.old.items ++ as_items words.now) }
{
    for word in words {
        items.push(Item::Text(word.copy()?))?;
    }
    Ok(())
}

/// A dict as a list of its pairs.
pub(crate) fn as_pairs(alloc: Global, pairs: &[(Text, Item)]) -> Result<Vec<Item>, Memory>
    ensures { IfOk result (λ v. v.items ≡ as_pairs pairs.now) }
{
    let mut items = Vec::new(alloc);
    for (name, item) in pairs {
        items.push(Item::Pair(name.copy()?, pair_text(alloc, item)?))?;
    }
    Ok(items)
}

/// The text that a dict's item gives as the value of a pair.
fn pair_text(alloc: Global, item: &Item) -> Result<Option<Text>, Memory>
    ensures { IfOk result (λ t. t ≡ pair_text item.now) }
{
    match item {
        Item::Text(text) => Ok(Some(text.copy()?)),
        Item::Int(number) => Ok(Some(Text::new(format!(in alloc; "{number}")?))),
        Item::Node(path) => Ok(Some(Text::of(alloc, path.as_str())?)),
        Item::Pair(_, Some(value)) => Ok(Some(value.copy()?)),
        Item::Pair(_, None) => Ok(None),
    }
}
