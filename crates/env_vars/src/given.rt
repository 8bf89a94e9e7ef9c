//! What a value stands for that is given to a clone or to one call.
ghost use Rattle.std.specs.Prelude.{◌≡◌, ◌≢◌, ◌≤◌, ◌<◌, ◌+◌, ◌++◌, ◌∷◌, [], length, IfOk, IfErr, OnOk, MatchResult, option_copied, string_bytes, if◌then◌else◌};
ghost use Rattle.scons_base.specs.declared.limits.TheConstants.{TEXT_LIMIT};
ghost use Rattle.env_vars.specs.Given.{item_text, given, given_items, given_item, given_text, old_text, value_text, value_items, is_name, spaced_len, size_of};

use crate::fault::GivenFault;
use crate::forms::{push_words, word_list};
use crate::shown::{item_len, push_value, value_text};
use crate::value::{EnvValue, Item};
use env_text::{Step, name_alone, next_part, whole_name};
use scons_base::limits::TEXT_LIMIT;
use scons_base::{Listing, Memory, Text};
use std::alloc::Global;

/// The value that is meant, where the variable has the value `old`, if any.
#[tactic(auto, using(crate::proofs::Lengths::fits_as_text, crate::proofs::Lengths::too_long_as_text))]
pub(crate) fn given(
    alloc: Global,
    name: &str,
    old: Option<&EnvValue>,
    value: EnvValue,
) -> Result<EnvValue, GivenFault>
    ensures ok { IfOk result (λ v. v ≡ given name.now (option_copied old.entry) value) }
    ensures fits { IfOk result (λ v. size_of v ≤ TEXT_LIMIT) }
    ensures too_long { IfErr result (λ e. e ≢ GivenFault.Memory
        → TEXT_LIMIT < size_of (given name.now (option_copied old.entry) value)) }
{
    match value {
        EnvValue::Text(text) => given_alone(alloc, name, old, text.as_str()),
        EnvValue::Words(words) => given_words(alloc, name, old, words.as_slice()),
        EnvValue::List(items) => match given_list(alloc, name, old, items.as_slice()) {
            Ok(given) => Ok(EnvValue::List(Listing::new(given))),
            Err(fault) => Err(fault),
        },
        value => Ok(value),
    }
}

fn given_alone(
    alloc: Global,
    name: &str,
    old: Option<&EnvValue>,
    text: &str,
) -> Result<EnvValue, GivenFault>
    ensures ok { IfOk result (λ v. v ≡ given name.now (option_copied old.entry) (EnvValue.Text text.now)) }
    ensures fits { IfOk result (λ v. size_of v ≤ TEXT_LIMIT) }
    ensures too_long { IfErr result (λ e. e ≢ GivenFault.Memory
        → TEXT_LIMIT < size_of (given name.now (option_copied old.entry) (EnvValue.Text text.now))) }
{
    let old = old_text(alloc, old)?;
    match given_text(alloc, name, old.as_str(), text) {
        Ok(text) => Ok(EnvValue::Text(Text::new(text))),
        Err(fault) => Err(fault),
    }
}

#[tactic(auto, using(crate::proofs::Lengths::words_size, crate::proofs::Lengths::fits_as_text, crate::proofs::Lengths::too_long_as_text))]
fn given_words(
    alloc: Global,
    name: &str,
    old: Option<&EnvValue>,
    words: &[Text],
) -> Result<EnvValue, GivenFault>
    ensures ok { IfOk result (λ v. v ≡ given name.now (option_copied old.entry) (EnvValue.Words words.now)) }
    ensures fits { IfOk result (λ v. size_of v ≤ TEXT_LIMIT) }
    ensures too_long { IfErr result (λ e. e ≢ GivenFault.Memory
        → TEXT_LIMIT < size_of (given name.now (option_copied old.entry) (EnvValue.Words words.now))) }
{
    let mut items = Vec::new(alloc);
    push_words(&mut items, words)?;
    match given_list(alloc, name, old, items.as_slice()) {
        Ok(given) => Ok(word_list(alloc, given)?),
        Err(fault) => Err(fault),
    }
}

/// The old value's text is made once, however many texts there are.
#[tactic(auto, using(crate::proofs::Lengths::len_none))]
fn given_list(
    alloc: Global,
    name: &str,
    old: Option<&EnvValue>,
    items: &[Item],
) -> Result<Vec<Item>, GivenFault>
    ensures ok { IfOk result (λ v. v.items ≡ given_items name.now (option_copied old.entry) items.now) }
    ensures fits { IfOk result (λ v. spaced_len v.items ≤ TEXT_LIMIT + 1) }
    ensures too_long { IfErr result (λ e. e ≢ GivenFault.Memory
        → TEXT_LIMIT + 1 < spaced_len (given_items name.now (option_copied old.entry) items.now)) }
{
    let text = old_text(alloc, old)?;
    let mut given = Vec::new(alloc);
    match push_given(alloc, &mut given, name, old, text.as_str(), items) {
        Ok(()) => Ok(given),
        Err(fault) => Err(fault),
    }
}

/// The text of the value that was there.
fn old_text(alloc: Global, old: Option<&EnvValue>) -> Result<String, Memory>
    ensures { IfOk result (λ s. string_bytes s ≡ old_text (option_copied old.entry)) }
{
    match old {
        Some(value) => value_text(alloc, value),
        None => Ok(String::new(alloc)),
    }
}

/// Puts what items stand for behind none, as long as they aren't too long as a text.
fn push_given(
    alloc: Global,
    given: &mut Vec<Item>,
    name: &str,
    old: Option<&EnvValue>,
    as_text: &str,
    items: &[Item],
) -> Result<(), GivenFault>
    requires text { as_text.now ≡ old_text (option_copied old) }
    requires none { given.old.items ≡ [] }
    ensures ok { OnOk result (given.new.items ≡ given_items name.now (option_copied old.entry) items.now) }
    ensures fits { OnOk result (spaced_len given.new.items ≤ TEXT_LIMIT + 1) }
    ensures too_long { IfErr result (λ e. e ≢ GivenFault.Memory
        → TEXT_LIMIT + 1 < spaced_len (given_items name.now (option_copied old.entry) items.now)) }
{
    let mut len = 0;
    for item in items {
        len = push_item(alloc, given, len, name, old, as_text, item)?;
    }
    Ok(())
}

/// Puts what an item stands for behind others, which have so many bytes as a text, and says how many all have then.
fn push_item(
    alloc: Global,
    given: &mut Vec<Item>,
    len: usize,
    name: &str,
    old: Option<&EnvValue>,
    as_text: &str,
    item: &Item,
) -> Result<usize, GivenFault>
    requires text { as_text.now ≡ old_text (option_copied old) }
    requires len { len ≤ TEXT_LIMIT + 1 }
    ensures ok { OnOk result (given.new.items
        ≡ given.old.items ++ given_item name.now (option_copied old.entry) item.now) }
    ensures len { let more = spaced_len (given_item name.now (option_copied old.entry) item.now) in
        MatchResult result (λ n. (n ≡ len + more) × (n ≤ TEXT_LIMIT + 1))
        (λ e. e ≢ GivenFault.Memory → TEXT_LIMIT + 1 < len + more) }
{
    match item {
        Item::Text(text) => push_text(alloc, given, len, name, old, as_text, text.as_str()),
        Item::Int(_) => push_copy(alloc, given, len, item),
        Item::Node(_) => push_copy(alloc, given, len, item),
        Item::Pair(_, _) => push_copy(alloc, given, len, item),
    }
}

fn push_copy(
    alloc: Global,
    given: &mut Vec<Item>,
    len: usize,
    item: &Item,
) -> Result<usize, GivenFault>
    ensures ok { OnOk result (given.new.items ≡ given.old.items ++ item.now ∷ []) }
    ensures len { let more = spaced_len (item.now ∷ []) in
        MatchResult result (λ n. (n ≡ len + more) × (n ≤ TEXT_LIMIT + 1))
        (λ e. e ≢ GivenFault.Memory → TEXT_LIMIT + 1 < len + more) }
{
    let more = item_len(alloc, item)?;
    let copy = item.copy()?;
    push_counted(given, len, more, copy)
}

/// Puts an item that has so many bytes as a text behind others.
#[tactic(auto, using(crate::proofs::Lengths::len_one))]
fn push_counted(
    given: &mut Vec<Item>,
    len: usize,
    more: usize,
    item: Item,
) -> Result<usize, GivenFault>
    requires { more ≡ length (item_text item) }
    ensures ok { OnOk result (given.new.items ≡ given.old.items ++ item ∷ []) }
    ensures len { let more = spaced_len (item ∷ []) in
        MatchResult result (λ n. (n ≡ len + more) × (n ≤ TEXT_LIMIT + 1))
        (λ e. e ≢ GivenFault.Memory → TEXT_LIMIT + 1 < len + more) }
{
    match longer(len, more) {
        Ok(len) => {
            push(given, item)?;
            Ok(len)
        }
        Err(fault) => Err(fault),
    }
}

fn push(items: &mut Vec<Item>, item: Item) -> Result<(), Memory>
    ensures { OnOk result (items.new.items ≡ items.old.items ++ item ∷ []) }
{
    items.push(item)?;
    Ok(())
}

/// How many bytes there are with a space and so many more.
fn longer(len: usize, more: usize) -> Result<usize, GivenFault>
    ensures { MatchResult result (λ n. (n ≡ len + 1 + more) × (n ≤ TEXT_LIMIT + 1))
        (λ e. TEXT_LIMIT + 1 < len + 1 + more) }
{
    let limit = TEXT_LIMIT as usize;
    if more > limit || len > limit - more {
        Err(GivenFault::TooLong)
    } else {
        Ok(len + 1 + more)
    }
}

/// Puts what a text among the items stands for behind the others.
#[tactic(auto, using(crate::proofs::Lengths::given_apart, crate::proofs::Lengths::given_alone, crate::proofs::Lengths::len_none))]
fn push_text(
    alloc: Global,
    given: &mut Vec<Item>,
    len: usize,
    name: &str,
    old: Option<&EnvValue>,
    as_text: &str,
    text: &str,
) -> Result<usize, GivenFault>
    requires text { as_text.now ≡ old_text (option_copied old) }
    requires len { len ≤ TEXT_LIMIT + 1 }
    ensures ok { OnOk result (given.new.items
        ≡ given.old.items ++ given_item name.now (option_copied old.entry) (Item.Text text.now)) }
    ensures len { let more = spaced_len (given_item name.now (option_copied old.entry) (Item.Text text.now)) in
        MatchResult result (λ n. (n ≡ len + more) × (n ≤ TEXT_LIMIT + 1))
        (λ e. e ≢ GivenFault.Memory → TEXT_LIMIT + 1 < len + more) }
{
    if !is_name(name, name_alone(text)) {
        return push_apart(alloc, given, len, name, as_text, text);
    }
    match old {
        Some(value) => push_old(alloc, given, len, as_text, value),
        None => Ok(len),
    }
}

/// A text that isn't the name alone.
#[tactic(auto, using(crate::proofs::Lengths::len_one))]
fn push_apart(
    alloc: Global,
    given: &mut Vec<Item>,
    len: usize,
    name: &str,
    as_text: &str,
    text: &str,
) -> Result<usize, GivenFault>
    ensures ok { OnOk result (given.new.items
        ≡ given.old.items ++ Item.Text (given_text name.now as_text.now text.now) ∷ []) }
    ensures len { let more = spaced_len (Item.Text (given_text name.now as_text.now text.now) ∷ []) in
        MatchResult result (λ n. (n ≡ len + more) × (n ≤ TEXT_LIMIT + 1))
        (λ e. e ≢ GivenFault.Memory → TEXT_LIMIT + 1 < len + more) }
{
    match given_text(alloc, name, as_text, text) {
        Ok(text) => {
            let more = text.len();
            push_counted(given, len, more, Item::Text(Text::new(text)))
        }
        Err(fault) => Err(fault),
    }
}

/// Puts the old value, which is this text, behind others.
#[tactic(auto, using(crate::proofs::Lengths::old_len, crate::proofs::Lengths::none_shown))]
fn push_old(
    alloc: Global,
    given: &mut Vec<Item>,
    len: usize,
    as_text: &str,
    old: &EnvValue,
) -> Result<usize, GivenFault>
    requires text { as_text.now ≡ value_text old.now }
    requires len { len ≤ TEXT_LIMIT + 1 }
    ensures ok { OnOk result (given.new.items ≡ given.old.items ++ value_items old.now) }
    ensures len { let more = spaced_len (value_items old.now) in
        MatchResult result (λ n. (n ≡ len + more) × (n ≤ TEXT_LIMIT + 1))
        (λ e. e ≢ GivenFault.Memory → TEXT_LIMIT + 1 < len + more) }
{
    let before = given.len();
    push_value(alloc, given, old)?;
    if given.len() > before {
        longer(len, as_text.len())
    } else {
        Ok(len)
    }
}

fn is_name(name: &str, found: Option<&str>) -> bool
    ensures { result ≡ is_name name.now (option_copied found.entry) }
{
    match found {
        Some(found) => found == name,
        None => false,
    }
}

/// A text with the old value's text in place of each reference to the variable.
fn given_text(alloc: Global, name: &str, old: &str, text: &str) -> Result<String, GivenFault>
    ensures ok { IfOk result (λ s. string_bytes s ≡ given_text name.now old.now text.now) }
    ensures fits { IfOk result (λ s. length (string_bytes s) ≤ TEXT_LIMIT) }
    ensures too_long { IfErr result (λ e. e ≢ GivenFault.Memory
        → TEXT_LIMIT < length (given_text name.now old.now text.now)) }
{
    let mut given = String::new(alloc);
    match put_given(&mut given, name, old, text) {
        Ok(()) => Ok(given),
        Err(fault) => Err(fault),
    }
}

/// Puts what a text stands for behind none, as long as it isn't too long.
fn put_given(given: &mut String, name: &str, old: &str, text: &str) -> Result<(), GivenFault>
    requires { string_bytes given.old ≡ [] }
    ensures ok { OnOk result (string_bytes given.new ≡ given_text name.now old.now text.now) }
    ensures fits { OnOk result (length (string_bytes given.new) ≤ TEXT_LIMIT) }
    ensures too_long { IfErr result (λ e. e ≢ GivenFault.Memory
        → TEXT_LIMIT < length (given_text name.now old.now text.now)) }
{
    let mut at = 0;
    'parts: loop {
        match next_part(text, at) {
            Step::Part(part, next) => {
                let replaced = is_name(name, whole_name(part));
                put_part(given, replaced, old, &text[at..next])?;
                at = next;
            }
            Step::End => return Ok(()),
            Step::BadBrace => return put(given, &text[at..]),
        }
    }
}

/// Puts a part of a text, or the old value in its place.
fn put_part(given: &mut String, replaced: bool, old: &str, part: &str) -> Result<(), GivenFault>
    requires { length (string_bytes given.old) ≤ TEXT_LIMIT }
    ensures ok { OnOk result (string_bytes given.new
        ≡ string_bytes given.old ++ (if replaced then old.now else part.now)) }
    ensures fits { OnOk result (length (string_bytes given.new) ≤ TEXT_LIMIT) }
    ensures too_long { IfErr result (λ e. e ≢ GivenFault.Memory
        → TEXT_LIMIT < length (string_bytes given.old ++ (if replaced then old.now else part.now))) }
{
    put(given, if replaced { old } else { part })
}

fn put(given: &mut String, more: &str) -> Result<(), GivenFault>
    requires { length (string_bytes given.old) ≤ TEXT_LIMIT }
    ensures ok { OnOk result (string_bytes given.new ≡ string_bytes given.old ++ more.now) }
    ensures fits { OnOk result (length (string_bytes given.new) ≤ TEXT_LIMIT) }
    ensures too_long { IfErr result (λ e. e ≢ GivenFault.Memory
        → TEXT_LIMIT < length (string_bytes given.old ++ more.now)) }
{
    if more.len() > TEXT_LIMIT as usize - given.len() {
        return Err(GivenFault::TooLong);
    }
    put_text(given, more)?;
    Ok(())
}

fn put_text(given: &mut String, more: &str) -> Result<(), Memory>
    ensures { OnOk result (string_bytes given.new ≡ string_bytes given.old ++ more.now) }
{
    given.push_str(more)?;
    Ok(())
}
