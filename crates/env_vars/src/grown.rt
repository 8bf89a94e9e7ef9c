//! A value added to another one in place: of what is there already nothing is copied, where a list or words are added to.
ghost use Rattle.std.specs.Prelude.{◌≡◌, ◌≢◌, ◌++◌, fold, Some, None, IfOk, IfErr, OnOk, OnErr, MatchBool};
ghost use Rattle.std.specs.List.{list_any};
ghost use Rattle.std.specs.Option.{option_map};
ghost use Rattle.std.specs.Str.{bytes_eq};
ghost use Rattle.env_vars.specs.Added.{as_items, add_new, put_items, put_beside, items_for_words, items_for_list, word_list, added_to};

use crate::added::{added_to, is_there, items_for_list, items_for_words};
use crate::fault::EnvFault;
use crate::forms::texts_of;
use crate::names::is_word_variable;
use crate::place::Place;
use crate::value::{EnvValue, Item};
use scons_base::{Listing, Memory, Text, Texts};
use std::alloc::Global;
use std::mem;

/// Adds a value to another one, which stays where their kinds don't fit or memory is short.
pub(crate) fn add_to(
    alloc: Global,
    place: Place,
    name: &str,
    held: &mut EnvValue,
    value: &EnvValue,
) -> Result<(), EnvFault>
    ensures ok { OnOk result (added_to place name.now held.old value.now ≡ Some held.new) }
    ensures kinds { IfErr result (λ e. e ≢ EnvFault.Memory
        → (e ≡ EnvFault.Kinds) × (added_to place name.now held.old value.now ≡ None)) }
    ensures err { OnErr result (held.new ≡ held.old) }
{
    if grow(alloc, place, name, held, value)? {
        return Ok(());
    }
    match added_to(alloc, place, name, held, value)? {
        Some(new) => *held = new,
        None => return Err(EnvFault::Kinds),
    }
    Ok(())
}

/// Adds in place where that goes, and says whether it did.
fn grow(
    alloc: Global,
    place: Place,
    name: &str,
    held: &mut EnvValue,
    value: &EnvValue,
) -> Result<bool, Memory>
    ensures ok { IfOk result (λ grown. MatchBool grown (added_to place name.now held.old value.now ≡ Some held.new)
        (held.new ≡ held.old)) }
    ensures err { OnErr result (held.new ≡ held.old) }
{
    match held {
        EnvValue::Words(words) => grow_words(alloc, place, words, value),
        EnvValue::List(items) => grow_list(alloc, place, name, items, value),
        _ => Ok(false),
    }
}

/// Adds words to words.
#[tactic(auto, using(crate::proofs::GrownLemmas::words_grown))]
fn grow_words(
    alloc: Global,
    place: Place,
    words: &mut Texts,
    value: &EnvValue,
) -> Result<bool, Memory>
    ensures ok { IfOk result (λ grown. MatchBool grown
        (option_map (λ added. word_list (put_items place (as_items words.old) added)) (items_for_words value.now)
        ≡ Some (EnvValue.Words words.new)) (words.new ≡ words.old)) }
    ensures err { OnErr result (words.new ≡ words.old) }
{
    let Some(added) = items_for_words(alloc, value)? else {
        return Ok(false);
    };
    let Some(added) = texts_of(alloc, added.as_slice())? else {
        return Ok(false);
    };
    put_words(alloc, place, words, added)?;
    Ok(true)
}

/// Adds items to a list, unless it stands for words.
fn grow_list(
    alloc: Global,
    place: Place,
    name: &str,
    items: &mut Listing<Item>,
    value: &EnvValue,
) -> Result<bool, Memory>
    ensures ok { IfOk result (λ grown. MatchBool grown
        (added_to place name.now (EnvValue.List items.old) value.now ≡ Some (EnvValue.List items.new)) (items.new ≡ items.old)) }
    ensures err { OnErr result (items.new ≡ items.old) }
{
    if is_word_variable(name) {
        return Ok(false);
    }
    grow_items(alloc, place, name, items, value)
}

/// Adds items to a list.
fn grow_items(
    alloc: Global,
    place: Place,
    name: &str,
    items: &mut Listing<Item>,
    value: &EnvValue,
) -> Result<bool, Memory>
    ensures ok { IfOk result (λ grown. MatchBool grown
        (option_map (λ added. EnvValue.List (put_items place items.old added)) (items_for_list name.now value.now)
        ≡ Some (EnvValue.List items.new)) (items.new ≡ items.old)) }
    ensures err { OnErr result (items.new ≡ items.old) }
{
    let Some(added) = items_for_list(alloc, name, value)? else {
        return Ok(false);
    };
    put_items(alloc, place, items, added)?;
    Ok(true)
}

fn put_items(
    alloc: Global,
    place: Place,
    items: &mut Listing<Item>,
    added: Vec<Item>,
) -> Result<(), Memory>
    ensures ok { OnOk result (items.new ≡ put_items place items.old added.items) }
    ensures err { OnErr result (items.new ≡ items.old) }
{
    let added = items_left(alloc, place, items.as_slice(), added)?;
    let mut held = mem::replace(items, Listing::empty(alloc)).into_vec();
    let joined = join(place, &mut held, added);
    *items = Listing::new(held);
    joined
}

fn put_words(alloc: Global, place: Place, words: &mut Texts, added: Vec<Text>) -> Result<(), Memory>
    ensures ok { OnOk result (put_items place (as_items words.old) (as_items added.items) ≡ as_items words.new) }
    ensures err { OnErr result (words.new ≡ words.old) }
{
    let added = words_left(alloc, place, words.as_slice(), added)?;
    let mut held = mem::replace(words, Texts::new(Vec::new(alloc))).into_vec();
    let joined = join(place, &mut held, added);
    *words = Texts::new(held);
    joined
}

/// The items that are put: all of them, or those that aren't there already.
fn items_left(
    alloc: Global,
    place: Place,
    old: &[Item],
    added: Vec<Item>,
) -> Result<Vec<Item>, Memory>
    ensures { IfOk result (λ v. put_items place old.now added.items ≡ put_beside place old.now v.items) }
{
    match place {
        Place::Behind | Place::InFront => Ok(added),
        Place::New => new_items(alloc, old, added.as_slice()),
    }
}

/// The words that are put.
fn words_left(
    alloc: Global,
    place: Place,
    old: &[Text],
    added: Vec<Text>,
) -> Result<Vec<Text>, Memory>
    ensures { IfOk result (λ v.
        put_items place (as_items old.now) (as_items added.items) ≡ as_items (put_beside place old.now v.items)) }
{
    match place {
        Place::Behind | Place::InFront => Ok(added),
        Place::New => new_words(alloc, old, added.as_slice()),
    }
}

/// The items that aren't there already, each once.
fn new_items(alloc: Global, old: &[Item], added: &[Item]) -> Result<Vec<Item>, Memory>
    ensures { IfOk result (λ v. fold add_new old.now added.now ≡ old.now ++ v.items) }
{
    let mut new = Vec::new(alloc);
    for item in added {
        push_new_item(old, &mut new, item)?;
    }
    Ok(new)
}

/// Puts an item behind new ones, unless it is one of them or of the old ones.
#[tactic(auto, using(crate::proofs::GrownLemmas::item_added))]
fn push_new_item(old: &[Item], new: &mut Vec<Item>, item: &Item) -> Result<(), Memory>
    ensures { OnOk result (old.now ++ new.new.items ≡ add_new (old.now ++ new.old.items) item.now) }
{
    if is_there(old, item) || is_there(new.as_slice(), item) {
        return Ok(());
    }
    new.push(item.copy()?)?;
    Ok(())
}

/// The words that aren't there already, each once.
#[tactic(auto, using(crate::proofs::GrownLemmas::words_more))]
fn new_words(alloc: Global, old: &[Text], added: &[Text]) -> Result<Vec<Text>, Memory>
    ensures { IfOk result (λ v. fold add_new (as_items old.now) (as_items added.now) ≡ as_items (old.now ++ v.items)) }
{
    let mut new = Vec::new(alloc);
    for word in added {
        push_new_word(old, &mut new, word)?;
    }
    Ok(new)
}

/// Puts a word behind new ones, unless it is one of them or of the old ones.
#[tactic(auto, using(crate::proofs::GrownLemmas::word_added))]
fn push_new_word(old: &[Text], new: &mut Vec<Text>, word: &Text) -> Result<(), Memory>
    ensures { OnOk result (as_items (old.now ++ new.new.items)
        ≡ add_new (as_items (old.now ++ new.old.items)) (Item.Text word.now)) }
{
    if is_among(old, word) || is_among(new.as_slice(), word) {
        return Ok(());
    }
    new.push(word.copy()?)?;
    Ok(())
}

fn is_among(words: &[Text], word: &Text) -> bool
    ensures { result ≡ list_any (bytes_eq word.now) words.now }
{
    words.iter().any(|there| word == there)
}

/// Puts things behind others, or in front of them.
fn join<T: Drop>(place: Place, held: &mut Vec<T>, added: Vec<T>) -> Result<(), Memory>
    ensures ok { OnOk result (held.new.items ≡ put_beside place held.old.items added.items) }
    ensures err { OnErr result (held.new.items ≡ held.old.items) }
{
    let mut added = added;
    match place {
        Place::InFront => {
            added.append(held)?;
            *held = added;
        }
        Place::Behind | Place::New => held.append(&mut added)?,
    }
    Ok(())
}
