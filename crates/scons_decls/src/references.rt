//! References in texts to variables of SCons that aren't here.
ghost use Rattle.std.specs.Prelude.{◌≡◌, ◌≢◌, Ok, Err, OnOk, IfErr};
ghost use Rattle.env_text.specs.Views.{plain};
ghost use Rattle.scons_decls.specs.Profile.{may_refer};
ghost use Rattle.scons_decls.specs.Steps.{all_of};
ghost use Rattle.scons_decls.specs.References.{text_allowed, part_allowed, item_allowed, pair_allowed, value_allowed};

use crate::fault::NameFault;
use crate::profile::{is_left_out, out_of_profile};
use env_text::{Part, Step, next_part};
use env_vars::{EnvValue, Item};
use scons_base::Text;
use std::alloc::Global;

/// Refuses a text that refers to such a variable.
#[tactic(auto, unfolding(crate::specs::References::text_allowed))]
pub(crate) fn refuse_references(alloc: Global, text: &str) -> Result<(), NameFault>
    ensures ok { OnOk result (text_allowed text.now ≡ Ok tt) }
    ensures fault { IfErr result (λ e. e ≢ NameFault.Memory → text_allowed text.now ≡ Err e) }
{
    let mut at = 0;
    'parts: loop {
        match next_part(text, at) {
            Step::Part(part, next) => {
                refuse_part(alloc, part)?;
                at = next;
            }
            Step::End | Step::BadBrace => return Ok(()),
        }
    }
}

fn refuse_part(alloc: Global, part: Part<'_>) -> Result<(), NameFault>
    ensures ok { OnOk result (part_allowed (plain part.entry) ≡ Ok tt) }
    ensures fault { IfErr result (λ e. e ≢ NameFault.Memory → part_allowed (plain part.entry) ≡ Err e) }
{
    match part {
        Part::Variable { name, .. } => refuse_reference(alloc, name),
        Part::Concat {
            prefix,
            list,
            suffix,
            ..
        } => {
            refuse_reference(alloc, prefix)?;
            refuse_reference(alloc, list)?;
            refuse_reference(alloc, suffix)
        }
        Part::Text(_) | Part::Begin | Part::End => Ok(()),
    }
}

fn refuse_reference(alloc: Global, name: &str) -> Result<(), NameFault>
    ensures ok { OnOk result (may_refer name.now ≡ Ok tt) }
    ensures fault { IfErr result (λ e. e ≢ NameFault.Memory → may_refer name.now ≡ Err e) }
{
    if is_left_out(name) {
        return Err(out_of_profile(alloc, name));
    }
    Ok(())
}

/// Refuses a value with such a text.
pub fn refuse_value(alloc: Global, value: &EnvValue) -> Result<(), NameFault>
    ensures ok { OnOk result (value_allowed value.now ≡ Ok tt) }
    ensures fault { IfErr result (λ e. e ≢ NameFault.Memory → value_allowed value.now ≡ Err e) }
{
    match value {
        EnvValue::Text(text) => refuse_references(alloc, text.as_str()),
        EnvValue::Words(words) => refuse_texts(alloc, words.as_slice()),
        EnvValue::List(items) => refuse_items(alloc, items.as_slice()),
        EnvValue::Pairs(pairs) => refuse_pairs(alloc, pairs.as_slice()),
        EnvValue::Nil | EnvValue::Bool(_) | EnvValue::Int(_) => Ok(()),
    }
}

fn refuse_texts(alloc: Global, texts: &[Text]) -> Result<(), NameFault>
    ensures ok { OnOk result (all_of text_allowed texts.now ≡ Ok tt) }
    ensures fault { IfErr result (λ e. e ≢ NameFault.Memory → all_of text_allowed texts.now ≡ Err e) }
{
    for text in texts {
        refuse_references(alloc, text.as_str())?;
    }
    Ok(())
}

fn refuse_items(alloc: Global, items: &[Item]) -> Result<(), NameFault>
    ensures ok { OnOk result (all_of item_allowed items.now ≡ Ok tt) }
    ensures fault { IfErr result (λ e. e ≢ NameFault.Memory → all_of item_allowed items.now ≡ Err e) }
{
    for item in items {
        refuse_item(alloc, item)?;
    }
    Ok(())
}

fn refuse_pairs(alloc: Global, pairs: &[(Text, Item)]) -> Result<(), NameFault>
    ensures ok { OnOk result (all_of pair_allowed pairs.now ≡ Ok tt) }
    ensures fault { IfErr result (λ e. e ≢ NameFault.Memory → all_of pair_allowed pairs.now ≡ Err e) }
{
    for (_, item) in pairs {
        refuse_item(alloc, item)?;
    }
    Ok(())
}

fn refuse_item(alloc: Global, item: &Item) -> Result<(), NameFault>
    ensures ok { OnOk result (item_allowed item.now ≡ Ok tt) }
    ensures fault { IfErr result (λ e. e ≢ NameFault.Memory → item_allowed item.now ≡ Err e) }
{
    match item {
        Item::Text(text) | Item::Pair(_, Some(text)) => refuse_references(alloc, text.as_str()),
        Item::Pair(_, None) | Item::Int(_) | Item::Node(_) => Ok(()),
    }
}
