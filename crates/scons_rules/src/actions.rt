//! The actions of a rule: one that is the name of a list variable alone stands for an action for each item.
ghost use Rattle.std.specs.Prelude.{◌≡◌, ◌≢◌, ◌++◌, ◌∷◌, true, false, Ok, Err, Some, IfOk, IfErr, OnOk, MatchResult, reverse};
ghost use Rattle.std.specs.Option.{option_map};
ghost use Rattle.scons_decls.specs.declared.fault.NameFault.TheVariants as NameFault;
ghost use Rattle.scons_rules.specs.Expanding.{expanding};
ghost use Rattle.scons_rules.specs.Steps.{each};
ghost use Rattle.scons_rules.specs.Actions.{item_text, items_in, items_at, actions_by, too_many_references};
ghost use Rattle.scons_rules.specs.ActionsLeft.{texts_in, list_items, left_of, comes, may_follow, following, Follows};

use crate::fault::RuleReadFault;
use crate::one_rule::OneRule;
use env_subst::SubstFault;
use env_text::name_alone;
use env_vars::{EnvValue, Item};
use scons_base::limits::{LIST_LIMIT, REFERENCE_LIMIT};
use scons_base::{Memory, Text};
use scons_decls::NameFault;
use std::alloc::Global;

/// The names that stand for a rule's own nodes and tool, whatever the environment has under them.
const OWN_NAMES: [&str; 5] = ["TARGET", "TARGETS", "SOURCE", "SOURCES", "SMARTLINK"];

/// A list variable: words, or items that have to be texts.
#[derive(Clone, Copy)]
enum NamedList<'a> {
    Words(&'a [Text]),
    Items(&'a str, &'a [Item]),
}

/// What is left to look at, the last first, what was found, and how many references were followed.
#[derive(Drop)]
struct Actions<'a> {
    left: Vec<&'a str>,
    found: Vec<&'a str>,
    references: u64,
}

/// The actions of these texts. A text that is the name of a list variable alone stands for its items, each an action in turn.
pub(crate) fn actions_of<'a>(
    rule: &OneRule<'a>,
    texts: Vec<&'a str>,
) -> Result<Vec<&'a str>, RuleReadFault>
    ensures ok { IfOk result (λ v. actions_by (expanding rule.now) (texts_in texts.entry.items) ≡ Ok (texts_in v.items)) }
    ensures fault { IfErr result (λ e. e ≢ RuleReadFault.Memory
        → actions_by (expanding rule.now) (texts_in texts.entry.items) ≡ Err e) }
{
    let mut actions = Actions {
        left: Vec::new(rule.alloc),
        found: Vec::with_capacity(rule.alloc, texts.len())?,
        references: 0,
    };
    push_in_front(&mut actions.left, texts)?;
    'actions: for _ in 0..u64::MAX {
        match actions.left.pop() {
            Some(action) => take(rule, &mut actions, action)?,
            None => return Ok(actions.found),
        }
    }
    Err(RuleReadFault::Memory)
}

/// An action as it stands, or what stands in its place.
fn take<'a>(
    rule: &OneRule<'a>,
    actions: &mut Actions<'a>,
    action: &'a str,
) -> Result<(), RuleReadFault>
    ensures { let x = expanding rule.now in let before = comes x actions.old (action.now ∷ left_of actions.old) in
        MatchResult result (λ _. comes x actions.new (left_of actions.new) ≡ before) (λ e. e ≢ RuleReadFault.Memory → before ≡ Err e) }
{
    match list_named(rule, action) {
        Some(list) => follow(rule, actions, list),
        None => Ok(actions.found.push(action)?),
    }
}

/// Follows a reference to a list: its items are looked at next.
fn follow<'a>(
    rule: &OneRule<'a>,
    actions: &mut Actions<'a>,
    list: NamedList<'a>,
) -> Result<(), RuleReadFault>
    ensures ok { OnOk result (Follows (list_items list.entry) actions.old actions.new) }
    ensures fault { IfErr result (λ e. e ≢ RuleReadFault.Memory → following (list_items list.entry) actions.old ≡ Some e) }
{
    refuse_many(actions)?;
    let items = texts_of(rule.alloc, list)?;
    actions.references += 1;
    Ok(push_in_front(&mut actions.left, items)?)
}

/// Refuses one more reference where there may be none, or where too much is left to look at.
fn refuse_many(actions: &Actions<'_>) -> Result<(), RuleReadFault>
    ensures ok { OnOk result (may_follow actions.now ≡ true) }
    ensures fault { IfErr result (λ e. (may_follow actions.now ≡ false) × (e ≡ too_many_references)) }
{
    if actions.references < REFERENCE_LIMIT && actions.left.len() <= LIST_LIMIT as usize {
        return Ok(());
    }
    let fault = SubstFault::TooMany(REFERENCE_LIMIT + 1);
    Err(RuleReadFault::Name(NameFault::Subst(fault)))
}

/// The list variable whose name is all that a text says.
fn list_named<'a>(rule: &OneRule<'a>, text: &'a str) -> Option<NamedList<'a>>
    ensures { option_map list_items result ≡ items_at (expanding rule.now) text.now }
{
    let name = name_alone(text)?;
    if OWN_NAMES.contains(&name) {
        return None;
    }
    list_in(name, rule.state.envs.get(rule.env(), name)?)
}

/// The list that the value of a variable is.
fn list_in<'a>(name: &'a str, value: &'a EnvValue) -> Option<NamedList<'a>>
    ensures { option_map list_items result ≡ items_in name.now value.now }
{
    match value {
        EnvValue::Words(words) => Some(NamedList::Words(words.as_slice())),
        EnvValue::List(items) => Some(NamedList::Items(name, items.as_slice())),
        _ => None,
    }
}

/// The texts of a list variable, which is refused where it has anything else.
fn texts_of<'a>(alloc: Global, list: NamedList<'a>) -> Result<Vec<&'a str>, RuleReadFault>
    ensures ok { IfOk result (λ v. list_items list.entry ≡ Ok (texts_in v.items)) }
    ensures fault { IfErr result (λ e. e ≢ RuleReadFault.Memory → list_items list.entry ≡ Err e) }
{
    match list {
        NamedList::Words(words) => Ok(strs(alloc, words)?),
        NamedList::Items(name, items) => item_texts(alloc, name, items),
    }
}

fn item_texts<'a>(
    alloc: Global,
    name: &str,
    items: &'a [Item],
) -> Result<Vec<&'a str>, RuleReadFault>
    ensures ok { IfOk result (λ v. each (item_text name.now) items.now ≡ Ok (texts_in v.items)) }
    ensures fault { IfErr result (λ e. e ≢ RuleReadFault.Memory → each (item_text name.now) items.now ≡ Err e) }
{
    let mut texts = Vec::new(alloc);
    for item in items {
        texts.push(item_text(alloc, name, item)?)?;
    }
    Ok(texts)
}

fn item_text<'a>(alloc: Global, name: &str, item: &'a Item) -> Result<&'a str, RuleReadFault>
    ensures ok { IfOk result (λ t. item_text name.now item.now ≡ Ok t.now) }
    ensures fault { IfErr result (λ e. e ≢ RuleReadFault.Memory → item_text name.now item.now ≡ Err e) }
{
    match item {
        Item::Text(text) => Ok(text.as_str()),
        _ => Err(out_of_profile(alloc, name)),
    }
}

fn out_of_profile(alloc: Global, name: &str) -> RuleReadFault
    ensures { result ≢ RuleReadFault.Memory → result ≡ RuleReadFault.Name (NameFault.OutOfProfile name.now) }
{
    match Text::of(alloc, name) {
        Ok(name) => RuleReadFault::Name(NameFault::OutOfProfile(name)),
        Err(_) => RuleReadFault::Memory,
    }
}

/// These texts, borrowed.
pub(crate) fn strs<'a>(alloc: Global, texts: &'a [Text]) -> Result<Vec<&'a str>, Memory>
    ensures { IfOk result (λ v. texts_in v.items ≡ texts.now) }
{
    let mut strs = Vec::with_capacity(alloc, texts.len())?;
    for text in texts {
        strs.push(text.as_str())?;
    }
    Ok(strs)
}

/// Puts texts before all that is left, whose last is looked at first.
fn push_in_front<'a>(left: &mut Vec<&'a str>, texts: Vec<&'a str>) -> Result<(), Memory>
    ensures { OnOk result (reverse (texts_in left.new.items) ≡ texts_in texts.entry.items ++ reverse (texts_in left.old.items)) }
{
    let mut texts = texts;
    texts.reverse();
    left.append(&mut texts)?;
    Ok(())
}
