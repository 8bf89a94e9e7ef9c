//! What a variable holds, and what a reference takes of it.
ghost use Rattle.std.specs.Prelude.{◌≡◌, [], true, false, None, Some, take, IfOk, MatchOption, option_copied};
ghost use Rattle.env_subst.specs.declared.locals.Locals.{Locals};
ghost use Rattle.env_subst.specs.Sayings.{sayings_of};
ghost use Rattle.std.specs.List.{list_all};
ghost use Rattle.std.specs.Option.{option_map};
ghost use Rattle.env_vars.specs.Envs.{value_of};
ghost use Rattle.env_subst.specs.Settings.{setting_of};
ghost use Rattle.env_subst.specs.Contents.{items, content_of, held, held_or_nothing, known_at, content_at, character_or_nothing, taken, taken_text, taken_shown, is_node, said, said_text, shown_parts, said_by};

use crate::attribute::{Attribute, attribute_named};
use crate::locals::{Locals, Named};
use crate::saying::{Saying, Sayings};
use crate::select::{selected, selected_text};
use crate::setting::Setting;
use env_text::Selection;
use env_vars::{EnvValue, Item};
use scons_base::{Memory, Text};
use std::alloc::Global;

/// What a variable holds.
#[derive(Drop)]
pub(crate) enum Holding<'a> {
    Nothing,
    Nodes(&'a [Named]),
    Items(&'a [Item]),
    Words(&'a [Text]),
    Pairs(&'a [(Text, Item)]),
    /// A text that is read in turn.
    Text(&'a str),
    /// A number or a truth value.
    Shown(Text),
}

/// What the variable of this name holds.
pub(crate) fn held_by<'a>(setting: &Setting<'a>, name: &str) -> Result<Holding<'a>, Memory>
    ensures { IfOk result (λ h. content_of h ≡ content_at (setting_of setting.now) name.now) }
{
    match known_by(setting.locals, name) {
        Some(holding) => Ok(holding),
        None => held_there(setting, name),
    }
}

/// What the rule knows under this name, whatever the environment has.
fn known_by<'a>(locals: &'a Locals, name: &str) -> Option<Holding<'a>>
    ensures { option_map content_of result ≡ known_at locals.now name.now }
{
    if name == "TARGETS" {
        Some(Holding::Nodes(locals.targets.as_slice()))
    } else if name == "SOURCES" {
        Some(Holding::Nodes(locals.sources.as_slice()))
    } else if name == "TARGET" {
        Some(Holding::Nodes(front(locals.targets.as_slice())))
    } else if name == "SOURCE" {
        Some(Holding::Nodes(front(locals.sources.as_slice())))
    } else if name == "SMARTLINK" {
        Some(Holding::Text(locals.smartlink.as_str()))
    } else {
        None
    }
}

fn held_there<'a>(setting: &Setting<'a>, name: &str) -> Result<Holding<'a>, Memory>
    ensures { IfOk result (λ h. content_of h
        ≡ held_or_nothing (value_of setting.now.envs.now setting.now.env.0 name.now)) }
{
    match setting.envs.get(setting.env, name) {
        Some(value) => held(setting.alloc, value),
        None => Ok(Holding::Nothing),
    }
}

/// The first node alone.
fn front(nodes: &[Named]) -> &[Named]
    ensures { result.now ≡ take 1 nodes.now }
{
    if nodes.len() > 1 { &nodes[..1] } else { nodes }
}

fn held<'a>(alloc: Global, value: &'a EnvValue) -> Result<Holding<'a>, Memory>
    ensures { IfOk result (λ h. content_of h ≡ held value.now) }
{
    match value {
        EnvValue::Nil => Ok(Holding::Text("")),
        EnvValue::Bool(true) => Ok(Holding::Shown(Text::of(alloc, "True")?)),
        EnvValue::Bool(false) => Ok(Holding::Shown(Text::of(alloc, "False")?)),
        EnvValue::Int(number) => Ok(Holding::Shown(Text::new(format!(in alloc; "{number}")?))),
        EnvValue::Text(text) => Ok(Holding::Text(text.as_str())),
        EnvValue::Words(words) => Ok(Holding::Words(words.as_slice())),
        EnvValue::List(items) => Ok(Holding::Items(items.as_slice())),
        EnvValue::Pairs(pairs) => Ok(Holding::Pairs(pairs.as_slice())),
    }
}

/// What is selected of it.
pub(crate) fn taken<'a>(holding: Holding<'a>, selection: Selection) -> Holding<'a>
    ensures { content_of result ≡ taken selection (content_of holding.entry) }
{
    match holding {
        Holding::Nothing => Holding::Nothing,
        Holding::Nodes(nodes) => Holding::Nodes(selected(nodes, selection)),
        Holding::Items(items) => Holding::Items(selected(items, selection)),
        Holding::Words(words) => Holding::Words(selected(words, selection)),
        Holding::Pairs(pairs) => Holding::Pairs(selected(pairs, selection)),
        Holding::Text(text) => taken_text(text, selection),
        Holding::Shown(text) => taken_shown(text, selection),
    }
}

fn taken_text<'a>(text: &'a str, selection: Selection) -> Holding<'a>
    ensures { content_of result ≡ taken_text selection text.now }
{
    match selection {
        Selection::Whole => Holding::Text(text),
        Selection::Slice(_, _) => Holding::Text(selected_text(text, selection)),
        Selection::Item(_) => character(selected_text(text, selection)),
    }
}

/// A character that isn't there is nothing.
fn character<'a>(text: &'a str) -> Holding<'a>
    ensures { content_of result ≡ character_or_nothing text.now }
{
    if text.is_empty() {
        Holding::Nothing
    } else {
        Holding::Text(text)
    }
}

fn taken_shown<'a>(text: Text, selection: Selection) -> Holding<'a>
    ensures { content_of result ≡ taken_shown selection text }
{
    match selection {
        Selection::Whole => Holding::Shown(text),
        _ => Holding::Nothing,
    }
}

/// What it says by an attribute of this name, if there is one: none where there is no such attribute, or no list of nodes.
pub(crate) fn said_by<'a>(holding: Holding<'a>, attribute: Option<&str>) -> Option<Sayings<'a>>
    ensures { MatchOption result ((locals : Locals) → said_by locals (option_copied attribute.entry) (content_of holding.entry) ≡ None)
        (λ s. (locals : Locals) → said_by locals (option_copied attribute.entry) (content_of holding.entry) ≡ Some (sayings_of locals s)) }
{
    match attribute {
        Some(name) => match attribute_named(name) {
            Some(attribute) => shown_parts(holding, attribute),
            None => None,
        },
        None => Some(said(holding)),
    }
}

/// What it says itself.
pub(crate) fn said<'a>(holding: Holding<'a>) -> Sayings<'a>
    ensures { (locals : Locals) → sayings_of locals result ≡ said locals (content_of holding.entry) }
{
    match holding {
        Holding::Nothing => Sayings::Over,
        Holding::Nodes(nodes) => Sayings::Nodes(nodes, None),
        Holding::Items(items) => Sayings::Items(items, None),
        Holding::Words(words) => Sayings::Words(words),
        Holding::Pairs(pairs) => Sayings::Pairs(pairs),
        Holding::Text(text) => said_text(text),
        Holding::Shown(text) => Sayings::One(Saying::Plain(text)),
    }
}

/// An empty text says nothing.
fn said_text<'a>(text: &'a str) -> Sayings<'a>
    ensures { (locals : Locals) → sayings_of locals result ≡ said_text text.now }
{
    if text.is_empty() {
        Sayings::Over
    } else {
        Sayings::Text(text)
    }
}

/// What an attribute says of each node; none where there is something else.
fn shown_parts<'a>(holding: Holding<'a>, attribute: Attribute) -> Option<Sayings<'a>>
    ensures { MatchOption result ((locals : Locals) → shown_parts locals attribute (content_of holding.entry) ≡ None)
        (λ s. (locals : Locals) → shown_parts locals attribute (content_of holding.entry) ≡ Some (sayings_of locals s)) }
{
    match holding {
        Holding::Nothing => Some(Sayings::Over),
        Holding::Nodes(nodes) => Some(Sayings::Nodes(nodes, Some(attribute))),
        Holding::Items(items) => item_parts(items, attribute),
        Holding::Words(words) => no_parts(words.is_empty()),
        Holding::Pairs(pairs) => no_parts(pairs.is_empty()),
        Holding::Text(_text) => None,
        Holding::Shown(_text) => None,
    }
}

fn item_parts<'a>(list: &'a [Item], attribute: Attribute) -> Option<Sayings<'a>>
    ensures { MatchOption result ((locals : Locals) → shown_parts locals attribute (items list.now) ≡ None)
        (λ s. (locals : Locals) → shown_parts locals attribute (items list.now) ≡ Some (sayings_of locals s)) }
{
    if are_nodes(list) {
        Some(Sayings::Items(list, Some(attribute)))
    } else {
        None
    }
}

/// A list of texts is a list of nodes where it is empty.
fn no_parts<'a>(is_empty: bool) -> Option<Sayings<'a>>
    ensures { MatchOption result (is_empty ≡ false) (λ s. (is_empty ≡ true) × ((locals : Locals) → sayings_of locals s ≡ [])) }
{
    if is_empty { Some(Sayings::Over) } else { None }
}

fn are_nodes(items: &[Item]) -> bool
    ensures { result ≡ list_all is_node items.now }
{
    items.iter().all(is_node)
}

fn is_node(item: &Item) -> bool
    ensures { result ≡ is_node item.now }
{
    matches!(item, Item::Node(_))
}
