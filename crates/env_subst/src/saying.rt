//! What a value says, one thing after another.
ghost use Rattle.std.specs.Prelude.{◌≡◌, ◌<◌, ◌∷◌, [], ⊤, true, length, map, IfOk, MatchOption};
ghost use Rattle.env_subst.specs.declared.locals.Locals.{Locals};
ghost use Rattle.env_subst.specs.Expansions.{is_literal};
ghost use Rattle.env_subst.specs.Sayings.{said_node, said_item, said_pair, defined, sayings_of, Begins};

use crate::attribute::{Attribute, named_of, part_of};
use crate::locals::{Locals, Named};
use env_vars::Item;
use scons_base::{Memory, PathText, Text};
use std::alloc::Global;

/// One thing that a value says.
#[derive(Debug, Drop)]
pub(crate) enum Saying {
    /// A text that is read in turn.
    Read(Text),
    /// A text that stands as it is.
    Plain(Text),
    /// A node.
    Path(PathText),
}

/// What a value still says. Nodes, and items that are nodes, may show an attribute in place of their path.
#[derive(Drop)]
pub(crate) enum Sayings<'a> {
    Nodes(&'a [Named], Option<Attribute>),
    Items(&'a [Item], Option<Attribute>),
    Words(&'a [Text]),
    Pairs(&'a [(Text, Item)]),
    /// A text that is read in turn.
    Text(&'a str),
    One(Saying),
    Over,
}

/// The first thing that is said, and what is said behind it.
#[derive(Drop)]
pub(crate) struct First<'a> {
    pub(crate) saying: Saying,
    pub(crate) rest: Sayings<'a>,
}

/// The first thing, if anything is said.
pub(crate) fn first_of<'a>(
    alloc: Global,
    locals: &Locals,
    sayings: Sayings<'a>,
) -> Result<Option<First<'a>>, Memory>
    ensures { IfOk result (Begins locals.now (sayings_of locals.now sayings.entry)) }
{
    match sayings {
        Sayings::Nodes(nodes, attribute) => first_node(alloc, locals, nodes, attribute),
        Sayings::Items(items, attribute) => first_item(alloc, locals, items, attribute),
        Sayings::Words(words) => first_word(words),
        Sayings::Pairs(pairs) => first_pair(alloc, pairs),
        Sayings::Text(text) => Ok(Some(alone(Saying::Read(Text::of(alloc, text)?)))),
        Sayings::One(saying) => Ok(Some(alone(saying))),
        Sayings::Over => Ok(None),
    }
}

/// Whether it is clear that nothing more is said.
pub(crate) fn is_over(sayings: &Sayings<'_>) -> bool
    ensures { result ≡ true → (locals : Locals) → sayings_of locals sayings.now ≡ [] }
{
    match sayings {
        Sayings::Nodes(nodes, _) => nodes.is_empty(),
        Sayings::Items(items, _) => items.is_empty(),
        Sayings::Words(words) => words.is_empty(),
        Sayings::Pairs(pairs) => pairs.is_empty(),
        Sayings::Text(_) => false,
        Sayings::One(_) => false,
        Sayings::Over => true,
    }
}

/// The text that is all that is said, where it stands for itself.
pub(crate) fn literal_of<'a>(sayings: &Sayings<'a>) -> Option<&'a str>
    ensures { MatchOption result ⊤ (λ t. ((locals : Locals) → sayings_of locals sayings.now ≡ Saying.Read t.now ∷ [])
        × (is_literal t.now ≡ true) × (0 < length t.now)) }
{
    let Sayings::Text(text) = sayings else {
        return None;
    };
    if stands_for_itself(text) {
        Some(*text)
    } else {
        None
    }
}

/// A text that has something, and no `$`.
pub(crate) fn stands_for_itself(text: &str) -> bool
    ensures { result ≡ true → (is_literal text.now ≡ true) × (0 < length text.now) }
{
    !text.is_empty() && is_literal(text)
}

/// A text without a `$`.
pub(crate) fn is_literal(text: &str) -> bool
    ensures { result ≡ is_literal text.now }
{
    text.as_bytes().iter().all(|byte| *byte != b'$')
}

/// One thing, and nothing behind it.
fn alone<'a>(saying: Saying) -> First<'a>
    ensures saying { result.saying ≡ saying }
    ensures rest { (locals : Locals) → sayings_of locals result.rest ≡ [] }
{
    First {
        saying,
        rest: Sayings::Over,
    }
}

fn first_node<'a>(
    alloc: Global,
    locals: &Locals,
    nodes: &'a [Named],
    attribute: Option<Attribute>,
) -> Result<Option<First<'a>>, Memory>
    ensures { IfOk result (Begins locals.now (map (said_node locals.now attribute) nodes.now)) }
{
    match nodes.split_first() {
        Some((node, rest)) => Ok(Some(First {
            saying: said_node(alloc, locals, attribute, node)?,
            rest: Sayings::Nodes(rest, attribute),
        })),
        None => Ok(None),
    }
}

fn first_item<'a>(
    alloc: Global,
    locals: &Locals,
    items: &'a [Item],
    attribute: Option<Attribute>,
) -> Result<Option<First<'a>>, Memory>
    ensures { IfOk result (Begins locals.now (map (said_item locals.now attribute) items.now)) }
{
    match items.split_first() {
        Some((item, rest)) => Ok(Some(First {
            saying: said_item(alloc, locals, attribute, item)?,
            rest: Sayings::Items(rest, attribute),
        })),
        None => Ok(None),
    }
}

fn first_word<'a>(words: &'a [Text]) -> Result<Option<First<'a>>, Memory>
    ensures { (locals : Locals) → IfOk result (Begins locals (map (λ w. Saying.Read w) words.now)) }
{
    match words.split_first() {
        Some((word, rest)) => Ok(Some(First {
            saying: Saying::Read(word.copy()?),
            rest: Sayings::Words(rest),
        })),
        None => Ok(None),
    }
}

fn first_pair<'a>(alloc: Global, pairs: &'a [(Text, Item)]) -> Result<Option<First<'a>>, Memory>
    ensures { (locals : Locals) → IfOk result (Begins locals (map (λ p. Saying.Read (said_pair p.0 p.1)) pairs.now)) }
{
    match pairs.split_first() {
        Some((pair, rest)) => Ok(Some(First {
            saying: Saying::Read(said_pair(alloc, &pair.0, &pair.1)?),
            rest: Sayings::Pairs(rest),
        })),
        None => Ok(None),
    }
}

fn said_node(
    alloc: Global,
    locals: &Locals,
    attribute: Option<Attribute>,
    node: &Named,
) -> Result<Saying, Memory>
    ensures { IfOk result (λ s. s ≡ said_node locals.now attribute node.now) }
{
    match attribute {
        Some(attribute) => Ok(Saying::Plain(part_of(alloc, locals, attribute, node)?)),
        None => Ok(Saying::Path(node.path.copy()?)),
    }
}

fn said_item(
    alloc: Global,
    locals: &Locals,
    attribute: Option<Attribute>,
    item: &Item,
) -> Result<Saying, Memory>
    ensures { IfOk result (λ s. s ≡ said_item locals.now attribute item.now) }
{
    match item {
        Item::Text(text) => Ok(Saying::Read(text.copy()?)),
        Item::Int(number) => Ok(Saying::Plain(Text::new(format!(in alloc; "{number}")?))),
        Item::Node(path) => {
            let node = named_of(locals, path)?;
            said_node(alloc, locals, attribute, &node)
        }
        Item::Pair(name, None) => Ok(Saying::Read(name.copy()?)),
        Item::Pair(name, Some(value)) => Ok(Saying::Read(defined(alloc, name, value.as_str())?)),
    }
}

/// A name with a value.
fn defined(alloc: Global, name: &Text, value: &str) -> Result<Text, Memory>
    ensures { IfOk result (λ t. t ≡ defined name.now value.now) }
{
    let mut text = String::from_str(alloc, name.as_str())?;
    text.push('=')?;
    text.push_str(value)?;
    Ok(Text::new(text))
}

/// A name of a dict with its value.
fn said_pair(alloc: Global, name: &Text, item: &Item) -> Result<Text, Memory>
    ensures { IfOk result (λ t. t ≡ said_pair name.now item.now) }
{
    match item {
        Item::Text(text) => defined(alloc, name, text.as_str()),
        Item::Int(number) => {
            let decimals = format!(in alloc; "{number}")?;
            defined(alloc, name, decimals.as_str())
        }
        Item::Node(path) => defined(alloc, name, path.as_str()),
        Item::Pair(_, Some(value)) => defined(alloc, name, value.as_str()),
        Item::Pair(_, None) => name.copy(),
    }
}
