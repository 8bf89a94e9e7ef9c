//! Values of construction variables, and copies of them.
ghost use Rattle.std.specs.Prelude.{◌≡◌, ◌++◌, IfOk, OnOk};

use scons_base::{Listing, Memory, PathText, Text, Texts};
use std::alloc::Global;

/// One item of a list.
#[derive(Drop)]
pub enum Item {
    Text(Text),
    Int(i64),
    Node(PathText),
    /// A name with its value, or without one.
    Pair(Text, Option<Text>),
}

impl Item {
    pub fn copy(&self) -> Result<Item, Memory>
        ensures { IfOk result (λ i. i ≡ self.now) }
    {
        Ok(match self {
            Item::Text(text) => Item::Text(text.copy()?),
            Item::Int(number) => Item::Int(*number),
            Item::Node(path) => Item::Node(path.copy()?),
            Item::Pair(name, None) => Item::Pair(name.copy()?, None),
            Item::Pair(name, Some(value)) => Item::Pair(name.copy()?, Some(value.copy()?)),
        })
    }
}

/// The value of a construction variable.
#[derive(Drop)]
pub enum EnvValue {
    Nil,
    Bool(bool),
    Int(i64),
    Text(Text),
    /// A word list.
    Words(Texts),
    List(Listing<Item>),
    /// A dict.
    Pairs(Listing<(Text, Item)>),
}

impl EnvValue {
    pub fn copy(&self, alloc: Global) -> Result<EnvValue, Memory>
        ensures { IfOk result (λ v. v ≡ self.now) }
    {
        Ok(match self {
            EnvValue::Nil => EnvValue::Nil,
            EnvValue::Bool(flag) => EnvValue::Bool(*flag),
            EnvValue::Int(number) => EnvValue::Int(*number),
            EnvValue::Text(text) => EnvValue::Text(text.copy()?),
            EnvValue::Words(words) => EnvValue::Words(words.copy()?),
            EnvValue::List(items) => EnvValue::List(copied(alloc, items.as_slice())?),
            EnvValue::Pairs(pairs) => EnvValue::Pairs(copied_pairs(alloc, pairs.as_slice())?),
        })
    }
}

fn copied(alloc: Global, items: &[Item]) -> Result<Listing<Item>, Memory>
    ensures { IfOk result (λ l. l ≡ items.now) }
{
    let mut copies = Vec::with_capacity(alloc, items.len())?;
    push_copies(&mut copies, items)?;
    Ok(Listing::new(copies))
}

fn copied_pairs(alloc: Global, pairs: &[(Text, Item)]) -> Result<Listing<(Text, Item)>, Memory>
    ensures { IfOk result (λ l. l ≡ pairs.now) }
{
    let mut copies = Vec::with_capacity(alloc, pairs.len())?;
    push_pairs(&mut copies, pairs)?;
    Ok(Listing::new(copies))
}

pub(crate) fn push_copies(items: &mut Vec<Item>, more: &[Item]) -> Result<(), Memory>
    ensures { OnOk result (items.new.items ≡ items.old.items ++ more.now) }
{
    for item in more {
        items.push(item.copy()?)?;
    }
    Ok(())
}

/// Puts copies of pairs behind others.
pub(crate) fn push_pairs(pairs: &mut Vec<(Text, Item)>, more: &[(Text, Item)]) -> Result<(), Memory>
    ensures { OnOk result (pairs.new.items ≡ pairs.old.items ++ more.now) }
{
    for (name, item) in more {
        pairs.push((name.copy()?, item.copy()?))?;
    }
    Ok(())
}
