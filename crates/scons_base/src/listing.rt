//! The one list type of public structs: contracts see it as the plain list of its items.
ghost use Rattle.std.specs.Prelude.{◌≡◌, ◌==◌, ◌++◌, ◌∷◌, [], OnOk, OnErr, length};

use crate::memory::Memory;
use std::alloc::Global;
use std::marker::Model;

/// A list of items, for the fields of public structs.
#[derive(Debug, Drop)]
pub struct Listing<T> {
    items: Vec<T>,
}

impl<T> Model for Listing<T> {
    ghost use Rattle.std.specs.Prelude.{List};

    ghost Value = { List T };

    ghost view = { λ l. l.items.items };
}

impl<T> Listing<T> {
    pub fn new(items: Vec<T>) -> Listing<T>
        ensures { result ≡ items.items }
    {
        Listing { items }
    }

    /// The empty list, which holds no memory yet.
    pub fn empty(alloc: Global) -> Listing<T>
        ensures { result ≡ [] }
    {
        Listing {
            items: Vec::new(alloc),
        }
    }

    pub fn len(&self) -> usize
        ensures { result ≡ length self.now }
    {
        self.items.len()
    }

    pub fn is_empty(&self) -> bool
        ensures { result ≡ (length self.now == 0) }
    {
        self.items.len() == 0
    }

    pub fn as_slice(&self) -> &[T]
        ensures { result.now ≡ self.now }
    {
        self.items.as_slice()
    }

    pub fn into_vec(self) -> Vec<T>
        ensures { result.items ≡ self }
    {
        let Listing { items } = self;
        items
    }

    pub fn push(&mut self, item: T) -> Result<(), Memory>
    where
        T: Drop,
        ensures ok { OnOk result (self.new ≡ self.old ++ item ∷ []) }
        ensures err { OnErr result (self.new ≡ self.old) }
    {
        self.items.push(item)?;
        Ok(())
    }
}
