//! A list of paths.
ghost use Rattle.std.specs.Prelude.{◌≡◌, List, ℕ, ◌++◌, ◌∷◌, [], IfOk, OnOk, OnErr, IsTrue, ◌↔◌, Contains};

use crate::memory::Memory;
use crate::path::PathText;
use std::marker::Model;

/// A list of paths.
#[derive(Debug, Drop)]
pub struct Paths {
    items: Vec<PathText>,
}

impl Model for Paths {
    ghost Value = { List (List ℕ) };

    ghost view = { λ p. p.items.items };
}

impl Paths {
    pub fn new(items: Vec<PathText>) -> Paths
        ensures { result ≡ items.items }
    {
        Paths { items }
    }

    pub fn as_slice(&self) -> &[PathText]
        ensures { result.now ≡ self.now }
    {
        self.items.as_slice()
    }

    pub fn into_vec(self) -> Vec<PathText>
        ensures { result.items ≡ self }
    {
        let Paths { items } = self;
        items
    }

    pub fn push(&mut self, path: PathText) -> Result<(), Memory>
        ensures ok { OnOk result (self.new ≡ self.old ++ path ∷ []) }
        ensures err { OnErr result (self.new ≡ self.old) }
    {
        self.items.push(path)?;
        Ok(())
    }

    pub fn contains(&self, path: &PathText) -> bool
        ensures { IsTrue result ↔ Contains self.now path.now }
    {
        self.items.contains(path)
    }

    pub fn copy(&self) -> Result<Paths, Memory>
        ensures { IfOk result (λ p. p ≡ self.now) }
    {
        let mut items = Vec::with_capacity(*self.items.allocator(), self.items.len())?;
        for path in &self.items {
            items.push(path.copy()?)?;
        }
        Ok(Paths { items })
    }
}
