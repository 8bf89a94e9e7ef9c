//! A list of texts.
ghost use Rattle.std.specs.Prelude.{◌≡◌, List, ℕ, ◌++◌, ◌∷◌, [], IfOk, OnOk, OnErr, IsTrue, ◌↔◌};

use crate::memory::Memory;
use crate::text::Text;
use std::marker::Model;

/// A list of texts.
#[derive(Debug, Drop)]
pub struct Texts {
    items: Vec<Text>,
}

impl Model for Texts {
    ghost Value = { List (List ℕ) };

    ghost view = { λ t. t.items.items };
}

impl Texts {
    pub fn new(items: Vec<Text>) -> Texts
        ensures { result ≡ items.items }
    {
        Texts { items }
    }

    pub fn as_slice(&self) -> &[Text]
        ensures { result.now ≡ self.now }
    {
        self.items.as_slice()
    }

    pub fn into_vec(self) -> Vec<Text>
        ensures { result.items ≡ self }
    {
        let Texts { items } = self;
        items
    }

    pub fn push(&mut self, text: Text) -> Result<(), Memory>
        ensures ok { OnOk result (self.new ≡ self.old ++ text ∷ []) }
        ensures err { OnErr result (self.new ≡ self.old) }
    {
        self.items.push(text)?;
        Ok(())
    }

    pub fn copy(&self) -> Result<Texts, Memory>
        ensures { IfOk result (λ t. t ≡ self.now) }
    {
        let mut items = Vec::with_capacity(*self.items.allocator(), self.items.len())?;
        for text in &self.items {
            items.push(text.copy()?)?;
        }
        Ok(Texts { items })
    }
}
