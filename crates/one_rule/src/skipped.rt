//! The rules that were not started.
ghost use Rattle.std.specs.Prelude.{◌≡◌};

use scons_base::PathText;
use std::marker::Model;

/// The rules that weren't started, each by its first target, with the first target of the one below it that failed or
/// lacks a source.
#[derive(Debug, Drop)]
pub struct Skipped {
    items: Vec<(PathText, PathText)>,
}

impl Model for Skipped {
    ghost use Rattle.std.specs.Prelude.{List, ℕ};

    ghost Value = { List (List ℕ × List ℕ) };

    ghost view = { λ s. s.items.items };
}

impl Skipped {
    pub fn new(items: Vec<(PathText, PathText)>) -> Skipped
        ensures { result ≡ items.items }
    {
        Skipped { items }
    }

    pub fn as_slice(&self) -> &[(PathText, PathText)]
        ensures { result.now ≡ self.now }
    {
        self.items.as_slice()
    }

    pub fn into_vec(self) -> Vec<(PathText, PathText)>
        ensures { result.items ≡ self }
    {
        let Skipped { items } = self;
        items
    }
}
