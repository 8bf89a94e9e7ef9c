//! The targets of one directory.
ghost use Rattle.std.specs.Prelude.{◌≡◌, [], OnOk};
ghost use Rattle.std.specs.List.{list_any};
ghost use Rattle.std.specs.Str.{bytes_eq};
ghost use Rattle.indexmap.specs.IndexSet.{insert_key};

use indexmap::IndexSet;
use scons_base::{Memory, PathText};
use std::alloc::Global;
use std::marker::Model;

/// Targets in the order in which they were declared, each once.
#[derive(Drop)]
pub(crate) struct Targets {
    paths: IndexSet<PathText>,
}

impl Model for Targets {
    ghost use Rattle.std.specs.Prelude.{List, ℕ};

    ghost Value = { List (List ℕ) };

    ghost view = { λ t. t.paths.keys };
}

impl Targets {
    pub(crate) fn new(alloc: Global) -> Targets
        ensures { result ≡ [] }
    {
        Targets {
            paths: IndexSet::new(alloc),
        }
    }

    pub(crate) fn as_slice(&self) -> &[PathText]
        ensures { result.now ≡ self.now }
    {
        self.paths.as_slice()
    }

    pub(crate) fn contains(&self, path: &PathText) -> bool
        ensures { result ≡ list_any (bytes_eq path.now) self.now }
    {
        self.paths.contains(path)
    }

    pub(crate) fn add(&mut self, path: PathText) -> Result<(), Memory>
        ensures { OnOk result (self.new ≡ insert_key bytes_eq self.old path) }
    {
        self.paths.insert(path)?;
        Ok(())
    }
}
