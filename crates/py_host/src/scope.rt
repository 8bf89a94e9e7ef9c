//! Names and their values.
ghost use Rattle.std.specs.Prelude.{◌≡◌, [], length, slice_get, OnOk, OnErr};
ghost use Rattle.std.specs.Option.{option_map};
ghost use Rattle.py_host.specs.Names.{value_of, with_name, with_names};

use indexmap::IndexMap;
use py_heap::Value;
use scons_base::{Memory, Text};
use std::alloc::Global;
use std::marker::Model;

/// Names and their values. A look-up is one by hash.
#[derive(Drop)]
pub struct Scope {
    names: IndexMap<String, Value>,
}

impl Model for Scope {
    ghost use Rattle.py_host.specs.Names.{Names, names_in};

    ghost Value = { Names };

    ghost view = { λ s. names_in s.names.entries };
}

impl Scope {
    pub fn new(alloc: Global) -> Scope
        ensures { result ≡ [] }
    {
        Scope {
            names: IndexMap::new(alloc),
        }
    }

    pub fn len(&self) -> usize
        ensures { result ≡ length self.now }
    {
        self.names.len()
    }

    /// The value of a name.
    pub fn get(&self, name: &str) -> Option<Value>
        ensures { result ≡ value_of self.now name.now }
    {
        self.names.get(name).copied()
    }

    /// The name at a place in the order of first setting, and its value.
    pub fn at(&self, place: usize) -> Option<(&str, Value)>
        ensures { option_map (λ e. (e.0.now, e.1)) result ≡ slice_get self.now place }
    {
        let (name, value) = self.names.get_index(place)?;
        Some((name.as_str(), *value))
    }

    pub fn set(&mut self, name: Text, value: Value) -> Result<(), Memory>
        ensures ok { OnOk result (self.new ≡ with_name self.old name value) }
        ensures err { OnErr result (self.new ≡ self.old) }
    {
        self.names.insert(name.into_string(), value)?;
        Ok(())
    }

    /// Sets further names, one after another.
    pub fn set_all(&mut self, alloc: Global, more: &Scope) -> Result<(), Memory>
        ensures { OnOk result (self.new ≡ with_names self.old more.now) }
    {
        'places: for place in 0..more.len() {
            if let Some((name, value)) = more.at(place) {
                self.set(Text::of(alloc, name)?, value)?;
            }
        }
        Ok(())
    }
}
