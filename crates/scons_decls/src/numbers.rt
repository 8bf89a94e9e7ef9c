//! The builders that scripts gave an environment.
ghost use Rattle.std.specs.Prelude.{◌≡◌, [], IfOk, OnOk, string_bytes};
ghost use Rattle.scons_decls.specs.Tables.{value_at, put};

use indexmap::IndexMap;
use scons_base::Memory;
use std::alloc::Global;
use std::marker::Model;

/// The numbers of builders by the names that call them, in the order in which they came.
#[derive(Drop)]
pub(crate) struct Numbers {
    numbers: IndexMap<String, u32>,
}

impl Model for Numbers {
    ghost use Rattle.std.specs.Prelude.{ℕ};
    ghost use Rattle.scons_decls.specs.Tables.{Table, rows_of};

    ghost Value = { Table ℕ };

    ghost view = { λ n. rows_of n.numbers.entries };
}

impl Numbers {
    pub(crate) fn new(alloc: Global) -> Numbers
        ensures { result ≡ [] }
    {
        Numbers {
            numbers: IndexMap::new(alloc),
        }
    }

    pub(crate) fn get(&self, name: &str) -> Option<u32>
        ensures { result ≡ value_at self.now name.now }
    {
        self.numbers.get(name).copied()
    }

    pub(crate) fn put(&mut self, name: String, number: u32) -> Result<(), Memory>
        ensures { OnOk result (self.new ≡ put self.old (string_bytes name) number) }
    {
        self.numbers.insert(name, number)?;
        Ok(())
    }

    pub(crate) fn copy(&self, alloc: Global) -> Result<Numbers, Memory>
        ensures { IfOk result (λ n. n ≡ self.now) }
    {
        let mut copy = Numbers::new(alloc);
        copy.put_all(alloc, self)?;
        Ok(copy)
    }

    /// Puts the numbers of another list, one after another.
    fn put_all(&mut self, alloc: Global, other: &Numbers) -> Result<(), Memory>
        requires { self.old ≡ [] }
        ensures { OnOk result (self.new ≡ other.now) }
    {
        'places: for place in 0..other.numbers.len() {
            if let Some((name, number)) = other.numbers.get_index(place) {
                self.put(String::from_str(alloc, name.as_str())?, *number)?;
            }
        }
        Ok(())
    }
}
