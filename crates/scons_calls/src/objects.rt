//! The objects of scripts, by their numbers. A thing has one object, which is found by hash.
ghost use Rattle.std.specs.Prelude.{◌≡◌, ℕ, List, [], IfOk, IsSome, OnOk, slice_get, option_copied};
ghost use Rattle.std.specs.Option.{option_map};
ghost use Rattle.scons_calls.specs.Names.{name_alone};
ghost use Rattle.scons_calls.specs.Things.{node_at, numbered, numbered_node, number_named, number_of_name, with_first_names, with_names};

use crate::name::NameId;
use crate::thing::Thing;
use indexmap::IndexSet;
use py_heap::HostId;
use scons_base::{Memory, PathText};
use std::alloc::Global;
use std::marker::Model;

/// What the objects stand for, seen as a list: the number of an object is the place of its thing.
#[derive(Drop)]
pub struct Objects {
    things: IndexSet<Thing>,
    alloc: Global,
}

impl Model for Objects {
    ghost use Rattle.std.specs.Prelude.{◌≤◌, ◌^◌, length};
    ghost use Rattle.scons_calls.specs.Things.{Things};

    ghost Value = { Things };

    ghost view = { λ o. o.things.keys };

    ghost invariant = { λ o. length o.things.keys ≤ 2 ^ 32 };
}

impl Objects {
    pub fn new(alloc: Global) -> Objects
        ensures { result ≡ [] }
    {
        Objects {
            things: IndexSet::new(alloc),
            alloc,
        }
    }

    pub fn allocator(&self) -> Global {
        self.alloc
    }

    /// What an object stands for.
    pub fn thing(&self, id: HostId) -> Option<&Thing>
        ensures { option_copied result ≡ slice_get self.now id.0 }
    {
        self.things.get_index(id.0 as usize)
    }

    /// The object of a thing, a new one where it has none yet.
    pub fn object(&mut self, thing: Thing) -> Result<HostId, Memory>
        ensures { IfOk result (λ id. numbered self.old thing ≡ (id.0, self.new)) }
    {
        if self.things.len() > u32::MAX as usize {
            return Err(Memory);
        }
        let (place, _) = self.things.insert_full(thing)?;
        Ok(HostId(place as u32))
    }

    /// The object of a path: the directory's where one has been given out, else the file's.
    #[tactic(auto, using(crate::proofs::Numbering::numbering))]
    pub fn node(&mut self, path: &PathText) -> Result<HostId, Memory>
        ensures { IfOk result (λ id. numbered_node self.old path.now ≡ (id.0, self.new)) }
    {
        let thing = self.node_at(path)?;
        self.object(thing)
    }

    /// What a path is.
    fn node_at(&self, path: &PathText) -> Result<Thing, Memory>
        ensures { IfOk result (λ thing. thing ≡ node_at self.now path.now) }
    {
        let dir = Thing::Dir(path.copy()?);
        if self.things.contains(&dir) {
            return Ok(dir);
        }
        Ok(Thing::File(path.copy()?))
    }

    /// The object of a name that scripts use, if it is one of SCons.
    pub fn name(&self, name: &str) -> Option<HostId>
        ensures { option_map (λ id. id.0) result ≡ number_named self.now name.now }
    {
        let id = NameId::of_scripts(name)?;
        self.object_of_name(id)
    }

    /// The object of a name, if it has been given one.
    fn object_of_name(&self, id: NameId) -> Option<HostId>
        ensures { option_map (λ id. id.0) result ≡ number_of_name self.now id.0 }
    {
        let place = self.things.get_index_of(&Thing::Name(id))?;
        Some(HostId(place as u32))
    }

    /// Gives each name of SCons its object.
    pub fn add_names(&mut self) -> Result<(), Memory>
        ensures names { OnOk result (self.new ≡ with_names self.old) }
        // So each name of scripts has its object.
        ensures objects { OnOk result ((text : List ℕ) → IsSome (name_alone text) → IsSome (number_named self.new text)) }
    {
        self.add_first_names(NameId::count())
    }

    #[tactic(auto, using(crate::proofs::Numbering::numbering))]
    fn add_first_names(&mut self, count: usize) -> Result<(), Memory>
        ensures { OnOk result (self.new ≡ with_first_names count self.old) }
    {
        for place in 0..count {
            self.object(Thing::Name(NameId(place)))?;
        }
        Ok(())
    }
}
