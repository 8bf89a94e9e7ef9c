//! Dicts: entries in order of insertion, found by their keys.
ghost use Rattle.std.specs.Prelude.{◌≡◌, ◌≤◌, ◌<◌, ◌+◌, ◌==◌, [], length, slice_get, OnOk, OnErr, IfOk, option_copied};
ghost use Rattle.std.specs.Option.{option_map};
ghost use Rattle.indexmap.specs.IndexMap.{insert_entry, spare};
ghost use Rattle.py_heap.specs.Keys.{key_eq};
ghost use Rattle.py_heap.specs.Dicts.{entry_at, put, put_all};

use crate::key::Key;
use crate::value::Value;
use indexmap::IndexMap;
use scons_base::Memory;
use std::alloc::Global;
use std::marker::Model;

/// What stands under a key: the value that was given as the key first, and the item.
#[derive(Clone, Copy, Debug)]
pub struct Entry {
    pub key: Value,
    pub item: Value,
}

/// A dict. A look-up is one by hash.
#[derive(Drop)]
pub struct Dict {
    map: IndexMap<Key, Entry>,
}

impl Model for Dict {
    ghost use Rattle.py_heap.specs.Heap.{Entries};

    ghost Value = { Entries };

    ghost view = { λ d. d.map.entries };
}

impl Dict {
    pub fn new(alloc: Global) -> Dict
        ensures { result ≡ [] }
    {
        Dict {
            map: IndexMap::new(alloc),
        }
    }

    pub fn len(&self) -> usize
        ensures { result ≡ length self.now }
    {
        self.map.len()
    }

    pub fn is_empty(&self) -> bool
        ensures { result ≡ (length self.now == 0) }
    {
        self.len() == 0
    }

    /// What stands under a key.
    pub fn get(&self, key: &Key) -> Option<Entry>
        ensures { result ≡ entry_at self.now key.now }
    {
        self.map.get(key).copied()
    }

    /// The entry at a place in the order of insertion.
    pub fn at(&self, place: usize) -> Option<(&Key, Entry)>
        ensures { option_map (λ e. (e.0.now, e.1)) result ≡ slice_get self.now place }
    {
        let (key, entry) = self.map.get_index(place)?;
        Some((key, *entry))
    }

    /// Puts an item under a key, which was given as a value.
    pub fn put(&mut self, key: Key, given: Value, item: Value) -> Result<(), Memory>
        ensures ok { OnOk result (self.new ≡ put self.old key given item) }
        ensures err { OnErr result (self.new ≡ self.old) }
    {
        let given = match self.get(&key) {
            Some(entry) => entry.key,
            None => given,
        };
        self.map.insert(key, Entry { key: given, item })?;
        Ok(())
    }

    pub fn copy(&self, alloc: Global) -> Result<Dict, Memory>
        ensures { IfOk result (λ d. d ≡ self.now) }
    {
        let mut copy = Dict::new(alloc);
        'places: for place in 0..self.map.len() {
            if let Some((key, entry)) = self.at(place) {
                copy.add(key.copy()?, entry)?;
            }
        }
        Ok(copy)
    }

    /// Takes an entry over as it is.
    fn add(&mut self, key: Key, entry: Entry) -> Result<(), Memory>
        ensures ok { OnOk result (self.new ≡ insert_entry key_eq self.old key entry) }
        ensures err { OnErr result (self.new ≡ self.old) }
    {
        self.map.insert(key, entry)?;
        Ok(())
    }

    /// The entries, with keys of their own.
    #[tactic(auto, using(crate::proofs::Turns::turns))]
    pub fn entries(&self, alloc: Global) -> Result<Vec<(Key, Entry)>, Memory>
        ensures { IfOk result (λ entries. entries.items ≡ self.now) }
    {
        let mut entries = Vec::new(alloc);
        'places: for place in 0..self.len() {
            if let Some((key, entry)) = self.at(place) {
                entries.push((key.copy()?, entry))?;
            }
        }
        Ok(entries)
    }

    /// Puts the items of other entries under their keys, one after another: all of them or, for want of memory, none.
    pub fn put_all(&mut self, more: Vec<(Key, Entry)>) -> Result<(), Memory>
        ensures ok { OnOk result (self.new ≡ put_all self.old more.items) }
        ensures err { OnErr result (self.new ≡ self.old) }
    {
        self.map.reserve(more.len())?;
        put_within(&mut self.map, more);
        Ok(())
    }
}

/// Puts items under their keys, for which there is room.
fn put_within(map: &mut IndexMap<Key, Entry>, more: Vec<(Key, Entry)>)
    requires { length more.items ≤ spare map.old }
    ensures { map.new.entries ≡ put_all map.old.entries more.items }
{
    'entries: for (key, entry) in more {
        put_one(map, key, entry);
    }
}

/// Puts an item under its key, for which there is room: so it isn't refused.
fn put_one(map: &mut IndexMap<Key, Entry>, key: Key, entry: Entry)
    requires { 0 < spare map.old }
    ensures put { map.new.entries ≡ put map.old.entries key entry.key entry.item }
    ensures room { spare map.old ≤ spare map.new + 1 }
{
    let given = match map.get(&key) {
        Some(there) => there.key,
        None => entry.key,
    };
    let item = entry.item;
    let _put = map.insert(key, Entry { key: given, item });
}
