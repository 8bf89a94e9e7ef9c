//! The heap of a reading, and what it is asked.
ghost use Rattle.std.specs.Prelude.{◌≡◌};
ghost use Rattle.std.specs.Option.{option_map};
ghost use Rattle.py_heap.specs.Heap.{no_objects, text_at, list_at, tuple_at, dict_at, text_of, items_of, pair_of, truth_of, shown_of};
ghost use Rattle.py_heap.specs.Dicts.{entry_at};
ghost use Rattle.std.specs.Prelude.{length, slice_get};

use crate::dict::{Dict, Entry};
use crate::ids::{DictId, HostId, ListId, TextId, TupleId};
use crate::key::Key;
use crate::value::Value;
use crate::values::Values;
use indexmap::IndexMap;
use scons_base::Text;
use std::alloc::Global;
use std::marker::Model;

/// The texts, lists, tuples and dicts of a reading, and the texts by which its objects show.
#[derive(Drop)]
pub struct Heap {
    pub(crate) texts: Vec<Text>,
    pub(crate) lists: Vec<Values>,
    pub(crate) tuples: Vec<Values>,
    pub(crate) dicts: Vec<Dict>,
    pub(crate) shown: IndexMap<u32, Text>,
    pub(crate) alloc: Global,
}

impl Model for Heap {
    ghost use Rattle.py_heap.specs.Heap.{Objects};

    ghost Value = { Objects };

    ghost view = { λ h. record { texts = h.texts.items; lists = h.lists.items; tuples = h.tuples.items; dicts = h.dicts.items; shown = h.shown.entries } };
}

impl Heap {
    pub fn new(alloc: Global) -> Heap
        ensures { result ≡ no_objects }
    {
        Heap {
            texts: Vec::new(alloc),
            lists: Vec::new(alloc),
            tuples: Vec::new(alloc),
            dicts: Vec::new(alloc),
            shown: IndexMap::new(alloc),
            alloc,
        }
    }

    /// What the heap allocates with.
    pub fn allocator(&self) -> Global {
        self.alloc
    }

    pub fn text_at(&self, id: TextId) -> &str
        ensures { result.now ≡ text_at self.now id.0 }
    {
        match self.texts.get(id.0 as usize) {
            Some(text) => text.as_str(),
            None => "",
        }
    }

    pub fn list_at(&self, id: ListId) -> &[Value]
        ensures { result.now ≡ list_at self.now id.0 }
    {
        match self.lists.get(id.0 as usize) {
            Some(items) => items.as_slice(),
            None => &[],
        }
    }

    pub fn tuple_at(&self, id: TupleId) -> &[Value]
        ensures { result.now ≡ tuple_at self.now id.0 }
    {
        match self.tuples.get(id.0 as usize) {
            Some(items) => items.as_slice(),
            None => &[],
        }
    }

    pub fn dict_len(&self, id: DictId) -> usize
        ensures { result ≡ length (dict_at self.now id.0) }
    {
        match self.dicts.get(id.0 as usize) {
            Some(dict) => dict.len(),
            None => 0,
        }
    }

    /// What stands under a key of a dict.
    pub fn entry_at(&self, id: DictId, key: &Key) -> Option<Entry>
        ensures { result ≡ entry_at (dict_at self.now id.0) key.now }
    {
        match self.dicts.get(id.0 as usize) {
            Some(dict) => dict.get(key),
            None => None,
        }
    }

    /// The entry at a place of a dict.
    pub fn place_at(&self, id: DictId, place: usize) -> Option<(&Key, Entry)>
        ensures { option_map (λ e. (e.0.now, e.1)) result ≡ slice_get (dict_at self.now id.0) place }
    {
        match self.dicts.get(id.0 as usize) {
            Some(dict) => dict.at(place),
            None => None,
        }
    }

    /// The text that a value is.
    pub fn text_of(&self, value: Value) -> Option<&str>
        ensures { option_map (λ t. t.now) result ≡ text_of self.now value }
    {
        match value {
            Value::Text(id) => Some(self.text_at(id)),
            _ => None,
        }
    }

    /// The items of a list or tuple.
    pub fn items_of(&self, value: Value) -> Option<&[Value]>
        ensures { option_map (λ t. t.now) result ≡ items_of self.now value }
    {
        match value {
            Value::List(id) => Some(self.list_at(id)),
            Value::Tuple(id) => Some(self.tuple_at(id)),
            _ => None,
        }
    }

    /// The pair at a place of a dict.
    pub fn pair_of(&self, value: Value, place: u64) -> Option<(Value, Value)>
        ensures { result ≡ pair_of self.now value place }
    {
        match value {
            Value::Dict(id) => {
                let (_, entry) = self.place_at(id, place as usize)?;
                Some((entry.key, entry.item))
            }
            _ => None,
        }
    }

    /// The text by which an object shows, if one was given.
    pub fn shown_of(&self, id: HostId) -> Option<&str>
        ensures { option_map (λ t. t.now) result ≡ shown_of self.now id.0 }
    {
        Some(self.shown.get(&id.0)?.as_str())
    }
}

/// Whether a value counts as true.
pub fn truth(heap: &Heap, value: Value) -> bool
    ensures { result ≡ truth_of heap.now value }
{
    match value {
        Value::Nil => false,
        Value::Bool(flag) => flag,
        Value::Int(number) => number != 0,
        Value::Text(id) => !heap.text_at(id).is_empty(),
        Value::List(id) => !heap.list_at(id).is_empty(),
        Value::Tuple(id) => !heap.tuple_at(id).is_empty(),
        Value::Dict(id) => heap.dict_len(id) != 0,
        Value::Func(_) | Value::Builtin(_) | Value::Object(_) => true,
    }
}
