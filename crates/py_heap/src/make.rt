//! New things of a heap, and changes of its lists and dicts.
ghost use Rattle.std.specs.Prelude.{◌≡◌, ◌≢◌, ◌≤◌, ◌<◌, ◌∷◌, ◌++◌, [], length, Ok, Err, IfOk, IfErr, OnOk, OnErr, slice_set, insert, remove, reverse};
ghost use Rattle.py_heap.specs.declared.value.Value.TheVariants as value;
ghost use Rattle.py_heap.specs.Heap.{list_at, dict_at, with_text, with_list, with_tuple, with_dict, with_list_at, with_dict_at, with_shown};
ghost use Rattle.py_heap.specs.Dicts.{put, put_all};

use crate::dict::{Dict, Entry};
use crate::heap::Heap;
use crate::ids::{DictId, HostId, ListId, TextId, TupleId};
use crate::key::Key;
use crate::value::Value;
use crate::values::Values;
use scons_base::{Memory, Text};

impl Heap {
    pub fn add_text(&mut self, text: Text) -> Result<Value, Memory>
        ensures ok { IfOk result (λ v. (v ≡ value.Text (record { 0 = length self.old.texts })) × (self.new ≡ with_text self.old text)) }
        ensures err { OnErr result (self.new ≡ self.old) }
    {
        let id = TextId(self.texts.len() as u64);
        self.texts.push(text)?;
        Ok(Value::Text(id))
    }

    pub fn add_list(&mut self, items: Values) -> Result<Value, Memory>
        ensures ok { IfOk result (λ v. (v ≡ value.List (record { 0 = length self.old.lists })) × (self.new ≡ with_list self.old items)) }
        ensures err { OnErr result (self.new ≡ self.old) }
    {
        let id = ListId(self.lists.len() as u64);
        self.lists.push(items)?;
        Ok(Value::List(id))
    }

    pub fn add_tuple(&mut self, items: Values) -> Result<Value, Memory>
        ensures ok { IfOk result (λ v. (v ≡ value.Tuple (record { 0 = length self.old.tuples })) × (self.new ≡ with_tuple self.old items)) }
        ensures err { OnErr result (self.new ≡ self.old) }
    {
        let id = TupleId(self.tuples.len() as u64);
        self.tuples.push(items)?;
        Ok(Value::Tuple(id))
    }

    pub fn add_dict(&mut self, dict: Dict) -> Result<Value, Memory>
        ensures ok { IfOk result (λ v. (v ≡ value.Dict (record { 0 = length self.old.dicts })) × (self.new ≡ with_dict self.old dict)) }
        ensures err { OnErr result (self.new ≡ self.old) }
    {
        let id = DictId(self.dicts.len() as u64);
        self.dicts.push(dict)?;
        Ok(Value::Dict(id))
    }

    /// Takes another list in the place of one.
    pub fn replace_list(&mut self, id: ListId, items: Values)
        ensures { self.new ≡ with_list_at self.old id.0 items }
    {
        let place = id.0 as usize;
        if place < self.lists.len() {
            self.lists[place] = items;
        }
    }

    /// Appends a value to a list.
    pub fn push_item(&mut self, id: ListId, item: Value) -> Result<(), Memory>
        ensures ok { OnOk result (self.new ≡ with_list_at self.old id.0 (list_at self.old id.0 ++ item ∷ [])) }
        ensures err { OnErr result (self.new ≡ self.old) }
    {
        let place = id.0 as usize;
        if place < self.lists.len() {
            let items = &mut self.lists[place];
            items.push(item)?;
        }
        Ok(())
    }

    /// Sets the value at a place of a list.
    pub fn set_item(&mut self, id: ListId, at: usize, item: Value)
        ensures { self.new ≡ with_list_at self.old id.0 (slice_set (list_at self.old id.0) at item) }
    {
        let place = id.0 as usize;
        if place < self.lists.len() {
            let items = &mut self.lists[place];
            items.set(at, item);
        }
    }

    /// Appends values to a list.
    pub fn extend_list(&mut self, id: ListId, items: &[Value]) -> Result<(), Memory>
        ensures ok { OnOk result (self.new ≡ with_list_at self.old id.0 (list_at self.old id.0 ++ items.now)) }
        ensures err { OnErr result (self.new ≡ self.old) }
    {
        let place = id.0 as usize;
        if place < self.lists.len() {
            let list = &mut self.lists[place];
            list.extend(items)?;
        }
        Ok(())
    }

    /// Puts a value into a list, in front of the one at a place.
    pub fn insert_item(&mut self, id: ListId, at: usize, item: Value) -> Result<(), Memory>
        requires { at ≤ length (list_at self.old id.0) }
        ensures ok { OnOk result (self.new ≡ with_list_at self.old id.0 (insert (list_at self.old id.0) at item)) }
        ensures err { OnErr result (self.new ≡ self.old) }
    {
        let place = id.0 as usize;
        if place < self.lists.len() {
            let items = &mut self.lists[place];
            items.insert(at, item)?;
        }
        Ok(())
    }

    /// Takes the value at a place out of a list.
    pub fn remove_item(&mut self, id: ListId, at: usize)
        requires { at < length (list_at self.old id.0) }
        ensures { self.new ≡ with_list_at self.old id.0 (remove (list_at self.old id.0) at) }
    {
        let place = id.0 as usize;
        if place < self.lists.len() {
            let items = &mut self.lists[place];
            items.remove(at);
        }
    }

    pub fn reverse_list(&mut self, id: ListId)
        ensures { self.new ≡ with_list_at self.old id.0 (reverse (list_at self.old id.0)) }
    {
        let place = id.0 as usize;
        if place < self.lists.len() {
            let items = &mut self.lists[place];
            items.reverse();
        }
    }

    /// Puts an item under a key of a dict.
    pub fn put_item(
        &mut self,
        id: DictId,
        key: Key,
        given: Value,
        item: Value,
    ) -> Result<(), Memory>
        ensures ok { OnOk result (self.new ≡ with_dict_at self.old id.0 (put (dict_at self.old id.0) key given item)) }
        ensures err { OnErr result (self.new ≡ self.old) }
    {
        let place = id.0 as usize;
        if place < self.dicts.len() {
            let dict = &mut self.dicts[place];
            dict.put(key, given, item)?;
        }
        Ok(())
    }

    /// A copy of a dict.
    pub fn copy_of_dict(&self, id: DictId) -> Result<Dict, Memory>
        ensures { IfOk result (λ d. d ≡ dict_at self.now id.0) }
    {
        match self.dicts.get(id.0 as usize) {
            Some(dict) => dict.copy(self.alloc),
            None => Ok(Dict::new(self.alloc)),
        }
    }

    /// The entries of a dict, with keys of their own.
    fn entries_of(&self, id: DictId) -> Result<Vec<(Key, Entry)>, Memory>
        ensures { IfOk result (λ entries. entries.items ≡ dict_at self.now id.0) }
    {
        match self.dicts.get(id.0 as usize) {
            Some(dict) => dict.entries(self.alloc),
            None => Ok(Vec::new(self.alloc)),
        }
    }

    /// A copy of a dict in which the items of another one are put.
    pub fn merged_dict(&self, id: DictId, other: DictId) -> Result<Dict, Memory>
        ensures { IfOk result (λ d. d ≡ put_all (dict_at self.now id.0) (dict_at self.now other.0)) }
    {
        let mut merged = self.copy_of_dict(id)?;
        merged.put_all(self.entries_of(other)?)?;
        Ok(merged)
    }

    /// Puts the items of another dict under the keys of one: all of them or, for want of memory, none. It takes as long as the
    /// other one is.
    pub fn put_all(&mut self, id: DictId, other: DictId) -> Result<(), Memory>
        ensures ok { OnOk result (self.new ≡ with_dict_at self.old id.0 (put_all (dict_at self.old id.0) (dict_at self.old other.0))) }
        ensures err { OnErr result (self.new ≡ self.old) }
    {
        let more = self.entries_of(other)?;
        let place = id.0 as usize;
        if place < self.dicts.len() {
            let dict = &mut self.dicts[place];
            dict.put_all(more)?;
        }
        Ok(())
    }

    /// Keeps the text by which an object shows.
    pub fn keep_shown(&mut self, id: HostId, text: Text) -> Result<(), Memory>
        ensures ok { OnOk result (self.new ≡ with_shown self.old id.0 text) }
        ensures err { OnErr result (self.new ≡ self.old) }
    {
        self.shown.insert(id.0, text)?;
        Ok(())
    }
}
