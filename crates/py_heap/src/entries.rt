//! The keys and the items of a dict, one after another.
ghost use Rattle.std.specs.Prelude.{◌≡◌, IfOk, slice_get};
ghost use Rattle.py_heap.specs.Heap.{dict_at, keys_of, items_in};

use crate::heap::Heap;
use crate::ids::DictId;
use crate::value::Value;
use crate::values::Values;
use scons_base::Memory;

impl Heap {
    /// The keys of a dict, as they were given.
    #[tactic(auto, using(crate::proofs::Turns::turns))]
    pub fn keys_of(&self, id: DictId) -> Result<Values, Memory>
        ensures { IfOk result (λ v. v ≡ keys_of (dict_at self.now id.0)) }
    {
        let mut keys = Values::new(Vec::new(self.alloc));
        'places: for place in 0..self.dict_len(id) {
            if let Some(key) = self.key_at(id, place) {
                keys.push(key)?;
            }
        }
        Ok(keys)
    }

    /// The items of a dict.
    #[tactic(auto, using(crate::proofs::Turns::turns))]
    pub fn items_in(&self, id: DictId) -> Result<Values, Memory>
        ensures { IfOk result (λ v. v ≡ items_in (dict_at self.now id.0)) }
    {
        let mut items = Values::new(Vec::new(self.alloc));
        'places: for place in 0..self.dict_len(id) {
            if let Some(item) = self.item_at(id, place) {
                items.push(item)?;
            }
        }
        Ok(items)
    }

    /// The key at a place of a dict, as it was given.
    pub fn key_at(&self, id: DictId, place: usize) -> Option<Value>
        ensures { result ≡ slice_get (keys_of (dict_at self.now id.0)) place }
    {
        let (_, entry) = self.place_at(id, place)?;
        Some(entry.key)
    }

    fn item_at(&self, id: DictId, place: usize) -> Option<Value>
        ensures { result ≡ slice_get (items_in (dict_at self.now id.0)) place }
    {
        let (_, entry) = self.place_at(id, place)?;
        Some(entry.item)
    }
}
