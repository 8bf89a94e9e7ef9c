//! The pairs of dicts.
ghost use Rattle.std.specs.Prelude.{◌≡◌, slice_get};
ghost use Rattle.scons_calls.specs.Kinds.{pairs_in};

use py_heap::{DictId, Heap, Value};

/// The pair at a place of a dict: what was given as the key, and the item.
pub fn pair_at(heap: &Heap, dict: DictId, place: usize) -> Option<(Value, Value)>
    ensures { result ≡ slice_get (pairs_in heap.now dict.0) place }
{
    let (_, entry) = heap.place_at(dict, place)?;
    Some((entry.key, entry.item))
}
