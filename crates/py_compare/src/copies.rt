//! Copies.
ghost use Rattle.std.specs.Prelude.{◌≡◌, Ok, IfOk, OnErr};
ghost use Rattle.py_heap.specs.Heap.{dict_at};
ghost use Rattle.py_compare.specs.Outcomes.{FailsAs, new_dict};

use py_heap::{Budget, DictId, Heap, Value, ValueFault, list_room};

/// A new dict with the same entries.
pub fn copied_dict(heap: &mut Heap, budget: &mut Budget, dict: DictId) -> Result<Value, ValueFault>
    ensures ok { IfOk result (λ v.
        new_dict heap.old budget.old (dict_at heap.old dict.0) ≡ Ok (v, heap.new, budget.new)) }
    ensures fault { FailsAs result (new_dict heap.old budget.old (dict_at heap.old dict.0)) }
    ensures err { OnErr result (heap.new ≡ heap.old) }
{
    list_room(budget, heap.dict_len(dict) as u64)?;
    let made = heap.copy_of_dict(dict)?;
    let value = heap.add_dict(made)?;
    Ok(value)
}
