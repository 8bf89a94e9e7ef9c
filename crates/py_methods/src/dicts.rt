//! The methods of a dict.
ghost use Rattle.std.specs.Prelude.{◌≡◌, ◌≤◌, length, Ok, IfOk, OnOk, OnErr};
ghost use Rattle.py_heap.specs.Dicts.{put_all};
ghost use Rattle.py_heap.specs.Heap.{dict_at, keys_of, items_in};
ghost use Rattle.py_compare.specs.Outcomes.{FailsAs, paid_items};
ghost use Rattle.py_methods.specs.Dicts.{update_of, get_of, setdefault_of, keys_list, values_list};

use py_heap::{Budget, DictId, Heap, Value, ValueFault, list_room};
use py_operators::length_with;
use scons_base::limits::LIST_LIMIT;

/// The item under a key, or else another value.
pub(crate) fn get(
    heap: &Heap,
    dict: DictId,
    key: Value,
    default: Value,
) -> Result<Value, ValueFault>
    ensures ok { IfOk result (λ v. get_of heap.now dict.0 key default ≡ Ok v) }
    ensures fault { FailsAs result (get_of heap.now dict.0 key default) }
{
    let Some(content) = heap.key_of(key)? else {
        return Err(ValueFault::KeyKind(key.kind()));
    };
    match heap.entry_at(dict, &content) {
        Some(entry) => Ok(entry.item),
        None => Ok(default),
    }
}

/// The item under a key, which is put there where there is none.
#[tactic(auto, using(crate::proofs::Defaults::default_grown))]
pub(crate) fn setdefault(
    heap: &mut Heap,
    dict: DictId,
    key: Value,
    item: Value,
) -> Result<Value, ValueFault>
    ensures ok { IfOk result (λ v. setdefault_of heap.old dict.0 key item ≡ Ok (v, heap.new)) }
    ensures fault { FailsAs result (setdefault_of heap.old dict.0 key item) }
    ensures err { OnErr result (heap.new ≡ heap.old) }
{
    let Some(content) = heap.key_of(key)? else {
        return Err(ValueFault::KeyKind(key.kind()));
    };
    match heap.entry_at(dict, &content) {
        Some(entry) => Ok(entry.item),
        None => {
            let length = length_with(heap, dict, &content);
            if length > LIST_LIMIT {
                return Err(ValueFault::TooBig(length));
            }
            heap.put_item(dict, content, key, item)?;
            Ok(item)
        }
    }
}

/// A list of the keys, as they were given.
#[tactic(auto, using(crate::proofs::Listed::listed))]
pub(crate) fn keys(heap: &mut Heap, budget: &mut Budget, dict: DictId) -> Result<Value, ValueFault>
    ensures ok { IfOk result (λ v. keys_list heap.old budget.old dict.0 ≡ Ok (v, heap.new, budget.new)) }
    ensures fault { FailsAs result (keys_list heap.old budget.old dict.0) }
    ensures err { OnErr result (heap.new ≡ heap.old) }
{
    list_room(budget, heap.dict_len(dict) as u64)?;
    let made = heap.keys_of(dict)?;
    let value = heap.add_list(made)?;
    Ok(value)
}

/// A list of the items.
#[tactic(auto, using(crate::proofs::Listed::listed))]
pub(crate) fn values(
    heap: &mut Heap,
    budget: &mut Budget,
    dict: DictId,
) -> Result<Value, ValueFault>
    ensures ok { IfOk result (λ v. values_list heap.old budget.old dict.0 ≡ Ok (v, heap.new, budget.new)) }
    ensures fault { FailsAs result (values_list heap.old budget.old dict.0) }
    ensures err { OnErr result (heap.new ≡ heap.old) }
{
    list_room(budget, heap.dict_len(dict) as u64)?;
    let made = heap.items_in(dict)?;
    let value = heap.add_list(made)?;
    Ok(value)
}

/// Puts the items of another dict under its keys.
#[tactic(auto, using(py_compare::proofs::Limits::exact_limits))]
pub(crate) fn update(heap: &mut Heap, dict: DictId, other: Value) -> Result<Value, ValueFault>
    ensures ok { IfOk result (λ v. update_of heap.old dict.0 other ≡ Ok (v, heap.new)) }
    ensures fault { FailsAs result (update_of heap.old dict.0 other) }
    ensures err { OnErr result (heap.new ≡ heap.old) }
{
    match other {
        Value::Dict(other) => {
            update_room(heap, dict, other)?;
            heap.put_all(dict, other)?;
            Ok(Value::Nil)
        }
        _ => Err(ValueFault::Mismatch(Value::Dict(dict).kind(), other.kind())),
    }
}

/// Whether there is room in a dict for the keys of another one. Where both together have few enough, so has what they come to;
/// else a copy tells.
#[tactic(auto, using(crate::proofs::Updates::updates))]
fn update_room(heap: &Heap, dict: DictId, other: DictId) -> Result<(), ValueFault>
    ensures few { OnOk result (length (put_all (dict_at heap.now dict.0) (dict_at heap.now other.0)) ≤ LIST_LIMIT) }
    ensures fault { FailsAs result (update_of heap.now dict.0 (Value.Dict other)) }
{
    let most = (heap.dict_len(dict) as u64).saturating_add(heap.dict_len(other) as u64);
    if most <= LIST_LIMIT {
        return Ok(());
    }
    let length = heap.merged_dict(dict, other)?.len() as u64;
    if length > LIST_LIMIT {
        return Err(ValueFault::TooBig(length));
    }
    Ok(())
}
