//! The methods of lists and dicts, by their names.
ghost use Rattle.std.specs.Prelude.{◌≡◌, Ok, IfOk, OnErr};
ghost use Rattle.py_methods.specs.Methods.{list_method, dict_method};
ghost use Rattle.py_compare.specs.Outcomes.{FailsAs};

use crate::dicts::{get, keys, setdefault, update, values};
use crate::lists::{append, extend, index, insert, pop, pop_last, remove, reverse, sort};
use crate::many::pairs;
use crate::name::Name;
use py_compare::copied_dict;
use py_heap::{Budget, DictId, Heap, ListId, Value, ValueFault};

pub(crate) fn list_method(
    heap: &mut Heap,
    budget: &mut Budget,
    list: ListId,
    name: Name,
    args: &[Value],
) -> Result<Value, ValueFault>
    ensures ok { IfOk result (λ v.
        list_method heap.old budget.old list.0 name args.now ≡ Ok (v, heap.new, budget.new)) }
    ensures fault { FailsAs result (list_method heap.old budget.old list.0 name args.now) }
    ensures err { OnErr result (heap.new ≡ heap.old) }
{
    match name {
        Name::Append => match args {
            [item] => append(heap, list, *item),
            _ => Err(ValueFault::NoMethod),
        },
        Name::Extend => match args {
            [more] => extend(heap, budget, list, *more),
            _ => Err(ValueFault::NoMethod),
        },
        Name::Insert => match args {
            [at, item] => insert(heap, list, *at, *item),
            _ => Err(ValueFault::NoMethod),
        },
        Name::Pop => match args {
            [] => pop_last(heap, list),
            [at] => pop(heap, list, *at),
            _ => Err(ValueFault::NoMethod),
        },
        Name::Remove => match args {
            [item] => remove(heap, budget, list, *item),
            _ => Err(ValueFault::NoMethod),
        },
        Name::Index => match args {
            [item] => index(heap, budget, list, *item),
            _ => Err(ValueFault::NoMethod),
        },
        Name::Reverse => match args {
            [] => Ok(reverse(heap, list)),
            _ => Err(ValueFault::NoMethod),
        },
        Name::Sort => match args {
            [] => sort(heap, budget, list),
            _ => Err(ValueFault::NoMethod),
        },
        _ => Err(ValueFault::NoMethod),
    }
}

pub(crate) fn dict_method(
    heap: &mut Heap,
    budget: &mut Budget,
    dict: DictId,
    name: Name,
    args: &[Value],
) -> Result<Value, ValueFault>
    ensures ok { IfOk result (λ v.
        dict_method heap.old budget.old dict.0 name args.now ≡ Ok (v, heap.new, budget.new)) }
    ensures fault { FailsAs result (dict_method heap.old budget.old dict.0 name args.now) }
    ensures err { OnErr result (heap.new ≡ heap.old) }
{
    match name {
        Name::Get => match args {
            [key] => get(heap, dict, *key, Value::Nil),
            [key, default] => get(heap, dict, *key, *default),
            _ => Err(ValueFault::NoMethod),
        },
        Name::Keys => match args {
            [] => keys(heap, budget, dict),
            _ => Err(ValueFault::NoMethod),
        },
        Name::Values => match args {
            [] => values(heap, budget, dict),
            _ => Err(ValueFault::NoMethod),
        },
        Name::Items => match args {
            [] => pairs(heap, budget, dict),
            _ => Err(ValueFault::NoMethod),
        },
        Name::Update => match args {
            [other] => update(heap, dict, *other),
            _ => Err(ValueFault::NoMethod),
        },
        Name::Copy => match args {
            [] => copied_dict(heap, budget, dict),
            _ => Err(ValueFault::NoMethod),
        },
        Name::Setdefault => match args {
            [key] => setdefault(heap, dict, *key, Value::Nil),
            [key, item] => setdefault(heap, dict, *key, *item),
            _ => Err(ValueFault::NoMethod),
        },
        _ => Err(ValueFault::NoMethod),
    }
}
