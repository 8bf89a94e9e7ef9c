//! What built-in functions give without an argument.
ghost use Rattle.std.specs.Prelude.{◌≡◌, [], Ok, IfOk, OnErr};
ghost use Rattle.py_compare.specs.Outcomes.{FailsAs, new_text, new_list, new_tuple, new_dict};

use py_heap::{Budget, Dict, Heap, Value, ValueFault, Values, list_room, text_room};
use scons_base::Text;

pub(crate) fn empty_text(heap: &mut Heap, budget: &mut Budget) -> Result<Value, ValueFault>
    ensures ok { IfOk result (λ v. new_text heap.old budget.old [] ≡ Ok (v, heap.new, budget.new)) }
    ensures fault { FailsAs result (new_text heap.old budget.old []) }
    ensures err { OnErr result (heap.new ≡ heap.old) }
{
    text_room(budget, 0)?;
    let text = heap.add_text(Text::new(String::new(heap.allocator())))?;
    Ok(text)
}

pub(crate) fn empty_list(heap: &mut Heap, budget: &mut Budget) -> Result<Value, ValueFault>
    ensures ok { IfOk result (λ v. new_list heap.old budget.old [] ≡ Ok (v, heap.new, budget.new)) }
    ensures fault { FailsAs result (new_list heap.old budget.old []) }
    ensures err { OnErr result (heap.new ≡ heap.old) }
{
    list_room(budget, 0)?;
    let list = heap.add_list(Values::new(Vec::new(heap.allocator())))?;
    Ok(list)
}

pub(crate) fn empty_tuple(heap: &mut Heap, budget: &mut Budget) -> Result<Value, ValueFault>
    ensures ok { IfOk result (λ v. new_tuple heap.old budget.old [] ≡ Ok (v, heap.new, budget.new)) }
    ensures fault { FailsAs result (new_tuple heap.old budget.old []) }
    ensures err { OnErr result (heap.new ≡ heap.old) }
{
    list_room(budget, 0)?;
    let tuple = heap.add_tuple(Values::new(Vec::new(heap.allocator())))?;
    Ok(tuple)
}

pub(crate) fn empty_dict(heap: &mut Heap, budget: &mut Budget) -> Result<Value, ValueFault>
    ensures ok { IfOk result (λ v. new_dict heap.old budget.old [] ≡ Ok (v, heap.new, budget.new)) }
    ensures fault { FailsAs result (new_dict heap.old budget.old []) }
    ensures err { OnErr result (heap.new ≡ heap.old) }
{
    list_room(budget, 0)?;
    let dict = heap.add_dict(Dict::new(heap.allocator()))?;
    Ok(dict)
}
