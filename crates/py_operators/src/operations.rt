//! The operators and places by their calls. One that fails leaves the heap and the units as they were.
ghost use Rattle.std.specs.Prelude.{◌≡◌, Ok, IfOk, OnErr};
ghost use Rattle.py_operators.specs.Arithmetic.{negative_of};
ghost use Rattle.py_operators.specs.Binary.{binary_of};
ghost use Rattle.py_operators.specs.Indexing.{indexed, sliced};
ghost use Rattle.py_compare.specs.Outcomes.{FailsAs};

use crate::arithmetic::negative_of;
use crate::indexing::{indexed, sliced};
use crate::op::Op;
use crate::operators::binary_of;
use py_heap::{Budget, Heap, Value, ValueFault, settled};

/// What an operator of two operands gives. `Contains` asks whether the first stands in the second.
pub fn binary(
    heap: &mut Heap,
    budget: &mut Budget,
    op: Op,
    a: Value,
    b: Value,
) -> Result<Value, ValueFault>
    ensures ok { IfOk result (λ v. binary_of op heap.old budget.old a b ≡ Ok (v, heap.new, budget.new)) }
    ensures fault { FailsAs result (binary_of op heap.old budget.old a b) }
    ensures err { OnErr result (heap.new ≡ heap.old) }
    ensures unpaid { OnErr result (budget.new ≡ budget.old) }
{
    let before = budget.copy();
    let answer = binary_of(heap, budget, op, a, b);
    settled(budget, before, answer)
}

/// An integer with the other sign.
pub fn negate(heap: &mut Heap, budget: &mut Budget, a: Value) -> Result<Value, ValueFault>
    ensures ok { IfOk result (λ v. negative_of heap.old budget.old a ≡ Ok (v, heap.new, budget.new)) }
    ensures fault { FailsAs result (negative_of heap.old budget.old a) }
    ensures err { OnErr result (heap.new ≡ heap.old) }
    ensures unpaid { OnErr result (budget.new ≡ budget.old) }
{
    let before = budget.copy();
    let answer = negative_of(heap, budget, a);
    settled(budget, before, answer)
}

/// What stands at an index or under a key.
pub fn index(heap: &mut Heap, budget: &mut Budget, a: Value, i: Value) -> Result<Value, ValueFault>
    ensures ok { IfOk result (λ v. indexed heap.old budget.old a i ≡ Ok (v, heap.new, budget.new)) }
    ensures fault { FailsAs result (indexed heap.old budget.old a i) }
    ensures err { OnErr result (heap.new ≡ heap.old) }
    ensures unpaid { OnErr result (budget.new ≡ budget.old) }
{
    let before = budget.copy();
    let answer = indexed(heap, budget, a, i);
    settled(budget, before, answer)
}

/// What stands from one end up to another, where either may be left out.
pub fn slice(
    heap: &mut Heap,
    budget: &mut Budget,
    a: Value,
    from: Option<Value>,
    to: Option<Value>,
) -> Result<Value, ValueFault>
    ensures ok { IfOk result (λ v. sliced heap.old budget.old a from to ≡ Ok (v, heap.new, budget.new)) }
    ensures fault { FailsAs result (sliced heap.old budget.old a from to) }
    ensures err { OnErr result (heap.new ≡ heap.old) }
    ensures unpaid { OnErr result (budget.new ≡ budget.old) }
{
    let before = budget.copy();
    let answer = sliced(heap, budget, a, from, to);
    settled(budget, before, answer)
}
