//! The operators that join two operands.
ghost use Rattle.std.specs.Prelude.{◌≡◌, Ok, IfOk, OnErr};
ghost use Rattle.py_operators.specs.Binary.{binary_of};
ghost use Rattle.py_compare.specs.Outcomes.{FailsAs};

use crate::arithmetic::{difference, product, quotient, sum};
use crate::op::Op;
use crate::remainders::rest;
use py_compare::{is_constant, ordered, same, within};
use py_heap::{Budget, Heap, Value, ValueFault};

/// What an operator gives.
pub(crate) fn binary_of(
    heap: &mut Heap,
    budget: &mut Budget,
    op: Op,
    a: Value,
    b: Value,
) -> Result<Value, ValueFault>
    ensures ok { IfOk result (λ v. binary_of op heap.old budget.old a b ≡ Ok (v, heap.new, budget.new)) }
    ensures fault { FailsAs result (binary_of op heap.old budget.old a b) }
    ensures err { OnErr result (heap.new ≡ heap.old) }
{
    match op {
        Op::Eq => Ok(Value::Bool(same(heap, budget, a, b)?)),
        Op::Ne => Ok(Value::Bool(!same(heap, budget, a, b)?)),
        Op::Lt => Ok(Value::Bool(ordered(heap, budget, a, b)?.is_lt())),
        Op::Le => Ok(Value::Bool(ordered(heap, budget, a, b)?.is_le())),
        Op::Gt => Ok(Value::Bool(ordered(heap, budget, a, b)?.is_gt())),
        Op::Ge => Ok(Value::Bool(ordered(heap, budget, a, b)?.is_ge())),
        Op::Contains => Ok(Value::Bool(within(heap, budget, a, b)?)),
        Op::NotContains => Ok(Value::Bool(!within(heap, budget, a, b)?)),
        Op::Is => Ok(Value::Bool(is_constant(a, b))),
        Op::IsNot => Ok(Value::Bool(!is_constant(a, b))),
        Op::Add => sum(heap, budget, a, b),
        Op::Sub => difference(heap, budget, a, b),
        Op::Mul => product(heap, budget, a, b),
        Op::FloorDiv => quotient(heap, budget, a, b),
        Op::Rem => rest(heap, budget, a, b),
    }
}
