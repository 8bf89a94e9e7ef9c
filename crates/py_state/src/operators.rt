//! Operators of trees as operators on values.
ghost use Rattle.std.specs.Prelude.{◌≡◌, ◌≢◌, Ok, Err, IfOk, IfErr};
ghost use Rattle.py_meaning.specs.Expressions.{constant_value, comparison_op};
ghost use Rattle.py_meaning.specs.Statements.{operator_op, grown_of, augmented_of};

use py_heap::{Budget, Heap, ListId, Value, ValueFault, Values};
use py_methods::{Name, method};
use py_operators::{Op, binary};
use py_tree::{Comparison, Constant, Operator};

pub fn constant_value(constant: Constant) -> Value
    ensures { result ≡ constant_value constant }
{
    match constant {
        Constant::True => Value::Bool(true),
        Constant::False => Value::Bool(false),
        Constant::None => Value::Nil,
    }
}

pub fn comparison_op(comparison: Comparison) -> Op
    ensures { result ≡ comparison_op comparison }
{
    match comparison {
        Comparison::Equal => Op::Eq,
        Comparison::NotEqual => Op::Ne,
        Comparison::Less => Op::Lt,
        Comparison::LessEqual => Op::Le,
        Comparison::Greater => Op::Gt,
        Comparison::GreaterEqual => Op::Ge,
        Comparison::In => Op::Contains,
        Comparison::NotIn => Op::NotContains,
        Comparison::Is => Op::Is,
        Comparison::IsNot => Op::IsNot,
    }
}

/// The operator on values of an arithmetic one.
pub fn operator_op(operator: Operator) -> Op
    ensures { result ≡ operator_op operator }
{
    match operator {
        Operator::Add | Operator::Or | Operator::And => Op::Add,
        Operator::Subtract => Op::Sub,
        Operator::Multiply => Op::Mul,
        Operator::FloorDivide => Op::FloorDiv,
        Operator::Remainder => Op::Rem,
    }
}

/// An augmented assignment's value. A list is extended or repeated in place.
pub fn augmented(
    heap: &mut Heap,
    budget: &mut Budget,
    operator: Operator,
    a: Value,
    b: Value,
) -> Result<Value, ValueFault>
    ensures ok { IfOk result (λ v. augmented_of operator heap.old budget.old a b ≡ Ok (v, heap.new, budget.new)) }
    ensures fault { IfErr result (λ e. e ≢ ValueFault.Memory → augmented_of operator heap.old budget.old a b ≡ Err e) }
{
    match a {
        Value::List(list) => match operator {
            Operator::Add => grown(heap, budget, list, b),
            Operator::Multiply => {
                let made = binary(heap, budget, Op::Mul, a, b)?;
                match made {
                    Value::List(repeated) => {
                        let items = Values::of(heap.allocator(), heap.list_at(repeated))?;
                        heap.replace_list(list, items);
                        Ok(a)
                    }
                    other => Ok(other),
                }
            }
            _ => binary(heap, budget, operator_op(operator), a, b),
        },
        _ => binary(heap, budget, operator_op(operator), a, b),
    }
}

/// A list with the items of another value behind its own. A text gives none, as with `+`.
fn grown(
    heap: &mut Heap,
    budget: &mut Budget,
    list: ListId,
    more: Value,
) -> Result<Value, ValueFault>
    ensures ok { IfOk result (λ v. grown_of heap.old budget.old list more ≡ Ok (v, heap.new, budget.new)) }
    ensures fault { IfErr result (λ e. e ≢ ValueFault.Memory → grown_of heap.old budget.old list more ≡ Err e) }
{
    let value = Value::List(list);
    match more {
        Value::Text(_) => Err(ValueFault::Mismatch(value.kind(), more.kind())),
        _ => {
            method(heap, budget, value, Name::Extend, &[more])?;
            Ok(value)
        }
    }
}
