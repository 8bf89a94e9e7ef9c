//! Expressions.
ghost use Rattle.std.specs.Prelude.{◌≡◌, ◌≢◌, ◌≤◌, ℕ, false, Ok, Err, IfOk, IfErr, OnOk, map};
ghost use Rattle.py_tree.specs.Tree.{cons, trees, expr_tree, operation_tree};
ghost use Rattle.py_compare.specs.Outcomes.{new_list, new_tuple};
ghost use Rattle.py_heap.specs.Heap.{truth_of};
ghost use Rattle.py_meaning.specs.Expressions.{named_line, displayed, paired};
ghost use Rattle.py_meaning.specs.States.{State};
ghost use Rattle.py_meaning.specs.States as meaning;
ghost use Rattle.py_steps.specs.Desks.{values_of, top};
ghost use Rattle.py_steps.specs.Todos.{is_decided};
ghost use Rattle.py_steps.specs.Leads.{Leads, Steps, Unfolds, left_with, left_at, operated_at, DoesTask, left_in};
ghost use Rattle.py_steps.specs.Shapes.{task_of, display_of};

use crate::desk::Desk;
use crate::task::{Comprehension, Task};
use py_compare::above_zero;
use py_heap::{Budget, Heap, Value, ValueFault, Values, list_room, truth};
use py_host::Host;
use py_operators::{Op, binary, negate};
use py_state::{
    Frame, Machine, Stop, comparison_op, constant_value, named, operator_op, value_fault,
};
use py_tree::{Argument, Expr, Operation, Operator, Pair, Parameter};
use scons_base::Memory;
use std::alloc::Global;

/// Begins an expression.
pub fn evaluate<'a, H: Host>(
    machine: &mut Machine,
    host: &mut H,
    frame: &Frame,
    desk: &mut Desk<'a>,
    expr: &'a Expr,
) -> Result<(), Stop>
    ensures keeps { H.meaning.keeps host.old host.new }
    ensures leads { (c : ℕ) → Leads H.meaning c (left_with (Task.Evaluate expr.entry) desk.old machine.old frame.now)
        host.old result (left_at desk.new machine.new frame.now) host.new }
{
    match expr {
        Expr::Name { line, name } => match named(machine, host, frame, *line, name) {
            Ok(value) => {
                desk.give(value)?;
                Ok(())
            }
            Err(stop) => Err(stop),
        },
        Expr::Integer { line, value } => match above_zero(*value) {
            Ok(value) => {
                desk.give(Value::Int(value))?;
                Ok(())
            }
            Err(fault) => Err(value_fault(frame, *line, fault)),
        },
        Expr::Text { line, text } => match machine.heap.text(text.as_str()) {
            Ok(value) => {
                desk.give(value)?;
                Ok(())
            }
            Err(fault) => Err(value_fault(frame, *line, fault)),
        },
        Expr::Constant { constant, .. } => {
            desk.give(constant_value(*constant))?;
            Ok(())
        }
        Expr::Group { inner, .. } => {
            desk.push(Task::Evaluate(inner))?;
            Ok(())
        }
        Expr::Tuple { line, items, .. } => {
            let base = desk.height();
            desk.push(Task::Tuple { line: *line, base })?;
            desk.push(Task::EvaluateAll(items.as_slice()))?;
            Ok(())
        }
        Expr::List { line, items } => {
            let base = desk.height();
            desk.push(Task::List { line: *line, base })?;
            desk.push(Task::EvaluateAll(items.as_slice()))?;
            Ok(())
        }
        Expr::Dict { line, pairs } => {
            let base = desk.height();
            desk.push(Task::Dict { line: *line, base })?;
            desk.push(Task::Pairs(pairs.as_slice()))?;
            Ok(())
        }
        Expr::Comprehension {
            line,
            item,
            names,
            source,
            tests,
        } => {
            let comprehension = Comprehension {
                line: *line,
                item,
                names: names.as_slice(),
                tests: tests.as_slice(),
            };
            desk.evaluate(source, Task::Comprehend(comprehension))?;
            Ok(())
        }
        Expr::Post { atom, links } => {
            let named = named_line(atom);
            let links = links.as_slice();
            desk.evaluate(atom, Task::Links { links, named })?;
            Ok(())
        }
        Expr::Negative { line, operand } => {
            desk.evaluate(operand, Task::Negate { line: *line })?;
            Ok(())
        }
        Expr::Not { operand, .. } => {
            desk.evaluate(operand, Task::Not)?;
            Ok(())
        }
        Expr::Chain { first, rest } => {
            desk.evaluate(first, Task::Operations(rest.as_slice()))?;
            Ok(())
        }
        Expr::Compare {
            line,
            comparison,
            left,
            right,
        } => {
            let line = *line;
            let op = comparison_op(*comparison);
            desk.push(Task::Binary { line, op })?;
            desk.evaluate(left, Task::Evaluate(right))?;
            Ok(())
        }
        Expr::Choice {
            value,
            test,
            other,
            ..
        } => {
            desk.evaluate(test, Task::Pick { value, other })?;
            Ok(())
        }
        Expr::Joined { line, pieces } => {
            let base = desk.height();
            let line = *line;
            let pieces = pieces.as_slice();
            desk.push(Task::Join { line, pieces, base })?;
            desk.push(Task::Fields(pieces))?;
            Ok(())
        }
    }
}

/// One of two expressions, by the test that is there.
pub fn pick<'a>(
    machine: &Machine,
    desk: &mut Desk<'a>,
    value: &'a Expr,
    other: &'a Expr,
) -> Result<(), Stop>
    ensures { (f : meaning.Frame) → Steps (left_with (Task.Pick value.entry other.entry) desk.old machine.now f) result
        (left_at desk.new machine.now f) }
{
    let test = desk.take();
    if truth(&machine.heap, test) {
        return Ok(desk.push(Task::Evaluate(value))?);
    }
    desk.push(Task::Evaluate(other))?;
    Ok(())
}

/// The line of the name that an atom is.
#[tactic(auto, using(crate::proofs::Trees::views))]
pub fn named_line(atom: &Expr) -> Option<u32>
    ensures { result ≡ named_line (expr_tree atom.now) }
{
    match atom {
        Expr::Name { line, .. } => Some(*line),
        _ => None,
    }
}

/// The first of some expressions, and then the others.
pub fn evaluate_all<'a>(desk: &mut Desk<'a>, exprs: &'a [Expr]) -> Result<(), Stop>
    ensures { DoesTask (Task.EvaluateAll exprs.entry) desk.old result desk.new }
{
    let Some((first, rest)) = exprs.split_first() else {
        return Ok(());
    };
    desk.evaluate(first, Task::EvaluateAll(rest))?;
    Ok(())
}

pub fn evaluate_pairs<'a>(desk: &mut Desk<'a>, pairs: &'a [Pair]) -> Result<(), Stop>
    ensures { DoesTask (Task.Pairs pairs.entry) desk.old result desk.new }
{
    let Some((first, rest)) = pairs.split_first() else {
        return Ok(());
    };
    desk.push(Task::Pairs(rest))?;
    desk.evaluate(&first.key, Task::Evaluate(&first.value))?;
    Ok(())
}

pub fn evaluate_arguments<'a>(desk: &mut Desk<'a>, arguments: &'a [Argument]) -> Result<(), Stop>
    ensures { DoesTask (Task.Arguments arguments.entry) desk.old result desk.new }
{
    let Some((first, rest)) = arguments.split_first() else {
        return Ok(());
    };
    match first {
        Argument::Positional { value } => {
            desk.evaluate(value, Task::Arguments(rest))?;
            Ok(())
        }
        Argument::Named { value, .. } => {
            desk.evaluate(value, Task::Arguments(rest))?;
            Ok(())
        }
    }
}

/// The first default of some parameters, and then the others.
pub fn evaluate_defaults<'a>(desk: &mut Desk<'a>, parameters: &'a [Parameter]) -> Result<(), Stop>
    ensures { DoesTask (Task.Defaults parameters.entry) desk.old result desk.new }
{
    let Some((first, rest)) = parameters.split_first() else {
        return Ok(());
    };
    match &first.default {
        Some(default) => {
            desk.evaluate(default, Task::Defaults(rest))?;
            Ok(())
        }
        None => {
            desk.push(Task::Defaults(rest))?;
            Ok(())
        }
    }
}

/// Which display is made.
#[derive(Clone, Copy)]
pub enum Shape {
    Tuple,
    List,
    Dict,
}

/// Makes a display of the values above a height.
pub fn display(
    machine: &mut Machine,
    frame: &Frame,
    desk: &mut Desk<'_>,
    line: u32,
    base: usize,
    shape: Shape,
) -> Result<(), Stop>
    ensures { Steps (left_with (task_of shape line base) desk.old machine.old frame.now) result
        (left_at desk.new machine.new frame.now) }
{
    let values = desk.take_above(base)?;
    let made = displayed(
        &mut machine.heap,
        &mut machine.budget,
        shape,
        values.as_slice(),
    );
    let value = match made {
        Ok(value) => value,
        Err(fault) => return Err(value_fault(frame, line, fault)),
    };
    desk.give(value)?;
    Ok(())
}

fn displayed(
    heap: &mut Heap,
    budget: &mut Budget,
    shape: Shape,
    values: &[Value],
) -> Result<Value, ValueFault>
    ensures ok { IfOk result (λ v. display_of shape heap.old budget.old values.now ≡ Ok (v, heap.new, budget.new)) }
    ensures fault { IfErr result (λ e.
        e ≢ ValueFault.Memory → display_of shape heap.old budget.old values.now ≡ Err e) }
{
    match shape {
        Shape::Tuple => tuple_displayed(heap, budget, values),
        Shape::List => list_displayed(heap, budget, values),
        Shape::Dict => dict_displayed(heap, budget, values),
    }
}

fn tuple_displayed(
    heap: &mut Heap,
    budget: &mut Budget,
    values: &[Value],
) -> Result<Value, ValueFault>
    ensures ok { IfOk result (λ v. new_tuple heap.old budget.old values.now ≡ Ok (v, heap.new, budget.new)) }
    ensures fault { IfErr result (λ e. e ≢ ValueFault.Memory → new_tuple heap.old budget.old values.now ≡ Err e) }
{
    list_room(budget, values.len() as u64)?;
    let items = Values::of(heap.allocator(), values)?;
    let made = heap.add_tuple(items)?;
    Ok(made)
}

fn list_displayed(
    heap: &mut Heap,
    budget: &mut Budget,
    values: &[Value],
) -> Result<Value, ValueFault>
    ensures ok { IfOk result (λ v. new_list heap.old budget.old values.now ≡ Ok (v, heap.new, budget.new)) }
    ensures fault { IfErr result (λ e. e ≢ ValueFault.Memory → new_list heap.old budget.old values.now ≡ Err e) }
{
    list_room(budget, values.len() as u64)?;
    let items = Values::of(heap.allocator(), values)?;
    let made = heap.add_list(items)?;
    Ok(made)
}

/// A dict of keys and items, one behind another.
fn dict_displayed(
    heap: &mut Heap,
    budget: &mut Budget,
    values: &[Value],
) -> Result<Value, ValueFault>
    ensures ok { IfOk result (λ v. displayed heap.old budget.old values.now ≡ Ok (v, heap.new, budget.new)) }
    ensures fault { IfErr result (λ e. e ≢ ValueFault.Memory → displayed heap.old budget.old values.now ≡ Err e) }
{
    let pairs = paired(heap.allocator(), values)?;
    let made = heap.dict(pairs.as_slice())?;
    let Value::Dict(dict) = made else {
        return Ok(made);
    };
    list_room(budget, heap.dict_len(dict) as u64)?;
    Ok(made)
}

fn paired(alloc: Global, values: &[Value]) -> Result<Vec<(Value, Value)>, Memory>
    ensures { IfOk result (λ pairs. pairs.items ≡ paired values.now) }
{
    let mut pairs = Vec::new(alloc);
    let mut left = values;
    'pairs: while let Some((key, behind)) = left.split_first() {
        let Some((item, rest)) = behind.split_first() else {
            return Ok(pairs);
        };
        pairs.push((*key, *item))?;
        left = rest;
    }
    Ok(pairs)
}

pub fn negated(
    machine: &mut Machine,
    frame: &Frame,
    desk: &mut Desk<'_>,
    line: u32,
) -> Result<(), Stop>
    ensures { Steps (left_with (Task.Negate line) desk.old machine.old frame.now) result
        (left_at desk.new machine.new frame.now) }
{
    let operand = desk.take();
    match negate(&mut machine.heap, &mut machine.budget, operand) {
        Ok(value) => {
            desk.give(value)?;
            Ok(())
        }
        Err(fault) => Err(value_fault(frame, line, fault)),
    }
}

pub fn turned(machine: &Machine, desk: &mut Desk<'_>) -> Result<(), Stop>
    ensures { (f : meaning.Frame) → Steps (left_with Task.Not desk.old machine.now f) result
        (left_at desk.new machine.now f) }
{
    let operand = desk.take();
    desk.give(Value::Bool(!truth(&machine.heap, operand)))?;
    Ok(())
}

pub fn operated(
    machine: &mut Machine,
    frame: &Frame,
    desk: &mut Desk<'_>,
    line: u32,
    op: Op,
) -> Result<(), Stop>
    ensures { Steps (left_with (Task.Binary line op) desk.old machine.old frame.now) result
        (left_at desk.new machine.new frame.now) }
{
    let right = desk.take();
    let left = desk.take();
    match binary(&mut machine.heap, &mut machine.budget, op, left, right) {
        Ok(value) => {
            desk.give(value)?;
            Ok(())
        }
        Err(fault) => Err(value_fault(frame, line, fault)),
    }
}

/// Goes on behind the left operand.
pub fn operations<'a>(
    machine: &Machine,
    desk: &mut Desk<'a>,
    operations: &'a [Operation],
) -> Result<(), Stop>
    ensures { (f : meaning.Frame) → Steps (left_with (Task.Operations operations.entry) desk.old machine.now f) result
        (left_at desk.new machine.now f) }
{
    let Some((first, rest)) = operations.split_first() else {
        desk.keep()?;
        return Ok(());
    };
    if is_decided(machine, first.operator, desk.top()) {
        desk.push(Task::Operations(rest))?;
        return Ok(());
    }
    operand(desk, first, rest)?;
    Ok(())
}

/// Begins the right operand. That of `or` and `and` takes the left one's place.
fn operand<'a>(
    desk: &mut Desk<'a>,
    first: &'a Operation,
    rest: &'a [Operation],
) -> Result<(), Memory>
    ensures { OnOk result ((s : State) →
        is_decided first.now.operator (truth_of s.objects (top (values_of desk.old))) ≡ false →
        Unfolds
        (operated_at (cons (operation_tree first.now) (trees (map operation_tree rest.now))) desk.old s)
        (left_in desk.new s)) }
{
    desk.push(Task::Operations(rest))?;
    match first.operator {
        Operator::Or | Operator::And => {
            let _left = desk.take();
            desk.push(Task::Evaluate(&first.operand))
        }
        operator => {
            let line = first.line;
            let op = operator_op(operator);
            desk.evaluate(&first.operand, Task::Binary { line, op })
        }
    }
}

/// Whether `or` or `and` gives its left operand.
fn is_decided(machine: &Machine, operator: Operator, left: Value) -> bool
    ensures { result ≡ is_decided operator (truth_of machine.now.heap left) }
{
    match operator {
        Operator::Or => truth(&machine.heap, left),
        Operator::And => !truth(&machine.heap, left),
        _ => false,
    }
}
