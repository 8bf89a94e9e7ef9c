//! Assignments.
ghost use Rattle.std.specs.Prelude.{◌≡◌, ◌≤◌, ◌∷◌, ℕ, Bool, IfOk, OnOk, map};
ghost use Rattle.py_tree.specs.Tree.{trees, tuple, post, expr_tree, link_tree};
ghost use Rattle.py_meaning.specs.Expressions.{named_line};
ghost use Rattle.py_meaning.specs.Loops.{names_of};
ghost use Rattle.py_meaning.specs.Plans.{Plan};
ghost use Rattle.py_meaning.specs.States.{State};
ghost use Rattle.py_meaning.specs.Statements.{after_item_set, assigned, augmented};
ghost use Rattle.py_state.specs.Stores.{state_of};
ghost use Rattle.py_steps.specs.Desks.{stacks_of, tasks_of};
ghost use Rattle.py_steps.specs.Leads.{Leads, Steps, left_with, left_at, plan_at, assigned_at, HasLeft};

use crate::desk::Desk;
use crate::expressions::named_line;
use crate::links::item;
use crate::loops::bind_all;
use crate::task::Task;
use py_heap::Value;
use py_host::Host;
use py_operators::set_index;
use py_state::{Frame, Machine, Stop, augmented, refused, unpacked, value_fault};
use py_tree::{Expr, Link, Operator};
use scons_base::{Memory, Text};
use std::alloc::Global;

/// The uppermost value goes to a target.
pub fn assign<'a>(
    machine: &mut Machine,
    frame: &mut Frame,
    desk: &mut Desk<'a>,
    line: u32,
    target: &'a Expr,
) -> Result<(), Stop>
    ensures { Steps (left_with (Task.Assign line target.entry) desk.old machine.old frame.old) result
        (left_at desk.new machine.new frame.new) }
{
    match target {
        Expr::Name { name, .. } => {
            let value = desk.take();
            machine.bind(frame, name, value)?;
            Ok(())
        }
        Expr::Tuple { items, .. } => {
            let value = desk.take();
            assign_items(machine, frame, line, items.as_slice(), value)
        }
        Expr::Post { atom, links } => {
            assign_item(desk, atom, links.as_slice())?;
            Ok(())
        }
        _ => {
            let _value = desk.take();
            Ok(())
        }
    }
}

/// The items of a value go to several names.
fn assign_items(
    machine: &mut Machine,
    frame: &mut Frame,
    line: u32,
    targets: &[Expr],
    value: Value,
) -> Result<(), Stop>
    ensures { (l : ℕ) (b : Bool) (f : State → Plan) →
        Steps
        (assigned line (tuple l (trees (map expr_tree targets.now)) b) value (state_of machine.old frame.old) f)
        result
        (f (state_of machine.new frame.new)) }
{
    let names = target_names(machine.alloc, targets)?;
    let values = match unpacked(&mut machine.heap, value, names.len()) {
        Ok(values) => values,
        Err(fault) => return Err(value_fault(frame, line, fault)),
    };
    bind_all(machine, frame, names.as_slice(), values.as_slice())?;
    Ok(())
}

/// The names that stand in a target, up to the first item of another form.
fn target_names(alloc: Global, targets: &[Expr]) -> Result<Vec<Text>, Memory>
    ensures { IfOk result (λ names. names.items ≡ names_of (trees (map expr_tree targets.now))) }
{
    let mut names = Vec::new(alloc);
    'targets: for target in targets {
        let Expr::Name { name, .. } = target else {
            return Ok(names);
        };
        names.push(name.copy()?)?;
    }
    Ok(names)
}

/// What is behind an atom takes the uppermost value, if its end is an index.
fn assign_item<'a>(desk: &mut Desk<'a>, atom: &'a Expr, links: &'a [Link]) -> Result<(), Memory>
    ensures { OnOk result ((l : ℕ) → HasLeft desk.new
        (assigned_at l (post (expr_tree atom.now) (trees (map link_tree links.now))) desk.old)) }
{
    let Some((last, front)) = links.split_last() else {
        let _value = desk.take();
        return Ok(());
    };
    let Link::Index { line, index } = last else {
        let _value = desk.take();
        return Ok(());
    };
    desk.push(Task::StoreBelow { line: *line })?;
    push_place(desk, atom, front, index)
}

/// What stands before an index, and its key.
fn push_place<'a>(
    desk: &mut Desk<'a>,
    atom: &'a Expr,
    front: &'a [Link],
    index: &'a Expr,
) -> Result<(), Memory>
    ensures { OnOk result (stacks_of desk.new ≡ record (stacks_of desk.old) {
      tasks = Task.Evaluate atom.entry ∷ Task.Links front.entry (named_line (expr_tree atom.now))
          ∷ Task.Evaluate index.entry ∷ tasks_of desk.old;
    }) }
{
    desk.push(Task::Evaluate(index))?;
    let named = named_line(atom);
    desk.evaluate(
        atom,
        Task::Links {
            links: front,
            named,
        },
    )
}

/// Begins an augmented assignment: the target is evaluated once, and before the value.
pub fn augment<'a>(
    desk: &mut Desk<'a>,
    line: u32,
    operator: Operator,
    target: &'a Expr,
    value: &'a Expr,
) -> Result<(), Memory>
    ensures { OnOk result (HasLeft desk.new (λ s.
        plan_at (augmented line operator (expr_tree target.now) (expr_tree value.now) s) desk.old)) }
{
    match target {
        Expr::Name { name, .. } => augment_name(desk, line, operator, target, name, value),
        Expr::Post { atom, links } => {
            augment_item(desk, line, operator, atom, links.as_slice(), value)
        }
        _ => Ok(()),
    }
}

fn augment_name<'a>(
    desk: &mut Desk<'a>,
    line: u32,
    operator: Operator,
    target: &'a Expr,
    name: &'a Text,
    value: &'a Expr,
) -> Result<(), Memory>
    ensures { OnOk result (stacks_of desk.new ≡ record (stacks_of desk.old) {
      tasks = Task.Evaluate target.entry ∷ Task.Evaluate value.entry ∷ Task.Augment line operator
          ∷ Task.Bind name.entry ∷ tasks_of desk.old;
    }) }
{
    desk.push(Task::Bind(name))?;
    desk.evaluate(value, Task::Augment { line, operator })?;
    desk.push(Task::Evaluate(target))
}

fn augment_item<'a>(
    desk: &mut Desk<'a>,
    line: u32,
    operator: Operator,
    atom: &'a Expr,
    links: &'a [Link],
    value: &'a Expr,
) -> Result<(), Memory>
    ensures { OnOk result (HasLeft desk.new (λ s.
        plan_at
        (augmented line operator (post (expr_tree atom.now) (trees (map link_tree links.now)))
        (expr_tree value.now) s)
        desk.old)) }
{
    let Some((last, front)) = links.split_last() else {
        return Ok(());
    };
    let Link::Index { line: place, index } = last else {
        return Ok(());
    };
    push_augment(desk, line, operator, *place, value)?;
    push_place(desk, atom, front, index)
}

/// The item is loaded, and stored with the value of the operator.
fn push_augment<'a>(
    desk: &mut Desk<'a>,
    line: u32,
    operator: Operator,
    place: u32,
    value: &'a Expr,
) -> Result<(), Memory>
    ensures { OnOk result (stacks_of desk.new ≡ record (stacks_of desk.old) {
      tasks = Task.Load place ∷ Task.Evaluate value.entry ∷ Task.Augment line operator
          ∷ Task.StoreAbove place ∷ tasks_of desk.old;
    }) }
{
    desk.push(Task::StoreAbove { line: place })?;
    desk.evaluate(value, Task::Augment { line, operator })?;
    desk.push(Task::Load { line: place })
}

/// The item under a key, behind what it is of and the key.
pub fn load<H: Host>(
    machine: &mut Machine,
    host: &mut H,
    frame: &Frame,
    desk: &mut Desk<'_>,
    line: u32,
) -> Result<(), Stop>
    ensures keeps { H.meaning.keeps host.old host.new }
    ensures leads { (c : ℕ) → Leads H.meaning c (left_with (Task.Load line) desk.old machine.old frame.now) host.old
        result (left_at desk.new machine.new frame.now) host.new }
{
    let value = item(machine, host, frame, line, desk.second(), desk.top())?;
    desk.give(value)?;
    Ok(())
}

/// The operator of an augmented assignment.
pub fn combine(
    machine: &mut Machine,
    frame: &Frame,
    desk: &mut Desk<'_>,
    line: u32,
    operator: Operator,
) -> Result<(), Stop>
    ensures { Steps (left_with (Task.Augment line operator) desk.old machine.old frame.now) result
        (left_at desk.new machine.new frame.now) }
{
    let right = desk.take();
    let left = desk.take();
    let made = augmented(
        &mut machine.heap,
        &mut machine.budget,
        operator,
        left,
        right,
    );
    let value = match made {
        Ok(value) => value,
        Err(fault) => return Err(value_fault(frame, line, fault)),
    };
    desk.give(value)?;
    Ok(())
}

/// A value, what it is put into, and the key.
pub fn store_below<H: Host>(
    machine: &mut Machine,
    host: &mut H,
    frame: &Frame,
    desk: &mut Desk<'_>,
    line: u32,
) -> Result<(), Stop>
    ensures keeps { H.meaning.keeps host.old host.new }
    ensures leads { (c : ℕ) → Leads H.meaning c (left_with (Task.StoreBelow line) desk.old machine.old frame.now)
        host.old result (left_at desk.new machine.new frame.now) host.new }
{
    let key = desk.take();
    let base = desk.take();
    let value = desk.take();
    store(machine, host, frame, line, base, key, value)
}

/// What a value is put into, the key, and the value.
pub fn store_above<H: Host>(
    machine: &mut Machine,
    host: &mut H,
    frame: &Frame,
    desk: &mut Desk<'_>,
    line: u32,
) -> Result<(), Stop>
    ensures keeps { H.meaning.keeps host.old host.new }
    ensures leads { (c : ℕ) → Leads H.meaning c (left_with (Task.StoreAbove line) desk.old machine.old frame.now)
        host.old result (left_at desk.new machine.new frame.now) host.new }
{
    let value = desk.take();
    let key = desk.take();
    let base = desk.take();
    store(machine, host, frame, line, base, key, value)
}

fn store<H: Host>(
    machine: &mut Machine,
    host: &mut H,
    frame: &Frame,
    line: u32,
    base: Value,
    key: Value,
    value: Value,
) -> Result<(), Stop>
    ensures keeps { H.meaning.keeps host.old host.new }
    ensures leads { (c : ℕ) (f : State → Plan) → Leads H.meaning c
        (after_item_set line base key value (state_of machine.old frame.now) f) host.old result
        (f (state_of machine.new frame.now)) host.new }
{
    match base {
        Value::Object(object) => match host.set_index(
            &mut machine.heap,
            frame.place(line),
            object,
            key,
            value,
        ) {
            Ok(()) => Ok(()),
            Err(refusal) => Err(refused(frame, line, refusal)),
        },
        _ => match set_index(&mut machine.heap, base, key, value) {
            Ok(()) => Ok(()),
            Err(fault) => Err(value_fault(frame, line, fault)),
        },
    }
}
