//! Calls, indices and attributes behind an atom.
ghost use Rattle.std.specs.Prelude.{◌≡◌, ◌≤◌, ℕ, List, ◌∷◌, None, OnOk, length, map};
ghost use Rattle.py_tree.specs.Tree.{cons, attribute, slice, trees, link_tree};
ghost use Rattle.py_host.specs.Calls as question;
ghost use Rattle.py_meaning.specs.Links.{after_item};
ghost use Rattle.py_meaning.specs.Plans.{Plan, after_optional, asked_on};
ghost use Rattle.py_meaning.specs.States.{State, goes_on, place_at};
ghost use Rattle.py_state.specs.Stores.{Store, state_of, state_by};
ghost use Rattle.py_steps.specs.Desks.{stacks_of, tasks_of, values_of, top};
ghost use Rattle.py_steps.specs.Todos.{left, end_at, past, end_tree, with_end};
ghost use Rattle.py_steps.specs.Leads.{Gives, Leads, Steps, IsNoObject, left_with, left_at, linked_at, HasLeft};
ghost use Rattle.py_steps.specs.Leads.{left_in};

use crate::desk::Desk;
use crate::task::Task;
use py_heap::{HostId, Value, ValueFault};
use py_host::Host;
use py_meaning::EvalKind;
use py_methods::{Name, has_method};
use py_operators::{index, slice};
use py_state::{Frame, Machine, Stop, fault, method_named, refused, value_fault};
use py_tree::{Argument, Expr, Link};
use scons_base::{Memory, Text};

/// The next thing behind the uppermost value.
pub fn link<'a, H: Host>(
    machine: &mut Machine,
    host: &mut H,
    frame: &Frame,
    desk: &mut Desk<'a>,
    links: &'a [Link],
    named: Option<u32>,
) -> Result<(), Stop>
    ensures keeps { H.meaning.keeps host.old host.new }
    ensures leads { (c : ℕ) → Leads H.meaning c (left_with (Task.Links links.entry named) desk.old machine.old
        frame.now) host.old result (left_at desk.new machine.new frame.now) host.new }
{
    let Some((first, rest)) = links.split_first() else {
        desk.keep()?;
        return Ok(());
    };
    match first {
        Link::Attribute { line, name } => {
            attribute_link(machine, host, frame, desk, *line, name, rest)
        }
        Link::Call { line, arguments } => {
            let line = named.unwrap_or(*line);
            call_link(desk, line, None, arguments.as_slice(), rest)?;
            Ok(())
        }
        Link::Index { line, index } => {
            index_link(desk, *line, index, rest)?;
            Ok(())
        }
        Link::Slice { line, lower, upper } => {
            slice_link(desk, *line, lower, upper, rest)?;
            Ok(())
        }
    }
}

/// A call of the uppermost value, or of its method.
fn call_link<'a>(
    desk: &mut Desk<'a>,
    line: u32,
    method: Option<Name>,
    arguments: &'a [Argument],
    rest: &'a [Link],
) -> Result<(), Memory>
    ensures { OnOk result (stacks_of desk.new ≡ record (stacks_of desk.old) {
      tasks = Task.Arguments arguments.entry
          ∷ Task.Call line method arguments.entry (length (values_of desk.old))
          ∷ Task.Links rest.entry None ∷ tasks_of desk.old;
    }) }
{
    desk.push(Task::Links {
        links: rest,
        named: None,
    })?;
    let base = desk.height();
    desk.push(Task::Call {
        line,
        method,
        arguments,
        base,
    })?;
    desk.push(Task::Arguments(arguments))
}

fn index_link<'a>(
    desk: &mut Desk<'a>,
    line: u32,
    index: &'a Expr,
    rest: &'a [Link],
) -> Result<(), Memory>
    ensures { OnOk result (stacks_of desk.new ≡ record (stacks_of desk.old) {
      tasks = Task.Evaluate index.entry ∷ Task.Index line ∷ Task.Links rest.entry None ∷ tasks_of desk.old;
    }) }
{
    desk.push(Task::Links {
        links: rest,
        named: None,
    })?;
    desk.evaluate(index, Task::Index { line })
}

fn slice_link<'a>(
    desk: &mut Desk<'a>,
    line: u32,
    lower: &'a Option<Box<Expr>>,
    upper: &'a Option<Box<Expr>>,
    rest: &'a [Link],
) -> Result<(), Memory>
    ensures { OnOk result (HasLeft desk.new (linked_at None
        (cons (slice line (end_tree lower.now) (end_tree upper.now)) (trees (map link_tree rest.now))) desk.old)) }
{
    desk.push(Task::Links {
        links: rest,
        named: None,
    })?;
    desk.push(Task::Slice {
        line,
        from: lower.is_some(),
        to: upper.is_some(),
    })?;
    evaluate_end(desk, upper)?;
    evaluate_end(desk, lower)?;
    Ok(())
}

/// Evaluates an end of a slice, if it is there.
fn evaluate_end<'a>(desk: &mut Desk<'a>, end: &'a Option<Box<Expr>>) -> Result<(), Memory>
    ensures tasks { OnOk result ((vs : List Value) (s : State) →
        left (tasks_of desk.new) vs (goes_on s)
        ≡ after_optional (end_tree end.now) s (λ x s1. left (tasks_of desk.old) (with_end x vs) (goes_on s1))) }
    ensures values { OnOk result (values_of desk.new ≡ values_of desk.old) }
{
    match end {
        Some(end) => desk.push(Task::Evaluate(end)),
        None => Ok(()),
    }
}

/// An attribute of an object, in the object's place. Of any other value it is a method.
fn attribute_link<'a, H: Host>(
    machine: &mut Machine,
    host: &mut H,
    frame: &Frame,
    desk: &mut Desk<'a>,
    line: u32,
    name: &Text,
    rest: &'a [Link],
) -> Result<(), Stop>
    ensures keeps { H.meaning.keeps host.old host.new }
    ensures leads { (c : ℕ) → Leads H.meaning c
        (linked_at None (cons (attribute line name.now) (trees (map link_tree rest.now))) desk.old
        (state_of machine.old frame.now))
        host.old result (left_at desk.new machine.new frame.now) host.new }
{
    match desk.top() {
        Value::Object(object) => {
            let value = attribute(machine, host, frame, line, object, name)?;
            let _object = desk.take();
            desk.give(value)?;
            desk.push(Task::Links {
                links: rest,
                named: Some(line),
            })?;
            Ok(())
        }
        _ => method_link(frame, desk, line, name, rest),
    }
}

/// What an object's attribute is.
fn attribute<H: Host>(
    machine: &mut Machine,
    host: &mut H,
    frame: &Frame,
    line: u32,
    object: HostId,
    name: &Text,
) -> Result<Value, Stop>
    ensures keeps { H.meaning.keeps host.old host.new }
    ensures leads { (c : ℕ) (f : Value → State → Plan) → Gives H.meaning c
        (asked_on line (question.attribute (place_at line (state_of machine.old frame.now)) object.0 name.now)
        (state_of machine.old frame.now) f)
        host.old result f (state_of machine.new frame.now) host.new }
{
    match host.attribute(&mut machine.heap, frame.place(line), object, name.as_str()) {
        Ok(value) => Ok(value),
        Err(refusal) => Err(refused(frame, line, refusal)),
    }
}

/// A method of the uppermost value, which is called at once.
fn method_link<'a>(
    frame: &Frame,
    desk: &mut Desk<'a>,
    line: u32,
    name: &Text,
    links: &'a [Link],
) -> Result<(), Stop>
    ensures { (m : Store) → IsNoObject (top (values_of desk.old)) →
        Steps
        (linked_at None (cons (attribute line name.now) (trees (map link_tree links.now))) desk.old
        (state_by m frame.now))
        result
        (left_in desk.new (state_by m frame.now)) }
{
    let no_method = EvalKind::Value(ValueFault::NoMethod);
    let Some((first, rest)) = links.split_first() else {
        return Err(fault(frame, line, no_method));
    };
    let Link::Call { arguments, .. } = first else {
        return Err(fault(frame, line, no_method));
    };
    let Some(method) = method_named(name.as_str()) else {
        return Err(fault(frame, line, no_method));
    };
    if !has_method(desk.top(), method) {
        return Err(fault(frame, line, no_method));
    }
    call_link(desk, line, Some(method), arguments.as_slice(), rest)?;
    Ok(())
}

/// The item under a key.
pub fn item<H: Host>(
    machine: &mut Machine,
    host: &mut H,
    frame: &Frame,
    line: u32,
    base: Value,
    key: Value,
) -> Result<Value, Stop>
    ensures keeps { H.meaning.keeps host.old host.new }
    ensures leads { (c : ℕ) (f : Value → State → Plan) → Gives H.meaning c
        (after_item line base key (state_of machine.old frame.now) f) host.old result f
        (state_of machine.new frame.now) host.new }
{
    match base {
        Value::Object(object) => match host.index(
            &mut machine.heap,
            frame.place(line),
            object,
            key,
        ) {
            Ok(value) => Ok(value),
            Err(refusal) => Err(refused(frame, line, refusal)),
        },
        _ => match index(&mut machine.heap, &mut machine.budget, base, key) {
            Ok(value) => Ok(value),
            Err(fault) => Err(value_fault(frame, line, fault)),
        },
    }
}

pub fn indexed<H: Host>(
    machine: &mut Machine,
    host: &mut H,
    frame: &Frame,
    desk: &mut Desk<'_>,
    line: u32,
) -> Result<(), Stop>
    ensures keeps { H.meaning.keeps host.old host.new }
    ensures leads { (c : ℕ) → Leads H.meaning c (left_with (Task.Index line) desk.old machine.old frame.now) host.old
        result (left_at desk.new machine.new frame.now) host.new }
{
    let key = desk.take();
    let base = desk.take();
    let value = item(machine, host, frame, line, base, key)?;
    desk.give(value)?;
    Ok(())
}

pub fn sliced(
    machine: &mut Machine,
    frame: &Frame,
    desk: &mut Desk<'_>,
    line: u32,
    from: bool,
    to: bool,
) -> Result<(), Stop>
    ensures { Steps (left_with (Task.Slice line from to) desk.old machine.old frame.now) result
        (left_at desk.new machine.new frame.now) }
{
    let upper = end_of(desk, to);
    let lower = end_of(desk, from);
    let base = desk.take();
    match slice(&mut machine.heap, &mut machine.budget, base, lower, upper) {
        Ok(value) => {
            desk.give(value)?;
            Ok(())
        }
        Err(fault) => Err(value_fault(frame, line, fault)),
    }
}

/// An end of a slice, if it is there.
fn end_of(desk: &mut Desk<'_>, there: bool) -> Option<Value>
    ensures value { result ≡ end_at there (values_of desk.old) }
    ensures left { stacks_of desk.new ≡ record (stacks_of desk.old) { values = past there (values_of desk.old) } }
{
    if there {
        return Some(desk.take());
    }
    None
}
