//! Comprehensions.
ghost use Rattle.std.specs.Prelude.{◌≡◌, ◌+◌, ◌∷◌, OnOk};
ghost use Rattle.py_meaning.specs.States as meaning;
ghost use Rattle.py_meaning.specs.States.{State, with_frame};
ghost use Rattle.py_meaning.specs.Expressions.{with_inners};
ghost use Rattle.py_state.specs.Stores.{state_of};
ghost use Rattle.py_steps.specs.Desks.{stacks_of, tasks_of, values_of};
ghost use Rattle.py_steps.specs.Todos.{left, list_on};
ghost use Rattle.py_steps.specs.Leads.{Steps, left_with, left_at};

use crate::desk::Desk;
use crate::expressions::{Shape, display};
use crate::loops::shared;
use crate::task::{Collecting, Comprehension, Task};
use py_heap::{Value, truth};
use py_state::{Frame, Machine, Stop, Walk, value_fault};
use py_tree::Expr;
use scons_base::{Memory, Text};

/// Begins a comprehension, whose source is there. Its names are its own.
pub fn comprehend<'a>(
    machine: &Machine,
    frame: &mut Frame,
    desk: &mut Desk<'a>,
    comprehension: Comprehension<'a>,
) -> Result<(), Stop>
    ensures { Steps (left_with (Task.Comprehend comprehension.entry) desk.old machine.now frame.old) result
        (left_at desk.new machine.now frame.new) }
{
    let source = desk.take();
    let walk = match Walk::over(&machine.heap, source) {
        Ok(walk) => walk,
        Err(fault) => return Err(value_fault(frame, comprehension.line, fault)),
    };
    frame.open(machine.alloc)?;
    desk.push(Task::Collect(Collecting {
        comprehension,
        walk,
        count: 0,
    }))?;
    Ok(())
}

/// A further turn, or the list of the items.
pub fn collect<'a>(
    machine: &mut Machine,
    frame: &mut Frame,
    desk: &mut Desk<'a>,
    collecting: Collecting<'a>,
) -> Result<(), Stop>
    ensures { Steps (left_with (Task.Collect collecting.entry) desk.old machine.old frame.old) result
        (left_at desk.new machine.new frame.new) }
{
    let Some((item, rest)) = collecting.walk.next(&mut machine.heap)? else {
        return collected(machine, frame, desk, collecting);
    };
    let comprehension = collecting.comprehension;
    machine.pay(frame, comprehension.line)?;
    let items = match shared(machine, comprehension.names, item) {
        Ok(items) => items,
        Err(fault) => return Err(value_fault(frame, comprehension.line, fault)),
    };
    bind_inner_all(frame, comprehension.names, items.as_slice())?;
    desk.push(Task::Tests {
        collecting: Collecting {
            comprehension,
            walk: rest,
            count: collecting.count,
        },
        tests: comprehension.tests,
    })?;
    Ok(())
}

/// The list of the items, which the names outside see.
fn collected<'a>(
    machine: &mut Machine,
    frame: &mut Frame,
    desk: &mut Desk<'a>,
    collecting: Collecting<'a>,
) -> Result<(), Stop>
    ensures { Steps (list_on collecting.entry (values_of desk.old) (state_of machine.old frame.old)
        (left (tasks_of desk.old))) result (left_at desk.new machine.new frame.new) }
{
    frame.close();
    let base = desk.height().saturating_sub(collecting.count);
    display(
        machine,
        frame,
        desk,
        collecting.comprehension.line,
        base,
        Shape::List,
    )
}

/// Binds names of the innermost comprehension to values in turn.
fn bind_inner_all(frame: &mut Frame, names: &[Text], values: &[Value]) -> Result<(), Memory>
    ensures { OnOk result ((s : State) → with_frame s frame.new
        ≡ with_inners (with_frame s frame.old) names.now values.now) }
{
    'names: for (place, name) in names.iter().enumerate() {
        let Some(value) = values.get(place) else {
            return Ok(());
        };
        frame.bind_inner(name, *value)?;
    }
    Ok(())
}

/// The tests that are left, and then the item.
pub fn test<'a>(
    machine: &mut Machine,
    frame: &Frame,
    desk: &mut Desk<'a>,
    collecting: Collecting<'a>,
    tests: &'a [Expr],
) -> Result<(), Stop>
    ensures { Steps (left_with (Task.Tests collecting.entry tests.entry) desk.old machine.old frame.now) result
        (left_at desk.new machine.new frame.now) }
{
    let Some((first, rest)) = tests.split_first() else {
        return Ok(push_item(desk, collecting)?);
    };
    machine.pay(frame, collecting.comprehension.line)?;
    desk.evaluate(
        first,
        Task::Tested {
            collecting,
            tests: rest,
        },
    )?;
    Ok(())
}

/// The item, and then the next turn.
fn push_item<'a>(desk: &mut Desk<'a>, collecting: Collecting<'a>) -> Result<(), Memory>
    ensures { OnOk result (stacks_of desk.new ≡ record (stacks_of desk.old) {
      tasks = Task.Evaluate collecting.entry.comprehension.item
          ∷ Task.Collect (record collecting.entry { count = collecting.entry.count + 1 })
          ∷ tasks_of desk.old;
    }) }
{
    let Some(count) = collecting.count.checked_add(1) else {
        return Err(Memory);
    };
    desk.evaluate(
        collecting.comprehension.item,
        Task::Collect(Collecting {
            comprehension: collecting.comprehension,
            walk: collecting.walk,
            count,
        }),
    )
}

/// Goes on by the value of a test.
pub fn tested<'a>(
    machine: &Machine,
    desk: &mut Desk<'a>,
    collecting: Collecting<'a>,
    tests: &'a [Expr],
) -> Result<(), Stop>
    ensures { (f : meaning.Frame) → Steps (left_with (Task.Tested collecting.entry tests.entry) desk.old machine.now f)
        result (left_at desk.new machine.now f) }
{
    let value = desk.take();
    if truth(&machine.heap, value) {
        return Ok(desk.push(Task::Tests { collecting, tests })?);
    }
    desk.push(Task::Collect(collecting))?;
    Ok(())
}
