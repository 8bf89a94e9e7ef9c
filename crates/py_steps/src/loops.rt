//! `for`, `while` and `if`.
ghost use Rattle.std.specs.Prelude.{◌≡◌, ◌≢◌, Ok, Err, IfOk, IfErr, OnOk};
ghost use Rattle.py_meaning.specs.Loops.{shared};
ghost use Rattle.py_meaning.specs.Statements.{with_all_bound};
ghost use Rattle.py_meaning.specs.States as meaning;
ghost use Rattle.py_state.specs.Stores.{state_of, store_of};
ghost use Rattle.py_steps.specs.Leads.{Steps, left_with, left_at, DoesTask};

use crate::desk::Desk;
use crate::task::{Loop, Round, Task};
use py_heap::{Value, ValueFault, Values, truth};
use py_state::{Frame, Machine, Stop, Walk, unpacked, value_fault};
use py_tree::{Branch, Line};
use scons_base::{Memory, Text};

/// What the names of a target take: one name the value itself, several its items.
pub fn shared(machine: &mut Machine, names: &[Text], value: Value) -> Result<Values, ValueFault>
    ensures ok { IfOk result (λ items. shared machine.old.heap names.now value ≡ Ok (items, machine.new.heap)) }
    ensures fault { IfErr result (λ e. e ≢ ValueFault.Memory → shared machine.old.heap names.now value ≡ Err e) }
    ensures keeps { store_of machine.new ≡ record (store_of machine.old) { objects = machine.new.heap } }
{
    if names.len() == 1 {
        return Ok(Values::new(vec![in machine.alloc; value]?));
    }
    unpacked(&mut machine.heap, value, names.len())
}

/// Begins a `for`, whose source is there.
pub fn begin<'a>(
    machine: &Machine,
    frame: &Frame,
    desk: &mut Desk<'a>,
    turns: Loop<'a>,
) -> Result<(), Stop>
    ensures { Steps (left_with (Task.Begin turns.entry) desk.old machine.now frame.now) result
        (left_at desk.new machine.now frame.now) }
{
    let source = desk.take();
    let walk = match Walk::over(&machine.heap, source) {
        Ok(walk) => walk,
        Err(fault) => return Err(value_fault(frame, turns.line, fault)),
    };
    desk.push(Task::Turns { turns, walk })?;
    Ok(())
}

/// A further turn, if there is one.
pub fn turn<'a>(
    machine: &mut Machine,
    frame: &mut Frame,
    desk: &mut Desk<'a>,
    turns: Loop<'a>,
    walk: Walk,
) -> Result<(), Stop>
    ensures { Steps (left_with (Task.Turns turns.entry walk) desk.old machine.old frame.old) result
        (left_at desk.new machine.new frame.new) }
{
    let Some((item, rest)) = walk.next(&mut machine.heap)? else {
        return Ok(());
    };
    machine.pay(frame, turns.line)?;
    desk.push(Task::Turns { turns, walk: rest })?;
    let items = match shared(machine, turns.names, item) {
        Ok(items) => items,
        Err(fault) => return Err(value_fault(frame, turns.line, fault)),
    };
    bind_all(machine, frame, turns.names, items.as_slice())?;
    desk.push(Task::Lines(turns.block))?;
    Ok(())
}

/// The test in front of a turn of a `while`.
pub fn next_round<'a>(desk: &mut Desk<'a>, round: Round<'a>) -> Result<(), Stop>
    ensures { DoesTask (Task.Rounds round.entry) desk.old result desk.new }
{
    desk.evaluate(round.test, Task::Round(round))?;
    Ok(())
}

/// A turn of a `while` whose test is true.
pub fn run_round<'a>(
    machine: &mut Machine,
    frame: &Frame,
    desk: &mut Desk<'a>,
    round: Round<'a>,
) -> Result<(), Stop>
    ensures { Steps (left_with (Task.Round round.entry) desk.old machine.old frame.now) result
        (left_at desk.new machine.new frame.now) }
{
    let test = desk.take();
    if !truth(&machine.heap, test) {
        return Ok(());
    }
    machine.pay(frame, round.line)?;
    desk.push(Task::Rounds(round))?;
    desk.push(Task::Lines(round.block))?;
    Ok(())
}

/// Binds names to values in turn.
pub fn bind_all(
    machine: &mut Machine,
    frame: &mut Frame,
    names: &[Text],
    values: &[Value],
) -> Result<(), Memory>
    ensures { OnOk result (state_of machine.new frame.new
        ≡ with_all_bound (state_of machine.old frame.old) names.now values.now) }
{
    'names: for (place, name) in names.iter().enumerate() {
        let Some(value) = values.get(place) else {
            return Ok(());
        };
        machine.bind(frame, name, *value)?;
    }
    Ok(())
}

/// The test of the next branch, or the lines below `else`.
pub fn next_branch<'a>(
    desk: &mut Desk<'a>,
    branches: &'a [Branch],
    otherwise: &'a [Line],
) -> Result<(), Stop>
    ensures { DoesTask (Task.Branches branches.entry otherwise.entry) desk.old result desk.new }
{
    let Some((branch, rest)) = branches.split_first() else {
        return Ok(desk.push(Task::Lines(otherwise))?);
    };
    desk.evaluate(
        &branch.test,
        Task::Choose {
            branch,
            branches: rest,
            otherwise,
        },
    )?;
    Ok(())
}

/// The lines of a branch whose test is true, or the next one.
pub fn choose<'a>(
    machine: &Machine,
    desk: &mut Desk<'a>,
    branch: &'a Branch,
    branches: &'a [Branch],
    otherwise: &'a [Line],
) -> Result<(), Stop>
    ensures { (f : meaning.Frame) →
        Steps (left_with (Task.Choose branch.entry branches.entry otherwise.entry) desk.old machine.now f) result
        (left_at desk.new machine.now f) }
{
    let test = desk.take();
    if truth(&machine.heap, test) {
        return Ok(desk.push(Task::Lines(branch.block.as_slice()))?);
    }
    desk.push(Task::Branches {
        branches,
        otherwise,
    })?;
    Ok(())
}
