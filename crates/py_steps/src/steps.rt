//! A task, by its kind.
ghost use Rattle.std.specs.Prelude.{◌≡◌, ◌≤◌, ℕ};
ghost use Rattle.py_state.specs.Stores.{state_of};
ghost use Rattle.py_steps.specs.Todos.{IsStep};
ghost use Rattle.py_steps.specs.Leads.{Flows, Steps, going, left_with, left_at, DoesTask};

use crate::assignments::{assign, combine, load, store_above, store_below};
use crate::comprehensions::{collect, comprehend, test, tested};
use crate::desk::Desk;
use crate::expressions::{
    Shape, display, evaluate, evaluate_all, evaluate_arguments, evaluate_defaults, evaluate_pairs,
    negated, operated, operations, pick, turned,
};
use crate::links::{indexed, link, sliced};
use crate::loops::{begin, choose, next_branch, next_round, run_round, turn};
use crate::statements::{Flow, define, run_lines, run_statements};
use crate::task::Task;
use crate::texts::{evaluate_fields, join, show_field};
use py_host::Host;
use py_state::{Frame, Machine, Stop};
use scons_base::Text;

/// Does a task in which nothing is called.
pub fn step<'a, H: Host>(
    machine: &mut Machine,
    host: &mut H,
    frame: &mut Frame,
    desk: &mut Desk<'a>,
    task: Task<'a>,
) -> Result<Flow, Stop>
    requires step { IsStep task }
    ensures keeps { H.meaning.keeps host.old host.new }
    ensures flows { (c : ℕ) → Flows H.meaning c (left_with task.entry desk.old machine.old frame.old) host.old result
        (left_at desk.new machine.new frame.new) host.new (state_of machine.new frame.new) }
{
    match task {
        Task::Statements(statements) => run_statements(machine, frame, desk, statements),
        Task::Return => Ok(Flow::Returns(desk.take())),
        Task::Evaluate(expr) => on(evaluate(machine, host, frame, desk, expr)),
        Task::EvaluateAll(exprs) => on(evaluate_all(desk, exprs)),
        Task::Pairs(pairs) => on(evaluate_pairs(desk, pairs)),
        Task::Arguments(arguments) => on(evaluate_arguments(desk, arguments)),
        Task::Defaults(parameters) => on(evaluate_defaults(desk, parameters)),
        Task::Fields(pieces) => on(evaluate_fields(desk, pieces)),
        Task::Show { line } => on(show_field(machine, frame, desk, line)),
        Task::Join { line, pieces, base } => on(join(machine, frame, desk, line, pieces, base)),
        Task::Pick { value, other } => on(pick(machine, desk, value, other)),
        Task::Tuple { line, base } => on(display(machine, frame, desk, line, base, Shape::Tuple)),
        Task::List { line, base } => on(display(machine, frame, desk, line, base, Shape::List)),
        Task::Dict { line, base } => on(display(machine, frame, desk, line, base, Shape::Dict)),
        Task::Negate { line } => on(negated(machine, frame, desk, line)),
        Task::Not => on(turned(machine, desk)),
        Task::Binary { line, op } => on(operated(machine, frame, desk, line, op)),
        Task::Operations(rest) => on(operations(machine, desk, rest)),
        Task::Links { links, named } => on(link(machine, host, frame, desk, links, named)),
        Task::Index { line } => on(indexed(machine, host, frame, desk, line)),
        Task::Slice { line, from, to } => on(sliced(machine, frame, desk, line, from, to)),
        Task::Comprehend(comprehension) => on(comprehend(machine, frame, desk, comprehension)),
        Task::Collect(collecting) => on(collect(machine, frame, desk, collecting)),
        Task::Tests { collecting, tests } => on(test(machine, frame, desk, collecting, tests)),
        Task::Tested { collecting, tests } => on(tested(machine, desk, collecting, tests)),
        Task::Lines(lines) => on(run_lines(machine, frame, desk, lines)),
        Task::Forget => on(forget(desk)),
        Task::Branches {
            branches,
            otherwise,
        } => on(next_branch(desk, branches, otherwise)),
        Task::Choose {
            branch,
            branches,
            otherwise,
        } => on(choose(machine, desk, branch, branches, otherwise)),
        Task::Begin(turns) => on(begin(machine, frame, desk, turns)),
        Task::Turns { turns, walk } => on(turn(machine, frame, desk, turns, walk)),
        Task::Rounds(round) => on(next_round(desk, round)),
        Task::Round(round) => on(run_round(machine, frame, desk, round)),
        Task::Define { definition, base } => on(define(machine, frame, desk, definition, base)),
        Task::Assign { line, target } => on(assign(machine, frame, desk, line, target)),
        Task::Bind(name) => on(bind(machine, frame, desk, name)),
        Task::Load { line } => on(load(machine, host, frame, desk, line)),
        Task::Augment { line, operator } => on(combine(machine, frame, desk, line, operator)),
        Task::StoreBelow { line } => on(store_below(machine, host, frame, desk, line)),
        Task::StoreAbove { line } => on(store_above(machine, host, frame, desk, line)),
        Task::Call { .. } => unreachable!(),
    }
}

/// After a step of this kind the body goes on.
fn on(outcome: Result<(), Stop>) -> Result<Flow, Stop>
    ensures { result ≡ going outcome }
{
    match outcome {
        Ok(()) => Ok(Flow::GoesOn),
        Err(stop) => Err(stop),
    }
}

/// The value of an expression is of no use.
fn forget(desk: &mut Desk<'_>) -> Result<(), Stop>
    ensures { DoesTask Task.Forget desk.old result desk.new }
{
    let _value = desk.take();
    Ok(())
}

fn bind<'a>(
    machine: &mut Machine,
    frame: &mut Frame,
    desk: &mut Desk<'a>,
    name: &'a Text,
) -> Result<(), Stop>
    ensures { Steps (left_with (Task.Bind name.entry) desk.old machine.old frame.old) result
        (left_at desk.new machine.new frame.new) }
{
    let value = desk.take();
    machine.bind(frame, name, value)?;
    Ok(())
}
