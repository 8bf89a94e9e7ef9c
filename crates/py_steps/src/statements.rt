//! Lines and statements.
ghost use Rattle.std.specs.Prelude.{◌≡◌, ◌∷◌, ℕ, Ok, Err, IfOk, OnOk, IfErr, map};
ghost use Rattle.py_tree.specs.Tree.{Tree, cons, trees, words, line_tree, branch_tree, simple_tree, expr_tree};
ghost use Rattle.py_tree.specs.Tree.{optional_tree, parameter_tree, branching, for', while', def, assign, augment};
ghost use Rattle.py_tree.specs.Tree.{expression, return};
ghost use Rattle.py_heap.specs.declared.fault.ValueFault.{ValueFault};
ghost use Rattle.py_heap.specs.Units.{charged};
ghost use Rattle.py_meaning.specs.Arguments.{parameters_by};
ghost use Rattle.py_meaning.specs.Lines.{first_line};
ghost use Rattle.py_meaning.specs.Statements.{statement};
ghost use Rattle.py_state.specs.Stores.{state_of, store_of};
ghost use Rattle.py_state.specs.Stops.{value_stop};
ghost use Rattle.py_steps.specs.Todos.{parameters_in};
ghost use Rattle.py_steps.specs.Leads.{Steps, StepsOrReturns, left_with, left_at, exec_at, Executes};

use crate::assignments::augment;
use crate::desk::Desk;
use crate::task::{Definition, Loop, Round, Task};
use py_heap::Value;
use py_state::{Bindable, Frame, Function, Machine, Stop, bindable, first_line, local_names};
use py_tree::{Branch, Expr, Line, Operator, Parameter, Simple};
use scons_base::Memory;
use std::alloc::Global;

/// The first of some lines, and then the others. Each costs a unit, and so does each statement of a simple one.
pub fn run_lines<'a>(
    machine: &mut Machine,
    frame: &Frame,
    desk: &mut Desk<'a>,
    lines: &'a [Line],
) -> Result<(), Stop>
    ensures { Steps (left_with (Task.Lines lines.entry) desk.old machine.old frame.now) result
        (left_at desk.new machine.new frame.now) }
{
    let Some((line, rest)) = lines.split_first() else {
        return Ok(());
    };
    desk.push(Task::Lines(rest))?;
    run_line(machine, frame, desk, line)
}

fn run_line<'a>(
    machine: &mut Machine,
    frame: &Frame,
    desk: &mut Desk<'a>,
    line: &'a Line,
) -> Result<(), Stop>
    ensures { Steps (exec_at (line_tree line.now) desk.old (state_of machine.old frame.now)) result
        (left_at desk.new machine.new frame.now) }
{
    match line {
        Line::Simple { statements } => { Ok(desk.push(Task::Statements(statements.as_slice()))?) }
        Line::If {
            branches,
            otherwise,
        } => run_if(
            machine,
            frame,
            desk,
            branches.as_slice(),
            otherwise.as_slice(),
        ),
        Line::For {
            line,
            names,
            source,
            block,
        } => {
            let turns = Loop {
                line: *line,
                names: names.as_slice(),
                block: block.as_slice(),
            };
            run_for(machine, frame, desk, turns, source)
        }
        Line::While { line, test, block } => {
            let round = Round {
                line: *line,
                test,
                block: block.as_slice(),
            };
            run_while(machine, frame, desk, round)
        }
        Line::Def {
            line,
            name,
            parameters,
            block,
        } => {
            let definition = Definition {
                name,
                parameters: parameters.as_slice(),
                block,
            };
            run_def(machine, frame, desk, *line, definition)
        }
    }
}

fn run_if<'a>(
    machine: &mut Machine,
    frame: &Frame,
    desk: &mut Desk<'a>,
    branches: &'a [Branch],
    otherwise: &'a [Line],
) -> Result<(), Stop>
    ensures { Steps
        (exec_at (branching (trees (map branch_tree branches.now)) (trees (map line_tree otherwise.now))) desk.old
        (state_of machine.old frame.now))
        result
        (left_at desk.new machine.new frame.now) }
{
    machine.pay(frame, branches_line(branches))?;
    desk.push(Task::Branches {
        branches,
        otherwise,
    })?;
    Ok(())
}

/// The line of an `if`: that of its first branch.
fn branches_line(branches: &[Branch]) -> u32
    ensures { (ls : Tree) → first_line (branching (trees (map branch_tree branches.now)) ls) ≡ result }
{
    let Some((branch, _)) = branches.split_first() else {
        return 0;
    };
    branch.line
}

fn run_for<'a>(
    machine: &mut Machine,
    frame: &Frame,
    desk: &mut Desk<'a>,
    turns: Loop<'a>,
    source: &'a Expr,
) -> Result<(), Stop>
    ensures { Steps
        (exec_at
        (for' turns.entry.line (words turns.entry.names.now) (expr_tree source.now)
        (trees (map line_tree turns.entry.block.now)))
        desk.old (state_of machine.old frame.now))
        result
        (left_at desk.new machine.new frame.now) }
{
    machine.pay(frame, turns.line)?;
    desk.evaluate(source, Task::Begin(turns))?;
    Ok(())
}

fn run_while<'a>(
    machine: &mut Machine,
    frame: &Frame,
    desk: &mut Desk<'a>,
    round: Round<'a>,
) -> Result<(), Stop>
    ensures { Steps
        (exec_at (while' round.entry.line (expr_tree round.entry.test.now) (trees (map line_tree round.entry.block.now)))
        desk.old (state_of machine.old frame.now))
        result
        (left_at desk.new machine.new frame.now) }
{
    machine.pay(frame, round.line)?;
    desk.push(Task::Rounds(round))?;
    Ok(())
}

fn run_def<'a>(
    machine: &mut Machine,
    frame: &Frame,
    desk: &mut Desk<'a>,
    line: u32,
    definition: Definition<'a>,
) -> Result<(), Stop>
    ensures { Steps
        (exec_at
        (def line definition.entry.name.now (parameters_in definition.entry)
        (trees (map line_tree definition.entry.block.now.value.items)))
        desk.old (state_of machine.old frame.now))
        result
        (left_at desk.new machine.new frame.now) }
{
    machine.pay(frame, line)?;
    let base = desk.height();
    desk.push(Task::Define { definition, base })?;
    desk.push(Task::Defaults(definition.parameters))?;
    Ok(())
}

/// What a statement does to the body that it is in.
#[derive(Clone, Copy, PartialEq, Eq)]
pub enum Flow {
    GoesOn,
    Returns(Value),
}

/// The first of some statements, and then the others.
pub fn run_statements<'a>(
    machine: &mut Machine,
    frame: &Frame,
    desk: &mut Desk<'a>,
    statements: &'a [Simple],
) -> Result<Flow, Stop>
    ensures { StepsOrReturns (left_with (Task.Statements statements.entry) desk.old machine.old frame.now) result
        (left_at desk.new machine.new frame.now) (state_of machine.new frame.now) }
{
    let Some((statement, rest)) = statements.split_first() else {
        return Ok(Flow::GoesOn);
    };
    desk.push(Task::Statements(rest))?;
    pay_for(machine, frame, statement)?;
    run_statement(desk, statement)
}

/// One unit for a statement. On which line it begins is of use only where there is none.
fn pay_for(machine: &mut Machine, frame: &Frame, statement: &Simple) -> Result<(), Stop>
    ensures ok { OnOk result (charged machine.old.budget 1 ≡ Ok machine.new.budget) }
    ensures paid { store_of machine.new ≡ record (store_of machine.old) { units = machine.new.budget } }
    ensures fault { IfErr result (λ stop. (e : ValueFault) × (charged machine.old.budget 1 ≡ Err e)
        × (stop ≡ value_stop frame.now.script (first_line (simple_tree statement.now)) e)) }
{
    if machine.budget.charge(1).is_ok() {
        return Ok(());
    }
    machine.pay(frame, first_line(statement))
}

fn run_statement<'a>(desk: &mut Desk<'a>, simple: &'a Simple) -> Result<Flow, Stop>
    ensures { Executes (simple_tree simple.now) desk.old result desk.new }
{
    match simple {
        Simple::Assign {
            line,
            target,
            value,
        } => run_assign(desk, *line, target, value),
        Simple::Augment {
            line,
            operator,
            target,
            value,
        } => {
            augment(desk, *line, *operator, target, value)?;
            Ok(Flow::GoesOn)
        }
        Simple::Expression { value } => run_expression(desk, value),
        Simple::Pass { .. } | Simple::ImportScons { .. } => Ok(Flow::GoesOn),
        Simple::Break { .. } => {
            desk.break_loop();
            Ok(Flow::GoesOn)
        }
        Simple::Continue { .. } => {
            desk.continue_loop();
            Ok(Flow::GoesOn)
        }
        Simple::Return { value, .. } => run_return(desk, value),
    }
}

fn run_assign<'a>(
    desk: &mut Desk<'a>,
    line: u32,
    target: &'a Expr,
    value: &'a Expr,
) -> Result<Flow, Stop>
    ensures { Executes (assign line (expr_tree target.now) (expr_tree value.now)) desk.old result desk.new }
{
    desk.evaluate(value, Task::Assign { line, target })?;
    Ok(Flow::GoesOn)
}

fn run_expression<'a>(desk: &mut Desk<'a>, value: &'a Expr) -> Result<Flow, Stop>
    ensures { Executes (expression (expr_tree value.now)) desk.old result desk.new }
{
    desk.evaluate(value, Task::Forget)?;
    Ok(Flow::GoesOn)
}

fn run_return<'a>(desk: &mut Desk<'a>, value: &'a Option<Expr>) -> Result<Flow, Stop>
    ensures { (l : ℕ) → Executes (return l (optional_tree value.now)) desk.old result desk.new }
{
    let Some(value) = value else {
        return Ok(Flow::Returns(Value::Nil));
    };
    desk.evaluate(value, Task::Return)?;
    Ok(Flow::GoesOn)
}

/// Makes a function, whose defaults are the uppermost values, and binds its name.
pub fn define(
    machine: &mut Machine,
    frame: &mut Frame,
    desk: &mut Desk<'_>,
    definition: Definition<'_>,
    base: usize,
) -> Result<(), Stop>
    ensures { Steps (left_with (Task.Define definition.entry base) desk.old machine.old frame.old) result
        (left_at desk.new machine.new frame.new) }
{
    let values = desk.take_above(base)?;
    let parameters = parameters_by(machine.alloc, definition.parameters, values.as_slice())?;
    let locals = local_names(
        machine.alloc,
        definition.parameters,
        definition.block.as_slice(),
    )?;
    let value = machine.add_function(Function {
        script: frame.script,
        parameters,
        locals,
        body: definition.block.clone()?,
        name: definition.name.copy()?,
    })?;
    machine.bind(frame, definition.name, value)?;
    Ok(())
}

/// The parameters, with the values of those defaults that stand there.
fn parameters_by(
    alloc: Global,
    parameters: &[Parameter],
    values: &[Value],
) -> Result<Vec<Bindable>, Memory>
    ensures { IfOk result (λ made. made.items ≡ parameters_by (trees (map parameter_tree parameters.now)) values.now) }
{
    let mut made = Vec::new(alloc);
    let mut left = values;
    'parameters: for parameter in parameters {
        let (default, rest) = default_of(parameter, left);
        made.push(bindable(&parameter.name, default)?)?;
        left = rest;
    }
    Ok(made)
}

/// The default of a parameter, and the values behind it.
fn default_of<'a>(parameter: &Parameter, values: &'a [Value]) -> (Option<Value>, &'a [Value])
    ensures { (ps : Tree) → parameters_by (cons (parameter_tree parameter.now) ps) values.now
        ≡ record { name = parameter.now.name; default = result.0 } ∷ parameters_by ps result.1.now }
{
    if parameter.default.is_none() {
        return (None, values);
    }
    match values.split_first() {
        Some((first, rest)) => (Some(*first), rest),
        None => (None, values),
    }
}
