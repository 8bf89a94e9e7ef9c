//! Which names are local in a function.
ghost use Rattle.std.specs.Prelude.{◌≡◌, IfOk, OnOk, map};
ghost use Rattle.py_tree.specs.Tree.{trees, expr_tree, simple_tree, line_tree, branch_tree, parameter_tree, words};
ghost use Rattle.py_meaning.specs.LocalNames.{with_local, target_names, bound_names, local_names};

use indexmap::IndexSet;
use py_tree::{Branch, Expr, Line, Parameter, Simple};
use scons_base::{Memory, Text};
use std::alloc::Global;

/// The local names of a function with these parameters and this body.
pub fn local_names(
    alloc: Global,
    parameters: &[Parameter],
    body: &[Line],
) -> Result<IndexSet<Text>, Memory>
    ensures { IfOk result (λ names.
        names.keys ≡ local_names (trees (map parameter_tree parameters.now)) (trees (map line_tree body.now))) }
{
    let mut names = IndexSet::new(alloc);
    'parameters: for parameter in parameters {
        add(&mut names, &parameter.name)?;
    }
    add_lines(&mut names, body)?;
    Ok(names)
}

fn add(names: &mut IndexSet<Text>, name: &Text) -> Result<(), Memory>
    ensures { OnOk result (names.new.keys ≡ with_local names.old.keys name.now) }
{
    if !names.contains(name) {
        names.insert(name.copy()?)?;
    }
    Ok(())
}

#[cycle(local_names)]
#[tactic(auto, using(crate::proofs::Trees::views))]
fn add_lines(names: &mut IndexSet<Text>, lines: &[Line]) -> Result<(), Memory>
    ensures { OnOk result (names.new.keys ≡ bound_names names.old.keys (trees (map line_tree lines.now))) }
{
    'lines: for line in lines {
        add_line(names, line)?;
    }
    Ok(())
}

/// The names that a line binds.
#[cycle(local_names)]
#[tactic(auto, using(crate::proofs::Trees::views))]
fn add_line(names: &mut IndexSet<Text>, line: &Line) -> Result<(), Memory>
    ensures { OnOk result (names.new.keys ≡ bound_names names.old.keys (line_tree line.now)) }
{
    match line {
        Line::Simple { statements } => add_statements(names, statements.as_slice()),
        Line::If {
            branches,
            otherwise,
        } => {
            add_branches(names, branches.as_slice())?;
            add_lines(names, otherwise.as_slice())
        }
        Line::For {
            names: bound,
            block,
            ..
        } => {
            add_all(names, bound.as_slice())?;
            add_lines(names, block.as_slice())
        }
        Line::While { block, .. } => add_lines(names, block.as_slice()),
        Line::Def { name, .. } => add(names, name),
    }
}

#[cycle(local_names)]
#[tactic(auto, using(crate::proofs::Trees::views))]
fn add_branches(names: &mut IndexSet<Text>, branches: &[Branch]) -> Result<(), Memory>
    ensures { OnOk result (names.new.keys ≡ bound_names names.old.keys (trees (map branch_tree branches.now))) }
{
    'branches: for branch in branches {
        add_lines(names, branch.block.as_slice())?;
    }
    Ok(())
}

fn add_all(names: &mut IndexSet<Text>, bound: &[Text]) -> Result<(), Memory>
    ensures { OnOk result (names.new.keys ≡ target_names names.old.keys (words bound.now)) }
{
    'names: for name in bound {
        add(names, name)?;
    }
    Ok(())
}

#[tactic(auto, using(crate::proofs::Trees::views))]
fn add_statements(names: &mut IndexSet<Text>, statements: &[Simple]) -> Result<(), Memory>
    ensures { OnOk result (names.new.keys ≡ bound_names names.old.keys (trees (map simple_tree statements.now))) }
{
    'statements: for statement in statements {
        add_statement(names, statement)?;
    }
    Ok(())
}

#[tactic(auto, using(crate::proofs::Trees::views))]
fn add_statement(names: &mut IndexSet<Text>, statement: &Simple) -> Result<(), Memory>
    ensures { OnOk result (names.new.keys ≡ bound_names names.old.keys (simple_tree statement.now)) }
{
    match statement {
        Simple::Assign { target, .. } => add_target(names, target),
        Simple::Augment { target, .. } => add_target(names, target),
        _ => Ok(()),
    }
}

/// The names that a target binds.
#[cycle(targets)]
#[tactic(auto, using(crate::proofs::Trees::views))]
fn add_target(names: &mut IndexSet<Text>, target: &Expr) -> Result<(), Memory>
    ensures { OnOk result (names.new.keys ≡ target_names names.old.keys (expr_tree target.now)) }
{
    match target {
        Expr::Name { name, .. } => add(names, name),
        Expr::Tuple { items, .. } => add_targets(names, items.as_slice()),
        _ => Ok(()),
    }
}

#[cycle(targets)]
#[tactic(auto, using(crate::proofs::Trees::views))]
fn add_targets(names: &mut IndexSet<Text>, targets: &[Expr]) -> Result<(), Memory>
    ensures { OnOk result (names.new.keys ≡ target_names names.old.keys (trees (map expr_tree targets.now))) }
{
    'targets: for target in targets {
        add_target(names, target)?;
    }
    Ok(())
}
