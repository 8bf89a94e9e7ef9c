//! Arguments and parameters.
ghost use Rattle.std.specs.Prelude.{◌≡◌, IfOk, OnOk, map, slice_get};
ghost use Rattle.py_host.specs.Names.{value_of};
ghost use Rattle.py_host.specs.Calls.{arguments_of};
ghost use Rattle.py_tree.specs.Tree.{trees, argument_tree};
ghost use Rattle.py_meaning.specs.Arguments.{with_argument, arguments_by, bound};
ghost use Rattle.py_state.specs.Arguments.{taken_value, all_set};

use crate::function::{Bindable, Function};
use py_heap::Value;
use py_host::{Args, Scope};
use py_tree::Argument;
use scons_base::{Memory, Text};
use std::alloc::Global;

/// The arguments that stand in a call, with their values.
pub fn arguments_by(alloc: Global, arguments: &[Argument], values: &[Value]) -> Result<Args, Memory>
    ensures { IfOk result (λ args.
        arguments_of args ≡ arguments_by (trees (map argument_tree arguments.now)) values.now) }
{
    let mut args = Args {
        positional: Vec::new(alloc),
        named: Scope::new(alloc),
    };
    'arguments: for (place, argument) in arguments.iter().enumerate() {
        let Some(value) = values.get(place) else {
            return Ok(args);
        };
        add_argument(&mut args, argument, *value)?;
    }
    Ok(args)
}

#[tactic(auto, using(crate::proofs::Trees::views))]
fn add_argument(args: &mut Args, argument: &Argument, value: Value) -> Result<(), Memory>
    ensures { OnOk result (arguments_of args.new ≡ with_argument (arguments_of args.old) (argument_tree argument.now)
        value) }
{
    match argument {
        Argument::Positional { .. } => args.positional.push(value)?,
        Argument::Named { name, .. } => args.named.set(name.copy()?, value)?,
    }
    Ok(())
}

/// The names that a call of a function sets, where its arguments fit the parameters.
pub fn bound(alloc: Global, function: &Function, args: &Args) -> Result<Option<Scope>, Memory>
    ensures { IfOk result (λ names. names ≡ bound function.now.parameters.items (arguments_of args.now)) }
{
    let parameters = function.parameters.as_slice();
    let positional = args.positional.as_slice();
    if parameters.len() < positional.len() {
        return Ok(None);
    }
    let mut names = Scope::new(alloc);
    'parameters: for (place, parameter) in parameters.iter().enumerate() {
        let Some(value) = taken_value(parameter, value_at(positional, place), &args.named) else {
            return Ok(None);
        };
        names.set(parameter.name.copy()?, value)?;
    }
    if !all_set(&names, &args.named) {
        return Ok(None);
    }
    Ok(Some(names))
}

fn value_at(values: &[Value], place: usize) -> Option<Value>
    ensures { result ≡ slice_get values.now place }
{
    values.get(place).copied()
}

/// The value that a parameter takes, where it takes one: a positional argument, one by its name, or its default.
fn taken_value(parameter: &Bindable, positional: Option<Value>, named: &Scope) -> Option<Value>
    ensures { result ≡ taken_value positional (value_of named.now parameter.now.name) parameter.now.default }
{
    match (positional, named.get(parameter.name.as_str())) {
        (Some(_), Some(_)) => None,
        (Some(value), None) => Some(value),
        (None, Some(value)) => Some(value),
        (None, None) => parameter.default,
    }
}

/// Whether each argument by name has its name among those that were set.
fn all_set(names: &Scope, named: &Scope) -> bool
    ensures { result ≡ all_set names.now named.now }
{
    'places: for place in 0..named.len() {
        if let Some((name, _)) = named.at(place) {
            if names.get(name).is_none() {
                return false;
            }
        }
    }
    true
}

/// A parameter, with the value of its default.
pub fn bindable(name: &Text, default: Option<Value>) -> Result<Bindable, Memory>
    ensures { IfOk result (λ p. p ≡ record { name = name.now; default = default }) }
{
    Ok(Bindable {
        name: name.copy()?,
        default,
    })
}
