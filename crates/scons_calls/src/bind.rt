//! Which argument of a call each parameter of a signature gets.
ghost use Rattle.std.specs.Prelude.{◌≡◌, ◌≢◌, Ok, Err, IfOk, IfErr, OnOk, map, position};
ghost use Rattle.std.specs.Str.{bytes_eq};
ghost use Rattle.py_host.specs.Calls.{arguments_of};
ghost use Rattle.scons_calls.specs.Binding.{place_of, name_fits, names_fit, other_fits, is_left_out, is_needed, takes_all, last_takes_all, value_at, goes_past, is_given, needed_stand, numbers_fit};
ghost use Rattle.scons_calls.specs.Signatures.{parameter_of};
ghost use Rattle.scons_calls.specs.Binding.{may_be_none, is_other, is_nil, some_by, given_by, argument_by, arguments_by, bound_by};

use crate::argument::Argument;
use crate::arguments::Arguments;
use crate::convert::converted;
use crate::fault::{CallFault, left_out};
use crate::left_out::is_among;
use crate::objects::Objects;
use crate::signature::{Kind, Others, Parameter, Signature, Takes};
use py_heap::{Heap, Value};
use py_host::Args;
use std::alloc::Global;

/// The arguments of a call by a signature.
#[tactic(auto, using(crate::proofs::Tails::tails))]
pub fn bound(
    heap: &Heap,
    objects: &Objects,
    signature: &Signature,
    args: &Args,
) -> Result<Arguments, CallFault>
    ensures ok { let given = arguments_of args.now in
        IfOk result (λ bound. bound_by heap.now objects.now signature.now given ≡ Ok bound) }
    ensures fault { let given = arguments_of args.now in
        IfErr result (λ e. e ≢ CallFault.Memory → bound_by heap.now objects.now signature.now given ≡ Err e) }
{
    test_names(heap.allocator(), signature, args)?;
    test_numbers(signature.parameters, args)?;
    arguments(heap, objects, signature.parameters, args)
}

/// The argument of each parameter.
#[tactic(auto, using(crate::proofs::Loops::loops))]
fn arguments(
    heap: &Heap,
    objects: &Objects,
    parameters: &[Parameter],
    args: &Args,
) -> Result<Arguments, CallFault>
    ensures ok { let given = arguments_of args.now in
        IfOk result (λ bound. arguments_by heap.now objects.now given (map parameter_of parameters.now) ≡ Ok bound) }
    ensures fault { let given = arguments_of args.now in
        IfErr result (λ e. e ≢ CallFault.Memory →
        arguments_by heap.now objects.now given (map parameter_of parameters.now) ≡ Err e) }
{
    let mut arguments = Arguments::new(heap.allocator());
    for (place, parameter) in parameters.iter().enumerate() {
        arguments.push(argument(heap, objects, parameter, place, args)?)?;
    }
    Ok(arguments)
}

/// Whether each named argument is one that the name takes, and isn't given by its place too.
#[tactic(auto, using(crate::proofs::Loops::loops))]
fn test_names(alloc: Global, signature: &Signature, args: &Args) -> Result<(), CallFault>
    ensures ok { OnOk result (names_fit signature.now (arguments_of args.now) ≡ Ok tt) }
    ensures fault { IfErr result (λ e. e ≢ CallFault.Memory → names_fit signature.now (arguments_of args.now) ≡ Err e) }
{
    let count = args.positional.as_slice().len();
    'names: for at in 0..args.named.len() {
        if let Some((name, value)) = args.named.at(at) {
            test_name(alloc, signature, count, name, value)?;
        }
    }
    Ok(())
}

fn test_name(
    alloc: Global,
    signature: &Signature,
    count: usize,
    name: &str,
    value: Value,
) -> Result<(), CallFault>
    ensures ok { OnOk result (name_fits signature.now count (name.now, value) ≡ Ok tt) }
    ensures fault { IfErr result (λ e. e ≢ CallFault.Memory →
        name_fits signature.now count (name.now, value) ≡ Err e) }
{
    match place_of(signature, name) {
        Some(place) if place < count => Err(CallFault::Arguments),
        Some(_) => Ok(()),
        None => test_other(alloc, signature, name),
    }
}

fn test_other(alloc: Global, signature: &Signature, name: &str) -> Result<(), CallFault>
    ensures ok { OnOk result (other_fits signature.now.others name.now (is_left_out signature.now name.now) ≡ Ok tt) }
    ensures fault { IfErr result (λ e. e ≢ CallFault.Memory →
        other_fits signature.now.others name.now (is_left_out signature.now name.now) ≡ Err e) }
{
    if is_left_out(signature, name) {
        return Err(left_out(alloc, name));
    }
    match signature.others {
        Others::Refused => Err(CallFault::Arguments),
        Others::LeftOut => Err(left_out(alloc, name)),
        Others::Variables | Others::Exports => Ok(()),
    }
}

fn is_left_out(signature: &Signature, name: &str) -> bool
    ensures { result ≡ is_left_out signature.now name.now }
{
    is_among(signature.left_out, name)
}

/// The place of the parameter of a name.
pub fn place_of(signature: &Signature, name: &str) -> Option<usize>
    ensures { result ≡ place_of signature.now name.now }
{
    place_among(signature.parameters, name)
}

fn place_among(parameters: &[Parameter], name: &str) -> Option<usize>
    ensures { result ≡ position (λ p. bytes_eq p.0.now name.now) parameters.now }
{
    parameters.iter().position(|parameter| parameter.0 == name)
}

/// Whether no argument stands past the parameters, and none that must stand is missing.
fn test_numbers(parameters: &[Parameter], args: &Args) -> Result<(), CallFault>
    ensures { result ≡ numbers_fit (map parameter_of parameters.now) (arguments_of args.now) }
{
    if goes_past(parameters, args.positional.as_slice().len()) {
        return Err(CallFault::Arguments);
    }
    test_needed(parameters, args)
}

fn goes_past(parameters: &[Parameter], count: usize) -> bool
    ensures { result ≡ goes_past (map parameter_of parameters.now) count }
{
    !last_takes_all(parameters) && parameters.len() < count
}

#[tactic(auto, using(crate::proofs::Loops::loops))]
fn test_needed(parameters: &[Parameter], args: &Args) -> Result<(), CallFault>
    ensures { result ≡ needed_stand (map parameter_of parameters.now) (arguments_of args.now) }
{
    for (place, parameter) in parameters.iter().enumerate() {
        if !is_given(args, place, parameter) {
            return Err(CallFault::Arguments);
        }
    }
    Ok(())
}

/// Whether a value stands for a parameter that needs one.
fn is_given(args: &Args, place: usize, parameter: &Parameter) -> bool
    ensures { result ≡ is_given (arguments_of args.now) (place, parameter_of parameter.now) }
{
    !is_needed(parameter.2) || value_at(args, place, parameter).is_some()
}

fn is_needed(takes: Takes) -> bool
    ensures { result ≡ is_needed takes }
{
    matches!(takes, Takes::One | Takes::Some)
}

fn takes_all(takes: Takes) -> bool
    ensures { result ≡ takes_all takes }
{
    matches!(takes, Takes::Some | Takes::Any)
}

fn last_takes_all(parameters: &[Parameter]) -> bool
    ensures { result ≡ last_takes_all (map parameter_of parameters.now) }
{
    match parameters.last() {
        Some(parameter) => takes_all(parameter.2),
        None => false,
    }
}

/// The value at a parameter's place, or under its name.
fn value_at(args: &Args, place: usize, parameter: &Parameter) -> Option<Value>
    ensures { result ≡ value_at (arguments_of args.now) place (parameter_of parameter.now) }
{
    match args.positional.get(place) {
        Some(value) => Some(*value),
        None => args.named.get(parameter.0),
    }
}

/// The argument of a parameter: all values from its place on, or one value.
fn argument(
    heap: &Heap,
    objects: &Objects,
    parameter: &Parameter,
    place: usize,
    args: &Args,
) -> Result<Option<Argument>, CallFault>
    ensures ok { let given = arguments_of args.now in
        IfOk result (λ a. argument_by heap.now objects.now given (place, parameter_of parameter.now) ≡ Ok a) }
    ensures fault { let given = arguments_of args.now in
        IfErr result (λ e. e ≢ CallFault.Memory →
        argument_by heap.now objects.now given (place, parameter_of parameter.now) ≡ Err e) }
{
    let positional = args.positional.as_slice();
    if takes_all(parameter.2) && place < positional.len() {
        return some(heap, objects, parameter.1, &positional[place..]);
    }
    given(heap, objects, parameter, value_at(args, place, parameter))
}

/// None stands for an argument that isn't given where none need be, but for what is replaced.
fn given(
    heap: &Heap,
    objects: &Objects,
    parameter: &Parameter,
    value: Option<Value>,
) -> Result<Option<Argument>, CallFault>
    ensures ok { IfOk result (λ a. given_by heap.now objects.now (parameter_of parameter.now) value ≡ Ok a) }
    ensures fault { IfErr result (λ e. e ≢ CallFault.Memory →
        given_by heap.now objects.now (parameter_of parameter.now) value ≡ Err e) }
{
    let Some(value) = value else {
        return Ok(None);
    };
    if is_nil(value) && may_be_none(parameter.2, parameter.1) {
        return Ok(None);
    }
    if is_other(parameter.1, value) {
        return Err(left_out(heap.allocator(), parameter.0));
    }
    some(heap, objects, parameter.1, &[value])
}

fn some(
    heap: &Heap,
    objects: &Objects,
    kind: Kind,
    values: &[Value],
) -> Result<Option<Argument>, CallFault>
    ensures ok { IfOk result (λ a. some_by heap.now objects.now kind values.now ≡ Ok a) }
    ensures fault { IfErr result (λ e. e ≢ CallFault.Memory → some_by heap.now objects.now kind values.now ≡ Err e) }
{
    Ok(Some(converted(heap, objects, kind, values)?))
}

fn is_nil(value: Value) -> bool
    ensures { result ≡ is_nil value }
{
    matches!(value, Value::Nil)
}

fn may_be_none(takes: Takes, kind: Kind) -> bool
    ensures { result ≡ may_be_none takes kind }
{
    matches!(takes, Takes::OneOrNone) && !matches!(kind, Kind::Pairs)
}

/// Whether a value is another one than a kind has alone, which is left out here.
fn is_other(kind: Kind, value: Value) -> bool
    ensures { result ≡ is_other kind value }
{
    match kind {
        Kind::True => !matches!(value, Value::Bool(true) | Value::Int(1)),
        Kind::False => !matches!(value, Value::Bool(false) | Value::Int(0)),
        Kind::None => !is_nil(value),
        Kind::Text | Kind::Place | Kind::Nodes | Kind::Lines | Kind::Names => false,
        Kind::Texts | Kind::Pairs | Kind::Exports | Kind::Flag | Kind::Mode | Kind::Any => false,
    }
}
