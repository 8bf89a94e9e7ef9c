//! The variables of a call.
ghost use Rattle.std.specs.Prelude.{◌≡◌, ◌≢◌, Ok, Err, IfOk, IfErr, OnOk};
ghost use Rattle.scons_calls.specs.Requests.{no_variables, put_variable, one_variable, all_variables, variables_by, is_builders};
ghost use Rattle.scons_calls.specs.Results.{along};

use crate::bind::place_of;
use crate::builders::builders;
use crate::fault::CallFault;
use crate::objects::Objects;
use crate::signature::{Others, Signature};
use crate::variables::variable_of;
use py_heap::{Heap, Value};
use py_host::Scope;
use scons_base::{Listing, Text};
use scons_decls::Variables;
use std::alloc::Global;

/// The variables among the named arguments, in their order.
pub fn variables(
    heap: &Heap,
    objects: &Objects,
    signature: &Signature,
    named: &Scope,
) -> Result<Variables, CallFault>
    ensures ok { IfOk result (λ v. variables_by heap.now objects.now signature.now named.now ≡ Ok v) }
    ensures fault { IfErr result (λ e. e ≢ CallFault.Memory →
        variables_by heap.now objects.now signature.now named.now ≡ Err e) }
{
    match signature.others {
        Others::Variables => all(heap, objects, signature, named),
        Others::Refused | Others::LeftOut | Others::Exports => Ok(no_variables(heap.allocator())),
    }
}

fn no_variables(alloc: Global) -> Variables
    ensures { result ≡ no_variables }
{
    Variables {
        values: Listing::empty(alloc),
        builders: Listing::empty(alloc),
    }
}

#[tactic(auto, using(crate::proofs::Loops::loops))]
fn all(
    heap: &Heap,
    objects: &Objects,
    signature: &Signature,
    named: &Scope,
) -> Result<Variables, CallFault>
    ensures ok { IfOk result (λ v. all_variables heap.now objects.now signature.now named.now ≡ Ok v) }
    ensures fault { IfErr result (λ e. e ≢ CallFault.Memory →
        all_variables heap.now objects.now signature.now named.now ≡ Err e) }
{
    let mut variables = no_variables(heap.allocator());
    'names: for at in 0..named.len() {
        if let Some((name, value)) = named.at(at) {
            take_up(heap, objects, signature, &mut variables, name, value)?;
        }
    }
    Ok(variables)
}

/// Takes up a named argument that no parameter is called by.
fn take_up(
    heap: &Heap,
    objects: &Objects,
    signature: &Signature,
    variables: &mut Variables,
    name: &str,
    value: Value,
) -> Result<(), CallFault>
    ensures ok { OnOk result (
        one_variable heap.now objects.now signature.now variables.old (name.now, value) ≡ Ok variables.new) }
    ensures fault { IfErr result (λ e. e ≢ CallFault.Memory →
        one_variable heap.now objects.now signature.now variables.old (name.now, value) ≡ Err e) }
{
    match place_of(signature, name) {
        Some(_) => Ok(()),
        None => put_variable(heap, objects, variables, name, value),
    }
}

fn put_variable(
    heap: &Heap,
    objects: &Objects,
    variables: &mut Variables,
    name: &str,
    value: Value,
) -> Result<(), CallFault>
    ensures ok { OnOk result (
        put_variable heap.now objects.now variables.old (name.now, value) (is_builders name.now) ≡ Ok variables.new) }
    ensures fault { IfErr result (λ e. e ≢ CallFault.Memory →
        put_variable heap.now objects.now variables.old (name.now, value) (is_builders name.now) ≡ Err e) }
{
    if name == "BUILDERS" {
        variables.builders = builders(heap, objects, value)?;
        return Ok(());
    }
    let value = variable_of(heap, objects, name, value)?;
    variables
        .values
        .push((Text::of(heap.allocator(), name)?, value))?;
    Ok(())
}
