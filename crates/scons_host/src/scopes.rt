//! The names of scripts: what is exported, imported and returned.
ghost use Rattle.std.specs.Prelude.{◌≡◌, ◌≢◌, Ok, Err, IfOk, IfErr, OnOk, map, option_copied};
ghost use Rattle.std.specs.Option.{option_map};
ghost use Rattle.py_host.specs.Extends.{Extends};
ghost use Rattle.py_host.specs.Names.{value_of};
ghost use Rattle.scons_calls.specs.Results.{along, each};
ghost use Rattle.scons_host.specs.Refusals as told;
ghost use Rattle.scons_host.specs.Sharing as spec;
ghost use Rattle.scons_host.specs.SoFar.{so_far, waiting_of};

use crate::end::ReadKind;
use crate::open::OpenCall;
use crate::state::State;
use crate::stop::Refusal;
use py_heap::{Heap, Value};
use py_host::Scope;
use scons_base::{Memory, Text, Texts};
use scons_calls::{Exports, tuple_value};
use scons_decls::NameFault;
use std::alloc::Global;

/// The value of a name where a call stands: a name of the function that calls, or of its script.
fn value_of(locals: &Scope, globals: &Scope, name: &Text) -> Result<Value, Refusal>
    ensures ok { IfOk result (λ v. spec.value_at locals.now globals.now name.now ≡ Ok v) }
    ensures fault { IfErr result (λ e. e ≢ Refusal.Memory → spec.value_at locals.now globals.now name.now ≡ Err e) }
{
    match locals.get(name.as_str()).or(globals.get(name.as_str())) {
        Some(value) => Ok(value),
        None => Err(not_exported(name)),
    }
}

fn not_exported(name: &Text) -> Refusal
    ensures { result ≢ Refusal.Memory → result ≡ told.not_exported name.now }
{
    match name.copy() {
        Ok(name) => Refusal::Kind(ReadKind::Name(NameFault::NotExported(name))),
        Err(_) => Refusal::Memory,
    }
}

/// Puts what a call exports into a scope.
pub fn put_exports(
    alloc: Global,
    scope: &mut Scope,
    exports: &Exports,
    locals: &Scope,
    globals: &Scope,
) -> Result<(), Refusal>
    ensures ok { OnOk result (spec.with_exports locals.now globals.now scope.old exports.now ≡ Ok scope.new) }
    ensures fault { IfErr result (λ e. e ≢ Refusal.Memory →
        spec.with_exports locals.now globals.now scope.old exports.now ≡ Err e) }
{
    put_names(scope, exports.names.as_slice(), locals, globals)?;
    scope.set_all(alloc, &exports.values)?;
    Ok(())
}

/// Puts names into a scope, with the values that they have where a call stands.
#[tactic(auto, using(scons_calls::proofs::Loops::loops))]
fn put_names(
    scope: &mut Scope,
    names: &[Text],
    locals: &Scope,
    globals: &Scope,
) -> Result<(), Refusal>
    ensures ok { OnOk result (along (spec.exported_name locals.now globals.now) scope.old names.now ≡ Ok scope.new) }
    ensures fault { IfErr result (λ e. e ≢ Refusal.Memory →
        along (spec.exported_name locals.now globals.now) scope.old names.now ≡ Err e) }
{
    for name in names {
        put_name(scope, name, locals, globals)?;
    }
    Ok(())
}

fn put_name(scope: &mut Scope, name: &Text, locals: &Scope, globals: &Scope) -> Result<(), Refusal>
    ensures ok { OnOk result (spec.exported_name locals.now globals.now scope.old name.now ≡ Ok scope.new) }
    ensures fault { IfErr result (λ e. e ≢ Refusal.Memory →
        spec.exported_name locals.now globals.now scope.old name.now ≡ Err e) }
{
    let value = value_of(locals, globals, name)?;
    scope.set(name.copy()?, value)?;
    Ok(())
}

/// The call that reads the script that runs.
#[tactic(auto, using(crate::proofs::Lasts::lasts))]
pub fn innermost(state: &State) -> Option<&OpenCall>
    ensures { option_map waiting_of (option_copied result) ≡ spec.innermost (so_far state.now) }
{
    state.open.last()
}

/// The names that a script imports, with their values.
pub fn imported(state: &State, names: &Texts) -> Result<Scope, Refusal>
    ensures ok { IfOk result (λ scope. spec.import (so_far state.now) names.now ≡ Ok scope) }
    ensures fault { IfErr result (λ e. e ≢ Refusal.Memory → spec.import (so_far state.now) names.now ≡ Err e) }
{
    let mut scope = Scope::new(state.alloc);
    import_names(state, names.as_slice(), &mut scope)?;
    Ok(scope)
}

#[tactic(auto, using(scons_calls::proofs::Loops::loops))]
fn import_names(state: &State, names: &[Text], scope: &mut Scope) -> Result<(), Refusal>
    ensures ok { OnOk result (along (spec.imported_name (so_far state.now)) scope.old names.now ≡ Ok scope.new) }
    ensures fault { IfErr result (λ e. e ≢ Refusal.Memory →
        along (spec.imported_name (so_far state.now)) scope.old names.now ≡ Err e) }
{
    for name in names {
        import_name(state, name, scope)?;
    }
    Ok(())
}

fn import_name(state: &State, name: &Text, scope: &mut Scope) -> Result<(), Refusal>
    ensures ok { OnOk result (spec.imported_name (so_far state.now) scope.old name.now ≡ Ok scope.new) }
    ensures fault { IfErr result (λ e. e ≢ Refusal.Memory →
        spec.imported_name (so_far state.now) scope.old name.now ≡ Err e) }
{
    if name.as_str() == "*" {
        import_all(state, scope)?;
        return Ok(());
    }
    let value = exported(state, name)?;
    scope.set(name.copy()?, value)?;
    Ok(())
}

fn import_all(state: &State, scope: &mut Scope) -> Result<(), Memory>
    ensures { OnOk result (scope.new ≡ spec.with_all (so_far state.now) scope.old) }
{
    scope.set_all(state.alloc, &state.exports)?;
    match innermost(state) {
        Some(call) => scope.set_all(state.alloc, &call.exports),
        None => Ok(()),
    }
}

/// The value that is exported under a name: by the call that reads the script, else to all scripts.
fn exported(state: &State, name: &Text) -> Result<Value, Refusal>
    ensures ok { IfOk result (λ v. spec.exported (so_far state.now) name.now ≡ Ok v) }
    ensures fault { IfErr result (λ e. e ≢ Refusal.Memory → spec.exported (so_far state.now) name.now ≡ Err e) }
{
    match exported_by_call(state, name).or(state.exports.get(name.as_str())) {
        Some(value) => Ok(value),
        None => Err(not_exported(name)),
    }
}

fn exported_by_call(state: &State, name: &Text) -> Option<Value>
    ensures { result ≡ value_of (spec.exports_in (spec.innermost (so_far state.now))) name.now }
{
    innermost(state)?.exports.get(name.as_str())
}

/// Keeps what a script returns. A first script returns it to no one.
#[tactic(auto, using(crate::specs::Looking::looking))]
pub fn return_names(
    state: &mut State,
    heap: &mut Heap,
    names: &Texts,
    locals: &Scope,
    globals: &Scope,
) -> Result<(), Refusal>
    ensures stands { Extends heap.old heap.new }
    ensures ok { OnOk result (spec.return (so_far state.old) heap.old locals.now globals.now names.now
        ≡ Ok (so_far state.new, heap.new)) }
    ensures fault { IfErr result (λ e. e ≢ Refusal.Memory →
        spec.return (so_far state.old) heap.old locals.now globals.now names.now ≡ Err e) }
{
    let values = values_of(state.alloc, names.as_slice(), locals, globals)?;
    let returned = one_or_tuple(heap, values.as_slice())?;
    keep(state, returned);
    Ok(())
}

/// The values of names where a call stands.
#[tactic(auto, using(scons_calls::proofs::Loops::loops))]
fn values_of(
    alloc: Global,
    names: &[Text],
    locals: &Scope,
    globals: &Scope,
) -> Result<Vec<Value>, Refusal>
    ensures ok { IfOk result (λ values. each (spec.value_at locals.now globals.now) names.now ≡ Ok values.items) }
    ensures fault { IfErr result (λ e. e ≢ Refusal.Memory → each (spec.value_at locals.now globals.now) names.now ≡ Err e) }
{
    let mut values = Vec::new(alloc);
    for name in names {
        values.push(value_of(locals, globals, name)?)?;
    }
    Ok(values)
}

/// One value as it is, several as a tuple.
#[tactic(auto, using(crate::specs::Looking::looking))]
pub fn one_or_tuple(heap: &mut Heap, values: &[Value]) -> Result<Value, Refusal>
    ensures stands { Extends heap.old heap.new }
    ensures ok { IfOk result (λ v. spec.one_or_tuple heap.old values.now ≡ Ok (v, heap.new)) }
    ensures fault { IfErr result (λ e. e ≢ Refusal.Memory → spec.one_or_tuple heap.old values.now ≡ Err e) }
{
    match values {
        [value] => Ok(*value),
        values => Ok(tuple_value(heap, values)?),
    }
}

fn keep(state: &mut State, returned: Value)
    ensures { so_far state.new ≡ spec.keep (so_far state.old) returned }
{
    set_returned(state.open.as_mut_slice(), returned);
}

fn set_returned(calls: &mut [OpenCall], returned: Value)
    ensures { map waiting_of calls.new ≡ spec.with_returned (map waiting_of calls.old) returned }
{
    let count = calls.len();
    if count > 0 {
        calls[count - 1].returned = returned;
    }
}
