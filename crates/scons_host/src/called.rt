//! How a call's name is written where it is at fault.
ghost use Rattle.std.specs.Prelude.{◌≡◌, IfOk, OnErr, option_copied};
ghost use Rattle.scons_host.specs.Told as spec;

use crate::end::ReadKind;
use scons_base::{Memory, Text};
use scons_calls::Thing;
use scons_decls::NameFault;
use std::alloc::Global;

/// A fault of the arguments of a call, with the name as it was called: a method's behind `env.`. Another fault as it is.
pub fn as_called(alloc: Global, called: Option<&Thing>, kind: ReadKind) -> Result<ReadKind, Memory>
    ensures told { IfOk result (λ k. k ≡ spec.as_called (option_copied called.entry) kind) }
    ensures memory { OnErr result (spec.TakesMemory kind) }
{
    match kind {
        ReadKind::Name(fault) => Ok(ReadKind::Name(name_as_called(alloc, called, fault)?)),
        kind => Ok(kind),
    }
}

fn name_as_called(
    alloc: Global,
    called: Option<&Thing>,
    fault: NameFault,
) -> Result<NameFault, Memory>
    ensures told { IfOk result (λ f. f ≡ spec.name_as_called (option_copied called.entry) fault) }
    ensures memory { OnErr result (spec.NamesCall fault) }
{
    match fault {
        NameFault::BadArgument(name) => Ok(NameFault::BadArgument(written(alloc, called, name)?)),
        fault => Ok(fault),
    }
}

/// A name at fault, where something may be called.
fn written(alloc: Global, called: Option<&Thing>, name: Text) -> Result<Text, Memory>
    ensures { IfOk result (λ text. text ≡ spec.written (option_copied called.entry) name) }
{
    match called {
        Some(Thing::Name(known)) => alone(alloc, known.text(), name),
        Some(Thing::Method(_, known)) => method_of(alloc, known.text(), name),
        Some(Thing::OwnMethod(_, own)) => own_method(alloc, own.as_str(), name),
        Some(Thing::Env(_) | Thing::Builders(_) | Thing::Builder(_)) | None => Ok(name),
        Some(Thing::File(_) | Thing::Dir(_) | Thing::Alias(_)) => Ok(name),
    }
}

/// A name of SCons that stands alone.
fn alone(alloc: Global, called: &str, name: Text) -> Result<Text, Memory>
    ensures { IfOk result (λ text. text ≡ spec.alone called.now name) }
{
    if !is_of(name.as_str(), called) {
        return Ok(name);
    }
    Text::of(alloc, called)
}

/// One that is a method.
fn method_of(alloc: Global, called: &str, name: Text) -> Result<Text, Memory>
    ensures { IfOk result (λ text. text ≡ spec.method_of called.now name) }
{
    if !is_of(name.as_str(), called) {
        return Ok(name);
    }
    method(alloc, called)
}

/// A builder of an environment's own, as a method.
fn own_method(alloc: Global, own: &str, name: Text) -> Result<Text, Memory>
    ensures { IfOk result (λ text. text ≡ spec.own_method own.now name) }
{
    if own != name.as_str() {
        return Ok(name);
    }
    method(alloc, own)
}

/// Whether a fault names a call by this name: `Library` is declared as `StaticLibrary`.
fn is_of(fault: &str, called: &str) -> bool
    ensures { result ≡ spec.is_of fault.now called.now }
{
    fault == called || (called == "Library" && fault == "StaticLibrary")
}

fn method(alloc: Global, called: &str) -> Result<Text, Memory>
    ensures { IfOk result (λ text. text ≡ spec.method called.now) }
{
    Ok(Text::new(format!(in alloc; "env.{called}")?))
}
