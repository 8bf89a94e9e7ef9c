//! The end of a reading that gives no graph.
ghost use Rattle.std.specs.Prelude.{◌≡◌, IfOk, codes};
ghost use Rattle.scons_host.specs.Causes.{IsEndOf, IsOwn};
ghost use Rattle.scons_host.specs.Shown.{IsTold};
ghost use Rattle.scons_host.specs.SoFar.{so_far};
ghost use Rattle.scons_reading.specs.Ends as spec;

use py_eval::EvalKind;
use scons_base::{Memory, PathText, Text};
use scons_calls::is_left_out;
use scons_decls::NameFault;
use scons_host::{HostEnd, ReadKind, State, Stop};
use std::alloc::Global;

/// The first of the names that a first script has where none is named.
const FIRST: &str = "SConstruct";

/// The end of a reading where no script runs.
pub fn end_of(alloc: Global, stop: Stop) -> HostEnd
    ensures cause { IsEndOf stop result }
    ensures told { spec.IsToldEnd result → IsTold stop }
    ensures end { spec.IsToldEnd result → result ≡ spec.end_of stop }
{
    match stop {
        Stop::Here(kind) => match first_name(alloc) {
            Ok(path) => HostEnd::Reading(path, 0, kind),
            Err(_) => HostEnd::Memory,
        },
        Stop::There(path, line, kind) => HostEnd::Reading(path, line, kind),
        Stop::Tree(path) => HostEnd::Tree(path),
        Stop::Out => HostEnd::Out,
        Stop::TooLarge(path, size) => HostEnd::TooLarge(path, size),
        Stop::TooMany(what, count) => HostEnd::TooMany(what, count),
        Stop::Memory => HostEnd::Memory,
    }
}

fn first_name(alloc: Global) -> Result<PathText, Memory>
    ensures { IfOk result (λ path. path ≡ codes "SConstruct") }
{
    match PathText::read(alloc, FIRST) {
        Ok(path) => Ok(path),
        Err(_) => Err(Memory),
    }
}

/// The end of a fault of the scripts' own.
pub fn own_end(state: &State, script: u64, line: u32, kind: EvalKind) -> HostEnd
    ensures own { IsOwn result }
    ensures told { spec.IsToldEnd result → result ≡ spec.own_end (so_far state.now) (record { script = script; line = line }) kind }
{
    match state.script_at(script) {
        Ok(path) => HostEnd::Reading(path, line, own_kind(kind)),
        Err(_) => HostEnd::Memory,
    }
}

/// A fault of the scripts' own.
fn own_kind(kind: EvalKind) -> ReadKind
    ensures { result ≡ spec.own_kind kind }
{
    match kind {
        EvalKind::Name(name) => unknown(name),
        kind => ReadKind::Eval(kind),
    }
}

/// A name that stands for nothing may be one of SCons that is left out.
fn unknown(name: Text) -> ReadKind
    ensures { result ≡ spec.unknown name }
{
    if is_left_out(name.as_str()) {
        ReadKind::Name(NameFault::OutOfProfile(name))
    } else {
        ReadKind::Eval(EvalKind::Name(name))
    }
}
