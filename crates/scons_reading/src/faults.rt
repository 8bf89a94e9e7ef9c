//! How a fault of a rule is told: on the line of the call that declared it.
ghost use Rattle.std.specs.Prelude.{◌≡◌, Some, IfOk, slice_get};
ghost use Rattle.scons_host.specs.Causes.{IsInside};
ghost use Rattle.scons_host.specs.Shown.{IsTold};
ghost use Rattle.scons_reading.specs.Graphs as spec;

use scons_base::{Memory, PathText, Paths};
use scons_decls::{NameFault, Place};
use scons_host::{FirstRule, ReadKind, Stop};
use scons_rules::{RuleReadFault, RuleReading};

/// The stop that a fault of the rule of a number is.
pub fn rule_stop(
    reading: &RuleReading,
    scripts: &Paths,
    number: usize,
    fault: RuleReadFault,
) -> Stop
    ensures inside { IsInside result }
    ensures told { IsTold result → result ≡ spec.rule_stop scripts.now reading.now.declared number fault }
{
    let first = first_place(reading, &fault);
    told(scripts, reading.place(number), first, fault)
}

/// Where the first rule of a target is declared that has two.
fn first_place(reading: &RuleReading, fault: &RuleReadFault) -> Option<Place>
    ensures { result ≡ spec.first_place reading.now.declared fault.now }
{
    match fault {
        RuleReadFault::Name(NameFault::TwoRules(target)) => reading.place_of_target(target),
        RuleReadFault::Name(_)
        | RuleReadFault::At(..)
        | RuleReadFault::TooMany(..)
        | RuleReadFault::Memory => None,
    }
}

/// The stop that a fault of a rule is that is declared at a place. `first` is where the target's first rule is.
pub fn told(
    scripts: &Paths,
    place: Option<Place>,
    first: Option<Place>,
    fault: RuleReadFault,
) -> Stop
    ensures inside { IsInside result }
    ensures told { IsTold result → result ≡ spec.told scripts.now place first fault }
{
    match fault {
        RuleReadFault::Name(fault) => stop_by(scripts, place, first, fault),
        RuleReadFault::At(place, fault) => stop_by(scripts, Some(place), first, fault),
        RuleReadFault::TooMany(what, count) => Stop::TooMany(what, count),
        RuleReadFault::Memory => Stop::Memory,
    }
}

fn stop_by(scripts: &Paths, place: Option<Place>, first: Option<Place>, fault: NameFault) -> Stop
    ensures inside { IsInside result }
    ensures told { IsTold result → result ≡ spec.stop_by scripts.now place first fault }
{
    match place {
        Some(place) => stop_at(scripts, place, first, fault),
        None => Stop::Here(ReadKind::Name(fault)),
    }
}

/// The stop on the line of a place.
fn stop_at(scripts: &Paths, place: Place, first: Option<Place>, fault: NameFault) -> Stop
    ensures inside { IsInside result }
    ensures told { IsTold result → result ≡ spec.stop_by scripts.now (Some place) first fault }
{
    match told_at(scripts, place, first, fault) {
        Ok((script, kind)) => Stop::There(script, place.line, kind),
        Err(_) => Stop::Memory,
    }
}

/// The script of a place, and the kind of a fault of a rule that is declared there.
fn told_at(
    scripts: &Paths,
    place: Place,
    first: Option<Place>,
    fault: NameFault,
) -> Result<(PathText, ReadKind), Memory>
    ensures script { IfOk result (λ told. told.0 ≡ spec.script_in scripts.now place.script) }
    ensures kind { IfOk result (λ told. told.1 ≡ spec.kind_by scripts.now place first fault) }
{
    let kind = kind_by(scripts, place, first, fault)?;
    match script_at(scripts, place.script)? {
        Some(script) => Ok((script, kind)),
        None => Err(Memory),
    }
}

fn kind_by(
    scripts: &Paths,
    place: Place,
    first: Option<Place>,
    fault: NameFault,
) -> Result<ReadKind, Memory>
    ensures { IfOk result (λ kind. kind ≡ spec.kind_by scripts.now place first fault) }
{
    match first {
        Some(first) => kind_beside(scripts, place, first, fault),
        None => Ok(ReadKind::Name(fault)),
    }
}

/// The kind of a fault of a rule where the first rule of its target is known.
fn kind_beside(
    scripts: &Paths,
    place: Place,
    first: Place,
    fault: NameFault,
) -> Result<ReadKind, Memory>
    ensures { IfOk result (λ kind. kind ≡ spec.kind_by scripts.now place (Some first) fault) }
{
    match fault {
        NameFault::TwoRules(target) => {
            let script = other_script(scripts, place, first)?;
            let line = first.line;
            Ok(ReadKind::TwoRules(target, FirstRule { line, script }))
        }
        fault => Ok(ReadKind::Name(fault)),
    }
}

/// The script of a target's first rule, where that is another one.
fn other_script(scripts: &Paths, place: Place, first: Place) -> Result<Option<PathText>, Memory>
    ensures { IfOk result (λ script. script ≡ spec.other_script scripts.now place first) }
{
    if first.script == place.script {
        return Ok(None);
    }
    script_at(scripts, first.script)
}

/// The script of a number.
fn script_at(scripts: &Paths, number: u64) -> Result<Option<PathText>, Memory>
    ensures { IfOk result (λ script. script ≡ slice_get scripts.now number) }
{
    match scripts.as_slice().get(number as usize) {
        Some(path) => Ok(Some(path.copy()?)),
        None => Ok(None),
    }
}
