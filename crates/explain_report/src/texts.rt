//! The line that tells a reason.
ghost use Rattle.std.specs.Prelude.{◌≡◌, ◌++◌, ◌∷◌, [], IfOk, string_bytes, codes};
ghost use Rattle.std.specs.Option.{option_copied};
ghost use Rattle.explain_report.specs.Texts.{reason_text, target_at, dep_at, old_dep_at, rebuilding, about};

use crate::reason::Reason;
use deciders::Rec;
use scons_base::Memory;
use std::alloc::Global;

/// The line of a reason, with its line feed. `now` is the rule's record of now, `old` what was recorded of the target.
pub fn reason_text(
    alloc: Global,
    reason: &Reason,
    now: &Rec,
    old: Option<&Rec>,
) -> Result<String, Memory>
    ensures { IfOk result (λ text. string_bytes text ≡ reason_text reason.now now.now (option_copied old.entry)) }
{
    match *reason {
        Reason::Always(target) => {
            rebuilding(alloc, target_at(now, target), "AlwaysBuild() is specified")
        }
        Reason::Absent(target) => building(alloc, target_at(now, target)),
        Reason::NoRecord(target) => rebuilding(alloc, target_at(now, target), "it has no record"),
        Reason::Action(target) => {
            rebuilding(alloc, target_at(now, target), "the build action changed")
        }
        Reason::Newly(target, dep) => {
            about(
                alloc,
                target_at(now, target),
                dep_at(now, dep),
                "is a new dependency",
            )
        }
        Reason::Gone(target, dep) => about(
            alloc,
            target_at(now, target),
            old_dep_at(old, dep),
            "is no longer a dependency",
        ),
        Reason::Moved(target) => {
            rebuilding(
                alloc,
                target_at(now, target),
                "the dependency order changed",
            )
        }
        Reason::Changed(target, dep) => {
            about(alloc, target_at(now, target), dep_at(now, dep), "changed")
        }
    }
}

fn building(alloc: Global, target: &str) -> Result<String, Memory>
    ensures { IfOk result (λ text. string_bytes text
        ≡ codes "scons: building `" ++ target.now ++ codes "' because it doesn't exist\n") }
{
    Ok(format!(in alloc; "scons: building `{target}' because it doesn't exist\n")?)
}

fn rebuilding(alloc: Global, target: &str, why: &str) -> Result<String, Memory>
    ensures { IfOk result (λ text. string_bytes text ≡ rebuilding target.now why.now) }
{
    Ok(format!(in alloc; "scons: rebuilding `{target}' because {why}\n")?)
}

fn about(alloc: Global, target: &str, dep: &str, what: &str) -> Result<String, Memory>
    ensures { IfOk result (λ text. string_bytes text ≡ about target.now dep.now what.now) }
{
    Ok(format!(in alloc; "scons: rebuilding `{target}' because `{dep}' {what}\n")?)
}

fn target_at(rec: &Rec, place: u32) -> &str
    ensures { result.now ≡ target_at rec.now place }
{
    match rec.targets.as_slice().get(place as usize) {
        Some(path) => path.as_str(),
        None => "",
    }
}

fn dep_at(rec: &Rec, place: usize) -> &str
    ensures { result.now ≡ dep_at rec.now place }
{
    match rec.deps.as_slice().get(place) {
        Some(dep) => dep.name.as_str(),
        None => "",
    }
}

fn old_dep_at(old: Option<&Rec>, place: usize) -> &str
    ensures { result.now ≡ old_dep_at (option_copied old.entry) place }
{
    match old {
        Some(old) => dep_at(old, place),
        None => "",
    }
}
