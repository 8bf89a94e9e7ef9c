//! What a fault of a build says on standard error.
ghost use Rattle.std.specs.Prelude.{◌≡◌, ◌++◌, IfOk, OnOk, string_bytes};
ghost use Rattle.report_texts.specs.Faults.{fault_text, cycle_text, steps_text, what_name};

use rule_graph::{BuildFault, What};
use scons_base::{Memory, PathText};
use std::alloc::Global;

/// The line of a fault, empty for one of printing: there is nowhere left to print it.
pub fn fault_text(alloc: Global, fault: &BuildFault) -> Result<String, Memory>
    ensures { IfOk result (λ text. string_bytes text ≡ fault_text fault.now) }
{
    match fault {
        BuildFault::Missing { node, target } => {
            let node = node.as_str();
            let target = target.as_str();
            Ok(format!(in alloc;
                "scons: *** [{target}] Source `{node}' not found, needed by target `{target}'.\n"
            )?)
        }
        BuildFault::Cycle(paths) => cycle_text(alloc, paths.as_slice()),
        BuildFault::ActionFailed { target, code } => {
            let target = target.as_str();
            Ok(format!(in alloc; "scons: *** [{target}] Error {code}\n")?)
        }
        BuildFault::TreeFault(path) => {
            let path = path.as_str();
            Ok(format!(in alloc; "scons: *** [{path}] The file tree refused.\n")?)
        }
        BuildFault::StartFault(target) => {
            let target = target.as_str();
            Ok(format!(in alloc; "scons: *** [{target}] The action could not be started.\n")?)
        }
        BuildFault::StoreFault => {
            Ok(String::from_str(alloc, "scons: *** The signature file refused.\n")?)
        }
        BuildFault::OutFault => Ok(String::new(alloc)),
        BuildFault::TooLarge(path, size) => {
            let path = path.as_str();
            Ok(format!(in alloc;
                "scons: *** [{path}] The file has {size} bytes, more than the limit.\n"
            )?)
        }
        BuildFault::TooMany(what, count) => {
            let what = what_name(*what);
            Ok(format!(in alloc; "scons: *** Too many {what}: {count}\n")?)
        }
    }
}

/// The rules of a cycle by their first targets, and the first of them once more.
fn cycle_text(alloc: Global, paths: &[PathText]) -> Result<String, Memory>
    ensures { IfOk result (λ text. string_bytes text ≡ cycle_text paths.now) }
{
    let mut text = String::from_str(alloc, "scons: *** Dependency cycle: ")?;
    push_steps(&mut text, paths)?;
    if let [first, ..] = paths {
        text.push_str(first.as_str())?;
    }
    text.push_str("\n")?;
    Ok(text)
}

/// Adds each path with an arrow behind it.
fn push_steps(text: &mut String, paths: &[PathText]) -> Result<(), Memory>
    ensures { OnOk result (string_bytes text.new ≡ string_bytes text.old ++ steps_text paths.now) }
{
    for path in paths {
        text.push_str(path.as_str())?;
        text.push_str(" -> ")?;
    }
    Ok(())
}

fn what_name(what: What) -> &'static str
    ensures { result.now ≡ what_name what }
{
    match what {
        What::Nodes => "Nodes",
        What::Rules => "Rules",
        What::Deps => "Deps",
        What::StoreBytes => "StoreBytes",
    }
}
