//! The texts that are printed.
ghost use Rattle.std.specs.Prelude.{◌≡◌, IfOk, string_bytes};
ghost use Rattle.one_rule.specs.Texts.{fault_text, usage_kind_name, read_kind_name, reading_text, read_text, building_text, done_text, terminated_text, line_text};

use crate::report::{ReadKind, Top, UsageKind};
use scons_base::{Memory, Text};
use std::alloc::Global;

/// Printed before the scripts are read.
#[tactic(auto, unfolding(crate::specs::Texts::reading_text))]
pub fn reading_text() -> &'static str
    ensures { result.now ≡ reading_text }
{
    "scons: Reading SConscript files ...\n"
}

/// Printed once they are read.
#[tactic(auto, unfolding(crate::specs::Texts::read_text))]
pub fn read_text() -> &'static str
    ensures { result.now ≡ read_text }
{
    "scons: done reading SConscript files.\n"
}

/// Printed before the first rule is looked at.
#[tactic(auto, unfolding(crate::specs::Texts::building_text))]
pub fn building_text() -> &'static str
    ensures { result.now ≡ building_text }
{
    "scons: Building targets ...\n"
}

/// Printed at the end of a build without a fault.
#[tactic(auto, unfolding(crate::specs::Texts::done_text))]
pub fn done_text() -> &'static str
    ensures { result.now ≡ done_text }
{
    "scons: done building targets.\n"
}

/// Printed at the end of a build with a fault.
#[tactic(auto, unfolding(crate::specs::Texts::terminated_text))]
pub fn terminated_text() -> &'static str
    ensures { result.now ≡ terminated_text }
{
    "scons: building terminated because of errors.\n"
}

/// A command's line as it is printed before it runs.
pub fn line_text(alloc: Global, line: &Text) -> Result<String, Memory>
    ensures { IfOk result (λ text. string_bytes text ≡ line_text line.now) }
{
    let line = line.as_str();
    Ok(format!(in alloc; "{line}\n")?)
}

/// What a fault writes on standard error.
pub fn fault_text(alloc: Global, fault: &Top) -> Result<String, Memory>
    ensures { IfOk result (λ text. string_bytes text ≡ fault_text fault.now) }
{
    match fault {
        Top::Usage(place, kind) => {
            let kind = usage_kind_name(*kind);
            Ok(format!(in alloc; "scons: *** Word {place} is refused: {kind}\n")?)
        }
        Top::Reading(file, line, kind) => {
            let file = file.as_str();
            let kind = read_kind_name(*kind);
            Ok(format!(in alloc; "scons: *** {file}, line {line}: {kind}\n")?)
        }
        Top::Missing { node, target } => {
            let node = node.as_str();
            let target = target.as_str();
            Ok(format!(in alloc;
                "scons: *** [{target}] Source `{node}' not found, needed by target `{target}'.\n"
            )?)
        }
        Top::ActionFailed { target, code } => {
            let target = target.as_str();
            Ok(format!(in alloc; "scons: *** [{target}] Error {code}\n")?)
        }
        Top::TreeFault(path) => {
            let path = path.as_str();
            Ok(format!(in alloc; "scons: *** [{path}] The file tree refused.\n")?)
        }
        Top::StartFault(target) => {
            let target = target.as_str();
            Ok(format!(in alloc; "scons: *** [{target}] The action could not be started.\n")?)
        }
        Top::OutFault => Ok(String::new(alloc)),
        Top::TooLarge(path, size) => {
            let path = path.as_str();
            Ok(format!(in alloc;
                "scons: *** [{path}] The file has {size} bytes, more than the limit.\n"
            )?)
        }
    }
}

fn usage_kind_name(kind: UsageKind) -> &'static str
    ensures { result.now ≡ usage_kind_name kind }
{
    match kind {
        UsageKind::NotBuilt => "NotBuilt",
    }
}

fn read_kind_name(kind: ReadKind) -> &'static str
    ensures { result.now ≡ read_kind_name kind }
{
    match kind {
        ReadKind::NoScript => "NoScript",
        ReadKind::LineForm => "LineForm",
    }
}
