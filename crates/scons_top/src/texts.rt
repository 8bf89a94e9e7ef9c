//! What the faults of a run's first steps say on standard error.
ghost use Rattle.std.specs.Prelude.{◌≡◌, IfOk, string_bytes};
ghost use Rattle.scons_host.specs.Kinds.{IsKindText};
ghost use Rattle.scons_top.specs.Faults.{top_of_own};
ghost use Rattle.scons_top.specs.declared.report.Top.{Top};
ghost use Rattle.scons_top.specs.Texts.{IsTopText, bank_name, foreign_text, reading_text, unknown_text, usage_text};

use crate::stop::OwnFault;
use scons_base::{Memory, PathText, Text};
use scons_host::ReadKind;
use scons_words::UsageKind;
use std::alloc::Global;
use world_api::Bank;

/// The line of a fault that no build finds.
pub(crate) fn own_text(alloc: Global, fault: &OwnFault) -> Result<String, Memory>
    ensures { IfOk result (λ text. IsTopText (top_of_own fault.now) (string_bytes text)) }
{
    match fault {
        OwnFault::Usage(place, kind) => usage_text(alloc, *place, *kind),
        OwnFault::Reading(file, line, kind) => reading_text(alloc, file, *line, kind),
        OwnFault::UnknownTarget(word) => unknown_text(alloc, word),
        OwnFault::StoreForeign(bank) => foreign_text(alloc, *bank),
    }
}

fn usage_text(alloc: Global, place: u64, kind: UsageKind) -> Result<String, Memory>
    ensures { IfOk result (λ text. string_bytes text ≡ usage_text place kind) }
{
    let kind = kind.name();
    Ok(format!(in alloc; "scons: *** Word {place} is refused: {kind}\n")?)
}

fn reading_text(
    alloc: Global,
    file: &PathText,
    line: u32,
    kind: &ReadKind,
) -> Result<String, Memory>
    ensures { IfOk result (λ text. IsTopText (Top.Reading file.now line kind.now) (string_bytes text)) }
{
    let file = file.as_str();
    let why = kind.text(alloc)?;
    let why = why.as_str();
    Ok(format!(in alloc; "scons: *** {file}, line {line}: {why}\n")?)
}

fn unknown_text(alloc: Global, word: &Text) -> Result<String, Memory>
    ensures { IfOk result (λ text. string_bytes text ≡ unknown_text word.now) }
{
    let word = word.as_str();
    Ok(format!(in alloc; "scons: *** Do not know how to make target `{word}'.\n")?)
}

fn foreign_text(alloc: Global, bank: Bank) -> Result<String, Memory>
    ensures { IfOk result (λ text. string_bytes text ≡ foreign_text bank) }
{
    let bank = bank_name(bank);
    Ok(format!(in alloc; "scons: *** Bank {bank} is not a signature file.\n")?)
}

fn bank_name(bank: Bank) -> &'static str
    ensures { result.now ≡ bank_name bank }
{
    match bank {
        Bank::A => "A",
        Bank::B => "B",
    }
}
