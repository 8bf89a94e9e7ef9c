//! The lines on standard output that are the same for every rule.
ghost use Rattle.std.specs.Prelude.{◌≡◌, IfOk, string_bytes};
ghost use Rattle.report_texts.specs.Texts.{reading_text, read_text, building_text, up_to_date_text, nothing_text, done_text, terminated_text, done_with_errors_text, cleaning_text, removed_text, cleaned_text, help_text, ended, load_text};

use rule_graph::Graph;
use scons_base::{Memory, PathText};
use std::alloc::Global;

/// Written before the scripts are read.
#[tactic(auto, unfolding(crate::specs::Texts::reading_text))]
pub fn reading_text(alloc: Global) -> Result<String, Memory>
    ensures { IfOk result (λ text. string_bytes text ≡ reading_text) }
{
    Ok(String::from_str(alloc, "scons: Reading SConscript files ...\n")?)
}

/// Written once they are read.
#[tactic(auto, unfolding(crate::specs::Texts::read_text))]
pub fn read_text(alloc: Global) -> Result<String, Memory>
    ensures { IfOk result (λ text. string_bytes text ≡ read_text) }
{
    Ok(String::from_str(alloc, "scons: done reading SConscript files.\n")?)
}

/// Written before the first rule is looked at.
#[tactic(auto, unfolding(crate::specs::Texts::building_text))]
pub fn building_text(alloc: Global) -> Result<String, Memory>
    ensures { IfOk result (λ text. string_bytes text ≡ building_text) }
{
    Ok(String::from_str(alloc, "scons: Building targets ...\n")?)
}

/// Written for a request of which nothing was stale.
pub fn up_to_date_text(alloc: Global, request: &str) -> Result<String, Memory>
    ensures { IfOk result (λ text. string_bytes text ≡ up_to_date_text request.now) }
{
    Ok(format!(in alloc; "scons: `{request}' is up to date.\n")?)
}

/// Written for a request that is a file without a rule.
pub fn nothing_text(alloc: Global, request: &str) -> Result<String, Memory>
    ensures { IfOk result (λ text. string_bytes text ≡ nothing_text request.now) }
{
    Ok(format!(in alloc; "scons: Nothing to be done for `{request}'.\n")?)
}

/// Written at the end of a build without a fault.
#[tactic(auto, unfolding(crate::specs::Texts::done_text))]
pub fn done_text(alloc: Global) -> Result<String, Memory>
    ensures { IfOk result (λ text. string_bytes text ≡ done_text) }
{
    Ok(String::from_str(alloc, "scons: done building targets.\n")?)
}

/// Written at the end of a build that a fault ended.
#[tactic(auto, unfolding(crate::specs::Texts::terminated_text))]
pub fn terminated_text(alloc: Global) -> Result<String, Memory>
    ensures { IfOk result (λ text. string_bytes text ≡ terminated_text) }
{
    Ok(String::from_str(alloc, "scons: building terminated because of errors.\n")?)
}

/// Written at the end of a build that went on after its faults.
#[tactic(auto, unfolding(crate::specs::Texts::done_with_errors_text))]
pub fn done_with_errors_text(alloc: Global) -> Result<String, Memory>
    ensures { IfOk result (λ text. string_bytes text ≡ done_with_errors_text) }
{
    Ok(String::from_str(
        alloc,
        "scons: done building targets (errors occurred during build).\n",
    )?)
}

/// Written before the first file is removed.
#[tactic(auto, unfolding(crate::specs::Texts::cleaning_text))]
pub fn cleaning_text(alloc: Global) -> Result<String, Memory>
    ensures { IfOk result (λ text. string_bytes text ≡ cleaning_text) }
{
    Ok(String::from_str(alloc, "scons: Cleaning targets ...\n")?)
}

/// Written for a file that is removed.
pub fn removed_text(alloc: Global, path: &PathText) -> Result<String, Memory>
    ensures { IfOk result (λ text. string_bytes text ≡ removed_text path.now) }
{
    let path = path.as_str();
    Ok(format!(in alloc; "Removed {path}\n")?)
}

/// Written at the end of cleaning without a fault.
#[tactic(auto, unfolding(crate::specs::Texts::cleaned_text))]
pub fn cleaned_text(alloc: Global) -> Result<String, Memory>
    ensures { IfOk result (λ text. string_bytes text ≡ cleaned_text) }
{
    Ok(String::from_str(alloc, "scons: done cleaning targets.\n")?)
}

/// The texts of Help, joined.
pub fn help_text(alloc: Global, graph: &Graph) -> Result<String, Memory>
    ensures { IfOk result (λ text. string_bytes text ≡ help_text graph.now.helps) }
{
    let mut text = String::new(alloc);
    for help in graph.helps() {
        text.push_str(help.as_str())?;
    }
    ended(text)
}

/// A text that isn't empty gets a line feed.
fn ended(mut text: String) -> Result<String, Memory>
    ensures { IfOk result (λ whole. string_bytes whole ≡ ended (string_bytes text)) }
{
    if text.is_empty() {
        return Ok(text);
    }
    text.push_str("\n")?;
    Ok(text)
}

/// What a large run prints: its rules, which were all started, and how many were started after an edit of the first of
/// their sources.
pub fn load_text(alloc: Global, rules: u32) -> Result<String, Memory>
    ensures { IfOk result (λ text. string_bytes text ≡ load_text rules) }
{
    let again = rules.min(CHAIN);
    Ok(format!(in alloc; "load: {rules} rules, {rules} started, {again} started after the edit\n")?)
}

/// How many rules of a large run stand on one source.
const CHAIN: u32 = 10;
