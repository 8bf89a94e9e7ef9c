//! How a rule is made: its lines and what it signs, where headers are looked for, and the name of its builder.
ghost use Rattle.std.specs.Prelude.{◌≡◌, ◌≢◌, [], ◌∷◌, Ok, Err, length, map, slice_get, option_copied, IfOk, IfErr};
ghost use Rattle.scons_rules.specs.ActionsLeft.{texts_in};
ghost use Rattle.scons_rules.specs.Expanding.{expanding};
ghost use Rattle.scons_rules.specs.Making as spec;

use crate::actions::{actions_of, strs};
use crate::fault::RuleReadFault;
use crate::interning::count_once;
use crate::line::{RuleLines, lines_of};
use crate::locals::is_cplusplus_source;
use crate::one_rule::OneRule;
use crate::shell::refuse_for_shell;
use crate::writing::{substituting, written};
use scons_base::{Listing, Memory, Paths, Text, Texts};
use scons_decls::{Builder, Declaration, Recipe};
use std::alloc::Global;
use world_api::{Line, Work};

/// How a rule is made.
#[derive(Drop)]
pub(crate) struct Making {
    pub(crate) lines: Listing<Line>,
    pub(crate) signed: Texts,
    pub(crate) paths: Paths,
    pub(crate) builder: Text,
}

/// How a rule is made: its lines are expanded, and then its search path.
pub(crate) fn making_of(rule: &OneRule<'_>) -> Result<Making, RuleReadFault>
    ensures ok { IfOk result (λ m. spec.making_of (expanding rule.now) ≡ Ok m) }
    ensures fault { IfErr result (λ e. e ≢ RuleReadFault.Memory → spec.making_of (expanding rule.now) ≡ Err e) }
{
    let lines = rule_lines(rule)?;
    let paths = search_path(rule)?;
    let builder = builder_of(rule.alloc, rule.declared)?;
    Ok(Making {
        lines: lines.lines,
        signed: lines.signed,
        paths,
        builder,
    })
}

/// The directories in which a rule looks for headers. An object's stand in its line.
fn search_path(rule: &OneRule<'_>) -> Result<Paths, RuleReadFault>
    ensures ok { IfOk result (λ p. spec.search_path_of (expanding rule.now) ≡ Ok p) }
    ensures fault { IfErr result (λ e. e ≢ RuleReadFault.Memory → spec.search_path_of (expanding rule.now) ≡ Err e) }
{
    match rule.work() {
        Work::Shell => header_dirs(rule),
        Work::Copy | Work::Write => Ok(Paths::new(Vec::new(rule.alloc))),
    }
}

fn header_dirs(rule: &OneRule<'_>) -> Result<Paths, RuleReadFault>
    ensures ok { IfOk result (λ p. spec.header_dirs_of (expanding rule.now) ≡ Ok p) }
    ensures fault { IfErr result (λ e. e ≢ RuleReadFault.Memory → spec.header_dirs_of (expanding rule.now) ≡ Err e) }
{
    let dirs = rule.header_dirs()?;
    if matches!(rule.declared.recipe, Recipe::Object) {
        refuse_for_shell(dirs.as_slice())?;
    }
    Ok(dirs)
}

/// The lines of a rule, and what it signs.
fn rule_lines(rule: &OneRule<'_>) -> Result<RuleLines, RuleReadFault>
    ensures ok { IfOk result (λ l. spec.lines_of (expanding rule.now) ≡ Ok l) }
    ensures fault { IfErr result (λ e. e ≢ RuleReadFault.Memory → spec.lines_of (expanding rule.now) ≡ Err e) }
{
    match &rule.declared.recipe {
        Recipe::Textfile(texts, pairs) => {
            Ok(signing(
                rule.alloc,
                written(rule, texts.as_slice(), pairs.as_slice())?,
            ))
        }
        Recipe::Substfile(pairs) => {
            let sources = count_once(rule.alloc, rule.locals.sources.as_slice())?;
            Ok(signing(rule.alloc, substituting(rule, sources, pairs.as_slice())?))
        }
        _ => shell_lines(rule),
    }
}

/// No lines, where this is signed.
fn signing(alloc: Global, signed: Texts) -> RuleLines
    ensures { result ≡ spec.signing signed }
{
    RuleLines {
        lines: Listing::empty(alloc),
        signed,
    }
}

fn shell_lines(rule: &OneRule<'_>) -> Result<RuleLines, RuleReadFault>
    ensures ok { IfOk result (λ l. spec.shell_lines (expanding rule.now) ≡ Ok l) }
    ensures fault { IfErr result (λ e. e ≢ RuleReadFault.Memory → spec.shell_lines (expanding rule.now) ≡ Err e) }
{
    let texts = texts_of(rule.alloc, rule.declared, rule.state.builders.as_slice())?;
    let actions = actions_of(rule, texts)?;
    lines_of(rule, actions.as_slice())
}

/// The texts whose expansions are the lines.
fn texts_of<'a>(
    alloc: Global,
    declared: &'a Declaration,
    builders: &'a [Builder],
) -> Result<Vec<&'a str>, Memory>
    ensures { IfOk result (λ v. texts_in v.items
        ≡ spec.texts_by declared.now.recipe builders.now declared.now.sources) }
{
    match &declared.recipe {
        Recipe::Object => compiler_text(alloc, declared),
        Recipe::Program => one_text(alloc, "$LINKCOM"),
        Recipe::StaticLibrary => two_texts(alloc, "$ARCOM", "$RANLIBCOM"),
        Recipe::Command(lines) => strs(alloc, lines.as_slice()),
        Recipe::Own(number) => own_texts(alloc, builders, *number),
        Recipe::Textfile(..) | Recipe::Substfile(_) | Recipe::Install | Recipe::InstallAs => {
            Ok(Vec::new(alloc))
        }
    }
}

/// The line of the compiler that an object's source takes.
fn compiler_text(alloc: Global, declared: &Declaration) -> Result<Vec<&str>, Memory>
    ensures { IfOk result (λ v. texts_in v.items ≡ spec.compiler_line declared.now.sources ∷ []) }
{
    if is_cplusplus_source(declared.sources.as_slice()) {
        one_text(alloc, "$CXXCOM")
    } else {
        one_text(alloc, "$CCCOM")
    }
}

/// The action of a script's own builder.
fn own_texts(alloc: Global, builders: &[Builder], number: u32) -> Result<Vec<&str>, Memory>
    ensures { IfOk result (λ v. texts_in v.items ≡ spec.action_of (slice_get builders.now number)) }
{
    match builders.get(number as usize) {
        Some(builder) => strs(alloc, builder.action.as_slice()),
        None => Ok(Vec::new(alloc)),
    }
}

fn one_text<'a>(alloc: Global, text: &'a str) -> Result<Vec<&'a str>, Memory>
    ensures { IfOk result (λ v. texts_in v.items ≡ text.now ∷ []) }
{
    let mut texts = Vec::new(alloc);
    texts.push(text)?;
    Ok(texts)
}

fn two_texts<'a>(alloc: Global, first: &'a str, second: &'a str) -> Result<Vec<&'a str>, Memory>
    ensures { IfOk result (λ v. texts_in v.items ≡ first.now ∷ second.now ∷ []) }
{
    let mut texts = one_text(alloc, first)?;
    texts.push(second)?;
    Ok(texts)
}

/// The name of a rule's builder: of one of a script's own its number.
fn builder_of(alloc: Global, declared: &Declaration) -> Result<Text, Memory>
    ensures { IfOk result (λ t. t ≡ spec.builder_of declared.now.recipe) }
{
    match &declared.recipe {
        Recipe::Object => Text::of(alloc, "Object"),
        Recipe::Program => Text::of(alloc, "Program"),
        Recipe::StaticLibrary => Text::of(alloc, "StaticLibrary"),
        Recipe::Command(_) => Text::of(alloc, "Command"),
        Recipe::Own(number) => Ok(Text::new(format!(in alloc; "{number}")?)),
        Recipe::Textfile(..) => Text::of(alloc, "Textfile"),
        Recipe::Substfile(_) => Text::of(alloc, "Substfile"),
        Recipe::Install => Text::of(alloc, "Install"),
        Recipe::InstallAs => Text::of(alloc, "InstallAs"),
    }
}
