//! Builders of a script's own, and Command.
ghost use Rattle.std.specs.Prelude.{◌≡◌, ◌≢◌, [], ◌∷◌, ◌++◌, Ok, Err, IfOk, IfErr, OnOk};
ghost use Rattle.std.specs.List.{flat_map};
ghost use Rattle.scons_decls.specs.State.{declared_of};
ghost use Rattle.scons_declare.specs.Calls.{nodes_in};
ghost use Rattle.scons_declare.specs.Owns as spec;

use crate::objects::{distinct_targets, each_once, named_all};
use crate::site::{Site, as_answer, declare_answering, one_path};
use crate::suffixes::{Affixes, affixes_of, dotted, plain, target_of};
use scons_base::{PathText, Paths, Text, Texts};
use scons_decls::{
    Answer, Builder, Declarations, Given, NameFault, Recipe, bad_argument, files_of,
};

/// A builder's affixes, expanded.
#[derive(Drop)]
struct Naming {
    target: Affixes,
    source: Affixes,
}

#[tactic(auto, unfolding(crate::specs::Owns::naming_of))]
fn naming_of(state: &Declarations, site: Site, builder: u32) -> Result<Naming, NameFault>
    ensures ok { IfOk result (λ a. spec.naming_of (declared_of state.now) site builder ≡ Ok a) }
    ensures fault { IfErr result (λ e. e ≢ NameFault.Memory
        → spec.naming_of (declared_of state.now) site builder ≡ Err e) }
{
    let Some(builder) = state.builders.get(builder as usize) else {
        return Ok(Naming {
            target: plain(state)?,
            source: plain(state)?,
        });
    };
    let suffix = dotted(state, &builder.suffix)?;
    let src_suffix = dotted(state, &builder.src_suffix)?;
    Ok(Naming {
        target: affixes_of(state, site.env, builder.prefix.as_str(), suffix.as_str())?,
        source: affixes_of(state, site.env, "", src_suffix.as_str())?,
    })
}

/// `env.N(target, source)` and `env.N(source)`. Without a source and a target nothing is declared.
pub(crate) fn own_rule(
    state: &mut Declarations,
    site: Site,
    builder: u32,
    name: &str,
    targets: Option<&[Given]>,
    sources: &[Given],
) -> Result<Answer, NameFault>
    ensures ok { IfOk result (λ a. spec.own_rule (declared_of state.old) site builder name.now
        (nodes_in targets.entry) sources.now ≡ Ok (a, declared_of state.new)) }
    ensures fault { IfErr result (λ e. e ≢ NameFault.Memory
        → spec.own_rule (declared_of state.old) site builder name.now (nodes_in targets.entry) sources.now ≡ Err e) }
{
    let naming = naming_of(state, site, builder)?;
    declare_own(state, site, &naming, builder, name, targets, sources)
}

#[tactic(auto, unfolding(crate::specs::Owns::own_declared))]
fn declare_own(
    state: &mut Declarations,
    site: Site,
    naming: &Naming,
    builder: u32,
    name: &str,
    targets: Option<&[Given]>,
    sources: &[Given],
) -> Result<Answer, NameFault>
    ensures ok { IfOk result (λ a. spec.own_declared (declared_of state.old) site naming.now builder name.now
        (nodes_in targets.entry) sources.now ≡ Ok (a, declared_of state.new)) }
    ensures fault { IfErr result (λ e. e ≢ NameFault.Memory → spec.own_declared (declared_of state.old) site
        naming.now builder name.now (nodes_in targets.entry) sources.now ≡ Err e) }
{
    let sources = named_all(state, site, &naming.source, name, sources)?;
    let targets = own_targets(state, site, naming, name, targets, sources.as_slice())?;
    declare_unless_none(state, site, builder, targets, sources)
}

/// Without a target nothing is declared.
#[tactic(auto, unfolding(crate::specs::Owns::unless_none))]
fn declare_unless_none(
    state: &mut Declarations,
    site: Site,
    builder: u32,
    targets: Paths,
    sources: Paths,
) -> Result<Answer, NameFault>
    ensures ok { IfOk result (λ a. spec.unless_none (declared_of state.old) site builder targets sources
        ≡ Ok (a, declared_of state.new)) }
    ensures fault { IfErr result (λ e. e ≡ NameFault.Memory) }
{
    if targets.as_slice().is_empty() {
        return as_answer(state, &[]);
    }
    declare_answering(state, site, Recipe::Own(builder), targets, sources)
}

/// The targets: where none is named, one by the first source, and none where there is no source either.
#[tactic(auto, unfolding(crate::specs::Owns::own_targets))]
fn own_targets(
    state: &Declarations,
    site: Site,
    naming: &Naming,
    name: &str,
    targets: Option<&[Given]>,
    sources: &[PathText],
) -> Result<Paths, NameFault>
    ensures ok { IfOk result (λ p. spec.own_targets (declared_of state.now) site naming.now name.now
        (nodes_in targets.entry) sources.now ≡ Ok p) }
    ensures fault { IfErr result (λ e. e ≢ NameFault.Memory → spec.own_targets (declared_of state.now) site
        naming.now name.now (nodes_in targets.entry) sources.now ≡ Err e) }
{
    match targets {
        Some(targets) => distinct_targets(state, site, &naming.target, name, targets),
        None => default_target(state, naming, sources),
    }
}

fn default_target(
    state: &Declarations,
    naming: &Naming,
    sources: &[PathText],
) -> Result<Paths, NameFault>
    ensures ok { IfOk result (λ p. spec.default_target naming.now sources.now ≡ Ok p) }
    ensures fault { IfErr result (λ e. e ≢ NameFault.Memory → spec.default_target naming.now sources.now ≡ Err e) }
{
    let Some(source) = sources.first() else {
        return Ok(Paths::new(Vec::new(state.alloc)));
    };
    let known = naming.source.suffix.as_str();
    let target = target_of(state, source, known, &naming.target)?;
    one_path(state, &target)
}

/// `Command(target, source, action)`. It may have no source.
pub(crate) fn command(
    state: &mut Declarations,
    site: Site,
    targets: &[Given],
    sources: &[Given],
    action: &Texts,
) -> Result<Answer, NameFault>
    ensures ok { IfOk result (λ a. spec.command (declared_of state.old) site targets.now sources.now action.now
        ≡ Ok (a, declared_of state.new)) }
    ensures fault { IfErr result (λ e. e ≢ NameFault.Memory
        → spec.command (declared_of state.old) site targets.now sources.now action.now ≡ Err e) }
{
    let lines = lines_of(state, action.as_slice())?;
    let targets = files_of(state, site.env, targets, "Command")?;
    let targets = each_once(state, "Command", targets)?;
    let sources = files_of(state, site.env, sources, "Command")?;
    declare_answering(state, site, Recipe::Command(lines), targets, sources)
}

/// `Builder(..)`: the number of the new builder.
pub(crate) fn new_builder(state: &mut Declarations, builder: &Builder) -> Result<Answer, NameFault>
    ensures ok { IfOk result (λ a. spec.new_builder (declared_of state.old) builder.now
        ≡ Ok (a, declared_of state.new)) }
    ensures fault { IfErr result (λ e. e ≢ NameFault.Memory
        → spec.new_builder (declared_of state.old) builder.now ≡ Err e) }
{
    let action = lines_of(state, builder.action.as_slice())?;
    let number = state.builders.len();
    if number >= u32::MAX as usize {
        return Err(NameFault::Memory);
    }
    let copy = Builder {
        action,
        prefix: builder.prefix.copy()?,
        suffix: builder.suffix.copy()?,
        src_suffix: builder.src_suffix.copy()?,
    };
    state.builders.push(copy)?;
    Ok(Answer::Builder(number as u32))
}

/// The lines of an action: each text is cut at line feeds.
fn lines_of(state: &Declarations, action: &[Text]) -> Result<Texts, NameFault>
    ensures ok { IfOk result (λ a. spec.lines_of action.now ≡ Ok a) }
    ensures fault { IfErr result (λ e. e ≢ NameFault.Memory → spec.lines_of action.now ≡ Err e) }
{
    let lines = lines_in(state, action)?;
    if are_empty(lines.as_slice()) {
        return Err(NameFault::EmptyAction);
    }
    Ok(lines)
}

fn lines_in(state: &Declarations, action: &[Text]) -> Result<Texts, NameFault>
    ensures ok { IfOk result (λ a. a ≡ flat_map spec.lines_in action.now) }
    ensures fault { IfErr result (λ e. e ≡ NameFault.Memory) }
{
    let mut lines = Texts::new(Vec::new(state.alloc));
    for text in action {
        push_lines(state, &mut lines, text.as_str())?;
    }
    Ok(lines)
}

fn are_empty(lines: &[Text]) -> bool
    ensures { result ≡ spec.are_empty lines.now }
{
    lines.iter().all(|line| line.as_str().is_empty())
}

fn push_lines(state: &Declarations, lines: &mut Texts, text: &str) -> Result<(), NameFault>
    ensures ok { OnOk result (lines.new ≡ lines.old ++ spec.lines_in text.now) }
    ensures fault { IfErr result (λ e. e ≡ NameFault.Memory) }
{
    let mut rest = text;
    'parts: while let Some((line, after)) = rest.split_once('\n') {
        push_line(state, lines, line)?;
        rest = after;
    }
    push_line(state, lines, rest)
}

fn push_line(state: &Declarations, lines: &mut Texts, line: &str) -> Result<(), NameFault>
    ensures ok { OnOk result (lines.new ≡ lines.old ++ line.now ∷ []) }
    ensures fault { IfErr result (λ e. e ≡ NameFault.Memory) }
{
    lines.push(Text::of(state.alloc, line)?)?;
    Ok(())
}
