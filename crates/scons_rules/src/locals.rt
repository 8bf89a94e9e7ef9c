//! What the lines of a rule know beside its environment.
ghost use Rattle.std.specs.Prelude.{◌≡◌, ◌≢◌, ◌||◌, ◌++◌, [], ℕ, List, Ok, Err, IfOk, IfErr, OnOk, codes, map, fold};
ghost use Rattle.std.specs.List.{list_any};
ghost use Rattle.std.specs.Str.{bytes_eq};
ghost use Rattle.node_tree.specs.Nodes.{with_path};
ghost use Rattle.scons_decls.specs.State.{declared_of, rule_of};
ghost use Rattle.scons_rules.specs.Shell.{all_in_line};
ghost use Rattle.scons_rules.specs.Settled.{settled};
ghost use Rattle.scons_rules.specs.Knowing as spec;

use crate::fault::RuleReadFault;
use crate::one_rule::work_of;
use crate::shell::refuse_for_shell;
use crate::sources::{all_settled, named_all};
use env_subst::Locals;
use indexmap::IndexSet;
use scons_base::{Memory, PathText, Text};
use scons_decls::{Declaration, Declarations, Language, Recipe, language_of};
use std::alloc::Global;
use std::marker::Model;
use world_api::Work;

/// What the lines of a rule know: its nodes, the directory of its script, and what `$SMARTLINK` stands for.
#[derive(Drop)]
pub struct RuleLocals {
    pub(crate) locals: Locals,
}

impl Model for RuleLocals {
    ghost use Rattle.env_subst.specs.declared.locals.Locals.{Locals};

    ghost Value = { Locals };

    ghost view = { λ l. l.locals };
}

impl RuleLocals {
    /// Those of no rule yet.
    pub(crate) fn new(alloc: Global, state: &Declarations) -> Result<RuleLocals, Memory>
        ensures { IfOk result (λ l. spec.known_of l ≡ spec.of_no_rule (declared_of state.now)) }
    {
        let known = &state.locals;
        Ok(RuleLocals {
            locals: Locals {
                targets: Vec::new(alloc),
                sources: Vec::new(alloc),
                smartlink: Text::of(alloc, "$CC")?,
                dir: known.dir.copy()?,
                top: known.top.copy()?,
                variants: known.variants.copy()?,
            },
        })
    }

    /// Makes them those of a rule. `cplusplus` has the objects that are made of C++ sources.
    pub(crate) fn begin(
        &mut self,
        alloc: Global,
        state: &Declarations,
        declared: &Declaration,
        cplusplus: &IndexSet<PathText>,
    ) -> Result<(), RuleReadFault>
        ensures ok { OnOk result (spec.of_rule (declared_of state.now) cplusplus.now.keys (rule_of declared.now)
            (spec.known_of self.old) ≡ Ok (spec.known_of self.new)) }
        ensures fault { IfErr result (λ e. e ≢ RuleReadFault.Memory
            → spec.of_rule (declared_of state.now) cplusplus.now.keys (rule_of declared.now)
            (spec.known_of self.old) ≡ Err e) }
    {
        let files = all_settled(alloc, state, declared.sources.as_slice())?;
        refuse_in_lines(files.as_slice(), declared)?;
        let locals = &mut self.locals;
        locals.sources = named_all(alloc, state, files.as_slice())?;
        locals.targets = named_all(alloc, state, declared.targets.as_slice())?;
        locals.dir = declared.dir.copy()?;
        locals.smartlink = Text::of(alloc, smartlink_of(cplusplus, declared))?;
        Ok(())
    }
}

/// Refuses what of a rule's sources and targets the shell would act on.
fn refuse_in_lines(files: &[PathText], declared: &Declaration) -> Result<(), RuleReadFault>
    ensures ok { OnOk result (spec.shown_in_lines (spec.work_of declared.now.recipe) files.now declared.now.targets
        ≡ Ok tt) }
    ensures fault { IfErr result (λ e. e ≢ RuleReadFault.Memory
        → spec.shown_in_lines (spec.work_of declared.now.recipe) files.now declared.now.targets ≡ Err e) }
{
    match work_of(declared) {
        Work::Shell => {
            refuse_for_shell(files)?;
            refuse_for_shell(declared.targets.as_slice())
        }
        Work::Copy | Work::Write => Ok(()),
    }
}

fn smartlink_of(objects: &IndexSet<PathText>, declared: &Declaration) -> &'static str
    ensures { result.now ≡ spec.smartlink_of objects.now.keys declared.now.sources }
{
    if has_cplusplus(objects, declared.sources.as_slice()) {
        "$CXX"
    } else {
        "$CC"
    }
}

/// Whether one of these is a C++ source or an object of one.
fn has_cplusplus(objects: &IndexSet<PathText>, sources: &[PathText]) -> bool
    ensures { result ≡ list_any (λ s. spec.is_cplusplus s || list_any (bytes_eq s) objects.now.keys) sources.now }
{
    for source in sources {
        if is_cplusplus(source) || objects.contains(source) {
            return true;
        }
    }
    false
}

/// The objects that are made of C++ sources.
pub(crate) fn cplusplus_objects(
    alloc: Global,
    rules: &[Declaration],
) -> Result<IndexSet<PathText>, Memory>
    ensures { IfOk result (λ o. o.keys ≡ spec.cplusplus_objects (map rule_of rules.now)) }
{
    let mut objects = IndexSet::new(alloc);
    for rule in rules {
        if is_cplusplus_object(rule) {
            add_all(&mut objects, rule.targets.as_slice())?;
        }
    }
    Ok(objects)
}

fn is_cplusplus_object(rule: &Declaration) -> bool
    ensures { spec.cplusplus_of (rule_of rule.now) ≡ spec.unless_none result rule.now.targets }
{
    match rule.recipe {
        Recipe::Object => is_cplusplus_source(rule.sources.as_slice()),
        _ => false,
    }
}

pub(crate) fn is_cplusplus_source(sources: &[PathText]) -> bool
    ensures { result ≡ spec.is_cplusplus_source sources.now }
{
    match sources.first() {
        Some(source) => is_cplusplus(source),
        None => false,
    }
}

fn is_cplusplus(source: &PathText) -> bool
    ensures { result ≡ spec.is_cplusplus source.now }
{
    match language_of(source) {
        Some(Language::CPlusPlus) => true,
        Some(Language::C) | None => false,
    }
}

fn add_all(objects: &mut IndexSet<PathText>, paths: &[PathText]) -> Result<(), Memory>
    ensures { OnOk result (objects.new.keys ≡ fold with_path objects.old.keys paths.now) }
{
    for path in paths {
        objects.insert(path.copy()?)?;
    }
    Ok(())
}
