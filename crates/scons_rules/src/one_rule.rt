//! One declared rule, with what its texts are expanded with.
ghost use Rattle.std.specs.Prelude.{◌≡◌, ◌≢◌, Ok, Err, Some, None, IfOk, IfErr, MatchOption, codes, slice_get};
ghost use Rattle.scons_rules.specs.Knowing.{work_of};
ghost use Rattle.scons_rules.specs.Expanding.{expanding, text_of, command_of, lib_items_of, dirs_of};

use crate::fault::RuleReadFault;
use env_subst::{CommandLines, LibItem, Locals, Mode};
use scons_base::{EnvId, Listing, Paths, Text};
use scons_decls::{Declaration, Declarations, Recipe};
use std::alloc::Global;
use world_api::Work;

/// One declared rule, and what its texts are expanded with.
#[derive(Clone, Copy)]
pub(crate) struct OneRule<'a> {
    pub(crate) alloc: Global,
    pub(crate) state: &'a Declarations,
    pub(crate) declared: &'a Declaration,
    pub(crate) locals: &'a Locals,
}

impl<'a> OneRule<'a> {
    /// The rule of a number.
    pub(crate) fn at(
        alloc: Global,
        state: &'a Declarations,
        number: usize,
        locals: &'a Locals,
    ) -> Option<OneRule<'a>>
        ensures { MatchOption result (slice_get state.now.rules.items number ≡ None)
            (λ r. (slice_get state.now.rules.items number ≡ Some r.declared.now) × (r.state.now ≡ state.now)
            × (r.locals.now ≡ locals.now)) }
    {
        let declared = state.rules.get(number)?;
        Some(OneRule {
            alloc,
            state,
            declared,
            locals,
        })
    }

    pub(crate) fn env(&self) -> EnvId
        ensures { result ≡ self.now.declared.now.env }
    {
        self.declared.env
    }

    pub(crate) fn work(&self) -> Work
        ensures { result ≡ work_of self.now.declared.now.recipe }
    {
        work_of(self.declared)
    }

    /// What a text stands for.
    pub(crate) fn text(&self, text: &str) -> Result<Text, RuleReadFault>
        ensures ok { IfOk result (λ t. text_of (expanding self.now) text.now ≡ Ok t) }
        ensures fault { IfErr result (λ e. e ≢ RuleReadFault.Memory → text_of (expanding self.now) text.now ≡ Err e) }
    {
        let envs = &self.state.envs;
        Ok(envs.subst(self.env(), text, self.locals, Mode::Text)?)
    }

    /// The lines that a text stands for.
    pub(crate) fn lines(&self, text: &str) -> Result<CommandLines, RuleReadFault>
        ensures ok { IfOk result (λ c. command_of (expanding self.now) text.now ≡ Ok c) }
        ensures fault { IfErr result (λ e. e ≢ RuleReadFault.Memory → command_of (expanding self.now) text.now ≡ Err e) }
    {
        Ok(self.state.envs.lines(self.env(), text, self.locals)?)
    }

    /// The libraries that its environment names.
    pub(crate) fn lib_names(&self) -> Result<Listing<LibItem>, RuleReadFault>
        ensures ok { IfOk result (λ l. lib_items_of (expanding self.now) ≡ Ok l) }
        ensures fault { IfErr result (λ e. e ≢ RuleReadFault.Memory → lib_items_of (expanding self.now) ≡ Err e) }
    {
        Ok(self.state.envs.lib_names(self.env(), self.locals)?)
    }

    /// The directories in which libraries are looked for.
    pub(crate) fn lib_dirs(&self) -> Result<Paths, RuleReadFault>
        ensures ok { IfOk result (λ p. dirs_of (expanding self.now) (codes "LIBPATH") ≡ Ok p) }
        ensures fault { IfErr result (λ e. e ≢ RuleReadFault.Memory → dirs_of (expanding self.now) (codes "LIBPATH") ≡ Err e) }
    {
        Ok(self.state.envs.dirs(self.env(), "LIBPATH", self.locals)?)
    }

    /// The directories in which headers are looked for.
    pub(crate) fn header_dirs(&self) -> Result<Paths, RuleReadFault>
        ensures ok { IfOk result (λ p. dirs_of (expanding self.now) (codes "CPPPATH") ≡ Ok p) }
        ensures fault { IfErr result (λ e. e ≢ RuleReadFault.Memory → dirs_of (expanding self.now) (codes "CPPPATH") ≡ Err e) }
    {
        Ok(self.state.envs.header_dirs(self.env(), self.locals)?)
    }
}

pub(crate) fn work_of(declared: &Declaration) -> Work
    ensures { result ≡ work_of declared.now.recipe }
{
    match declared.recipe {
        Recipe::Install | Recipe::InstallAs => Work::Copy,
        Recipe::Textfile(..) | Recipe::Substfile(_) => Work::Write,
        _ => Work::Shell,
    }
}
