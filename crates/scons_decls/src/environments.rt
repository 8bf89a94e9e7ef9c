//! The environments of a reading, each with its decider and the builders that scripts gave it.
ghost use Rattle.std.specs.Prelude.{◌≡◌, ◌≢◌, ◌<◌, [], true, Some, None, Ok, Err, codes, length, option_copied, IfOk, IfErr, OnOk, string_bytes};
ghost use Rattle.env_pieces.specs.declared.form.Mode.TheVariants as mode;
ghost use Rattle.env_subst.specs.declared.locals.Locals.{Locals};
ghost use Rattle.env_subst.specs.Contents.{said, held_or_nothing};
ghost use Rattle.scons_decls.specs.Steps.{each};
ghost use Rattle.scons_decls.specs.Environs as spec;

use crate::fault::NameFault;
use crate::numbers::Numbers;
use crate::profile::refuse_variables;
use crate::references::refuse_references;
use env_subst::{
    CommandLines, LibItem, Locals, Mode, command_lines, dirs, lib_names, path_text, subst,
};
use env_vars::{EnvFault, EnvValue, Envs};
use scons_base::{EnvId, Listing, Memory, Paths, Text};
use std::alloc::Global;
use std::marker::Model;
use world_api::Decider;

/// What scripts chose for an environment beside its variables.
#[derive(Drop)]
pub(crate) struct Choices {
    /// The decider that a script gave it.
    decider: Option<Decider>,
    /// The numbers of its own builders.
    builders: Numbers,
}

impl Choices {
    fn none(alloc: Global) -> Choices
        ensures { result ≡ spec.no_choices }
    {
        Choices {
            decider: None,
            builders: Numbers::new(alloc),
        }
    }

    fn copy(&self, alloc: Global) -> Result<Choices, Memory>
        ensures { IfOk result (λ c. c ≡ self.now) }
    {
        Ok(Choices {
            decider: self.decider,
            builders: self.builders.copy(alloc)?,
        })
    }
}

/// Environments by their numbers. The first is the default one, and a number that was never given stands for it.
#[derive(Drop)]
pub struct Environments {
    alloc: Global,
    envs: Envs,
    choices: Vec<Choices>,
}

impl Model for Environments {
    ghost use Rattle.std.specs.Prelude.{◌≡◌, ◌<◌, length};
    ghost use Rattle.scons_decls.specs.Environs.{Environs};

    ghost Value = { Environs };

    ghost view = { λ e. record { scopes = e.envs; choices = e.choices.items } };

    ghost invariant = { λ e. (length e.choices.items ≡ length e.envs) × (0 < length e.envs) };
}

impl Environments {
    /// The default environment alone.
    pub(crate) fn new(alloc: Global) -> Result<Environments, Memory>
        ensures { IfOk result (λ e. e ≡ spec.with_new (record { scopes = []; choices = [] })) }
    {
        let mut envs = Envs::new(alloc);
        envs.make()?;
        let mut choices = Vec::new(alloc);
        choices.push(Choices::none(alloc))?;
        Ok(Environments {
            alloc,
            envs,
            choices,
        })
    }

    /// This environment, or the default one in place of a number that was never given.
    fn held(&self, env: EnvId) -> EnvId
        ensures number { result.0 ≡ spec.held self.now env.0 }
        ensures there { result.0 < length self.now.scopes }
    {
        if env.0 < self.choices.len() as u64 {
            env
        } else {
            EnvId(0)
        }
    }

    /// A new environment with the default variables; its number.
    pub fn make(&mut self) -> Result<EnvId, NameFault>
        ensures ok { IfOk result (λ id. (id.0 ≡ length self.old.scopes) × (self.new ≡ spec.with_new self.old)) }
        ensures fault { IfErr result (λ e. e ≡ NameFault.Memory) }
    {
        self.choices.push(Choices::none(self.alloc))?;
        match self.envs.make() {
            Ok(id) => Ok(id),
            Err(_) => {
                self.choices.pop();
                Err(NameFault::Memory)
            }
        }
    }

    /// A copy with the same decider and builders.
    pub fn clone_of(&mut self, env: EnvId) -> Result<EnvId, NameFault>
        ensures ok { IfOk result (λ id. (id.0 ≡ length self.old.scopes)
            × (self.new ≡ spec.with_clone self.old env.0)) }
        ensures fault { IfErr result (λ e. e ≡ NameFault.Memory) }
    {
        let held = self.held(env);
        let choices = self.choices[held.0 as usize].copy(self.alloc)?;
        self.choices.push(choices)?;
        match self.envs.clone_of(held) {
            Ok(id) => Ok(id),
            Err(_) => {
                self.choices.pop();
                Err(NameFault::Memory)
            }
        }
    }

    /// The environment of one call: the variables that the call gave, in front of its environment.
    pub fn of_call(&mut self, env: EnvId, values: &[(Text, EnvValue)]) -> Result<EnvId, NameFault>
        ensures ok { IfOk result (λ id. spec.of_call self.old env.0 values.now ≡ Ok (id.0, self.new)) }
        ensures fault { IfErr result (λ e. e ≢ NameFault.Memory → spec.of_call self.old env.0 values.now ≡ Err e) }
    {
        refuse_variables(self.alloc, values)?;
        let env = self.held(env);
        if values.is_empty() {
            return Ok(env);
        }
        let names = self.given_all(env, values)?;
        self.overlay(env, names.as_slice())
    }

    fn overlay(&mut self, env: EnvId, names: &[(Text, EnvValue)]) -> Result<EnvId, NameFault>
        requires { env.0 < length self.old.scopes }
        ensures ok { IfOk result (λ id. (id.0 ≡ length self.old.scopes)
            × (self.new ≡ spec.with_overlay self.old env.0 names.now)) }
        ensures fault { IfErr result (λ e. e ≡ NameFault.Memory) }
    {
        self.choices.push(Choices::none(self.alloc))?;
        match self.envs.overlay(env, names) {
            Ok(id) => Ok(id),
            Err(_) => {
                self.choices.pop();
                Err(NameFault::Memory)
            }
        }
    }

    /// Values given to a clone of an environment or to one call, in which a variable's own name stands for its old value.
    fn given_all(
        &self,
        env: EnvId,
        values: &[(Text, EnvValue)],
    ) -> Result<Vec<(Text, EnvValue)>, NameFault>
        ensures ok { IfOk result (λ v. each (spec.var_given self.now env.0) values.now ≡ Ok v.items) }
        ensures fault { IfErr result (λ e. e ≢ NameFault.Memory
            → each (spec.var_given self.now env.0) values.now ≡ Err e) }
    {
        let mut names = Vec::new(self.alloc);
        for (name, value) in values {
            let given = self.given(env, name, value)?;
            names.push((name.copy()?, given))?;
        }
        Ok(names)
    }

    /// One such value.
    pub fn given(&self, env: EnvId, name: &Text, value: &EnvValue) -> Result<EnvValue, NameFault>
        ensures ok { IfOk result (λ v. spec.value_given self.now env.0 name.now value.now ≡ Ok v) }
        ensures fault { IfErr result (λ e. e ≢ NameFault.Memory
            → spec.value_given self.now env.0 name.now value.now ≡ Err e) }
    {
        let value = value.copy(self.alloc)?;
        Ok(self.envs.given(self.held(env), name.as_str(), value)?)
    }

    /// The value of a variable, if it has one.
    pub fn get(&self, env: EnvId, name: &str) -> Option<&EnvValue>
        ensures { option_copied result ≡ spec.variable_of self.now env.0 name.now }
    {
        self.envs.get(self.held(env), name)
    }

    /// Gives a variable a value in place of the one that it had.
    pub fn set(&mut self, env: EnvId, name: &str, value: EnvValue) -> Result<(), EnvFault>
        ensures ok { OnOk result (self.new ≡ spec.with_value self.old env.0 name.now value) }
        ensures fault { IfErr result (λ e. e ≡ EnvFault.Memory) }
    {
        let env = self.held(env);
        self.envs.set(env, name, value)
    }

    /// `Append`: a value behind the one that the variable has.
    pub fn append(&mut self, env: EnvId, name: &str, value: EnvValue) -> Result<(), EnvFault>
        ensures ok { OnOk result (spec.with_behind self.old env.0 name.now value ≡ Some self.new) }
        ensures fault { IfErr result (λ e. e ≢ EnvFault.Memory
            → (e ≡ EnvFault.Kinds) × (spec.with_behind self.old env.0 name.now value ≡ None)) }
    {
        let env = self.held(env);
        self.envs.append(env, name, value)
    }

    /// `Prepend`: a value in front of the one that the variable has.
    pub fn prepend(&mut self, env: EnvId, name: &str, value: EnvValue) -> Result<(), EnvFault>
        ensures ok { OnOk result (spec.with_in_front self.old env.0 name.now value ≡ Some self.new) }
        ensures fault { IfErr result (λ e. e ≢ EnvFault.Memory
            → (e ≡ EnvFault.Kinds) × (spec.with_in_front self.old env.0 name.now value ≡ None)) }
    {
        let env = self.held(env);
        self.envs.prepend(env, name, value)
    }

    /// `AppendUnique`: those items behind the variable's that it doesn't have yet.
    pub fn append_unique(&mut self, env: EnvId, name: &str, value: EnvValue) -> Result<(), EnvFault>
        ensures ok { OnOk result (spec.with_missing self.old env.0 name.now value ≡ Some self.new) }
        ensures fault { IfErr result (λ e. e ≢ EnvFault.Memory
            → (e ≡ EnvFault.Kinds) × (spec.with_missing self.old env.0 name.now value ≡ None)) }
    {
        let env = self.held(env);
        self.envs.append_unique(env, name, value)
    }

    /// `SetDefault`: a value for a variable that has none.
    pub fn set_default(&mut self, env: EnvId, name: &str, value: EnvValue) -> Result<(), EnvFault>
        ensures ok { OnOk result (self.new ≡ spec.with_default self.old env.0 name.now value) }
        ensures fault { IfErr result (λ e. e ≡ EnvFault.Memory) }
    {
        let env = self.held(env);
        self.envs.set_default(env, name, value)
    }

    /// What a text stands for in an environment.
    pub fn subst(
        &self,
        env: EnvId,
        text: &str,
        locals: &Locals,
        mode: Mode,
    ) -> Result<Text, NameFault>
        ensures ok { IfOk result (λ t. spec.expanded self.now locals.now env.0 mode text.now ≡ Ok t) }
        ensures fault { IfErr result (λ e. e ≢ NameFault.Memory
            → spec.expanded self.now locals.now env.0 mode text.now ≡ Err e) }
    {
        refuse_references(self.alloc, text)?;
        let text = subst(self.alloc, &self.envs, self.held(env), text, locals, mode)?;
        Ok(Text::new(text))
    }

    /// The lines of a command, cut where its expansion has a line feed.
    pub fn lines(&self, env: EnvId, text: &str, locals: &Locals) -> Result<CommandLines, NameFault>
        ensures plain { IfOk result (λ c. spec.lines_in self.now locals.now env.0 mode.Text text.now ≡ Ok c.plain) }
        ensures signed { IfOk result (λ c. spec.lines_in self.now locals.now env.0 mode.Signed text.now
            ≡ Ok c.signed) }
        ensures fault { IfErr result (λ e. e ≢ NameFault.Memory
            → spec.lines_in self.now locals.now env.0 mode.Signed text.now ≡ Err e) }
    {
        refuse_references(self.alloc, text)?;
        Ok(command_lines(self.alloc, &self.envs, self.held(env), text, locals)?)
    }

    /// The text of a path.
    pub fn path_text(&self, env: EnvId, text: &str, locals: &Locals) -> Result<String, NameFault>
        ensures ok { IfOk result (λ s. spec.spelled self.now locals.now env.0 text.now ≡ Ok (string_bytes s)) }
        ensures fault { IfErr result (λ e. e ≢ NameFault.Memory
            → spec.spelled self.now locals.now env.0 text.now ≡ Err e) }
    {
        refuse_references(self.alloc, text)?;
        Ok(path_text(self.alloc, &self.envs, self.held(env), text, locals)?)
    }

    /// The libraries that an environment names.
    pub fn lib_names(&self, env: EnvId, locals: &Locals) -> Result<Listing<LibItem>, NameFault>
        ensures ok { IfOk result (λ l. spec.libraries self.now locals.now env.0 ≡ Ok l) }
        ensures fault { IfErr result (λ e. e ≢ NameFault.Memory
            → spec.libraries self.now locals.now env.0 ≡ Err e) }
    {
        Ok(lib_names(self.alloc, &self.envs, self.held(env), locals)?)
    }

    /// The directories of a search path.
    pub fn dirs(&self, env: EnvId, name: &str, locals: &Locals) -> Result<Paths, NameFault>
        ensures ok { IfOk result (λ p. spec.search_path self.now locals.now env.0 name.now ≡ Ok p) }
        ensures fault { IfErr result (λ e. e ≢ NameFault.Memory
            → spec.search_path self.now locals.now env.0 name.now ≡ Err e) }
    {
        Ok(dirs(self.alloc, &self.envs, self.held(env), name, locals)?)
    }

    /// The directories in which headers are looked for.
    pub fn header_dirs(&self, env: EnvId, locals: &Locals) -> Result<Paths, NameFault>
        ensures ok { IfOk result (λ p. spec.search_path self.now locals.now env.0 (codes "CPPPATH") ≡ Ok p) }
        ensures fault { IfErr result (λ e. e ≢ NameFault.Memory
            → spec.search_path self.now locals.now env.0 (codes "CPPPATH") ≡ Err e) }
    {
        if has_no_items(self.get(env, "CPPPATH")) {
            return Ok(Paths::new(Vec::new(self.alloc)));
        }
        self.dirs(env, "CPPPATH", locals)
    }

    /// The decider of an environment: its own, or else that of the default environment.
    pub fn decider(&self, env: EnvId) -> Decider
        ensures { result ≡ spec.decider_of self.now env.0 }
    {
        match self.own_decider(env) {
            Some(decider) => decider,
            None => self.own_decider(EnvId(0)).unwrap_or(Decider::Content),
        }
    }

    fn own_decider(&self, env: EnvId) -> Option<Decider>
        ensures { result ≡ (spec.choices_of self.now env.0).decider }
    {
        self.choices[self.held(env).0 as usize].decider
    }

    /// Gives an environment a decider of its own.
    pub fn set_decider(&mut self, env: EnvId, decider: Decider)
        ensures { self.new ≡ spec.with_decider self.old env.0 decider }
    {
        let env = self.held(env);
        let choices = &mut self.choices[env.0 as usize];
        choices.decider = Some(decider);
    }

    /// The number of the builder that an environment has under a name.
    pub fn builder_of(&self, env: EnvId, name: &str) -> Option<u32>
        ensures { result ≡ spec.builder_of self.now env.0 name.now }
    {
        self.choices[self.held(env).0 as usize].builders.get(name)
    }

    /// Gives an environment the builder of this number under a name, in place of one that stood there.
    pub fn set_builder(&mut self, env: EnvId, name: &Text, builder: u32) -> Result<(), NameFault>
        ensures ok { OnOk result (self.new ≡ spec.with_builder self.old env.0 name.now builder) }
        ensures fault { IfErr result (λ e. e ≡ NameFault.Memory) }
    {
        let name = String::from_str(self.alloc, name.as_str())?;
        let env = self.held(env);
        let choices = &mut self.choices[env.0 as usize];
        choices.builders.put(name, builder)?;
        Ok(())
    }
}

/// Whether a list variable of this value, or without one, has no items.
fn has_no_items(value: Option<&EnvValue>) -> bool
    ensures { result ≡ true → (locals : Locals) → said locals (held_or_nothing (option_copied value.entry)) ≡ [] }
{
    match value {
        None => true,
        Some(EnvValue::List(items)) => items.as_slice().is_empty(),
        Some(EnvValue::Words(words)) => words.as_slice().is_empty(),
        Some(_) => false,
    }
}
