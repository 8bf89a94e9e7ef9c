//! What lines speak of: an environment and a rule; and what is asked of them.
ghost use Rattle.std.specs.Prelude.{◌<◌, length};

use crate::rule::plain_rule;
use crate::shown::{put_fault, put_form, put_libs, put_paths, put_texts};
use crate::values::value;
use crate::written::put_value;
use env_subst::{Locals, Mode, command_lines, dirs, lib_names, lines, path_text, subst};
use env_vars::{EnvFault, EnvValue, Envs, GivenFault};
use scons_base::{EnvId, Text};
use std::alloc::Global;
use trial_text::Told;

/// A call that gives a variable a value.
#[derive(Clone, Copy)]
pub(crate) enum Call {
    Append,
    Prepend,
    AppendUnique,
    Set,
    SetDefault,
    /// Sets it to what is meant where the value is given to a clone or to one call.
    SetGiven,
    /// From here on the environment is an overlay that has it.
    Overlay,
}

/// The environment of a block, among those that were made before, and what a rule knows beside it.
#[derive(Drop)]
pub(crate) struct Trial {
    pub(crate) alloc: Global,
    pub(crate) told: Told,
    pub(crate) locals: Locals,
    envs: Envs,
    env: EnvId,
    last: EnvId,
    ghost has_env: { env.0 < length envs },
    ghost has_last: { last.0 < length envs },
}

impl Trial {
    pub(crate) fn new(alloc: Global) -> Option<Trial> {
        let locals = plain_rule(alloc)?;
        let mut envs = Envs::new(alloc);
        let env = envs.make().ok()?;
        Some(Trial {
            alloc,
            told: Told::new(alloc),
            locals,
            envs,
            env,
            last: env,
        })
    }

    /// From here on lines speak of a new environment, and of a rule at the top.
    pub(crate) fn begin(&mut self) {
        match plain_rule(self.alloc) {
            Some(locals) => self.locals = locals,
            None => self.told.refuse(),
        }
        self.renew();
    }

    /// From here on the environment is a new one.
    pub(crate) fn renew(&mut self) -> EnvId {
        match self.envs.make() {
            Ok(env) => self.last = env,
            Err(_) => self.told.refuse(),
        }
        self.env = self.last;
        self.last
    }

    /// From here on it is a clone of what it was.
    pub(crate) fn enter_clone(&mut self) -> EnvId {
        match self.envs.clone_of(self.env) {
            Ok(env) => self.last = env,
            Err(_) => self.told.refuse(),
        }
        self.env = self.last;
        self.last
    }

    /// From here on it is an overlay of what it was, with these variables.
    pub(crate) fn enter_overlay(&mut self, names: &[(Text, EnvValue)]) -> EnvId {
        match self.envs.overlay(self.env, names) {
            Ok(env) => self.last = env,
            Err(_) => self.told.refuse(),
        }
        self.env = self.last;
        self.last
    }

    /// From here on it is one that was there before.
    pub(crate) fn enter(&mut self, env: EnvId) {
        if env.0 <= self.last.0 {
            self.env = env;
        }
    }

    pub(crate) fn env(&self) -> EnvId {
        self.env
    }

    /// Changes the variable of the first field by a call with the value of the second.
    pub(crate) fn change(&mut self, call: Call, text: &str) {
        match text.split_once('|') {
            Some((name, given)) => self.change_to(call, name, given),
            None => self.told.refuse(),
        }
    }

    /// Changes a variable by a call with a value that fits.
    pub(crate) fn change_to(&mut self, call: Call, name: &str, given: &str) {
        let answer = match value(self.alloc, given) {
            Some(given) => self.call(call, name, given),
            None => Err(EnvFault::Kinds),
        };
        if answer.is_err() {
            self.told.refuse();
        }
    }

    fn call(&mut self, call: Call, name: &str, value: EnvValue) -> Result<(), EnvFault> {
        match call {
            Call::Append => self.envs.append(self.env, name, value),
            Call::Prepend => self.envs.prepend(self.env, name, value),
            Call::AppendUnique => self.envs.append_unique(self.env, name, value),
            Call::Set => self.envs.set(self.env, name, value),
            Call::SetDefault => self.envs.set_default(self.env, name, value),
            Call::SetGiven => self.set_given(name, value),
            Call::Overlay => self.overlay(name, value),
        }
    }

    fn set_given(&mut self, name: &str, value: EnvValue) -> Result<(), EnvFault> {
        match self.envs.given(self.env, name, value) {
            Ok(value) => self.envs.set(self.env, name, value),
            Err(_) => Err(EnvFault::Memory),
        }
    }

    fn overlay(&mut self, name: &str, value: EnvValue) -> Result<(), EnvFault> {
        let mut names = Vec::new(self.alloc);
        let name = Text::of(self.alloc, name)?;
        if names.push((name, value)).is_err() {
            return Err(EnvFault::Memory);
        }
        self.enter_overlay(names.as_slice());
        Ok(())
    }

    /// What a variable holds after a call, or a `!` where the kinds don't fit.
    pub(crate) fn put_changed(&mut self, call: Call, name: &str, given: &str) {
        let Some(given) = value(self.alloc, given) else {
            return self.told.refuse();
        };
        self.told.put("|");
        match self.call(call, name, given) {
            Ok(()) => self.put_held(name),
            Err(EnvFault::Kinds) => self.told.put("!"),
            Err(EnvFault::Memory) => self.told.refuse(),
        }
    }

    /// What a variable holds.
    pub(crate) fn put_held(&mut self, name: &str) {
        put_value(&mut self.told, self.envs.get(self.env, name));
    }

    /// Whether a value of a variable is taken where it is given to a clone or to one call.
    pub(crate) fn put_given(&mut self, name: &str, given: &str) {
        let Some(given) = value(self.alloc, given) else {
            return self.told.refuse();
        };
        match self.envs.given(self.env, name, given) {
            Ok(_) => self.told.put("|taken"),
            Err(GivenFault::TooLong) => self.told.put("|too long"),
            Err(GivenFault::Memory) => self.told.refuse(),
        }
    }

    /// The three forms of a text.
    pub(crate) fn put_forms(&mut self, text: &str) {
        for mode in [Mode::Text, Mode::Raw, Mode::Signed] {
            let form = subst(self.alloc, &self.envs, self.env, text, &self.locals, mode);
            put_form(&mut self.told, &form);
        }
    }

    /// The directories that a variable holds.
    pub(crate) fn put_dirs(&mut self, name: &str) {
        match dirs(self.alloc, &self.envs, self.env, name, &self.locals) {
            Ok(paths) => put_paths(&mut self.told, paths.as_slice()),
            Err(fault) => put_fault(&mut self.told, &fault),
        }
    }

    /// The items of `LIBS`.
    pub(crate) fn put_libs(&mut self) {
        match lib_names(self.alloc, &self.envs, self.env, &self.locals) {
            Ok(items) => put_libs(&mut self.told, items.as_slice()),
            Err(fault) => put_fault(&mut self.told, &fault),
        }
    }

    /// A command's lines as text and signed.
    pub(crate) fn put_lines(&mut self, text: &str) {
        self.put_lines_as(text, Mode::Text);
        self.told.put("|signed");
        self.put_lines_as(text, Mode::Signed);
    }

    fn put_lines_as(&mut self, text: &str, mode: Mode) {
        match lines(self.alloc, &self.envs, self.env, text, &self.locals, mode) {
            Ok(texts) => put_texts(&mut self.told, texts.as_slice()),
            Err(fault) => put_fault(&mut self.told, &fault),
        }
    }

    /// The same of one reading.
    pub(crate) fn put_command(&mut self, text: &str) {
        match command_lines(self.alloc, &self.envs, self.env, text, &self.locals) {
            Ok(lines) => {
                put_texts(&mut self.told, lines.plain.as_slice());
                self.told.put("|signed");
                put_texts(&mut self.told, lines.signed.as_slice());
            }
            Err(fault) => put_fault(&mut self.told, &fault),
        }
    }

    /// The text of a path.
    pub(crate) fn put_path(&mut self, text: &str) {
        let form = path_text(self.alloc, &self.envs, self.env, text, &self.locals);
        put_form(&mut self.told, &form);
    }
}
