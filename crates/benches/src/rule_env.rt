//! An environment, and a rule at the top with one target and one source.
ghost use Rattle.std.specs.Prelude.{◌<◌, length};

use env_subst::{Locals, Mode, Named, lib_names, subst};
use env_vars::{EnvValue, Envs};
use scons_base::{EnvId, PathText, Text};
use std::alloc::Global;
use variant_dirs::Variants;

/// An environment, and a rule at the top with one target and one source.
#[derive(Drop)]
pub struct RuleEnv {
    pub alloc: Global,
    envs: Envs,
    env: EnvId,
    locals: Locals,
    ghost has_env: { env.0 < length envs },
}

impl RuleEnv {
    pub fn new(alloc: Global) -> Option<RuleEnv> {
        let locals = locals(alloc)?;
        let mut envs = Envs::new(alloc);
        let env = envs.make().ok()?;
        Some(RuleEnv {
            alloc,
            envs,
            env,
            locals,
        })
    }

    pub fn set(&mut self, name: &str, value: EnvValue) -> Option<()> {
        self.envs.set(self.env, name, value).ok()
    }

    /// How many items a list has that is given for a variable to a clone.
    pub fn items_given(&self, name: &str, value: EnvValue) -> Option<usize> {
        match self.envs.given(self.env, name, value) {
            Ok(EnvValue::List(items)) => Some(items.as_slice().len()),
            _ => None,
        }
    }

    /// How many bytes a form of a text has.
    pub fn bytes_of(&self, text: &str, mode: Mode) -> Option<usize> {
        match subst(self.alloc, &self.envs, self.env, text, &self.locals, mode) {
            Ok(form) => Some(form.len()),
            Err(_) => None,
        }
    }

    /// How many libraries there are.
    pub fn libraries(&self) -> Option<usize> {
        match lib_names(self.alloc, &self.envs, self.env, &self.locals) {
            Ok(items) => Some(items.as_slice().len()),
            Err(_) => None,
        }
    }
}

fn locals(alloc: Global) -> Option<Locals> {
    let smartlink = Text::of(alloc, "$CC").ok()?;
    let dir = path(alloc, ".")?;
    let top = path(alloc, "/top")?;
    Some(Locals {
        targets: nodes(alloc, "build/main.o")?,
        sources: nodes(alloc, "src/main.c")?,
        smartlink,
        dir,
        top,
        variants: Variants::new(alloc),
    })
}

/// A node alone.
fn nodes(alloc: Global, text: &str) -> Option<Vec<Named>> {
    let mut nodes = Vec::new(alloc);
    nodes.push(named(alloc, text)?).ok()?;
    Some(nodes)
}

fn named(alloc: Global, text: &str) -> Option<Named> {
    Some(Named {
        path: path(alloc, text)?,
        src: path(alloc, text)?,
    })
}

fn path(alloc: Global, text: &str) -> Option<PathText> {
    PathText::read(alloc, text).ok()
}
