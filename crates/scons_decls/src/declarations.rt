//! The state of a reading: what the scripts read so far have declared.
ghost use Rattle.std.specs.Prelude.{◌≡◌, IfOk, codes, []};
ghost use Rattle.scons_decls.specs.Environs.{builder_of};
ghost use Rattle.scons_decls.specs.State.{declared_of, IsFresh};

use crate::aliases::Aliases;
use crate::builder::Builder;
use crate::environments::Environments;
use crate::made::Made;
use crate::rule::Declaration;
use crate::said::{Asked, Said};
use env_subst::Locals;
use scons_base::{EnvId, Memory, PathText, Text, Texts};
use std::alloc::Global;
use variant_dirs::Variants;

/// What scripts have declared, in the order of their calls.
#[derive(Drop)]
pub struct Declarations {
    pub alloc: Global,
    pub envs: Environments,
    /// The directory of the script that runs, and the variant directories: what texts are expanded with.
    pub locals: Locals,
    pub builders: Vec<Builder>,
    pub rules: Vec<Declaration>,
    pub made: Made,
    pub said: Vec<Said>,
    pub aliases: Aliases,
    pub defaults: Vec<Asked>,
    pub helps: Texts,
    /// The directories of the scripts around the one that runs.
    pub(crate) outer_dirs: Vec<PathText>,
}

impl Declarations {
    /// Nothing is declared. `top` is the absolute path of the top directory.
    pub fn new(alloc: Global, top: PathText) -> Result<Declarations, Memory>
        ensures { IfOk result (λ d. IsFresh top (declared_of d)) }
    {
        let locals = locals_at(alloc, top)?;
        Ok(Declarations {
            alloc,
            envs: Environments::new(alloc)?,
            locals,
            builders: Vec::new(alloc),
            rules: Vec::new(alloc),
            made: Made::new(alloc),
            said: Vec::new(alloc),
            aliases: Aliases::new(alloc),
            defaults: Vec::new(alloc),
            helps: Texts::new(Vec::new(alloc)),
            outer_dirs: Vec::new(alloc),
        })
    }

    /// The environment of the names that stand alone.
    pub fn default_env(&self) -> EnvId
        ensures { result.0 ≡ 0 }
    {
        EnvId(0)
    }

    /// The number of the builder that an environment has under a name.
    pub fn builder_of(&self, env: EnvId, name: &str) -> Option<u32>
        ensures { result ≡ builder_of self.now.envs env.0 name.now }
    {
        self.envs.builder_of(env, name)
    }
}

fn locals_at(alloc: Global, top: PathText) -> Result<Locals, Memory>
    ensures top { IfOk result (λ l. l.top ≡ top) }
    ensures dir { IfOk result (λ l. l.dir ≡ codes ".") }
    ensures variants { IfOk result (λ l. l.variants ≡ []) }
{
    let dir = match PathText::read(alloc, ".") {
        Ok(dir) => dir,
        Err(_) => return Err(Memory),
    };
    Ok(Locals {
        targets: Vec::new(alloc),
        sources: Vec::new(alloc),
        smartlink: Text::of(alloc, "$CC")?,
        dir,
        top,
        variants: Variants::new(alloc),
    })
}
