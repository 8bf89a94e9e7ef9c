//! What a text is read in.
ghost use Rattle.std.specs.Prelude.{◌<◌, length};

use crate::locals::Locals;
use env_vars::Envs;
use scons_base::EnvId;
use std::alloc::Global;

/// What a text is read in: an environment, and what is known beside it.
#[derive(Drop)]
pub(crate) struct Setting<'a> {
    pub(crate) alloc: Global,
    pub(crate) envs: &'a Envs,
    pub(crate) env: EnvId,
    pub(crate) locals: &'a Locals,
    ghost has_env: { env.0 < length envs.now },
}
