//! What a call of a SCons name answers.
use crate::given::Nodes;
use env_vars::EnvValue;
use scons_base::{EnvId, Text};

#[derive(Drop)]
pub enum Answer {
    Nothing,
    Env(EnvId),
    /// Targets of a builder; what `File`, `Dir`, `Glob` and `Alias` give; the targets of `Depends` and its kin.
    Targets(Nodes),
    Text(Text),
    /// A copy of a variable's value, if there is one.
    Variable(Option<EnvValue>),
    /// The number of a new builder.
    Builder(u32),
}
