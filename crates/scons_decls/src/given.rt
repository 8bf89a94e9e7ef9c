//! What stands for a node among the arguments of a call, and the variables of a call.
ghost use Rattle.std.specs.Prelude.{◌≡◌, IfOk};

use env_vars::EnvValue;
use scons_base::{Listing, Memory, PathText, Text};

/// One argument that stands for a node.
#[derive(Drop)]
pub enum Given {
    /// A text, which is expanded and then read as a path; for Alias and Default it may name an alias.
    Text(Text),
    File(PathText),
    Dir(PathText),
    Alias(Text),
}

impl Given {
    pub fn copy(&self) -> Result<Given, Memory>
        ensures { IfOk result (λ g. g ≡ self.now) }
    {
        Ok(match self {
            Given::Text(text) => Given::Text(text.copy()?),
            Given::File(path) => Given::File(path.copy()?),
            Given::Dir(path) => Given::Dir(path.copy()?),
            Given::Alias(name) => Given::Alias(name.copy()?),
        })
    }
}

/// What stands for several nodes, in order.
pub type Nodes = Listing<Given>;

/// What is replaced in a text: keys, which aren't empty, with their values, in order.
pub type Pairs = Listing<(Text, Text)>;

/// Variables that a call gives, and the builders that it gives names to (`BUILDERS`).
#[derive(Drop)]
pub struct Variables {
    pub values: Listing<(Text, EnvValue)>,
    pub builders: Listing<(Text, u32)>,
}
