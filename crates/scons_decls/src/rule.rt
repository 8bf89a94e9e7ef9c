//! A rule as it was declared.
ghost use Rattle.std.specs.Prelude.{◌<◌, length};

use crate::given::Pairs;
use crate::place::Place;
use scons_base::{EnvId, PathText, Paths, Texts};
use world_api::Decider;

/// How a rule's targets are made.
#[derive(Drop)]
pub enum Recipe {
    /// One object of a C or C++ source.
    Object,
    Program,
    StaticLibrary,
    /// A `Command` with its texts.
    Command(Texts),
    /// A builder of a script's own, by its number.
    Own(u32),
    /// A `Textfile`: its texts, and what is replaced in them.
    Textfile(Texts, Pairs),
    /// A `Substfile`, with what is replaced in its sources.
    Substfile(Pairs),
    Install,
    InstallAs,
}

/// A rule as a call declared it. Its lines are expanded once all scripts are read.
#[derive(Drop)]
pub struct Declaration {
    pub place: Place,
    pub env: EnvId,
    /// The directory of the script that made the call.
    pub dir: PathText,
    pub recipe: Recipe,
    pub decider: Decider,
    pub targets: Paths,
    /// A source that was named twice stands here twice.
    pub sources: Paths,
    ghost has_target: { 0 < length targets },
}
