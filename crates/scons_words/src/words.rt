//! What a command line says.
use scons_base::{Listing, Paths, Text, Texts};
use world_api::Hash;

#[derive(Drop)]
pub struct Words {
    /// The first scripts that were named. With none of them it is `SConstruct`.
    pub scripts: Paths,
    /// The words `NAME=value`.
    pub arguments: Listing<(Text, Text)>,
    pub requested: Texts,
    pub jobs: u32,
    /// Whether to go on after failures.
    pub keep: bool,
    /// Whether only to list.
    pub dry: bool,
    /// Whether to remove targets.
    pub clean: bool,
    /// Whether to leave out the lines on progress.
    pub quiet: bool,
    /// Whether to print nothing but what scripts print.
    pub silent: bool,
    pub help: bool,
    /// How many rules a load of its own builds.
    pub load: Option<u32>,
    /// What digests of contents are made by.
    pub hash: Hash,
    /// Whether to say why each rule runs.
    pub explain: bool,
    /// Whether to show what is made of what.
    pub tree: bool,
}
