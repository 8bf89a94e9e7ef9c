//! What scripts declare: plain data, without the interpreter's values and without the world.
//!
//! A call comes in with its arguments flattened and typed (`Call`) and gives an `Answer` or the fault that it is refused with
//! (`NameFault`); what all calls so far declared stands in `Declarations`. What a call needs of the file tree, as the files
//! of a directory for Glob, is handed in.
#![tactic(auto)]

mod aliases;
mod answer;
mod builder;
mod call;
mod declarations;
mod environments;
mod expand;
mod fault;
mod given;
mod glob;
mod language;
mod made;
mod numbers;
mod pattern;
mod place;
mod profile;
mod references;
mod rule;
mod said;
mod scripts;
mod targets;

pub use aliases::{AliasParts, Aliases, Role};
pub use answer::Answer;
pub use builder::Builder;
pub use call::{Call, Change, Maker, RuleCall, SayCall};
pub use declarations::Declarations;
pub use environments::Environments;
pub use expand::{
    as_nodes, bad_argument, dir_of, expanded, file_of, files_of, listed, path_at, path_of,
};
pub use fault::NameFault;
pub use given::{Given, Nodes, Pairs, Variables};
pub use language::{Language, language_of};
pub use made::Made;
pub use place::Place;
pub use profile::{refuse_reading, refuse_variable, refuse_variables};
pub use references::refuse_value;
pub use rule::{Declaration, Recipe};
pub use said::{Asked, Said, Saying};
pub use scripts::ScriptPlace;
