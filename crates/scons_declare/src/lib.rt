//! What each call of a SCons name does: it is declared on the state of a reading, and gives an answer or a fault.
#![tactic(auto)]

mod build;
mod declaring;
mod environment_calls;
mod install;
mod objects;
mod own;
mod said;
mod site;
mod suffixes;
mod variables;
mod writing;

pub use declaring::declare;
