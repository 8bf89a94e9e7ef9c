//! Substitution: what a text of a construction environment stands for.
//!
//! A text is read part by part; a variable's value is read in turn, with that variable left out. `meaning` of
//! `specs/Expansions.antt` tells what comes of a text, as a list of texts and marks or the first fault, by recursion on how
//! many variables may still stand in each other. The files of `specs/` are to be read in this order: `Settings`,
//! `Selections`, `Attributes`, `Contents`, `Sayings`, `Expansions`, `Results`.
#![tactic(auto)]

mod apart;
mod attribute;
mod call;
mod calls;
mod command;
mod content;
mod desk;
mod entries;
mod fault;
mod library;
mod locals;
mod names;
mod part;
mod place;
mod reading;
mod saying;
mod select;
mod setting;
mod substitution;
mod task;
mod variable_name;

pub use command::{CommandLines, command_lines, lines, path_text};
pub use env_pieces::Mode;
pub use fault::SubstFault;
pub use library::{LibItem, dirs, lib_names};
pub use locals::{Locals, Named};
pub use substitution::subst;
