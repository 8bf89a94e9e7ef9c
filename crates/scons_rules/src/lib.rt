//! What comes after all scripts: each declared rule, with its sources, libraries and lines, goes into the graph.
//!
//! `RuleReading` goes over the declarations in their order. Each begins with what its lines know (`RuleLocals`), of which it is
//! asked and added. It asks nothing of the file tree: of the libraries that a rule may name it tells which files would be one
//! (`Wanted`), and is told which were found.
#![tactic(auto)]

mod actions;
mod adding;
mod aliases;
mod fault;
mod finish;
mod ignored;
mod interning;
mod libraries;
mod line;
mod locals;
mod making;
mod one_rule;
mod orders;
mod reading;
mod said;
mod shell;
mod sources;
mod writing;

pub use fault::RuleReadFault;
pub use libraries::{AskedFile, Wanted};
pub use locals::RuleLocals;
pub use reading::RuleReading;
