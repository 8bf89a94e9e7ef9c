//! What written files hold: bytes in which keys are replaced by values.
//!
//! Contracts see bytes as lists, and say what is made by the definitions of `world_api`'s `specs/Replacing.antt` and
//! `specs/Writing.antt`. What would pass its limit while it is made is refused with the first such length.
#![tactic(auto)]

mod joining;
mod pairs;
mod refusal;
mod replacing;
mod writing;

pub use refusal::TextRefusal;
pub use replacing::replace_all;
pub use writing::{files_named, write_bytes};
