//! What the rules of a build read: each file is looked at, read, digested and scanned once.
//!
//! `Inputs` keeps what was found of each file. It finds the files that a file includes, adds the copy rules of variant
//! directories as their paths come up, and gives a rule's record as it is now.
#![tactic(auto)]

mod copies;
mod end;
mod includes;
mod inputs;
mod known;
mod leftovers;
mod lookup;
mod record;
mod seen;

pub use end::ListEnd;
pub use inputs::Inputs;
pub use known::{has_copy_rule, is_copied};
pub use leftovers::{is_leftover, leftover_copies};
pub use lookup::{first_target, path_of, rule_at};
pub use record::{Present, Records, is_stale};
