//! Reads the texts of construction environments: what stands for itself, marks, and references to variables.
//!
//! `next_part` goes through a text part by part, from left to right. Contracts see a part as a `PlainPart` and what is
//! read from a place on as a `Reading`. The definitions stand in `specs/`, to be read in this order: `Bytes`, `Words`,
//! `Parts`, `References`, `Readings`, `Alone`, `Views`; `White` cuts a text at white space.
#![tactic(auto)]

mod alone;
mod bytes;
mod number;
mod part;
mod reader;
mod reference;
mod white;
mod word;

pub use alone::{name_alone, whole_name};
pub use part::{Index, Part, Selection};
pub use reader::{Step, next_part};
pub use white::split_at_white;
