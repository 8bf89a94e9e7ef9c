//! The words of a command line, read.
//!
//! `read` of `specs/Readings.antt` tells what a list of words says, or which word is refused first and why.
#![tactic(auto)]

mod arguments;
mod fault;
mod flags;
mod number;
mod reading;
mod switch;
mod words;

pub use fault::{UsageKind, WordsFault};
pub use reading::read_words;
pub use words::Words;
