//! What trials tell of their tables.
//!
//! A trial tells of a line after the other. What stands in the way of a line, a field that can't be read or want of memory, is
//! kept to the end of the line, and refuses it there: so what tells of a line need not ask at each step, and its functions have
//! no refusal of their own.
#![tactic(auto)]

mod told;

pub use told::Told;
