//! The operators of the script language on values, and their places: indices, slices and keys.
//!
//! What an operation gives is a function of `specs/` over plain data: the heap, the units and the operands give a value
//! with the heap and the units after it, or the fault. Units are charged before a thing is made, and a thing over its
//! limit is refused before its charge. An operation that fails leaves the heap and the units as they were.
#![tactic(auto)]

mod arithmetic;
mod indexing;
mod joining;
mod op;
mod operations;
mod operators;
mod places;
mod remainders;
mod slices;
mod texts;

pub use op::Op;
pub use operations::{binary, index, negate, slice};
pub use places::{length_with, place_in, set_index};
pub use slices::end_in;
pub use texts::copied_text;
