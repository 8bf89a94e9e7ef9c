//! The built-in functions of the script language, but for `print`.
//!
//! What a function gives is a function of `specs/` over plain data: the heap, the units and the arguments give a value with
//! the heap and the units after it, or the fault. Units are charged before a thing is made, and a thing over its limit is
//! refused before its charge.
#![tactic(auto)]

mod arguments;
mod calls;
mod collections;
mod empty;
mod numbers;
mod rows;
mod sorting;
mod zips;

pub use arguments::takes;
pub use calls::call_builtin;
