//! The methods of the script language: those of texts, lists and dicts.
//!
//! What a method gives is a function of `specs/` over plain data: the heap, the units and the arguments give a value with
//! the heap and the units after it, or the fault. Units are charged before a thing is made, and a thing over its limit is
//! refused before its charge.
#![tactic(auto)]

mod calls;
mod dicts;
mod lists;
mod many;
mod methods;
mod name;
mod text_methods;

pub use calls::method;
pub use name::{Name, has_method};
