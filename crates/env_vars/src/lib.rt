//! Construction environments.
//!
//! A contract sees `Envs` as the list of environments by their numbers, and an environment as the list of its own
//! variables, pairs of a name and a value, with the numbers of the environments behind it. Only an overlay has any
//! behind it: `value_of` looks at them in turn. What a variable becomes when it is set, or when a value is added to it,
//! is told by `as_set` and `added`, and what a value given to a clone or to one call stands for by `given`.
#![tactic(auto)]

mod added;
mod chain;
mod env;
mod envs;
mod fault;
mod forms;
mod given;
mod grown;
mod initial;
mod names;
mod place;
mod shown;
mod value;
mod vars;
mod words;

pub use envs::Envs;
pub use fault::{EnvFault, GivenFault};
pub use value::{EnvValue, Item};
