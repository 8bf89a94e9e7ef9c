//! What stands behind the names and the calls of a script: the trait `Host`, and what it is given and answers.
//!
//! A contract sees a `Scope` as the list of its names and values, in the order in which the names were set first.
#![tactic(auto)]

mod args;
mod host;
mod place;
mod refusal;
mod reply;
mod scope;

pub use args::Args;
pub use host::Host;
pub use place::Place;
pub use refusal::HostRefusal;
pub use reply::Reply;
pub use scope::Scope;
