//! Runs scripts over a host.
//!
//! What scripts mean is `Evaluates` of `py_meaning`, which knows no stack. Here a body's expressions and statements are done
//! task by task, from a stack of tasks and one of values, so that nesting costs no stack of the machine; a call of a function
//! and a script that a call begins take a stack of tasks of their own.
#![tactic(auto)]

mod asking;
mod calls;
mod opening;
mod operations;
mod printing;
mod scripts;

pub use py_host::{Args, Host, HostRefusal, Place, Reply, Scope};
pub use py_meaning::{EvalFault, EvalKind, Exit};
pub use scripts::{Ran, run};
