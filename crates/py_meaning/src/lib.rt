//! What scripts mean, and how they may end.
//!
//! The meaning is a relation of `specs/`: a job, as an expression to evaluate or lines to run, comes to an outcome. How a job
//! goes on is a function of the job and the state, `plan`, by subject: names, expressions, what stands behind an atom,
//! calls, statements, scripts. `Follows` says what a plan comes to: the jobs in it in turn, a host's answers by its meaning.
#![tactic(auto)]

mod fault;
mod words;

pub use fault::{Called, EvalFault, EvalKind, Exit};
