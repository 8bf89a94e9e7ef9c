//! The steps of a body in which nothing is called: expressions, what stands behind them, assignments, loops and statements.
//!
//! What is left to do is a stack of tasks, beside one of values. A contract sees a `Desk` as both, the uppermost first, and
//! `left` of `specs/Todos.antt` says what they stand for.
#![tactic(auto)]

mod assignments;
mod comprehensions;
mod desk;
mod expressions;
mod links;
mod loops;
mod statements;
mod steps;
mod task;
mod texts;

pub use desk::Desk;
pub use statements::Flow;
pub use steps::step;
pub use task::{Collecting, Comprehension, Definition, Loop, Round, Task};
