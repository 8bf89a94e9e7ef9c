//! The syntax trees of the script language, which the parser makes and the evaluator walks.
//!
//! A contract sees each tree as a `Tree` of `specs/Tree.antt`. What the nesting limit of the grammar doesn't count is
//! flat: a chain of operators of one level, of calls, indices and attributes, of `elif`s is a first part and a list.
#![tactic(auto)]

mod expr;
mod line;

pub use expr::{Argument, Comparison, Constant, Expr, Link, Operation, Operator, Pair, Piece};
pub use line::{Branch, Line, Parameter, Script, Simple};
