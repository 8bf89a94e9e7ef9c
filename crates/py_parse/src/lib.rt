//! Reads the tokens of a script as its syntax tree.
//!
//! The grammar is in `specs/Grammar.antt`, and which tokens are a script with which tree in `specs/Parses.antt`, with the
//! first token that no continuation allows. Why that token is refused is in `specs/Kinds.antt`. Reading tokens from left
//! to right, one token ahead, is the relation `Reads` of `specs/Reading.antt`: a contract of a reading function says that
//! what it answers is what reading gives.
#![tactic(auto)]

mod arguments;
mod assignment;
mod atoms;
mod copies;
mod dicts;
mod display;
mod expression;
mod expression_list;
mod fault;
mod kind;
mod level;
mod lines;
mod link;
mod lists;
mod names;
mod operators;
mod outside;
mod parameters;
mod parser;
mod pieces;
mod script;
mod seen;
mod site;
mod statements;
mod stop;
mod subscripts;
mod tables;
mod terminal;
mod tuples;

pub use fault::{ParseFault, ParseKind, Unsupported};
pub use parser::parse;
