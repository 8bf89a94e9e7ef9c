//! Cuts a script into its tokens.
//!
//! A script is read step by step: blanks, comments, joined lines and line ends by `gap`, indentations by `levels`,
//! tokens by `token` with `text`, `number` and `sign`, f-texts by `part` and `field`. The first place where no rule fits is
//! told by its line and by why. The definitions stand in `specs/`, to be read in this order: `Bytes`, `Gaps`, `Numbers`,
//! `Marks`, `Texts`, `Parts`, `Tokens`, `Levels`, `Steps`, `Lexes`.
#![tactic(auto)]

mod bytes;
mod fault;
mod field;
mod gap;
mod levels;
mod lexer;
mod number;
mod part;
mod piece;
mod reader;
mod sign;
mod text;
mod token;

pub use fault::{LexFault, LexKind};
pub use lexer::lex;
