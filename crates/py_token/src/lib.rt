//! The tokens of the script language, which the lexer makes and the parser reads.
//!
//! A contract sees `Tokens` as a list of tokens, and the text in a token as a list of bytes.
#![tactic(auto)]

mod keyword;
mod mark;
mod token;

pub use keyword::Keyword;
pub use mark::Mark;
pub use token::{Token, TokenKind, Tokens};
