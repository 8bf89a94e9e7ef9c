//! A token and its kind.
ghost use Rattle.std.specs.Prelude.{◌≡◌, ◌==◌, length};

use crate::keyword::Keyword;
use crate::mark::Mark;
use scons_base::Text;
use std::marker::Model;

/// A token, and the line on which it begins, counted from 1.
#[derive(Debug, Drop)]
pub struct Token {
    pub line: u32,
    pub kind: TokenKind,
}

#[derive(Debug, Drop)]
pub enum TokenKind {
    Name(Text),
    /// At most 2^63 - 1.
    Integer(u64),
    /// The characters that a text stands for.
    Text(Text),
    Word(Keyword),
    Mark(Mark),
    /// An f-text begins.
    FStart,
    /// The characters that stand in an f-text up to a field, or up to its end.
    FPart(Text),
    /// An f-text ends.
    FEnd,
    Newline,
    Indent,
    Dedent,
}

/// The tokens of a script.
#[derive(Debug, Drop)]
pub struct Tokens {
    items: Vec<Token>,
}

impl Model for Tokens {
    ghost use Rattle.std.specs.Prelude.{List};
    ghost use Rattle.py_token.specs.declared.token.Token.{Token};

    ghost Value = { List Token };

    ghost view = { λ t. t.items.items };
}

impl Tokens {
    pub fn new(items: Vec<Token>) -> Tokens
        ensures { result ≡ items.items }
    {
        Tokens { items }
    }

    pub fn as_slice(&self) -> &[Token]
        ensures { result.now ≡ self.now }
    {
        self.items.as_slice()
    }

    pub fn into_vec(self) -> Vec<Token>
        ensures { result.items ≡ self }
    {
        let Tokens { items } = self;
        items
    }

    pub fn len(&self) -> usize
        ensures { result ≡ length self.now }
    {
        self.items.len()
    }

    pub fn is_empty(&self) -> bool
        ensures { result ≡ (length self.now == 0) }
    {
        self.items.is_empty()
    }
}
