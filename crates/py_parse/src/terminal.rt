//! What the grammar wants of a token.
ghost use Rattle.std.specs.Prelude.{◌≡◌, false, MatchOption, nat_eq};
ghost use Rattle.py_parse.specs.Terminals.{one, heads, is_of, keyword_number, mark_number};
ghost use Rattle.py_parse.specs.Agrees.{Taken};

use crate::level::Level;
use crate::tables::{
    augment_of, comparison_of, constant_of, is_bracket, is_leaf, is_link, is_piece, operator_of,
    starts_expr,
};
use py_token::{Keyword, Mark, Token, TokenKind};

/// What a place of the grammar wants of a token.
#[derive(Clone, Copy, Debug, Drop)]
pub enum Terminal {
    Name,
    Integer,
    Text,
    FStart,
    FPart,
    FEnd,
    Newline,
    Indent,
    Dedent,
    Word(Keyword),
    Mark(Mark),
    /// The name `SCons`.
    Scons,
    /// The name `Script`.
    Script,
    Operator(Level),
    /// The operator of an augmented assignment.
    Augment,
    /// A comparison of one token with any right side.
    Comparison,
    Constant,
    /// A name, a number or a constant.
    Leaf,
    /// How a text begins.
    Piece,
    /// An opening bracket.
    Bracket,
    /// What stands behind an atom.
    Link,
    /// How an expression may begin.
    Expression,
    Any,
}

impl Terminal {
    pub fn fits(self, kind: &TokenKind) -> bool
        ensures { result ≡ is_of self kind.now }
    {
        match (self, kind) {
            (Terminal::Name, TokenKind::Name(_)) => true,
            (Terminal::Integer, TokenKind::Integer(_)) => true,
            (Terminal::Text, TokenKind::Text(_)) => true,
            (Terminal::FStart, TokenKind::FStart) => true,
            (Terminal::FPart, TokenKind::FPart(_)) => true,
            (Terminal::FEnd, TokenKind::FEnd) => true,
            (Terminal::Newline, TokenKind::Newline) => true,
            (Terminal::Indent, TokenKind::Indent) => true,
            (Terminal::Dedent, TokenKind::Dedent) => true,
            (Terminal::Word(word), TokenKind::Word(other)) => same_word(word, *other),
            (Terminal::Mark(mark), TokenKind::Mark(other)) => same_mark(mark, *other),
            (Terminal::Scons, TokenKind::Name(name)) => name.as_str() == "SCons",
            (Terminal::Script, TokenKind::Name(name)) => name.as_str() == "Script",
            (Terminal::Operator(level), kind) => operator_of(level, kind).is_some(),
            (Terminal::Augment, kind) => augment_of(kind).is_some(),
            (Terminal::Comparison, kind) => comparison_of(kind).is_some(),
            (Terminal::Constant, kind) => constant_of(kind).is_some(),
            (Terminal::Leaf, kind) => is_leaf(kind),
            (Terminal::Piece, kind) => is_piece(kind),
            (Terminal::Bracket, TokenKind::Mark(mark)) => is_bracket(*mark),
            (Terminal::Link, TokenKind::Mark(mark)) => is_link(*mark),
            (Terminal::Expression, kind) => starts_expr(kind),
            (Terminal::Any, _) => true,
            _ => false,
        }
    }
}

fn same_word(word: Keyword, other: Keyword) -> bool
    ensures { result ≡ nat_eq (keyword_number word) (keyword_number other) }
{
    word == other
}

fn same_mark(mark: Mark, other: Mark) -> bool
    ensures { result ≡ nat_eq (mark_number mark) (mark_number other) }
{
    mark == other
}

/// The first token and those behind it, where it is what is wanted.
pub fn strip<'a>(terminal: Terminal, tokens: &'a [Token]) -> Option<(&'a Token, &'a [Token])>
    ensures { MatchOption result (heads (one terminal) tokens.now ≡ false)
        (λ p. Taken (one terminal) tokens.now p.0.now p.1.now) }
{
    let (first, rest) = tokens.split_first()?;
    if terminal.fits(&first.kind) {
        Some((first, rest))
    } else {
        None
    }
}

/// The first token is what is wanted.
pub fn sees(terminal: Terminal, tokens: &[Token]) -> bool
    ensures { result ≡ heads (one terminal) tokens.now }
{
    strip(terminal, tokens).is_some()
}
