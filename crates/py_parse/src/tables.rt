//! Which tokens are operators, comparisons and constants.
ghost use Rattle.std.specs.Prelude.{◌≡◌};
ghost use Rattle.py_parse.specs.Terminals as terminals;

use crate::level::Level;
use py_token::{Keyword, Mark, TokenKind};
use py_tree::{Comparison, Constant, Operator};

fn word_operator(level: Level, word: Keyword) -> Option<Operator>
    ensures { result ≡ terminals.word_operator level word }
{
    match (level, word) {
        (Level::Or, Keyword::Or) => Some(Operator::Or),
        (Level::And, Keyword::And) => Some(Operator::And),
        _ => None,
    }
}

fn mark_operator(level: Level, mark: Mark) -> Option<Operator>
    ensures { result ≡ terminals.mark_operator level mark }
{
    match (level, mark) {
        (Level::Sum, Mark::Plus) => Some(Operator::Add),
        (Level::Sum, Mark::Minus) => Some(Operator::Subtract),
        (Level::Product, Mark::Star) => Some(Operator::Multiply),
        (Level::Product, Mark::FloorDivide) => Some(Operator::FloorDivide),
        (Level::Product, Mark::Percent) => Some(Operator::Remainder),
        _ => None,
    }
}

pub fn operator_of(level: Level, kind: &TokenKind) -> Option<Operator>
    ensures { result ≡ terminals.operator_of level kind.now }
{
    match kind {
        TokenKind::Word(word) => word_operator(level, *word),
        TokenKind::Mark(mark) => mark_operator(level, *mark),
        _ => None,
    }
}

fn mark_augment(mark: Mark) -> Option<Operator>
    ensures { result ≡ terminals.mark_augment mark }
{
    match mark {
        Mark::PlusAssign => Some(Operator::Add),
        Mark::MinusAssign => Some(Operator::Subtract),
        Mark::StarAssign => Some(Operator::Multiply),
        _ => None,
    }
}

pub fn augment_of(kind: &TokenKind) -> Option<Operator>
    ensures { result ≡ terminals.augment_of kind.now }
{
    match kind {
        TokenKind::Mark(mark) => mark_augment(*mark),
        _ => None,
    }
}

fn mark_comparison(mark: Mark) -> Option<Comparison>
    ensures { result ≡ terminals.mark_comparison mark }
{
    match mark {
        Mark::Equal => Some(Comparison::Equal),
        Mark::NotEqual => Some(Comparison::NotEqual),
        Mark::Less => Some(Comparison::Less),
        Mark::LessEqual => Some(Comparison::LessEqual),
        Mark::Greater => Some(Comparison::Greater),
        Mark::GreaterEqual => Some(Comparison::GreaterEqual),
        _ => None,
    }
}

fn word_comparison(word: Keyword) -> Option<Comparison>
    ensures { result ≡ terminals.word_comparison word }
{
    match word {
        Keyword::In => Some(Comparison::In),
        _ => None,
    }
}

pub fn comparison_of(kind: &TokenKind) -> Option<Comparison>
    ensures { result ≡ terminals.comparison_of kind.now }
{
    match kind {
        TokenKind::Mark(mark) => mark_comparison(*mark),
        TokenKind::Word(word) => word_comparison(*word),
        _ => None,
    }
}

fn word_constant(word: Keyword) -> Option<Constant>
    ensures { result ≡ terminals.word_constant word }
{
    match word {
        Keyword::TrueValue => Some(Constant::True),
        Keyword::FalseValue => Some(Constant::False),
        Keyword::NoneValue => Some(Constant::None),
        _ => None,
    }
}

pub fn constant_of(kind: &TokenKind) -> Option<Constant>
    ensures { result ≡ terminals.constant_of kind.now }
{
    match kind {
        TokenKind::Word(word) => word_constant(*word),
        _ => None,
    }
}

pub fn is_leaf(kind: &TokenKind) -> bool
    ensures { result ≡ terminals.is_leaf kind.now }
{
    match kind {
        TokenKind::Name(_) => true,
        TokenKind::Integer(_) => true,
        TokenKind::Word(word) => word_constant(*word).is_some(),
        _ => false,
    }
}

/// A text may begin so.
pub fn is_piece(kind: &TokenKind) -> bool
    ensures { result ≡ terminals.is_piece kind.now }
{
    match kind {
        TokenKind::Text(_) => true,
        TokenKind::FStart => true,
        _ => false,
    }
}

pub fn is_bracket(mark: Mark) -> bool
    ensures { result ≡ terminals.is_bracket mark }
{
    match mark {
        Mark::OpenParen => true,
        Mark::OpenBracket => true,
        Mark::OpenBrace => true,
        _ => false,
    }
}

pub fn is_link(mark: Mark) -> bool
    ensures { result ≡ terminals.is_link mark }
{
    match mark {
        Mark::OpenParen => true,
        Mark::OpenBracket => true,
        Mark::Dot => true,
        _ => false,
    }
}

fn word_starts(word: Keyword) -> bool
    ensures { result ≡ terminals.word_starts word }
{
    match word {
        Keyword::TrueValue => true,
        Keyword::FalseValue => true,
        Keyword::NoneValue => true,
        Keyword::Not => true,
        _ => false,
    }
}

fn mark_starts(mark: Mark) -> bool
    ensures { result ≡ terminals.mark_starts mark }
{
    match mark {
        Mark::Minus => true,
        Mark::OpenParen => true,
        Mark::OpenBracket => true,
        Mark::OpenBrace => true,
        _ => false,
    }
}

/// An expression may begin so.
pub fn starts_expr(kind: &TokenKind) -> bool
    ensures { result ≡ terminals.starts_of kind.now }
{
    match kind {
        TokenKind::Name(_) => true,
        TokenKind::Integer(_) => true,
        TokenKind::Text(_) => true,
        TokenKind::FStart => true,
        TokenKind::Word(word) => word_starts(*word),
        TokenKind::Mark(mark) => mark_starts(*mark),
        _ => false,
    }
}
