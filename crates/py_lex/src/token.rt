//! One token of a script.
ghost use Rattle.std.specs.Prelude.{◌≡◌, ◌<◌, ◌≤◌, ◌+◌, ◌^◌, ℕ, true, length, IfOk, IfSome, MatchOption, None, Some};
ghost use Rattle.std.specs.List.{list_all};
ghost use Rattle.std.specs.Char.{is_ascii_digit};
ghost use Rattle.scons_base.specs.Runs.{is_name_byte};
ghost use Rattle.py_lex.specs.Tokens.{class_of, lead_of, is_r, is_b, is_f, is_float, is_fraction, is_name_first, quoted, depth_after, takes, begun_read, refuses, TokenAt, NameAt, TextAt, number_turn, sign_turn, named};
ghost use Rattle.py_lex.specs.Views.{turn_of};
ghost use Rattle.py_lex.specs.Utf8.{IsClean};
ghost use Rattle.py_lex.specs.Sizes.{FitsTurn, FitsBehind};

use crate::bytes::NO_TEXT;
use crate::fault::LexKind;
use crate::number::number_of;
use crate::piece::Style;
use crate::sign::mark_at;
use crate::text::{Spelt, opening, spell};
use py_token::{Keyword, Mark, TokenKind};
use scons_base::{Memory, Text, cut_name, is_name_byte, name_text};
use std::alloc::Global;

/// What a token begins with.
#[derive(Clone, Copy)]
pub enum Class {
    Quote,
    Digit,
    Letter,
    NoText,
    Sign,
}

/// What a name is to what follows it.
#[derive(Clone, Copy)]
pub enum Lead {
    /// A name or a keyword.
    Name,
    /// The prefix of a raw text.
    Raw,
    /// The prefix of an f-text.
    Format,
    /// The prefix of a raw f-text.
    RawFormat,
    /// Another prefix of Python.
    Refused,
}

/// What reading a token gives.
#[derive(Drop)]
pub enum Turn<'a> {
    Takes {
        kind: TokenKind,
        lines: u32,
        depth: u32,
        rest: &'a [u8],
    },
    /// An f-text of this style, whose opening quotes are taken.
    Begins {
        style: Style,
        rest: &'a [u8],
    },
    Refuses {
        kind: LexKind,
        lines: u32,
    },
}

pub fn class_of(byte: u8) -> Class
    ensures { result ≡ class_of byte }
{
    if byte == b'\'' || byte == b'"' {
        return Class::Quote;
    }
    if byte.is_ascii_digit() {
        return Class::Digit;
    }
    if is_name_byte(byte) {
        return Class::Letter;
    }
    if byte == NO_TEXT {
        return Class::NoText;
    }
    Class::Sign
}

/// The token in front, inside this many brackets.
pub fn next_token<'a>(alloc: Global, depth: u32, bytes: &'a [u8]) -> Result<Turn<'a>, Memory>
    requires some { 0 < length bytes.now }
    requires room { depth + length bytes.now < 2 ^ 31 }
    requires clean { IsClean bytes.now }
    ensures turn { IfOk result (λ t. TokenAt depth bytes.now (turn_of t)) }
    ensures fits { IfOk result (FitsTurn depth bytes.now) }
{
    let Some((byte, rest)) = bytes.split_first() else {
        unreachable!();
    };
    match class_of(*byte) {
        Class::Quote => text_token(alloc, depth, false, *byte, rest),
        Class::Digit => Ok(number_token(depth, bytes)),
        Class::Letter => name_token(alloc, depth, bytes),
        Class::NoText => Ok(refused(LexKind::NotUtf8)),
        Class::Sign => Ok(sign_token(depth, bytes)),
    }
}

pub fn refused<'a>(kind: LexKind) -> Turn<'a>
    ensures { turn_of result ≡ refuses kind 0 }
{
    let lines = 0;
    Turn::Refuses { kind, lines }
}

/// The text whose first quote this is.
fn text_token<'a>(
    alloc: Global,
    depth: u32,
    raw: bool,
    quote: u8,
    rest: &'a [u8],
) -> Result<Turn<'a>, Memory>
    requires room { depth + length rest.now < 2 ^ 31 }
    requires quote { quote < 128 }
    requires clean { IsClean rest.now }
    ensures turn { IfOk result (λ t. TextAt raw quote depth rest.now (turn_of t)) }
    ensures fits { IfOk result (FitsBehind depth rest.now) }
{
    let (style, inside) = opening(raw, quote, rest);
    match spell(alloc, style, inside)? {
        Spelt::Closed { value, lines, rest } => match String::from_utf8(value) {
            Ok(text) => Ok(Turn::Takes {
                kind: TokenKind::Text(Text::new(text)),
                lines,
                depth,
                rest,
            }),
            Err(_) => unreachable!(),
        },
        Spelt::Unclosed => Ok(refused(LexKind::Unclosed)),
        Spelt::Refused { kind, lines } => Ok(Turn::Refuses { kind, lines }),
    }
}

pub fn number_token(depth: u32, bytes: &[u8]) -> Turn<'_>
    requires some { 0 < length bytes.now }
    requires name { is_name_first bytes.now ≡ true }
    ensures turn { turn_of result ≡ number_turn depth bytes.now }
    ensures fits { FitsTurn depth bytes.now result }
{
    let (literal, rest) = cut_name(bytes);
    if is_float(literal, rest) {
        return refused(LexKind::BadNumber);
    }
    match number_of(literal) {
        Some(value) => Turn::Takes {
            kind: TokenKind::Integer(value),
            lines: 0,
            depth,
            rest,
        },
        None => refused(LexKind::BadNumber),
    }
}

/// Whether a point stands behind decimal digits.
fn is_float(literal: &[u8], rest: &[u8]) -> bool
    ensures { result ≡ is_float literal.now rest.now }
{
    match rest {
        [b'.', ..] => all_digits(literal),
        _ => false,
    }
}

fn all_digits(literal: &[u8]) -> bool
    ensures { result ≡ list_all is_ascii_digit literal.now }
{
    literal.iter().all(|byte| byte.is_ascii_digit())
}

fn name_token<'a>(alloc: Global, depth: u32, bytes: &'a [u8]) -> Result<Turn<'a>, Memory>
    requires room { depth + length bytes.now < 2 ^ 31 }
    requires name { is_name_first bytes.now ≡ true }
    requires clean { IsClean bytes.now }
    ensures turn { IfOk result (λ t. NameAt depth bytes.now (turn_of t)) }
    ensures fits { IfOk result (FitsTurn depth bytes.now) }
{
    let (name, rest) = cut_name(bytes);
    let Some((quote, inside)) = quoted(rest) else {
        return named(alloc, depth, name, rest);
    };
    match lead_of(name) {
        Lead::Raw => text_token(alloc, depth, true, quote, inside),
        Lead::Format => Ok(text_begun(false, quote, inside)),
        Lead::RawFormat => Ok(text_begun(true, quote, inside)),
        Lead::Refused => Ok(refused(LexKind::BadByte)),
        Lead::Name => named(alloc, depth, name, rest),
    }
}

/// The f-text whose first quote this is.
fn text_begun(raw: bool, quote: u8, rest: &[u8]) -> Turn<'_>
    requires { quote < 128 }
    ensures turn { turn_of result ≡ begun_read raw quote rest.now }
    ensures fits { (depth : ℕ) → FitsBehind depth rest.now result }
{
    let (style, rest) = opening(raw, quote, rest);
    Turn::Begins { style, rest }
}

/// The quote in front, and what follows it.
fn quoted(bytes: &[u8]) -> Option<(u8, &[u8])>
    ensures quoted { MatchOption result (quoted bytes.now ≡ None) (λ p. quoted bytes.now ≡ Some (p.0, p.1.now)) }
    ensures fits { IfSome result (λ p. length p.1.now < length bytes.now) }
{
    match bytes {
        [quote, rest @ ..] if *quote == b'\'' || *quote == b'"' => Some((*quote, rest)),
        _ => None,
    }
}

/// What a name is in front of a quote.
fn lead_of(name: &[u8]) -> Lead
    ensures { result ≡ lead_of name.now }
{
    match name {
        [only] if is_r(*only) => Lead::Raw,
        [only] if is_f(*only) => Lead::Format,
        [only] if is_b(*only) || *only == b'u' || *only == b'U' => Lead::Refused,
        [first, second] if is_r(*first) && is_f(*second) || is_f(*first) && is_r(*second) => {
            Lead::RawFormat
        }
        [first, second] if is_r(*first) && is_b(*second) || is_b(*first) && is_r(*second) => {
            Lead::Refused
        }
        _ => Lead::Name,
    }
}

fn is_r(byte: u8) -> bool
    ensures { result ≡ is_r byte }
{
    byte == b'r' || byte == b'R'
}

fn is_b(byte: u8) -> bool
    ensures { result ≡ is_b byte }
{
    byte == b'b' || byte == b'B'
}

fn is_f(byte: u8) -> bool
    ensures { result ≡ is_f byte }
{
    byte == b'f' || byte == b'F'
}

/// The name or the keyword.
pub fn named<'a>(alloc: Global, depth: u32, name: &[u8], rest: &'a [u8]) -> Result<Turn<'a>, Memory>
    requires { list_all is_name_byte name.now ≡ true }
    ensures { IfOk result (λ t. turn_of t ≡ takes (named name.now) 0 depth rest.now) }
{
    let kind = match Keyword::of(name) {
        Some(keyword) => TokenKind::Word(keyword),
        None => TokenKind::Name(Text::of(alloc, name_text(name))?),
    };
    Ok(Turn::Takes {
        kind,
        lines: 0,
        depth,
        rest,
    })
}

pub fn sign_token(depth: u32, bytes: &[u8]) -> Turn<'_>
    requires room { depth + length bytes.now < 2 ^ 31 }
    requires some { 0 < length bytes.now }
    ensures turn { turn_of result ≡ sign_turn depth bytes.now }
    ensures fits { FitsTurn depth bytes.now result }
{
    if is_fraction(bytes) {
        return refused(LexKind::BadNumber);
    }
    match mark_at(bytes) {
        Some(mark) => Turn::Takes {
            kind: TokenKind::Mark(mark),
            lines: 0,
            depth: depth_after(mark, depth),
            rest: &bytes[mark.text().len()..],
        },
        None => refused(LexKind::BadByte),
    }
}

/// A point and a digit.
fn is_fraction(bytes: &[u8]) -> bool
    ensures { result ≡ is_fraction bytes.now }
{
    match bytes {
        [b'.', digit, ..] => digit.is_ascii_digit(),
        _ => false,
    }
}

/// How many brackets are open behind the mark.
fn depth_after(mark: Mark, depth: u32) -> u32
    requires { depth + 1 < 2 ^ 32 }
    ensures depth { result ≡ depth_after mark depth }
    ensures fits { result ≤ depth + 1 }
{
    match mark {
        Mark::OpenParen | Mark::OpenBracket | Mark::OpenBrace => depth + 1,
        Mark::CloseParen | Mark::CloseBracket | Mark::CloseBrace => depth.saturating_sub(1),
        _ => depth,
    }
}
