//! The pieces of a text: characters and escapes.
ghost use Rattle.std.specs.Prelude.{◌≡◌, ◌<◌, ◌≤◌, ◌++◌, length, OnOk};
ghost use Rattle.py_lex.specs.Texts.{piece_at, closing, kept, escape, hex_escape, hex_digit, simple_escape, bytes_of};
ghost use Rattle.py_lex.specs.Sizes.{IsTaken};

use crate::bytes::{NO_TEXT, after_line_end};
use std::alloc::AllocError;

/// How a text is written.
#[derive(Clone, Copy)]
pub struct Style {
    pub quote: u8,
    /// Three quotes on each side.
    pub long: bool,
    pub raw: bool,
}

/// What a piece of a text stands for.
#[derive(Clone, Copy)]
pub enum Chars {
    Nothing,
    Byte(u8),
    /// A backslash and this byte.
    Kept(u8),
    /// The character of this number.
    Char(u8),
}

/// What stands next in a text.
#[derive(Clone, Copy)]
pub enum Piece {
    /// The quotes that close it.
    Closes,
    /// The text isn't closed.
    Unclosed,
    BadEscape,
    NotUtf8,
    Stands(Chars),
    /// Stands for these, and ends a line.
    EndsLine(Chars),
}

/// The piece of a text in front, and what follows it.
pub fn next_piece(style: Style, bytes: &[u8]) -> (Piece, &[u8])
    ensures piece { result.0 ≡ (piece_at style bytes.now).0 }
    ensures rest { result.1.now ≡ (piece_at style bytes.now).1 }
    ensures fits { length result.1.now ≤ length bytes.now }
    ensures shorter { IsTaken result.0 → length result.1.now < length bytes.now }
{
    let Some((byte, rest)) = bytes.split_first() else {
        return (Piece::Unclosed, bytes);
    };
    if *byte == style.quote {
        return closing(style, rest);
    }
    if *byte == b'\\' {
        return if style.raw { kept(rest) } else { escape(rest) };
    }
    if *byte == NO_TEXT {
        return (Piece::NotUtf8, bytes);
    }
    match after_line_end(bytes) {
        Some(next) if style.long => (Piece::EndsLine(Chars::Byte(b'\n')), next),
        Some(_) => (Piece::Unclosed, bytes),
        None => (Piece::Stands(Chars::Byte(*byte)), rest),
    }
}

/// Behind a quote of the text's own kind.
fn closing(style: Style, rest: &[u8]) -> (Piece, &[u8])
    ensures piece { result.0 ≡ (closing style rest.now).0 }
    ensures rest { result.1.now ≡ (closing style rest.now).1 }
    ensures fits { length result.1.now ≤ length rest.now }
{
    if !style.long {
        return (Piece::Closes, rest);
    }
    match rest {
        [second, third, after @ ..] if *second == style.quote && *third == style.quote => {
            (Piece::Closes, after)
        }
        _ => (Piece::Stands(Chars::Byte(style.quote)), rest),
    }
}

/// Behind a backslash of a raw text.
fn kept(rest: &[u8]) -> (Piece, &[u8])
    ensures piece { result.0 ≡ (kept rest.now).0 }
    ensures rest { result.1.now ≡ (kept rest.now).1 }
    ensures fits { length result.1.now ≤ length rest.now }
{
    if let Some(next) = after_line_end(rest) {
        return (Piece::EndsLine(Chars::Kept(b'\n')), next);
    }
    match rest.split_first() {
        Some((byte, after)) if *byte != NO_TEXT => (Piece::Stands(Chars::Kept(*byte)), after),
        _ => (Piece::Stands(Chars::Byte(b'\\')), rest),
    }
}

/// Behind a backslash of a text that isn't raw.
fn escape(rest: &[u8]) -> (Piece, &[u8])
    ensures piece { result.0 ≡ (escape rest.now).0 }
    ensures rest { result.1.now ≡ (escape rest.now).1 }
    ensures fits { length result.1.now ≤ length rest.now }
{
    if let Some(next) = after_line_end(rest) {
        return (Piece::EndsLine(Chars::Nothing), next);
    }
    let Some((byte, after)) = rest.split_first() else {
        return (Piece::Stands(Chars::Byte(b'\\')), rest);
    };
    if *byte == b'x' {
        return hex_escape(after);
    }
    if byte.is_ascii_digit() || *byte == b'u' || *byte == b'U' || *byte == b'N' {
        return (Piece::BadEscape, rest);
    }
    match simple_escape(*byte) {
        Some(character) => (Piece::Stands(Chars::Byte(character)), after),
        None => (Piece::Stands(Chars::Byte(b'\\')), rest),
    }
}

/// Behind `\x`.
fn hex_escape(rest: &[u8]) -> (Piece, &[u8])
    ensures piece { result.0 ≡ (hex_escape rest.now).0 }
    ensures rest { result.1.now ≡ (hex_escape rest.now).1 }
    ensures fits { length result.1.now ≤ length rest.now }
{
    let [first, second, after @ ..] = rest else {
        return (Piece::BadEscape, rest);
    };
    match (hex_digit(*first), hex_digit(*second)) {
        (Some(high), Some(low)) => (Piece::Stands(Chars::Char(high * 16 + low)), after),
        _ => (Piece::BadEscape, rest),
    }
}

fn hex_digit(byte: u8) -> Option<u8>
    ensures { result ≡ hex_digit byte }
{
    match (byte as char).to_digit(16) {
        Some(digit) => Some(digit as u8),
        None => None,
    }
}

/// What a backslash and this byte stand for.
fn simple_escape(byte: u8) -> Option<u8>
    ensures { result ≡ simple_escape byte }
{
    match byte {
        b'\\' => Some(b'\\'),
        b'\'' => Some(b'\''),
        b'"' => Some(b'"'),
        b'n' => Some(10),
        b'r' => Some(13),
        b't' => Some(9),
        b'a' => Some(7),
        b'b' => Some(8),
        b'f' => Some(12),
        b'v' => Some(11),
        _ => None,
    }
}

/// Adds what a piece stands for.
pub fn push_chars(value: &mut Vec<u8>, chars: Chars) -> Result<(), AllocError>
    ensures { OnOk result (value.new.items ≡ value.old.items ++ bytes_of chars) }
{
    match chars {
        Chars::Nothing => {}
        Chars::Byte(byte) => value.push(byte)?,
        Chars::Kept(byte) => {
            value.push(b'\\')?;
            value.push(byte)?;
        }
        Chars::Char(number) => {
            let mut buffer = [0; 4];
            let character = char::from(number).encode_utf8(&mut buffer);
            value.extend_from_slice(character.as_bytes())?;
        }
    }
    Ok(())
}
