//! What is told of the place where a script has what begins no token.
use py_lex::{LexFault, LexKind, lex};
use scons_base::{Memory, Text, is_name_byte};
use std::alloc::Global;
use std::str;

/// The character on this line that begins no token; of a text whose prefix scripts don't take the prefix, with the quote.
pub fn told_of_byte(alloc: Global, line: u32, script: &[u8]) -> Result<Text, Memory> {
    let front = front_of(script, refused_at(alloc, line, script)?);
    let refused = front
        .split_at(front.len().saturating_sub(last_len(front)))
        .1;
    match (refused, str::from_utf8(refused)) {
        ([byte], _) if byte.is_ascii_control() => {
            Ok(Text::new(format!(in alloc; "\\x{byte:02x}")?))
        }
        (_, Ok(text)) => Text::of(alloc, text),
        (_, Err(_)) => Text::of(alloc, ""),
    }
}

/// How long the shortest front of a script is that is refused as the whole is, on this line: it ends with what begins no token.
fn refused_at(alloc: Global, line: u32, script: &[u8]) -> Result<usize, Memory> {
    let mut least = 0;
    let mut most = script.len();
    while least < most {
        let middle = least + (most - least) / 2;
        if is_refused(alloc, line, front_of(script, middle))? {
            most = middle;
        } else {
            least = middle + 1;
        }
    }
    Ok(most)
}

/// So many bytes of a script, and a `=` behind them, since `!` alone is refused and `!=` isn't.
fn front_of(script: &[u8], len: usize) -> &[u8] {
    let (front, behind) = script.split_at(len.min(script.len()));
    match behind {
        [b'=', ..] => script.split_at(front.len() + 1).0,
        _ => front,
    }
}

fn is_refused(alloc: Global, line: u32, script: &[u8]) -> Result<bool, Memory> {
    match lex(alloc, script) {
        Ok(_) => Ok(false),
        Err(LexFault::At { line: at, kind }) => Ok(at == line && kind == LexKind::BadByte),
        Err(LexFault::Memory) => Err(Memory),
    }
}

/// How long the last character is; of a quote with the prefix in front of it.
fn last_len(front: &[u8]) -> usize {
    match front {
        [before @ .., b'\'' | b'"'] => names_behind(before).saturating_add(1),
        _ => continuing(front).saturating_add(1),
    }
}

/// How many bytes of a name stand at the end.
fn names_behind(bytes: &[u8]) -> usize {
    bytes
        .iter()
        .rev()
        .take_while(|byte| is_name_byte(**byte))
        .count()
}

/// How many bytes at the end go on with a character.
fn continuing(bytes: &[u8]) -> usize {
    bytes
        .iter()
        .rev()
        .take_while(|byte| **byte & 0xC0 == 0x80)
        .count()
}
