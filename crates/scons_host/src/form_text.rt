//! What is told of the place where the form of a script is at fault.
use crate::byte_text::told_of_byte;
use py_lex::{LexKind, lex};
use py_parse::ParseKind;
use py_token::{Mark, Token, TokenKind};
use scons_base::{Memory, Text};
use std::alloc::Global;

type Told = Result<Text, Memory>;

/// What is told of a fault on this line that leaves a script without tokens: of a bracket that isn't closed which it is, and its line,
/// and what begins no token.
pub fn told_of_bytes(alloc: Global, kind: LexKind, line: u32, script: &[u8]) -> Told {
    match kind {
        LexKind::Unclosed => match unclosed(alloc, line, script)? {
            Some(bracket) => with_bracket(alloc, "", bracket),
            None => Text::of(alloc, "a text"),
        },
        LexKind::BadByte => told_of_byte(alloc, line, script),
        _ => Text::of(alloc, ""),
    }
}

/// What is told of the token at this place, which doesn't fit: what it is, unless the kind says so.
pub fn told_of_tokens(alloc: Global, kind: ParseKind, place: u32, tokens: &[Token]) -> Told {
    let place = (place as usize).min(tokens.len());
    let (front, behind) = tokens.split_at(place);
    match kind {
        ParseKind::TooDeep => Text::of(alloc, ""),
        ParseKind::OutOfSubset(word) => told_of_other(alloc, word.word(), behind.first()),
        ParseKind::Unexpected => told_of_unexpected(alloc, front, behind.first()),
    }
}

/// Of a token that another form of Python begins: nothing where it is the word by which that is told.
fn told_of_other(alloc: Global, word: &str, token: Option<&Token>) -> Told {
    let text = token_text(alloc, token)?;
    if text.as_str() == word {
        return Text::of(alloc, "");
    }
    Ok(text)
}

/// Of a closing bracket also which other one is open instead, and its line.
fn told_of_unexpected(alloc: Global, front: &[Token], token: Option<&Token>) -> Told {
    let text = token_text(alloc, token)?;
    let Some((mark, line)) = closing(token) else {
        return Ok(text);
    };
    match innermost(alloc, line, front)? {
        Some(bracket) if !is_pair(bracket.0, mark) => with_bracket(alloc, text.as_str(), bracket),
        _ => Ok(text),
    }
}

/// The mark and the line of a token that is a closing bracket.
fn closing(token: Option<&Token>) -> Option<(Mark, u32)> {
    let token = token?;
    match token.kind {
        TokenKind::Mark(mark) if closes(mark) => Some((mark, token.line)),
        _ => None,
    }
}

/// How a token is told: as it is written, or what it is.
fn token_text(alloc: Global, token: Option<&Token>) -> Told {
    let Some(token) = token else {
        return Text::of(alloc, "the script's end");
    };
    match &token.kind {
        TokenKind::Name(name) => name.copy(),
        TokenKind::Integer(value) => Ok(Text::new(format!(in alloc; "{value}")?)),
        TokenKind::Word(word) => Text::of(alloc, word.word()),
        TokenKind::Mark(mark) => Text::of(alloc, mark.text()),
        TokenKind::Newline => Text::of(alloc, "a line's end"),
        TokenKind::Indent => Text::of(alloc, "an indentation"),
        TokenKind::Dedent => Text::of(alloc, "a block's end"),
        _ => Text::of(alloc, "a text"),
    }
}

/// A bracket and its line, behind a text if there is one.
fn with_bracket(alloc: Global, text: &str, bracket: (Mark, u32)) -> Told {
    let (mark, line) = bracket;
    let mark = mark.text();
    let told = if text.is_empty() {
        format!(in alloc; "{mark} {line}")?
    } else {
        format!(in alloc; "{text} {mark} {line}")?
    };
    Ok(Text::new(told))
}

/// The innermost bracket that isn't closed at the end of a script, which is on this line. None where it is a text that isn't closed.
fn unclosed(alloc: Global, line: u32, script: &[u8]) -> Result<Option<(Mark, u32)>, Memory> {
    // With a closing bracket behind it for each that it may have, a script has tokens, unless a text is open.
    let mut closed = Vec::from_slice(alloc, script)?;
    closed.push(b'\n')?;
    for byte in script {
        if matches!(*byte, b'(' | b'[' | b'{') {
            closed.push(b')')?;
        }
    }
    match lex(alloc, closed.as_slice()) {
        Ok(tokens) => innermost(alloc, line, tokens.as_slice()),
        Err(_) => Ok(None),
    }
}

/// The innermost bracket that is open behind those of some tokens that stand up to a line, and its own line.
fn innermost(alloc: Global, line: u32, tokens: &[Token]) -> Result<Option<(Mark, u32)>, Memory> {
    let mut open: Vec<(Mark, u32)> = Vec::new(alloc);
    for token in tokens {
        if token.line > line {
            break;
        }
        match token.kind {
            TokenKind::Mark(mark) if opens(mark) => open.push((mark, token.line))?,
            TokenKind::Mark(mark) if closes(mark) => {
                let _closed = open.pop();
            }
            _ => {}
        }
    }
    Ok(open.last().copied())
}

fn opens(mark: Mark) -> bool {
    matches!(mark, Mark::OpenParen | Mark::OpenBracket | Mark::OpenBrace)
}

fn closes(mark: Mark) -> bool {
    matches!(
        mark,
        Mark::CloseParen | Mark::CloseBracket | Mark::CloseBrace
    )
}

fn is_pair(open: Mark, close: Mark) -> bool {
    matches!(
        (open, close),
        (Mark::OpenParen, Mark::CloseParen)
            | (Mark::OpenBracket, Mark::CloseBracket)
            | (Mark::OpenBrace, Mark::CloseBrace)
    )
}
