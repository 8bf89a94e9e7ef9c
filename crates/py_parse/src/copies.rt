//! Copies of tokens.
ghost use Rattle.std.specs.Prelude.{◌≡◌, IfOk};

use py_token::{Token, TokenKind};
use scons_base::Memory;
use std::alloc::Global;

pub fn copied(alloc: Global, tokens: &[Token]) -> Result<Vec<Token>, Memory>
    ensures { IfOk result (λ copies. copies.items ≡ tokens.now) }
{
    let mut copies = Vec::with_capacity(alloc, tokens.len())?;
    for token in tokens {
        let kind = kind_copied(&token.kind)?;
        copies.push(Token {
            line: token.line,
            kind,
        })?;
    }
    Ok(copies)
}

fn kind_copied(kind: &TokenKind) -> Result<TokenKind, Memory>
    ensures { IfOk result (λ copy. copy ≡ kind.now) }
{
    match kind {
        TokenKind::Name(name) => Ok(TokenKind::Name(name.copy()?)),
        TokenKind::Integer(value) => Ok(TokenKind::Integer(*value)),
        TokenKind::Text(text) => Ok(TokenKind::Text(text.copy()?)),
        TokenKind::Word(word) => Ok(TokenKind::Word(*word)),
        TokenKind::Mark(mark) => Ok(TokenKind::Mark(*mark)),
        TokenKind::FStart => Ok(TokenKind::FStart),
        TokenKind::FPart(text) => Ok(TokenKind::FPart(text.copy()?)),
        TokenKind::FEnd => Ok(TokenKind::FEnd),
        TokenKind::Newline => Ok(TokenKind::Newline),
        TokenKind::Indent => Ok(TokenKind::Indent),
        TokenKind::Dedent => Ok(TokenKind::Dedent),
    }
}
