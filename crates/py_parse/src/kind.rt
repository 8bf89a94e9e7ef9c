//! Why a token is refused that no continuation allows.
ghost use Rattle.std.specs.Prelude.{◌≡◌, ◌↔◌, IfOk, IsTrue};
ghost use Rattle.py_parse.specs.Parses.{BeginsScript};
ghost use Rattle.py_parse.specs.Kinds as kinds;
ghost use Rattle.py_parse.specs.Kinds.{IsTooDeep, IsKind, EndsExpression};

use crate::copies::copied;
use crate::fault::{ParseKind, Unsupported};
use crate::outside::{unsupported_at, unsupported_behind};
use crate::script::read_script;
use crate::stop::Stop;
use py_token::{Keyword, Token, TokenKind};
use scons_base::Memory;
use std::alloc::Global;

/// Why the first of the tokens `rest` is refused behind those of `front`, if not for its depth.
pub fn kind_at(alloc: Global, front: &[Token], rest: &[Token]) -> Result<ParseKind, Memory>
    ensures { IfOk result (λ kind. (IsTooDeep front.now rest.now → ⊥) → IsKind front.now rest.now kind) }
{
    match unsupported_behind(rest) {
        Some(unsupported) => {
            if ends_expression(alloc, front)? {
                Ok(ParseKind::OutOfSubset(unsupported))
            } else {
                Ok(ParseKind::Unexpected)
            }
        }
        None => Ok(kind_of(unsupported_at(front, rest))),
    }
}

fn kind_of(unsupported: Option<Unsupported>) -> ParseKind
    ensures { result ≡ kinds.kind_of unsupported }
{
    match unsupported {
        Some(unsupported) => ParseKind::OutOfSubset(unsupported),
        None => ParseKind::Unexpected,
    }
}

/// The keyword `or` may stand behind these tokens.
fn ends_expression(alloc: Global, front: &[Token]) -> Result<bool, Memory>
    ensures { IfOk result (λ ends. IsTrue ends ↔ EndsExpression front.now) }
{
    let mut tokens = copied(alloc, front)?;
    let kind = TokenKind::Word(Keyword::Or);
    tokens.push(Token { line: 0, kind })?;
    begins_script(alloc, tokens.as_slice())
}

/// Some tokens behind these make them a script.
fn begins_script(alloc: Global, tokens: &[Token]) -> Result<bool, Memory>
    ensures { IfOk result (λ begins. IsTrue begins ↔ BeginsScript tokens.now) }
{
    match read_script(alloc, tokens) {
        Ok(_) => Ok(true),
        Err(Stop::At(rest)) => Ok(rest.is_empty()),
        Err(Stop::TooDeep(rest)) => Ok(rest.is_empty()),
        Err(Stop::Memory) => Err(Memory),
    }
}
