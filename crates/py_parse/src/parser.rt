//! Tokens, read as the syntax tree of a script.
ghost use Rattle.std.specs.Prelude.{◌≡◌, ◌-◌, ℕ, length, slice_get, MatchResult};
ghost use Rattle.py_tree.specs.Tree.{Tree};
ghost use Rattle.py_parse.specs.declared.fault.ParseFault.TheVariants.{At};
ghost use Rattle.py_parse.specs.declared.fault.ParseKind.{ParseKind};
ghost use Rattle.py_parse.specs.Parses.{Parses};
ghost use Rattle.py_parse.specs.Faults.{IsTree, FaultAt, FaultsAt, Gives, Tells, line_in, line_of, number_of};

use crate::fault::{ParseFault, ParseKind};
use crate::kind::kind_at;
use crate::script::read_script;
use crate::stop::Stop;
use py_token::{Token, Tokens};
use py_tree::Script;
use std::alloc::Global;

/// Reads the tokens of a script as its syntax tree, or says which token is the first that no continuation allows, and
/// why.
pub fn parse(alloc: Global, tokens: &Tokens) -> Result<Script, ParseFault>
    ensures found { MatchResult result (IsTree tokens.now) (FaultsAt tokens.now) }
    ensures only { (t : Tree) → Parses tokens.now t → Gives result t }
    ensures refused { (line token : ℕ) (kind : ParseKind) → FaultAt tokens.now line token kind →
        Tells result line token kind }
{
    parse_tokens(alloc, tokens.as_slice())
}

fn parse_tokens(alloc: Global, tokens: &[Token]) -> Result<Script, ParseFault>
    ensures { MatchResult result (IsTree tokens.now) (FaultsAt tokens.now) }
{
    match read_script(alloc, tokens) {
        Ok(script) => Ok(script),
        Err(Stop::At(rest)) => {
            let (front, rest) = tokens.split_at(tokens.len() - rest.len());
            let kind = kind_at(alloc, front, rest)?;
            Err(fault_at(front, rest, kind))
        }
        Err(Stop::TooDeep(rest)) => {
            let (front, rest) = tokens.split_at(tokens.len() - rest.len());
            Err(fault_at(front, rest, ParseKind::TooDeep))
        }
        Err(Stop::Memory) => Err(ParseFault::Memory),
    }
}

fn fault_at(front: &[Token], rest: &[Token], kind: ParseKind) -> ParseFault
    ensures { result ≡ At (line_of front.now rest.now) (number_of front.now) kind }
{
    let line = line_of(front, rest);
    let token = number_of(front);
    ParseFault::At { line, token, kind }
}

fn line_of(front: &[Token], rest: &[Token]) -> u32
    ensures { result ≡ line_of front.now rest.now }
{
    match rest.first() {
        Some(token) => token.line,
        None => last_line(front),
    }
}

fn last_line(tokens: &[Token]) -> u32
    ensures { result ≡ line_in (slice_get tokens.now (length tokens.now - 1)) }
{
    match tokens.last() {
        Some(token) => token.line,
        None => 1,
    }
}

fn number_of(front: &[Token]) -> u32
    ensures { result ≡ number_of front.now }
{
    u32::try_from(front.len()).unwrap_or(u32::MAX)
}
