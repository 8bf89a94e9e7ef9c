//! A script, cut into its tokens.
ghost use Rattle.std.specs.Prelude.{◌≡◌, ◌<◌, ◌≤◌, ◌-◌, ◌^◌, ℕ, List, length, IfOk, MatchResult};
ghost use Rattle.py_token.specs.declared.token.Token.{Token};
ghost use Rattle.py_lex.specs.declared.fault.LexKind.{LexKind};
ghost use Rattle.py_lex.specs.Steps.{start};
ghost use Rattle.py_lex.specs.Utf8.{IsClean};
ghost use Rattle.py_lex.specs.Lexes.{Lexes, FaultAt, FaultsAt, Gives, Tells, Agrees, IsRead, Reads, without_order_mark};
ghost use Rattle.py_lex.specs.Written.{Written};

use crate::bytes::NO_TEXT;
use crate::fault::{LexFault, LexKind};
use crate::reader::{self, Step, Stop, is_in_line, next_step, step_in_line};
use py_token::Tokens;
use scons_base::limits::SCRIPT_LIMIT;
use std::alloc::Global;
use std::str;

/// Cuts a script into its tokens, or says where it first can't be cut, and why.
pub fn lex(alloc: Global, bytes: &[u8]) -> Result<Tokens, LexFault>
    ensures found { MatchResult result (Lexes bytes.now) (FaultsAt bytes.now) }
    ensures only { (tokens : List Token) → Lexes bytes.now tokens → Gives result tokens }
    ensures refused { (line : ℕ) (kind : LexKind) → FaultAt bytes.now line kind → Tells result line kind }
    ensures written { IfOk result (λ tokens. Written tokens (without_order_mark bytes.now)) }
{
    lex_bytes(alloc, bytes)
}

fn lex_bytes(alloc: Global, bytes: &[u8]) -> Result<Tokens, LexFault>
    ensures { Agrees result (IsRead bytes.now) }
{
    if bytes.len() as u64 > SCRIPT_LIMIT {
        let line = 1;
        let kind = LexKind::TooLong;
        return Err(LexFault::At { line, kind });
    }
    let script = without_order_mark(bytes);
    match str::from_utf8(script) {
        Ok(_) => lex_script(alloc, script),
        Err(fault) => {
            let mut marked = Vec::from_slice(alloc, &script[..fault.valid_up_to()])?;
            marked.push(NO_TEXT)?;
            lex_script(alloc, marked.as_slice())
        }
    }
}

fn without_order_mark(bytes: &[u8]) -> &[u8]
    ensures rest { result.now ≡ without_order_mark bytes.now }
    ensures fits { length result.now ≤ length bytes.now }
{
    bytes
        .strip_prefix(b"\xEF\xBB\xBF".as_slice())
        .unwrap_or(bytes)
}

fn lex_script(alloc: Global, script: &[u8]) -> Result<Tokens, LexFault>
    requires fits { length script.now < 2 ^ 31 - 1 }
    requires clean { IsClean script.now }
    ensures { Agrees result (Reads (start script.now)) }
{
    let mut reader = reader::start(alloc, script)?;
    'script: loop {
        if is_in_line(&reader) {
            if let Some(Stop { line, kind }) = step_in_line(alloc, &mut reader)? {
                return Err(LexFault::At { line, kind });
            }
            continue;
        }
        match next_step(alloc, reader)? {
            Step::Goes(next) => reader = next,
            Step::Ends(tokens) => return Ok(Tokens::new(tokens)),
            Step::Stops { line, kind } => return Err(LexFault::At { line, kind }),
        }
    }
}
