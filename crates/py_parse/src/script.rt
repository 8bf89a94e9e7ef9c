//! A script: its lines to the last token.
ghost use Rattle.std.specs.Prelude.{[]};
ghost use Rattle.py_tree.specs.Tree.{script_tree};
ghost use Rattle.py_parse.specs.Agrees.{Agrees};
ghost use Rattle.py_parse.specs.Reading.{Reads, ok};
ghost use Rattle.py_parse.specs.Grammar as grammar;

use crate::lines::parse_line;
use crate::site::Site;
use crate::stop::Stop;
use py_token::Token;
use py_tree::Script;
use scons_base::limits::SYNTAX_DEPTH_LIMIT;
use std::alloc::Global;

/// The script that all these tokens are.
pub fn read_script<'a>(alloc: Global, tokens: &'a [Token]) -> Result<Script, Stop<'a>>
    ensures { Agrees (λ s. ok (script_tree s) []) result
        (Reads SYNTAX_DEPTH_LIMIT (grammar.reads grammar.script grammar.gives) tokens.now) }
{
    let mut lines = Vec::new(alloc);
    let mut rest = tokens;
    'lines: while !rest.is_empty() {
        let (line, after) = parse_line(alloc, Site::top(), SYNTAX_DEPTH_LIMIT, rest)?;
        lines.push(line)?;
        rest = after;
    }
    Ok(Script { lines })
}
