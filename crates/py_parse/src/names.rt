//! Names, and lists of names.
ghost use Rattle.std.specs.Prelude.{◌≡◌, ◌-◌, ◌<◌, ℕ, false, Some, None, Ok, Err, MatchOption, Option};
ghost use Rattle.py_tree.specs.Tree.{words};
ghost use Rattle.py_parse.specs.Terminals.{one, heads};
ghost use Rattle.py_parse.specs.Agrees.{Agrees, NameAt};
ghost use Rattle.py_parse.specs.Reading.{Reads, pick, ok};
ghost use Rattle.py_parse.specs.Grammar as grammar;
ghost use Rattle.py_parse.specs.declared.terminal.Terminal.TheVariants as terminal';

use crate::stop::Stop;
use crate::terminal::{Terminal, strip};
use py_token::{Mark, Token, TokenKind};
use scons_base::Text;
use std::alloc::Global;

/// The name that is the next token, with its line.
pub fn take_name<'a>(tokens: &'a [Token]) -> Option<(u32, &'a Text, &'a [Token])>
    ensures { MatchOption result (heads (one terminal'.Name) tokens.now ≡ false)
        (λ p. NameAt tokens.now p.0 p.1.now p.2.now) }
{
    let (first, rest) = tokens.split_first()?;
    match &first.kind {
        TokenKind::Name(name) => Some((first.line, name, rest)),
        _ => None,
    }
}

/// Names with commas between them.
pub fn parse_names<'a>(
    alloc: Global,
    tokens: &'a [Token],
) -> Result<(Vec<Text>, &'a [Token]), Stop<'a>>
    ensures { Agrees (λ p. ok (words p.0.items) p.1.now) result
        (λ o. (d : ℕ) → Reads d (pick grammar.names tokens.now) tokens.now o) }
{
    let mut found = Vec::new(alloc);
    let mut rest = tokens;
    'names: loop {
        let Some((_, name, after)) = take_name(rest) else {
            return Err(Stop::At(rest));
        };
        found.push(name.copy()?)?;
        let Some((_, after)) = strip(Terminal::Mark(Mark::Comma), after) else {
            return Ok((found, after));
        };
        rest = after;
    }
}
