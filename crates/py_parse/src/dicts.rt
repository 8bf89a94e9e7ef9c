//! What stands in braces: the pairs of a dict.
ghost use Rattle.std.specs.Prelude.{map};
ghost use Rattle.py_tree.specs.Tree.{expr_tree, pair_tree, trees};
ghost use Rattle.py_parse.specs.Open.{Shrinks, Continues, dict_end, key_after, value_after};
ghost use Rattle.py_parse.specs.Reading.{pick};
ghost use Rattle.py_parse.specs.Grammar as grammar;

use crate::display::{NextDisplay, OpenDisplay};
use crate::stop::Stop;
use crate::terminal::{Terminal, sees, strip};
use py_token::{Mark, Token};
use py_tree::{Expr, Pair};
use std::alloc::Global;

/// What stands behind `{`.
pub fn open_dict<'a>(
    alloc: Global,
    line: u32,
    tokens: &'a [Token],
) -> Result<NextDisplay<'a>, Stop<'a>>
    ensures { Continues (pick (grammar.dict_body line) tokens.now) tokens.now result }
{
    let pairs = Vec::new(alloc);
    if sees(Terminal::Expression, tokens) {
        return Ok(NextDisplay::More(OpenDisplay::Key { line, pairs }, tokens));
    }
    close_dict(line, pairs, tokens)
}

/// What stands behind a key.
pub fn put_key<'a>(
    line: u32,
    pairs: Vec<Pair>,
    key: Expr,
    tokens: &'a [Token],
) -> Result<NextDisplay<'a>, Stop<'a>>
    ensures goes { Continues (key_after line (map pair_tree pairs.items) (expr_tree key)) tokens.now result }
    ensures shrinks { Shrinks tokens.now result }
{
    let Some((colon, rest)) = strip(Terminal::Mark(Mark::Colon), tokens) else {
        return Err(Stop::At(tokens));
    };
    let colon = colon.line;
    Ok(NextDisplay::More(
        OpenDisplay::Value {
            line,
            pairs,
            key,
            colon,
        },
        rest,
    ))
}

/// What stands behind a value.
pub fn put_value<'a>(
    line: u32,
    pairs: Vec<Pair>,
    key: Expr,
    colon: u32,
    value: Expr,
    tokens: &'a [Token],
) -> Result<NextDisplay<'a>, Stop<'a>>
    ensures goes { Continues (value_after line (map pair_tree pairs.items) (expr_tree key) colon (expr_tree value))
        tokens.now result }
    ensures shrinks { Shrinks tokens.now result }
{
    let mut pairs = pairs;
    let line_of_pair = colon;
    pairs.push(Pair {
        line: line_of_pair,
        key,
        value,
    })?;
    let Some((_, rest)) = strip(Terminal::Mark(Mark::Comma), tokens) else {
        return close_dict(line, pairs, tokens);
    };
    if sees(Terminal::Expression, rest) {
        return Ok(NextDisplay::More(OpenDisplay::Key { line, pairs }, rest));
    }
    close_dict(line, pairs, rest)
}

/// The closing brace.
fn close_dict<'a>(
    line: u32,
    pairs: Vec<Pair>,
    tokens: &'a [Token],
) -> Result<NextDisplay<'a>, Stop<'a>>
    ensures goes { Continues (dict_end line (trees (map pair_tree pairs.items))) tokens.now result }
    ensures shrinks { Shrinks tokens.now result }
{
    let Some((_, rest)) = strip(Terminal::Mark(Mark::CloseBrace), tokens) else {
        return Err(Stop::At(tokens));
    };
    Ok(NextDisplay::Closed(Expr::Dict { line, pairs }, rest))
}
