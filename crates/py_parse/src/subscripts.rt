//! What stands in the brackets of a subscript: an index, or a slice.
ghost use Rattle.py_tree.specs.Tree.{expr_tree};
ghost use Rattle.py_parse.specs.Agrees.{optional_box};
ghost use Rattle.py_parse.specs.Open.{LinkContinues, LinkShrinks, LinkStays, lower_after, upper_after};
ghost use Rattle.py_parse.specs.Reading.{pick};
ghost use Rattle.py_parse.specs.Grammar as grammar;

use crate::link::{NextLink, OpenLink};
use crate::stop::Stop;
use crate::terminal::{Terminal, sees, strip};
use py_token::{Mark, Token};
use py_tree::{Expr, Link};
use std::alloc::Global;

/// What stands behind the `[` of a subscript.
pub fn open_subscript<'a>(line: u32, tokens: &'a [Token]) -> Result<NextLink<'a>, Stop<'a>>
    ensures { LinkContinues (pick (grammar.subscript line) tokens.now) tokens.now result }
{
    let Some((_, rest)) = strip(Terminal::Mark(Mark::Colon), tokens) else {
        return Ok(NextLink::More(OpenLink::Lower { line }, tokens));
    };
    open_upper(line, None, rest)
}

/// What stands behind an index, or behind the begin of a slice.
pub fn put_lower<'a>(
    alloc: Global,
    line: u32,
    value: Expr,
    tokens: &'a [Token],
) -> Result<NextLink<'a>, Stop<'a>>
    ensures goes { LinkContinues (lower_after line (expr_tree value)) tokens.now result }
    ensures shrinks { LinkShrinks tokens.now result }
{
    let value = Box::new(alloc, value)?;
    if let Some((_, rest)) = strip(Terminal::Mark(Mark::Colon), tokens) {
        return open_upper(line, Some(value), rest);
    }
    let Some((_, rest)) = strip(Terminal::Mark(Mark::CloseBracket), tokens) else {
        return Err(Stop::At(tokens));
    };
    Ok(NextLink::Closed(Link::Index { line, index: value }, rest))
}

/// What stands behind the colon of a slice.
fn open_upper<'a>(
    line: u32,
    lower: Option<Box<Expr>>,
    tokens: &'a [Token],
) -> Result<NextLink<'a>, Stop<'a>>
    ensures goes { LinkContinues (grammar.sliced line (optional_box lower)) tokens.now result }
    ensures stays { LinkStays tokens.now result }
{
    if sees(Terminal::Expression, tokens) {
        return Ok(NextLink::More(OpenLink::Upper { line, lower }, tokens));
    }
    close_slice(line, lower, None, tokens)
}

/// What stands behind the end of a slice.
pub fn put_upper<'a>(
    alloc: Global,
    line: u32,
    lower: Option<Box<Expr>>,
    value: Expr,
    tokens: &'a [Token],
) -> Result<NextLink<'a>, Stop<'a>>
    ensures goes { LinkContinues (upper_after line (optional_box lower) (expr_tree value)) tokens.now result }
    ensures shrinks { LinkShrinks tokens.now result }
{
    let upper = Box::new(alloc, value)?;
    close_slice(line, lower, Some(upper), tokens)
}

/// The closing bracket of a slice.
fn close_slice<'a>(
    line: u32,
    lower: Option<Box<Expr>>,
    upper: Option<Box<Expr>>,
    tokens: &'a [Token],
) -> Result<NextLink<'a>, Stop<'a>>
    ensures goes { LinkContinues (upper_after line (optional_box lower) (optional_box upper)) tokens.now result }
    ensures shrinks { LinkShrinks tokens.now result }
{
    let Some((_, rest)) = strip(Terminal::Mark(Mark::CloseBracket), tokens) else {
        return Err(Stop::At(tokens));
    };
    Ok(NextLink::Closed(Link::Slice { line, lower, upper }, rest))
}
