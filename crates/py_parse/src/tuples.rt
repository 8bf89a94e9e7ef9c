//! What stands in parentheses: an expression alone, or a tuple.
ghost use Rattle.std.specs.Prelude.{map};
ghost use Rattle.py_tree.specs.Tree.{expr_tree};
ghost use Rattle.py_parse.specs.Open.{Shrinks, Continues, group_end, grouped_after, tuple_after};
ghost use Rattle.py_parse.specs.Reading.{pick};
ghost use Rattle.py_parse.specs.Grammar as grammar;

use crate::display::{NextDisplay, OpenDisplay};
use crate::stop::Stop;
use crate::terminal::{Terminal, sees, strip};
use py_token::{Mark, Token};
use py_tree::Expr;
use std::alloc::Global;

/// What stands behind `(`.
pub fn open_group<'a>(
    alloc: Global,
    line: u32,
    tokens: &'a [Token],
) -> Result<NextDisplay<'a>, Stop<'a>>
    ensures { Continues (pick (grammar.grouped line) tokens.now) tokens.now result }
{
    let Some((_, rest)) = strip(Terminal::Mark(Mark::CloseParen), tokens) else {
        return Ok(NextDisplay::More(OpenDisplay::Group { line }, tokens));
    };
    let empty = Expr::Tuple {
        line,
        items: Vec::new(alloc),
        trailing_comma: false,
    };
    let inner = Box::new(alloc, empty)?;
    Ok(NextDisplay::Closed(Expr::Group { line, inner }, rest))
}

/// What stands behind the first expression in parentheses.
pub fn put_grouped<'a>(
    alloc: Global,
    line: u32,
    value: Expr,
    tokens: &'a [Token],
) -> Result<NextDisplay<'a>, Stop<'a>>
    ensures goes { Continues (grouped_after line (expr_tree value)) tokens.now result }
    ensures shrinks { Shrinks tokens.now result }
{
    let Some((comma, rest)) = strip(Terminal::Mark(Mark::Comma), tokens) else {
        return close_group(alloc, line, value, tokens);
    };
    let comma = comma.line;
    let mut items = Vec::new(alloc);
    items.push(value)?;
    if sees(Terminal::Expression, rest) {
        return Ok(NextDisplay::More(OpenDisplay::Tuple { line, comma, items }, rest));
    }
    let tuple = Expr::Tuple {
        line: comma,
        items,
        trailing_comma: true,
    };
    close_group(alloc, line, tuple, rest)
}

/// What stands behind a further item of a tuple in parentheses.
pub fn put_in_tuple<'a>(
    alloc: Global,
    line: u32,
    comma: u32,
    items: Vec<Expr>,
    value: Expr,
    tokens: &'a [Token],
) -> Result<NextDisplay<'a>, Stop<'a>>
    ensures goes { Continues (tuple_after line comma (map expr_tree items.items) (expr_tree value)) tokens.now result }
    ensures shrinks { Shrinks tokens.now result }
{
    let mut items = items;
    items.push(value)?;
    let Some((_, rest)) = strip(Terminal::Mark(Mark::Comma), tokens) else {
        let tuple = Expr::Tuple {
            line: comma,
            items,
            trailing_comma: false,
        };
        return close_group(alloc, line, tuple, tokens);
    };
    if sees(Terminal::Expression, rest) {
        return Ok(NextDisplay::More(OpenDisplay::Tuple { line, comma, items }, rest));
    }
    let tuple = Expr::Tuple {
        line: comma,
        items,
        trailing_comma: true,
    };
    close_group(alloc, line, tuple, rest)
}

/// The closing parenthesis.
fn close_group<'a>(
    alloc: Global,
    line: u32,
    inner: Expr,
    tokens: &'a [Token],
) -> Result<NextDisplay<'a>, Stop<'a>>
    ensures goes { Continues (group_end line (expr_tree inner)) tokens.now result }
    ensures shrinks { Shrinks tokens.now result }
{
    let Some((_, rest)) = strip(Terminal::Mark(Mark::CloseParen), tokens) else {
        return Err(Stop::At(tokens));
    };
    let inner = Box::new(alloc, inner)?;
    Ok(NextDisplay::Closed(Expr::Group { line, inner }, rest))
}
