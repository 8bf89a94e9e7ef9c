//! The arguments of a call: those without a name, then those with one.
ghost use Rattle.std.specs.Prelude.{◌≡◌, ◌&&◌, true, false, map};
ghost use Rattle.py_tree.specs.Tree.{expr_tree, argument_tree, trees};
ghost use Rattle.py_tree.specs.Tree as tree;
ghost use Rattle.py_parse.specs.Agrees.{BeforeAssign};
ghost use Rattle.py_parse.specs.Open.{LinkContinues, LinkShrinks, call_end, argument_after, named_after};
ghost use Rattle.py_parse.specs.Open.{named_from_here};
ghost use Rattle.py_parse.specs.Terminals.{one, heads};
ghost use Rattle.py_parse.specs.Reading.{pick};
ghost use Rattle.py_parse.specs.Grammar as grammar;
ghost use Rattle.py_parse.specs.declared.terminal.Terminal.TheVariants as terminal';
ghost use Rattle.py_token.specs.declared.mark.Mark.TheVariants as mark';

use crate::link::{NextLink, OpenLink};
use crate::seen::Seen;
use crate::stop::Stop;
use crate::terminal::{Terminal, sees, strip};
use py_token::{Mark, Token};
use py_tree::{Argument, Expr, Link};
use scons_base::Text;
use std::alloc::Global;

/// What stands behind the `(` of a call.
pub fn open_call<'a>(
    alloc: Global,
    line: u32,
    tokens: &'a [Token],
) -> Result<NextLink<'a>, Stop<'a>>
    ensures { LinkContinues (pick (grammar.call_body line) tokens.now) tokens.now result }
{
    let arguments = Vec::new(alloc);
    if sees(Terminal::Expression, tokens) {
        return Ok(NextLink::More(OpenLink::Argument { line, arguments }, tokens));
    }
    close_call(line, arguments, tokens)
}

/// What stands behind an argument that has no name so far.
pub fn put_argument<'a>(
    alloc: Global,
    line: u32,
    arguments: Vec<Argument>,
    value: Expr,
    tokens: &'a [Token],
) -> Result<NextLink<'a>, Stop<'a>>
    ensures goes { LinkContinues (argument_after line (map argument_tree arguments.items) (expr_tree value))
        tokens.now result }
    ensures shrinks { LinkShrinks tokens.now result }
{
    match name_before_assign(value, tokens) {
        Ok((name_line, name)) => open_named(alloc, line, arguments, name_line, name, tokens),
        Err(value) => put_positional(line, arguments, value, tokens),
    }
}

/// What stands behind an argument without a name.
fn put_positional<'a>(
    line: u32,
    arguments: Vec<Argument>,
    value: Expr,
    tokens: &'a [Token],
) -> Result<NextLink<'a>, Stop<'a>>
    requires { grammar.is_name (expr_tree value) && heads (one (terminal'.Mark mark'.Assign)) tokens.now ≡ false }
    ensures goes { LinkContinues (argument_after line (map argument_tree arguments.items) (expr_tree value))
        tokens.now result }
    ensures shrinks { LinkShrinks tokens.now result }
{
    let mut arguments = arguments;
    arguments.push(Argument::Positional { value })?;
    let Some((_, rest)) = strip(Terminal::Mark(Mark::Comma), tokens) else {
        return close_call(line, arguments, tokens);
    };
    if sees(Terminal::Expression, rest) {
        return Ok(NextLink::More(OpenLink::Argument { line, arguments }, rest));
    }
    close_call(line, arguments, rest)
}

/// The name in front of `=`, or the expression again.
fn name_before_assign(value: Expr, tokens: &[Token]) -> Result<(u32, Text), Expr>
    ensures { BeforeAssign (expr_tree value) tokens.now result }
{
    if !sees(Terminal::Mark(Mark::Assign), tokens) {
        return Err(value);
    }
    match value {
        Expr::Name { line, name } => Ok((line, name)),
        other => Err(other),
    }
}

/// What stands behind the name of the first named argument.
fn open_named<'a>(
    alloc: Global,
    line: u32,
    arguments: Vec<Argument>,
    name_line: u32,
    name: Text,
    tokens: &'a [Token],
) -> Result<NextLink<'a>, Stop<'a>>
    requires { heads (one (terminal'.Mark mark'.Assign)) tokens.now ≡ true }
    ensures goes { LinkContinues (argument_after line (map argument_tree arguments.items) (tree.name name_line name))
        tokens.now result }
    ensures shrinks { LinkShrinks tokens.now result }
{
    let Some((_, rest)) = strip(Terminal::Mark(Mark::Assign), tokens) else {
        return Err(Stop::At(tokens));
    };
    let mut seen = Seen::new(alloc);
    seen.insert(name.copy()?)?;
    Ok(NextLink::More(
        OpenLink::Named {
            line,
            arguments,
            seen,
            name_line,
            name,
        },
        rest,
    ))
}

/// What stands behind the value of a named argument.
pub fn put_named<'a>(
    line: u32,
    arguments: Vec<Argument>,
    seen: Seen,
    name_line: u32,
    name: Text,
    value: Expr,
    tokens: &'a [Token],
) -> Result<NextLink<'a>, Stop<'a>>
    ensures goes { LinkContinues (named_after line (map argument_tree arguments.items) seen name_line name
        (expr_tree value)) tokens.now result }
    ensures shrinks { LinkShrinks tokens.now result }
{
    let mut arguments = arguments;
    let line_of_name = name_line;
    arguments.push(Argument::Named {
        line: line_of_name,
        name,
        value,
    })?;
    let Some((_, rest)) = strip(Terminal::Mark(Mark::Comma), tokens) else {
        return close_call(line, arguments, tokens);
    };
    next_named(line, arguments, seen, rest)
}

/// A further named argument, or the closing parenthesis.
fn next_named<'a>(
    line: u32,
    arguments: Vec<Argument>,
    seen: Seen,
    tokens: &'a [Token],
) -> Result<NextLink<'a>, Stop<'a>>
    ensures goes { LinkContinues (named_from_here line (map argument_tree arguments.items) seen) tokens.now result }
    ensures shrinks { LinkShrinks tokens.now result }
{
    let Some((name_line, name, rest)) = seen.take_fresh(tokens) else {
        return close_call(line, arguments, tokens);
    };
    let Some((_, rest)) = strip(Terminal::Mark(Mark::Assign), rest) else {
        return Err(Stop::At(rest));
    };
    let mut seen = seen;
    let name = name.copy()?;
    seen.insert(name.copy()?)?;
    Ok(NextLink::More(
        OpenLink::Named {
            line,
            arguments,
            seen,
            name_line,
            name,
        },
        rest,
    ))
}

/// The closing parenthesis.
fn close_call<'a>(
    line: u32,
    arguments: Vec<Argument>,
    tokens: &'a [Token],
) -> Result<NextLink<'a>, Stop<'a>>
    ensures goes { LinkContinues (call_end line (trees (map argument_tree arguments.items))) tokens.now result }
    ensures shrinks { LinkShrinks tokens.now result }
{
    let Some((_, rest)) = strip(Terminal::Mark(Mark::CloseParen), tokens) else {
        return Err(Stop::At(tokens));
    };
    Ok(NextLink::Closed(Link::Call { line, arguments }, rest))
}
