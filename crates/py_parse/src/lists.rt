//! What stands in brackets: a list, or a comprehension.
ghost use Rattle.std.specs.Prelude.{map};
ghost use Rattle.py_tree.specs.Tree.{expr_tree, trees, words};
ghost use Rattle.py_parse.specs.Open.{Shrinks, Continues, list_end, list_after, item_after, source_after, test_after};
ghost use Rattle.py_parse.specs.Open.{tests_from};
ghost use Rattle.py_parse.specs.Reading.{pick};
ghost use Rattle.py_parse.specs.Grammar as grammar;

use crate::display::{NextDisplay, OpenDisplay};
use crate::names::parse_names;
use crate::stop::Stop;
use crate::terminal::{Terminal, sees, strip};
use py_token::{Keyword, Mark, Token};
use py_tree::Expr;
use scons_base::Text;
use std::alloc::Global;

/// What stands behind `[`.
pub fn open_list<'a>(
    alloc: Global,
    line: u32,
    tokens: &'a [Token],
) -> Result<NextDisplay<'a>, Stop<'a>>
    ensures { Continues (pick (grammar.listed line) tokens.now) tokens.now result }
{
    let Some((_, rest)) = strip(Terminal::Mark(Mark::CloseBracket), tokens) else {
        return Ok(NextDisplay::More(OpenDisplay::First { line }, tokens));
    };
    let items = Vec::new(alloc);
    Ok(NextDisplay::Closed(Expr::List { line, items }, rest))
}

/// What stands behind the first expression in brackets.
pub fn put_first<'a>(
    alloc: Global,
    line: u32,
    value: Expr,
    tokens: &'a [Token],
) -> Result<NextDisplay<'a>, Stop<'a>>
    ensures goes { Continues (list_after line (expr_tree value)) tokens.now result }
    ensures shrinks { Shrinks tokens.now result }
{
    if let Some((_, rest)) = strip(Terminal::Word(Keyword::For), tokens) {
        return open_comprehension(alloc, line, value, rest);
    }
    put_item(line, Vec::new(alloc), value, tokens)
}

/// What stands behind a further item of a list.
pub fn put_item<'a>(
    line: u32,
    items: Vec<Expr>,
    value: Expr,
    tokens: &'a [Token],
) -> Result<NextDisplay<'a>, Stop<'a>>
    ensures goes { Continues (item_after line (map expr_tree items.items) (expr_tree value)) tokens.now result }
    ensures shrinks { Shrinks tokens.now result }
{
    let mut items = items;
    items.push(value)?;
    let Some((_, rest)) = strip(Terminal::Mark(Mark::Comma), tokens) else {
        return close_list(line, items, tokens);
    };
    if sees(Terminal::Expression, rest) {
        return Ok(NextDisplay::More(OpenDisplay::Item { line, items }, rest));
    }
    close_list(line, items, rest)
}

/// The closing bracket.
fn close_list<'a>(
    line: u32,
    items: Vec<Expr>,
    tokens: &'a [Token],
) -> Result<NextDisplay<'a>, Stop<'a>>
    ensures goes { Continues (list_end line (trees (map expr_tree items.items))) tokens.now result }
    ensures shrinks { Shrinks tokens.now result }
{
    let Some((_, rest)) = strip(Terminal::Mark(Mark::CloseBracket), tokens) else {
        return Err(Stop::At(tokens));
    };
    Ok(NextDisplay::Closed(Expr::List { line, items }, rest))
}

/// What stands behind the `for` of a comprehension.
fn open_comprehension<'a>(
    alloc: Global,
    line: u32,
    item: Expr,
    tokens: &'a [Token],
) -> Result<NextDisplay<'a>, Stop<'a>>
    ensures goes { Continues (grammar.comprehended line (expr_tree item)) tokens.now result }
    ensures shrinks { Shrinks tokens.now result }
{
    let (names, rest) = parse_names(alloc, tokens)?;
    let Some((_, rest)) = strip(Terminal::Word(Keyword::In), rest) else {
        return Err(Stop::At(rest));
    };
    let item = Box::new(alloc, item)?;
    Ok(NextDisplay::More(OpenDisplay::Source { line, item, names }, rest))
}

/// What stands behind what a comprehension goes over.
pub fn put_source<'a>(
    alloc: Global,
    line: u32,
    item: Box<Expr>,
    names: Vec<Text>,
    source: Expr,
    tokens: &'a [Token],
) -> Result<NextDisplay<'a>, Stop<'a>>
    ensures goes { Continues (source_after line (expr_tree item.value) (words names.items) (expr_tree source))
        tokens.now result }
    ensures shrinks { Shrinks tokens.now result }
{
    let source = Box::new(alloc, source)?;
    more_tests(line, item, names, source, Vec::new(alloc), tokens)
}

/// What stands behind a test of a comprehension.
pub fn put_test<'a>(
    line: u32,
    item: Box<Expr>,
    names: Vec<Text>,
    source: Box<Expr>,
    tests: Vec<Expr>,
    test: Expr,
    tokens: &'a [Token],
) -> Result<NextDisplay<'a>, Stop<'a>>
    ensures goes { Continues (test_after line (expr_tree item.value) (words names.items) (expr_tree source.value)
        (map expr_tree tests.items) (expr_tree test)) tokens.now result }
    ensures shrinks { Shrinks tokens.now result }
{
    let mut tests = tests;
    tests.push(test)?;
    more_tests(line, item, names, source, tests, tokens)
}

/// A further test, or the closing bracket.
fn more_tests<'a>(
    line: u32,
    item: Box<Expr>,
    names: Vec<Text>,
    source: Box<Expr>,
    tests: Vec<Expr>,
    tokens: &'a [Token],
) -> Result<NextDisplay<'a>, Stop<'a>>
    ensures goes { Continues (tests_from line (expr_tree item.value) (words names.items) (expr_tree source.value)
        (map expr_tree tests.items)) tokens.now result }
    ensures shrinks { Shrinks tokens.now result }
{
    if let Some((_, rest)) = strip(Terminal::Word(Keyword::If), tokens) {
        return Ok(NextDisplay::More(
            OpenDisplay::Test {
                line,
                item,
                names,
                source,
                tests,
            },
            rest,
        ));
    }
    let Some((_, rest)) = strip(Terminal::Mark(Mark::CloseBracket), tokens) else {
        return Err(Stop::At(tokens));
    };
    Ok(NextDisplay::Closed(
        Expr::Comprehension {
            line,
            item,
            names,
            source,
            tests,
        },
        rest,
    ))
}
