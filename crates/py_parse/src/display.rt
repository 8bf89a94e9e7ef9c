//! Parentheses, lists and dicts that are open: what may stand in them behind an expression.
ghost use Rattle.std.specs.Prelude.{◌≡◌};
ghost use Rattle.py_tree.specs.Tree.{expr_tree};
ghost use Rattle.py_parse.specs.Open.{Shrinks, display_after, is_plain, Continues};
ghost use Rattle.py_parse.specs.Reading.{pick};
ghost use Rattle.py_parse.specs.Grammar as grammar;

use crate::dicts::{open_dict, put_key, put_value};
use crate::lists::{open_list, put_first, put_item, put_source, put_test};
use crate::stop::Stop;
use crate::tuples::{open_group, put_grouped, put_in_tuple};
use py_token::{Mark, Token, TokenKind};
use py_tree::{Expr, Pair};
use scons_base::Text;
use std::alloc::Global;

/// A display that is open, with what was read of it. An expression stands next. The line is that of its bracket.
#[derive(Debug, Drop)]
pub enum OpenDisplay {
    /// The first expression in parentheses.
    Group {
        line: u32,
    },
    /// A further item of a tuple in parentheses, whose first comma is on that line.
    Tuple {
        line: u32,
        comma: u32,
        items: Vec<Expr>,
    },
    /// The first expression in brackets.
    First {
        line: u32,
    },
    /// A further item of a list.
    Item {
        line: u32,
        items: Vec<Expr>,
    },
    /// What a comprehension goes over.
    Source {
        line: u32,
        item: Box<Expr>,
        names: Vec<Text>,
    },
    /// A test of a comprehension.
    Test {
        line: u32,
        item: Box<Expr>,
        names: Vec<Text>,
        source: Box<Expr>,
        tests: Vec<Expr>,
    },
    /// A key of a dict.
    Key {
        line: u32,
        pairs: Vec<Pair>,
    },
    /// The value behind a key and the colon on that line.
    Value {
        line: u32,
        pairs: Vec<Pair>,
        key: Expr,
        colon: u32,
    },
}

/// How a display goes on: with an expression that is the first of these tokens, or closed, in front of them.
#[derive(Debug, Drop)]
pub enum NextDisplay<'a> {
    More(OpenDisplay, &'a [Token]),
    Closed(Expr, &'a [Token]),
}

/// What stands behind this bracket.
pub fn open_display<'a>(
    alloc: Global,
    bracket: &Token,
    tokens: &'a [Token],
) -> Result<NextDisplay<'a>, Stop<'a>>
    ensures { Continues (pick (grammar.display_of bracket.now) tokens.now) tokens.now result }
{
    match bracket.kind {
        TokenKind::Mark(Mark::OpenParen) => open_group(alloc, bracket.line, tokens),
        TokenKind::Mark(Mark::OpenBracket) => open_list(alloc, bracket.line, tokens),
        _ => open_dict(alloc, bracket.line, tokens),
    }
}

impl OpenDisplay {
    /// The expression that stands next is no conditional one.
    pub fn is_plain(&self) -> bool
        ensures { result ≡ is_plain self.now }
    {
        match self {
            OpenDisplay::Source { .. } => true,
            OpenDisplay::Test { .. } => true,
            _ => false,
        }
    }

    /// What comes behind this expression, which is the next in the display.
    pub fn put<'a>(
        self,
        alloc: Global,
        value: Expr,
        tokens: &'a [Token],
    ) -> Result<NextDisplay<'a>, Stop<'a>>
        ensures goes { Continues (display_after self (expr_tree value)) tokens.now result }
        ensures shrinks { Shrinks tokens.now result }
    {
        match self {
            OpenDisplay::Group { line } => put_grouped(alloc, line, value, tokens),
            OpenDisplay::Tuple { line, comma, items } => {
                put_in_tuple(alloc, line, comma, items, value, tokens)
            }
            OpenDisplay::First { line } => put_first(alloc, line, value, tokens),
            OpenDisplay::Item { line, items } => put_item(line, items, value, tokens),
            OpenDisplay::Source { line, item, names } => {
                put_source(alloc, line, item, names, value, tokens)
            }
            OpenDisplay::Test {
                line,
                item,
                names,
                source,
                tests,
            } => put_test(line, item, names, source, tests, value, tokens),
            OpenDisplay::Key { line, pairs } => put_key(line, pairs, value, tokens),
            OpenDisplay::Value {
                line,
                pairs,
                key,
                colon,
            } => put_value(line, pairs, key, colon, value, tokens),
        }
    }
}

/// What comes behind an expression of a display, both on the heap.
pub fn put_in_display<'a>(
    alloc: Global,
    display: Box<OpenDisplay>,
    value: Box<Expr>,
    tokens: &'a [Token],
) -> Result<NextDisplay<'a>, Stop<'a>>
    ensures goes { Continues (display_after display.value (expr_tree value.value)) tokens.now result }
    ensures shrinks { Shrinks tokens.now result }
{
    let display = Box::into_inner(display);
    display.put(alloc, Box::into_inner(value), tokens)
}
