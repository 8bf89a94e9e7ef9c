//! Calls and subscripts that are open: what may stand in them behind an expression.
ghost use Rattle.py_tree.specs.Tree.{expr_tree};
ghost use Rattle.py_parse.specs.Open.{LinkContinues, LinkShrinks, link_after};

use crate::arguments::{put_argument, put_named};
use crate::seen::Seen;
use crate::stop::Stop;
use crate::subscripts::{put_lower, put_upper};
use py_token::Token;
use py_tree::{Argument, Expr, Link};
use scons_base::Text;
use std::alloc::Global;

/// A call or subscript behind an atom that is open, with what was read of it. An expression stands next. The line is
/// that of its bracket.
#[derive(Debug, Drop)]
pub enum OpenLink {
    /// An argument without a name, or a name in front of `=`.
    Argument {
        line: u32,
        arguments: Vec<Argument>,
    },
    /// The value of this named argument; the names so far are seen, its own too.
    Named {
        line: u32,
        arguments: Vec<Argument>,
        seen: Seen,
        name_line: u32,
        name: Text,
    },
    /// An index, or where a slice begins.
    Lower {
        line: u32,
    },
    /// Where a slice ends.
    Upper {
        line: u32,
        lower: Option<Box<Expr>>,
    },
}

/// How a call or subscript goes on: with an expression that is the first of these tokens, or closed, in front of them.
#[derive(Debug, Drop)]
pub enum NextLink<'a> {
    More(OpenLink, &'a [Token]),
    Closed(Link, &'a [Token]),
}

impl OpenLink {
    /// What comes behind this expression, which is the next in the brackets.
    pub fn put<'a>(
        self,
        alloc: Global,
        value: Expr,
        tokens: &'a [Token],
    ) -> Result<NextLink<'a>, Stop<'a>>
        ensures goes { LinkContinues (link_after self (expr_tree value)) tokens.now result }
        ensures shrinks { LinkShrinks tokens.now result }
    {
        match self {
            OpenLink::Argument { line, arguments } => {
                put_argument(alloc, line, arguments, value, tokens)
            }
            OpenLink::Named {
                line,
                arguments,
                seen,
                name_line,
                name,
            } => put_named(line, arguments, seen, name_line, name, value, tokens),
            OpenLink::Lower { line } => put_lower(alloc, line, value, tokens),
            OpenLink::Upper { line, lower } => put_upper(alloc, line, lower, value, tokens),
        }
    }
}

/// What comes behind an expression of a call or subscript, both on the heap.
pub fn put_in_link<'a>(
    alloc: Global,
    link: Box<OpenLink>,
    value: Box<Expr>,
    tokens: &'a [Token],
) -> Result<NextLink<'a>, Stop<'a>>
    ensures goes { LinkContinues (link_after link.value (expr_tree value.value)) tokens.now result }
    ensures shrinks { LinkShrinks tokens.now result }
{
    let link = Box::into_inner(link);
    link.put(alloc, Box::into_inner(value), tokens)
}
