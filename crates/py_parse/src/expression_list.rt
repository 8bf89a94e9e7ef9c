//! Expressions with commas between them.
ghost use Rattle.std.specs.Prelude.{map};
ghost use Rattle.py_tree.specs.Tree.{Tree, expr_tree};
ghost use Rattle.py_parse.specs.Agrees.{Agrees, list_end, onto};
ghost use Rattle.py_parse.specs.Reading.{Reads, pick, ok};
ghost use Rattle.py_parse.specs.Grammar as grammar;

use crate::expression::parse_expr;
use crate::stop::Stop;
use crate::terminal::{Terminal, sees, strip};
use py_token::{Mark, Token};
use py_tree::Expr;
use std::alloc::Global;

/// An expression alone, or a tuple of those with commas between them.
pub fn parse_exprs<'a>(
    alloc: Global,
    depth: u32,
    tokens: &'a [Token],
) -> Result<(Expr, &'a [Token]), Stop<'a>>
    ensures { Agrees (λ p. ok (expr_tree p.0) p.1.now) result (Reads depth (pick grammar.exprs tokens.now) tokens.now) }
{
    let (first, rest) = parse_expr(alloc, depth, tokens)?;
    let Some((comma, after)) = strip(Terminal::Mark(Mark::Comma), rest) else {
        return Ok((first, rest));
    };
    let line = comma.line;
    let mut items = Vec::new(alloc);
    items.push(first)?;
    let (items, trailing_comma, rest) = parse_items(alloc, depth, items, after)?;
    let tuple = Expr::Tuple {
        line,
        items,
        trailing_comma,
    };
    Ok((tuple, rest))
}

/// Further items behind a comma, and whether a comma stands behind the last one.
fn parse_items<'a>(
    alloc: Global,
    depth: u32,
    items: Vec<Expr>,
    tokens: &'a [Token],
) -> Result<(Vec<Expr>, bool, &'a [Token]), Stop<'a>>
    ensures { (f : Tree → Tree) → Agrees (λ p. ok (f (onto (map expr_tree p.0.items) (list_end p.1))) p.2.now) result
        (Reads depth (grammar.reads grammar.items (λ u. grammar.gives (f (onto (map expr_tree items.items) u))))
        tokens.now) }
{
    let mut items = items;
    let mut rest = tokens;
    'items: while sees(Terminal::Expression, rest) {
        let (item, after) = parse_expr(alloc, depth, rest)?;
        items.push(item)?;
        let Some((_, after)) = strip(Terminal::Mark(Mark::Comma), after) else {
            return Ok((items, false, after));
        };
        rest = after;
    }
    Ok((items, true, rest))
}
