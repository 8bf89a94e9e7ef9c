//! Assignments, and what may stand on their left.
ghost use Rattle.std.specs.Prelude.{◌≡◌, ℕ, false, map};
ghost use Rattle.std.specs.List.{list_all};
ghost use Rattle.py_tree.specs.Tree.{expr_tree, link_tree, simple_tree, trees, tuple};
ghost use Rattle.py_parse.specs.Agrees.{Agrees};
ghost use Rattle.py_parse.specs.Reading.{Reads, ok};
ghost use Rattle.py_parse.specs.Grammar as grammar;

use crate::expression_list::parse_exprs;
use crate::statements::strip_where;
use crate::stop::Stop;
use crate::tables::augment_of;
use crate::terminal::Terminal;
use py_token::{Mark, Token};
use py_tree::{Expr, Link, Simple};
use std::alloc::Global;

/// The last of what stands behind an atom is an index.
fn ends_in_index(links: &[Link]) -> bool
    ensures { result ≡ grammar.ends_in_index (trees (map link_tree links.now)) }
{
    let Some((last, _)) = links.split_last() else {
        return false;
    };
    matches!(last, Link::Index { .. })
}

/// A name, or an index behind an atom.
fn is_place(expr: &Expr) -> bool
    ensures { result ≡ grammar.is_place (expr_tree expr.now) }
{
    match expr {
        Expr::Name { .. } => true,
        Expr::Post { links, .. } => ends_in_index(links),
        _ => false,
    }
}

fn is_name(expr: &Expr) -> bool
    ensures { result ≡ grammar.is_name (expr_tree expr.now) }
{
    matches!(expr, Expr::Name { .. })
}

fn are_names(exprs: &[Expr]) -> bool
    ensures { result ≡ list_all (λ e. grammar.is_name (expr_tree e)) exprs.now }
{
    exprs.iter().all(|expr| is_name(expr))
}

/// Two and more names.
fn are_several_names(exprs: &[Expr]) -> bool
    ensures { (line : ℕ) → result ≡ grammar.is_targets (tuple line (trees (map expr_tree exprs.now)) false) }
{
    if exprs.len() < 2 {
        return false;
    }
    are_names(exprs)
}

/// One place, or two and more names without a comma behind them.
fn is_targets(expr: &Expr) -> bool
    ensures { result ≡ grammar.is_targets (expr_tree expr.now) }
{
    match expr {
        Expr::Tuple {
            items,
            trailing_comma,
            ..
        } => !*trailing_comma && are_several_names(items),
        expr => is_place(expr),
    }
}

/// An assignment, or expressions alone.
pub fn parse_assignment<'a>(
    alloc: Global,
    depth: u32,
    tokens: &'a [Token],
) -> Result<(Simple, &'a [Token]), Stop<'a>>
    ensures { Agrees (λ p. ok (simple_tree p.0) p.1.now) result (Reads depth grammar.assignment tokens.now) }
{
    let (target, rest) = parse_exprs(alloc, depth, tokens)?;
    let mark = Terminal::Mark(Mark::Assign);
    if let Some((mark, rest)) = strip_where(is_targets(&target), mark, rest) {
        let (value, rest) = parse_exprs(alloc, depth, rest)?;
        let line = mark.line;
        return Ok((
            Simple::Assign {
                line,
                target,
                value,
            },
            rest,
        ));
    }
    if let Some((mark, rest)) = strip_where(is_place(&target), Terminal::Augment, rest) {
        let Some(operator) = augment_of(&mark.kind) else {
            return Err(Stop::At(rest));
        };
        let (value, rest) = parse_exprs(alloc, depth, rest)?;
        let line = mark.line;
        return Ok((
            Simple::Augment {
                line,
                operator,
                target,
                value,
            },
            rest,
        ));
    }
    Ok((Simple::Expression { value: target }, rest))
}
