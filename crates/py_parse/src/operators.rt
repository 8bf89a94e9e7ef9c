//! Operators and constants: what is read without going deeper.
ghost use Rattle.std.specs.Prelude.{◌≡◌, ◌-◌, ◌<◌, ℕ, false, map, Some, None, Ok, Err, MatchOption, IfOk, Option};
ghost use Rattle.py_tree.specs.Tree.{expr_tree, link_tree, operation_tree, trees};
ghost use Rattle.py_parse.specs.Terminals.{one, heads};
ghost use Rattle.py_parse.specs.Agrees.{Agrees, OperatorAt, Compares};
ghost use Rattle.py_parse.specs.Reading.{Reads, pick, ok};
ghost use Rattle.py_parse.specs.Grammar as grammar;
ghost use Rattle.py_parse.specs.declared.terminal.Terminal.TheVariants as terminal';

use crate::level::Level;
use crate::stop::Stop;
use crate::tables::{comparison_of, constant_of, operator_of};
use crate::terminal::{Terminal, strip};
use py_token::{Keyword, Token};
use py_tree::{Comparison, Constant, Expr, Link, Operation, Operator};
use std::alloc::{AllocFailed, Global};

/// The operator of this level that is the next token, with its line.
pub fn next_operator<'a>(level: Level, tokens: &'a [Token]) -> Option<(u32, Operator, &'a [Token])>
    ensures { MatchOption result (heads (one (terminal'.Operator level)) tokens.now ≡ false)
        (λ p. OperatorAt level tokens.now p.0 p.1 p.2.now) }
{
    let (first, rest) = tokens.split_first()?;
    let operator = operator_of(level, &first.kind)?;
    Some((first.line, operator, rest))
}

/// `True`, `False` or `None`.
pub fn take_constant<'a>(
    alloc: Global,
    tokens: &'a [Token],
) -> Result<(Box<Expr>, &'a [Token]), Stop<'a>>
    ensures { Agrees (λ p. ok (expr_tree p.0.value) p.1.now) result
        (λ o. (d : ℕ) → Reads d (pick grammar.constants tokens.now) tokens.now o) }
{
    let Some((token, rest)) = strip(Terminal::Constant, tokens) else {
        return Err(Stop::At(tokens));
    };
    let Some(constant) = constant_of(&token.kind) else {
        return Err(Stop::At(tokens));
    };
    let line = token.line;
    let expr = Box::new(alloc, Expr::Constant { line, constant })?;
    Ok((expr, rest))
}

/// The operands joined, or the first alone.
pub fn chain_of(
    alloc: Global,
    first: Box<Expr>,
    rest: Vec<Operation>,
) -> Result<Box<Expr>, AllocFailed<Expr>>
    ensures { IfOk result (λ e.
        expr_tree e.value ≡ grammar.chain_of (expr_tree first.value) (trees (map operation_tree rest.items))) }
{
    if rest.is_empty() {
        return Ok(first);
    }
    Box::new(alloc, Expr::Chain { first, rest })
}

/// The operator of a comparison that is next, with its line.
pub fn next_comparison<'a>(
    tokens: &'a [Token],
) -> Result<Option<(u32, Comparison, &'a [Token])>, Stop<'a>>
    ensures { Compares tokens.now result }
{
    if let Some((word, rest)) = strip(Terminal::Word(Keyword::Not), tokens) {
        let Some((_, rest)) = strip(Terminal::Word(Keyword::In), rest) else {
            return Err(Stop::At(rest));
        };
        return Ok(Some((word.line, Comparison::NotIn, rest)));
    }
    if let Some((word, rest)) = strip(Terminal::Word(Keyword::Is), tokens) {
        if let Some((_, rest)) = strip(Terminal::Word(Keyword::Not), rest) {
            return Ok(Some((word.line, Comparison::IsNot, rest)));
        }
        return Ok(Some((word.line, Comparison::Is, rest)));
    }
    let Some((mark, rest)) = strip(Terminal::Comparison, tokens) else {
        return Ok(None);
    };
    let Some(comparison) = comparison_of(&mark.kind) else {
        return Err(Stop::At(tokens));
    };
    Ok(Some((mark.line, comparison, rest)))
}

/// The atom with what stands behind it, or the atom alone.
pub fn post_of(
    alloc: Global,
    atom: Box<Expr>,
    links: Vec<Link>,
) -> Result<Box<Expr>, AllocFailed<Expr>>
    ensures { IfOk result (λ e.
        expr_tree e.value ≡ grammar.post_of (expr_tree atom.value) (trees (map link_tree links.items))) }
{
    if links.is_empty() {
        return Ok(atom);
    }
    Box::new(alloc, Expr::Post { atom, links })
}
