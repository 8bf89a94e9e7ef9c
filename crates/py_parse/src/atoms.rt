//! The smallest expressions, and comparisons.
ghost use Rattle.std.specs.Prelude.{◌≡◌, ◌<◌, ℕ, List, false, IfOk, length};
ghost use Rattle.py_tree.specs.Tree.{expr_tree, link_tree};
ghost use Rattle.py_tree.specs.Tree as tree;
ghost use Rattle.py_parse.specs.Agrees.{Agrees};
ghost use Rattle.py_parse.specs.Terminals.{one, heads};
ghost use Rattle.py_parse.specs.Reading.{Reads, pick, ok};
ghost use Rattle.py_parse.specs.Grammar.{Body};
ghost use Rattle.py_token.specs.declared.token.Token.{Token};
ghost use Rattle.py_parse.specs.Grammar as grammar;
ghost use Rattle.py_parse.specs.declared.terminal.Terminal.TheVariants as terminal';
ghost use Rattle.py_token.specs.declared.mark.Mark.TheVariants as mark';

use crate::names::take_name;
use crate::stop::Stop;
use crate::tables::constant_of;
use crate::terminal::{Terminal, strip};
use py_token::{Mark, Token, TokenKind};
use py_tree::{Comparison, Constant, Expr, Link};
use scons_base::Memory;
use std::alloc::{AllocFailed, Global};

/// A name, a number or a constant.
pub fn take_leaf<'a>(
    alloc: Global,
    tokens: &'a [Token],
) -> Result<(Box<Expr>, &'a [Token]), Stop<'a>>
    ensures { Agrees (λ p. ok (expr_tree p.0.value) p.1.now) result
        (λ o. (d : ℕ) → Reads d (grammar.takes (one terminal'.Leaf) (λ x. grammar.gives (grammar.leaf_of x)))
        tokens.now o) }
{
    let Some((token, rest)) = strip(Terminal::Leaf, tokens) else {
        return Err(Stop::At(tokens));
    };
    let leaf = Box::new(alloc, leaf_of(token)?)?;
    Ok((leaf, rest))
}

/// The expression that a token alone is.
fn leaf_of(token: &Token) -> Result<Expr, Memory>
    ensures { IfOk result (λ e. expr_tree e ≡ grammar.leaf_of token.now) }
{
    let line = token.line;
    match &token.kind {
        TokenKind::Name(name) => {
            let name = name.copy()?;
            Ok(Expr::Name { line, name })
        }
        TokenKind::Integer(value) => Ok(Expr::Integer {
            line,
            value: *value,
        }),
        kind => {
            let constant = constant_of(kind).unwrap_or(Constant::None);
            Ok(Expr::Constant { line, constant })
        }
    }
}

/// A dot and a name.
pub fn take_attribute<'a>(tokens: &'a [Token]) -> Result<(Link, &'a [Token]), Stop<'a>>
    requires call { heads (one (terminal'.Mark mark'.OpenParen)) tokens.now ≡ false }
    requires subscript { heads (one (terminal'.Mark mark'.OpenBracket)) tokens.now ≡ false }
    ensures found { Agrees (λ p. ok (link_tree p.0) p.1.now) result
        (λ o. (d : ℕ) → Reads d (pick grammar.one_link tokens.now) tokens.now o) }
    ensures shorter { IfOk result (λ p. length p.1.now < length tokens.now) }
{
    let Some((_, rest)) = strip(Terminal::Mark(Mark::Dot), tokens) else {
        return Err(Stop::At(tokens));
    };
    let Some((line, name, rest)) = take_name(rest) else {
        return Err(Stop::At(rest));
    };
    let name = name.copy()?;
    Ok((Link::Attribute { line, name }, rest))
}

/// Two operands compared.
pub fn compare(
    alloc: Global,
    line: u32,
    comparison: Comparison,
    left: Box<Expr>,
    right: Box<Expr>,
) -> Result<Box<Expr>, AllocFailed<Expr>>
    ensures { IfOk result (λ e.
        expr_tree e.value ≡ tree.compare line comparison (expr_tree left.value) (expr_tree right.value)) }
{
    let whole = Expr::Compare {
        line,
        comparison,
        left,
        right,
    };
    Box::new(alloc, whole)
}

/// A conditional expression.
pub fn choice(
    alloc: Global,
    line: u32,
    value: Box<Expr>,
    test: Box<Expr>,
    other: Box<Expr>,
) -> Result<Box<Expr>, AllocFailed<Expr>>
    ensures { IfOk result (λ e.
        expr_tree e.value ≡ tree.choice line (expr_tree value.value) (expr_tree test.value) (expr_tree other.value)) }
{
    let whole = Expr::Choice {
        line,
        value,
        test,
        other,
    };
    Box::new(alloc, whole)
}

/// The expression on the heap, with the tokens behind it.
pub fn boxed<'a>(
    alloc: Global,
    expr: Expr,
    rest: &'a [Token],
) -> Result<(Box<Expr>, &'a [Token]), Stop<'a>>
    ensures { (b : Body) (d : ℕ) (ts : List Token) → Reads d b ts (ok (expr_tree expr) rest.now) →
        Agrees (λ p. ok (expr_tree p.0.value) p.1.now) result (Reads d b ts) }
{
    let expr = Box::new(alloc, expr)?;
    Ok((expr, rest))
}
