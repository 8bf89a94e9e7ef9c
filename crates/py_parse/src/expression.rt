//! Expressions, from conditional ones and the lowest level of operators down to atoms. A function goes down a level of nesting
//! at an opening bracket, a field of an f-text, an `if`, a `not` and a unary minus alone.
ghost use Rattle.std.specs.Prelude.{◌≡◌, ◌<◌, List, false, length, IfOk};
ghost use Rattle.py_token.specs.declared.token.Token.{Token};
ghost use Rattle.py_tree.specs.Tree.{expr_tree, link_tree, piece_tree};
ghost use Rattle.py_parse.specs.Agrees.{Agrees, right_of};
ghost use Rattle.py_parse.specs.Open.{GoesOn, LinkGoesOn, PiecesGoOn, wanted};
ghost use Rattle.py_parse.specs.Terminals.{one, heads};
ghost use Rattle.py_parse.specs.declared.terminal.Terminal.TheVariants as terminal';
ghost use Rattle.py_parse.specs.Reading.{Reads, pick, ok};
ghost use Rattle.py_parse.specs.Grammar as grammar;

use crate::arguments::open_call;
use crate::atoms::{boxed, choice, compare, take_attribute, take_leaf};
use crate::display::{NextDisplay, open_display, put_in_display};
use crate::level::Level;
use crate::link::{NextLink, put_in_link};
use crate::operators::{chain_of, next_comparison, next_operator, post_of, take_constant};
use crate::pieces::{NextPiece, behind_text, next_piece, put_field};
use crate::stop::Stop;
use crate::subscripts::open_subscript;
use crate::terminal::{Terminal, sees, strip};
use py_token::{Keyword, Mark, Token};
use py_tree::{Comparison, Expr, Link, Operation, Piece};
use std::alloc::Global;

/// An expression. `depth` is how many levels of nesting are left.
pub fn parse_expr<'a>(
    alloc: Global,
    depth: u32,
    tokens: &'a [Token],
) -> Result<(Expr, &'a [Token]), Stop<'a>>
    ensures { Agrees (λ p. ok (expr_tree p.0) p.1.now) result (Reads depth (pick grammar.expr tokens.now) tokens.now) }
{
    let (expr, rest) = parse_choice(alloc, depth, tokens)?;
    Ok((Box::into_inner(expr), rest))
}

/// An expression: operands that are joined, and maybe a conditional expression that they begin.
#[cycle(expression)]
fn parse_choice<'a>(
    alloc: Global,
    depth: u32,
    tokens: &'a [Token],
) -> Result<(Box<Expr>, &'a [Token]), Stop<'a>>
    ensures { Agrees (λ p. ok (expr_tree p.0.value) p.1.now) result
        (Reads depth (pick grammar.expr tokens.now) tokens.now) }
{
    let (value, rest) = parse_chain(alloc, Level::Or, depth, tokens)?;
    let Some((word, after)) = strip(Terminal::Word(Keyword::If), rest) else {
        return Ok((value, rest));
    };
    if depth == 0 {
        return Err(Stop::TooDeep(rest));
    }
    parse_test(alloc, depth - 1, word.line, value, after)
}

/// What stands behind the `if` of a conditional expression, which gives this value where its test holds.
#[cycle(expression)]
fn parse_test<'a>(
    alloc: Global,
    depth: u32,
    line: u32,
    value: Box<Expr>,
    tokens: &'a [Token],
) -> Result<(Box<Expr>, &'a [Token]), Stop<'a>>
    ensures { Agrees (λ p. ok (expr_tree p.0.value) p.1.now) result
        (Reads depth (pick (grammar.choice_body line (expr_tree value.value)) tokens.now) tokens.now) }
{
    let (test, rest) = parse_chain(alloc, Level::Or, depth, tokens)?;
    let Some((_, rest)) = strip(Terminal::Word(Keyword::Else), rest) else {
        return Err(Stop::At(rest));
    };
    let (other, rest) = parse_choice(alloc, depth, rest)?;
    let whole = choice(alloc, line, value, test, other)?;
    Ok((whole, rest))
}

/// An expression, a conditional one only where it may be one.
#[cycle(expression)]
fn parse_wanted<'a>(
    alloc: Global,
    plain: bool,
    depth: u32,
    tokens: &'a [Token],
) -> Result<(Box<Expr>, &'a [Token]), Stop<'a>>
    ensures { Agrees (λ p. ok (expr_tree p.0.value) p.1.now) result
        (Reads depth (pick (wanted plain) tokens.now) tokens.now) }
{
    if plain {
        parse_chain(alloc, Level::Or, depth, tokens)
    } else {
        parse_choice(alloc, depth, tokens)
    }
}

/// Operands with operators of a level between them.
#[cycle(expression)]
fn parse_chain<'a>(
    alloc: Global,
    level: Level,
    depth: u32,
    tokens: &'a [Token],
) -> Result<(Box<Expr>, &'a [Token]), Stop<'a>>
    ensures { Agrees (λ p. ok (expr_tree p.0.value) p.1.now) result
        (Reads depth (pick (grammar.chained level) tokens.now) tokens.now) }
{
    let (first, mut rest) = parse_operand(alloc, level, depth, tokens)?;
    let mut operations = Vec::new(alloc);
    'operations: while let Some((line, operator, after)) = next_operator(level, rest) {
        let (operand, after) = parse_operand(alloc, level, depth, after)?;
        operations.push(Operation {
            line,
            operator,
            operand: Box::into_inner(operand),
        })?;
        rest = after;
    }
    let chain = chain_of(alloc, first, operations)?;
    Ok((chain, rest))
}

/// What the operators of a level join: the next level above.
#[cycle(expression)]
fn parse_operand<'a>(
    alloc: Global,
    level: Level,
    depth: u32,
    tokens: &'a [Token],
) -> Result<(Box<Expr>, &'a [Token]), Stop<'a>>
    ensures { Agrees (λ p. ok (expr_tree p.0.value) p.1.now) result
        (Reads depth (pick (grammar.operand level) tokens.now) tokens.now) }
{
    match level {
        Level::Or => parse_chain(alloc, Level::And, depth, tokens),
        Level::And => parse_not(alloc, depth, tokens),
        Level::Sum => parse_chain(alloc, Level::Product, depth, tokens),
        Level::Product => parse_unary(alloc, depth, tokens),
    }
}

/// A comparison, with any number of `not`s in front.
#[cycle(expression)]
fn parse_not<'a>(
    alloc: Global,
    depth: u32,
    tokens: &'a [Token],
) -> Result<(Box<Expr>, &'a [Token]), Stop<'a>>
    ensures { Agrees (λ p. ok (expr_tree p.0.value) p.1.now) result
        (Reads depth (pick grammar.negation tokens.now) tokens.now) }
{
    let Some((word, rest)) = strip(Terminal::Word(Keyword::Not), tokens) else {
        return parse_comparison(alloc, depth, tokens);
    };
    if depth == 0 {
        return Err(Stop::TooDeep(tokens));
    }
    let (operand, rest) = parse_not(alloc, depth - 1, rest)?;
    let line = word.line;
    let negation = Box::new(alloc, Expr::Not { line, operand })?;
    Ok((negation, rest))
}

/// A sum, or two that are compared.
#[cycle(expression)]
fn parse_comparison<'a>(
    alloc: Global,
    depth: u32,
    tokens: &'a [Token],
) -> Result<(Box<Expr>, &'a [Token]), Stop<'a>>
    ensures { Agrees (λ p. ok (expr_tree p.0.value) p.1.now) result
        (Reads depth (pick grammar.comparison tokens.now) tokens.now) }
{
    let (left, rest) = parse_chain(alloc, Level::Sum, depth, tokens)?;
    let next = next_comparison(rest)?;
    let Some((line, comparison, after)) = next else {
        return Ok((left, rest));
    };
    let (right, after) = parse_right(alloc, comparison, depth, after)?;
    let whole = compare(alloc, line, comparison, left, right)?;
    Ok((whole, after))
}

/// The right side of a comparison: behind `is` and `is not` a constant, else a sum.
#[cycle(expression)]
fn parse_right<'a>(
    alloc: Global,
    comparison: Comparison,
    depth: u32,
    tokens: &'a [Token],
) -> Result<(Box<Expr>, &'a [Token]), Stop<'a>>
    ensures { Agrees (λ p. ok (expr_tree p.0.value) p.1.now) result
        (Reads depth (pick (right_of comparison) tokens.now) tokens.now) }
{
    match comparison {
        Comparison::Is | Comparison::IsNot => take_constant(alloc, tokens),
        _ => parse_chain(alloc, Level::Sum, depth, tokens),
    }
}

/// An atom with what stands behind it, and any number of minus signs in front.
#[cycle(expression)]
fn parse_unary<'a>(
    alloc: Global,
    depth: u32,
    tokens: &'a [Token],
) -> Result<(Box<Expr>, &'a [Token]), Stop<'a>>
    ensures { Agrees (λ p. ok (expr_tree p.0.value) p.1.now) result
        (Reads depth (pick grammar.unary tokens.now) tokens.now) }
{
    let Some((mark, rest)) = strip(Terminal::Mark(Mark::Minus), tokens) else {
        return parse_post(alloc, depth, tokens);
    };
    if depth == 0 {
        return Err(Stop::TooDeep(tokens));
    }
    let (operand, rest) = parse_unary(alloc, depth - 1, rest)?;
    let line = mark.line;
    let negative = Box::new(alloc, Expr::Negative { line, operand })?;
    Ok((negative, rest))
}

/// An atom with the calls, subscripts and attributes behind it.
#[cycle(expression)]
fn parse_post<'a>(
    alloc: Global,
    depth: u32,
    tokens: &'a [Token],
) -> Result<(Box<Expr>, &'a [Token]), Stop<'a>>
    ensures { Agrees (λ p. ok (expr_tree p.0.value) p.1.now) result
        (Reads depth (pick grammar.posted tokens.now) tokens.now) }
{
    let (atom, mut rest) = parse_atom(alloc, depth, tokens)?;
    let mut links = Vec::new(alloc);
    'links: while sees(Terminal::Link, rest) {
        let (link, after) = parse_link(alloc, depth, rest)?;
        links.push(link)?;
        rest = after;
    }
    let post = post_of(alloc, atom, links)?;
    Ok((post, rest))
}

/// A name, a number, a constant, texts, or a display in brackets.
#[cycle(expression)]
fn parse_atom<'a>(
    alloc: Global,
    depth: u32,
    tokens: &'a [Token],
) -> Result<(Box<Expr>, &'a [Token]), Stop<'a>>
    ensures { Agrees (λ p. ok (expr_tree p.0.value) p.1.now) result
        (Reads depth (pick grammar.atom tokens.now) tokens.now) }
{
    let Some((bracket, rest)) = strip(Terminal::Bracket, tokens) else {
        return parse_text(alloc, depth, tokens);
    };
    if depth == 0 {
        return Err(Stop::TooDeep(tokens));
    }
    let next = open_display(alloc, bracket, rest)?;
    parse_display(alloc, depth - 1, next)
}

/// Texts, or an atom of one token.
#[cycle(expression)]
fn parse_text<'a>(
    alloc: Global,
    depth: u32,
    tokens: &'a [Token],
) -> Result<(Box<Expr>, &'a [Token]), Stop<'a>>
    requires { heads (one terminal'.Bracket) tokens.now ≡ false }
    ensures { Agrees (λ p. ok (expr_tree p.0.value) p.1.now) result
        (Reads depth (pick grammar.atom tokens.now) tokens.now) }
{
    if let Some((text, rest)) = strip(Terminal::Text, tokens) {
        let next = behind_text(alloc, text, rest)?;
        return parse_pieces(alloc, depth, text.line, next);
    }
    if let Some((start, rest)) = strip(Terminal::FStart, tokens) {
        let next = next_piece(alloc, start.line, true, Vec::new(alloc), rest)?;
        return parse_pieces(alloc, depth, start.line, next);
    }
    take_leaf(alloc, tokens)
}

/// The fields of texts of which the first stands on this line, and what stands between them.
#[cycle(expression)]
fn parse_pieces<'a>(
    alloc: Global,
    depth: u32,
    line: u32,
    next: NextPiece<'a>,
) -> Result<(Box<Expr>, &'a [Token]), Stop<'a>>
    ensures { (b : grammar.Body) (ts : List Token) → PiecesGoOn line b ts next.entry →
        Agrees (λ p. ok (expr_tree p.0.value) p.1.now) result (Reads depth b ts) }
{
    let (mut pieces, mut rest) = match next {
        NextPiece::Ended(texts, rest) => return boxed(alloc, texts, rest),
        NextPiece::Field(pieces, rest) => (pieces, rest),
    };
    'fields: loop {
        let (field, after) = parse_field(alloc, depth, rest)?;
        match put_field(alloc, line, pieces, field, after)? {
            NextPiece::Ended(texts, after) => return boxed(alloc, texts, after),
            NextPiece::Field(more, after) => {
                pieces = more;
                rest = after;
            }
        }
    }
}

/// A field of an f-text, with its braces.
#[cycle(expression)]
fn parse_field<'a>(
    alloc: Global,
    depth: u32,
    tokens: &'a [Token],
) -> Result<(Piece, &'a [Token]), Stop<'a>>
    ensures found { Agrees (λ p. ok (piece_tree p.0) p.1.now) result
        (Reads depth grammar.one_field tokens.now) }
    ensures shorter { IfOk result (λ p. length p.1.now < length tokens.now) }
{
    let Some((brace, rest)) = strip(Terminal::Mark(Mark::OpenBrace), tokens) else {
        return Err(Stop::At(tokens));
    };
    if depth == 0 {
        return Err(Stop::TooDeep(tokens));
    }
    let (value, rest) = parse_choice(alloc, depth - 1, rest)?;
    let Some((_, rest)) = strip(Terminal::Mark(Mark::CloseBrace), rest) else {
        return Err(Stop::At(rest));
    };
    let line = brace.line;
    let value = Box::into_inner(value);
    Ok((Piece::Field { line, value }, rest))
}

/// A call, a subscript or an attribute behind an atom.
#[cycle(expression)]
fn parse_link<'a>(
    alloc: Global,
    depth: u32,
    tokens: &'a [Token],
) -> Result<(Link, &'a [Token]), Stop<'a>>
    ensures found { Agrees (λ p. ok (link_tree p.0) p.1.now) result
        (Reads depth (pick grammar.one_link tokens.now) tokens.now) }
    ensures shorter { IfOk result (λ p. length p.1.now < length tokens.now) }
{
    if let Some((bracket, rest)) = strip(Terminal::Mark(Mark::OpenParen), tokens) {
        if depth == 0 {
            return Err(Stop::TooDeep(tokens));
        }
        let next = open_call(alloc, bracket.line, rest)?;
        return parse_brackets(alloc, depth - 1, next);
    }
    if let Some((bracket, rest)) = strip(Terminal::Mark(Mark::OpenBracket), tokens) {
        if depth == 0 {
            return Err(Stop::TooDeep(tokens));
        }
        let next = open_subscript(bracket.line, rest)?;
        return parse_brackets(alloc, depth - 1, next);
    }
    take_attribute(tokens)
}

/// The expressions of a display, up to its closing bracket.
#[cycle(expression)]
fn parse_display<'a>(
    alloc: Global,
    depth: u32,
    next: NextDisplay<'a>,
) -> Result<(Box<Expr>, &'a [Token]), Stop<'a>>
    ensures { (b : grammar.Body) (ts : List Token) → GoesOn b ts next.entry →
        Agrees (λ p. ok (expr_tree p.0.value) p.1.now) result (Reads depth b ts) }
{
    let (open, mut rest) = match next {
        NextDisplay::Closed(display, rest) => return boxed(alloc, display, rest),
        NextDisplay::More(open, rest) => (open, rest),
    };
    let mut open = Box::new(alloc, open)?;
    'expressions: loop {
        let (value, after) = parse_wanted(alloc, open.is_plain(), depth, rest)?;
        match put_in_display(alloc, open, value, after)? {
            NextDisplay::Closed(display, after) => return boxed(alloc, display, after),
            NextDisplay::More(more, after) => {
                open = Box::new(alloc, more)?;
                rest = after;
            }
        }
    }
}

/// The expressions of a call or subscript, up to its closing bracket.
#[cycle(expression)]
fn parse_brackets<'a>(
    alloc: Global,
    depth: u32,
    next: NextLink<'a>,
) -> Result<(Link, &'a [Token]), Stop<'a>>
    ensures { (b : grammar.Body) (ts : List Token) → LinkGoesOn b ts next.entry →
        Agrees (λ p. ok (link_tree p.0) p.1.now) result (Reads depth b ts) }
{
    let (open, mut rest) = match next {
        NextLink::Closed(link, rest) => return Ok((link, rest)),
        NextLink::More(open, rest) => (open, rest),
    };
    let mut open = Box::new(alloc, open)?;
    'expressions: loop {
        let (value, after) = parse_choice(alloc, depth, rest)?;
        match put_in_link(alloc, open, value, after)? {
            NextLink::Closed(link, after) => return Ok((link, after)),
            NextLink::More(more, after) => {
                open = Box::new(alloc, more)?;
                rest = after;
            }
        }
    }
}
