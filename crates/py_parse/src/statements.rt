//! Statements without a block, and the lines that are made of them.
ghost use Rattle.std.specs.Prelude.{◌≡◌, ◌&&◌, ℕ, false, map, MatchOption};
ghost use Rattle.py_tree.specs.Tree.{simple_tree, trees};
ghost use Rattle.py_parse.specs.Terminals.{one, heads};
ghost use Rattle.py_parse.specs.Agrees.{Agrees};
ghost use Rattle.py_parse.specs.Permits.{Permitted};
ghost use Rattle.py_parse.specs.Reading.{Reads, pick, ok};
ghost use Rattle.py_parse.specs.Grammar as grammar;

use crate::assignment::parse_assignment;
use crate::expression_list::parse_exprs;
use crate::site::Site;
use crate::stop::Stop;
use crate::terminal::{Terminal, sees, strip};
use py_token::{Keyword, Mark, Token};
use py_tree::Simple;
use std::alloc::Global;

/// The first token and those behind it, where it is what is wanted and may stand here.
pub fn strip_where<'a>(
    allowed: bool,
    terminal: Terminal,
    tokens: &'a [Token],
) -> Option<(&'a Token, &'a [Token])>
    ensures { MatchOption result (allowed && heads (one terminal) tokens.now ≡ false)
        (λ p. Permitted allowed (one terminal) tokens.now p.0.now p.1.now) }
{
    if allowed {
        strip(terminal, tokens)
    } else {
        None
    }
}

/// What stands behind `from`: `SCons.Script import *`.
fn parse_import<'a>(line: u32, tokens: &'a [Token]) -> Result<(Simple, &'a [Token]), Stop<'a>>
    ensures { Agrees (λ p. ok (simple_tree p.0) p.1.now) result
        (λ o. (d : ℕ) → Reads d (grammar.import_body line) tokens.now o) }
{
    let Some((_, rest)) = strip(Terminal::Scons, tokens) else {
        return Err(Stop::At(tokens));
    };
    let Some((_, rest)) = strip(Terminal::Mark(Mark::Dot), rest) else {
        return Err(Stop::At(rest));
    };
    let Some((_, rest)) = strip(Terminal::Script, rest) else {
        return Err(Stop::At(rest));
    };
    let Some((_, rest)) = strip(Terminal::Word(Keyword::Import), rest) else {
        return Err(Stop::At(rest));
    };
    let Some((_, rest)) = strip(Terminal::Mark(Mark::Star), rest) else {
        return Err(Stop::At(rest));
    };
    Ok((Simple::ImportScons { line }, rest))
}

/// What stands behind `return`.
fn parse_return<'a>(
    alloc: Global,
    line: u32,
    depth: u32,
    tokens: &'a [Token],
) -> Result<(Simple, &'a [Token]), Stop<'a>>
    ensures { Agrees (λ p. ok (simple_tree p.0) p.1.now) result (Reads depth (grammar.return_body line) tokens.now) }
{
    if !sees(Terminal::Expression, tokens) {
        return Ok((Simple::Return { line, value: None }, tokens));
    }
    let (value, rest) = parse_exprs(alloc, depth, tokens)?;
    let value = Some(value);
    Ok((Simple::Return { line, value }, rest))
}

/// A statement without a block.
pub fn parse_small<'a>(
    alloc: Global,
    site: Site,
    depth: u32,
    tokens: &'a [Token],
) -> Result<(Simple, &'a [Token]), Stop<'a>>
    ensures { Agrees (λ p. ok (simple_tree p.0) p.1.now) result
        (Reads depth (pick (grammar.small site) tokens.now) tokens.now) }
{
    if let Some((word, rest)) = strip(Terminal::Word(Keyword::Pass), tokens) {
        return Ok((Simple::Pass { line: word.line }, rest));
    }
    if let Some((word, rest)) = strip(Terminal::Word(Keyword::From), tokens) {
        return parse_import(word.line, rest);
    }
    if let Some((word, rest)) = strip_where(site.in_for, Terminal::Word(Keyword::Break), tokens) {
        return Ok((Simple::Break { line: word.line }, rest));
    }
    if let Some((word, rest)) = strip_where(
        site.in_for,
        Terminal::Word(Keyword::Continue),
        tokens,
    ) {
        return Ok((Simple::Continue { line: word.line }, rest));
    }
    if let Some((word, rest)) = strip_where(site.in_def, Terminal::Word(Keyword::Return), tokens) {
        return parse_return(alloc, word.line, depth, rest);
    }
    parse_assignment(alloc, depth, tokens)
}

/// Statements with `;` between them, to the end of the line.
pub fn parse_statements<'a>(
    alloc: Global,
    site: Site,
    depth: u32,
    tokens: &'a [Token],
) -> Result<(Vec<Simple>, &'a [Token]), Stop<'a>>
    ensures { Agrees (λ p. ok (trees (map simple_tree p.0.items)) p.1.now) result
        (Reads depth (pick (grammar.statements site) tokens.now) tokens.now) }
{
    let mut found = Vec::new(alloc);
    let mut rest = tokens;
    'statements: loop {
        let (statement, after) = parse_small(alloc, site, depth, rest)?;
        found.push(statement)?;
        if let Some((_, end)) = strip(Terminal::Newline, after) {
            return Ok((found, end));
        }
        let Some((_, next)) = strip(Terminal::Mark(Mark::Semicolon), after) else {
            return Err(Stop::At(after));
        };
        if let Some((_, end)) = strip(Terminal::Newline, next) {
            return Ok((found, end));
        }
        rest = next;
    }
}
