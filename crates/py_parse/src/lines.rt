//! Lines with blocks below them.
ghost use Rattle.std.specs.Prelude.{◌≡◌, ◌≢◌, false, map};
ghost use Rattle.py_tree.specs.Tree.{branch_tree, line_tree, trees, nil, branching};
ghost use Rattle.py_parse.specs.Terminals.{heads, one};
ghost use Rattle.py_parse.specs.Agrees.{Agrees};
ghost use Rattle.py_parse.specs.Reading.{Reads, pick, ok};
ghost use Rattle.py_parse.specs.Grammar as grammar;
ghost use Rattle.py_parse.specs.Agrees as agrees;
ghost use Rattle.py_token.specs.declared.keyword.Keyword.TheVariants as keyword';
ghost use Rattle.py_parse.specs.declared.terminal.Terminal.TheVariants as terminal';

use crate::expression::parse_expr;
use crate::expression_list::parse_exprs;
use crate::names::{parse_names, take_name};
use crate::parameters::parse_parameters;
use crate::site::Site;
use crate::statements::{parse_statements, strip_where};
use crate::stop::Stop;
use crate::terminal::{Terminal, strip};
use py_token::{Keyword, Mark, Token};
use py_tree::{Branch, Line};
use std::alloc::Global;
use std::rc::Rc;

/// A logical line, with the blocks below it.
#[cycle(line)]
pub fn parse_line<'a>(
    alloc: Global,
    site: Site,
    depth: u32,
    tokens: &'a [Token],
) -> Result<(Line, &'a [Token]), Stop<'a>>
    ensures { Agrees (λ p. ok (line_tree p.0) p.1.now) result
        (Reads depth (pick (grammar.line site) tokens.now) tokens.now) }
{
    if let Some((word, rest)) = strip(Terminal::Word(Keyword::If), tokens) {
        if depth == 0 {
            return Err(Stop::TooDeep(tokens));
        }
        return parse_if(alloc, site, depth, word.line, rest);
    }
    if let Some((word, rest)) = strip(Terminal::Word(Keyword::For), tokens) {
        if depth == 0 {
            return Err(Stop::TooDeep(tokens));
        }
        return parse_for(alloc, site, depth, word.line, rest);
    }
    if let Some((word, rest)) = strip(Terminal::Word(Keyword::While), tokens) {
        if depth == 0 {
            return Err(Stop::TooDeep(tokens));
        }
        return parse_while(alloc, site, depth, word.line, rest);
    }
    if let Some((word, rest)) = strip_where(site.outermost, Terminal::Word(Keyword::Def), tokens) {
        if depth == 0 {
            return Err(Stop::TooDeep(tokens));
        }
        return parse_def(alloc, depth, word.line, rest);
    }
    let (statements, rest) = parse_statements(alloc, site, depth, tokens)?;
    Ok((Line::Simple { statements }, rest))
}

/// What stands behind `if`, with the branches behind it.
#[cycle(line)]
fn parse_if<'a>(
    alloc: Global,
    site: Site,
    depth: u32,
    line: u32,
    tokens: &'a [Token],
) -> Result<(Line, &'a [Token]), Stop<'a>>
    requires { depth ≢ 0 }
    ensures { Agrees (λ p. ok (line_tree p.0) p.1.now) result (Reads depth (grammar.conditional line site) tokens.now) }
{
    let mut branches = Vec::new(alloc);
    let mut line = line;
    let mut rest = tokens;
    'branches: loop {
        let (branch, after) = parse_branch(alloc, site, depth, line, rest)?;
        branches.push(branch)?;
        let Some((word, next)) = strip(Terminal::Word(Keyword::Elif), after) else {
            let (otherwise, end) = parse_else(alloc, site, depth, after)?;
            return Ok((
                Line::If {
                    branches,
                    otherwise,
                },
                end,
            ));
        };
        line = word.line;
        rest = next;
    }
}

/// The test behind `if` or `elif`, and its block.
#[cycle(line)]
fn parse_branch<'a>(
    alloc: Global,
    site: Site,
    depth: u32,
    line: u32,
    tokens: &'a [Token],
) -> Result<(Branch, &'a [Token]), Stop<'a>>
    requires { depth ≢ 0 }
    ensures { Agrees (λ p. ok (branch_tree p.0) p.1.now) result
        (Reads depth (agrees.branch_body line site) tokens.now) }
{
    let (test, rest) = parse_expr(alloc, depth, tokens)?;
    let Some((_, rest)) = strip(Terminal::Mark(Mark::Colon), rest) else {
        return Err(Stop::At(rest));
    };
    let (block, rest) = parse_block(alloc, site.below(), depth - 1, rest)?;
    Ok((Branch { line, test, block }, rest))
}

/// The lines below `else`, none where there is no `else`.
#[cycle(line)]
fn parse_else<'a>(
    alloc: Global,
    site: Site,
    depth: u32,
    tokens: &'a [Token],
) -> Result<(Vec<Line>, &'a [Token]), Stop<'a>>
    requires deep { depth ≢ 0 }
    requires no_elif { heads (grammar.keyword keyword'.Elif) tokens.now ≡ false }
    ensures { Agrees (λ p. ok (branching nil (trees (map line_tree p.0.items))) p.1.now) result
        (Reads depth (pick (grammar.branches site) tokens.now) tokens.now) }
{
    let Some((_, rest)) = strip(Terminal::Word(Keyword::Else), tokens) else {
        return Ok((Vec::new(alloc), tokens));
    };
    let Some((_, rest)) = strip(Terminal::Mark(Mark::Colon), rest) else {
        return Err(Stop::At(rest));
    };
    parse_block(alloc, site.below(), depth - 1, rest)
}

/// What stands behind `for`.
#[cycle(line)]
fn parse_for<'a>(
    alloc: Global,
    site: Site,
    depth: u32,
    line: u32,
    tokens: &'a [Token],
) -> Result<(Line, &'a [Token]), Stop<'a>>
    requires { depth ≢ 0 }
    ensures { Agrees (λ p. ok (line_tree p.0) p.1.now) result (Reads depth (grammar.loop_body line site) tokens.now) }
{
    let (names, rest) = parse_names(alloc, tokens)?;
    let Some((_, rest)) = strip(Terminal::Word(Keyword::In), rest) else {
        return Err(Stop::At(rest));
    };
    let (source, rest) = parse_exprs(alloc, depth, rest)?;
    let Some((_, rest)) = strip(Terminal::Mark(Mark::Colon), rest) else {
        return Err(Stop::At(rest));
    };
    let (block, rest) = parse_block(alloc, site.in_loop(), depth - 1, rest)?;
    Ok((
        Line::For {
            line,
            names,
            source,
            block,
        },
        rest,
    ))
}

/// What stands behind `while`.
#[cycle(line)]
fn parse_while<'a>(
    alloc: Global,
    site: Site,
    depth: u32,
    line: u32,
    tokens: &'a [Token],
) -> Result<(Line, &'a [Token]), Stop<'a>>
    requires { depth ≢ 0 }
    ensures { Agrees (λ p. ok (line_tree p.0) p.1.now) result (Reads depth (grammar.while_body line site) tokens.now) }
{
    let (test, rest) = parse_expr(alloc, depth, tokens)?;
    let Some((_, rest)) = strip(Terminal::Mark(Mark::Colon), rest) else {
        return Err(Stop::At(rest));
    };
    let (block, rest) = parse_block(alloc, site.in_loop(), depth - 1, rest)?;
    Ok((Line::While { line, test, block }, rest))
}

/// What stands behind `def`.
#[cycle(line)]
fn parse_def<'a>(
    alloc: Global,
    depth: u32,
    line: u32,
    tokens: &'a [Token],
) -> Result<(Line, &'a [Token]), Stop<'a>>
    requires { depth ≢ 0 }
    ensures { Agrees (λ p. ok (line_tree p.0) p.1.now) result (Reads depth (grammar.function_body line) tokens.now) }
{
    let Some((_, name, rest)) = take_name(tokens) else {
        return Err(Stop::At(tokens));
    };
    let Some((_, rest)) = strip(Terminal::Mark(Mark::OpenParen), rest) else {
        return Err(Stop::At(rest));
    };
    let (parameters, rest) = parse_parameters(alloc, depth - 1, rest)?;
    let Some((_, rest)) = strip(Terminal::Mark(Mark::Colon), rest) else {
        return Err(Stop::At(rest));
    };
    let (block, rest) = parse_block(alloc, Site::in_function(), depth - 1, rest)?;
    let name = name.copy()?;
    let block = Rc::new(alloc, block)?;
    Ok((
        Line::Def {
            line,
            name,
            parameters,
            block,
        },
        rest,
    ))
}

/// The lines of a block: those on the same line, or those that are indented below it.
#[cycle(line)]
fn parse_block<'a>(
    alloc: Global,
    site: Site,
    depth: u32,
    tokens: &'a [Token],
) -> Result<(Vec<Line>, &'a [Token]), Stop<'a>>
    ensures { Agrees (λ p. ok (trees (map line_tree p.0.items)) p.1.now) result
        (Reads depth (pick (grammar.block site) tokens.now) tokens.now) }
{
    let Some((_, rest)) = strip(Terminal::Newline, tokens) else {
        return parse_one_line(alloc, site, depth, tokens);
    };
    let Some((_, rest)) = strip(Terminal::Indent, rest) else {
        return Err(Stop::At(rest));
    };
    parse_indented(alloc, site, depth, rest)
}

/// A block on the line of its colon.
fn parse_one_line<'a>(
    alloc: Global,
    site: Site,
    depth: u32,
    tokens: &'a [Token],
) -> Result<(Vec<Line>, &'a [Token]), Stop<'a>>
    requires { heads (one terminal'.Newline) tokens.now ≡ false }
    ensures { Agrees (λ p. ok (trees (map line_tree p.0.items)) p.1.now) result
        (Reads depth (pick (grammar.block site) tokens.now) tokens.now) }
{
    let (statements, rest) = parse_statements(alloc, site, depth, tokens)?;
    let mut lines = Vec::new(alloc);
    lines.push(Line::Simple { statements })?;
    Ok((lines, rest))
}

/// The lines of a block behind its first indentation.
#[cycle(line)]
fn parse_indented<'a>(
    alloc: Global,
    site: Site,
    depth: u32,
    tokens: &'a [Token],
) -> Result<(Vec<Line>, &'a [Token]), Stop<'a>>
    ensures { Agrees (λ p. ok (trees (map line_tree p.0.items)) p.1.now) result
        (Reads depth (grammar.indented site) tokens.now) }
{
    let mut lines = Vec::new(alloc);
    let mut rest = tokens;
    'lines: loop {
        let (line, after) = parse_line(alloc, site, depth, rest)?;
        lines.push(line)?;
        if let Some((_, end)) = strip(Terminal::Dedent, after) {
            return Ok((lines, end));
        }
        rest = after;
    }
}
