//! The parameters of a function.
ghost use Rattle.std.specs.Prelude.{map};
ghost use Rattle.py_tree.specs.Tree.{parameter_tree, trees};
ghost use Rattle.py_parse.specs.Agrees.{Agrees, defaults_from};
ghost use Rattle.py_parse.specs.Reading.{Reads, pick, ok};
ghost use Rattle.py_parse.specs.Grammar as grammar;
ghost use Rattle.py_parse.specs.Agrees as agrees;

use crate::expression::parse_expr;
use crate::seen::Seen;
use crate::stop::Stop;
use crate::terminal::{Terminal, strip};
use py_token::{Mark, Token};
use py_tree::Parameter;
use scons_base::Text;
use std::alloc::Global;

/// The parameters with a default behind those found, from the one on whose name and `=` were read.
fn parse_defaults<'a>(
    alloc: Global,
    depth: u32,
    mut seen: Seen,
    mut found: Vec<Parameter>,
    mut line: u32,
    mut name: Text,
    tokens: &'a [Token],
) -> Result<(Vec<Parameter>, &'a [Token]), Stop<'a>>
    ensures { Agrees (λ p. ok (trees (map parameter_tree p.0.items)) p.1.now) result
        (Reads depth (defaults_from seen (map parameter_tree found.items) line name) tokens.now) }
{
    let mut rest = tokens;
    'defaults: loop {
        let (value, after) = parse_expr(alloc, depth, rest)?;
        seen.insert(name.copy()?)?;
        let default = Some(value);
        found.push(Parameter {
            line,
            name,
            default,
        })?;
        let Some((_, next)) = strip(Terminal::Mark(Mark::Comma), after) else {
            return Ok((found, after));
        };
        let Some((next_line, next_name, behind)) = seen.take_fresh(next) else {
            return Ok((found, next));
        };
        let Some((_, behind)) = strip(Terminal::Mark(Mark::Assign), behind) else {
            return Err(Stop::At(behind));
        };
        line = next_line;
        name = next_name.copy()?;
        rest = behind;
    }
}

/// The parameters up to the closing parenthesis.
fn parse_parameter_list<'a>(
    alloc: Global,
    depth: u32,
    tokens: &'a [Token],
) -> Result<(Vec<Parameter>, &'a [Token]), Stop<'a>>
    ensures { Agrees (λ p. ok (trees (map parameter_tree p.0.items)) p.1.now) result
        (Reads depth (pick agrees.no_params tokens.now) tokens.now) }
{
    let mut seen = Seen::new(alloc);
    let mut found = Vec::new(alloc);
    let mut rest = tokens;
    'parameters: loop {
        let Some((line, name, after)) = seen.take_fresh(rest) else {
            return Ok((found, rest));
        };
        let name = name.copy()?;
        if let Some((_, behind)) = strip(Terminal::Mark(Mark::Assign), after) {
            return parse_defaults(alloc, depth, seen, found, line, name, behind);
        }
        seen.insert(name.copy()?)?;
        let default = None;
        found.push(Parameter {
            line,
            name,
            default,
        })?;
        let Some((_, behind)) = strip(Terminal::Mark(Mark::Comma), after) else {
            return Ok((found, after));
        };
        rest = behind;
    }
}

/// The parameters of a function and the parenthesis behind them.
pub fn parse_parameters<'a>(
    alloc: Global,
    depth: u32,
    tokens: &'a [Token],
) -> Result<(Vec<Parameter>, &'a [Token]), Stop<'a>>
    ensures { Agrees (λ p. ok (trees (map parameter_tree p.0.items)) p.1.now) result
        (Reads depth (pick grammar.parameters tokens.now) tokens.now) }
{
    let (parameters, rest) = parse_parameter_list(alloc, depth, tokens)?;
    let Some((_, rest)) = strip(Terminal::Mark(Mark::CloseParen), rest) else {
        return Err(Stop::At(rest));
    };
    Ok((parameters, rest))
}
