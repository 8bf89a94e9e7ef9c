//! Texts behind one another: plain ones, and f-texts with their fields.
ghost use Rattle.std.specs.Prelude.{◌≡◌, ◌++◌, ◌∷◌, [], IfOk, OnOk, true, false, map};
ghost use Rattle.py_tree.specs.Tree.{piece_tree};
ghost use Rattle.py_parse.specs.Terminals.{text_in};
ghost use Rattle.py_parse.specs.Open.{PiecesContinue, PiecesStay, StepsTo, pieces_from};
ghost use Rattle.py_parse.specs.Reading.{pick};
ghost use Rattle.py_parse.specs.Grammar as grammar;

use crate::stop::Stop;
use crate::terminal::{Terminal, sees, strip};
use py_token::{Mark, Token, TokenKind};
use py_tree::{Expr, Piece};
use scons_base::{Memory, Text};
use std::alloc::Global;

/// How texts behind one another go on: with a field behind these pieces, whose brace is the first of these tokens, or
/// ended, in front of them.
#[derive(Debug, Drop)]
pub enum NextPiece<'a> {
    Field(Vec<Piece>, &'a [Token]),
    Ended(Expr, &'a [Token]),
}

/// What the first of some tokens is to texts behind one another.
#[derive(Drop)]
pub enum PieceStep<'a> {
    /// The characters of a text, or of a part of an f-text.
    Part(&'a Token, &'a [Token]),
    /// The begin of an f-text, or its end.
    Turns(&'a [Token]),
    /// The brace of a field.
    Field,
    /// It belongs to no text.
    Ends,
    /// It may not stand here.
    Unfit,
}

/// What stands behind a text: more of them, or nothing.
pub fn behind_text<'a>(
    alloc: Global,
    token: &Token,
    tokens: &'a [Token],
) -> Result<NextPiece<'a>, Stop<'a>>
    ensures goes { PiecesContinue token.now.line
        (pick (grammar.text_rest token.now.line (text_in token.now.kind)) tokens.now) tokens.now result }
{
    let line = token.line;
    let text = text_of(alloc, &token.kind)?;
    if !sees(Terminal::Piece, tokens) {
        return Ok(NextPiece::Ended(Expr::Text { line, text }, tokens));
    }
    let mut pieces = Vec::new(alloc);
    pieces.push(Piece::Part { line, text })?;
    next_piece(alloc, line, false, pieces, tokens)
}

/// The characters that a text or a part of an f-text holds.
fn text_of(alloc: Global, kind: &TokenKind) -> Result<Text, Memory>
    ensures { IfOk result (λ t. t ≡ text_in kind.now) }
{
    match kind {
        TokenKind::Text(text) => text.copy(),
        TokenKind::FPart(text) => text.copy(),
        _ => Text::of(alloc, ""),
    }
}

/// What stands behind these pieces up to the next field, in an f-text or behind a text.
pub fn next_piece<'a>(
    alloc: Global,
    line: u32,
    inside: bool,
    pieces: Vec<Piece>,
    tokens: &'a [Token],
) -> Result<NextPiece<'a>, Stop<'a>>
    ensures goes { PiecesContinue line (pieces_from inside line (map piece_tree pieces.items)) tokens.now result }
    ensures stays { PiecesStay tokens.now result }
{
    let mut inside = inside;
    let mut pieces = pieces;
    let mut rest = tokens;
    'pieces: loop {
        match piece_step(inside, rest) {
            PieceStep::Part(token, after) => {
                push_part(alloc, &mut pieces, token)?;
                rest = after;
            }
            PieceStep::Turns(after) => {
                inside = !inside;
                rest = after;
            }
            PieceStep::Field => return Ok(NextPiece::Field(pieces, rest)),
            PieceStep::Ends => return Ok(NextPiece::Ended(Expr::Joined { line, pieces }, rest)),
            PieceStep::Unfit => return Err(Stop::At(rest)),
        }
    }
}

fn piece_step<'a>(inside: bool, tokens: &'a [Token]) -> PieceStep<'a>
    ensures { StepsTo inside tokens.now result }
{
    if inside {
        step_inside(tokens)
    } else {
        step_between(tokens)
    }
}

fn step_inside<'a>(tokens: &'a [Token]) -> PieceStep<'a>
    ensures { StepsTo true tokens.now result }
{
    if let Some((token, after)) = strip(Terminal::FPart, tokens) {
        return PieceStep::Part(token, after);
    }
    if sees(Terminal::Mark(Mark::OpenBrace), tokens) {
        return PieceStep::Field;
    }
    match strip(Terminal::FEnd, tokens) {
        Some((_, after)) => PieceStep::Turns(after),
        None => PieceStep::Unfit,
    }
}

fn step_between<'a>(tokens: &'a [Token]) -> PieceStep<'a>
    ensures { StepsTo false tokens.now result }
{
    if let Some((token, after)) = strip(Terminal::Text, tokens) {
        return PieceStep::Part(token, after);
    }
    match strip(Terminal::FStart, tokens) {
        Some((_, after)) => PieceStep::Turns(after),
        None => PieceStep::Ends,
    }
}

fn push_part(alloc: Global, pieces: &mut Vec<Piece>, token: &Token) -> Result<(), Memory>
    ensures { OnOk result (map piece_tree pieces.new.items
        ≡ map piece_tree pieces.old.items ++ grammar.piece_of token.now ∷ []) }
{
    let line = token.line;
    let text = text_of(alloc, &token.kind)?;
    pieces.push(Piece::Part { line, text })?;
    Ok(())
}

/// What stands behind a field, which is the next piece.
pub fn put_field<'a>(
    alloc: Global,
    line: u32,
    pieces: Vec<Piece>,
    field: Piece,
    tokens: &'a [Token],
) -> Result<NextPiece<'a>, Stop<'a>>
    ensures goes { PiecesContinue line (pieces_from true line (map piece_tree pieces.items ++ piece_tree field ∷ []))
        tokens.now result }
    ensures stays { PiecesStay tokens.now result }
{
    let mut pieces = pieces;
    pieces.push(field)?;
    next_piece(alloc, line, true, pieces, tokens)
}
