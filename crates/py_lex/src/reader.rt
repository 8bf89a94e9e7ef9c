//! A script that is read up to a place.
ghost use Rattle.std.specs.Prelude.{◌≡◌, ◌<◌, ◌+◌, ◌-◌, ◌^◌, ◌++◌, ◌∷◌, [], length, MatchBool, MatchOption, IfNone, OnOk, IfOk};
ghost use Rattle.py_lex.specs.Steps.{Steps, TakesToken, token_at, dedents, added, with_text, text_behind, goes, stops, start, line_end, begin_line, finish};
ghost use Rattle.py_lex.specs.Steps.{RestMove, TakesPart, part_tokens, end_of_part, mode_behind, field_move, field_token_move};
ghost use Rattle.py_lex.specs.Tokens.{field_read};
ghost use Rattle.std.specs.Str.{IsUtf8};
ghost use Rattle.py_lex.specs.Views.{state_of, step_of};
ghost use Rattle.py_lex.specs.Sizes.{Fits, FitsNext, FitsStep};
ghost use Rattle.py_lex.specs.Utf8.{IsClean};

use crate::bytes::{cut_blanks, is_blank};
use crate::fault::LexKind;
use crate::field::field_token;
use crate::gap::{Gap, next_gap};
use crate::levels::{Level, Levels};
use crate::part::{Part, next_part};
use crate::piece::Style;
use crate::token::{Turn, next_token};
use py_token::{Mark, Token, TokenKind};
use scons_base::{Memory, Text};
use std::alloc::Global;

#[derive(Clone, Copy)]
pub enum Place {
    /// In front of the first token of a line.
    LineStart,
    /// Behind a token of a line, inside this many brackets.
    Inside(u32),
}

/// An f-text that is open: how it is written, and the line on which it begins.
#[derive(Clone, Copy)]
pub struct OpenText {
    pub style: Style,
    pub line: u32,
}

/// What is read.
#[derive(Clone, Copy)]
pub enum Mode {
    /// A line.
    Line,
    /// An f-text, outside of its fields.
    Part(OpenText),
    /// A field of an f-text, inside this many brackets of the field.
    Field(OpenText, u32),
}

/// A script that is read up to a place.
#[derive(Drop)]
pub struct Reader<'a> {
    pub mode: Mode,
    pub place: Place,
    /// The blanks in front of the line.
    pub indentation: &'a [u8],
    pub levels: Levels,
    pub line: u32,
    pub rest: &'a [u8],
    pub tokens: Vec<Token>,
}

/// Where and why a line can't be read on.
#[derive(Clone, Copy)]
pub struct Stop {
    pub line: u32,
    pub kind: LexKind,
}

/// What the next step gives.
#[derive(Drop)]
pub enum Step<'a> {
    Goes(Reader<'a>),
    Ends(Vec<Token>),
    Stops { line: u32, kind: LexKind },
}

pub fn start(alloc: Global, script: &[u8]) -> Result<Reader<'_>, Memory>
    ensures state { IfOk result (λ r. state_of r ≡ start script.now) }
    ensures fits { length script.now < 2 ^ 31 - 1 → IfOk result (λ r. Fits (state_of r)) }
{
    let (indentation, rest) = cut_blanks(script);
    Ok(Reader {
        mode: Mode::Line,
        place: Place::LineStart,
        indentation,
        levels: Levels::new(alloc)?,
        line: 1,
        rest,
        tokens: Vec::new(alloc),
    })
}

/// Takes a part of an f-text or a token of its fields, or comes to the end.
pub fn next_step(alloc: Global, reader: Reader<'_>) -> Result<Step<'_>, Memory>
    requires fits { Fits (state_of reader) }
    requires clean { IsClean reader.rest.now }
    requires rare { reader.mode ≡ Mode.Line → reader.rest.now ≡ [] }
    ensures steps { IfOk result (λ s. Steps (state_of reader.entry) (step_of s)) }
    ensures fits { IfOk result (λ s. FitsStep (state_of reader.entry) (step_of s)) }
{
    match reader.mode {
        Mode::Line => finish(reader),
        Mode::Part(text) => take_part(alloc, text, reader),
        Mode::Field(text, inner) => step_in_field(alloc, text, inner, reader),
    }
}

/// Whether a line is read, and something of it is left.
pub fn is_in_line(reader: &Reader<'_>) -> bool
    ensures { MatchBool result
        ((reader.now.mode ≡ Mode.Line) × (0 < length reader.now.rest.now))
        (reader.now.mode ≡ Mode.Line → reader.now.rest.now ≡ []) }
{
    match reader.mode {
        Mode::Line => !reader.rest.is_empty(),
        Mode::Part(_) | Mode::Field(_, _) => false,
    }
}

/// Takes a gap or a token of a line, or says where and why none can be taken. A script is mostly lines, so that they are
/// read in place.
pub fn step_in_line(alloc: Global, reader: &mut Reader<'_>) -> Result<Option<Stop>, Memory>
    requires fits { Fits (state_of reader.old) }
    requires clean { IsClean reader.old.rest.now }
    requires some { 0 < length reader.old.rest.now }
    ensures steps { IfOk result (λ s. MatchOption s
        (RestMove reader.old.rest.now (state_of reader.old) (goes (state_of reader.new)))
        (λ stop. RestMove reader.old.rest.now (state_of reader.old) (stops stop.line stop.kind))) }
    ensures fits { IfOk result (λ s. IfNone s (FitsNext (state_of reader.old) (state_of reader.new))) }
{
    let (gap, after) = next_gap(reader.rest);
    match gap {
        Gap::Blanks | Gap::Comment => {
            reader.rest = after;
            Ok(None)
        }
        Gap::Joined => {
            reader.rest = after;
            reader.line += 1;
            Ok(None)
        }
        Gap::LineEnd => {
            end_line(reader, after)?;
            Ok(None)
        }
        Gap::Nothing => match reader.place {
            Place::LineStart => begin_line(alloc, reader),
            Place::Inside(depth) => take_token(alloc, depth, reader),
        },
    }
}

/// The line ends here, unless a bracket is open.
fn end_line<'a>(reader: &mut Reader<'a>, after: &'a [u8]) -> Result<(), Memory>
    requires fits { Fits (state_of reader.old) }
    requires shorter { length after.now < length reader.old.rest.now }
    ensures steps { OnOk result (state_of reader.new ≡ line_end reader.old.place (state_of reader.old) after.now) }
    ensures fits { OnOk result (FitsNext (state_of reader.old) (state_of reader.new)) }
{
    let line = reader.line;
    reader.line += 1;
    match reader.place {
        Place::Inside(0) => push_token(&mut reader.tokens, line, TokenKind::Newline)?,
        Place::Inside(_) => {
            reader.rest = after;
            return Ok(());
        }
        Place::LineStart => {}
    }
    let (indentation, rest) = cut_blanks(after);
    reader.place = Place::LineStart;
    reader.indentation = indentation;
    reader.rest = rest;
    Ok(())
}

/// Blocks open and close in front of the first token of a line.
fn begin_line(alloc: Global, reader: &mut Reader<'_>) -> Result<Option<Stop>, Memory>
    requires fits { Fits (state_of reader.old) }
    requires start { reader.old.place ≡ Place.LineStart }
    ensures steps { IfOk result (λ s. MatchOption s
        (goes (state_of reader.new) ≡ begin_line (state_of reader.old))
        (λ stop. stops stop.line stop.kind ≡ begin_line (state_of reader.old))) }
    ensures fits { IfOk result (λ s. IfNone s (FitsNext (state_of reader.old) (state_of reader.new))) }
{
    let line = reader.line;
    match reader.levels.level(reader.indentation) {
        Level::Closes(count) => {
            reader.levels.close(count);
            push_dedents(&mut reader.tokens, line, count)?;
        }
        Level::Opens => {
            let indentation = reader.indentation;
            reader.levels.open(alloc, indentation)?;
            push_token(&mut reader.tokens, line, TokenKind::Indent)?;
        }
        Level::Refused(kind) => return Ok(Some(Stop { line, kind })),
    }
    reader.place = Place::Inside(0);
    Ok(None)
}

fn take_token(alloc: Global, depth: u32, reader: &mut Reader<'_>) -> Result<Option<Stop>, Memory>
    requires fits { Fits (state_of reader.old) }
    requires inside { reader.old.place ≡ Place.Inside depth }
    requires some { 0 < length reader.old.rest.now }
    requires clean { IsClean reader.old.rest.now }
    ensures steps { IfOk result (λ s. MatchOption s
        (TakesToken depth (state_of reader.old) (goes (state_of reader.new)))
        (λ stop. TakesToken depth (state_of reader.old) (stops stop.line stop.kind))) }
    ensures fits { IfOk result (λ s. IfNone s (FitsNext (state_of reader.old) (state_of reader.new))) }
{
    let line = reader.line;
    match next_token(alloc, depth, reader.rest)? {
        Turn::Takes {
            kind,
            lines,
            depth,
            rest,
        } => {
            add_token(&mut reader.tokens, line, kind)?;
            reader.place = Place::Inside(depth);
            reader.line = line + lines;
            reader.rest = rest;
            Ok(None)
        }
        Turn::Begins { style, rest } => {
            push_token(&mut reader.tokens, line, TokenKind::FStart)?;
            reader.mode = Mode::Part(OpenText { style, line });
            reader.rest = rest;
            Ok(None)
        }
        Turn::Refuses { kind, lines } => Ok(Some(Stop {
            line: reader.line + lines,
            kind,
        })),
    }
}

/// A part of an f-text, with the brace of a field or the quotes behind it.
fn take_part(alloc: Global, text: OpenText, reader: Reader<'_>) -> Result<Step<'_>, Memory>
    requires fits { Fits (state_of reader) }
    requires clean { IsClean reader.rest.now }
    requires part { reader.mode ≡ Mode.Part text }
    ensures steps { IfOk result (λ s. TakesPart text (state_of reader.entry) (step_of s)) }
    ensures fits { IfOk result (λ s. FitsStep (state_of reader.entry) (step_of s)) }
{
    match next_part(alloc, text.style, reader.rest)? {
        Part::Ends {
            field,
            value,
            lines,
            rest,
        } => {
            let mut reader = reader;
            let line = reader.line;
            push_part(&mut reader.tokens, line, value)?;
            let line = line + lines;
            push_token(&mut reader.tokens, line, end_of_part(field))?;
            reader.mode = mode_behind(text, field);
            reader.line = line;
            reader.rest = rest;
            Ok(Step::Goes(reader))
        }
        Part::Unclosed => Ok(Step::Stops {
            line: text.line,
            kind: LexKind::Unclosed,
        }),
        Part::Refused { kind, lines } => {
            let line = reader.line + lines;
            Ok(Step::Stops { line, kind })
        }
    }
}

fn end_of_part(field: bool) -> TokenKind
    ensures { result ≡ end_of_part field }
{
    if field {
        TokenKind::Mark(Mark::OpenBrace)
    } else {
        TokenKind::FEnd
    }
}

fn mode_behind(text: OpenText, field: bool) -> Mode
    ensures { result ≡ mode_behind text field }
{
    if field {
        Mode::Field(text, 0)
    } else {
        Mode::Line
    }
}

/// The characters of a part, if there are any.
fn push_part(tokens: &mut Vec<Token>, line: u32, value: Vec<u8>) -> Result<(), Memory>
    requires utf8 { IsUtf8 value.items }
    ensures { OnOk result (tokens.new.items ≡ tokens.old.items ++ part_tokens line value.items) }
{
    if value.is_empty() {
        return Ok(());
    }
    match String::from_utf8(value) {
        Ok(text) => push_token(tokens, line, TokenKind::FPart(Text::new(text))),
        Err(_) => unreachable!(),
    }
}

/// A blank or a token of a field, or its end.
fn step_in_field<'a>(
    alloc: Global,
    text: OpenText,
    inner: u32,
    reader: Reader<'a>,
) -> Result<Step<'a>, Memory>
    requires fits { Fits (state_of reader) }
    requires clean { IsClean reader.rest.now }
    requires field { reader.mode ≡ Mode.Field text inner }
    ensures steps { IfOk result (λ s.
        step_of s ≡ field_move text inner (state_of reader.entry) reader.entry.rest.now) }
    ensures fits { IfOk result (λ s. FitsStep (state_of reader.entry) (step_of s)) }
{
    let mut reader = reader;
    let line = reader.line;
    let Some((byte, after)) = reader.rest.split_first() else {
        return Ok(Step::Stops {
            line: text.line,
            kind: LexKind::Unclosed,
        });
    };
    if is_blank(*byte) {
        reader.rest = cut_blanks(after).1;
        return Ok(Step::Goes(reader));
    }
    if *byte == b'}' && inner == 0 {
        push_token(&mut reader.tokens, line, TokenKind::Mark(Mark::CloseBrace))?;
        reader.mode = Mode::Part(text);
        reader.rest = after;
        return Ok(Step::Goes(reader));
    }
    take_in_field(alloc, text, inner, reader)
}

fn take_in_field<'a>(
    alloc: Global,
    text: OpenText,
    inner: u32,
    reader: Reader<'a>,
) -> Result<Step<'a>, Memory>
    requires fits { Fits (state_of reader) }
    requires some { 0 < length reader.rest.now }
    requires clean { IsClean reader.rest.now }
    requires field { reader.mode ≡ Mode.Field text inner }
    ensures steps { IfOk result (λ s.
        step_of s ≡ field_token_move text (state_of reader.entry) (field_read inner reader.entry.rest.now)) }
    ensures fits { IfOk result (λ s. FitsStep (state_of reader.entry) (step_of s)) }
{
    let mut reader = reader;
    let line = reader.line;
    match field_token(alloc, inner, reader.rest)? {
        Turn::Takes {
            kind,
            lines,
            depth,
            rest,
        } => {
            push_token(&mut reader.tokens, line, kind)?;
            reader.mode = Mode::Field(text, depth);
            reader.line = line + lines;
            reader.rest = rest;
            Ok(Step::Goes(reader))
        }
        Turn::Begins { .. } => Ok(Step::Stops {
            line,
            kind: LexKind::BadField,
        }),
        Turn::Refuses { kind, lines } => Ok(Step::Stops {
            line: line + lines,
            kind,
        }),
    }
}

/// The last line ends, and all blocks close.
fn finish(reader: Reader<'_>) -> Result<Step<'_>, Memory>
    ensures { IfOk result (λ s. step_of s ≡ finish reader.entry.place (state_of reader.entry)) }
{
    let line = reader.line;
    let count = reader.levels.depth();
    let mut tokens = reader.tokens;
    match reader.place {
        Place::LineStart => {}
        Place::Inside(0) => push_token(&mut tokens, line, TokenKind::Newline)?,
        Place::Inside(_) => {
            let kind = LexKind::Unclosed;
            return Ok(Step::Stops { line, kind });
        }
    }
    push_dedents(&mut tokens, line, count)?;
    Ok(Step::Ends(tokens))
}

fn push_token(tokens: &mut Vec<Token>, line: u32, kind: TokenKind) -> Result<(), Memory>
    ensures { OnOk result (tokens.new.items ≡ tokens.old.items ++ token_at line kind ∷ []) }
{
    tokens.push(Token { line, kind })?;
    Ok(())
}

fn push_dedents(tokens: &mut Vec<Token>, line: u32, count: usize) -> Result<(), Memory>
    ensures { OnOk result (tokens.new.items ≡ tokens.old.items ++ dedents line count) }
{
    for i in 0..count {
        push_token(tokens, line, TokenKind::Dedent)?;
    }
    Ok(())
}

/// A text directly behind a text is joined to it.
fn add_token(tokens: &mut Vec<Token>, line: u32, kind: TokenKind) -> Result<(), Memory>
    ensures { OnOk result (tokens.new.items ≡ added kind tokens.old.items line) }
{
    match kind {
        TokenKind::Text(text) => push_text(tokens, line, text),
        other => push_token(tokens, line, other),
    }
}

fn push_text(tokens: &mut Vec<Token>, line: u32, text: Text) -> Result<(), Memory>
    ensures { OnOk result (tokens.new.items ≡ with_text tokens.old.items line text) }
{
    match tokens.pop() {
        None => push_token(tokens, line, TokenKind::Text(text)),
        Some(last) => push_behind(tokens, last, line, text),
    }
}

/// The last token, and the text behind it.
fn push_behind(tokens: &mut Vec<Token>, last: Token, line: u32, text: Text) -> Result<(), Memory>
    ensures { OnOk result (tokens.new.items ≡ tokens.old.items ++ text_behind last.kind last line text) }
{
    let Token { line: first, kind } = last;
    match kind {
        TokenKind::Text(front) => {
            let whole = joined(front, text)?;
            push_token(tokens, first, TokenKind::Text(whole))
        }
        other => {
            push_token(tokens, first, other)?;
            push_token(tokens, line, TokenKind::Text(text))
        }
    }
}

fn joined(front: Text, back: Text) -> Result<Text, Memory>
    ensures { IfOk result (λ t. t ≡ front ++ back) }
{
    let mut text = front.into_string();
    text.push_str(back.as_str())?;
    Ok(Text::new(text))
}
