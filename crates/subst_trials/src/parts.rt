//! The parts of texts, and the forms of pieces.
ghost use Rattle.std.specs.Prelude.{◌<◌, ◌≤◌, ◌^◌, length, IfOk};
ghost use Rattle.scons_base.specs.declared.limits.TheConstants.{SUBST_LIMIT};

use env_pieces::{FormFault, Mark, Mode, Piece, PieceFault, Pieces, form_of};
use env_text::{Index, Part, Selection, Step, next_part};
use scons_base::Memory;
use std::alloc::Global;
use trial_text::Told;

/// Tells the parts of a text one behind another, and a `!` with the place where it can't be read.
pub(crate) fn put_parts(told: &mut Told, text: &str) {
    told.put("|");
    let mut at = 0;
    for _ in 0..u32::MAX {
        if !text.is_char_boundary(at) {
            return told.refuse();
        }
        match next_part(text, at) {
            Step::End => return,
            Step::BadBrace => {
                told.put("!");
                return told.show(at);
            }
            Step::Part(part, next) => {
                put_part(told, part);
                at = next;
            }
        }
    }
}

fn put_part(told: &mut Told, part: Part<'_>) {
    match part {
        Part::Text(text) => told.put_all(&["'", text, "'"]),
        Part::Begin => told.put("("),
        Part::End => told.put(")"),
        Part::Variable {
            name,
            selection,
            attribute,
        } => {
            told.put_all(&["<", name]);
            put_selection(told, selection);
            put_attribute(told, attribute);
        }
        Part::Concat {
            prefix,
            list,
            suffix,
            directories,
        } => {
            let directories = if directories { " true>" } else { " false>" };
            told.put_all(&["<", prefix, " ", list, " ", suffix, directories]);
        }
    }
}

fn put_selection(told: &mut Told, selection: Selection) {
    match selection {
        Selection::Whole => {}
        Selection::Item(index) => {
            told.put("[");
            put_index(told, Some(index));
            told.put("]");
        }
        Selection::Slice(from, to) => {
            told.put("[");
            put_index(told, from);
            told.put(":");
            put_index(told, to);
            told.put("]");
        }
    }
}

fn put_index(told: &mut Told, index: Option<Index>) {
    match index {
        Some(Index::FromFront(number)) => told.show(number),
        Some(Index::FromBack(number)) => {
            told.put("-");
            told.show(number);
        }
        None => {}
    }
}

fn put_attribute(told: &mut Told, attribute: Option<&str>) {
    if let Some(attribute) = attribute {
        told.put_all(&[".", attribute]);
    }
    told.put(">");
}

/// The three forms of pieces, which are written as a text with `(` and `)` for marks, or a `!` with the number of the piece at
/// fault.
pub(crate) fn put_forms(alloc: Global, told: &mut Told, text: &str) {
    match pieces_of(alloc, text) {
        Ok(pieces) => {
            for mode in [Mode::Text, Mode::Raw, Mode::Signed] {
                put_form(alloc, told, pieces.as_slice(), mode);
            }
        }
        Err(_) => told.refuse(),
    }
}

fn put_form(alloc: Global, told: &mut Told, pieces: &[Piece], mode: Mode)
    requires { length pieces.now < 2 ^ 32 }
{
    match form_of(alloc, pieces, mode) {
        Ok(form) => told.put_all(&["|", form.as_str()]),
        Err(FormFault::Marks(piece)) => {
            told.put("|!");
            told.show(piece);
        }
        Err(FormFault::Memory) => told.refuse(),
    }
}

fn pieces_of(alloc: Global, text: &str) -> Result<Vec<Piece>, Memory>
    ensures { IfOk result (λ v. length v.items ≤ SUBST_LIMIT) }
{
    let mut pieces = Pieces::new(alloc);
    for character in text.chars() {
        if put_character(&mut pieces, character).is_err() {
            return Err(Memory);
        }
    }
    pieces.finish()
}

fn put_character(pieces: &mut Pieces, character: char) -> Result<(), PieceFault> {
    match character {
        '(' => pieces.put_mark(Mark::Begin),
        ')' => pieces.put_mark(Mark::End),
        other => pieces.put_text(other.encode_utf8(&mut [0u8; 4])),
    }
}

/// How marks and texts are refused where three bytes are left: a mark counts as two.
pub(crate) fn put_full(alloc: Global, told: &mut Told) {
    let mut pieces = Pieces::new(alloc);
    match "a".repeat(alloc, 1_048_573) {
        Ok(long) => put_long(told, &mut pieces, long.as_str()),
        Err(_) => told.refuse(),
    }
}

fn put_long(told: &mut Told, pieces: &mut Pieces, long: &str) {
    if pieces.put_text(long).is_err() {
        return told.refuse();
    }
    put_taken(told, pieces.put_mark(Mark::Begin));
    put_taken(told, pieces.put_mark(Mark::End));
    let mut inner = pieces.inner();
    put_taken(told, inner.put_text("ab"));
    put_taken(told, inner.put_text("a"));
    put_taken(told, inner.put_text("b"));
}

fn put_taken(told: &mut Told, answer: Result<(), PieceFault>) {
    match answer {
        Ok(()) => told.put("|taken"),
        Err(PieceFault::TooLong) => told.put("|too long"),
        Err(PieceFault::Memory) => told.refuse(),
    }
}
