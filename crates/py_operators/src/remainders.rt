//! The operator `%`.
ghost use Rattle.std.specs.Prelude.{◌≡◌, ◌≢◌, Ok, Some, None, IfOk, IfErr, OnOk, OnErr, map};
ghost use Rattle.py_text.specs.Formatting.{pieces_of};
ghost use Rattle.py_text.specs.Views.{plain_piece};
ghost use Rattle.py_heap.specs.Heap.{text_at};
ghost use Rattle.py_compare.specs.Growing.{grown};
ghost use Rattle.py_operators.specs.Remainders.{integer_shown, piece_onto, pieces_onto, filled, values_in, format_of};
ghost use Rattle.py_operators.specs.Remainders.{rest_of};
ghost use Rattle.py_compare.specs.Outcomes.{FailsAs};

use py_compare::{GrowingText, floor_rem, show_onto};
use py_heap::{Budget, Heap, TextId, Value, ValueFault, text_room};
use py_text::{FormatFault, Piece};
use scons_base::Text;
use scons_base::limits::VALUE_DEPTH_LIMIT;
use std::alloc::Global;

/// `%`
pub(crate) fn rest(
    heap: &mut Heap,
    budget: &mut Budget,
    a: Value,
    b: Value,
) -> Result<Value, ValueFault>
    ensures ok { IfOk result (λ v. rest_of heap.old budget.old a b ≡ Ok (v, heap.new, budget.new)) }
    ensures fault { FailsAs result (rest_of heap.old budget.old a b) }
    ensures err { OnErr result (heap.new ≡ heap.old) }
{
    match a {
        Value::Int(number) => match b {
            Value::Int(other) => Ok(Value::Int(floor_rem(number, other)?)),
            _ => Err(ValueFault::Mismatch(a.kind(), b.kind())),
        },
        Value::Text(format) => format_with(heap, budget, format, b),
        _ => Err(ValueFault::Mismatch(a.kind(), b.kind())),
    }
}

/// A format with a value in it, or with those of a tuple.
fn format_with(
    heap: &mut Heap,
    budget: &mut Budget,
    format: TextId,
    value: Value,
) -> Result<Value, ValueFault>
    ensures ok { IfOk result (λ v.
        format_of heap.old budget.old (text_at heap.old format.0) value ≡ Ok (v, heap.new, budget.new)) }
    ensures fault { FailsAs result (format_of heap.old budget.old (text_at heap.old format.0) value) }
    ensures err { OnErr result (heap.new ≡ heap.old) }
{
    let made = filled_with(heap, budget, format, value)?;
    let value = heap.add_text(made)?;
    Ok(value)
}

fn filled_with(
    heap: &Heap,
    budget: &mut Budget,
    format: TextId,
    value: Value,
) -> Result<Text, ValueFault>
    ensures ok { IfOk result (λ made.
        filled heap.now budget.old (text_at heap.now format.0) (values_in heap.now value) ≡ Ok (made, budget.new)) }
    ensures fault { FailsAs result (filled heap.now budget.old (text_at heap.now format.0) (values_in heap.now value)) }
{
    match value {
        Value::Tuple(values) => filled(heap, budget, heap.text_at(format), heap.tuple_at(values)),
        _ => filled(heap, budget, heap.text_at(format), &[value]),
    }
}

#[tactic(auto, using(crate::proofs::Fillings::fillings))]
fn filled(
    heap: &Heap,
    budget: &mut Budget,
    format: &str,
    values: &[Value],
) -> Result<Text, ValueFault>
    ensures ok { IfOk result (λ made. filled heap.now budget.old format.now values.now ≡ Ok (made, budget.new)) }
    ensures fault { FailsAs result (filled heap.now budget.old format.now values.now) }
{
    let pieces = pieces_of(heap.allocator(), format)?;
    let mut text = GrowingText::new(heap.allocator());
    push_pieces(heap, budget, &mut text, pieces.as_slice(), values)?;
    text_room(budget, text.size())?;
    Ok(text.into_kept())
}

fn pieces_of(alloc: Global, format: &str) -> Result<Vec<Piece<'_>>, ValueFault>
    ensures ok { IfOk result (λ pieces. pieces_of format.now ≡ Some (map plain_piece pieces.items)) }
    ensures fault { IfErr result (λ e.
        e ≢ ValueFault.Memory → (e ≡ ValueFault.BadText) × (pieces_of format.now ≡ None)) }
{
    match py_text::format_pieces(alloc, format) {
        Ok(pieces) => Ok(pieces),
        Err(FormatFault::BadText) => Err(ValueFault::BadText),
        Err(FormatFault::Memory) => Err(ValueFault::Memory),
    }
}

/// Puts the pieces of a format behind a text, with the values in their places.
fn push_pieces(
    heap: &Heap,
    budget: &mut Budget,
    text: &mut GrowingText,
    pieces: &[Piece<'_>],
    values: &[Value],
) -> Result<(), ValueFault>
    ensures ok { OnOk result (pieces_onto grown heap.now text.old budget.old (map plain_piece pieces.now) values.now
        ≡ Ok (text.new, budget.new)) }
    ensures fault { FailsAs result (pieces_onto grown heap.now text.old budget.old (map plain_piece pieces.now)
        values.now) }
{
    let mut left = values;
    'pieces: for piece in pieces {
        left = push_piece(heap, budget, text, *piece, left)?;
    }
    if left.is_empty() {
        Ok(())
    } else {
        Err(ValueFault::BadText)
    }
}

/// Puts one piece behind a text, and gives the values that are left.
fn push_piece<'a>(
    heap: &Heap,
    budget: &mut Budget,
    text: &mut GrowingText,
    piece: Piece<'_>,
    values: &'a [Value],
) -> Result<&'a [Value], ValueFault>
    ensures ok { IfOk result (λ left. piece_onto grown heap.now text.old budget.old (plain_piece piece.entry) values.now
        ≡ Ok (left.now, text.new, budget.new)) }
    ensures fault { FailsAs result (piece_onto grown heap.now text.old budget.old (plain_piece piece.entry)
        values.now) }
{
    match piece {
        Piece::Literal(literal) => {
            text.put(literal)?;
            Ok(values)
        }
        Piece::Percent => {
            text.put("%")?;
            Ok(values)
        }
        Piece::Any => match values {
            [value, left @ ..] => {
                show_onto(heap, budget, VALUE_DEPTH_LIMIT, false, text, *value)?;
                Ok(left)
            }
            _ => Err(ValueFault::BadText),
        },
        Piece::Integer => match values {
            [value, left @ ..] => {
                push_integer(heap, budget, text, *value)?;
                Ok(left)
            }
            _ => Err(ValueFault::BadText),
        },
    }
}

/// Puts an integer behind a text.
fn push_integer(
    heap: &Heap,
    budget: &mut Budget,
    text: &mut GrowingText,
    value: Value,
) -> Result<(), ValueFault>
    ensures ok { OnOk result (integer_shown grown heap.now text.old budget.old value ≡ Ok (text.new, budget.new)) }
    ensures fault { FailsAs result (integer_shown grown heap.now text.old budget.old value) }
{
    match value {
        Value::Int(_) => show_onto(heap, budget, VALUE_DEPTH_LIMIT, false, text, value),
        _ => Err(ValueFault::Mismatch(value.kind(), value.kind())),
    }
}
