//! Texts behind one another: f-texts and their fields.
ghost use Rattle.std.specs.Prelude.{◌≡◌, ◌≢◌, ◌++◌, Ok, Err, IfOk, IfErr, OnOk, map};
ghost use Rattle.py_tree.specs.Tree.{trees, piece_tree};
ghost use Rattle.py_tree.specs.Tree.{Tree, cons};
ghost use Rattle.py_compare.specs.Growing.{Growth, grown};
ghost use Rattle.py_meaning.specs.Joined.{shown_field, joined_text, text_of};
ghost use Rattle.py_steps.specs.Growths.{put_pieces};
ghost use Rattle.py_steps.specs.Leads.{Steps, left_with, left_at, DoesTask};

use crate::desk::Desk;
use crate::task::Task;
use py_compare::{GrowingText, show};
use py_heap::{Budget, Heap, Value, ValueFault, text_room};
use py_state::{Frame, Machine, Stop, value_fault};
use py_tree::Piece;
use scons_base::Memory;

/// The first field of some pieces, and then the others.
pub fn evaluate_fields<'a>(desk: &mut Desk<'a>, pieces: &'a [Piece]) -> Result<(), Stop>
    ensures { DoesTask (Task.Fields pieces.entry) desk.old result desk.new }
{
    let Some((first, rest)) = pieces.split_first() else {
        return Ok(());
    };
    desk.push(Task::Fields(rest))?;
    match first {
        Piece::Field { line, value } => {
            desk.evaluate(value, Task::Show { line: *line })?;
            Ok(())
        }
        Piece::Part { .. } => Ok(()),
    }
}

/// The text of a field whose value is there.
pub fn show_field(
    machine: &mut Machine,
    frame: &Frame,
    desk: &mut Desk<'_>,
    line: u32,
) -> Result<(), Stop>
    ensures { Steps (left_with (Task.Show line) desk.old machine.old frame.now) result
        (left_at desk.new machine.new frame.now) }
{
    let value = desk.take();
    match shown(&mut machine.heap, &mut machine.budget, value) {
        Ok(text) => {
            desk.give(text)?;
            Ok(())
        }
        Err(fault) => Err(value_fault(frame, line, fault)),
    }
}

fn shown(heap: &mut Heap, budget: &mut Budget, value: Value) -> Result<Value, ValueFault>
    ensures ok { IfOk result (λ v. shown_field heap.old budget.old value ≡ Ok (v, heap.new, budget.new)) }
    ensures fault { IfErr result (λ e. e ≢ ValueFault.Memory → shown_field heap.old budget.old value ≡ Err e) }
{
    let text = show(heap, budget, value, false)?;
    let made = heap.add_text(text)?;
    Ok(made)
}

/// The text of the pieces whose fields gave the values above a height.
pub fn join(
    machine: &mut Machine,
    frame: &Frame,
    desk: &mut Desk<'_>,
    line: u32,
    pieces: &[Piece],
    base: usize,
) -> Result<(), Stop>
    ensures { Steps (left_with (Task.Join line pieces.entry base) desk.old machine.old frame.now) result
        (left_at desk.new machine.new frame.now) }
{
    let values = desk.take_above(base)?;
    let made = joined(
        &mut machine.heap,
        &mut machine.budget,
        pieces,
        values.as_slice(),
    );
    let text = match made {
        Ok(text) => text,
        Err(fault) => return Err(value_fault(frame, line, fault)),
    };
    desk.give(text)?;
    Ok(())
}

fn joined(
    heap: &mut Heap,
    budget: &mut Budget,
    pieces: &[Piece],
    values: &[Value],
) -> Result<Value, ValueFault>
    ensures ok { IfOk result (λ v.
        joined_text heap.old budget.old (trees (map piece_tree pieces.now)) values.now ≡ Ok (v, heap.new, budget.new)) }
    ensures fault { IfErr result (λ e. e ≢ ValueFault.Memory →
        joined_text heap.old budget.old (trees (map piece_tree pieces.now)) values.now ≡ Err e) }
{
    let mut whole = GrowingText::new(heap.allocator());
    put_pieces(heap, &mut whole, pieces, values)?;
    let text = whole.into_text()?;
    text_room(budget, text.as_str().len() as u64)?;
    let made = heap.add_text(text)?;
    Ok(made)
}

/// Puts the characters of the pieces behind a text.
fn put_pieces(
    heap: &Heap,
    whole: &mut GrowingText,
    pieces: &[Piece],
    values: &[Value],
) -> Result<(), Memory>
    ensures { OnOk result (whole.new
        ≡ put_pieces heap.now whole.old (trees (map piece_tree pieces.now)) values.now) }
{
    let mut left = values;
    'pieces: for piece in pieces {
        let (characters, rest) = characters_of(heap, piece, left);
        whole.put(characters)?;
        left = rest;
    }
    Ok(())
}

/// The characters of a piece, and the values of the fields behind it.
fn characters_of<'a>(
    heap: &'a Heap,
    piece: &'a Piece,
    values: &'a [Value],
) -> (&'a str, &'a [Value])
    ensures { (g : Growth) (ps : Tree) → put_pieces heap.now g (cons (piece_tree piece.now) ps) values.now
        ≡ put_pieces heap.now (grown g result.0.now) ps result.1.now }
{
    match piece {
        Piece::Part { text, .. } => (text.as_str(), values),
        Piece::Field { .. } => match values.split_first() {
            Some((first, rest)) => (text_in(heap, *first), rest),
            None => ("", values),
        },
    }
}

/// The characters of a value that is a text.
fn text_in(heap: &Heap, value: Value) -> &str
    ensures { result.now ≡ text_of heap.now value }
{
    match value {
        Value::Text(id) => heap.text_at(id),
        _ => "",
    }
}
