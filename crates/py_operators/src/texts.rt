//! New texts made of others.
ghost use Rattle.std.specs.Prelude.{◌≡◌, ◌++◌, Ok, IfOk, OnErr, string_bytes};
ghost use Rattle.py_text.specs.Joining.{repeated};
ghost use Rattle.py_heap.specs.Heap.{text_at};
ghost use Rattle.py_compare.specs.Outcomes.{FailsAs, paid_text, new_text};
ghost use Rattle.py_operators.specs.Joining.{times_of};

use crate::joining::times_of;
use py_heap::{Budget, Heap, TextId, Value, ValueFault, text_room};
use scons_base::Text;
use std::alloc::Global;

/// Two texts in one, once they are charged for.
#[tactic(auto, using(crate::proofs::TextLengths::text_lengths))]
fn joined_text(
    alloc: Global,
    budget: &mut Budget,
    text: &str,
    other: &str,
) -> Result<Text, ValueFault>
    ensures ok { IfOk result (λ made. paid_text budget.old (text.now ++ other.now) ≡ Ok (made, budget.new)) }
    ensures fault { FailsAs result (paid_text budget.old (text.now ++ other.now)) }
{
    text_room(
        budget,
        (text.len() as u64).saturating_add(other.len() as u64),
    )?;
    let mut made = String::from_str(alloc, text)?;
    made.push_str(other)?;
    Ok(Text::new(made))
}

/// A text so many times in a row, once it is charged for.
#[tactic(auto, using(crate::proofs::TextLengths::text_lengths))]
fn repeated_text(
    alloc: Global,
    budget: &mut Budget,
    text: &str,
    times: u64,
) -> Result<Text, ValueFault>
    ensures ok { IfOk result (λ made. paid_text budget.old (repeated text.now times) ≡ Ok (made, budget.new)) }
    ensures fault { FailsAs result (paid_text budget.old (repeated text.now times)) }
{
    text_room(budget, py_text::repeated_length(text, times as usize))?;
    if text.is_empty() {
        return Ok(Text::new(String::new(alloc)));
    }
    let made = py_text::repeated(alloc, text, times as usize)?;
    Ok(Text::new(made))
}

pub(crate) fn join_texts(
    heap: &mut Heap,
    budget: &mut Budget,
    text: TextId,
    other: TextId,
) -> Result<Value, ValueFault>
    ensures ok { IfOk result (λ v. new_text heap.old budget.old (text_at heap.old text.0 ++ text_at heap.old other.0)
        ≡ Ok (v, heap.new, budget.new)) }
    ensures fault { FailsAs result (new_text heap.old budget.old
        (text_at heap.old text.0 ++ text_at heap.old other.0)) }
    ensures err { OnErr result (heap.new ≡ heap.old) }
{
    let made = joined_text(
        heap.allocator(),
        budget,
        heap.text_at(text),
        heap.text_at(other),
    )?;
    let value = heap.add_text(made)?;
    Ok(value)
}

pub(crate) fn repeat_text(
    heap: &mut Heap,
    budget: &mut Budget,
    text: TextId,
    number: i64,
) -> Result<Value, ValueFault>
    ensures ok { IfOk result (λ v. new_text heap.old budget.old (repeated (text_at heap.old text.0) (times_of number))
        ≡ Ok (v, heap.new, budget.new)) }
    ensures fault { FailsAs result (new_text heap.old budget.old
        (repeated (text_at heap.old text.0) (times_of number))) }
    ensures err { OnErr result (heap.new ≡ heap.old) }
{
    let made = repeated_text(
        heap.allocator(),
        budget,
        heap.text_at(text),
        times_of(number),
    )?;
    let value = heap.add_text(made)?;
    Ok(value)
}

/// A copy of a text that is to be made, once it is charged for.
pub fn copied_text(alloc: Global, budget: &mut Budget, text: &str) -> Result<Text, ValueFault>
    ensures ok { IfOk result (λ made. paid_text budget.old text.now ≡ Ok (made, budget.new)) }
    ensures fault { FailsAs result (paid_text budget.old text.now) }
{
    text_room(budget, text.len() as u64)?;
    let made = Text::of(alloc, text)?;
    Ok(made)
}
