//! Lists of new texts and of new tuples.
ghost use Rattle.std.specs.Prelude.{◌≡◌, ◌+◌, Ok, IfOk, OnErr, ◌<◌, map, length};
ghost use Rattle.py_text.specs.Splitting.{split_of, words_of};
ghost use Rattle.py_heap.specs.Heap.{text_at, dict_at};
ghost use Rattle.py_compare.specs.Iterables.{total_length};
ghost use Rattle.py_methods.specs.Many.{paid_texts, text_list, paid_pairs, pair_list, pair_rows};
ghost use Rattle.py_compare.specs.Outcomes.{FailsAs};

use py_compare::entry_in;
use py_heap::{Budget, DictId, Heap, TextId, Value, ValueFault, Values};
use scons_base::limits::LIST_LIMIT;
use scons_base::{Memory, Text};
use std::alloc::Global;

/// A list of the words of a text.
pub(crate) fn words(heap: &mut Heap, budget: &mut Budget, text: TextId) -> Result<Value, ValueFault>
    ensures ok { IfOk result (λ v.
        text_list heap.old budget.old (words_of (text_at heap.old text.0)) ≡ Ok (v, heap.new, budget.new)) }
    ensures fault { FailsAs result (text_list heap.old budget.old (words_of (text_at heap.old text.0))) }
    ensures err { OnErr result (heap.new ≡ heap.old) }
{
    let made = words_paid(heap.allocator(), budget, heap.text_at(text))?;
    let value = heap.add_text_list(made)?;
    Ok(value)
}

fn words_paid(alloc: Global, budget: &mut Budget, text: &str) -> Result<Vec<Text>, ValueFault>
    ensures ok { IfOk result (λ made. paid_texts budget.old (words_of text.now) ≡ Ok (made.items, budget.new)) }
    ensures fault { FailsAs result (paid_texts budget.old (words_of text.now)) }
{
    let words = py_text::words(alloc, text)?;
    let made = texts_paid(alloc, budget, words.as_slice())?;
    Ok(made)
}

/// A list of the parts of a text between the places of a separator, which isn't empty.
pub(crate) fn parts(
    heap: &mut Heap,
    budget: &mut Budget,
    text: TextId,
    separator: TextId,
) -> Result<Value, ValueFault>
    requires { 0 < length (text_at heap.old separator.0) }
    ensures ok { IfOk result (λ v. text_list heap.old budget.old
        (split_of (text_at heap.old text.0) (text_at heap.old separator.0)) ≡ Ok (v, heap.new, budget.new)) }
    ensures fault { FailsAs result (text_list heap.old budget.old
        (split_of (text_at heap.old text.0) (text_at heap.old separator.0))) }
    ensures err { OnErr result (heap.new ≡ heap.old) }
{
    let made = parts_paid(
        heap.allocator(),
        budget,
        heap.text_at(text),
        heap.text_at(separator),
    )?;
    let value = heap.add_text_list(made)?;
    Ok(value)
}

fn parts_paid(
    alloc: Global,
    budget: &mut Budget,
    text: &str,
    separator: &str,
) -> Result<Vec<Text>, ValueFault>
    requires { 0 < length separator.now }
    ensures ok { IfOk result (λ made.
        paid_texts budget.old (split_of text.now separator.now) ≡ Ok (made.items, budget.new)) }
    ensures fault { FailsAs result (paid_texts budget.old (split_of text.now separator.now)) }
{
    let parts = py_text::split(alloc, text, separator)?;
    let made = texts_paid(alloc, budget, parts.as_slice())?;
    Ok(made)
}

/// Copies of texts that are to be made, once they and their list are charged for.
#[tactic(auto, using(crate::proofs::ManyTexts::many_texts))]
fn texts_paid(alloc: Global, budget: &mut Budget, texts: &[&str]) -> Result<Vec<Text>, ValueFault>
    ensures ok { IfOk result (λ made.
        paid_texts budget.old (map (λ t. t.now) texts.now) ≡ Ok (made.items, budget.new)) }
    ensures fault { FailsAs result (paid_texts budget.old (map (λ t. t.now) texts.now)) }
{
    let count = texts.len() as u64;
    if count > LIST_LIMIT {
        return Err(ValueFault::TooBig(count));
    }
    let units = units_of(texts)?;
    budget.charge(units)?;
    let made = copies_of(alloc, texts)?;
    Ok(made)
}

/// How many texts there are, with all their bytes.
fn units_of(texts: &[&str]) -> Result<u64, Memory>
    ensures { IfOk result (λ n. n ≡ length texts.now + total_length (map (λ t. t.now) texts.now)) }
{
    let mut units = texts.len() as u64;
    'texts: for text in texts {
        units = units.checked_add(text.len() as u64).ok_or(Memory)?;
    }
    Ok(units)
}

fn copies_of(alloc: Global, texts: &[&str]) -> Result<Vec<Text>, Memory>
    ensures { IfOk result (λ made. made.items ≡ map (λ t. t.now) texts.now) }
{
    let mut made = Vec::new(alloc);
    'texts: for text in texts {
        made.push(Text::of(alloc, text)?)?;
    }
    Ok(made)
}

/// A list of the pairs of a dict.
pub(crate) fn pairs(heap: &mut Heap, budget: &mut Budget, dict: DictId) -> Result<Value, ValueFault>
    ensures ok { IfOk result (λ v.
        pair_list heap.old budget.old (pair_rows (dict_at heap.old dict.0)) ≡ Ok (v, heap.new, budget.new)) }
    ensures fault { FailsAs result (pair_list heap.old budget.old (pair_rows (dict_at heap.old dict.0))) }
    ensures err { OnErr result (heap.new ≡ heap.old) }
{
    let made = pairs_paid(heap, budget, dict)?;
    let value = heap.add_tuple_list(made)?;
    Ok(value)
}

#[tactic(auto, using(crate::proofs::Pairs::pair_limits))]
fn pairs_paid(heap: &Heap, budget: &mut Budget, dict: DictId) -> Result<Vec<Values>, ValueFault>
    ensures ok { IfOk result (λ made.
        paid_pairs budget.old (pair_rows (dict_at heap.now dict.0)) ≡ Ok (made.items, budget.new)) }
    ensures fault { FailsAs result (paid_pairs budget.old (pair_rows (dict_at heap.now dict.0))) }
{
    let count = heap.dict_len(dict) as u64;
    if count > LIST_LIMIT {
        return Err(ValueFault::TooBig(count));
    }
    budget.charge(3 * count)?;
    let made = pair_rows(heap, dict)?;
    Ok(made)
}

#[tactic(auto, using(crate::proofs::Pairs::pair_turns))]
fn pair_rows(heap: &Heap, dict: DictId) -> Result<Vec<Values>, Memory>
    ensures { IfOk result (λ rows. rows.items ≡ pair_rows (dict_at heap.now dict.0)) }
{
    let mut rows = Vec::new(heap.allocator());
    'places: for place in 0..heap.dict_len(dict) {
        if let Some(entry) = entry_in(heap, dict, place) {
            rows.push(Values::of(heap.allocator(), &[entry.key, entry.item])?)?;
        }
    }
    Ok(rows)
}
