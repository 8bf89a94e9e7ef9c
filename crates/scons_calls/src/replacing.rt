//! What a script says is replaced in a text.
ghost use Rattle.std.specs.Prelude.{◌≡◌, ◌≢◌, Ok, Err, IfOk, IfErr, OnOk};
ghost use Rattle.scons_calls.specs.Kinds.{key_by, replacement_by, replaced_pair, pairs_by, pairs_in, replacing_fault};
ghost use Rattle.scons_calls.specs.Results.{and_one, each};

use crate::fault::CallFault;
use crate::pairs::pair_at;
use py_heap::{DictId, Heap, Value};
use py_text::decimals;
use scons_base::{Listing, Text};
use scons_decls::Pairs;

/// The pairs of a dict, in its order: keys that aren't empty, with texts and numbers.
pub fn pairs(heap: &Heap, value: Value) -> Result<Pairs, CallFault>
    ensures ok { IfOk result (λ pairs. pairs_by heap.now value ≡ Ok pairs) }
    ensures fault { IfErr result (λ e. e ≢ CallFault.Memory → pairs_by heap.now value ≡ Err e) }
{
    match value {
        Value::Dict(dict) => pairs_of(heap, dict),
        _ => Err(refused(heap)),
    }
}

#[tactic(auto, using(crate::proofs::Loops::loops))]
fn pairs_of(heap: &Heap, dict: DictId) -> Result<Pairs, CallFault>
    ensures ok { IfOk result (λ pairs. each (replaced_pair heap.now) (pairs_in heap.now dict.0) ≡ Ok pairs) }
    ensures fault { IfErr result (λ e. e ≢ CallFault.Memory →
        each (replaced_pair heap.now) (pairs_in heap.now dict.0) ≡ Err e) }
{
    let mut pairs = Listing::empty(heap.allocator());
    'pairs: for at in 0..heap.dict_len(dict) {
        if let Some(pair) = pair_at(heap, dict, at) {
            push_pair(heap, &mut pairs, pair)?;
        }
    }
    Ok(pairs)
}

fn push_pair(heap: &Heap, pairs: &mut Pairs, pair: (Value, Value)) -> Result<(), CallFault>
    ensures ok { OnOk result (and_one pairs.old (replaced_pair heap.now pair) ≡ Ok pairs.new) }
    ensures fault { IfErr result (λ e. e ≢ CallFault.Memory →
        and_one pairs.old (replaced_pair heap.now pair) ≡ Err e) }
{
    Ok(pairs.push(pair_of(heap, pair)?)?)
}

fn pair_of(heap: &Heap, pair: (Value, Value)) -> Result<(Text, Text), CallFault>
    ensures ok { IfOk result (λ p. replaced_pair heap.now pair ≡ Ok p) }
    ensures fault { IfErr result (λ e. e ≢ CallFault.Memory → replaced_pair heap.now pair ≡ Err e) }
{
    let key = key_of(heap, pair.0)?;
    let text = value_of(heap, pair.1)?;
    Ok((key, text))
}

fn key_of(heap: &Heap, key: Value) -> Result<Text, CallFault>
    ensures ok { IfOk result (λ t. key_by heap.now key ≡ Ok t) }
    ensures fault { IfErr result (λ e. e ≢ CallFault.Memory → key_by heap.now key ≡ Err e) }
{
    let Some(text) = heap.text_of(key) else {
        return Err(refused(heap));
    };
    if text.is_empty() {
        return Err(refused(heap));
    }
    Ok(Text::of(heap.allocator(), text)?)
}

/// A value as a text; a number in decimal digits.
fn value_of(heap: &Heap, value: Value) -> Result<Text, CallFault>
    ensures ok { IfOk result (λ t. replacement_by heap.now value ≡ Ok t) }
    ensures fault { IfErr result (λ e. e ≢ CallFault.Memory → replacement_by heap.now value ≡ Err e) }
{
    match value {
        Value::Int(number) => Ok(Text::new(decimals(heap.allocator(), number)?)),
        value => match heap.text_of(value) {
            Some(text) => Ok(Text::of(heap.allocator(), text)?),
            None => Err(refused(heap)),
        },
    }
}

fn refused(heap: &Heap) -> CallFault
    ensures { result ≢ CallFault.Memory → result ≡ replacing_fault }
{
    match Text::of(heap.allocator(), "SUBST_DICT") {
        Ok(name) => CallFault::Argument(name),
        Err(_) => CallFault::Memory,
    }
}
