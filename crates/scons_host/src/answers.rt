//! What the host answers, as values.
ghost use Rattle.std.specs.Prelude.{◌≡◌, ◌≢◌, Ok, Err, IfOk, IfErr, map};
ghost use Rattle.py_host.specs.Extends.{Extends};
ghost use Rattle.py_text.specs.Splitting.{words_of};
ghost use Rattle.scons_host.specs.Answers as spec;
ghost use Rattle.scons_host.specs.SoFar.{so_far};

use crate::state::State;
use crate::stop::{Refusal, refused};
use py_heap::{Heap, Value};
use scons_base::{Memory, Text};
use scons_calls::{
    Thing, flat_items, given_value, list_value, nodes_value, text_value, texts_value,
    variable_value,
};
use scons_decls::{Answer, Call, SayCall};
use std::alloc::Global;

/// Whether the answer to a call is one node, and no list.
pub fn is_single(call: &Call) -> bool
    ensures { result ≡ spec.is_single call.now }
{
    match call {
        Call::File(_) | Call::Dir(_) => true,
        Call::Says(SayCall::Alias { names, .. }) => names.len() == 1,
        Call::Says(SayCall::Depends { .. } | SayCall::Requires { .. }) => false,
        Call::Says(SayCall::Ignore { .. } | SayCall::AlwaysBuild(_)) => false,
        Call::Environment(_) | Call::DefaultEnvironment(_) | Call::Clone(_) => false,
        Call::Change(..) | Call::Set(..) | Call::SetBuilder(..) | Call::Get(_) => false,
        Call::Subst(..) | Call::Decider(_) | Call::NewBuilder(_) | Call::Rules(_) => false,
        Call::VariantDir { .. } | Call::Default(_) | Call::Help(_) => false,
    }
}

/// The value of an answer. `single` says that one node is answered, and no list.
#[tactic(auto, using(crate::specs::Looking::looking))]
pub fn answer_value(
    state: &mut State,
    heap: &mut Heap,
    single: bool,
    answer: Answer,
) -> Result<Value, Refusal>
    ensures stands { Extends heap.old heap.new }
    ensures ok { IfOk result (λ v.
        spec.answer_value (so_far state.old) heap.old single answer ≡ Ok (v, so_far state.new, heap.new)) }
    ensures fault { IfErr result (λ e. e ≢ Refusal.Memory →
        spec.answer_value (so_far state.old) heap.old single answer ≡ Err e) }
{
    match answer {
        Answer::Nothing | Answer::Variable(None) => Ok(Value::Nil),
        Answer::Env(env) => Ok(Value::Object(state.objects.object(Thing::Env(env))?)),
        Answer::Targets(nodes) => match nodes.as_slice() {
            [node] if single => Ok(given_value(heap, &mut state.objects, node)?),
            nodes => Ok(nodes_value(heap, &mut state.objects, nodes)?),
        },
        Answer::Text(text) => Ok(text_value(heap, text.as_str())?),
        Answer::Variable(Some(value)) => Ok(variable_value(heap, &mut state.objects, &value)?),
        Answer::Builder(number) => Ok(Value::Object(state.objects.object(Thing::Builder(number))?)),
    }
}

/// The words of a text, or a list as it is.
#[tactic(auto, using(crate::specs::Looking::looking))]
pub fn split_value(heap: &mut Heap, value: Value) -> Result<Value, Refusal>
    ensures stands { Extends heap.old heap.new }
    ensures ok { IfOk result (λ v. spec.split heap.old value ≡ Ok (v, heap.new)) }
    ensures fault { IfErr result (λ e. e ≢ Refusal.Memory → spec.split heap.old value ≡ Err e) }
{
    let words = match heap.text_of(value) {
        Some(text) => words_of(heap.allocator(), text)?,
        None => return listed(heap, value),
    };
    Ok(texts_value(heap, words.as_slice())?)
}

/// The words of a text.
fn words_of(alloc: Global, text: &str) -> Result<Vec<Text>, Memory>
    ensures { IfOk result (λ texts. texts.items ≡ words_of text.now) }
{
    let words = py_text::words(alloc, text)?;
    texts_of(alloc, words.as_slice())
}

fn texts_of(alloc: Global, words: &[&str]) -> Result<Vec<Text>, Memory>
    ensures { IfOk result (λ texts. texts.items ≡ map (λ word. word.now) words.now) }
{
    let mut texts = Vec::new(alloc);
    for word in words {
        texts.push(Text::of(alloc, word)?)?;
    }
    Ok(texts)
}

/// A list as it is, or a list of what is none.
#[tactic(auto, using(crate::specs::Looking::looking))]
fn listed(heap: &mut Heap, value: Value) -> Result<Value, Refusal>
    ensures stands { Extends heap.old heap.new }
    ensures ok { IfOk result (λ v. spec.listed heap.old value ≡ Ok (v, heap.new)) }
    ensures fault { IfErr result (λ e. e ≢ Refusal.Memory → spec.listed heap.old value ≡ Err e) }
{
    match value {
        Value::List(_) | Value::Tuple(_) => Ok(value),
        value => Ok(list_value(heap, &[value])?),
    }
}

/// One flat list of what lists and tuples hold.
#[tactic(auto, using(crate::specs::Looking::looking))]
pub fn flat_value(heap: &mut Heap, value: Value) -> Result<Value, Refusal>
    ensures stands { Extends heap.old heap.new }
    ensures ok { IfOk result (λ v. spec.flatten heap.old value ≡ Ok (v, heap.new)) }
    ensures fault { IfErr result (λ e. e ≢ Refusal.Memory → spec.flatten heap.old value ≡ Err e) }
{
    match flat_items(heap, &[value]) {
        Ok(items) => Ok(list_value(heap, items.as_slice())?),
        Err(fault) => Err(refused(heap.allocator(), "Flatten", fault)),
    }
}
