//! Arguments that are texts.
ghost use Rattle.std.specs.Prelude.{◌≡◌, ◌≢◌, Ok, Err, IfOk, IfErr, OnOk, map, ◌++◌};
ghost use Rattle.scons_calls.specs.Kinds.{text_by, texts_by, line_by, lines_in, lines_by, word_by, words_by, names_by};
ghost use Rattle.scons_calls.specs.Results.{and_more, each, each_joined};

use crate::fault::CallFault;
use crate::flattening::flattened;
use crate::variables::is_identifier;
use py_heap::{Heap, Value};
use py_text::words;
use scons_base::{Memory, Text, Texts};

/// A text.
pub fn text(heap: &Heap, value: Value) -> Result<Text, CallFault>
    ensures ok { IfOk result (λ t. text_by heap.now value ≡ Ok t) }
    ensures fault { IfErr result (λ e. e ≢ CallFault.Memory → text_by heap.now value ≡ Err e) }
{
    match heap.text_of(value) {
        Some(text) => Ok(Text::of(heap.allocator(), text)?),
        None => Err(CallFault::Arguments),
    }
}

/// The texts of an action: one text, or a list of texts. To SCons a list in it is one command and its words; that is left
/// out here.
#[tactic(auto, using(crate::proofs::Loops::loops))]
pub fn lines(heap: &Heap, values: &[Value]) -> Result<Texts, CallFault>
    ensures ok { IfOk result (λ lines. lines_by heap.now values.now ≡ Ok lines) }
    ensures fault { IfErr result (λ e. e ≢ CallFault.Memory → lines_by heap.now values.now ≡ Err e) }
{
    let mut lines = Texts::new(Vec::new(heap.allocator()));
    let items = items_in(heap, values);
    for item in items {
        lines.push(line(heap, *item)?)?;
    }
    Ok(lines)
}

/// What stands for lines: the items of one list, or one value. None stands for no line.
fn items_in<'a>(heap: &'a Heap, values: &'a [Value]) -> &'a [Value]
    ensures { result.now ≡ lines_in heap.now values.now }
{
    match values {
        [Value::Nil] => &[],
        [value] => match heap.items_of(*value) {
            Some(items) => items,
            None => values,
        },
        _ => values,
    }
}

fn line(heap: &Heap, value: Value) -> Result<Text, CallFault>
    ensures ok { IfOk result (λ t. line_by heap.now value ≡ Ok t) }
    ensures fault { IfErr result (λ e. e ≢ CallFault.Memory → line_by heap.now value ≡ Err e) }
{
    if heap.items_of(value).is_some() {
        return Err(CallFault::LeftOut(Text::of(heap.allocator(), "list in an action")?));
    }
    text(heap, value)
}

/// Texts as they stand, flattened.
#[tactic(auto, using(crate::proofs::Tails::tails))]
pub fn texts(heap: &Heap, values: &[Value]) -> Result<Texts, CallFault>
    ensures ok { IfOk result (λ texts. texts_by heap.now values.now ≡ Ok texts) }
    ensures fault { IfErr result (λ e. e ≢ CallFault.Memory → texts_by heap.now values.now ≡ Err e) }
{
    let items = flattened(heap, values)?;
    texts_of(heap, items.as_slice())
}

#[tactic(auto, using(crate::proofs::Loops::loops))]
fn texts_of(heap: &Heap, items: &[Value]) -> Result<Texts, CallFault>
    ensures ok { IfOk result (λ texts. each (text_by heap.now) items.now ≡ Ok texts) }
    ensures fault { IfErr result (λ e. e ≢ CallFault.Memory → each (text_by heap.now) items.now ≡ Err e) }
{
    let mut texts = Texts::new(Vec::new(heap.allocator()));
    for item in items {
        texts.push(text(heap, *item)?)?;
    }
    Ok(texts)
}

/// Names, cut at white space and flattened. `*` stands for all names.
#[tactic(auto, using(crate::proofs::Tails::tails))]
pub fn names(heap: &Heap, values: &[Value]) -> Result<Texts, CallFault>
    ensures ok { IfOk result (λ names. names_by heap.now values.now ≡ Ok names) }
    ensures fault { IfErr result (λ e. e ≢ CallFault.Memory → names_by heap.now values.now ≡ Err e) }
{
    let items = flattened(heap, values)?;
    names_of(heap, items.as_slice())
}

#[tactic(auto, using(crate::proofs::Loops::loops))]
fn names_of(heap: &Heap, items: &[Value]) -> Result<Texts, CallFault>
    ensures ok { IfOk result (λ names. each_joined (words_by heap.now) items.now ≡ Ok names) }
    ensures fault { IfErr result (λ e. e ≢ CallFault.Memory → each_joined (words_by heap.now) items.now ≡ Err e) }
{
    let mut names = Texts::new(Vec::new(heap.allocator()));
    for item in items {
        push_names(heap, *item, &mut names)?;
    }
    Ok(names)
}

/// Puts the names that a text holds behind others.
pub fn push_names(heap: &Heap, value: Value, names: &mut Texts) -> Result<(), CallFault>
    ensures ok { OnOk result (and_more names.old (words_by heap.now value) ≡ Ok names.new) }
    ensures fault { IfErr result (λ e. e ≢ CallFault.Memory → and_more names.old (words_by heap.now value) ≡ Err e) }
{
    let more = names_in(heap, value)?;
    push_all(names, more.as_slice())?;
    Ok(())
}

fn push_all(names: &mut Texts, more: &[Text]) -> Result<(), Memory>
    ensures { OnOk result (names.new ≡ names.old ++ more.now) }
{
    for name in more {
        names.push(name.copy()?)?;
    }
    Ok(())
}

/// The names that a text holds.
fn names_in(heap: &Heap, value: Value) -> Result<Texts, CallFault>
    ensures ok { IfOk result (λ names. words_by heap.now value ≡ Ok names) }
    ensures fault { IfErr result (λ e. e ≢ CallFault.Memory → words_by heap.now value ≡ Err e) }
{
    let Some(text) = heap.text_of(value) else {
        return Err(CallFault::Arguments);
    };
    let words = words(heap.allocator(), text)?;
    checked(heap, words.as_slice())
}

/// Words, each of which may stand for a name.
#[tactic(auto, using(crate::proofs::Loops::loops))]
fn checked(heap: &Heap, words: &[&str]) -> Result<Texts, CallFault>
    ensures ok { IfOk result (λ names. each word_by (map (λ w. w.now) words.now) ≡ Ok names) }
    ensures fault { IfErr result (λ e. e ≢ CallFault.Memory → each word_by (map (λ w. w.now) words.now) ≡ Err e) }
{
    let mut names = Texts::new(Vec::new(heap.allocator()));
    for word in words {
        names.push(name_of(heap, *word)?)?;
    }
    Ok(names)
}

/// A name, or `*`.
fn name_of(heap: &Heap, word: &str) -> Result<Text, CallFault>
    ensures ok { IfOk result (λ name. word_by word.now ≡ Ok name) }
    ensures fault { IfErr result (λ e. e ≢ CallFault.Memory → word_by word.now ≡ Err e) }
{
    if word != "*" && !is_identifier(word) {
        return Err(CallFault::Arguments);
    }
    Ok(Text::of(heap.allocator(), word)?)
}
