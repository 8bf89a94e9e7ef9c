//! What stands in the braces of a reference.
ghost use Rattle.std.specs.Prelude.{◌≡◌, ◌<◌, ◌∷◌, [], ◌↔◌, ⊤, length, None, Some, MatchOption, IsTrue, is_some};
ghost use Rattle.std.specs.Option.{option_map, option_copied};
ghost use Rattle.env_text.specs.Words.{words_of, name};
ghost use Rattle.env_text.specs.References.{end_of, inside_brackets, closed, selection_of, attribute_of, variable_of, names_of, concat_of, call_of, reference_of, begins_with_rdirs, BeginsNoName};
ghost use Rattle.env_text.specs.Views.{plain, further_names, names_from, GoesShorter, Selects};

use crate::part::{Index, Part, Selection};
use crate::word::{Word, behind, next_word};

/// An argument of `_concat`, and what follows its comma.
#[derive(Clone, Copy)]
pub struct Argument<'a> {
    pub name: &'a str,
    pub more: Option<&'a [u8]>,
}

/// What a content refers to; none where it has another form.
pub fn reference_of(content: &[u8]) -> Option<Part<'_>>
    ensures { option_map plain result ≡ reference_of (words_of content.now) }
{
    let (name, words) = next_name(content)?;
    match behind(b'(', words) {
        Some(arguments) => call_of(name, arguments),
        None => variable_of(name, words),
    }
}

/// The name in front and what follows it.
fn next_name(bytes: &[u8]) -> Option<(&str, &[u8])>
    ensures name { MatchOption result (BeginsNoName (words_of bytes.now)) (λ p. words_of bytes.now ≡ name p.0.now ∷ words_of p.1.now) }
    ensures shorter { MatchOption result ⊤ (λ p. length p.1.now < length bytes.now) }
{
    let (word, rest) = next_word(bytes)?;
    match word {
        Word::Name(name) => Some((name, rest)),
        _ => None,
    }
}

/// A variable, by its name and what stands behind it.
fn variable_of<'a>(name: &'a str, words: &'a [u8]) -> Option<Part<'a>>
    ensures { option_map plain result ≡ variable_of name.now (words_of words.now) }
{
    let (selection, rest) = selection_of(words)?;
    let attribute = attribute_of(rest)?;
    Some(Part::Variable {
        name,
        selection,
        attribute,
    })
}

/// What is selected and what follows it.
fn selection_of(words: &[u8]) -> Option<(Selection, &[u8])>
    ensures { Selects (selection_of (words_of words.now)) result }
{
    match behind(b'[', words) {
        Some(inside) => inside_brackets(inside),
        None => Some((Selection::Whole, words)),
    }
}

fn inside_brackets(words: &[u8]) -> Option<(Selection, &[u8])>
    ensures { Selects (inside_brackets (end_of (words_of words.now))) result }
{
    let (from, rest) = end_of(words);
    match behind(b':', rest) {
        Some(more) => {
            let (to, rest) = end_of(more);
            closed(Selection::Slice(from, to), rest)
        }
        None => closed(Selection::Item(from?), rest),
    }
}

/// The end of a slice in front, if there is one, and what follows it.
fn end_of(words: &[u8]) -> (Option<Index>, &[u8])
    ensures end { result.0 ≡ (end_of (words_of words.now)).0 }
    ensures rest { words_of result.1.now ≡ (end_of (words_of words.now)).1 }
{
    let Some((word, rest)) = next_word(words) else {
        return (None, words);
    };
    match word {
        Word::Number(index) => (Some(index), rest),
        _ => (None, words),
    }
}

fn closed(selection: Selection, words: &[u8]) -> Option<(Selection, &[u8])>
    ensures { Selects (closed selection (words_of words.now)) result }
{
    let rest = behind(b']', words)?;
    Some((selection, rest))
}

/// The attribute, if there is one; none where anything else is left.
fn attribute_of(words: &[u8]) -> Option<Option<&str>>
    ensures { MatchOption result (attribute_of (words_of words.now) ≡ None) (λ a. attribute_of (words_of words.now) ≡ Some (option_copied a)) }
{
    if is_over(words) {
        return Some(None);
    }
    let (name, rest) = next_name(behind(b'.', words)?)?;
    if is_over(rest) {
        Some(Some(name))
    } else {
        None
    }
}

fn is_over(words: &[u8]) -> bool
    ensures { IsTrue result ↔ (words_of words.now ≡ []) }
{
    next_word(words).is_none()
}

/// A call, by its name and what stands behind the parenthesis.
fn call_of<'a>(name: &str, arguments: &'a [u8]) -> Option<Part<'a>>
    ensures { option_map plain result ≡ call_of name.now (words_of arguments.now) }
{
    if name == "_concat" {
        concat_of(arguments)
    } else {
        None
    }
}

fn concat_of(arguments: &[u8]) -> Option<Part<'_>>
    ensures { option_map plain result ≡ concat_of (names_of (words_of arguments.now)) }
{
    let prefix = next_argument(arguments)?;
    let list = next_argument(prefix.more?)?;
    let suffix = next_argument(list.more?)?;
    let env = next_argument(suffix.more?)?;
    let directories = has_rdirs(env.more)?;
    if env.name != "__env__" {
        return None;
    }
    Some(Part::Concat {
        prefix: prefix.name,
        list: list.name,
        suffix: suffix.name,
        directories,
    })
}

/// Whether `RDirs` is the first of the names that are left, if they are names.
fn has_rdirs(arguments: Option<&[u8]>) -> Option<bool>
    ensures { result ≡ option_map begins_with_rdirs (further_names arguments.entry) }
{
    let Some(arguments) = arguments else {
        return Some(false);
    };
    let fifth = next_argument(arguments)?;
    if are_names(fifth.more) {
        Some(fifth.name == "RDirs")
    } else {
        None
    }
}

/// Whether what is left is names.
fn are_names(arguments: Option<&[u8]>) -> bool
    ensures { result ≡ is_some (further_names arguments.entry) }
{
    let mut left = arguments;
    'names: while let Some(bytes) = left {
        match next_argument(bytes) {
            Some(argument) => left = argument.more,
            None => return false,
        }
    }
    true
}

fn next_argument(bytes: &[u8]) -> Option<Argument<'_>>
    ensures names { MatchOption result (names_of (words_of bytes.now) ≡ None) (λ a. names_of (words_of bytes.now) ≡ names_from a.name.now a.more) }
    ensures shorter { MatchOption result ⊤ (λ a. GoesShorter a.more bytes.now) }
{
    let (name, words) = next_name(bytes)?;
    if let Some(rest) = behind(b',', words) {
        return Some(Argument {
            name,
            more: Some(rest),
        });
    }
    let rest = behind(b')', words)?;
    if is_over(rest) {
        Some(Argument { name, more: None })
    } else {
        None
    }
}
