//! The words of methods.
ghost use Rattle.std.specs.Prelude.{◌≡◌};
ghost use Rattle.py_meaning.specs.Words.{name_in, text_words, list_words, dict_words, method_named};

use py_methods::Name;

/// The method that a word names.
pub fn method_named(word: &str) -> Option<Name>
    ensures { result ≡ method_named word.now }
{
    if let Some(name) = text_word(word) {
        return Some(name);
    }
    if let Some(name) = list_word(word) {
        return Some(name);
    }
    dict_word(word)
}

fn text_word(word: &str) -> Option<Name>
    ensures { result ≡ name_in text_words word.now }
{
    match word {
        "split" => Some(Name::Split),
        "strip" => Some(Name::Strip),
        "lstrip" => Some(Name::Lstrip),
        "rstrip" => Some(Name::Rstrip),
        "startswith" => Some(Name::Startswith),
        "endswith" => Some(Name::Endswith),
        "replace" => Some(Name::Replace),
        "join" => Some(Name::Join),
        "find" => Some(Name::Find),
        "lower" => Some(Name::Lower),
        "upper" => Some(Name::Upper),
        _ => None,
    }
}

fn list_word(word: &str) -> Option<Name>
    ensures { result ≡ name_in list_words word.now }
{
    match word {
        "append" => Some(Name::Append),
        "extend" => Some(Name::Extend),
        "insert" => Some(Name::Insert),
        "pop" => Some(Name::Pop),
        "remove" => Some(Name::Remove),
        "index" => Some(Name::Index),
        "reverse" => Some(Name::Reverse),
        "sort" => Some(Name::Sort),
        _ => None,
    }
}

fn dict_word(word: &str) -> Option<Name>
    ensures { result ≡ name_in dict_words word.now }
{
    match word {
        "get" => Some(Name::Get),
        "keys" => Some(Name::Keys),
        "values" => Some(Name::Values),
        "items" => Some(Name::Items),
        "update" => Some(Name::Update),
        "setdefault" => Some(Name::Setdefault),
        "copy" => Some(Name::Copy),
        _ => None,
    }
}
