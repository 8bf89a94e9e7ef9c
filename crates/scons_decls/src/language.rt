//! The languages of sources.
ghost use Rattle.std.specs.Prelude.{◌≡◌};
ghost use Rattle.scons_decls.specs.Languages.{language_of};

use scons_base::PathText;

/// What a source is, by its suffix.
#[derive(Clone, Copy, Debug, PartialEq, Eq)]
pub enum Language {
    C,
    CPlusPlus,
}

/// The language of a source, if it is one that compilers take.
pub fn language_of(path: &PathText) -> Option<Language>
    ensures { result ≡ language_of path.now }
{
    match path.suffix().as_bytes() {
        b".c" => Some(Language::C),
        b".C" | b".cc" | b".cpp" | b".cxx" => Some(Language::CPlusPlus),
        _ => None,
    }
}
