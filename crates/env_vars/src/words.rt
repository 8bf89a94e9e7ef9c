//! How a text is cut into words.
ghost use Rattle.std.specs.Prelude.{◌≡◌, ◌++◌, ◌∷◌, [], filter, IfOk, OnOk};
ghost use Rattle.env_text.specs.White.{is_word, words_of};

use env_text::split_at_white;
use scons_base::{Memory, Text};
use std::alloc::Global;

/// The words of a text.
pub(crate) fn words_of(alloc: Global, text: &str) -> Result<Vec<Text>, Memory>
    ensures { IfOk result (λ v. v.items ≡ words_of text.now) }
{
    let mut words = Vec::new(alloc);
    let mut rest = text;
    'parts: while let Some((part, after)) = split_at_white(rest) {
        push_word(alloc, &mut words, part)?;
        rest = after;
    }
    push_word(alloc, &mut words, rest)?;
    Ok(words)
}

fn push_word(alloc: Global, words: &mut Vec<Text>, part: &str) -> Result<(), Memory>
    ensures { OnOk result (words.new.items ≡ words.old.items ++ filter is_word (part.now ∷ [])) }
{
    if !part.is_empty() {
        words.push(Text::of(alloc, part)?)?;
    }
    Ok(())
}
