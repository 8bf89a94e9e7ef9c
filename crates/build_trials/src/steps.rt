//! The steps of a trial, as they stand in the text.
use scons_base::Text;
use std::alloc::Global;
use trial_text::Told;

/// What a line begins with that is a step, behind the line feed of the line before it.
pub(crate) const STEP: &str = "\n-- ";

/// A step: its line without the two marks in front, the first word and the rest of it, and the lines below it, if there are any.
#[derive(Clone, Copy)]
pub(crate) struct Step<'a> {
    pub(crate) line: &'a str,
    pub(crate) word: &'a str,
    pub(crate) rest: &'a str,
    pub(crate) below: Option<&'a str>,
}

impl<'a> Step<'a> {
    pub(crate) fn of(text: &'a str) -> Step<'a> {
        match text.split_once('\n') {
            Some((line, below)) => Step::with(line, Some(below)),
            None => Step::with(text, None),
        }
    }

    fn with(line: &'a str, below: Option<&'a str>) -> Step<'a> {
        let (word, rest) = word_of(line);
        Step {
            line,
            word,
            rest,
            below,
        }
    }
}

/// The first word, and what stands behind the blank after it.
pub(crate) fn word_of(text: &str) -> (&str, &str) {
    text.split_once(' ').unwrap_or((text, ""))
}

/// The words between blanks.
pub(crate) fn words_of(alloc: Global, told: &mut Told, text: &str) -> Vec<Text> {
    let mut words = Vec::new(alloc);
    for word in text.split_whitespace() {
        keep_text(alloc, told, &mut words, word);
    }
    words
}

/// Puts a text behind others.
pub(crate) fn keep_text(alloc: Global, told: &mut Told, texts: &mut Vec<Text>, text: &str) {
    match Text::of(alloc, text) {
        Ok(text) => told.keep(texts, text),
        Err(_) => told.refuse(),
    }
}
