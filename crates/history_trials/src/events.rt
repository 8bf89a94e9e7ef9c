//! The events of a history, as they stand in the text.
use build_history::Event;
use scons_base::{Blob, PathText, Text};
use std::alloc::Global;
use std::str;
use trial_text::Told;

/// The events of the lines, but for those that say how the world is and what else is told.
pub(crate) fn events_of(alloc: Global, told: &mut Told, lines: &str) -> Vec<Event> {
    let mut events = Vec::new(alloc);
    for line in lines.lines() {
        let (verb, rest) = word_of(line);
        match verb {
            "fail" | "orders" | "failing" | "banks" | "stops" | "failures" | "cuts" => {}
            "turns" => put_turns(alloc, told, &mut events, rest),
            _ => match event_of(alloc, told, line) {
                Some(event) => told.keep(&mut events, event),
                None => told.refuse(),
            },
        }
    }
    events
}

/// Events that set a file to `0` and `1` in turn, and build each time: `TIMES PATH WORDS`.
fn put_turns(alloc: Global, told: &mut Told, events: &mut Vec<Event>, rest: &str) {
    let (times, rest) = word_of(rest);
    let (path, words) = word_of(rest);
    for turn in 0..told.number(times) {
        let text = if turn % 2 == 0 { "0" } else { "1" };
        match (
            PathText::read(alloc, path),
            Blob::of(alloc, text.as_bytes()),
        ) {
            (Ok(path), Ok(bytes)) => told.keep(events, Event::Edit(path, bytes)),
            _ => told.refuse(),
        }
        let words = words_of(alloc, told, words);
        told.keep(events, Event::Build(words));
    }
}

fn event_of(alloc: Global, told: &mut Told, line: &str) -> Option<Event> {
    let (verb, rest) = word_of(line);
    match verb {
        "edit" => edit_of(alloc, rest),
        "delete" => path_of(alloc, rest).map(Event::Delete),
        "build" => Some(Event::Build(words_of(alloc, told, rest))),
        "stopped" => Some(stopped_of(alloc, told, rest)),
        _ => None,
    }
}

fn edit_of(alloc: Global, rest: &str) -> Option<Event> {
    let (path, text) = word_of(rest);
    let path = path_of(alloc, path)?;
    let text = text.replace(alloc, "\\n", "\n").ok()?;
    let bytes = Blob::of(alloc, text.as_bytes()).ok()?;
    Some(Event::Edit(path, bytes))
}

pub(crate) fn path_of(alloc: Global, text: &str) -> Option<PathText> {
    PathText::read(alloc, text).ok()
}

fn stopped_of(alloc: Global, told: &mut Told, rest: &str) -> Event {
    let (calls, rest) = word_of(rest);
    let (pick, words) = word_of(rest);
    let calls = told.number(calls);
    let pick = told.number(pick);
    Event::Stopped(words_of(alloc, told, words), calls, pick)
}

/// The first word, and what stands behind the blank after it.
pub(crate) fn word_of(text: &str) -> (&str, &str) {
    text.split_once(' ').unwrap_or((text, ""))
}

/// The words between blanks.
pub(crate) fn words_of(alloc: Global, told: &mut Told, text: &str) -> Vec<Text> {
    let mut words = Vec::new(alloc);
    for word in text.split_whitespace() {
        match Text::of(alloc, word) {
            Ok(word) => told.keep(&mut words, word),
            Err(_) => told.refuse(),
        }
    }
    words
}

/// Tells an event as a line of a row.
pub(crate) fn put_event(alloc: Global, told: &mut Told, event: &Event) {
    match event {
        Event::Edit(path, bytes) => {
            told.put_all(&["edit ", path.as_str(), " "]);
            put_text(alloc, told, bytes.as_slice());
        }
        Event::Delete(path) => told.put_all(&["delete ", path.as_str()]),
        Event::Build(words) => {
            told.put("build");
            put_words(told, words.as_slice());
        }
        Event::Stopped(words, calls, pick) => {
            told.put("stopped ");
            told.show(*calls);
            told.put(" ");
            told.show(*pick);
            put_words(told, words.as_slice());
        }
    }
    told.put("\n");
}

fn put_words(told: &mut Told, words: &[Text]) {
    for word in words {
        told.put_all(&[" ", word.as_str()]);
    }
}

/// Tells a text on one line.
fn put_text(alloc: Global, told: &mut Told, bytes: &[u8]) {
    let Ok(text) = str::from_utf8(bytes) else {
        return told.refuse();
    };
    match text.replace(alloc, "\n", "\\n") {
        Ok(text) => told.put(text.as_str()),
        Err(_) => told.refuse(),
    }
}
