//! How forms, lists of them and faults are told.
use env_subst::{LibItem, SubstFault};
use scons_base::{PathText, Text};
use trial_text::Told;

/// The length from which on a form shows only how many bytes it has.
const LONG: usize = 200;

/// A form behind a `|`.
pub(crate) fn put_form(told: &mut Told, form: &Result<String, SubstFault>) {
    match form {
        Ok(form) if form.len() >= LONG => {
            told.put("|");
            told.show(form.len());
            told.put(" bytes");
        }
        Ok(form) => put_text(told, form.as_str()),
        Err(fault) => put_fault(told, fault),
    }
}

/// A text behind a `|`, with escapes.
fn put_text(told: &mut Told, text: &str) {
    told.put("|");
    for character in text.chars() {
        match character {
            '\t' => told.put("\\t"),
            '\n' => told.put("\\n"),
            other => told.show(other),
        }
    }
}

/// A fault behind a `|`.
pub(crate) fn put_fault(told: &mut Told, fault: &SubstFault) {
    match fault {
        SubstFault::BadBrace { name, at } => put_place(told, "|!BadBrace [", name, *at),
        SubstFault::BadAttr { name, at } => put_place(told, "|!BadAttr [", name, *at),
        SubstFault::Marks(piece) => put_number(told, "|!Marks ", *piece as u64),
        SubstFault::TooLong(bytes) => put_number(told, "|!TooLong ", *bytes),
        SubstFault::TooMany(references) => put_number(told, "|!TooMany ", *references),
        SubstFault::BadPath(fault) => {
            told.put("|!BadPath: ");
            told.show(*fault);
        }
        SubstFault::Memory => told.put("|!Memory"),
    }
}

/// The name of a variable and a place in its value.
fn put_place(told: &mut Told, fault: &str, name: &Text, at: u64) {
    told.put_all(&[fault, name.as_str(), "] "]);
    told.show(at);
}

fn put_number(told: &mut Told, fault: &str, number: u64) {
    told.put(fault);
    told.show(number);
}

/// Each path behind a `|`.
pub(crate) fn put_paths(told: &mut Told, paths: &[PathText]) {
    for path in paths {
        put_text(told, path.as_str());
    }
}

/// Each text behind a `|`.
pub(crate) fn put_texts(told: &mut Told, texts: &[Text]) {
    for text in texts {
        put_text(told, text.as_str());
    }
}

/// Each library behind a `|`, a node in angle brackets.
pub(crate) fn put_libs(told: &mut Told, items: &[LibItem]) {
    for item in items {
        match item {
            LibItem::Name(name) => put_text(told, name.as_str()),
            LibItem::Node(path) => told.put_all(&["|<", path.as_str(), ">"]),
        }
    }
}
