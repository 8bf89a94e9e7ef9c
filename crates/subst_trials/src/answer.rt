//! What a line of the table asks for.
use crate::held::{put_apart, put_called, put_initial, put_taken};
use crate::parts::{put_forms, put_full, put_parts};
use crate::rule::tells;
use crate::trial::{Call, Trial};
use crate::widest::put_widest;
use std::alloc::Global;

/// The calls that stand side by side where a value is added to one that is held.
const ADDING: [Call; 4] = [
    Call::Append,
    Call::Prepend,
    Call::AppendUnique,
    Call::SetDefault,
];

/// Does what a line asks for, and tells what it gives.
pub(crate) fn answer(trial: &mut Trial, line: &str) {
    let Some((verb, field)) = line.split_once('|') else {
        return trial.told.refuse();
    };
    match unescaped(trial.alloc, field) {
        Some(text) => put_answer(trial, verb, field, text.as_str()),
        None => trial.told.refuse(),
    }
}

/// The same of a verb, and of a field with its escapes and without them.
fn put_answer(trial: &mut Trial, verb: &str, field: &str, text: &str) {
    match verb {
        "block" => {
            trial.told.put_all(&["# ", field, "\n"]);
            trial.begin();
        }
        "set" => trial.change(Call::Set, text),
        "given" => trial.change(Call::SetGiven, text),
        "overlay" => trial.change(Call::Overlay, text),
        "chain" => set_chain(trial, text),
        "added" => put_called(trial, &ADDING, text),
        "named" => put_called(trial, &[Call::Set], text),
        "default" => put_called(trial, &[Call::SetDefault], text),
        "taken" => put_taken(trial, text),
        "initial" => put_initial(trial, text),
        "apart" => put_apart(trial),
        _ => put_line(trial, verb, field, text),
    }
}

/// Tells what a verb gives that tells one line, behind its name or its field, or does what one says that tells none.
fn put_line(trial: &mut Trial, verb: &str, field: &str, text: &str) {
    if tells(trial, verb, text) {
        return;
    }
    trial.told.put(name_of(verb, field));
    put_given(trial, verb, text);
    trial.told.put("|\n");
}

fn name_of<'a>(verb: &'a str, field: &'a str) -> &'a str {
    match verb {
        "libs" => "LIBS",
        "full" | "widest" => verb,
        _ => field,
    }
}

fn put_given(trial: &mut Trial, verb: &str, text: &str) {
    match verb {
        "subst" => trial.put_forms(text),
        "many" => put_many(trial, text),
        "dirs" => trial.put_dirs(text),
        "libs" => trial.put_libs(),
        "lines" => trial.put_lines(text),
        "command" => trial.put_command(text),
        "path" => trial.put_path(text),
        "parts" => put_parts(&mut trial.told, text),
        "pieces" => put_forms(trial.alloc, &mut trial.told, text),
        "full" => put_full(trial.alloc, &mut trial.told),
        "widest" => put_widest(trial),
        _ => trial.told.refuse(),
    }
}

/// Each of so many variables refers to the next one, and the last one is `end`.
fn set_chain(trial: &mut Trial, text: &str) {
    let Ok(count) = text.parse::<u32>() else {
        return trial.told.refuse();
    };
    for i in 0..count {
        set_link(trial, i, i.saturating_add(1));
    }
    match format!(in trial.alloc; "V{count}") {
        Ok(last) => trial.change_to(Call::Set, last.as_str(), "'end'"),
        Err(_) => trial.told.refuse(),
    }
}

/// The variable of a number refers to that of the next one.
fn set_link(trial: &mut Trial, number: u32, next: u32) {
    match format!(in trial.alloc; "V{number}|'$V{next}'") {
        Ok(text) => trial.change(Call::Set, text.as_str()),
        Err(_) => trial.told.refuse(),
    }
}

/// A text without its escapes.
fn unescaped(alloc: Global, field: &str) -> Option<String> {
    let mut text = String::new(alloc);
    let mut is_escaped = false;
    for character in field.chars() {
        if character == '\\' {
            is_escaped = true;
            continue;
        }
        let meant = if is_escaped {
            meant_by(character)
        } else {
            character
        };
        if text.push(meant).is_err() {
            return None;
        }
        is_escaped = false;
    }
    Some(text)
}

/// What a character stands for behind a `\`.
fn meant_by(character: char) -> char {
    match character {
        't' => '\t',
        'n' => '\n',
        's' => ' ',
        'z' => '\0',
        'v' => '\u{b}',
        'f' => '\u{c}',
        'r' => '\r',
        other => other,
    }
}

/// The forms of a text so many times and another one behind.
fn put_many(trial: &mut Trial, text: &str) {
    match many_of(trial.alloc, text) {
        Some(text) => trial.put_forms(text.as_str()),
        None => trial.told.refuse(),
    }
}

fn many_of(alloc: Global, text: &str) -> Option<String> {
    let (count, parts) = text.split_once('|')?;
    let (part, behind) = parts.split_once('|')?;
    let Ok(count) = count.parse::<usize>() else {
        return None;
    };
    let Ok(mut text) = part.repeat(alloc, count) else {
        return None;
    };
    match text.push_str(behind) {
        Ok(()) => Some(text),
        Err(_) => None,
    }
}
