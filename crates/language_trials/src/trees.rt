//! Scripts and their trees: each row of the table, and below it its tree, or the line of the first token that it can't have, the
//! token's number from 0, and why; where it has no tokens the line of that fault, and why.
//!
//! A script begins behind `>>> ` and goes on behind `... `; no line feed ends its last line. A heading `=== ` has a script or
//! tokens made. A line that begins with `#` names the rows below it.
//!
//! The trees are those that `ast` of CPython 3.11 has, which keeps no parentheses and no comma at the end. Python refuses a
//! script that has a fault here, or means something else by it.
use crate::made::{blocks, repeated, tokens_of};
use crate::width::width;
use py_lex::{LexFault, lex};
use py_parse::{ParseFault, ParseKind, parse};
use py_token::Tokens;
use py_tree::Script;
use std::alloc::{AllocError, Global};
use trial_text::Told;

/// What is told of a tree.
#[derive(Clone, Copy)]
enum Shows {
    Tree,
    /// That it is one.
    Presence,
    Width,
}

/// Tells each row, and behind it what it gives.
pub fn put_trees(alloc: Global, told: &mut Told, rows: &str) {
    let mut row = String::new(alloc);
    for line in rows.lines() {
        let (before, text) = match behind(line, "...") {
            Some(text) => ("\n", text),
            None => {
                put_row(alloc, told, row.as_str());
                row.clear();
                ("", line)
            }
        };
        if row.push_str(before).is_err() || row.push_str(text).is_err() {
            told.refuse();
        }
        told.put_all(&[line, "\n"]);
    }
    put_row(alloc, told, row.as_str());
}

/// What a row gives, in a line of its own.
fn put_row(alloc: Global, told: &mut Told, row: &str) {
    if row.is_empty() || row.starts_with('#') {
        return;
    }
    match behind(row, ">>>") {
        Some(script) => put_script(alloc, told, script, Shows::Tree),
        None => put_made(alloc, told, row),
    }
    told.put("\n");
    told.end(row);
}

/// The text behind a prompt, which only an empty text may follow at once.
fn behind<'a>(line: &'a str, prompt: &str) -> Option<&'a str> {
    let text = line.strip_prefix(prompt)?;
    Some(text.strip_prefix(' ').unwrap_or(text))
}

/// What a heading gives: a verb and its fields, with `|` before each. `nested` and `wide` join their fields to a script, and tell
/// whether it has a tree, or also of how many parts; `blocks` tells the former of blocks one in another; `tokens` has tokens that no
/// lexer made.
fn put_made(alloc: Global, told: &mut Told, head: &str) {
    let (verb, fields) = head.split_once('|').unwrap_or((head, ""));
    match verb {
        "=== nested" => put_joined(alloc, told, repeated(alloc, fields), Shows::Presence),
        "=== blocks" => put_joined(alloc, told, blocks(alloc, fields), Shows::Presence),
        "=== wide" => put_joined(alloc, told, repeated(alloc, fields), Shows::Width),
        "=== tokens" => put_tokens(alloc, told, fields),
        _ => told.refuse(),
    }
}

fn put_joined(alloc: Global, told: &mut Told, script: Option<String>, shows: Shows) {
    match script {
        Some(script) => put_script(alloc, told, script.as_str(), shows),
        None => told.refuse(),
    }
}

fn put_tokens(alloc: Global, told: &mut Told, fields: &str) {
    match tokens_of(alloc, fields) {
        Some(tokens) => put_tree(alloc, told, &tokens, Shows::Tree),
        None => told.refuse(),
    }
}

fn put_script(alloc: Global, told: &mut Told, script: &str, shows: Shows) {
    match lex(alloc, script.as_bytes()) {
        Ok(tokens) => put_tree(alloc, told, &tokens, shows),
        Err(LexFault::At { line, kind }) => {
            told.show(line);
            told.show(format_args!(" {kind:?}"));
        }
        Err(LexFault::Memory) => told.refuse(),
    }
}

/// Tells of the tree of tokens, or of their fault.
fn put_tree(alloc: Global, told: &mut Told, tokens: &Tokens, shows: Shows) {
    match parse(alloc, tokens) {
        Ok(script) => put_shown(alloc, told, &script, shows),
        Err(ParseFault::At { line, token, kind }) => {
            told.show(line);
            told.put(" ");
            told.show(token);
            put_why(told, kind);
        }
        Err(ParseFault::Memory) => told.refuse(),
    }
}

fn put_why(told: &mut Told, kind: ParseKind) {
    match kind {
        ParseKind::OutOfSubset(unsupported) => told.put_all(&[" OutOfSubset ", unsupported.word()]),
        kind => told.show(format_args!(" {kind:?}")),
    }
}

fn put_shown(alloc: Global, told: &mut Told, script: &Script, shows: Shows) {
    match shows {
        Shows::Tree => put_compact(alloc, told, script),
        Shows::Presence => told.put("tree"),
        Shows::Width => {
            told.put("tree of ");
            told.show(width(script));
            told.put(" parts");
        }
    }
}

/// What `Debug` writes, without blanks and without the names of fields.
fn put_compact(alloc: Global, told: &mut Told, script: &Script) {
    match bare(alloc, script) {
        Ok(text) => {
            for word in text.as_str().split_whitespace() {
                if !word.ends_with(':') {
                    told.put(word);
                }
            }
        }
        Err(_) => told.refuse(),
    }
}

/// What `Debug` writes, with each text as itself.
fn bare(alloc: Global, script: &Script) -> Result<String, AllocError> {
    let debug = format!(in alloc; "{script:?}")?;
    let opened = debug.as_str().replace(alloc, "Text { text: \"", "\"")?;
    opened.as_str().replace(alloc, "\" }", "\"")
}
