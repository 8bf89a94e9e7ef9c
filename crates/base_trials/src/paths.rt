//! What lines on paths ask for.
use crate::written::{path_of, text_of};
use scons_base::{PathFault, PathText};
use std::alloc::Global;
use trial_text::Told;

/// A path that is read, or how many bytes a long one has.
pub(crate) fn put_read(alloc: Global, told: &mut Told, field: &str) {
    told.put_all(&["read ", field, ": "]);
    match text_of(alloc, field) {
        Some(text) => put_path(told, &PathText::read(alloc, text.as_str())),
        None => told.refuse(),
    }
}

/// What a text names from a directory, where the top directory is the first field, and the one spelling of that.
pub(crate) fn put_resolved(alloc: Global, told: &mut Told, rest: &str) {
    let (top, fields) = rest.split_once('|').unwrap_or((rest, ""));
    let (dir, field) = fields.split_once('|').unwrap_or((fields, ""));
    told.put_all(&[field, " from ", dir, ": "]);
    match text_of(alloc, field) {
        Some(text) => put_named(alloc, told, top, dir, text.as_str()),
        None => told.refuse(),
    }
}

fn put_named(alloc: Global, told: &mut Told, top: &str, dir: &str, text: &str) {
    let Some(top) = path_of(alloc, top) else {
        return told.refuse();
    };
    let Some(dir) = path_of(alloc, dir) else {
        return told.refuse();
    };
    let answer = PathText::resolve(alloc, &top, &dir, text);
    put_path(told, &answer);
    if let Ok(path) = &answer {
        put_again(told, &top, path);
    }
}

fn put_again(told: &mut Told, top: &PathText, path: &PathText) {
    told.put(", again ");
    match path.spelled(top) {
        Ok(again) => put_text(told, again.as_str()),
        Err(_) => told.refuse(),
    }
}

/// The name, suffix, base and directory of a path.
pub(crate) fn put_parts(alloc: Global, told: &mut Told, field: &str) {
    match path_of(alloc, field) {
        Some(path) => told.put_all(&[
            field,
            "|",
            path.name(),
            "|",
            path.suffix(),
            "|",
            path.base(),
            "|",
            path.dir(),
        ]),
        None => told.refuse(),
    }
}

/// Whether a path lies below a directory, and the path in its place below `/src`.
pub(crate) fn put_below(alloc: Global, told: &mut Told, rest: &str) {
    let (field, dir) = rest.split_once('|').unwrap_or((rest, ""));
    told.put_all(&[field, " below ", dir, ": "]);
    let Some(path) = path_of(alloc, field) else {
        return told.refuse();
    };
    let Some(from) = path_of(alloc, dir) else {
        return told.refuse();
    };
    told.show(path.is_below(&from));
    put_moved(alloc, told, &path, &from);
}

fn put_moved(alloc: Global, told: &mut Told, path: &PathText, from: &PathText) {
    let Some(to) = path_of(alloc, "/src") else {
        return told.refuse();
    };
    match path.moved(from, &to) {
        Ok(Some(moved)) => told.put_all(&[", ", moved.as_str()]),
        Ok(None) => told.put(", none"),
        Err(_) => told.refuse(),
    }
}

fn put_path(told: &mut Told, answer: &Result<PathText, PathFault>) {
    match answer {
        Ok(path) => put_text(told, path.as_str()),
        Err(fault) => {
            told.put("!");
            told.show(fault);
        }
    }
}

/// A text, or how many bytes a long one has.
fn put_text(told: &mut Told, text: &str) {
    if text.len() > 200 {
        told.show(text.len());
        told.put(" bytes");
    } else {
        told.put(text);
    }
}
