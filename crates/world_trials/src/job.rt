//! The job of a row.
ghost use Rattle.std.specs.Prelude.{◌≡◌, ◌∷◌, [], IfSome};

use crate::fields::pair;
use scons_base::{Listing, PathText, Paths, Text, Texts};
use std::alloc::Global;
use trial_text::Told;
use world_api::{Job, Work};

/// A list of one path.
pub(crate) fn only(alloc: Global, path: &PathText) -> Option<Paths>
    ensures { IfSome result (λ paths. paths ≡ path.now ∷ []) }
{
    let Ok(path) = path.copy() else {
        return None;
    };
    match vec![in alloc; path] {
        Ok(paths) => Some(Paths::new(paths)),
        Err(_) => None,
    }
}

/// `DEPENDENCY SIGNED` for the shell. `write:DEPENDENCIES SIGNED` writes: the one stand between commas, the others between `|`.
pub(crate) fn job_of(alloc: Global, told: &mut Told, id: u32, targets: Paths, text: &str) -> Job
    ensures { result.targets ≡ targets }
{
    let (deps, signed) = pair(told, text);
    match deps.strip_prefix("write:") {
        Some(deps) => Job {
            id,
            work: Work::Write,
            targets,
            lines: Listing::empty(alloc),
            signed: Texts::new(texts_of(alloc, told, signed)),
            deps: Paths::new(paths_of(alloc, told, deps)),
        },
        None => Job {
            id,
            work: Work::Shell,
            targets,
            lines: Listing::empty(alloc),
            signed: Texts::new(signed_of(alloc, told, signed)),
            deps: Paths::new(deps_of(alloc, told, deps)),
        },
    }
}

fn signed_of(alloc: Global, told: &mut Told, line: &str) -> Vec<Text> {
    let mut signed = Vec::new(alloc);
    keep_text(alloc, told, &mut signed, line);
    signed
}

fn texts_of(alloc: Global, told: &mut Told, texts: &str) -> Vec<Text> {
    let mut signed = Vec::new(alloc);
    for text in texts.split('|') {
        keep_text(alloc, told, &mut signed, text);
    }
    signed
}

fn keep_text(alloc: Global, told: &mut Told, texts: &mut Vec<Text>, text: &str) {
    match Text::of(alloc, text) {
        Ok(text) => told.keep(texts, text),
        Err(_) => told.refuse(),
    }
}

fn deps_of(alloc: Global, told: &mut Told, path: &str) -> Vec<PathText> {
    let mut deps = Vec::new(alloc);
    keep_path(alloc, told, &mut deps, path);
    deps
}

fn paths_of(alloc: Global, told: &mut Told, paths: &str) -> Vec<PathText> {
    let mut deps = Vec::new(alloc);
    for path in paths.split(',') {
        if !path.is_empty() {
            keep_path(alloc, told, &mut deps, path);
        }
    }
    deps
}

fn keep_path(alloc: Global, told: &mut Told, deps: &mut Vec<PathText>, path: &str) {
    match PathText::read(alloc, path) {
        Ok(path) => told.keep(deps, path),
        Err(_) => told.refuse(),
    }
}
