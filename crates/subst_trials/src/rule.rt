//! What a rule knows.
use crate::trial::Trial;
use env_subst::{Locals, Named};
use scons_base::{PathText, Text};
use std::alloc::Global;
use variant_dirs::Variants;

/// A rule at the top with no targets and no sources.
pub(crate) fn plain_rule(alloc: Global) -> Option<Locals> {
    let smartlink = Text::of(alloc, "$CC").ok()?;
    let dir = path(alloc, ".")?;
    let top = path(alloc, "/top")?;
    Some(Locals {
        targets: Vec::new(alloc),
        sources: Vec::new(alloc),
        smartlink,
        dir,
        top,
        variants: Variants::new(alloc),
    })
}

/// Whether a line of the table tells something of the rule, which is so from then on.
pub(crate) fn tells(trial: &mut Trial, verb: &str, text: &str) -> bool {
    let alloc = trial.alloc;
    let locals = &mut trial.locals;
    let outcome = match verb {
        "target" => add(alloc, &mut locals.targets, text),
        "source" => add(alloc, &mut locals.sources, text),
        "smartlink" => set_text(alloc, &mut locals.smartlink, text),
        "dir" => set_path(alloc, &mut locals.dir, text),
        "top" => set_path(alloc, &mut locals.top, text),
        "variant" => add_variant(alloc, &mut locals.variants, text, false),
        "copied" => add_variant(alloc, &mut locals.variants, text, true),
        _ => return false,
    };
    if outcome.is_none() {
        trial.told.refuse();
    }
    true
}

fn add(alloc: Global, nodes: &mut Vec<Named>, text: &str) -> Option<()> {
    nodes.push(named(alloc, text)?).ok()
}

fn set_text(alloc: Global, place: &mut Text, text: &str) -> Option<()> {
    *place = Text::of(alloc, text).ok()?;
    Some(())
}

fn set_path(alloc: Global, place: &mut PathText, text: &str) -> Option<()> {
    *place = path(alloc, text)?;
    Some(())
}

fn add_variant(alloc: Global, variants: &mut Variants, text: &str, duplicate: bool) -> Option<()> {
    let named = named(alloc, text)?;
    variants.add(&named.path, &named.src, duplicate).ok()
}

/// A path and its source file or directory: the path itself, where none is given.
fn named(alloc: Global, text: &str) -> Option<Named> {
    let (file, source) = text.split_once('|').unwrap_or((text, text));
    Some(Named {
        path: path(alloc, file)?,
        src: path(alloc, source)?,
    })
}

fn path(alloc: Global, text: &str) -> Option<PathText> {
    PathText::read(alloc, text).ok()
}
