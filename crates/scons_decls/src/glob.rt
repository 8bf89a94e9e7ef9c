//! Glob: the files and targets of one directory whose names fit a pattern.
ghost use Rattle.std.specs.Prelude.{◌≡◌, ◌≢◌, ◌<◌, ◌≤◌, ◌-◌, [], length, slice_index, Ok, Err, IfOk, IfErr, OnOk, option_copied, unwrap_or};
ghost use Rattle.std.specs.List.{filter_map};
ghost use Rattle.std.specs.Option.{option_to_list};
ghost use Rattle.std.specs.Str.{bytes_eq, IsCharBoundary};
ghost use Rattle.indexmap.specs.IndexSet.{insert_all};
ghost use Rattle.scons_base.specs.Normal.{slash};
ghost use Rattle.scons_base.specs.Parts.{behind_last, dir_of, name_of};
ghost use Rattle.scons_decls.specs.Globs as spec;
ghost use Rattle.scons_decls.specs.State.{declared_of};

use crate::declarations::Declarations;
use crate::expand::{as_nodes, bad_argument, expanded, path_at};
use crate::fault::NameFault;
use crate::given::Nodes;
use crate::pattern::{Pattern, has_wildcard};
use crate::targets::Targets;
use env_subst::Mode;
use indexmap::IndexSet;
use scons_base::{EnvId, Memory, PathText, Paths, Text};
use std::alloc::Global;

/// What a pattern looks for: names that fit, in one directory.
#[derive(Drop)]
pub(crate) struct Search {
    dir: PathText,
    pattern: Pattern,
}

impl Declarations {
    /// The directories whose files `glob` is to be given: the pattern's own and, in a variant directory, its source. In a
    /// variant directory with copies it is the source alone, since a copy whose source is gone counts for nothing.
    pub fn glob_dirs(&self, env: EnvId, pattern: &Text) -> Result<Paths, NameFault>
        ensures ok { IfOk result (λ dirs. spec.glob_dirs (declared_of self.now) env.0 pattern.now ≡ Ok dirs) }
        ensures fault { IfErr result (λ e. e ≢ NameFault.Memory
            → spec.glob_dirs (declared_of self.now) env.0 pattern.now ≡ Err e) }
    {
        let search = search_of(self, env, pattern)?;
        let source = source_of(self, &search.dir)?;
        let copied = self.is_copied(&search.dir);
        Ok(dirs_with(self.alloc, search.dir, source, copied)?)
    }

    /// The files of a directory and the targets declared so far there whose names fit, in byte order. In a variant
    /// directory the files and targets of its source count too, and are named on the variant side.
    pub fn glob(&self, env: EnvId, pattern: &Text, files: &Paths) -> Result<Nodes, NameFault>
        ensures ok { IfOk result (spec.IsGlobbed (declared_of self.now) env.0 pattern.now files.now) }
        ensures fault { IfErr result (λ e. e ≢ NameFault.Memory
            → spec.search_of (declared_of self.now) env.0 pattern.now ≡ Err e) }
    {
        let search = search_of(self, env, pattern)?;
        let source = source_of(self, &search.dir)?;
        let mut paths = meant_by(self, &search, source.as_ref(), files)?;
        paths.sort()?;
        as_nodes(self, paths.as_slice())
    }
}

fn search_of(state: &Declarations, env: EnvId, pattern: &Text) -> Result<Search, NameFault>
    ensures ok { IfOk result (λ s. spec.search_of (declared_of state.now) env.0 pattern.now ≡ Ok s) }
    ensures fault { IfErr result (λ e. e ≢ NameFault.Memory
        → spec.search_of (declared_of state.now) env.0 pattern.now ≡ Err e) }
{
    let text = expanded(state, env, pattern.as_str(), Mode::Text)?;
    search_at(state, text.as_str())
}

/// What an expanded text looks for.
fn search_at(state: &Declarations, text: &str) -> Result<Search, NameFault>
    ensures ok { IfOk result (λ s. spec.search_at (declared_of state.now) text.now ≡ Ok s) }
    ensures fault { IfErr result (λ e. e ≢ NameFault.Memory
        → spec.search_at (declared_of state.now) text.now ≡ Err e) }
{
    let (dir, name) = (front(text), last(text));
    if has_wildcard(dir) || name.is_empty() {
        return Err(bad_argument(state, "Glob"));
    }
    let dir = path_at(state, dir)?;
    let pattern = Pattern::read(state.alloc, name)?;
    Ok(Search { dir, pattern })
}

/// The directory part of a text.
fn front(text: &str) -> &str
    ensures { result.now ≡ dir_of text.now }
{
    match behind_slash(text) {
        0 => ".",
        1 => "/",
        behind => &text[..behind - 1],
    }
}

/// Its last part.
fn last(text: &str) -> &str
    ensures { result.now ≡ name_of text.now }
{
    &text[behind_slash(text)..]
}

/// The place behind the last slash, 0 where there is none.
fn behind_slash(text: &str) -> usize
    ensures place { result ≡ behind_last slash text.now }
    ensures bound { result ≤ length text.now }
    ensures found { 0 < result → slice_index text.now (result - 1) ≡ slash }
    ensures boundary { IsCharBoundary text.now result }
{
    let bytes = text.as_bytes();
    let mut behind = bytes.len();
    while behind > 0 && bytes[behind - 1] != b'/' {
        behind -= 1;
    }
    behind
}

/// The source of a directory, where that lies in no variant directory itself.
fn source_of(state: &Declarations, dir: &PathText) -> Result<Option<PathText>, Memory>
    ensures { IfOk result (λ s. s ≡ spec.source_of (declared_of state.now) dir.now) }
{
    let variants = &state.locals.variants;
    match variants.source_of(&state.locals.top, dir)? {
        Some(source) => match variants.variant_of(&source) {
            Some(_) => Ok(None),
            None => Ok(Some(source)),
        },
        None => Ok(None),
    }
}

fn dirs_with(
    alloc: Global,
    dir: PathText,
    source: Option<PathText>,
    copied: bool,
) -> Result<Paths, Memory>
    ensures { IfOk result (λ dirs. dirs ≡ spec.dirs_with dir source copied) }
{
    let mut dirs = Paths::new(Vec::new(alloc));
    match source {
        Some(source) if copied => dirs.push(source)?,
        Some(source) => {
            dirs.push(source)?;
            dirs.push(dir)?;
        }
        None => dirs.push(dir)?,
    }
    Ok(dirs)
}

/// The paths that are meant, each once: of targets in the directory and in its source, and of files.
fn meant_by(
    state: &Declarations,
    search: &Search,
    source: Option<&PathText>,
    files: &Paths,
) -> Result<IndexSet<PathText>, Memory>
    ensures { IfOk result (λ paths. paths.keys ≡ insert_all bytes_eq []
        (spec.meant_by (declared_of state.now) search.now (option_copied source.entry) files.now)) }
{
    let alloc = state.alloc;
    let here = state.made.in_dir(&search.dir);
    let beside = targets_beside(state, source);
    let mut paths = IndexSet::new(alloc);
    add_targets(alloc, search, source, here, &mut paths)?;
    add_targets(alloc, search, source, beside, &mut paths)?;
    add_found(alloc, search, source, files.as_slice(), &mut paths)?;
    Ok(paths)
}

/// The targets in the source of a directory.
fn targets_beside<'a>(state: &'a Declarations, source: Option<&PathText>) -> Option<&'a Targets>
    ensures { unwrap_or (option_copied result) [] ≡ spec.targets_beside (declared_of state.now) (option_copied source.entry) }
{
    match source {
        Some(source) => state.made.in_dir(source),
        None => None,
    }
}

fn add_targets(
    alloc: Global,
    search: &Search,
    source: Option<&PathText>,
    targets: Option<&Targets>,
    paths: &mut IndexSet<PathText>,
) -> Result<(), Memory>
    ensures { OnOk result (paths.new.keys ≡ insert_all bytes_eq paths.old.keys
        (filter_map (spec.found search.now (option_copied source.entry)) (unwrap_or (option_copied targets.entry) []))) }
{
    match targets {
        Some(targets) => add_found(alloc, search, source, targets.as_slice(), paths),
        None => Ok(()),
    }
}

/// Adds what is found of some paths.
fn add_found(
    alloc: Global,
    search: &Search,
    source: Option<&PathText>,
    some: &[PathText],
    paths: &mut IndexSet<PathText>,
) -> Result<(), Memory>
    ensures { OnOk result (paths.new.keys ≡ insert_all bytes_eq paths.old.keys
        (filter_map (spec.found search.now (option_copied source.entry)) some.now)) }
{
    for path in some {
        let found = found(alloc, search, source, path)?;
        add(paths, found)?;
    }
    Ok(())
}

fn add(paths: &mut IndexSet<PathText>, path: Option<PathText>) -> Result<(), Memory>
    ensures { OnOk result (paths.new.keys ≡ insert_all bytes_eq paths.old.keys (option_to_list path)) }
{
    if let Some(path) = path {
        paths.insert(path)?;
    }
    Ok(())
}

/// A path of the directory whose name fits as it is, and one of its source as it is named in the directory.
fn found(
    alloc: Global,
    search: &Search,
    source: Option<&PathText>,
    path: &PathText,
) -> Result<Option<PathText>, Memory>
    ensures { IfOk result (λ p. p ≡ spec.found search.now (option_copied source.entry) path.now) }
{
    if !search.pattern.fits(alloc, path.name())? {
        return Ok(None);
    }
    named_in(&search.dir, source, path)
}

fn named_in(
    dir: &PathText,
    source: Option<&PathText>,
    path: &PathText,
) -> Result<Option<PathText>, Memory>
    ensures { IfOk result (λ p. p ≡ spec.named_in dir.now (option_copied source.entry) path.now) }
{
    if path.dir() == dir.as_str() {
        return Ok(Some(path.copy()?));
    }
    match source {
        Some(source) if path.dir() == source.as_str() => path.moved(source, dir),
        _ => Ok(None),
    }
}
