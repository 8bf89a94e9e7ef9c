//! The libraries that a program names.
ghost use Rattle.std.specs.Prelude.{◌≡◌, ◌≢◌, ◌++◌, true, Ok, Err, None, IfOk, IfErr, OnOk, map};
ghost use Rattle.scons_decls.specs.State.{declared_of};
ghost use Rattle.scons_rules.specs.Expanding.{expanding};
ghost use Rattle.scons_rules.specs.Libraries as spec;

use crate::fault::RuleReadFault;
use crate::one_rule::OneRule;
use crate::shell::{refuse_for_shell, refuse_path_for_shell};
use crate::sources::{is_copied, settled};
use env_subst::LibItem;
use scons_base::{Listing, Memory, PathFault, PathText, Text};
use scons_decls::Declarations;
use std::alloc::Global;

/// A file that would be a library.
#[derive(Drop)]
pub struct AskedFile {
    pub file: PathText,
    pub library: PathText,
}

/// One library that a rule names: that of the first asked file that is there, else the known one, if there is one.
#[derive(Drop)]
pub struct Wanted {
    pub asked: Listing<AskedFile>,
    pub known: Option<PathText>,
}

/// The libraries of a program's environment.
pub(crate) fn wanted_by(rule: &OneRule<'_>) -> Result<Listing<Wanted>, RuleReadFault>
    ensures ok { IfOk result (λ w. (f : spec.Files)
        → spec.libraries f (expanding rule.now) ≡ Ok (map (spec.found_in f) w)) }
    ensures fault { IfErr result (λ e. e ≢ RuleReadFault.Memory → (f : spec.Files)
        → spec.libraries f (expanding rule.now) ≡ Err e) }
{
    let names = rule.lib_names()?;
    let dirs = rule.lib_dirs()?;
    refuse_for_shell(dirs.as_slice())?;
    wanted_all(rule, dirs.as_slice(), names.as_slice())
}

fn wanted_all(
    rule: &OneRule<'_>,
    dirs: &[PathText],
    items: &[LibItem],
) -> Result<Listing<Wanted>, RuleReadFault>
    ensures ok { IfOk result (λ w. (f : spec.Files)
        → spec.each_library f (expanding rule.now) dirs.now items.now ≡ Ok (map (spec.found_in f) w)) }
    ensures fault { IfErr result (λ e. e ≢ RuleReadFault.Memory → (f : spec.Files)
        → spec.each_library f (expanding rule.now) dirs.now items.now ≡ Err e) }
{
    let mut wanted = Listing::empty(rule.alloc);
    for item in items {
        wanted.push(wanted_one(rule, dirs, item)?)?;
    }
    Ok(wanted)
}

fn wanted_one(
    rule: &OneRule<'_>,
    dirs: &[PathText],
    item: &LibItem,
) -> Result<Wanted, RuleReadFault>
    ensures ok { IfOk result (λ w. (f : spec.Files)
        → spec.library f (expanding rule.now) dirs.now item.now ≡ Ok (spec.found_in f w)) }
    ensures fault { IfErr result (λ e. e ≢ RuleReadFault.Memory → (f : spec.Files)
        → spec.library f (expanding rule.now) dirs.now item.now ≡ Err e) }
{
    match item {
        LibItem::Node(path) => library_file(rule, path),
        LibItem::Name(name) => {
            let file = file_name(rule, name)?;
            Ok(candidates(rule.alloc, rule.state, dirs, file.as_str())?)
        }
    }
}

/// A library that is named by its file, which stands in the line.
fn library_file(rule: &OneRule<'_>, path: &PathText) -> Result<Wanted, RuleReadFault>
    ensures ok { IfOk result (λ w. (f : spec.Files)
        → spec.library_file (declared_of rule.now.state.now) path.now ≡ Ok (spec.found_in f w)) }
    ensures fault { IfErr result (λ e. e ≢ RuleReadFault.Memory
        → spec.library_file (declared_of rule.now.state.now) path.now ≡ Err e) }
{
    let file = settled(rule.state, path)?;
    refuse_path_for_shell(&file)?;
    Ok(Wanted {
        asked: Listing::empty(rule.alloc),
        known: Some(file),
    })
}

/// The name of a library's file: prefix, name and suffix.
fn file_name(rule: &OneRule<'_>, name: &Text) -> Result<Text, RuleReadFault>
    ensures ok { IfOk result (λ t. spec.file_name (expanding rule.now) name.now ≡ Ok t) }
    ensures fault { IfErr result (λ e. e ≢ RuleReadFault.Memory
        → spec.file_name (expanding rule.now) name.now ≡ Err e) }
{
    let prefix = rule.text("$LIBPREFIX")?;
    let suffix = rule.text("$LIBSUFFIX")?;
    Ok(joined(prefix, name, &suffix)?)
}

fn joined(prefix: Text, name: &Text, suffix: &Text) -> Result<Text, Memory>
    ensures { IfOk result (λ t. t ≡ prefix ++ name.now ++ suffix.now) }
{
    let mut text = prefix.into_string();
    text.push_str(name.as_str())?;
    text.push_str(suffix.as_str())?;
    Ok(Text::new(text))
}

/// The places of a file, up to the first that is known without a look.
fn candidates(
    alloc: Global,
    state: &Declarations,
    dirs: &[PathText],
    file: &str,
) -> Result<Wanted, Memory>
    ensures { IfOk result (λ w. (f : spec.Files)
        → spec.found_in f w ≡ spec.found_among f (declared_of state.now) file.now dirs.now) }
{
    let mut wanted = Wanted {
        asked: Listing::empty(alloc),
        known: None,
    };
    for dir in dirs {
        ask_in(alloc, state, &mut wanted, dir, file)?;
        if wanted.known.is_some() {
            return Ok(wanted);
        }
    }
    Ok(wanted)
}

/// Asks for a file in a directory, if there may be one.
fn ask_in(
    alloc: Global,
    state: &Declarations,
    wanted: &mut Wanted,
    dir: &PathText,
    file: &str,
) -> Result<(), Memory>
    requires { wanted.old.known ≡ None }
    ensures { OnOk result ((f : spec.Files) → spec.found_in f wanted.new ≡ spec.or_place f (declared_of state.now)
        (spec.found_in f wanted.old) (spec.place_in (declared_of state.now) file.now dir.now)) }
{
    match place_in(alloc, state, dir, file)? {
        Some(path) => ask(state, wanted, path),
        None => Ok(()),
    }
}

/// The path of a file in a directory, if there may be one.
fn place_in(
    alloc: Global,
    state: &Declarations,
    dir: &PathText,
    file: &str,
) -> Result<Option<PathText>, Memory>
    ensures { IfOk result (λ p. p ≡ spec.place_in (declared_of state.now) file.now dir.now) }
{
    match PathText::resolve(alloc, &state.locals.top, dir, file) {
        Ok(path) => Ok(Some(path)),
        Err(PathFault::Memory) => Err(Memory),
        Err(_) => Ok(None),
    }
}

/// Asks for a place of a library, unless it is known without a look.
fn ask(state: &Declarations, wanted: &mut Wanted, path: PathText) -> Result<(), Memory>
    requires { wanted.old.known ≡ None }
    ensures { OnOk result ((f : spec.Files) → spec.found_in f wanted.new
        ≡ spec.or_at (spec.found_in f wanted.old) (spec.is_known f (declared_of state.now) path) path) }
{
    if state.made.contains(&path) {
        know(wanted, path);
        return Ok(());
    }
    ask_file(wanted, path.copy()?, path.copy()?)?;
    match copied_from(state, &path)? {
        Some(source) => ask_source(state, wanted, source, path),
        None => Ok(()),
    }
}

/// The source that would be copied to a path, in a variant directory with copies.
fn copied_from(state: &Declarations, path: &PathText) -> Result<Option<PathText>, Memory>
    ensures { IfOk result (λ p. p ≡ spec.copied_from (declared_of state.now) path.now) }
{
    if !is_copied(state, path) {
        return Ok(None);
    }
    state.locals.variants.source_of(&state.locals.top, path)
}

/// Asks for the source of a library. One that is a target makes the library known. A copy is never copied further.
fn ask_source(
    state: &Declarations,
    wanted: &mut Wanted,
    source: PathText,
    library: PathText,
) -> Result<(), Memory>
    requires { wanted.old.known ≡ None }
    ensures { OnOk result ((f : spec.Files) → spec.found_in f wanted.new
        ≡ spec.or_at (spec.found_in f wanted.old) (spec.is_source f (declared_of state.now) source) library) }
{
    if state.made.contains(&source) {
        know(wanted, library);
        return Ok(());
    }
    if is_copied(state, &source) {
        return Ok(());
    }
    ask_file(wanted, source, library)
}

/// A library that is known, unless an asked file stands.
fn know(wanted: &mut Wanted, library: PathText)
    requires { wanted.old.known ≡ None }
    ensures { (f : spec.Files) → spec.found_in f wanted.new ≡ spec.or_at (spec.found_in f wanted.old) true library }
{
    wanted.known = Some(library);
}

/// Asks for a file that would be a library.
fn ask_file(wanted: &mut Wanted, file: PathText, library: PathText) -> Result<(), Memory>
    requires { wanted.old.known ≡ None }
    ensures known { OnOk result (wanted.new.known ≡ None) }
    ensures found { OnOk result ((f : spec.Files) → spec.found_in f wanted.new
        ≡ spec.or_at (spec.found_in f wanted.old) (f.stands file) library) }
{
    wanted.asked.push(AskedFile { file, library })
}
