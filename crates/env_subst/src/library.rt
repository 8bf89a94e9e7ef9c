//! The libraries and the search paths that variables hold.
ghost use Rattle.std.specs.Prelude.{◌≡◌, ◌≢◌, ◌<◌, ◌++◌, ℕ, List, Ok, Err, OnOk, length, IfOk, IfErr, MatchResult};
ghost use Rattle.variant_dirs.specs.Variants.{AreSpelled};
ghost use Rattle.env_subst.specs.Settings.{setting, setting_of};
ghost use Rattle.env_subst.specs.Expansions.{start};
ghost use Rattle.env_subst.specs.Entries.{items_of, more_items, lib_items, behind, entry_dirs, dirs_of, search_path};
ghost use Rattle.env_subst.specs.Frames.{entries_left, PutsDirs};

use crate::calls::dirs_named;
use crate::entries::{Entries, EntryStep, entries_of, step};
use crate::fault::SubstFault;
use crate::locals::Locals;
use crate::setting::Setting;
use env_vars::Envs;
use scons_base::{EnvId, Listing, Memory, PathText, Paths, Text};
use std::alloc::Global;

/// An item of `LIBS`: a name that is looked for, or a node.
#[derive(Debug, Drop)]
pub enum LibItem {
    Name(Text),
    Node(PathText),
}

/// The items of `LIBS`: each text as it reads, with the items of a variable in place of its name alone, and without those
/// that stand for nothing.
pub fn lib_names(
    alloc: Global,
    envs: &Envs,
    env: EnvId,
    locals: &Locals,
) -> Result<Listing<LibItem>, SubstFault>
    requires { env.0 < length envs.now }
    ensures items { IfOk result (λ l. lib_items (setting envs.now env.0 locals.now) ≡ Ok l) }
    ensures fault { IfErr result (λ e. e ≢ SubstFault.Memory
        → lib_items (setting envs.now env.0 locals.now) ≡ Err e) }
{
    let setting = Setting {
        alloc,
        envs,
        env,
        locals,
    };
    let mut entries = entries_of(&setting, "LIBS")?;
    let mut items = Listing::empty(alloc);
    push_names(&setting, &mut entries, &mut items)?;
    Ok(items)
}

/// Puts the entries that are left behind the items.
fn push_names<'a>(
    setting: &Setting<'a>,
    entries: &mut Entries<'a>,
    items: &mut Listing<LibItem>,
) -> Result<(), SubstFault>
    ensures { let w = setting_of setting.now in let more = items_of (entries_left w entries.old) in
        MatchResult result (λ _. more_items items.old more ≡ Ok items.new) (λ e. e ≢ SubstFault.Memory → more ≡ Err e) }
{
    'entries: for _ in 0..u64::MAX {
        match step(setting, entries)? {
            EntryStep::Over => return Ok(()),
            EntryStep::Goes => {}
            EntryStep::Gives(item) => items.push(item)?,
        }
    }
    Err(SubstFault::Memory)
}

/// The search path that a variable holds, as directories, each in its one spelling.
pub fn dirs(
    alloc: Global,
    envs: &Envs,
    env: EnvId,
    name: &str,
    locals: &Locals,
) -> Result<Paths, SubstFault>
    requires { env.0 < length envs.now }
    ensures dirs { IfOk result (λ p. search_path (setting envs.now env.0 locals.now) name.now ≡ Ok p) }
    ensures fault { IfErr result (λ e. e ≢ SubstFault.Memory
        → search_path (setting envs.now env.0 locals.now) name.now ≡ Err e) }
    ensures spelled { IfOk result (AreSpelled locals.now.top) }
{
    let setting = Setting {
        alloc,
        envs,
        env,
        locals,
    };
    let mut entries = entries_of(&setting, name)?;
    let mut found = Paths::new(Vec::new(alloc));
    push_dirs(&setting, &mut entries, &mut found)?;
    Ok(found)
}

/// Puts the directories of the entries that are left behind others.
fn push_dirs<'a>(
    setting: &Setting<'a>,
    entries: &mut Entries<'a>,
    found: &mut Paths,
) -> Result<(), SubstFault>
    ensures spelled { let top = setting.now.locals.now.top in
        AreSpelled top found.old → OnOk result (AreSpelled top found.new) }
    ensures dirs { let w = setting_of setting.now in let more = dirs_of w (entries_left w entries.old) in
        MatchResult result (λ _. behind found.old more ≡ Ok found.new) (λ e. e ≢ SubstFault.Memory → more ≡ Err e) }
{
    'entries: for _ in 0..u64::MAX {
        match step(setting, entries)? {
            EntryStep::Over => return Ok(()),
            EntryStep::Goes => {}
            EntryStep::Gives(item) => put_dirs(setting, found, item)?,
        }
    }
    Err(SubstFault::Memory)
}

/// Puts the directories of an entry behind others.
#[tactic(auto, using(crate::proofs::Spelled::all_spelled))]
fn put_dirs(setting: &Setting<'_>, found: &mut Paths, entry: LibItem) -> Result<(), SubstFault>
    ensures dirs { PutsDirs (setting_of setting.now) entry found.old found.new result }
    ensures spelled { let top = setting.now.locals.now.top in
        AreSpelled top found.old → OnOk result (AreSpelled top found.new) }
{
    let dirs = dirs_at(setting, entry)?;
    push_all(found, dirs.as_slice())?;
    Ok(())
}

/// The directories of an entry.
fn dirs_at(setting: &Setting<'_>, entry: LibItem) -> Result<Paths, SubstFault>
    ensures spelled { IfOk result (AreSpelled setting.now.locals.now.top) }
    ensures dirs { MatchResult result (λ p. entry_dirs (setting_of setting.now) entry ≡ Ok (p, start))
        (λ e. e ≢ SubstFault.Memory → entry_dirs (setting_of setting.now) entry ≡ Err e) }
{
    match entry {
        LibItem::Name(text) => dirs_named(setting, text.as_str()),
        LibItem::Node(path) => Ok(
            setting
                .locals
                .variants
                .searched(&setting.locals.top, &path)?,
        ),
    }
}

/// Puts copies of paths behind others.
fn push_all(found: &mut Paths, more: &[PathText]) -> Result<(), Memory>
    ensures { OnOk result (found.new ≡ found.old ++ more.now) }
{
    for path in more {
        found.push(path.copy()?)?;
    }
    Ok(())
}
