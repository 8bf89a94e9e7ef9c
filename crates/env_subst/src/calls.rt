//! Calls of `_concat`.
ghost use Rattle.std.specs.Prelude.{◌≡◌, ◌≢◌, ◌<◌, ◌+◌, ◌^◌, ⊤, [], ◌∷◌, Ok, Err, OnOk, IfErr, MatchOption, MatchResult, IfOk, drop};
ghost use Rattle.variant_dirs.specs.Variants.{AreSpelled};
ghost use Rattle.env_subst.specs.declared.locals.Locals.{Locals};
ghost use Rattle.env_subst.specs.Settings.{setting_of};
ghost use Rattle.env_subst.specs.Sayings.{sayings_of, first_and_rest};
ghost use Rattle.env_subst.specs.Expansions.{State, Names, dirs_named, affixed, puts_item, all_dirs, puts_found, known_item, node_item, item, items_all, calls};
ghost use Rattle.env_subst.specs.Desks.{items, dirs, expand, deeper_of, does, plain, tasks_of, names_after, Parted, CannotPart, Steps};

use crate::apart::put_apart;
use crate::content::said;
use crate::desk::{Desk, Stack, push, put};
use crate::fault::SubstFault;
use crate::reading::held_in;
use crate::saying::{First, Saying, Sayings, first_of, is_over};
use crate::setting::Setting;
use crate::task::{Call, Task};
use crate::variable_name::VariableName;
use env_pieces::Pieces;
use scons_base::{Memory, PathText, Paths, Text};
use std::alloc::Global;
use variant_dirs::VariantFault;

/// The items of a call.
pub(crate) fn call_items<'a>(
    setting: &Setting<'a>,
    desk: &mut Desk<'a>,
    call: Call,
) -> Result<(), SubstFault>
    ensures { Steps setting.now (λ w names. calls w (deeper_of w names) names call) desk.old desk.new result }
{
    let held = held_in(setting, &desk.names, &call.list)?;
    let call = begun(call, desk.pieces.room());
    more_items(setting, desk, call, said(held))
}

/// A call that begins where so many bytes may still come.
fn begun(call: Call, room: usize) -> Call
    ensures { result ≡ record { prefix = call.prefix; list = call.list; suffix = call.suffix; directories = call.directories; room = room } }
{
    Call {
        prefix: call.prefix,
        list: call.list,
        suffix: call.suffix,
        directories: call.directories,
        room,
    }
}

/// Further items of a call.
pub(crate) fn more_items<'a>(
    setting: &Setting<'a>,
    desk: &mut Desk<'a>,
    call: Call,
    sayings: Sayings<'a>,
) -> Result<(), SubstFault>
    ensures { Steps setting.now (λ w names. items_all w (deeper_of w names) names call (sayings_of w.locals sayings.entry)) desk.old desk.new result }
{
    match first_of(setting.alloc, setting.locals, sayings)? {
        Some(first) => put_items(setting, desk, call, first),
        None => Ok(()),
    }
}

/// An item, and then the others.
fn put_items<'a>(
    setting: &Setting<'a>,
    desk: &mut Desk<'a>,
    call: Call,
    first: First<'a>,
) -> Result<(), SubstFault>
    ensures { Steps setting.now (λ w names. items_all w (deeper_of w names) names call (first_and_rest w.locals first.entry)) desk.old desk.new result }
{
    let First { saying, rest } = first;
    if is_over(&rest) {
        put_item(setting, desk, call, saying)
    } else {
        put_before(setting, desk, call, saying, rest)
    }
}

fn put_before<'a>(
    setting: &Setting<'a>,
    desk: &mut Desk<'a>,
    call: Call,
    saying: Saying,
    rest: Sayings<'a>,
) -> Result<(), SubstFault>
    ensures { Steps setting.now (λ w names. items_all w (deeper_of w names) names call (saying ∷ sayings_of w.locals rest.entry)) desk.old desk.new result }
{
    push_items(&mut desk.tasks, &call, rest)?;
    put_item(setting, desk, call, saying)
}

/// Further items are left to do.
fn push_items<'a>(stack: &mut Stack<'a>, call: &Call, rest: Sayings<'a>) -> Result<(), Memory>
    ensures { OnOk result ((locals : Locals) → tasks_of locals stack.new.tasks.items
        ≡ items call.now (sayings_of locals rest.entry) ∷ tasks_of locals stack.old.tasks.items) }
{
    let call = call.copy()?;
    push(stack, Task::Items { call, rest })
}

fn put_item<'a>(
    setting: &Setting<'a>,
    desk: &mut Desk<'a>,
    call: Call,
    saying: Saying,
) -> Result<(), SubstFault>
    ensures { Steps setting.now (λ w names. item w (deeper_of w names) names call saying) desk.old desk.new result }
{
    match saying {
        Saying::Read(text) => put_apart(setting, desk, call, text),
        Saying::Plain(text) => put_known(setting, desk, call, text),
        Saying::Path(path) => put_node(setting, desk, call, path),
    }
}

/// An item that is known as a text.
pub(crate) fn put_known<'a>(
    setting: &Setting<'a>,
    desk: &mut Desk<'a>,
    call: Call,
    text: Text,
) -> Result<(), SubstFault>
    ensures { Steps setting.now (λ w names. known_item w (deeper_of w names) names call text) desk.old desk.new result }
{
    if text.as_str().is_empty() {
        return Ok(());
    }
    if call.directories {
        return put_named(setting, desk, call, text.as_str());
    }
    put_between(setting, desk, call, Task::Put(text))
}

/// A node: it stands alone, or is a directory.
fn put_node<'a>(
    setting: &Setting<'a>,
    desk: &mut Desk<'a>,
    call: Call,
    path: PathText,
) -> Result<(), SubstFault>
    ensures { Steps setting.now (λ w names. node_item w (deeper_of w names) names call path) desk.old desk.new result }
{
    if call.directories {
        let found = setting
            .locals
            .variants
            .searched(&setting.locals.top, &path)?;
        return put_dirs(setting, desk, call, found, 0);
    }
    put_parting(&mut desk.pieces, call.room)?;
    put(&mut desk.pieces, path.as_str())
}

/// The directories that a text names.
fn put_named<'a>(
    setting: &Setting<'a>,
    desk: &mut Desk<'a>,
    call: Call,
    text: &str,
) -> Result<(), SubstFault>
    ensures { Steps setting.now (λ w names s. puts_found w (deeper_of w names) names call (dirs_named w text.now s)) desk.old desk.new result }
{
    match dirs_named(setting, text) {
        Ok(found) => put_dirs(setting, desk, call, found, 0),
        Err(fault) => Err(fault),
    }
}

/// The directories that a text names.
pub(crate) fn dirs_named(setting: &Setting<'_>, text: &str) -> Result<Paths, SubstFault>
    ensures spelled { IfOk result (AreSpelled setting.now.locals.now.top) }
    ensures dirs { (s : State) → MatchResult result (λ p. dirs_named (setting_of setting.now) text.now s ≡ Ok (p, s))
        (λ e. e ≢ SubstFault.Memory → dirs_named (setting_of setting.now) text.now s ≡ Err e) }
{
    let locals = setting.locals;
    match locals.variants.search(&locals.top, &locals.dir, text) {
        Ok(found) => Ok(found),
        Err(VariantFault::BadName(fault)) => Err(SubstFault::BadPath(fault)),
        Err(_) => Err(SubstFault::Memory),
    }
}

/// The directories of an item, from this one on.
pub(crate) fn put_dirs<'a>(
    setting: &Setting<'a>,
    desk: &mut Desk<'a>,
    call: Call,
    found: Paths,
    next: usize,
) -> Result<(), SubstFault>
    ensures { Steps setting.now (λ w names. all_dirs w (deeper_of w names) names call (drop next found)) desk.old desk.new result }
{
    match dir_at(setting.alloc, &found, next)? {
        Some(text) => {
            push_dirs(&mut desk.tasks, &call, found, next + 1)?;
            put_between(setting, desk, call, Task::Put(text))
        }
        None => Ok(()),
    }
}

/// Further directories are left to do.
fn push_dirs<'a>(
    stack: &mut Stack<'a>,
    call: &Call,
    found: Paths,
    next: usize,
) -> Result<(), Memory>
    ensures { OnOk result ((locals : Locals) → tasks_of locals stack.new.tasks.items
        ≡ dirs call.now (drop next found) ∷ tasks_of locals stack.old.tasks.items) }
{
    let call = call.copy()?;
    push(stack, Task::Dirs { call, found, next })
}

/// The text of the directory of this number.
fn dir_at(alloc: Global, found: &Paths, number: usize) -> Result<Option<Text>, Memory>
    ensures dir { IfOk result (λ r. MatchOption r (drop number found.now ≡ [])
        (λ t. drop number found.now ≡ t ∷ drop (number + 1) found.now)) }
    ensures fits { IfOk result (λ r. MatchOption r ⊤ (λ t. number + 1 < 2 ^ 64)) }
{
    let dirs = found.as_slice();
    if number >= dirs.len() {
        return Ok(None);
    }
    let dir = &dirs[number];
    Ok(Some(Text::of(alloc, dir.as_str())?))
}

/// A space, where less may still come than when the call began.
pub(crate) fn put_parting(pieces: &mut Pieces, room: usize) -> Result<(), SubstFault>
    ensures ok { OnOk result (Parted room pieces.old pieces.new) }
    ensures fault { IfErr result (λ e. e ≢ SubstFault.Memory → CannotPart room pieces.old e) }
{
    if pieces.room() == room {
        Ok(())
    } else {
        put(pieces, " ")
    }
}

/// Something of a call between prefix and suffix.
pub(crate) fn put_between<'a>(
    setting: &Setting<'a>,
    desk: &mut Desk<'a>,
    call: Call,
    middle: Task<'a>,
) -> Result<(), SubstFault>
    requires { (names : Names) → names_after (plain setting.now.locals.now middle) names ≡ names }
    ensures { Steps setting.now (λ w names. puts_item w (deeper_of w names) names call (does w names (plain w.locals middle.entry))) desk.old desk.new result }
{
    put_parting(&mut desk.pieces, call.room)?;
    affix(setting, desk, call, middle)
}

fn affix<'a>(
    setting: &Setting<'a>,
    desk: &mut Desk<'a>,
    call: Call,
    middle: Task<'a>,
) -> Result<(), SubstFault>
    requires { (names : Names) → names_after (plain setting.now.locals.now middle) names ≡ names }
    ensures { Steps setting.now (λ w names. affixed w (deeper_of w names) names call (does w names (plain w.locals middle.entry))) desk.old desk.new result }
{
    push_middle(&mut desk.tasks, call.suffix, middle)?;
    push(&mut desk.tasks, Task::Expand(call.prefix))?;
    Ok(())
}

/// Something is left to do, and then a suffix.
fn push_middle<'a>(
    stack: &mut Stack<'a>,
    suffix: VariableName,
    middle: Task<'a>,
) -> Result<(), Memory>
    ensures { OnOk result ((locals : Locals) → tasks_of locals stack.new.tasks.items
        ≡ plain locals middle.entry ∷ (expand suffix ∷ tasks_of locals stack.old.tasks.items)) }
{
    push(stack, Task::Expand(suffix))?;
    push(stack, middle)?;
    Ok(())
}
