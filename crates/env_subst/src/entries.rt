//! The entries of a list variable: its items, and in place of one name alone the items of that variable.
ghost use Rattle.std.specs.Prelude.{◌≡◌, ◌≢◌, ◌∷◌, [], ℕ, Ok, Err, OnOk, MatchOption, MatchResult};
ghost use Rattle.env_subst.specs.Settings.{setting_of};
ghost use Rattle.env_subst.specs.Sayings.{sayings_of};
ghost use Rattle.env_pieces.specs.Pieces.{pieces_of};
ghost use Rattle.env_pieces.specs.Forms.{text_of};
ghost use Rattle.env_subst.specs.Expansions.{State, text_at, started};
ghost use Rattle.env_subst.specs.Entries as spec;
ghost use Rattle.env_subst.specs.declared.locals.Locals.{Locals};
ghost use Rattle.env_subst.specs.Frames.{frame_of, frames_of, left_of, entries_left, opened, found_of, Steps, FindsFirst};

use crate::content::said;
use crate::desk::refer;
use crate::fault::SubstFault;
use crate::library::LibItem;
use crate::names::Names;
use crate::reading::held_in;
use crate::saying::{First, Saying, Sayings, first_of, is_literal};
use crate::setting::Setting;
use crate::substitution::{ReadText, read_text};
use crate::variable_name::VariableName;
use env_text::name_alone;
use scons_base::limits::REFERENCE_LIMIT;
use scons_base::{Memory, Text};
use std::mem;

/// What a variable still says.
#[derive(Drop)]
pub(crate) struct Frame<'a> {
    pub(crate) name: VariableName,
    pub(crate) rest: Sayings<'a>,
}

/// Frames, the innermost last.
#[derive(Drop)]
pub(crate) struct Frames<'a> {
    pub(crate) frames: Vec<Frame<'a>>,
}

/// What is left of a list variable: a frame for it and for each name alone that is open.
#[derive(Drop)]
pub(crate) struct Entries<'a> {
    pub(crate) frames: Frames<'a>,
    pub(crate) names: Names,
    pub(crate) references: usize,
}

/// What a step comes to.
#[derive(Drop)]
pub(crate) enum EntryStep {
    Over,
    /// Nothing yet.
    Goes,
    Gives(LibItem),
}

/// What a thing that a variable says is among the entries.
#[derive(Drop)]
pub(crate) enum Found {
    Nothing,
    Entry(LibItem),
    Variable(VariableName),
}

/// The entries of a variable, none of which is taken yet.
pub(crate) fn entries_of<'a>(setting: &Setting<'a>, name: &str) -> Result<Entries<'a>, SubstFault>
    ensures { MatchResult result (λ e. entries_left (setting_of setting.now) e ≡ spec.entries_of (setting_of setting.now) name.now)
        (λ e. e ≢ SubstFault.Memory → spec.entries_of (setting_of setting.now) name.now ≡ spec.fails e) }
{
    let alloc = setting.alloc;
    let mut entries = Entries {
        frames: Frames {
            frames: Vec::new(alloc),
        },
        names: Names::new(alloc),
        references: 0,
    };
    open(setting, &mut entries, VariableName::of(alloc, name)?)?;
    Ok(entries)
}

/// One item, or the end of a variable.
pub(crate) fn step<'a>(
    setting: &Setting<'a>,
    entries: &mut Entries<'a>,
) -> Result<EntryStep, SubstFault>
    ensures { Steps (setting_of setting.now) (entries_left (setting_of setting.now) entries.old) entries.new result }
{
    match pop(&mut entries.frames) {
        Some(frame) => go_on(setting, entries, frame),
        None => Ok(EntryStep::Over),
    }
}

/// What a frame, which is taken off, still says.
fn go_on<'a>(
    setting: &Setting<'a>,
    entries: &mut Entries<'a>,
    frame: Frame<'a>,
) -> Result<EntryStep, SubstFault>
    ensures { let w = setting_of setting.now in
        Steps w (left_of w (frame_of w.locals frame.entry ∷ frames_of w.locals entries.old.frames.frames.items)
        entries.old.names entries.old.references) entries.new result }
{
    let Frame { name, rest } = frame;
    match first_of(setting.alloc, setting.locals, rest)? {
        Some(first) => take(setting, entries, name, first),
        None => {
            entries.names.leave();
            Ok(EntryStep::Goes)
        }
    }
}

/// The first thing that the innermost variable says, whose frame is taken off.
fn take<'a>(
    setting: &Setting<'a>,
    entries: &mut Entries<'a>,
    name: VariableName,
    first: First<'a>,
) -> Result<EntryStep, SubstFault>
    ensures { let w = setting_of setting.now in
        Steps w (left_of w ((name, first.entry.saying ∷ sayings_of w.locals first.entry.rest)
        ∷ frames_of w.locals entries.old.frames.frames.items) entries.old.names entries.old.references) entries.new result }
{
    let First { saying, rest } = first;
    let (found, references) = found_in(
        setting,
        &mut entries.names,
        &name,
        saying,
        entries.references,
    )?;
    entries.references = references;
    push(&mut entries.frames, Frame { name, rest })?;
    match found {
        Found::Nothing => Ok(EntryStep::Goes),
        Found::Entry(entry) => Ok(EntryStep::Gives(entry)),
        Found::Variable(name) => enter(setting, entries, name),
    }
}

fn push<'a>(frames: &mut Frames<'a>, frame: Frame<'a>) -> Result<(), Memory>
    ensures { OnOk result ((locals : Locals) → frames_of locals frames.new.frames.items
        ≡ frame_of locals frame.entry ∷ frames_of locals frames.old.frames.items) }
{
    frames.frames.push(frame)?;
    Ok(())
}

fn pop<'a>(frames: &mut Frames<'a>) -> Option<Frame<'a>>
    ensures { (locals : Locals) → MatchOption result (frames_of locals frames.old.frames.items ≡ [])
        (λ f. frames_of locals frames.old.frames.items ≡ frame_of locals f ∷ frames_of locals frames.new.frames.items) }
{
    frames.frames.pop()
}

/// Opens a variable for a reference.
fn enter<'a>(
    setting: &Setting<'a>,
    entries: &mut Entries<'a>,
    name: VariableName,
) -> Result<EntryStep, SubstFault>
    ensures { let w = setting_of setting.now in
        Steps w (spec.variable_entries (spec.entries_at w entries.old.names) name entries.old.references
        (left_of w (frames_of w.locals entries.old.frames.frames.items) entries.old.names)) entries.new result }
{
    entries.references = refer(entries.references)?;
    open(setting, entries, name)?;
    Ok(EntryStep::Goes)
}

/// Opens a variable: inside its own value it says nothing.
fn open<'a>(
    setting: &Setting<'a>,
    entries: &mut Entries<'a>,
    name: VariableName,
) -> Result<(), SubstFault>
    ensures { let w = setting_of setting.now in
        MatchResult result (λ _. entries_left w entries.new ≡ opened w name entries.old)
        (λ e. e ≢ SubstFault.Memory → opened w name entries.old ≡ spec.fails e) }
{
    if entries.names.len() > REFERENCE_LIMIT as usize + 1 {
        return Err(SubstFault::TooMany(REFERENCE_LIMIT + 1));
    }
    if entries.names.is_open(&name) {
        return Ok(());
    }
    let rest = said(held_in(setting, &entries.names, &name)?);
    entries.names.enter(name.copy()?)?;
    push(&mut entries.frames, Frame { name, rest })?;
    Ok(())
}

/// What a thing that the innermost variable says is, and how many references there are behind it.
fn found_in(
    setting: &Setting<'_>,
    names: &mut Names,
    name: &VariableName,
    saying: Saying,
    references: usize,
) -> Result<(Found, usize), SubstFault>
    ensures first { FindsFirst (setting_of setting.now) names.old name.now saying references result }
    ensures names { OnOk result (names.new ≡ names.old) }
{
    match saying {
        Saying::Path(path) => Ok((Found::Entry(LibItem::Node(path)), references)),
        Saying::Plain(text) => Ok((named(text), references)),
        Saying::Read(text) => text_found(setting, names, name, text, references),
    }
}

fn text_found(
    setting: &Setting<'_>,
    names: &mut Names,
    name: &VariableName,
    text: Text,
    references: usize,
) -> Result<(Found, usize), SubstFault>
    ensures first { FindsFirst (setting_of setting.now) names.old name.now (Saying.Read text) references result }
    ensures names { OnOk result (names.new ≡ names.old) }
{
    match name_alone(text.as_str()) {
        Some(variable) => {
            let variable = VariableName::of(setting.alloc, variable)?;
            Ok((Found::Variable(variable), references))
        }
        None if is_literal(text.as_str()) => Ok((named(text), references)),
        None => read_found(setting, names, name, text, references),
    }
}

/// A text that is read as an entry. The names that are open are lent, and come back.
fn read_found(
    setting: &Setting<'_>,
    names: &mut Names,
    name: &VariableName,
    text: Text,
    references: usize,
) -> Result<(Found, usize), SubstFault>
    ensures first { let w = setting_of setting.now in
        MatchResult result (λ r. (s : State) × (text_at w names.old name.now text (started references) ≡ Ok s)
        × (r.0 ≡ found_of (text_of (pieces_of s.sheet))) × (r.1 ≡ s.references))
        (λ e. e ≢ SubstFault.Memory → text_at w names.old name.now text (started references) ≡ Err e) }
    ensures names { OnOk result (names.new ≡ names.old) }
{
    let owner = name.copy()?;
    let lent = mem::replace(names, Names::new(setting.alloc));
    let read = read_text(setting, lent, owner, text, references)?;
    let ReadText {
        text,
        names: back,
        references,
    } = read;
    *names = back;
    Ok((named(text), references))
}

/// An empty text is no entry.
fn named(text: Text) -> Found
    ensures { result ≡ found_of text }
{
    if text.as_str().is_empty() {
        Found::Nothing
    } else {
        Found::Entry(LibItem::Name(text))
    }
}
