//! How a text is read, and the variables in it.
ghost use Rattle.std.specs.Prelude.{◌≡◌, ◌≢◌, [], ◌∷◌, true, false, Some, None, IfOk, OnOk, MatchOption};
ghost use Rattle.env_text.specs.Readings.{reading_from};
ghost use Rattle.env_subst.specs.Settings.{setting_of};
ghost use Rattle.env_subst.specs.Contents.{content_of, said_by};
ghost use Rattle.env_subst.specs.declared.locals.Locals.{Locals};
ghost use Rattle.env_subst.specs.Parts.{owned_part};
ghost use Rattle.env_subst.specs.Sayings.{sayings_of, first_and_rest};
ghost use Rattle.env_subst.specs.Expansions.{and_then, is_open, content_in, refers, refers_to, calls, reads_part, reads, says_one, says_more, says_all, expands, text_at};
ghost use Rattle.env_subst.specs.Desks.{read, say, deeper_of, and_rest, with_open, tasks_of, desk_of, Steps};

use crate::calls::call_items;
use crate::content::{Holding, held_by, said, said_by, taken};
use crate::desk::{Desk, Stack, push, put, put_mark, put_whole, refer};
use crate::fault::SubstFault;
use crate::names::Names;
use crate::part::{OwnedPart, owned};
use crate::place::Place;
use crate::saying::{First, Saying, Sayings, first_of, is_over, literal_of, stands_for_itself};
use crate::setting::Setting;
use crate::task::{Call, Task};
use crate::variable_name::VariableName;
use env_text::{Selection, Step, next_part};
use scons_base::limits::REFERENCE_LIMIT;
use scons_base::{Memory, Text};
use std::alloc::Global;

/// Reads on from a place of a text of the variable `owner`.
pub(crate) fn read_on<'a>(
    setting: &Setting<'a>,
    desk: &mut Desk<'a>,
    owner: VariableName,
    place: Place,
) -> Result<(), SubstFault>
    ensures { Steps setting.now (λ w names. reads w (deeper_of w names) names owner (reading_from place.text place.at)) desk.old desk.new result }
{
    let Place { text, at } = place;
    match next_part(text.as_str(), at) {
        Step::End => Ok(()),
        Step::BadBrace => Err(bad_brace(setting.alloc, &owner, at)),
        Step::Part(part, next) => {
            let part = owned(setting.alloc, part)?;
            let rest = Place { text, at: next };
            read_part(setting, desk, owner, at, rest, part)
        }
    }
}

/// The fault of a brace at a place of a text of the variable `owner`.
fn bad_brace(alloc: Global, owner: &VariableName, at: usize) -> SubstFault
    ensures { result ≢ SubstFault.Memory → result ≡ SubstFault.BadBrace owner.now at }
{
    match owner.text(alloc) {
        Ok(name) => SubstFault::BadBrace {
            name,
            at: at as u64,
        },
        Err(_) => SubstFault::Memory,
    }
}

/// The fault of an attribute at a place of a text of the variable `owner`.
fn bad_attribute(alloc: Global, owner: &VariableName, at: usize) -> SubstFault
    ensures { result ≢ SubstFault.Memory → result ≡ SubstFault.BadAttr owner.now at }
{
    match owner.text(alloc) {
        Ok(name) => SubstFault::BadAttr {
            name,
            at: at as u64,
        },
        Err(_) => SubstFault::Memory,
    }
}

/// Reads a part of a text of the variable `owner`, and leaves the rest of the text to do.
fn read_part<'a>(
    setting: &Setting<'a>,
    desk: &mut Desk<'a>,
    owner: VariableName,
    at: usize,
    rest: Place,
    part: OwnedPart,
) -> Result<(), SubstFault>
    ensures { Steps setting.now (λ w names. and_rest w names owner rest.text rest.at
        (reads_part w (deeper_of w names) names owner at (owned_part part))) desk.old desk.new result }
{
    match part {
        OwnedPart::Text(text) => {
            push_rest(&mut desk.tasks, owner, rest)?;
            put(&mut desk.pieces, text.as_str())
        }
        OwnedPart::Mark(mark) => {
            push_rest(&mut desk.tasks, owner, rest)?;
            put_mark(&mut desk.pieces, mark)
        }
        OwnedPart::Variable {
            name,
            selection,
            attribute,
        } => read_variable(setting, desk, owner, at, rest, name, selection, attribute),
        OwnedPart::Call(call) => read_call(setting, desk, owner, rest, call),
    }
}

/// The rest of a text is left to do.
fn push_rest<'a>(stack: &mut Stack<'a>, owner: VariableName, rest: Place) -> Result<(), Memory>
    ensures { OnOk result ((locals : Locals) → tasks_of locals stack.new.tasks.items
        ≡ read owner rest.text rest.at ∷ tasks_of locals stack.old.tasks.items) }
{
    push(stack, Task::Read { owner, place: rest })
}

fn read_call<'a>(
    setting: &Setting<'a>,
    desk: &mut Desk<'a>,
    owner: VariableName,
    rest: Place,
    call: Call,
) -> Result<(), SubstFault>
    ensures { Steps setting.now (λ w names. and_rest w names owner rest.text rest.at
        (λ s. and_then (refers s) (calls w (deeper_of w names) names call))) desk.old desk.new result }
{
    desk.references = refer(desk.references)?;
    push_rest(&mut desk.tasks, owner, rest)?;
    call_items(setting, desk, call)
}

fn read_variable<'a>(
    setting: &Setting<'a>,
    desk: &mut Desk<'a>,
    owner: VariableName,
    at: usize,
    rest: Place,
    name: VariableName,
    selection: Selection,
    attribute: Option<Text>,
) -> Result<(), SubstFault>
    ensures { Steps setting.now (λ w names. and_rest w names owner rest.text rest.at
        (λ s. and_then (refers s) (refers_to w (deeper_of w names) names owner at name selection attribute)))
        desk.old desk.new result }
{
    desk.references = refer(desk.references)?;
    let held = held_in(setting, &desk.names, &name)?;
    let holding = taken(held, selection);
    match said_as(holding, &attribute) {
        Some(sayings) => {
            push_rest(&mut desk.tasks, owner, rest)?;
            say_all(setting, desk, name, sayings)
        }
        None => Err(bad_attribute(setting.alloc, &owner, at)),
    }
}

fn said_as<'a>(holding: Holding<'a>, attribute: &Option<Text>) -> Option<Sayings<'a>>
    ensures { (locals : Locals) → MatchOption result (said_by locals attribute.now (content_of holding.entry) ≡ None)
        (λ s. said_by locals attribute.now (content_of holding.entry) ≡ Some (sayings_of locals s)) }
{
    match attribute {
        Some(name) => said_by(holding, Some(name.as_str())),
        None => said_by(holding, None),
    }
}

/// What a variable holds, which is nothing inside its own value.
pub(crate) fn held_in<'a>(
    setting: &Setting<'a>,
    names: &Names,
    name: &VariableName,
) -> Result<Holding<'a>, Memory>
    ensures { IfOk result (λ h. content_of h ≡ content_in (setting_of setting.now) names.now name.now) }
{
    if names.is_open(name) {
        return Ok(Holding::Nothing);
    }
    held_by(setting, name.as_str())
}

/// All that a variable says.
pub(crate) fn say_all<'a>(
    setting: &Setting<'a>,
    desk: &mut Desk<'a>,
    name: VariableName,
    sayings: Sayings<'a>,
) -> Result<(), SubstFault>
    requires { is_open name desk.old.names ≡ true → sayings_of setting.now.locals.now sayings ≡ [] }
    ensures { Steps setting.now (λ w names. says_all (deeper_of w names name) (sayings_of w.locals sayings.entry)) desk.old desk.new result }
{
    match literal_of(&sayings) {
        Some(text) if desk.names.len() <= REFERENCE_LIMIT as usize => put(&mut desk.pieces, text),
        _ => say_opened(setting, desk, name, sayings),
    }
}

/// All that a variable says, which is opened for it.
fn say_opened<'a>(
    setting: &Setting<'a>,
    desk: &mut Desk<'a>,
    name: VariableName,
    sayings: Sayings<'a>,
) -> Result<(), SubstFault>
    requires { is_open name desk.old.names ≡ true → sayings_of setting.now.locals.now sayings ≡ [] }
    ensures { Steps setting.now (λ w names. says_all (deeper_of w names name) (sayings_of w.locals sayings.entry)) desk.old desk.new result }
{
    match first_of(setting.alloc, setting.locals, sayings)? {
        Some(first) => {
            open(desk, &name)?;
            say_first(setting, desk, name, first)
        }
        None => Ok(()),
    }
}

/// Opens a variable that isn't open.
fn open(desk: &mut Desk<'_>, name: &VariableName) -> Result<(), Memory>
    requires { is_open name.now desk.old.names ≡ false }
    ensures { OnOk result ((locals : Locals) → desk_of locals desk.new ≡ with_open name.now (desk_of locals desk.old)) }
{
    desk.names.enter(name.copy()?)?;
    push(&mut desk.tasks, Task::Close)
}

/// Further things that the innermost variable says.
pub(crate) fn say_more<'a>(
    setting: &Setting<'a>,
    desk: &mut Desk<'a>,
    name: VariableName,
    sayings: Sayings<'a>,
) -> Result<(), SubstFault>
    ensures { Steps setting.now (λ w names. says_more (text_at w names name) (sayings_of w.locals sayings.entry)) desk.old desk.new result }
{
    match first_of(setting.alloc, setting.locals, sayings)? {
        Some(first) => {
            put(&mut desk.pieces, " ")?;
            say_first(setting, desk, name, first)
        }
        None => Ok(()),
    }
}

/// One thing that the innermost variable says, and then the others.
fn say_first<'a>(
    setting: &Setting<'a>,
    desk: &mut Desk<'a>,
    name: VariableName,
    first: First<'a>,
) -> Result<(), SubstFault>
    ensures { Steps setting.now (λ w names. says_all (text_at w names name) (first_and_rest w.locals first.entry)) desk.old desk.new result }
{
    let First { saying, rest } = first;
    if is_over(&rest) {
        say_one(setting, desk, name, saying)
    } else {
        say_before(setting, desk, name, saying, rest)
    }
}

fn say_before<'a>(
    setting: &Setting<'a>,
    desk: &mut Desk<'a>,
    name: VariableName,
    saying: Saying,
    rest: Sayings<'a>,
) -> Result<(), SubstFault>
    ensures { Steps setting.now (λ w names. says_all (text_at w names name) (saying ∷ sayings_of w.locals rest.entry)) desk.old desk.new result }
{
    push_sayings(&mut desk.tasks, &name, rest)?;
    say_one(setting, desk, name, saying)
}

/// Further things that a variable says are left to do.
fn push_sayings<'a>(
    stack: &mut Stack<'a>,
    name: &VariableName,
    rest: Sayings<'a>,
) -> Result<(), Memory>
    ensures { OnOk result ((locals : Locals) → tasks_of locals stack.new.tasks.items
        ≡ say name.now (sayings_of locals rest.entry) ∷ tasks_of locals stack.old.tasks.items) }
{
    let name = name.copy()?;
    push(stack, Task::Say { name, rest })
}

/// One thing that the innermost variable says.
fn say_one<'a>(
    setting: &Setting<'a>,
    desk: &mut Desk<'a>,
    name: VariableName,
    saying: Saying,
) -> Result<(), SubstFault>
    ensures { Steps setting.now (λ w names. says_one (text_at w names name) saying) desk.old desk.new result }
{
    match saying {
        Saying::Read(text) => begin(setting, desk, name, text),
        Saying::Plain(text) => put(&mut desk.pieces, text.as_str()),
        Saying::Path(path) => put(&mut desk.pieces, path.as_str()),
    }
}

/// One thing that a variable says.
pub(crate) fn say_inside<'a>(
    setting: &Setting<'a>,
    desk: &mut Desk<'a>,
    name: VariableName,
    saying: Saying,
) -> Result<(), SubstFault>
    ensures { Steps setting.now (λ w names. says_one (deeper_of w names name) saying) desk.old desk.new result }
{
    match saying {
        Saying::Read(text) => read_inside(setting, desk, name, text),
        Saying::Plain(text) => put(&mut desk.pieces, text.as_str()),
        Saying::Path(path) => put(&mut desk.pieces, path.as_str()),
    }
}

fn read_inside<'a>(
    setting: &Setting<'a>,
    desk: &mut Desk<'a>,
    name: VariableName,
    text: Text,
) -> Result<(), SubstFault>
    ensures { Steps setting.now (λ w names. deeper_of w names name text) desk.old desk.new result }
{
    if desk.names.is_open(&name) {
        return Ok(());
    }
    open(desk, &name)?;
    begin(setting, desk, name, text)
}

/// All that a variable says, as it stands in a call.
pub(crate) fn expand<'a>(
    setting: &Setting<'a>,
    desk: &mut Desk<'a>,
    name: VariableName,
) -> Result<(), SubstFault>
    ensures { Steps setting.now (λ w names. expands w (deeper_of w names) names name) desk.old desk.new result }
{
    let holding = held_in(setting, &desk.names, &name)?;
    say_all(setting, desk, name, said(holding))
}

/// Begins a text of the innermost variable's value.
pub(crate) fn begin<'a>(
    setting: &Setting<'a>,
    desk: &mut Desk<'a>,
    owner: VariableName,
    text: Text,
) -> Result<(), SubstFault>
    ensures { Steps setting.now (λ w names. text_at w names owner text) desk.old desk.new result }
{
    if desk.names.len() > REFERENCE_LIMIT as usize + 1 {
        return Err(SubstFault::TooMany(REFERENCE_LIMIT + 1));
    }
    if stands_for_itself(text.as_str()) {
        return put_whole(&mut desk.pieces, text);
    }
    let place = beginning(text);
    push(&mut desk.tasks, Task::Read { owner, place })?;
    Ok(())
}

fn beginning(text: Text) -> Place
    ensures text { result.text ≡ text }
    ensures at { result.at ≡ 0 }
{
    let _characters = text.as_str();
    Place { text, at: 0 }
}
