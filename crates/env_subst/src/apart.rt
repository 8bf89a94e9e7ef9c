//! Items of a call that are read apart first.
ghost use Rattle.std.specs.Prelude.{◌≡◌, ◌++◌, ◌∷◌, [], Ok, OnOk, IfOk, string_bytes, codes, if◌then◌else◌};
ghost use Rattle.std.specs.Option.{option_map};
ghost use Rattle.env_text.specs.Alone.{name_alone};
ghost use Rattle.env_text.specs.Readings.{reading_of};
ghost use Rattle.env_pieces.specs.Pieces.{pieces_of};
ghost use Rattle.env_pieces.specs.Forms.{text_of};
ghost use Rattle.env_subst.specs.Expansions.{is_literal, text_item, puts_read, read_item, call_of};
ghost use Rattle.env_subst.specs.Desks.{deeper_of, reads_apart, Steps};

use crate::calls::{put_between, put_known, put_parting};
use crate::desk::{Desk, push, put_all};
use crate::fault::SubstFault;
use crate::saying::{Saying, is_literal};
use crate::setting::Setting;
use crate::task::{Call, Task};
use env_pieces::{Pieces, text_of};
use env_text::name_alone;
use scons_base::{Memory, Text};
use std::alloc::Global;
use std::mem;

/// An item that is a text.
pub(crate) fn put_apart<'a>(
    setting: &Setting<'a>,
    desk: &mut Desk<'a>,
    call: Call,
    text: Text,
) -> Result<(), SubstFault>
    ensures { Steps setting.now (λ w names. text_item w (deeper_of w names) names call text (name_alone (reading_of text))) desk.old desk.new result }
{
    match call_text(setting.alloc, &call, text.as_str())? {
        Some(further) => read_apart(setting, desk, call, further, true),
        None if is_literal(text.as_str()) => put_known(setting, desk, call, text),
        None => read_apart(setting, desk, call, text, false),
    }
}

/// The call with another variable in place of the list, where a text is the name of one alone.
fn call_text(alloc: Global, call: &Call, text: &str) -> Result<Option<Text>, Memory>
    ensures { IfOk result (λ o. o ≡ option_map (call_of call.now) (name_alone (reading_of text.now))) }
{
    match name_alone(text) {
        Some(name) => Ok(Some(Text::new(call_of(alloc, call, name)?))),
        None => Ok(None),
    }
}

fn call_of(alloc: Global, call: &Call, name: &str) -> Result<String, Memory>
    ensures { IfOk result (λ s. string_bytes s ≡ call_of call.now name.now) }
{
    let mut text = String::from_str(alloc, "${_concat(")?;
    put_argument(&mut text, call.prefix.as_str())?;
    put_argument(&mut text, name)?;
    text.push_str(call.suffix.as_str())?;
    text.push_str(call_end(call.directories))?;
    Ok(text)
}

fn put_argument(text: &mut String, name: &str) -> Result<(), Memory>
    ensures { OnOk result (string_bytes text.new ≡ string_bytes text.old ++ (name.now ++ 44 ∷ [])) }
{
    text.push_str(name)?;
    text.push(',')?;
    Ok(())
}

fn call_end(directories: bool) -> &'static str
    ensures { result.now ≡ (if directories then codes ",__env__,RDirs)}" else codes ",__env__)}") }
{
    if directories {
        ",__env__,RDirs)}"
    } else {
        ",__env__)}"
    }
}

/// An item is read apart. The pieces that were read before are kept aside.
fn read_apart<'a>(
    setting: &Setting<'a>,
    desk: &mut Desk<'a>,
    call: Call,
    text: Text,
    alone: bool,
) -> Result<(), SubstFault>
    ensures { Steps setting.now (λ w names. reads_apart w names call alone text) desk.old desk.new result }
{
    let name = call.list.copy()?;
    let inner = desk.pieces.inner();
    let outer = mem::replace(&mut desk.pieces, inner);
    push(&mut desk.tasks, Task::Apart { outer, call, alone })?;
    let saying = Saying::Read(text);
    push(&mut desk.tasks, Task::Inside { name, saying })?;
    Ok(())
}

/// What was read apart is an item of a call. The pieces that were read before come back.
pub(crate) fn put_read<'a>(
    setting: &Setting<'a>,
    desk: &mut Desk<'a>,
    outer: Pieces,
    call: Call,
    alone: bool,
) -> Result<(), SubstFault>
    ensures { Steps setting.now (λ w names s. read_item w (deeper_of w names) names call alone outer (Ok s)) desk.old desk.new result }
{
    let inner = mem::replace(&mut desk.pieces, outer);
    if call.directories && !alone {
        let text = text_in(setting.alloc, inner)?;
        return put_known(setting, desk, call, text);
    }
    if inner.is_blank() {
        return Ok(());
    }
    put_pieces(setting, desk, call, alone, inner)
}

/// Pieces as text.
fn text_in(alloc: Global, pieces: Pieces) -> Result<Text, Memory>
    ensures { IfOk result (λ t. t ≡ text_of (pieces_of pieces)) }
{
    let pieces = pieces.finish()?;
    Ok(Text::new(text_of(alloc, pieces.as_slice())?))
}

fn put_pieces<'a>(
    setting: &Setting<'a>,
    desk: &mut Desk<'a>,
    call: Call,
    alone: bool,
    pieces: Pieces,
) -> Result<(), SubstFault>
    ensures { Steps setting.now (λ w names. puts_read w (deeper_of w names) names call alone (pieces_of pieces)) desk.old desk.new result }
{
    if !alone {
        return put_between(setting, desk, call, Task::PutAll(pieces));
    }
    put_parting(&mut desk.pieces, call.room)?;
    put_all(&mut desk.pieces, pieces)
}
