//! Parts of a text with names of their own.
ghost use Rattle.std.specs.Prelude.{◌≡◌, IfOk};
ghost use Rattle.env_text.specs.Views.{plain};
ghost use Rattle.env_subst.specs.Parts.{owned_part};

use crate::task::Call;
use crate::variable_name::VariableName;
use env_pieces::Mark;
use env_text::{Part, Selection};
use scons_base::{Memory, Text};
use std::alloc::Global;

/// A part of a text, with names of its own.
#[derive(Drop)]
pub(crate) enum OwnedPart {
    Text(Text),
    Mark(Mark),
    Variable {
        name: VariableName,
        selection: Selection,
        attribute: Option<Text>,
    },
    Call(Call),
}

pub(crate) fn owned(alloc: Global, part: Part<'_>) -> Result<OwnedPart, Memory>
    ensures { IfOk result (λ o. owned_part o ≡ plain part.entry) }
{
    match part {
        Part::Text(text) => Ok(OwnedPart::Text(Text::of(alloc, text)?)),
        Part::Begin => Ok(OwnedPart::Mark(Mark::Begin)),
        Part::End => Ok(OwnedPart::Mark(Mark::End)),
        Part::Variable {
            name,
            selection,
            attribute: None,
        } => Ok(OwnedPart::Variable {
            name: VariableName::of(alloc, name)?,
            selection,
            attribute: None,
        }),
        Part::Variable {
            name,
            selection,
            attribute: Some(attribute),
        } => Ok(OwnedPart::Variable {
            name: VariableName::of(alloc, name)?,
            selection,
            attribute: Some(Text::of(alloc, attribute)?),
        }),
        Part::Concat {
            prefix,
            list,
            suffix,
            directories,
        } => Ok(OwnedPart::Call(Call {
            prefix: VariableName::of(alloc, prefix)?,
            list: VariableName::of(alloc, list)?,
            suffix: VariableName::of(alloc, suffix)?,
            directories,
            room: 0,
        })),
    }
}
