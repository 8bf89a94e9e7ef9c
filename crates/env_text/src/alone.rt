//! Texts that are one reference to a whole variable.
ghost use Rattle.std.specs.Prelude.{◌≡◌};
ghost use Rattle.std.specs.Option.{option_copied};
ghost use Rattle.env_text.specs.Alone.{whole_name, name_alone};
ghost use Rattle.env_text.specs.Readings.{reading_of};
ghost use Rattle.env_text.specs.Views.{plain};

use crate::part::{Part, Selection};
use crate::reader::{Step, next_part};

/// The name of a variable that a part refers to as a whole.
pub fn whole_name(part: Part<'_>) -> Option<&str>
    ensures { option_copied result ≡ whole_name (plain part.entry) }
{
    match part {
        Part::Variable {
            name,
            selection: Selection::Whole,
            attribute: None,
        } => Some(name),
        _ => None,
    }
}

/// The name of the variable, where a text is a reference to a whole variable and nothing else.
pub fn name_alone(text: &str) -> Option<&str>
    ensures { option_copied result ≡ name_alone (reading_of text.now) }
{
    match next_part(text, 0) {
        Step::Part(part, next) => {
            if next < text.len() {
                None
            } else {
                whole_name(part)
            }
        }
        Step::End => None,
        Step::BadBrace => None,
    }
}
