//! The texts of a run: what it writes on standard output, and what its faults say on standard error.
//!
//! The wording is this project's own and follows SCons. Each text is whole lines with their line feeds. `Texts.antt` of
//! `specs/` has them as a reader would write them down.
#![tactic(auto)]

mod faults;
mod lines;
mod texts;

pub use faults::fault_text;
pub use lines::rule_text;
pub use texts::{
    building_text, cleaned_text, cleaning_text, done_text, done_with_errors_text, help_text,
    load_text, nothing_text, read_text, reading_text, removed_text, terminated_text,
    up_to_date_text,
};
