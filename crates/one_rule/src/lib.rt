//! The command `scons`: from the words of a command line to files, printed text and a status.
#![tactic(auto)]

mod building;
mod conclusion;
mod ending;
mod faults;
mod line_form;
mod reading;
mod report;
mod rule;
mod run;
mod skipped;
mod stops;
mod texts;
mod top;

pub use faults::Faults;
pub use line_form::{LineFault, read_line_form};
pub use report::{ReadKind, Report, Top, UsageKind};
pub use rule::Rule;
pub use skipped::Skipped;
pub use top::scons;
