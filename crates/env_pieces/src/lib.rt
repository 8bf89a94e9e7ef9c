//! The pieces that a substitution reads, and the three forms in which they are shown.
//!
//! Reading a text gives texts and marks. A contract sees `Pieces` as a `Sheet`: the pieces up to the last mark, the text
//! behind it, and how many bytes may still come. `form_of` shows the pieces of a sheet in one of three forms: as text, raw,
//! or signed, and `line_forms` cuts them into lines.
#![tactic(auto)]

mod form;
mod lines;
mod parts;
mod piece;
mod pieces;
mod squeeze;

pub use form::{FormFault, Mode, form_of, text_of};
pub use lines::line_forms;
pub use piece::{Mark, Piece};
pub use pieces::{PieceFault, Pieces};
