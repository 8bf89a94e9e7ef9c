//! What the script language does with texts alone: lengths, slices, comparisons, searches, the methods of a text, numbers
//! read from and written as texts, how a text shows in a list, and the pieces of a `%` format.
//!
//! A contract sees a text as the list of its UTF-8 bytes. Its characters are its Unicode scalar values: places and
//! lengths count them. Nothing here knows a value of a script, a heap or a budget. What makes a text or a list says with a
//! length of its own, where that isn't plain, how long it will be, so that a caller can refuse before anything is made.
#![tactic(auto)]

mod characters;
mod fault;
mod finding;
mod formatting;
mod joining;
mod letters;
mod numbers;
mod order;
mod quoting;
mod replacing;
mod splitting;
mod stripping;
mod white;

pub use characters::{char_at, char_count, first_char, slice};
pub use fault::{FormatFault, IntFault};
pub use finding::{contains, ends_with, find, starts_with};
pub use formatting::{Piece, format_pieces};
pub use joining::{joined, joined_length, repeated, repeated_length};
pub use letters::{lower, upper};
pub use numbers::{decimals, int_of};
pub use order::compare;
pub use quoting::{quoted, quoted_length};
pub use replacing::{replaced, replaced_length};
pub use splitting::{split, split_count, word_count, words};
pub use stripping::{lstrip, rstrip, strip};
