//! What every other crate stands on: path texts in normal form, numbers for nodes, rules and environments, limits,
//! and small lists whose contracts see plain lists.
//!
//! A contract sees a `Text` and a `Blob` as a list of bytes, a `PathText` as the bytes of its text, a `Texts` as a
//! list of texts and a `Paths` as a list of paths. A `Listing` of anything else is seen as the list of its items.
#![tactic(auto)]

mod blob;
mod fault;
mod ids;
pub mod limits;
mod listing;
mod memory;
mod moved;
mod name_bytes;
mod parts;
mod path;
mod paths;
mod resolve;
mod text;
mod texts;

pub use blob::Blob;
pub use fault::PathFault;
pub use ids::{EnvId, NodeId, RuleId};
pub use listing::Listing;
pub use memory::Memory;
pub use moved::joined;
pub use name_bytes::{cut_name, is_name_byte, name_text};
pub use path::PathText;
pub use paths::Paths;
pub use text::Text;
pub use texts::Texts;
