//! What actions make, as a table, with lists of paths and their contents. A job that goes to another thread takes a handle of the
//! table along.
#![tactic(auto)]

mod contents;
mod same;
mod shared;
mod table;

pub use contents::{Contents, copy_content, group_of, paired};
pub use shared::SharedTable;
pub use table::{ActRow, ActTable, Made};
