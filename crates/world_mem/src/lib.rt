//! A world in memory, and a sink in memory. It tells all: its banks, its files, its jobs, its log and each moment since
//! it was made or stopped.
//!
//! What a job makes is known as it starts, by a table of actions. It stands in the tree from the job's ending on. Calls
//! fail where a list says so, or from some call on; a stop leaves one of the outcomes that it may have.
#![tactic(auto)]

mod calls;
mod dirs;
mod disk;
mod elsewhere;
mod ending;
mod entry;
mod event;
mod past;
mod plan;
mod refusal;
mod room;
mod running;
mod sink;
mod slots;
mod start;
mod state;
mod stop;
mod text;
mod tree;
mod world;

pub use act_table::{ActRow, ActTable, Contents, Made};
pub use calls::Call;
pub use plan::ending_by;
pub use refusal::{EditRefusal, NewRefusal};
pub use sink::MemSink;
pub use state::Entering;
pub use world::{Files, MemWorld};
