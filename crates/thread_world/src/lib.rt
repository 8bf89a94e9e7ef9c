//! A world in memory whose jobs run on worker threads.
//!
//! A start hands the job to a pool, with what its dependencies hold and with the table of actions; a worker makes of these what the
//! job comes to; a wait takes the next ending of the pool, whichever, and puts what it made into the tree. What callers see is
//! the world in memory inside it. No list makes its calls fail, and it has no fuse.
#![tactic(auto)]

mod disk;
mod handing;
mod runner;
mod tree;
mod world;

pub use runner::TableRunner;
pub use world::ThreadWorld;
