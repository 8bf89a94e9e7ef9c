//! Jobs side by side, on worker threads: a board that jobs go over, and a pool of workers round it.
//!
//! The four changes of the `Board` (a slip is handed in, taken, its ending is put, and picked) are the only steps on what the threads
//! share. A `Pool` keeps the board behind one lock; what a worker does with a slip is a `Runner`'s business.
#![tactic(auto)]

mod board;
mod change;
mod desk;
mod entry;
mod gated;
mod pool;
mod room;
mod runner;
mod slip;
mod worker;

pub use board::Board;
pub use change::Change;
pub use pool::Pool;
pub use runner::{Gate, NoGate, Runner};
pub use slip::{Ending, Slip};
