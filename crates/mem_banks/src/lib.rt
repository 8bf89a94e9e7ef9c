//! Two banks of bytes in memory, with what a stop may leave of them.
//!
//! A caller sees the banks as a `Store`: the bytes of each, and what was written and synced since they were made, newest
//! first, with the bytes that were overwritten. So each earlier state can be had back, and what a stop may leave is
//! told by the writes since the last sync, each of which may be cut short.
#![tactic(auto)]

mod banks;
mod change;
mod laws;
mod outcome;
mod overwrite;

pub use banks::{BANK_ROOM, CALL_ROOM, MemBanks, WRITTEN_ROOM};
pub use change::{Change, Write};
pub use laws::each_cut_has_a_pick;
