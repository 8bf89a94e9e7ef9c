//! The seam to everything outside: two banks of bytes (`Disk`), files and jobs (`World`), printed text (`Sink`).
//!
//! A build is generic over all three. What a call does is told by the ghost member `meaning`: a world in memory tells
//! all of it, the real one tells nothing but its counts of faults. So each clause on content is guarded by `tells`, a
//! condition by `tells` before the call, and the single clause that rests on honest digests by `sure` too.
//!
//! A stop may come at any moment of a call. What it may leave is told by moments: what was around, with what may be
//! left of the banks. `Throughout` says that something held at each of them, and the lemmas of `proofs/Moments.antt`
//! put calls together.
#![tactic(auto)]

mod decider;
mod disk;
mod hash;
mod job;
mod printing;
mod refusal;
mod sink;
mod world;

pub use decider::Decider;
pub use disk::{Bank, Disk};
pub use hash::Hash;
pub use job::{Ended, Job, Line, Outcome, Work, copy_lines};
pub use printing::print;
pub use refusal::{AskRefusal, Fault, ReadRefusal};
pub use sink::Sink;
pub use world::{Content, Kind, World};
