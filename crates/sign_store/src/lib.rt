//! The records of built rules, kept through stops in the two banks of a disk.
//!
//! A bank begins with a gate byte, 1 where the bank is live, then the mark `SCONSIG2` and a generation of 64 bits.
//! Behind this head stand entries: each a gate byte 1, a length of 32 bits and so many bytes of payload. They end at
//! the first other gate. A payload either puts a record at each of its targets or withdraws the records of some paths.
//! The live bank of the greater generation counts. One of version 1, with the mark `SCONSIG1`, is read; a store that is
//! begun over it moves its map into the other bank.
//!
//! To callers a `Store` is a map from paths to records. A rule's record is withdrawn before the rule starts and put
//! once it is done: both by a `Ticket`, which takes the memory of both beforehand. Puts are made in groups, with a
//! withdrawal at most: all their entries are written behind one closed gate, and count once it is opened.
#![tactic(auto)]

mod banks;
mod blocks;
mod compact;
mod compact_len;
mod copies;
mod entries;
mod head;
mod image;
mod map;
mod opening;
mod refusals;
mod store;
mod ticket;
mod view;

pub use image::recorded;
pub use refusals::{PrepareRefusal, StoreRefusal};
pub use store::Store;
pub use ticket::{Ticket, Ticketed};
pub use view::View;
