//! The real outside: files, the shell on worker threads, the signature banks and the lock beside them, standard streams.
//!
//! It tells nothing of content, only how often the outside was at fault, so of what it does to real files the traits' clauses on counts
//! and limits alone are proved. What these files say the system did is trusted.
#![tactic(auto)]

mod bank;
mod errors;
mod files;
mod holding;
mod lock;
mod opening;
mod shell;
mod sink;
mod syncing;
mod world;
mod writing;

pub use lock::LockWish;
pub use shell::{LockHolder, Shell};
pub use sink::RealSink;
pub use world::RealWorld;
