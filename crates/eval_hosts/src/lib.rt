//! Two hosts to try scripts with: one that prints and knows nothing else, and one with each kind of reply.
#![tactic(auto)]

mod printing;
mod replying;
mod text;

pub use printing::Printing;
pub use replying::Replying;
