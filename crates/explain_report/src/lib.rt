//! Why a rule runs: eight reasons in one order, each a test of the rule's record of now beside what was recorded of a
//! target. `reason_of` gives the first that holds for a target, `least` the one of two that is told, and `reason_text`
//! its line. Contracts see a record as in `deciders`.
#![tactic(auto)]

mod changes;
mod finding;
mod laws;
mod names;
mod reason;
mod texts;

pub use finding::reason_of;
pub use laws::{due_where_a_reason_holds, least_is_reason};
pub use reason::{Reason, least, place_of};
pub use texts::reason_text;
