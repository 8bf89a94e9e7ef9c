//! How a plan stands to the build that it is for: its rules, files and order by the paths and steps of the model. Definitions,
//! and laws about them that hold of every plan.
#![tactic(auto)]

mod laws;

pub use laws::{
    changes_keep_ties, copies_are_these, decided_may_be, events_keep_ties, first_is_taken,
    growth_keeps_ties, in_order_is_taken, lists_are_reach, loaded_is_tied, names_are_these,
    premises_are_met, running_are_known, scanned_may_be, scans_keep_ties, still_is_at_rest,
    still_is_idle,
};
