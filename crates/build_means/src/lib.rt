//! What a build is about and did, in the project's own types: the graph of the model that a reading stands for, its records,
//! and what the steps of a build over a world are. Definitions, and laws about them that hold of every reading.
#![tactic(auto)]

mod laws;

pub use laws::{
    changes_are_alike, courses_are_seen, endings_are_busy, going_on_is_right, grown_are_these,
    known_are_these, logs_are_in_order, readings_are_graphs, records_stay_true, rests_are_right,
    rules_are_these, runs_are_right, settled_succeed, succeeded_have_jobs, tests_meet_due,
};
