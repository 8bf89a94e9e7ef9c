//! How far a build has come by its world: the steps so far and the jobs that run, and that each turn of a build keeps this,
//! with its step. Definitions, and laws about them.
#![tactic(auto)]

mod laws;

pub use laws::{
    calls_are_clears, clears_keep_ways, endings_keep_ways, fresh_keeps_ways, halts_keep_ways,
    lacks_keep_ways, launches_keep_ways, premises_are_met, refusals_keep_ways, settled_stay,
    ways_are_runs, ways_begin,
};
