//! What a build knows between its calls, joined: how far it has come by its world, what is kept of files, and its plan; and that
//! each turn of its loop keeps this, with its step. Definitions, and laws about them.
#![tactic(auto)]

mod laws;

pub use laws::{
    begun_have_none, calls_are_safe, done_are_true, ended_have_theirs, endings_stand, ends_stand,
    finished_succeed, fresh_stands, halts_stand, lacks_stand, launches_stand, looks_stand,
    records_are_left, records_begin, records_stay, refusals_stand, scans_stand, setting_out_stands,
    standing_runs, stops_are_sound, true_stay, weighed_have_records, well_goes_on,
};
