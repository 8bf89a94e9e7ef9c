//! What a build is, and what follows from that alone: the definitions by which promises about builds are stated, over plain
//! lists and functions, and the laws that join the steps of a build to what a build from sources alone would make.
#![tactic(auto)]

mod laws;

pub use laws::{
    again_little, all_is_found, any_decider, at_most_jobs, at_one_job, busy_at_each_ending,
    courses_are_builds, each_step, found_is_taken_out, front_begins, given_stays,
    graphs_are_lawful, high_enough, histories_end_clean, incremental_is_clean, is_again_after,
    keeps_going, none_over_cycle, nothing_after_fault, only_once, premises_are_met, rests_rightly,
    scanned_decide, settled_before_start, stale_front_begins, stays_sound,
};
