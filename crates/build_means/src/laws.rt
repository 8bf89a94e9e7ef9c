//! The laws: each is the contract of a function that does nothing.
ghost use Rattle.build_means.specs.Grown.{GrownAreThese};
ghost use Rattle.build_means.specs.Laws.{TestsMeetDue, ChangesAreAlike, ReadingsAreGraphs, RulesAreThese, KnownAreThese, SettledSucceed, RunsAreRight, RestsAreRight, RecordsStayTrue, LogsAreInOrder, SucceededHaveJobs, CoursesAreSeen, GoingOnIsRight, EndingsAreBusy};

use build_model::{
    any_decider, busy_at_each_ending, courses_are_builds, each_step, graphs_are_lawful,
    high_enough, incremental_is_clean, keeps_going, rests_rightly, settled_before_start,
    stays_sound,
};

/// The test by which a rule is found due meets its definition, for all four deciders.
pub fn tests_meet_due()
    ensures { TestsMeetDue }
{}

/// By each decider a record of a store has changed where it has as a record of the model.
pub fn changes_are_alike()
    ensures { ChangesAreAlike }
{}

/// A reading stands for a graph of the model.
pub fn readings_are_graphs()
    ensures { ReadingsAreGraphs }
{}

/// The rule of a path is the one that was declared for it, or else the one that copies it.
pub fn rules_are_these()
    ensures { RulesAreThese }
{}

/// What an include line may mean is known where it has a rule or is a file.
pub fn known_are_these()
    ensures { KnownAreThese }
{}

/// In a graph that grew by nodes and copy rules the rule of a node is the rule of its path.
pub fn grown_are_these()
    ensures { GrownAreThese }
{}

/// A course from where a build began to where it ended is seen so at the end.
pub fn courses_are_seen()
    ensures { CoursesAreSeen }
{
    graphs_are_lawful();
    courses_are_builds();
}

/// A build at whose end every rule that makes what is requested is settled, and that waited rightly, succeeded.
pub fn settled_succeed()
    ensures { SettledSucceed }
{
    any_decider();
    incremental_is_clean();
}

/// At any status each step of a build by content is right by the clean build.
pub fn runs_are_right()
    ensures { RunsAreRight }
{
    each_step();
    high_enough();
}

/// Where a build came to rest, each needed rule is settled, faulty, skipped or held.
pub fn rests_are_right()
    ensures { RestsAreRight }
{
    rests_rightly();
}

/// Records that told the truth before a build tell it after, at any status.
pub fn records_stay_true()
    ensures { RecordsStayTrue }
{
    stays_sound();
}

/// What a rule needs was found up to date, or its job ended well in the log before the rule's own job started.
pub fn logs_are_in_order()
    ensures { LogsAreInOrder }
{
    settled_before_start();
}

/// A build that ended well started one job for each rule that began, and no other.
pub fn succeeded_have_jobs()
    ensures { SucceededHaveJobs }
{}

/// A build that went on after faults and came to rest started what it could.
pub fn going_on_is_right()
    ensures { GoingOnIsRight }
{
    keeps_going();
    high_enough();
}

/// Before each ending of a build that ended well as many actions ran as may, or nothing more could be started.
pub fn endings_are_busy()
    ensures { EndingsAreBusy }
{
    busy_at_each_ending();
    high_enough();
}
