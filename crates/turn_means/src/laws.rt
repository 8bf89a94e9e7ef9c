//! The laws: each is the contract of a function that does nothing.
ghost use Rattle.turn_means.specs.Laws.{SettingOutStands, EndsStand, HaltsStand, LooksStand, ScansStand, FreshStands, LacksStand, LaunchesStand, RefusalsStand, EndingsStand, StandingRuns, WellGoesOn, FinishedSucceed};
ghost use Rattle.turn_means.specs.Recording.{RecordsBegin, WeighedHaveRecords, RecordsStay, RecordsAreLeft, BegunHaveNone, EndedHaveTheirs};
ghost use Rattle.turn_means.specs.Safety.{StopsAreSound, CallsAreSafe, DoneAreTrue, TrueStay};

use build_means::settled_succeed;

/// A build that has set out stands where it took no step.
pub fn setting_out_stands()
    ensures { SettingOutStands }
{}

/// Where an end comes it has come as far as before.
pub fn ends_stand()
    ensures { EndsStand }
{}

/// A halt is a step.
pub fn halts_stand()
    ensures { HaltsStand }
{}

/// While it looks at files a build stands where it stood.
pub fn looks_stand()
    ensures { LooksStand }
{}

/// And where its plan is told what a file includes.
pub fn scans_stand()
    ensures { ScansStand }
{}

/// A rule that is found up to date is a step.
pub fn fresh_stands()
    ensures { FreshStands }
{}

/// A rule that lacks a dependency is a step.
pub fn lacks_stand()
    ensures { LacksStand }
{}

/// A job that is started is a step.
pub fn launches_stand()
    ensures { LaunchesStand }
{}

/// A start that is refused is two steps.
pub fn refusals_stand()
    ensures { RefusalsStand }
{}

/// A job that ends is a step.
pub fn endings_stand()
    ensures { EndingsStand }
{}

/// However a build stands, it did its steps.
pub fn standing_runs()
    ensures { StandingRuns }
{}

/// Where all is well no rule is at fault.
pub fn well_goes_on()
    ensures { WellGoesOn }
{}

/// And where its plan is finished then a build succeeded.
pub fn finished_succeed()
    ensures { FinishedSucceed }
{
    settled_succeed();
}

/// As a build begins each path has the record that it had.
pub fn records_begin()
    ensures { RecordsBegin }
{}

/// A rule that is decided has the record that is kept of it once its action ended well.
pub fn weighed_have_records()
    ensures { WeighedHaveRecords }
{}

/// While running jobs alone write the records are as they were.
pub fn records_stay()
    ensures { RecordsStay }
{}

/// Steps that start nothing leave the records as they are.
pub fn records_are_left()
    ensures { RecordsAreLeft }
{}

/// What a rule makes that begins has no record any more.
pub fn begun_have_none()
    ensures { BegunHaveNone }
{}

/// What a rule made whose action ended well has the record that it was to have.
pub fn ended_have_theirs()
    ensures { EndedHaveTheirs }
{}

/// What a stop leaves of a safe moment tells the truth.
pub fn stops_are_sound()
    ensures { StopsAreSound }
{}

/// A build is safe through its calls.
pub fn calls_are_safe()
    ensures { CallsAreSafe }
{}

/// What a job made that is done is what its record says.
pub fn done_are_true()
    ensures { DoneAreTrue }
{}

/// And it stays so while nothing writes there.
pub fn true_stay()
    ensures { TrueStay }
{}
