//! The laws: each is the contract of a function that does nothing.
ghost use Rattle.build_model.specs.Laws.{EachStepIsClean, HoldsForAnyDecider, EachOnlyOnce, SettledBeforeStart, NoneOverCycle, AtMostJobs, CoursesAreBuilds, GivenStays};
ghost use Rattle.build_model.specs.Reach.{ScannedDecide};
ghost use Rattle.build_model.specs.Headline.{GraphsAreLawful, HighEnough, IncrementalIsClean, StaleFrontBegins, AgainLittle};
ghost use Rattle.build_model.specs.Resting.{NothingAfterFault, AllIsFound, RestsRightly, KeepsGoing, FoundIsTakenOut};
ghost use Rattle.build_model.specs.OneJob.{AtOneJob, FrontBegins};
ghost use Rattle.build_model.specs.Waiting.{BusyAtEachEnding};
ghost use Rattle.build_model.specs.Leaving.{StaysSound, IsAgainAfter};
ghost use Rattle.build_model.specs.Histories.{HistoriesEndClean};
ghost use Rattle.build_model.specs.Examples.{AreMet};

/// At any status: what was found up to date or made has the clean content, dependencies and record; and what was started was
/// needed and stale.
pub fn each_step()
    ensures { EachStepIsClean }
{}

/// Whatever the deciders are, a build that ended well settled what is needed, and started exactly what is due.
pub fn any_decider()
    ensures { HoldsForAnyDecider }
{}

/// A rule is started at most once.
pub fn only_once()
    ensures { EachOnlyOnce }
{}

/// All that a rule needs is settled when it is started.
pub fn settled_before_start()
    ensures { SettledBeforeStart }
{}

/// No build ends well over a cycle of needed rules.
pub fn none_over_cycle()
    ensures { NoneOverCycle }
{}

/// No more actions run than may.
pub fn at_most_jobs()
    ensures { AtMostJobs }
{}

/// At one job a build that ended well followed the build order.
pub fn at_one_job()
    ensures { AtOneJob }
{}

/// At one job and without going on after faults, at any status: what began is a front of what is due in the build order, all of
/// it that stands before a rule at fault.
pub fn front_begins()
    ensures { FrontBegins }
{}

/// Before each ending of a build that ended well as many actions run as may, or whatever is stale and could be started waits
/// for a stale rule that hasn't ended.
pub fn busy_at_each_ending()
    ensures { BusyAtEachEnding }
{}

/// What was seen at each moment is what stands at the end.
pub fn courses_are_builds()
    ensures { CoursesAreBuilds }
{}

/// What the action of a job was given stands there at every later moment, whatever became of the job.
pub fn given_stays()
    ensures { GivenStays }
{}

/// What agrees on the scanned files of a rule gives it the same dependencies.
pub fn scanned_decide()
    ensures { ScannedDecide }
{}

/// Each rule of a graph has its place, a copy rule too.
pub fn graphs_are_lawful()
    ensures { GraphsAreLawful }
{}

/// A clean build is taken high enough.
pub fn high_enough()
    ensures { HighEnough }
{}

/// A build that ended well leaves what a build from sources alone makes, and started exactly what was stale, each once.
pub fn incremental_is_clean()
    ensures { IncrementalIsClean }
{}

/// A build by content at one job that doesn't go on after faults began, at any status, a front of the stale rules in the build
/// order, and all of them that stand before a rule at fault.
pub fn stale_front_begins()
    ensures { StaleFrontBegins }
{}

/// The same build again starts only what is always carried out, and what doesn't make all its targets.
pub fn again_little()
    ensures { AgainLittle }
{}

/// Records that told the truth before a build tell it after, at any status.
pub fn stays_sound()
    ensures { StaysSound }
{}

/// After a build that ended well the same build may begin again.
pub fn is_again_after()
    ensures { IsAgainAfter }
{}

/// After any list of edits, failed builds and stopped builds, a build by content that ends well equals a clean build.
pub fn histories_end_clean()
    ensures { HistoriesEndClean }
{}

/// Nothing begins behind a halt, nor behind a fault in a build that doesn't go on after one.
pub fn nothing_after_fault()
    ensures { NothingAfterFault }
{}

/// After any steps there is what is found when all is scanned that can be.
pub fn all_is_found()
    ensures { AllIsFound }
{}

/// Where nothing is left to do, each needed rule is settled, faulty, skipped or held.
pub fn rests_rightly()
    ensures { RestsRightly }
{}

/// A build that goes on after faults: by the clean contents with the targets of hindered rules taken out, each rule that is
/// needed and stale was started, or is faulty, skipped or held.
pub fn keeps_going()
    ensures { KeepsGoing }
{}

/// What was found at rest are the clean contents with the targets of hindered rules taken out.
pub fn found_is_taken_out()
    ensures { FoundIsTakenOut }
{}

/// What the laws ask is met: by builds of a source with a generated header, once and again, at one job and at two, to their end
/// and up to a fault; over a cycle; and by a rule that is always carried out.
pub fn premises_are_met()
    ensures { AreMet }
{}
