//! The laws: each is the contract of a function that does nothing.
ghost use Rattle.run_means.specs.Clears.{CallsAreClears};
ghost use Rattle.run_means.specs.Examples.{AreMet};
ghost use Rattle.run_means.specs.Laws.{WaysBegin, ClearsKeepWays, FreshKeepsWays, LacksKeepWays, HaltsKeepWays, LaunchesKeepWays, RefusalsKeepWays, EndingsKeepWays, SettledStay, WaysAreRuns};

/// Where nothing runs a build has come no step far.
pub fn ways_begin()
    ensures { WaysBegin }
{}

/// Looks, new directories and removals clear some paths at most.
pub fn calls_are_clears()
    ensures { CallsAreClears }
{}

/// While running jobs alone write, a build stays where it is.
pub fn clears_keep_ways()
    ensures { ClearsKeepWays }
{}

/// A rule that is found up to date is a step.
pub fn fresh_keeps_ways()
    ensures { FreshKeepsWays }
{}

/// A rule that lacks a dependency is a step.
pub fn lacks_keep_ways()
    ensures { LacksKeepWays }
{}

/// A halt is a step.
pub fn halts_keep_ways()
    ensures { HaltsKeepWays }
{}

/// A rule whose targets are cleared and whose job starts has begun.
pub fn launches_keep_ways()
    ensures { LaunchesKeepWays }
{}

/// A rule whose targets are cleared and whose job isn't started has begun, and ended otherwise than well.
pub fn refusals_keep_ways()
    ensures { RefusalsKeepWays }
{}

/// A job that ends is the step of its rule.
pub fn endings_keep_ways()
    ensures { EndingsKeepWays }
{}

/// What no rule makes, and what is settled, stays.
pub fn settled_stay()
    ensures { SettledStay }
{}

/// How far a build came is what it did.
pub fn ways_are_runs()
    ensures { WaysAreRuns }
{}

/// What the laws ask is met: by a build that copies a source to an object.
pub fn premises_are_met()
    ensures { AreMet }
{}
