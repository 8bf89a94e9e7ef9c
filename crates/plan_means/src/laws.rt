//! The laws: each is the contract of a function that does nothing.
ghost use Rattle.plan_means.specs.Names.{NamesAreThese, CopiesAreThese};
ghost use Rattle.plan_means.specs.Lists.{ListsAreReach};
ghost use Rattle.plan_means.specs.Deciding.{DecidedMayBe, FirstIsTaken, InOrderIsTaken};
ghost use Rattle.plan_means.specs.Resting.{StillIsIdle, StillIsAtRest};
ghost use Rattle.plan_means.specs.Holding.{CyclesNeedThemselves, HeldNeedFaults, NeedyAreHeld};
ghost use Rattle.plan_means.specs.Stepping.{EventsKeepTies, RunningAreKnown, ChangesKeepTies};
ghost use Rattle.plan_means.specs.Beginning.{LoadedIsTied};
ghost use Rattle.plan_means.specs.Growth.{GrowthKeepsTies};
ghost use Rattle.plan_means.specs.Scanning.{ScannedMayBe, ScansKeepTies};
ghost use Rattle.plan_means.specs.Examples.{AreMet};

/// By paths a plan takes of each rule what the model says of it.
pub fn names_are_these()
    ensures { NamesAreThese }
{}

/// A rule that was added is the copy rule of its paths.
pub fn copies_are_these()
    ensures { CopiesAreThese }
{}

/// The lists that a plan keeps of a rule are those of the model, by whatever files include.
pub fn lists_are_reach()
    ensures { ListsAreReach }
{}

/// What a plan that is tied to a build wants decided next may be decided by the model.
pub fn decided_may_be()
    ensures { DecidedMayBe }
{}

/// And of the rules that could be decided it is the one that the model takes first.
pub fn first_is_taken()
    ensures { FirstIsTaken }
{}

/// And it is taken in order, where one more action may run and no needed rule needs itself by what was found.
pub fn in_order_is_taken()
    ensures { InOrderIsTaken }
{}

/// A file that a tied plan wants scanned next may be scanned: no action that runs writes it.
pub fn scanned_may_be()
    ensures { ScannedMayBe }
{}

/// Where a tied plan can scan and decide nothing the build may wait.
pub fn still_is_idle()
    ensures { StillIsIdle }
{}

/// And where no rule runs it is at rest.
pub fn still_is_at_rest()
    ensures { StillIsAtRest }
{}

/// A rule that one at fault holds by a tied plan needs that one, and neither began nor is done.
pub fn held_need_faults()
    ensures { HeldNeedFaults }
{}

/// Rules that wait for themselves by it need themselves.
pub fn cycles_need_themselves()
    ensures { CyclesNeedThemselves }
{}

/// At rest each rule that needs one at fault is held.
pub fn needy_are_held()
    ensures { NeedyAreHeld }
{}

/// Through each event that is no scan a plan stays tied, to the steps with the one that the event tells of.
pub fn events_keep_ties()
    ensures { EventsKeepTies }
{}

/// A rule whose action runs by the steps runs by a tied plan.
pub fn running_are_known()
    ensures { RunningAreKnown }
{}

/// A plan stays tied while actions run.
pub fn changes_keep_ties()
    ensures { ChangesKeepTies }
{}

/// A plan as it is loaded is tied to a build without steps.
pub fn loaded_is_tied()
    ensures { LoadedIsTied }
{}

/// A plan stays tied while nodes and copy rules are put behind those of its graph.
pub fn growth_keeps_ties()
    ensures { GrowthKeepsTies }
{}

/// A plan that is told what a file includes stays tied.
pub fn scans_keep_ties()
    ensures { ScansKeepTies }
{}

/// What the laws ask is met: by the plan of an object that is made of a source.
pub fn premises_are_met()
    ensures { AreMet }
{}
