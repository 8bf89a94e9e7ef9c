//! What a plan wants, and what it hears.

use scons_base::{Listing, NodeId, RuleId};

/// What a build is to do next.
#[derive(Clone, Copy, Debug, PartialEq, Eq)]
pub enum Want {
    /// Say which files this file includes, for this rule.
    Scan(RuleId, NodeId),
    /// Say whether this rule is fresh, was started, or lacks a dependency.
    Decide(RuleId),
    /// Wait for a running rule.
    Wait,
    /// Nothing runs, and no rule can go on.
    Rest,
}

/// What came of a want, or of a running rule.
#[derive(Debug, Drop)]
pub enum PlanEvent {
    /// The file whose scan was wanted for this rule includes these, in order.
    Scanned(RuleId, Listing<NodeId>),
    /// The rule is up to date.
    Fresh(RuleId),
    /// The rule's action runs.
    Started(RuleId),
    /// The rule's action ended well.
    DoneOk(RuleId),
    /// The rule's action ended otherwise.
    DoneFailed(RuleId),
    /// This dependency of the rule has no rule and is no file.
    Absent(RuleId, NodeId),
    /// No further rule is to be scanned or decided.
    Halt,
}
