//! The laws: each is the contract of a function that does nothing.
ghost use Rattle.explain_report.specs.Laws.{DueWhereReason};
ghost use Rattle.explain_report.specs.Rules.{LeastIsReason};

use build_means::changes_are_alike;

/// A rule is found due exactly where a reason holds for one of its targets.
pub fn due_where_a_reason_holds()
    ensures { DueWhereReason }
{
    changes_are_alike();
}

/// The least of the answers for a rule's targets is the reason of the rule, and there is one exactly where the rule is due.
pub fn least_is_reason()
    ensures { LeastIsReason }
{
    changes_are_alike();
}
