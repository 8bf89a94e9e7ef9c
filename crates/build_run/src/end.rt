//! What a build answers.

use rule_graph::BuildFault;
use scons_base::{Listing, PathText, RuleId};

/// How a build ended.
#[derive(Debug, Drop)]
pub struct BuildEnd {
    /// The faults in the order in which they were found.
    pub faults: Listing<BuildFault>,
    /// Each rule that wasn't started because one that it needs is at fault: its first target, and that one's.
    pub skipped: Listing<(PathText, PathText)>,
    /// The rules that were started, in order.
    pub started: Listing<RuleId>,
    /// Whether a fault came after which nothing new starts: rules may be left then that could have gone on.
    pub is_ended: bool,
    /// Whether standard output refused.
    pub is_out_shut: bool,
    /// Whether memory was wanting.
    pub memory: bool,
}
