//! Where a build goes on: what it is lent, what it knows, and what it has to report.

use crate::account::Account;
use crate::building::Options;
use crate::tickets::Tickets;
use build_files::Inputs;
use indexmap::IndexSet;
use rule_graph::Graph;
use scons_base::PathText;
use sign_store::Store;
use task_plan::Plan;
use world_api::{Sink, World};

/// A build that goes on. Its steps are methods: a call that needs the store or the account alone gets just these. It owns
/// nothing, so what was lent to it has behind it what it held in the end.
#[derive(Drop)]
pub(crate) struct Site<'a, 'p, W: World, O: Sink, E: Sink> {
    pub(crate) graph: &'a mut Graph,
    pub(crate) store: &'a mut Store,
    pub(crate) world: &'a mut W,
    pub(crate) out: &'p mut O,
    pub(crate) err: &'p mut E,
    pub(crate) run: &'p mut Run,
    pub(crate) account: &'p mut Account,
    pub(crate) options: Options,
}

/// What a build knows besides what it reports.
#[derive(Drop)]
pub(crate) struct Run {
    pub(crate) plan: Plan,
    pub(crate) inputs: Inputs,
    pub(crate) tickets: Tickets,
    /// The rules whose actions ended well and whose records aren't put yet, in the order of their endings.
    pub(crate) held: Tickets,
    /// Directories that were made or stand.
    pub(crate) dirs: IndexSet<PathText>,
}
