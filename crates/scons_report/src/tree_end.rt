//! Why a tree isn't printed to its end.
ghost use Rattle.std.specs.Prelude.{◌≡◌};
ghost use Rattle.rule_graph.specs.declared.build_fault.BuildFault.TheVariants as fault;
ghost use Rattle.scons_report.specs.declared.tree_end.TreeEnd.TheVariants as end;
ghost use Rattle.scons_report.specs.Walks.{tree_end_of};

use build_files::ListEnd;
use rule_graph::BuildFault;
use scons_base::Memory as NoMemory;
use world_api::Fault as Refusal;

#[derive(Debug, Drop)]
pub enum TreeEnd {
    Fault(BuildFault),
    Memory,
}

impl From<NoMemory> for TreeEnd {
    ghost from_gives = { λ _ e. e ≡ end.Memory };

    fn from(_: NoMemory) -> Self {
        TreeEnd::Memory
    }
}

/// The sink refused.
impl From<Refusal> for TreeEnd {
    ghost from_gives = { λ _ e. e ≡ end.Fault fault.OutFault };

    fn from(_: Refusal) -> Self {
        TreeEnd::Fault(BuildFault::OutFault)
    }
}

impl From<ListEnd> for TreeEnd {
    ghost from_gives = { λ e end. end ≡ tree_end_of e };

    fn from(end: ListEnd) -> Self {
        match end {
            ListEnd::Fault(fault) => TreeEnd::Fault(fault),
            ListEnd::Memory => TreeEnd::Memory,
        }
    }
}
