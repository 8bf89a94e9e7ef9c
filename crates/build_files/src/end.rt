//! Why a look at the files of a build ended.
ghost use Rattle.world_api.specs.Causes.{TreeFails};
ghost use Rattle.world_api.specs.Counts.{Counts};
ghost use Rattle.build_files.specs.declared.end.ListEnd.TheVariants as end;
ghost use Rattle.build_files.specs.Causes.{HasEndCause, IsInside};
ghost use Rattle.build_files.specs.Ends.{IsReadEnd};

use node_tree::NodeRefusal;
use rule_graph::{BuildFault, RuleFault, What};
use scons_base::{Memory, PathText};
use std::alloc::{AllocError, AllocFailed};
use world_api::ReadRefusal;

#[derive(Debug, Drop)]
pub enum ListEnd {
    Fault(BuildFault),
    Memory,
}

impl ListEnd {
    /// The tree refused at this path.
    #[tactic(auto, using(crate::proofs::Looking::looking))]
    pub fn tree(path: &PathText) -> ListEnd
        ensures { (old new : Counts) → TreeFails old new → HasEndCause old new result }
    {
        match path.copy() {
            Ok(path) => ListEnd::Fault(BuildFault::TreeFault(path)),
            Err(_) => ListEnd::Memory,
        }
    }

    /// There are too many of something.
    pub fn too_many(what: What, count: u64) -> ListEnd
        ensures { IsInside result }
    {
        ListEnd::Fault(BuildFault::TooMany(what, count))
    }

    /// The file at this path wasn't read.
    #[tactic(auto, using(crate::proofs::Looking::looking))]
    pub(crate) fn read(path: &PathText, refusal: ReadRefusal) -> ListEnd
        ensures { IsReadEnd refusal result }
    {
        match refusal {
            ReadRefusal::Fault => ListEnd::tree(path),
            ReadRefusal::TooLarge(size) => ListEnd::too_large(path, size),
            ReadRefusal::Memory => ListEnd::Memory,
        }
    }

    /// The file at this path has so many bytes, more than are read.
    fn too_large(path: &PathText, size: u64) -> ListEnd
        ensures { IsInside result }
    {
        match path.copy() {
            Ok(path) => ListEnd::Fault(BuildFault::TooLarge(path, size)),
            Err(_) => ListEnd::Memory,
        }
    }
}

impl From<Memory> for ListEnd {
    ghost from_gives = { λ _ e. IsInside e };

    fn from(_: Memory) -> Self {
        ListEnd::Memory
    }
}

impl From<AllocError> for ListEnd {
    ghost from_gives = { λ _ e. IsInside e };

    fn from(_: AllocError) -> Self {
        ListEnd::Memory
    }
}

impl<T: Drop> From<AllocFailed<T>> for ListEnd {
    ghost from_gives = { λ _ e. IsInside e };

    fn from(_: AllocFailed<T>) -> Self {
        ListEnd::Memory
    }
}

impl From<NodeRefusal> for ListEnd {
    ghost from_gives = { λ _ e. IsInside e };

    fn from(refusal: NodeRefusal) -> Self {
        match refusal {
            NodeRefusal::Full(count) => ListEnd::too_many(What::Nodes, count),
            NodeRefusal::Memory => ListEnd::Memory,
        }
    }
}

impl From<RuleFault> for ListEnd {
    ghost from_gives = { λ _ e. IsInside e };

    fn from(fault: RuleFault) -> Self {
        match fault {
            RuleFault::Full(count) => ListEnd::too_many(What::Rules, count),
            _ => ListEnd::Memory,
        }
    }
}
