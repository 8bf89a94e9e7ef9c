//! Why a declared rule doesn't go into the graph.
ghost use Rattle.std.specs.Prelude.{◌≡◌};
ghost use Rattle.scons_rules.specs.declared.fault.RuleReadFault.TheVariants.{Memory};
ghost use Rattle.scons_rules.specs.Faults.{of_name, of_node, of_rule, of_text};

use env_subst::SubstFault;
use node_tree::NodeRefusal;
use rule_graph::{RuleFault, What};
use scons_base::Memory as NoMemory;
use scons_decls::{NameFault, Place};
use std::alloc::{AllocError, AllocFailed};
use text_files::TextRefusal;

#[derive(Drop)]
pub enum RuleReadFault {
    Name(NameFault),
    /// A fault of the call at this place.
    At(Place, NameFault),
    TooMany(What, u64),
    Memory,
}

impl From<NoMemory> for RuleReadFault {
    ghost from_gives = { λ _ e. e ≡ Memory };

    fn from(_: NoMemory) -> Self {
        RuleReadFault::Memory
    }
}

impl From<AllocError> for RuleReadFault {
    ghost from_gives = { λ _ e. e ≡ Memory };

    fn from(_: AllocError) -> Self {
        RuleReadFault::Memory
    }
}

impl<T: Drop> From<AllocFailed<T>> for RuleReadFault {
    ghost from_gives = { λ _ e. e ≡ Memory };

    fn from(_: AllocFailed<T>) -> Self {
        RuleReadFault::Memory
    }
}

impl From<NameFault> for RuleReadFault {
    ghost from_gives = { λ fault e. e ≡ of_name fault };

    fn from(fault: NameFault) -> Self {
        match fault {
            NameFault::Memory => RuleReadFault::Memory,
            fault => RuleReadFault::Name(fault),
        }
    }
}

impl From<NodeRefusal> for RuleReadFault {
    ghost from_gives = { λ refusal e. e ≡ of_node refusal };

    fn from(refusal: NodeRefusal) -> Self {
        match refusal {
            NodeRefusal::Full(count) => RuleReadFault::TooMany(What::Nodes, count),
            NodeRefusal::Memory => RuleReadFault::Memory,
        }
    }
}

impl From<RuleFault> for RuleReadFault {
    ghost from_gives = { λ fault e. e ≡ of_rule fault };

    fn from(fault: RuleFault) -> Self {
        match fault {
            RuleFault::SelfSource(path) => RuleReadFault::Name(NameFault::SelfSource(path)),
            RuleFault::TwoRules(path) => RuleReadFault::Name(NameFault::TwoRules(path)),
            RuleFault::Full(count) => RuleReadFault::TooMany(What::Rules, count),
            RuleFault::Memory => RuleReadFault::Memory,
        }
    }
}

impl From<TextRefusal> for RuleReadFault {
    ghost from_gives = { λ refusal e. e ≡ of_text refusal };

    fn from(refusal: TextRefusal) -> Self {
        match refusal {
            TextRefusal::TooLarge(bytes) => {
                RuleReadFault::Name(NameFault::Subst(SubstFault::TooLong(bytes)))
            }
            TextRefusal::Memory => RuleReadFault::Memory,
        }
    }
}
