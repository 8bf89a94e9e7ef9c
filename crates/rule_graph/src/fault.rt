//! Why a rule isn't taken.
ghost use Rattle.std.specs.Prelude.{◌≡◌};
ghost use Rattle.rule_graph.specs.declared.fault.RuleFault.TheVariants as fault;

use scons_base::{Memory as NoMemory, PathText};

#[derive(Debug, Drop)]
pub enum RuleFault {
    /// This target is its own source.
    SelfSource(PathText),
    /// This target has another rule.
    TwoRules(PathText),
    /// The rule would be the one of this count, one more than there may be.
    Full(u64),
    Memory,
}

impl From<NoMemory> for RuleFault {
    ghost from_gives = { λ _ e. e ≡ fault.Memory };

    fn from(_: NoMemory) -> Self {
        RuleFault::Memory
    }
}
