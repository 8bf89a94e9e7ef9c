//! The units of work, and what a failed operation leaves of them.
ghost use Rattle.std.specs.Prelude.{◌≡◌, ◌≢◌, Ok, Err, IfErr, OnOk, OnErr};
ghost use Rattle.py_heap.specs.Units.{charged};

use crate::fault::ValueFault;
use std::marker::Model;

/// The units of work that a reading may spend.
#[derive(Debug, Drop)]
pub struct Budget {
    total: u64,
    used: u64,
}

impl Model for Budget {
    ghost use Rattle.std.specs.Prelude.{◌≤◌};
    ghost use Rattle.py_heap.specs.Units.{Units};

    ghost Value = { Units };

    ghost view = { λ b. record { total = b.total; used = b.used } };

    ghost invariant = { λ b. b.used ≤ b.total };
}

impl Budget {
    pub fn new(total: u64) -> Budget
        ensures { result ≡ record { total = total; used = 0 } }
    {
        Budget { total, used: 0 }
    }

    /// The units used so far.
    pub fn used(&self) -> u64
        ensures { result ≡ self.now.used }
    {
        self.used
    }

    /// The same total and as many units used.
    pub fn copy(&self) -> Budget
        ensures { result ≡ self.now }
    {
        Budget {
            total: self.total,
            used: self.used,
        }
    }

    /// Uses units, before the work that they stand for.
    pub fn charge(&mut self, units: u64) -> Result<(), ValueFault>
        ensures ok { OnOk result (charged self.old units ≡ Ok self.new) }
        ensures fault { IfErr result (λ e. charged self.old units ≡ Err e) }
        ensures err { OnErr result (self.new ≡ self.old) }
        ensures paid { IfErr result (λ e. e ≢ ValueFault.Memory) }
    {
        if self.total - self.used < units {
            return Err(ValueFault::Budget(self.used));
        }
        self.used += units;
        Ok(())
    }
}

/// An answer as it is; where it is a fault, the units are those before again.
pub fn settled<T>(
    budget: &mut Budget,
    before: Budget,
    answer: Result<T, ValueFault>,
) -> Result<T, ValueFault>
    ensures same { result ≡ answer }
    ensures paid { OnOk answer (budget.new ≡ budget.old) }
    ensures unpaid { OnErr answer (budget.new ≡ before) }
{
    if answer.is_err() {
        *budget = before;
    }
    answer
}
