//! The faults of a run.
ghost use Rattle.std.specs.Prelude.{◌≡◌};

use crate::report::Top;
use std::marker::Model;

/// The faults of a run, in the order found.
#[derive(Debug, Drop)]
pub struct Faults {
    items: Vec<Top>,
}

impl Model for Faults {
    ghost use Rattle.std.specs.Prelude.{List};
    ghost use Rattle.one_rule.specs.declared.report.Top.{Top};

    ghost Value = { List Top };

    ghost view = { λ f. f.items.items };
}

impl Faults {
    pub fn new(items: Vec<Top>) -> Faults
        ensures { result ≡ items.items }
    {
        Faults { items }
    }

    pub fn as_slice(&self) -> &[Top]
        ensures { result.now ≡ self.now }
    {
        self.items.as_slice()
    }

    pub fn into_vec(self) -> Vec<Top>
        ensures { result.items ≡ self }
    {
        let Faults { items } = self;
        items
    }
}
