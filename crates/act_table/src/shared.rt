//! A table of actions that goes along with jobs to threads.
ghost use Rattle.std.specs.Prelude.{◌≡◌, ◌↔◌, IsTrue, IfOk};
ghost use Rattle.std.specs.Arc.{arc_value};

use crate::same::are_same_rows;
use crate::table::ActTable;
use scons_base::Memory;
use std::alloc::Global;
use std::marker::Model;
use std::sync::Arc;

/// A handle of a table. Contracts see it as the table's rows.
#[derive(Drop)]
pub struct SharedTable {
    table: Arc<ActTable, Global>,
}

impl Model for SharedTable {
    ghost use Rattle.std.specs.Prelude.{List};
    ghost use Rattle.std.specs.Arc.{arc_value};
    ghost use Rattle.act_table.specs.declared.table.ActRow.{ActRow};

    ghost Value = { List ActRow };

    ghost view = { λ s. arc_value s.table };
}

impl SharedTable {
    pub fn new(alloc: Global, table: ActTable) -> Result<SharedTable, Memory>
        ensures { IfOk result (λ shared. shared ≡ table) }
    {
        Ok(SharedTable {
            table: Arc::new(alloc, table)?,
        })
    }

    /// A further handle.
    pub fn share(&self) -> Result<SharedTable, Memory>
        ensures { IfOk result (λ shared. shared ≡ self.now) }
    {
        Ok(SharedTable {
            table: Arc::try_clone(&self.table)?,
        })
    }

    pub fn table(&self) -> &ActTable
        ensures { result.now ≡ self.now }
    {
        &self.table
    }

    /// Whether both are of equal tables.
    pub fn is_equal(&self, other: &SharedTable) -> bool
        ensures { IsTrue result ↔ (self.now ≡ other.now) }
    {
        are_same_rows(self.table.rows(), other.table.rows())
    }
}
