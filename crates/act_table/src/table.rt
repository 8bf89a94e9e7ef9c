//! The table of actions.
ghost use Rattle.std.specs.Prelude.{◌≡◌, List, IfOk};
ghost use Rattle.std.specs.Option.{option_copied};
ghost use Rattle.act_table.specs.Rows.{fits, row_for};

use crate::contents::Contents;
use scons_base::{Memory, Texts};
use std::marker::Model;

/// What an action of a row does.
#[derive(Drop)]
pub enum Made {
    /// Each target has the content that is listed first for it, or isn't made.
    Files(Contents),
    /// No target is made, and the action ends with this status.
    Fail(i32),
}

/// An action: its signed lines, what it is given where that counts, and what it does.
#[derive(Drop)]
pub struct ActRow {
    pub signed: Texts,
    pub given: Option<Contents>,
    pub made: Made,
}

impl Made {
    fn copy(&self) -> Result<Made, Memory>
        ensures { IfOk result (λ copied. copied ≡ self.now) }
    {
        match self {
            Made::Files(contents) => Ok(Made::Files(contents.copy()?)),
            Made::Fail(code) => Ok(Made::Fail(*code)),
        }
    }
}

impl ActRow {
    fn copy(&self) -> Result<ActRow, Memory>
        ensures { IfOk result (λ copied. copied ≡ self.now) }
    {
        Ok(ActRow {
            signed: self.signed.copy()?,
            given: copy_given(&self.given)?,
            made: self.made.copy()?,
        })
    }

    fn fits(&self, signed: &Texts, given: &Contents) -> bool
        ensures { result ≡ fits self.now signed.now given.now }
    {
        self.signed.as_slice() == signed.as_slice()
            && match &self.given {
                Some(wanted) => wanted.is(given),
                None => true,
            }
    }
}

/// What the shell makes, as a table. The first row that fits counts.
#[derive(Drop)]
pub struct ActTable {
    rows: Vec<ActRow>,
}

fn copy_given(given: &Option<Contents>) -> Result<Option<Contents>, Memory>
    ensures { IfOk result (λ copied. copied ≡ given.now) }
{
    match given {
        Some(contents) => Ok(Some(contents.copy()?)),
        None => Ok(None),
    }
}

impl Model for ActTable {
    ghost use Rattle.std.specs.Prelude.{List};
    ghost use Rattle.act_table.specs.declared.table.ActRow.{ActRow};

    ghost Value = { List ActRow };

    ghost view = { λ t. t.rows.items };
}

impl ActTable {
    pub fn new(rows: Vec<ActRow>) -> ActTable
        ensures { result ≡ rows.items }
    {
        ActTable { rows }
    }

    pub(crate) fn rows(&self) -> &[ActRow]
        ensures { result.now ≡ self.now }
    {
        self.rows.as_slice()
    }

    /// The same rows once more.
    pub fn copy(&self) -> Result<ActTable, Memory>
        ensures { IfOk result (λ copied. copied ≡ self.now) }
    {
        let mut rows = Vec::with_capacity(*self.rows.allocator(), self.rows.len())?;
        for row in &self.rows {
            rows.push(row.copy()?)?;
        }
        Ok(ActTable { rows })
    }

    /// The row that counts for these signed lines and what is given.
    pub fn row_for(&self, signed: &Texts, given: &Contents) -> Option<&ActRow>
        ensures { option_copied result ≡ row_for self.now signed.now given.now }
    {
        for row in &self.rows {
            if row.fits(signed, given) {
                return Some(row);
            }
        }
        None
    }
}
