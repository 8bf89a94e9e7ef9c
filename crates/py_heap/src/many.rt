//! Many new texts or tuples at once, and a list of them.
ghost use Rattle.std.specs.Prelude.{◌≡◌, ◌-◌, ◌≤◌, ◌++◌, length, IfOk, OnOk, OnErr};
ghost use Rattle.py_heap.specs.Heap.{list_at, with_list, with_tuple, with_list_at};
ghost use Rattle.py_heap.specs.Given.{next_list, next_tuple};
ghost use Rattle.py_heap.specs.Many.{text_values, tuple_values, with_texts, with_text_list, with_tuple_list};

use crate::heap::Heap;
use crate::ids::{ListId, TextId, TupleId};
use crate::value::Value;
use crate::values::Values;
use scons_base::{Memory, Text};
use std::alloc::Global;

impl Heap {
    /// Adds texts, and a list of them.
    pub fn add_text_list(&mut self, mut texts: Vec<Text>) -> Result<Value, Memory>
        ensures ok { IfOk result (λ v. (v ≡ next_list self.old) × (self.new ≡ with_text_list self.old texts.items)) }
        ensures err { OnErr result (self.new ≡ self.old) }
    {
        let items = text_values(self.alloc, self.texts.len(), texts.len())?;
        self.lists.reserve(1)?;
        self.texts.append(&mut texts)?;
        let id = ListId(self.lists.len() as u64);
        self.lists.push(items)?;
        Ok(Value::List(id))
    }

    /// Adds tuples, and a list of them.
    pub fn add_tuple_list(&mut self, mut rows: Vec<Values>) -> Result<Value, Memory>
        ensures ok { IfOk result (λ v. (v ≡ next_list self.old) × (self.new ≡ with_tuple_list self.old rows.items)) }
        ensures err { OnErr result (self.new ≡ self.old) }
    {
        let items = tuple_values(self.alloc, self.tuples.len(), rows.len())?;
        self.lists.reserve(1)?;
        self.tuples.append(&mut rows)?;
        let id = ListId(self.lists.len() as u64);
        self.lists.push(items)?;
        Ok(Value::List(id))
    }

    /// How many texts there are: the number of the next one.
    pub fn text_count(&self) -> usize
        ensures { result ≡ length self.now.texts }
    {
        self.texts.len()
    }

    pub fn add_texts(&mut self, mut texts: Vec<Text>) -> Result<(), Memory>
        ensures ok { OnOk result (self.new ≡ with_texts self.old texts.items) }
        ensures err { OnErr result (self.new ≡ self.old) }
    {
        self.texts.append(&mut texts)?;
        Ok(())
    }

    /// Adds texts, and a list in which they may stand.
    pub fn add_list_with(&mut self, mut texts: Vec<Text>, items: Values) -> Result<Value, Memory>
        ensures ok { IfOk result (λ v. (v ≡ next_list self.old) × (self.new ≡ with_list (with_texts self.old texts.items) items)) }
        ensures err { OnErr result (self.new ≡ self.old) }
    {
        self.lists.reserve(1)?;
        self.texts.append(&mut texts)?;
        let id = ListId(self.lists.len() as u64);
        self.lists.push(items)?;
        Ok(Value::List(id))
    }

    /// Adds texts, and a tuple in which they may stand.
    pub fn add_tuple_with(&mut self, mut texts: Vec<Text>, items: Values) -> Result<Value, Memory>
        ensures ok { IfOk result (λ v. (v ≡ next_tuple self.old) × (self.new ≡ with_tuple (with_texts self.old texts.items) items)) }
        ensures err { OnErr result (self.new ≡ self.old) }
    {
        self.tuples.reserve(1)?;
        self.texts.append(&mut texts)?;
        let id = TupleId(self.tuples.len() as u64);
        self.tuples.push(items)?;
        Ok(Value::Tuple(id))
    }

    /// Adds texts, tuples in which they may stand, and a list of the tuples.
    pub fn add_tuple_list_with(
        &mut self,
        mut texts: Vec<Text>,
        mut rows: Vec<Values>,
    ) -> Result<Value, Memory>
        ensures ok { IfOk result (λ v. (v ≡ next_list self.old) × (self.new ≡ with_tuple_list (with_texts self.old texts.items) rows.items)) }
        ensures err { OnErr result (self.new ≡ self.old) }
    {
        let items = tuple_values(self.alloc, self.tuples.len(), rows.len())?;
        self.lists.reserve(1)?;
        self.texts.reserve(texts.len())?;
        self.tuples.append(&mut rows)?;
        self.texts.append(&mut texts)?;
        let id = ListId(self.lists.len() as u64);
        self.lists.push(items)?;
        Ok(Value::List(id))
    }

    /// Adds texts, and appends values to a list, among which they may stand.
    pub fn extend_list_with(
        &mut self,
        id: ListId,
        mut texts: Vec<Text>,
        items: &[Value],
    ) -> Result<(), Memory>
        ensures ok { OnOk result (self.new ≡ with_list_at (with_texts self.old texts.items) id.0 (list_at self.old id.0 ++ items.now)) }
        ensures err { OnErr result (self.new ≡ self.old) }
    {
        self.texts.reserve(texts.len())?;
        let place = id.0 as usize;
        if place < self.lists.len() {
            let list = &mut self.lists[place];
            list.extend(items)?;
        }
        self.texts.append(&mut texts)?;
        Ok(())
    }
}

/// So many texts by their numbers, from one on.
#[tactic(auto, using(crate::proofs::Counts::counts))]
pub fn text_values(alloc: Global, first: usize, count: usize) -> Result<Values, Memory>
    ensures { IfOk result (λ v. v ≡ text_values first count) }
{
    let Some(end) = first.checked_add(count) else {
        return Err(Memory);
    };
    let mut made = Values::new(Vec::new(alloc));
    'numbers: for number in first..end {
        made.push(Value::Text(TextId(number as u64)))?;
    }
    Ok(made)
}

#[tactic(auto, using(crate::proofs::Counts::counts))]
fn tuple_values(alloc: Global, first: usize, count: usize) -> Result<Values, Memory>
    ensures { IfOk result (λ v. v ≡ tuple_values first count) }
{
    let Some(end) = first.checked_add(count) else {
        return Err(Memory);
    };
    let mut made = Values::new(Vec::new(alloc));
    'numbers: for number in first..end {
        made.push(Value::Tuple(TupleId(number as u64)))?;
    }
    Ok(made)
}
