//! Lists of values.
ghost use Rattle.std.specs.Prelude.{◌≡◌, ◌++◌, ◌∷◌, [], OnOk, OnErr, IfOk, ◌≤◌, ◌<◌, length, slice_set, insert, remove, reverse};

use crate::value::Value;
use scons_base::Memory;
use std::alloc::Global;
use std::marker::Model;

/// A list of values.
#[derive(Debug, Drop)]
pub struct Values {
    values: Vec<Value>,
}

impl Model for Values {
    ghost use Rattle.py_heap.specs.Heap.{Items};

    ghost Value = { Items };

    ghost view = { λ v. v.values.items };
}

impl Values {
    pub fn new(values: Vec<Value>) -> Values
        ensures { result ≡ values.items }
    {
        Values { values }
    }

    pub fn of(alloc: Global, values: &[Value]) -> Result<Values, Memory>
        ensures { IfOk result (λ v. v ≡ values.now) }
    {
        let mut copy = Values::new(Vec::new(alloc));
        copy.extend(values)?;
        Ok(copy)
    }

    pub fn as_slice(&self) -> &[Value]
        ensures { result.now ≡ self.now }
    {
        self.values.as_slice()
    }

    pub fn push(&mut self, value: Value) -> Result<(), Memory>
        ensures ok { OnOk result (self.new ≡ self.old ++ value ∷ []) }
        ensures err { OnErr result (self.new ≡ self.old) }
    {
        self.values.push(value)?;
        Ok(())
    }

    pub fn extend(&mut self, values: &[Value]) -> Result<(), Memory>
        ensures ok { OnOk result (self.new ≡ self.old ++ values.now) }
        ensures err { OnErr result (self.new ≡ self.old) }
    {
        self.values.extend_from_slice(values)?;
        Ok(())
    }

    /// Sets the value at a place, if there is such a place.
    pub fn set(&mut self, at: usize, value: Value)
        ensures { self.new ≡ slice_set self.old at value }
    {
        if at < self.values.len() {
            self.values[at] = value;
        }
    }

    /// Puts a value in front of the one at a place, or last.
    pub fn insert(&mut self, at: usize, value: Value) -> Result<(), Memory>
        requires { at ≤ length self.old }
        ensures ok { OnOk result (self.new ≡ insert self.old at value) }
        ensures err { OnErr result (self.new ≡ self.old) }
    {
        self.values.insert(at, value)?;
        Ok(())
    }

    /// Takes the value at a place out.
    pub fn remove(&mut self, at: usize)
        requires { at < length self.old }
        ensures { self.new ≡ remove self.old at }
    {
        let _value = self.values.remove(at);
    }

    pub fn reverse(&mut self)
        ensures { self.new ≡ reverse self.old }
    {
        self.values.reverse();
    }
}
