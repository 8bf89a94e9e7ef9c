//! What names stand for at a place of a script.
ghost use Rattle.std.specs.Prelude.{◌≡◌, [], ◌∷◌, Some, drop, reverse, OnOk, OnErr};
ghost use Rattle.py_host.specs.Names.{with_name};
ghost use Rattle.py_meaning.specs.States.{script_frame};
ghost use Rattle.py_meaning.specs.Lookup.{inner_value, set_inner};

use crate::function::Function;
use py_heap::Value;
use py_host::{Place, Scope};
use scons_base::{Memory, Text};
use std::alloc::Global;
use std::marker::Model;
use std::rc::Rc;

#[derive(Drop)]
pub struct Frame {
    /// The script in which the place is.
    pub script: u64,
    /// The script that runs.
    pub running: u64,
    /// The function in which the place is.
    pub function: Option<Rc<Function>>,
    /// The local names that are set.
    pub values: Scope,
    /// The names of the comprehensions round the place, the innermost ones last.
    pub inner: Vec<Scope>,
}

impl Model for Frame {
    ghost use Rattle.std.specs.Prelude.{reverse};
    ghost use Rattle.std.specs.Option.{option_map};
    ghost use Rattle.py_meaning.specs.States as meaning;

    ghost Value = { meaning.Frame };

    ghost view = { λ f. record {
      script = f.script;
      running = f.running;
      locals = option_map (λ r. r.value.locals.keys) f.function;
      values = f.values;
      inner = reverse f.inner.items;
    } };
}

impl Frame {
    /// A line of the script in which the place is.
    pub fn place(&self, line: u32) -> Place
        ensures { result ≡ record { script = self.now.script; line = line } }
    {
        Place {
            script: self.script,
            line,
        }
    }

    /// A script's own level.
    pub fn of_script(alloc: Global, script: u64) -> Frame
        ensures { result ≡ script_frame script }
    {
        Frame {
            script,
            running: script,
            function: None,
            values: Scope::new(alloc),
            inner: Vec::new(alloc),
        }
    }

    /// The body of a function, called while a script runs.
    pub fn of_function(alloc: Global, running: u64, function: Rc<Function>, values: Scope) -> Frame
        ensures { result ≡ record {
          script = function.value.script;
          running = running;
          locals = Some function.value.locals.keys;
          values = values;
          inner = [];
        } }
    {
        Frame {
            script: function.script,
            running,
            function: Some(function),
            values,
            inner: Vec::new(alloc),
        }
    }

    /// The value of a name of a comprehension.
    pub fn inner_value(&self, name: &Text) -> Option<Value>
        ensures { result ≡ inner_value self.now.inner name.now }
    {
        innermost(self.inner.as_slice(), name)
    }

    /// Begins a comprehension, with no names yet.
    pub fn open(&mut self, alloc: Global) -> Result<(), Memory>
        ensures ok { OnOk result (self.new ≡ record self.old { inner = [] ∷ self.old.inner }) }
        ensures err { OnErr result (self.new ≡ self.old) }
    {
        self.inner.push(Scope::new(alloc))?;
        Ok(())
    }

    /// Ends the innermost comprehension.
    pub fn close(&mut self)
        ensures { self.new ≡ record self.old { inner = drop 1 self.old.inner } }
    {
        let _names = self.inner.pop();
    }

    /// Binds a name of the innermost comprehension.
    pub fn bind_inner(&mut self, name: &Text, value: Value) -> Result<(), Memory>
        ensures { OnOk result (self.new ≡ record self.old { inner = set_inner self.old.inner name.now value }) }
    {
        let name = name.copy()?;
        let count = self.inner.len();
        if count > 0 {
            let names = &mut self.inner[count - 1];
            names.set(name, value)?;
        }
        Ok(())
    }

    /// Binds a local name.
    pub fn bind_local(&mut self, name: &Text, value: Value) -> Result<(), Memory>
        ensures { OnOk result (self.new ≡ record self.old { values = with_name self.old.values name.now value }) }
    {
        self.values.set(name.copy()?, value)?;
        Ok(())
    }
}

/// The value of a name, which the last ones tell first.
fn innermost(inner: &[Scope], name: &Text) -> Option<Value>
    ensures { result ≡ inner_value (reverse inner.now) name.now }
{
    let mut left = inner.len();
    'names: while left > 0 {
        left -= 1;
        if let Some(value) = inner[left].get(name.as_str()) {
            return Some(value);
        }
    }
    None
}
