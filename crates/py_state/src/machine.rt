//! What stands while scripts run, besides the host and the names at a place.
ghost use Rattle.std.specs.Prelude.{◌≡◌, ◌≢◌, ◌∷◌, ◌++◌, [], Ok, Err, Some, None, IfOk, IfErr, OnOk, OnErr, length};
ghost use Rattle.std.specs.Prelude.{slice_get, slice_set, slice_index_or};
ghost use Rattle.std.specs.Option.{option_map};
ghost use Rattle.py_heap.specs.declared.value.Value.TheVariants as value;
ghost use Rattle.py_heap.specs.Heap.{truth_of};
ghost use Rattle.py_heap.specs.Units.{charged};
ghost use Rattle.py_host.specs.Names.{value_of, with_name, with_names};
ghost use Rattle.py_meaning.specs.Lookup.{with_bound};
ghost use Rattle.py_state.specs.Stores.{store_of, function_of, state_of};
ghost use Rattle.py_state.specs.Stops.{value_stop, refusals_told};

use crate::frame::Frame;
use crate::function::Function;
use crate::stop::{Stop, value_fault};
use py_heap::{Budget, FuncId, Heap, Value, truth};
use py_host::Scope;
use scons_base::{Memory, Text};
use std::alloc::Global;
use std::rc::Rc;

#[derive(Drop)]
pub struct Machine {
    pub alloc: Global,
    pub heap: Heap,
    pub budget: Budget,
    /// The global names of each script that has begun, by its number.
    pub globals: Vec<Scope>,
    /// The functions, by the numbers of their values.
    pub functions: Vec<Rc<Function>>,
}

impl Machine {
    pub fn new(alloc: Global, heap: Heap, budget: Budget) -> Machine
        ensures { store_of result ≡ record { objects = heap; units = budget; globals = []; functions = [] } }
    {
        Machine {
            alloc,
            heap,
            budget,
            globals: Vec::new(alloc),
            functions: Vec::new(alloc),
        }
    }

    /// The number of a further script, which begins.
    pub fn begin_script(&mut self) -> Result<u64, Memory>
        ensures ok { IfOk result (λ n. n ≡ length self.old.globals.items) }
        ensures begun { OnOk result (store_of self.new ≡ record (store_of self.old) {
          globals = self.old.globals.items ++ [] ∷ [];
        }) }
        ensures err { OnErr result (store_of self.new ≡ store_of self.old) }
    {
        let number = self.globals.len() as u64;
        self.globals.push(Scope::new(self.alloc))?;
        Ok(number)
    }

    /// One unit, on this line.
    pub fn pay(&mut self, frame: &Frame, line: u32) -> Result<(), Stop>
        ensures ok { OnOk result (charged self.old.budget 1 ≡ Ok self.new.budget) }
        ensures paid { store_of self.new ≡ record (store_of self.old) { units = self.new.budget } }
        ensures fault { IfErr result (λ stop.
            (e : _) × (charged self.old.budget 1 ≡ Err e) × (stop ≡ value_stop frame.now.script line e)) }
        ensures own { IfErr result (λ stop. refusals_told stop ≡ 0) }
    {
        match self.budget.charge(1) {
            Ok(()) => Ok(()),
            Err(fault) => Err(value_fault(frame, line, fault)),
        }
    }

    /// A function by its number.
    pub fn function(&self, id: FuncId) -> Result<Option<Rc<Function>>, Memory>
        ensures { IfOk result (λ f.
            option_map (λ r. function_of r.value) f ≡ slice_get (store_of self.now).functions id.0) }
    {
        match self.functions.get(id.0 as usize) {
            Some(function) => Ok(Some(function.clone()?)),
            None => Ok(None),
        }
    }

    /// A function value.
    pub fn add_function(&mut self, function: Function) -> Result<Value, Memory>
        ensures ok { IfOk result (λ v. v ≡ value.Func (record { 0 = length self.old.functions.items })) }
        ensures added { OnOk result (store_of self.new ≡ record (store_of self.old) {
          functions = (store_of self.old).functions ++ function_of function ∷ [];
        }) }
    {
        let Ok(number) = u32::try_from(self.functions.len()) else {
            return Err(Memory);
        };
        let function = Rc::new(self.alloc, function)?;
        self.functions.push(function)?;
        Ok(Value::Func(FuncId(number)))
    }

    pub fn global(&self, script: u64, name: &Text) -> Option<Value>
        ensures { result ≡ value_of (slice_index_or self.now.globals.items script []) name.now }
    {
        match self.globals.get(script as usize) {
            Some(names) => names.get(name.as_str()),
            None => None,
        }
    }

    pub fn set_global(&mut self, script: u64, name: &Text, value: Value) -> Result<(), Memory>
        ensures { OnOk result (store_of self.new ≡ record (store_of self.old) {
          globals = slice_set self.old.globals.items script
              (with_name (slice_index_or self.old.globals.items script []) name.now value);
        }) }
    {
        let name = name.copy()?;
        let place = script as usize;
        if place < self.globals.len() {
            let names = &mut self.globals[place];
            names.set(name, value)?;
        }
        Ok(())
    }

    pub fn set_globals(&mut self, script: u64, names: &Scope) -> Result<(), Memory>
        ensures { OnOk result (store_of self.new ≡ record (store_of self.old) {
          globals = slice_set self.old.globals.items script
              (with_names (slice_index_or self.old.globals.items script []) names.now);
        }) }
    {
        let place = script as usize;
        if place < self.globals.len() {
            let globals = &mut self.globals[place];
            globals.set_all(self.alloc, names)?;
        }
        Ok(())
    }

    /// Binds a name by a statement: in the script, or in the function.
    pub fn bind(&mut self, frame: &mut Frame, name: &Text, value: Value) -> Result<(), Memory>
        ensures { OnOk result (state_of self.new frame.new ≡ with_bound (state_of self.old frame.old) name.now value) }
    {
        if frame.function.is_some() {
            frame.bind_local(name, value)
        } else {
            self.set_global(frame.script, name, value)
        }
    }

    /// Whether a value counts as true.
    pub fn truth(&self, value: Value) -> bool
        ensures { result ≡ truth_of self.now.heap value }
    {
        truth(&self.heap, value)
    }
}
