//! The tasks that are left in a body, and the values that they take.
ghost use Rattle.std.specs.Prelude.{◌≡◌, ◌∷◌, [], length, IfOk, OnOk, MatchOption};
ghost use Rattle.py_steps.specs.Desks.{stacks_of, tasks_of, values_of, top, below, above, under, is_loop, in_loop, past_loop};

use crate::task::Task;
use py_heap::Value;
use py_tree::Expr;
use scons_base::Memory;
use std::alloc::Global;

/// Both have the uppermost last.
#[derive(Drop)]
pub struct Desk<'a> {
    tasks: Vec<Task<'a>>,
    values: Vec<Value>,
}

impl<'a> Desk<'a> {
    pub fn new(alloc: Global) -> Desk<'a>
        ensures { stacks_of result ≡ record { tasks = []; values = [] } }
    {
        Desk {
            tasks: Vec::new(alloc),
            values: Vec::new(alloc),
        }
    }

    pub fn push(&mut self, task: Task<'a>) -> Result<(), Memory>
        ensures { OnOk result (stacks_of self.new ≡ record (stacks_of self.old) {
          tasks = task.entry ∷ tasks_of self.old;
        }) }
    {
        self.tasks.push(task)?;
        Ok(())
    }

    /// Evaluates an expression, and then goes on with a task.
    pub fn evaluate(&mut self, expr: &'a Expr, then: Task<'a>) -> Result<(), Memory>
        ensures { OnOk result (stacks_of self.new ≡ record (stacks_of self.old) {
          tasks = Task.Evaluate expr.entry ∷ then.entry ∷ tasks_of self.old;
        }) }
    {
        self.push(then)?;
        self.push(Task::Evaluate(expr))
    }

    /// The uppermost task, which is taken.
    pub fn next(&mut self) -> Option<Task<'a>>
        ensures { MatchOption result ((tasks_of self.old ≡ []) × (stacks_of self.new ≡ stacks_of self.old))
            (λ t. (tasks_of self.old ≡ t ∷ tasks_of self.new) × (values_of self.new ≡ values_of self.old)) }
    {
        self.tasks.pop()
    }

    pub fn give(&mut self, value: Value) -> Result<(), Memory>
        ensures { OnOk result (stacks_of self.new ≡ record (stacks_of self.old) {
          values = value ∷ values_of self.old;
        }) }
    {
        self.values.push(value)?;
        Ok(())
    }

    /// The uppermost value, which is taken; None where there is none.
    pub fn take(&mut self) -> Value
        ensures value { result ≡ top (values_of self.old) }
        ensures left { stacks_of self.new ≡ record (stacks_of self.old) { values = below (values_of self.old) } }
    {
        match self.values.pop() {
            Some(value) => value,
            None => Value::Nil,
        }
    }

    /// The uppermost value, which stays.
    pub fn top(&self) -> Value
        ensures { result ≡ top (values_of self.now) }
    {
        match self.values.last() {
            Some(value) => *value,
            None => Value::Nil,
        }
    }

    /// The uppermost value takes its own place; None where there is none.
    pub fn keep(&mut self) -> Result<(), Memory>
        ensures { OnOk result (stacks_of self.new ≡ record (stacks_of self.old) {
          values = top (values_of self.old) ∷ below (values_of self.old);
        }) }
    {
        let value = self.take();
        self.give(value)
    }

    /// The value below the uppermost one.
    pub fn second(&self) -> Value
        ensures { result ≡ top (below (values_of self.now)) }
    {
        let count = self.values.len();
        if count < 2 {
            return Value::Nil;
        }
        self.values[count - 2]
    }

    /// How many values there are.
    pub fn height(&self) -> usize
        ensures { result ≡ length (values_of self.now) }
    {
        self.values.len()
    }

    /// The values above a height, which are taken, in the order in which they were given.
    pub fn take_above(&mut self, height: usize) -> Result<Vec<Value>, Memory>
        ensures values { IfOk result (λ vs. vs.items ≡ above height (values_of self.old)) }
        ensures left { OnOk result (stacks_of self.new ≡ record (stacks_of self.old) {
          values = under height (values_of self.old);
        }) }
    {
        let from = height.min(self.values.len());
        let taken = self.values.split_off(from)?;
        Ok(taken)
    }

    /// Leaves the innermost loop.
    pub fn break_loop(&mut self)
        ensures { stacks_of self.new ≡ record (stacks_of self.old) { tasks = past_loop (tasks_of self.old) } }
    {
        'tasks: while let Some(task) = self.tasks.pop() {
            if is_loop(&task) {
                return;
            }
        }
    }

    /// Goes on with the next turn of the innermost loop.
    pub fn continue_loop(&mut self)
        ensures { stacks_of self.new ≡ record (stacks_of self.old) { tasks = in_loop (tasks_of self.old) } }
    {
        'tasks: while let Some(task) = self.tasks.last() {
            if is_loop(task) {
                return;
            }
            let _task = self.tasks.pop();
        }
    }
}

/// The turns of a loop, which `break` leaves and `continue` goes on with.
fn is_loop(task: &Task<'_>) -> bool
    ensures { result ≡ is_loop task.now }
{
    match task {
        Task::Turns { .. } => true,
        Task::Rounds(_) => true,
        _ => false,
    }
}
