//! The needed rules in the build order, and which of them can be decided now.
ghost use Rattle.std.specs.Prelude.{◌≡◌, ◌<◌, ◌&&◌, ℕ, true, false, IfOk, IfNone, IfSome, length, slice_get, slice_set};
ghost use Rattle.task_plan.specs.Queues.{number_of, is_placed, is_open as is_open_of, AreNumbers, ArePlaced, IsFirst};
ghost use Rattle.task_plan.specs.Admits.{queues};
ghost use Rattle.task_plan.specs.Ordered.{AreAtPlaces, Precedes};

use crate::marks::Marks;
use scons_base::{Memory, RuleId};
use std::alloc::Global;
use std::marker::Model;

/// The place of a rule that has none.
const UNNUMBERED: usize = usize::MAX;

/// Rules in an order, of which some are open.
#[derive(Drop)]
pub(crate) struct Queue {
    rules: Vec<RuleId>,
    /// The places of the rules, by their numbers.
    numbers: Vec<usize>,
    /// The places of the open rules.
    opens: Marks,
}

impl Model for Queue {
    ghost use Rattle.task_plan.specs.Queues.{Queued, IsQueue};

    ghost Value = { Queued };

    ghost view = { λ q. record { order = q.rules.items; numbers = q.numbers.items; opens = q.opens } };

    ghost invariant = { λ q. IsQueue q.rules.items q.numbers.items q.opens };
}

impl Queue {
    /// These rules, whose numbers are below a count, in order. None is open.
    pub(crate) fn new(alloc: Global, count: usize, rules: Vec<RuleId>) -> Result<Queue, Memory>
        ensures order { IfOk result (λ q. q.order ≡ rules.items) }
        ensures closed { IfOk result (λ q. (rule : ℕ) → is_open_of q rule ≡ false) }
        ensures placed { IfOk result (λ q. (rule : ℕ) → rule < count → queues rules.items rule ≡ true
            → is_placed q rule ≡ true) }
    {
        let opens = Marks::new(alloc, rules.len())?;
        let numbers = numbers_of(alloc, count, rules.as_slice())?;
        Ok(Queue {
            rules,
            numbers,
            opens,
        })
    }

    /// How many places there are.
    pub(crate) fn len(&self) -> usize
        ensures len { result ≡ length self.now.order }
        ensures stands { AreNumbers self.now.order self.now.numbers }
    {
        self.rules.len()
    }

    /// The rule at a place.
    pub(crate) fn at(&self, place: usize) -> Option<RuleId>
        ensures { result ≡ slice_get self.now.order place }
    {
        self.rules.get(place).copied()
    }

    /// The place of a rule in the order.
    pub(crate) fn number(&self, rule: RuleId) -> usize
        ensures { result ≡ number_of self.now rule.0 }
    {
        match self.numbers.get(rule.0 as usize) {
            Some(number) => *number,
            None => UNNUMBERED,
        }
    }

    /// Whether a rule stands in the order before another one.
    pub(crate) fn precedes(&self, rule: RuleId, other: RuleId) -> bool
        ensures { result ≡ true → Precedes self.now.order rule.0 other.0 }
    {
        let number = self.number(rule);
        let further = self.number(other);
        number < further && further < self.rules.len()
    }

    pub(crate) fn is_open(&self, rule: RuleId) -> bool
        ensures { result ≡ is_open_of self.now rule.0 }
    {
        self.opens.contains(self.number(rule))
    }

    /// Opens or closes a rule that stands in the order.
    pub(crate) fn put(&mut self, rule: RuleId, is_open: bool)
        ensures order { self.new.order ≡ self.old.order }
        ensures numbers { self.new.numbers ≡ self.old.numbers }
        ensures this { is_open_of self.new rule.0 ≡ (is_open && is_placed self.old rule.0) }
        ensures others { (x : ℕ) → (x ≡ rule.0 → ⊥) → is_open_of self.new x ≡ is_open_of self.old x }
    {
        let number = self.number(rule);
        if number < self.rules.len() {
            self.opens.put(number, is_open);
        }
    }

    /// The open rule that stands first.
    pub(crate) fn first(&self) -> Option<RuleId>
        ensures some { IfSome result (λ rule. IsFirst self.now rule.0) }
        ensures none { IfNone result ((rule : ℕ) → is_open_of self.now rule ≡ false) }
        ensures places { AreAtPlaces self.now }
    {
        match self.opens.first() {
            Some(number) => self.at(number),
            None => None,
        }
    }
}

/// The place of a rule is noted, where there is room for it.
fn note_place(numbers: &mut Vec<usize>, rule: RuleId, place: usize)
    ensures { numbers.new.items ≡ slice_set numbers.old.items rule.0 place }
{
    let number = rule.0 as usize;
    if number < numbers.len() {
        numbers[number] = place;
    }
}

/// The places of rules, by their numbers.
fn numbers_of(alloc: Global, count: usize, rules: &[RuleId]) -> Result<Vec<usize>, Memory>
    ensures numbers { IfOk result (λ numbers. AreNumbers rules.now numbers.items) }
    ensures placed { IfOk result (λ numbers. ArePlaced count rules.now numbers.items (length rules.now)) }
{
    let mut numbers = Vec::from_elem(alloc, UNNUMBERED, count)?;
    for (place, rule) in rules.iter().enumerate() {
        note_place(&mut numbers, *rule, place);
    }
    Ok(numbers)
}
