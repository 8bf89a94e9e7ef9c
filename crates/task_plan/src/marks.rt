//! A set of small numbers whose least member is found at once, and that changes without taking memory.
ghost use Rattle.std.specs.Prelude.{◌≡◌, ◌≤◌, ◌<◌, ◌*◌, ◌+◌, if◌then◌else◌, ◌^◌, IfOk, IfSome, ℕ, Bool, false, true, get_or, length, slice_set};
ghost use Rattle.std.specs.List.{position};
ghost use Rattle.task_plan.specs.Marks.{below as below_of, mark_at};

use scons_base::Memory;
use std::alloc::Global;
use std::marker::Model;

/// Numbers below a room that was taken at the start.
///
/// A complete binary tree, laid out with the children of `n` at `2n` and `2n + 1`. The second half are the numbers, and
/// a place of the first half is marked where one below it is.
#[derive(Drop)]
pub(crate) struct Marks {
    tree: Vec<bool>,
    room: usize,
    levels: u32,
}

impl Model for Marks {
    ghost use Rattle.std.specs.Prelude.{Bool, List};
    ghost use Rattle.task_plan.specs.Marks.{IsTree, IsRoom, leaves};

    ghost Value = { List Bool };

    ghost view = { λ m. leaves m.tree.items m.room };

    ghost invariant = { λ m. (IsRoom m.room m.levels) × (IsTree m.tree.items m.room) };
}

impl Marks {
    /// No number, with room for at least as many. There are limits above any count of rules.
    pub(crate) fn new(alloc: Global, size: usize) -> Result<Marks, Memory>
        ensures room { IfOk result (λ marks. size ≤ length marks) }
        ensures none { IfOk result (λ marks. (number : ℕ) → get_or marks number false ≡ false) }
    {
        let mut room: usize = 1;
        let mut levels: u32 = 0;
        while room < size && levels < 31 {
            room *= 2;
            levels += 1;
        }
        if room < size {
            return Err(Memory);
        }
        let tree = Vec::from_elem(alloc, false, 2 * room)?;
        Ok(Marks { tree, room, levels })
    }

    /// The same numbers, with room for at least as many as these.
    pub(crate) fn widened(&self, alloc: Global, size: usize) -> Result<Marks, Memory>
        requires { length self.now ≤ size }
        ensures fewer { IfOk result (λ marks. (n : ℕ) → get_or marks n false ≡ true → get_or self.now n false ≡ true) }
        ensures more { IfOk result (λ marks. (n : ℕ) → get_or self.now n false ≡ true → get_or marks n false ≡ true) }
        ensures room { IfOk result (λ marks. size ≤ length marks) }
    {
        let mut marks = Marks::new(alloc, size)?;
        for number in 0..self.room() {
            if self.contains(number) {
                marks.put(number, true);
            }
        }
        Ok(marks)
    }

    /// The numbers that may be put in are below this one.
    pub(crate) fn room(&self) -> usize
        ensures { result ≡ length self.now }
    {
        self.room
    }

    /// Whether a number is a member.
    pub(crate) fn contains(&self, number: usize) -> bool
        ensures { result ≡ get_or self.now number false }
    {
        number < self.room && self.tree[self.room + number]
    }

    /// Puts a number in, or takes it out.
    pub(crate) fn put(&mut self, number: usize, is_member: bool)
        ensures { self.new ≡ slice_set self.old number is_member }
    {
        if number < self.room {
            let mut place = self.room + number;
            self.tree[place] = is_member;
            while place > 1 {
                place /= 2;
                let mark = below(self.tree.as_slice(), place);
                self.tree[place] = mark;
            }
        }
    }

    /// The least number.
    pub(crate) fn first(&self) -> Option<usize>
        ensures first { result ≡ position (λ mark. mark) self.now }
        ensures few { IfSome result (λ number. number < 2 ^ 32) }
    {
        if !is_marked(self.tree.as_slice(), 1) {
            return None;
        }
        let mut place = 1;
        for _level in 0..self.levels {
            place = marked_below(self.tree.as_slice(), place);
        }
        Some(place - self.room)
    }
}

/// Whether a place below this one is marked.
fn below(tree: &[bool], place: usize) -> bool
    requires { 2 * place + 1 < length tree.now }
    ensures { result ≡ below_of tree.now place }
{
    tree[2 * place] || tree[2 * place + 1]
}

fn is_marked(tree: &[bool], place: usize) -> bool
    requires { place < length tree.now }
    ensures { result ≡ mark_at tree.now place }
{
    tree[place]
}

/// The first place below this one that is marked, where one is.
fn marked_below(tree: &[bool], place: usize) -> usize
    requires { 2 * place + 1 < length tree.now }
    ensures { result ≡ (if mark_at tree.now (2 * place) then 2 * place else 2 * place + 1) }
{
    if tree[2 * place] {
        2 * place
    } else {
        2 * place + 1
    }
}
