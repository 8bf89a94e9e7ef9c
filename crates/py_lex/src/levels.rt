//! The indentations of open blocks.
ghost use Rattle.std.specs.Prelude.{nat_eq, position, ◌≡◌, ◌≤◌, ◌-◌, ◌∷◌, [], List, length, drop, OnOk, IfOk};
ghost use Rattle.std.specs.Cmp.Lexicographic.{pointwise};
ghost use Rattle.py_lex.specs.Levels.{level_of, closed_by, innermost};

use crate::fault::LexKind;
use std::alloc::{AllocError, Global};
use std::collections::VecDeque;
use std::marker::Model;

/// Where an indentation stands among the open levels.
#[derive(Clone, Copy)]
pub enum Level {
    /// At an open level, so that this many close.
    Closes(usize),
    Opens,
    Refused(LexKind),
}

/// The indentations of the open blocks, the innermost first. The last is the empty one.
#[derive(Drop)]
pub struct Levels {
    open: VecDeque<Vec<u8>>,
}

impl Model for Levels {
    ghost use Rattle.std.specs.Prelude.{List, ℕ, map};

    ghost Value = { List (List ℕ) };

    ghost view = { λ l. map (λ v. v.items) l.open.items };
}

impl Levels {
    pub fn new(alloc: Global) -> Result<Levels, AllocError>
        ensures { IfOk result (λ l. l ≡ [] ∷ []) }
    {
        let mut open = VecDeque::new(alloc);
        open.push_front(Vec::new(alloc))?;
        Ok(Levels { open })
    }

    /// How many blocks are open.
    pub fn depth(&self) -> usize
        ensures { result ≡ length self.now - 1 }
    {
        self.open.len().saturating_sub(1)
    }

    pub fn level(&self, indentation: &[u8]) -> Level
        ensures { result ≡ level_of self.now indentation.now }
    {
        if let Some(count) = self.closed_by(indentation) {
            return Level::Closes(count);
        }
        let innermost = self.innermost();
        if indentation.starts_with(innermost) {
            return Level::Opens;
        }
        if innermost.starts_with(indentation) {
            return Level::Refused(LexKind::Indent);
        }
        Level::Refused(LexKind::Tab)
    }

    fn closed_by(&self, indentation: &[u8]) -> Option<usize>
        ensures { result ≡ closed_by self.now indentation.now }
    {
        place_of(&self.open, indentation)
    }

    fn innermost(&self) -> &[u8]
        ensures { result.now ≡ innermost self.now }
    {
        match self.open.front() {
            Some(level) => level.as_slice(),
            None => &[],
        }
    }

    pub fn open(&mut self, alloc: Global, indentation: &[u8]) -> Result<(), AllocError>
        ensures { OnOk result (self.new ≡ indentation.now ∷ self.old) }
    {
        self.open.push_front(Vec::from_slice(alloc, indentation)?)?;
        Ok(())
    }

    pub fn close(&mut self, count: usize)
        ensures { self.new ≡ drop count self.old }
    {
        pop_all(&mut self.open, count);
    }
}

fn place_of(levels: &VecDeque<Vec<u8>>, indentation: &[u8]) -> Option<usize>
    ensures { result ≡ position (λ v. pointwise nat_eq v.items indentation.now) levels.now.items }
{
    levels
        .iter()
        .position(|level| level.as_slice() == indentation)
}

fn pop_all(levels: &mut VecDeque<Vec<u8>>, count: usize)
    ensures { levels.new.items ≡ drop count levels.old.items }
{
    let mut left = count;
    while left > 0 {
        let _ = levels.pop_front();
        left -= 1;
    }
}
