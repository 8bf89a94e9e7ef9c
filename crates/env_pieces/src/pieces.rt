//! What is read so far.
ghost use Rattle.std.specs.Prelude.{◌≡◌, ◌≢◌, ◌≤◌, ◌&&◌, ◌==◌, Some, None, length, IfOk, IfErr, OnOk, string_bytes};
ghost use Rattle.env_pieces.specs.Pieces.{blank, with_text, with_mark, with_pieces, pieces_of};
ghost use Rattle.env_pieces.specs.Forms.{text_of};

use crate::parts::{are_white, empty, gathered, push_marked, push_parts, push_text};
use crate::piece::{Mark, Piece};
use scons_base::Memory;
use scons_base::limits::SUBST_LIMIT;
use std::alloc::{AllocError, AllocFailed, Global};
use std::collections::LinkedList;
use std::marker::Model;
use std::mem;

/// Why a piece isn't taken.
#[derive(Clone, Copy, Debug, PartialEq, Eq)]
pub enum PieceFault {
    /// The pieces would have more bytes than one substitution may have.
    TooLong,
    Memory,
}

impl From<AllocError> for PieceFault {
    ghost use Rattle.std.specs.Prelude.{◌≡◌};
    ghost use Rattle.env_pieces.specs.declared.pieces.PieceFault.TheVariants as fault;

    ghost from_gives = { λ _ e. e ≡ fault.Memory };

    fn from(_: AllocError) -> Self {
        PieceFault::Memory
    }
}

impl From<Memory> for PieceFault {
    ghost use Rattle.std.specs.Prelude.{◌≡◌};
    ghost use Rattle.env_pieces.specs.declared.pieces.PieceFault.TheVariants as fault;

    ghost from_gives = { λ _ e. e ≡ fault.Memory };

    fn from(_: Memory) -> Self {
        PieceFault::Memory
    }
}

impl<T: Drop> From<AllocFailed<T>> for PieceFault {
    ghost use Rattle.std.specs.Prelude.{◌≡◌};
    ghost use Rattle.env_pieces.specs.declared.pieces.PieceFault.TheVariants as fault;

    ghost from_gives = { λ _ e. e ≡ fault.Memory };

    fn from(_: AllocFailed<T>) -> Self {
        PieceFault::Memory
    }
}

/// The pieces that are read so far. Texts one behind another are one piece. What is too long leaves them as they are; where
/// memory is short they aren't used any more. Pieces are put behind others without being copied, so that what is read in a
/// call inside of others isn't gone through again at each of them.
#[derive(Drop)]
pub struct Pieces {
    /// Texts and marks in their order.
    parts: LinkedList<Piece>,
    /// The text behind them.
    text: String,
    /// How many bytes they have, a mark two.
    len: usize,
    room: usize,
    /// Whether the texts are white space alone.
    white: bool,
}

impl Model for Pieces {
    ghost use Rattle.std.specs.Prelude.{string_bytes};
    ghost use Rattle.env_pieces.specs.Pieces.{Sheet};
    ghost use Rattle.env_pieces.specs.Parts.{sheet_of, AreCounted};

    ghost Value = { Sheet };

    ghost view = { λ p. sheet_of p.parts (string_bytes p.text) p.room };

    ghost invariant = { λ p. AreCounted p.parts (string_bytes p.text) p.len p.room p.white };
}

impl Pieces {
    /// No pieces yet, with room for as many bytes as one substitution may have.
    pub fn new(alloc: Global) -> Pieces
        ensures { result ≡ blank SUBST_LIMIT }
    {
        Pieces {
            parts: LinkedList::new(alloc),
            text: String::new(alloc),
            len: 0,
            room: SUBST_LIMIT as usize,
            white: true,
        }
    }

    /// No pieces yet, with the room that these have left.
    pub fn inner(&self) -> Pieces
        ensures { result ≡ blank self.now.room }
    {
        let alloc = *self.text.allocator();
        Pieces {
            parts: LinkedList::new(alloc),
            text: String::new(alloc),
            len: 0,
            room: self.room,
            white: true,
        }
    }

    /// How many bytes may still come.
    pub fn room(&self) -> usize
        ensures { result ≡ self.now.room }
    {
        self.room
    }

    /// Whether they have no text but white space.
    pub fn is_blank(&self) -> bool
        ensures { result ≡ (length (text_of (pieces_of self.now)) == 0) }
    {
        self.white
    }

    pub fn put_text(&mut self, text: &str) -> Result<(), PieceFault>
        ensures ok { OnOk result (with_text text.now self.old ≡ Some self.new) }
        ensures fault { IfErr result (λ e. e ≢ PieceFault.Memory
            → (e ≡ PieceFault.TooLong) × (with_text text.now self.old ≡ None)) }
        ensures unchanged { IfErr result (λ e. e ≡ PieceFault.TooLong → self.new ≡ self.old) }
    {
        let len = text.len();
        if len > self.room {
            return Err(PieceFault::TooLong);
        }
        self.text.push_str(text)?;
        self.white = self.white && are_white(text.as_bytes());
        self.len += len;
        self.room -= len;
        Ok(())
    }

    pub fn put_mark(&mut self, mark: Mark) -> Result<(), PieceFault>
        ensures ok { OnOk result (with_mark mark self.old ≡ Some self.new) }
        ensures fault { IfErr result (λ e. e ≢ PieceFault.Memory
            → (e ≡ PieceFault.TooLong) × (with_mark mark self.old ≡ None)) }
        ensures unchanged { IfErr result (λ e. e ≡ PieceFault.TooLong → self.new ≡ self.old) }
    {
        if self.room < 2 {
            return Err(PieceFault::TooLong);
        }
        let alloc = *self.text.allocator();
        let text = mem::replace(&mut self.text, String::new(alloc));
        match push_marked(&mut self.parts, text, mark) {
            Ok(()) => {
                self.len += 2;
                self.room -= 2;
                Ok(())
            }
            Err(_) => {
                empty(&mut self.parts, &mut self.text);
                self.len = 0;
                self.white = true;
                Err(PieceFault::Memory)
            }
        }
    }

    /// Puts pieces behind these, in a time that doesn't depend on how many they are.
    pub fn append(&mut self, other: Pieces) -> Result<(), PieceFault>
        ensures ok { OnOk result (with_pieces (pieces_of other) self.old ≡ Some self.new) }
        ensures fault { IfErr result (λ e. e ≢ PieceFault.Memory
            → (e ≡ PieceFault.TooLong) × (with_pieces (pieces_of other) self.old ≡ None)) }
        ensures unchanged { IfErr result (λ e. e ≡ PieceFault.TooLong → self.new ≡ self.old) }
    {
        if other.len > self.room {
            return Err(PieceFault::TooLong);
        }
        let Pieces {
            mut parts,
            text,
            len,
            room: _,
            white,
        } = other;
        let before = mem::replace(&mut self.text, text);
        match push_parts(&mut self.parts, before, &mut parts) {
            Ok(()) => {
                self.len += len;
                self.room -= len;
                self.white = both(self.white, white);
                Ok(())
            }
            Err(_) => {
                empty(&mut self.parts, &mut self.text);
                self.len = 0;
                self.white = true;
                Err(PieceFault::Memory)
            }
        }
    }

    /// All pieces.
    pub fn finish(self) -> Result<Vec<Piece>, Memory>
        ensures pieces { IfOk result (λ v. v.items ≡ pieces_of self) }
        ensures count { IfOk result (λ v. length v.items ≤ SUBST_LIMIT) }
    {
        let Pieces {
            mut parts,
            text,
            len: _,
            room: _,
            white: _,
        } = self;
        let alloc = *text.allocator();
        push_text(&mut parts, text)?;
        let pieces = gathered(alloc, parts)?;
        Ok(pieces)
    }
}

fn both(left: bool, right: bool) -> bool
    ensures { result ≡ (left && right) }
{
    left && right
}
