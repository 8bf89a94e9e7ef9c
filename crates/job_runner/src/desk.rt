//! What lies under the lock: the board, whose endings are the runner's own, and how many workers there are. Beside it, what
//! is out of it, which lies with the caller.
//!
//! No other file can make a desk or a list of what is out, add a slip to one, or take one off it: each desk has one list, what is handed
//! in goes onto the board and onto the list in one step, and both give it back in one.
ghost use Rattle.job_runner.specs.Answers.{AreGiven};
ghost use Rattle.job_runner.specs.Lists.{lists_of};

use crate::board::Board;
use crate::entry::Numbered;
use crate::gated::Gated;
use crate::room::add;
use crate::runner::{Gate, Runner};
use crate::slip::{Ending, Slip};
use scons_base::Memory;
use std::alloc::Global;
use std::marker::PhantomData;
use std::snapshot::Snapshot;
use std::sync::{Arc, Condvar, Mutex};

/// The slips that a caller has out, each under its number on a board. Only a desk adds one, as it puts it on its board.
#[derive(Drop)]
pub struct OutList {
    slips: Vec<Numbered>,
}

/// The duty to put the ending of this slip, which was taken under this number. It has no other end than that, since it can't be dropped.
pub struct Turn {
    number: u64,
    slip: Snapshot<Slip>,
}

impl Turn {
    ghost use Rattle.std.specs.Prelude.{◌≡◌};
    ghost use Rattle.std.specs.Arc.{arc_value};

    fn of(number: u64, slip: &Arc<Slip, Global>) -> Turn
        ensures number { result.number ≡ number }
        ensures slip { result.slip.value ≡ arc_value slip.now }
    {
        Turn {
            number,
            slip: Snapshot::of(slip),
        }
    }
}

/// The board, with how many workers it has and how many it should have. Each ending on it was given by a run of the runner's type.
#[derive(Drop)]
pub struct Desk<R: Runner, G> {
    board: Board,
    wanted: usize,
    started: usize,
    /// A thread couldn't be started.
    refused: bool,
    of: PhantomData<(R, G)>,
    ghost own: { AreGiven R.answer R.gave (lists_of board).ended },
}

/// What the threads and the caller of a pool share: the lock with the one desk under it, and the runner behind its gate.
#[derive(Drop)]
pub struct Shared<R: Runner, G> {
    pub desk: Mutex<Desk<R, G>>,
    /// A slip waits.
    pub handed_in: Condvar,
    /// More workers are wanted.
    pub wanted: Condvar,
    /// An ending waits, or no worker can be started.
    pub ended: Condvar,
    pub gated: Gated<R, G>,
}

impl<R: Runner, G: Gate> Shared<R, G> {
    ghost use Rattle.std.specs.Prelude.{◌≡◌, []};
    ghost use Rattle.job_runner.specs.Outs.{out_of};

    /// An empty board without a worker, and the one list of what is out of it.
    pub fn new(alloc: Global, runner: Arc<R, Global>, gate: G) -> (Shared<R, G>, OutList)
        ensures { out_of result.1 ≡ [] }
    {
        let shared = Shared {
            desk: Mutex::new(Desk::new(alloc)),
            handed_in: Condvar::new(),
            wanted: Condvar::new(),
            ended: Condvar::new(),
            gated: Gated::new(runner, gate),
        };
        (shared, OutList::new(alloc))
    }
}

impl OutList {
    ghost use Rattle.std.specs.Prelude.{◌≡◌, ◌↔◌, ◌<◌, ◌++◌, ◌∷◌, [], Some, Contains, IsTrue, IfOk, IfNone, IfSome, OnOk, slice_get, vec_len};
    ghost use Rattle.std.specs.Arc.{arc_value};
    ghost use Rattle.std.specs.List.{remove};
    ghost use Rattle.std.specs.Vec.{vec_capacity};
    ghost use Rattle.job_runner.specs.Outs.{out_of};

    fn new(alloc: Global) -> OutList
        ensures { out_of result ≡ [] }
    {
        OutList {
            slips: Vec::new(alloc),
        }
    }

    pub fn len(&self) -> usize
        ensures { result ≡ vec_len self.now.slips }
    {
        self.slips.len()
    }

    /// The place of the slip with this number, where it is this one.
    fn place_of(&self, number: u64, slip: &Slip) -> Option<usize>
        ensures inside { IfSome result (λ place. place < vec_len self.now.slips) }
        ensures own { IfSome result (λ place. slice_get (out_of self.now) place ≡ Some (number, slip.now)) }
        ensures none { IfNone result (Contains (out_of self.now) (number, slip.now) → ⊥) }
    {
        let mut place = 0;
        while place < self.slips.len() {
            if self.is_at(place, number, slip) {
                return Some(place);
            }
            place += 1;
        }
        None
    }

    /// Whether the slip at a place has this number, and is this one.
    fn is_at(&self, place: usize, number: u64, slip: &Slip) -> bool
        requires { place < vec_len self.now.slips }
        ensures { IsTrue result ↔ (slice_get (out_of self.now) place ≡ Some (number, slip.now)) }
    {
        let out = &self.slips[place];
        out.number == number && out.slip.is_equal(slip)
    }

    /// Takes the slip at a place off the list.
    fn remove(&mut self, place: usize)
        requires { place < vec_len self.old.slips }
        ensures { self.new.slips.items ≡ remove self.old.slips.items place }
    {
        let _ = self.slips.remove(place);
    }

    /// Takes the room for a slip more, and a further handle of it.
    fn room_for(&mut self, slip: &Arc<Slip, Global>) -> Result<Arc<Slip, Global>, Memory>
        ensures same { self.new.slips.items ≡ self.old.slips.items }
        ensures handle { IfOk result (λ handle. arc_value handle ≡ arc_value slip.now) }
        ensures room { OnOk result (vec_len self.new.slips < vec_capacity self.new.slips) }
    {
        self.slips.reserve(1)?;
        Ok(Arc::try_clone(slip)?)
    }

    /// Adds a slip, for which there is room.
    fn add(&mut self, number: u64, slip: Arc<Slip, Global>)
        requires { vec_len self.old.slips < vec_capacity self.old.slips }
        ensures { out_of self.new ≡ out_of self.old ++ (number, arc_value slip) ∷ [] }
    {
        add(&mut self.slips, Numbered { number, slip });
    }
}

impl<R: Runner, G> Desk<R, G> {
    ghost use Rattle.std.specs.Prelude.{◌≡◌, ◌+◌, ◌-◌, ◌≤◌, ◌<◌, [], vec_len, true, false, nat_lt, if◌then◌else◌, IfOk, IfErr, IfNone, IfSome, OnOk, OnErr, Contains};
    ghost use Rattle.std.specs.Arc.{arc_value};
    ghost use Rattle.job_runner.specs.Answers.{Gives};
    ghost use Rattle.job_runner.specs.Lists.{HandsIn, Takes, Puts};
    ghost use Rattle.job_runner.specs.Outs.{HandsOut, IsFirstOut, IsFirstNotOut, PicksFrom, out_of};

    fn new(alloc: Global) -> Desk<R, G> {
        Desk {
            board: Board::new(alloc),
            wanted: 0,
            started: 0,
            refused: false,
            of: PhantomData,
        }
    }

    /// Puts a slip on the board, and onto the list of what its caller has out.
    pub fn hand_in(&mut self, slip: Arc<Slip, Global>, out: &mut OutList) -> Result<(), Memory>
        ensures ok { OnOk result (HandsOut (arc_value slip) (lists_of self.old.board) (lists_of self.new.board) (out_of out.old) (out_of out.new)) }
        ensures board { OnErr result (lists_of self.new.board ≡ lists_of self.old.board) }
        ensures out { OnErr result (out_of out.new ≡ out_of out.old) }
    {
        let handle = out.room_for(&slip)?;
        let number = self.enter(slip)?;
        out.add(number, handle);
        Ok(())
    }

    /// Puts a slip on the board.
    fn enter(&mut self, slip: Arc<Slip, Global>) -> Result<u64, Memory>
        ensures ok { IfOk result (λ number. HandsIn number (arc_value slip) (lists_of self.old.board) (lists_of self.new.board)) }
        ensures err { OnErr result (lists_of self.new.board ≡ lists_of self.old.board) }
    {
        self.board.hand_in(slip)
    }

    /// Asks for so many workers, unless none can be started.
    pub fn ask(&mut self, wanted: usize)
        ensures wanted { self.old.refused ≡ false → wanted ≤ self.new.wanted }
        ensures started { self.new.started ≡ self.old.started }
        ensures refused { self.new.refused ≡ self.old.refused }
        ensures board { self.new.board ≡ self.old.board }
    {
        if !self.refused && self.wanted < wanted {
            self.wanted = wanted;
        }
    }

    /// Takes the oldest slip that waits.
    pub fn take(&mut self) -> Option<(Turn, Arc<Slip, Global>)>
        ensures none { IfNone result ((lists_of self.old.board).waiting ≡ []) }
        ensures same { IfNone result (lists_of self.new.board ≡ lists_of self.old.board) }
        ensures some { IfSome result (λ taken. Takes taken.0.number (arc_value taken.1) (lists_of self.old.board) (lists_of self.new.board)) }
        ensures own { IfSome result (λ taken. taken.0.slip.value ≡ arc_value taken.1) }
    {
        match self.board.take() {
            Some((number, slip)) => Some((Turn::of(number, &slip), slip)),
            None => None,
        }
    }

    /// Takes the oldest slip that waits, where there is no worker to run it.
    pub fn take_deserted(&mut self) -> Option<(Turn, Arc<Slip, Global>)>
        ensures same { IfNone result (lists_of self.new.board ≡ lists_of self.old.board) }
        ensures some { IfSome result (λ taken. Takes taken.0.number (arc_value taken.1) (lists_of self.old.board) (lists_of self.new.board)) }
        ensures own { IfSome result (λ taken. taken.0.slip.value ≡ arc_value taken.1) }
    {
        if self.refused && self.started == 0 {
            self.take()
        } else {
            None
        }
    }

    /// Puts the ending of a turn's slip, or gives it back where that isn't taken.
    pub fn put_end(&mut self, turn: Turn, ending: Ending) -> Result<(), Ending>
        requires own { arc_value ending.slip ≡ turn.slip.value }
        requires gives { Gives R.answer R.gave ending }
        ensures ok { OnOk result (Puts turn.number ending (lists_of self.old.board) (lists_of self.new.board)) }
        ensures back { IfErr result (λ back. back ≡ ending) }
        ensures err { OnErr result (lists_of self.new.board ≡ lists_of self.old.board) }
        ensures refused { OnErr result (Contains (lists_of self.old.board).taken (turn.number, arc_value ending.slip) → ⊥) }
    {
        let Turn { number, slip: _ } = turn;
        self.board.put_end(number, ending)
    }

    /// Takes the oldest ending that waits, and its slip off the list of what is out, where it stands there.
    pub fn pick_end(&mut self, out: &mut OutList) -> Option<(usize, Ending)>
        ensures none { IfNone result (IsFirstNotOut (lists_of self.old.board).ended (out_of out.old)) }
        ensures some { IfSome result (PicksFrom (lists_of self.old.board) (lists_of self.new.board) (out_of out.old) (out_of out.new)) }
        ensures board { IfNone result (lists_of self.new.board ≡ lists_of self.old.board) }
        ensures out { IfNone result (out_of out.new ≡ out_of out.old) }
        ensures own { IfSome result (λ picked. Gives R.answer R.gave picked.1) }
    {
        let place = self.place_of_first(out)?;
        let (_, ending) = self.board.pick_end()?;
        out.remove(place);
        Some((place, ending))
    }

    /// The place on the list of what is out at which the slip of the oldest ending stands.
    fn place_of_first(&self, out: &OutList) -> Option<usize>
        ensures inside { IfSome result (λ place. place < vec_len out.now.slips) }
        ensures own { IfSome result (λ place. IsFirstOut place (lists_of self.now.board).ended (out_of out.now)) }
        ensures none { IfNone result (IsFirstNotOut (lists_of self.now.board).ended (out_of out.now)) }
    {
        let (number, slip) = self.board.first_end()?;
        out.place_of(number, slip)
    }

    /// Counts a further worker as started, where one is wanted.
    pub fn start_worker(&mut self) -> bool
        ensures wanted { result ≡ nat_lt self.old.started self.old.wanted }
        ensures started { self.new.started ≡ self.old.started + (if result then 1 else 0) }
        ensures board { self.new.board ≡ self.old.board }
    {
        if self.started < self.wanted {
            self.started += 1;
            return true;
        }
        false
    }

    /// Takes a worker back that couldn't be started. No further one is tried.
    pub fn lose_worker(&mut self)
        ensures started { self.new.started ≡ self.old.started - 1 }
        ensures refused { self.new.refused ≡ true }
        ensures board { self.new.board ≡ self.old.board }
    {
        self.started = self.started.saturating_sub(1);
        self.refuse();
    }

    /// No worker is started any more.
    pub fn refuse(&mut self)
        ensures started { self.new.started ≡ self.old.started }
        ensures wanted { self.new.wanted ≡ 0 }
        ensures refused { self.new.refused ≡ true }
        ensures board { self.new.board ≡ self.old.board }
    {
        self.refused = true;
        self.wanted = 0;
    }
}
