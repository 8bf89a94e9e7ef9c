//! The board of one thread: slips that wait, slips that are taken, and endings that wait, with the history of its changes.
ghost use Rattle.std.specs.Prelude.{◌≡◌, ◌+◌, ◌*◌, ◌≤◌, Some, vec_len};
ghost use Rattle.std.specs.Vec.{vec_capacity};
ghost use Rattle.std.specs.VecDeque.{deque_len, deque_capacity};
ghost use Rattle.job_runner.specs.Replay.{replay_of};
ghost use Rattle.job_runner.specs.Seats.{EachOnce};
ghost use Rattle.job_runner.specs.Slips.{seats_of};

use crate::change::Change;
use crate::entry::{Ended, Numbered, Waiting, place_of_number};
use crate::room::{add, add_last};
use crate::slip::{Ending, Slip};
use scons_base::Memory;
use std::alloc::Global;
use std::collections::VecDeque;
use std::sync::Arc;

/// Slips in the order in which they were handed in, and endings in the order in which they were put. The history replays on the
/// board of one thread to what stands here, and there is room for all further steps of each slip.
///
/// At most as many jobs as may run at once are on it, so each list but the history is short.
#[derive(Drop)]
pub struct Board {
    waiting: VecDeque<Waiting>,
    taken: Vec<Numbered>,
    ended: VecDeque<Ended>,
    handed_in: u64,
    history: Vec<Change>,
    ghost replays: { replay_of history.items ≡ Some (seats_of handed_in waiting.items taken.items ended.items history.items) },
    ghost once: { EachOnce (seats_of handed_in waiting.items taken.items ended.items history.items) },
    ghost counted: { handed_in ≤ vec_len history },
    ghost taken_room: { vec_len taken + deque_len waiting ≤ vec_capacity taken },
    ghost ended_room: { deque_len ended + vec_len taken + deque_len waiting ≤ deque_capacity ended },
    ghost history_room: { vec_len history + 3 * deque_len waiting + 2 * vec_len taken + deque_len ended ≤ vec_capacity history },
}

impl Board {
    ghost use Rattle.std.specs.Prelude.{◌≢◌, ◌++◌, ◌∷◌, ◌<◌, [], ℕ, None, IfOk, IfErr, IfNone, IfSome, OnOk, OnErr, MatchOption, Contains, slice_get};
    ghost use Rattle.std.specs.Arc.{arc_value};
    ghost use Rattle.job_runner.specs.Lists.{lists_of, HandsIn, IsFirst, Takes, Puts, Picks};
    ghost use Rattle.job_runner.specs.Rooms.{whole_ended, whole_history};

    #[tactic(auto, using(crate::proofs::Replays::replay_none_yet, crate::proofs::Places::each_once))]
    pub fn new(alloc: Global) -> Board
        ensures { lists_of result ≡ record { handed_in = 0; waiting = []; taken = []; ended = []; history = [] } }
    {
        Board {
            waiting: VecDeque::new(alloc),
            taken: Vec::new(alloc),
            ended: VecDeque::new(alloc),
            handed_in: 0,
            history: Vec::new(alloc),
        }
    }

    /// Puts a slip behind those that wait, and gives its number. It takes all memory that the later steps of this slip need.
    pub fn hand_in(&mut self, slip: Arc<Slip, Global>) -> Result<u64, Memory>
        ensures ok { IfOk result (λ number. HandsIn number (arc_value slip) (lists_of self.old) (lists_of self.new)) }
        ensures err { OnErr result (lists_of self.new ≡ lists_of self.old) }
    {
        let handle = Arc::try_clone(&slip)?;
        self.make_room()?;
        Ok(self.enter(slip, handle))
    }

    /// Takes the room for a slip more and its later steps.
    fn make_room(&mut self) -> Result<(), Memory>
        ensures lists { lists_of self.new ≡ lists_of self.old }
        ensures waiting { OnOk result (deque_len self.new.waiting < deque_capacity self.new.waiting) }
        ensures taken { OnOk result (vec_len self.new.taken + deque_len self.new.waiting + 1 ≤ vec_capacity self.new.taken) }
        ensures ended { OnOk result (whole_ended self.new + 1 ≤ deque_capacity self.new.ended) }
        ensures history { OnOk result (whole_history self.new + 4 ≤ vec_capacity self.new.history) }
    {
        let waiting = self.waiting.len();
        let taken = self.taken.len();
        let ended = self.ended.len();
        self.waiting.reserve(1)?;
        self.taken.reserve(waiting + 1)?;
        self.ended.reserve(waiting + taken + 1)?;
        self.history.reserve(3 * waiting + 2 * taken + ended + 4)?;
        Ok(())
    }

    /// Enters a slip, for which there is room.
    fn enter(&mut self, slip: Arc<Slip, Global>, handle: Arc<Slip, Global>) -> u64
        requires same { arc_value handle ≡ arc_value slip }
        requires waiting { deque_len self.old.waiting < deque_capacity self.old.waiting }
        requires taken { vec_len self.old.taken + deque_len self.old.waiting + 1 ≤ vec_capacity self.old.taken }
        requires ended { whole_ended self.old + 1 ≤ deque_capacity self.old.ended }
        requires history { whole_history self.old + 4 ≤ vec_capacity self.old.history }
        ensures { HandsIn result (arc_value slip) (lists_of self.old) (lists_of self.new) }
    {
        let number = self.handed_in;
        add(&mut self.history, Change::HandedIn(number));
        let entry = Waiting {
            number,
            slip,
            handle,
        };
        add_last(&mut self.waiting, entry);
        self.handed_in = number + 1;
        number
    }

    /// Takes the oldest slip that waits.
    pub fn take(&mut self) -> Option<(u64, Arc<Slip, Global>)>
        ensures none { IfNone result (((lists_of self.old).waiting ≡ []) × (lists_of self.new ≡ lists_of self.old)) }
        ensures some { IfSome result (λ taken. Takes taken.0 (arc_value taken.1) (lists_of self.old) (lists_of self.new)) }
    {
        let oldest = self.waiting.pop_front()?;
        let Waiting {
            number,
            slip,
            handle,
        } = oldest;
        add(&mut self.taken, Numbered { number, slip });
        add(&mut self.history, Change::Taken(number));
        Some((number, handle))
    }

    /// Puts the ending of a slip that is taken. It is given back where no taken slip has that number and is the ending's.
    pub fn put_end(&mut self, number: u64, ending: Ending) -> Result<(), Ending>
        ensures ok { OnOk result (Puts number ending (lists_of self.old) (lists_of self.new)) }
        ensures back { IfErr result (λ back. back ≡ ending) }
        ensures err { OnErr result (lists_of self.new ≡ lists_of self.old) }
        ensures refused { OnErr result (Contains (lists_of self.old).taken (number, arc_value ending.slip) → ⊥) }
    {
        match self.place_of(number, &ending.slip) {
            Some(place) => {
                self.put_at(place, number, ending);
                Ok(())
            }
            None => Err(ending),
        }
    }

    /// The place of the taken slip with this number, where it is this one.
    fn place_of(&self, number: u64, slip: &Slip) -> Option<usize>
        ensures inside { IfSome result (λ place. place < vec_len self.now.taken) }
        ensures own { IfSome result (λ place. slice_get (lists_of self.now).taken place ≡ Some (number, slip.now)) }
        ensures none { IfNone result (Contains (lists_of self.now).taken (number, slip.now) → ⊥) }
    {
        let place = place_of_number(self.taken.as_slice(), number)?;
        if self.taken[place].slip.is_equal(slip) {
            Some(place)
        } else {
            None
        }
    }

    fn put_at(&mut self, place: usize, number: u64, ending: Ending)
        requires inside { place < vec_len self.old.taken }
        requires own { slice_get (lists_of self.old).taken place ≡ Some (number, arc_value ending.slip) }
        ensures { Puts number ending (lists_of self.old) (lists_of self.new) }
    {
        let outcome = ending.outcome;
        let _ = self.taken.remove(place);
        add_last(&mut self.ended, Ended { number, ending });
        add(&mut self.history, Change::Ended(number, outcome));
    }

    /// The number and the slip of the oldest ending that waits.
    pub fn first_end(&self) -> Option<(u64, &Slip)>
        ensures none { IfNone result ((lists_of self.now).ended ≡ []) }
        ensures some { IfSome result (λ first. IsFirst first.0 first.1.now (lists_of self.now).ended) }
    {
        let oldest = self.ended.front()?;
        let slip: &Slip = &oldest.ending.slip;
        Some((oldest.number, slip))
    }

    /// Takes the oldest ending that waits.
    pub fn pick_end(&mut self) -> Option<(u64, Ending)>
        ensures none { IfNone result (((lists_of self.old).ended ≡ []) × (lists_of self.new ≡ lists_of self.old)) }
        ensures some { IfSome result (λ picked. Picks picked.0 picked.1 (lists_of self.old) (lists_of self.new)) }
    {
        let oldest = self.ended.pop_front()?;
        let Ended { number, ending } = oldest;
        add(&mut self.history, Change::Picked(number, ending.outcome));
        Some((number, ending))
    }
}
