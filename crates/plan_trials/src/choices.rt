//! Every way through a tree of choices, one after the other.
use std::alloc::Global;
use trial_text::Told;

/// A choice that was made, of so many.
#[derive(Clone, Copy)]
struct Choice {
    picked: usize,
    of: usize,
}

/// The choices of a way, and how far it has gone.
#[derive(Drop)]
pub struct Choices {
    made: Vec<Choice>,
    at: usize,
    /// So many choices are those of the way before.
    same: usize,
}

impl Choices {
    pub fn new(alloc: Global) -> Choices {
        Choices {
            made: Vec::new(alloc),
            at: 0,
            same: 0,
        }
    }

    /// Whether this way has left the one before.
    pub fn is_new(&self) -> bool {
        self.at >= self.same
    }

    /// Picks one of so many.
    pub fn pick(&mut self, told: &mut Told, of: usize) -> usize {
        let at = self.at;
        self.at = at.saturating_add(1);
        if let Some(choice) = self.made.get(at) {
            return choice.picked;
        }
        told.keep(&mut self.made, Choice { picked: 0, of });
        0
    }

    /// Goes on to the next way, where there is one; behind the last one they begin anew.
    pub fn advance(&mut self, told: &mut Told) -> bool {
        self.at = 0;
        for _ in 0..self.made.len() {
            if let Some(choice) = self.made.pop() {
                let picked = choice.picked.saturating_add(1);
                if picked < choice.of {
                    let of = choice.of;
                    told.keep(&mut self.made, Choice { picked, of });
                    break;
                }
            }
        }
        self.same = self.made.len();
        self.same > 0
    }
}
