//! How much was tried.
use trial_text::Told;

/// How many graphs were tried, in how many ways, over how many states and events, and how many were cyclic.
#[derive(Drop)]
pub struct Tally {
    pub graphs: u64,
    pub cyclic: u64,
    pub ways: u64,
    pub states: u64,
    pub events: u64,
}

impl Tally {
    /// Of nothing.
    pub fn new() -> Tally {
        Tally {
            graphs: 0,
            cyclic: 0,
            ways: 0,
            states: 0,
            events: 0,
        }
    }

    pub fn put(&self, told: &mut Told) {
        put_count(told, " ", self.graphs, " graphs");
        put_count(told, ", ", self.cyclic, " cyclic");
        put_count(told, ", ", self.ways, " ways");
        put_count(told, ", ", self.states, " states");
        put_count(told, ", ", self.events, " events");
    }
}

fn put_count(told: &mut Told, before: &str, count: u64, behind: &str) {
    told.put(before);
    told.show(count);
    told.put(behind);
}
