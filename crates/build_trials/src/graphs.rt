//! Rows that build all small graphs of a shape, and compare each build with the slow functions.
use crate::rounds::{Rounds, Wrong};
use crate::small::{MOST_RULES, Shape, Small};
use std::alloc::Global;
use trial_text::Told;

/// How a stop may turn out: each number takes other outcomes of writes and jobs that were under way.
const PICKS: u32 = 8;

/// No build of a small graph makes as many calls.
const MOST_CALLS: u32 = 10_000;

/// A row: a shape, each how manieth graph is taken from which on, how many jobs may run, and in how many orders they end.
#[derive(Clone, Copy)]
struct Row {
    shape: Shape,
    from: u64,
    step: u64,
    jobs: u32,
    orders: u32,
}

/// How much was tried.
#[derive(Clone, Copy)]
struct Tally {
    graphs: u64,
    cyclic: u64,
    builds: u64,
}

impl Row {
    /// `RULES WAYS both|down copied|plain FROM STEP JOBS ORDERS`.
    fn read(told: &mut Told, text: &str) -> Row {
        let mut fields = text.split_whitespace();
        let rules = told.number(fields.next().unwrap_or(""));
        let ways = told.number(fields.next().unwrap_or(""));
        let both = fields.next() == Some("both");
        let copied = fields.next() == Some("copied");
        let from = told.number(fields.next().unwrap_or(""));
        let step = told.number(fields.next().unwrap_or(""));
        let jobs = told.number(fields.next().unwrap_or(""));
        let orders = told.number(fields.next().unwrap_or(""));
        let shape = Shape {
            rules: (rules as usize).min(MOST_RULES),
            ways: u64::from(ways),
            both,
            copied,
        };
        Row {
            shape,
            from: u64::from(from),
            step: u64::from(step).max(1),
            jobs,
            orders,
        }
    }

    /// How many graphs are taken.
    fn taken(&self) -> u64 {
        let left = self.shape.graphs().saturating_sub(self.from);
        left.saturating_add(self.step.saturating_sub(1)) / self.step.max(1)
    }

    /// The number of the graph that is taken at this place.
    fn taken_at(&self, place: u64) -> u64 {
        self.from.saturating_add(place.saturating_mul(self.step))
    }

    /// Which job ends at each wait, in an order of this number: its digits.
    fn endings(&self, alloc: Global, told: &mut Told, order: u32) -> Vec<u32> {
        let mut endings = Vec::new(alloc);
        let mut rest = order;
        for _ in 0..16 {
            told.keep(&mut endings, rest % self.jobs.max(1));
            rest = rest / self.jobs.max(1);
        }
        endings
    }
}

/// Builds graphs, each from nothing and after edits.
pub(crate) fn put_graphs(alloc: Global, told: &mut Told, text: &str) {
    let row = Row::read(told, text);
    let mut tally = Tally {
        graphs: 0,
        cyclic: 0,
        builds: 0,
    };
    for place in 0..row.taken() {
        let number = row.taken_at(place);
        if let Some(wrong) = try_graph(alloc, told, &row, number, &mut tally) {
            return told.show(format_args!("graph {number}: {wrong}\n"));
        }
    }
    put_tally(told, &tally);
}

fn put_tally(told: &mut Told, tally: &Tally) {
    told.show(tally.graphs);
    told.put(" graphs, of which ");
    told.show(tally.cyclic);
    told.put(" with a cycle, ");
    told.show(tally.builds);
    told.put(" builds, none wrong\n");
}

fn try_graph(alloc: Global, told: &mut Told, row: &Row, number: u64, tally: &mut Tally) -> Wrong {
    tally.graphs = tally.graphs.wrapping_add(1);
    for order in 0..row.orders {
        let endings = row.endings(alloc, told, order);
        let graph = Small {
            shape: row.shape,
            number,
        };
        let Some(mut rounds) = Rounds::new(alloc, told, graph, row.jobs, endings) else {
            return Some("there is no world");
        };
        let wrong = rounds.try_all(told);
        tally.builds = tally.builds.wrapping_add(rounds.builds);
        if wrong.is_some() {
            return wrong;
        }
        if order == 0 && rounds.is_cyclic {
            tally.cyclic = tally.cyclic.wrapping_add(1);
        }
    }
    None
}

/// Builds graphs, and then once more after an edit, stopped after each number of calls in each way, and on from there.
pub(crate) fn put_graph_stops(alloc: Global, told: &mut Told, text: &str) {
    let row = Row::read(told, text);
    for place in 0..row.taken() {
        let number = row.taken_at(place);
        if let Some(wrong) = try_stops(alloc, told, &row, number) {
            return told.show(format_args!("graph {number}: {wrong}\n"));
        }
    }
    told.show(row.taken());
    told.put(" graphs, stopped after each call, none wrong\n");
}

/// Stops a first build and one after an edit.
fn try_stops(alloc: Global, told: &mut Told, row: &Row, number: u64) -> Wrong {
    let graph = Small {
        shape: row.shape,
        number,
    };
    let endings = row.endings(alloc, told, 0);
    let Some(mut rounds) = Rounds::new(alloc, told, graph, row.jobs, endings) else {
        return Some("there is no world");
    };
    let wrong = stop_each(told, &rounds);
    if wrong.is_some() {
        return wrong;
    }
    let words = rounds.words(told);
    let _ = rounds.world.status(words.as_slice());
    rounds.change(alloc, told, 1, 0);
    stop_each(told, &rounds)
}

/// Stops a build after each number of calls, up to the one with which it ends.
fn stop_each(told: &mut Told, rounds: &Rounds) -> Wrong {
    for calls in 0..MOST_CALLS {
        let mut is_whole = false;
        for pick in 0..PICKS {
            let Some((mut after, whole)) = rounds.stopped(told, calls, pick) else {
                return Some("there is no world");
            };
            let wrong = after.builds_on(told);
            if wrong.is_some() {
                return wrong;
            }
            is_whole = whole;
        }
        if is_whole {
            return None;
        }
    }
    Some("there is no end of calls")
}
