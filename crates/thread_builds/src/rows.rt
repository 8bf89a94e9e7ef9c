//! The trials: each tells its name, and behind it what its steps give.
use crate::meeting::{Door, Meeting};
use crate::start::Start;
use crate::trial::Trial;
use job_runner::{Gate, NoGate};
use std::alloc::Global;
use std::sync::{Arc, Wait};
use std::thread::Threads;
use trial_text::Told;

/// A header that two sources include is edited, and both objects and the program are made again.
pub(crate) fn put_edited<T>(alloc: Global, rt: T, told: &mut Told)
where
    T: Threads + Wait + Clone + Send + Sync + Drop + 'static,
{
    let name = "a header that is edited";
    told.put_all(&["== ", name, "\n"]);
    match Trial::new(rt, headers(alloc, told), NoGate) {
        Some(mut trial) => edit_header(told, &mut trial),
        None => told.refuse(),
    }
    told.end(name);
}

fn headers(alloc: Global, told: &mut Told) -> Start {
    let mut start = Start::new(alloc);
    start.file(told, "SConstruct", "Program('app', ['a.c', 'b.c'])\n");
    start.file(told, "a.c", "#include \"x.h\"\n");
    start.file(told, "b.c", "#include \"x.h\"\n");
    start.file(told, "x.h", "one\n");
    start
}

fn edit_header<T: Wait + Drop, G: Gate + Drop>(told: &mut Told, trial: &mut Trial<T, G>) {
    trial.run(told, "-Q -j2");
    trial.edit(told, "x.h", "two\n");
    trial.run(told, "-Q -j2");
    trial.run(told, "-Q -j2");
}

/// The same project: why each rule runs, and what the program is made of.
pub(crate) fn put_explained<T>(alloc: Global, rt: T, told: &mut Told)
where
    T: Threads + Wait + Clone + Send + Sync + Drop + 'static,
{
    let name = "why rules run";
    told.put_all(&["== ", name, "\n"]);
    match Trial::new(rt, headers(alloc, told), NoGate) {
        Some(mut trial) => explain(told, &mut trial),
        None => told.refuse(),
    }
    told.end(name);
}

fn explain<T: Wait + Drop, G: Gate + Drop>(told: &mut Told, trial: &mut Trial<T, G>) {
    trial.run(told, "-Q --debug=explain");
    trial.edit(told, "x.h", "two\n");
    trial.run(told, "-Q --debug=explain --tree=prune app");
}

/// Two headers are made, of which the first includes the second, and a source includes the first: the text of its object names each
/// dependency.
pub(crate) fn put_made<T>(alloc: Global, rt: T, told: &mut Told)
where
    T: Threads + Wait + Clone + Send + Sync + Drop + 'static,
{
    let name = "headers that are made";
    told.put_all(&["== ", name, "\n"]);
    match Trial::new(rt, makers(alloc, told), NoGate) {
        Some(mut trial) => make_headers(told, &mut trial),
        None => told.refuse(),
    }
    told.end(name);
}

fn makers(alloc: Global, told: &mut Told) -> Start {
    let mut start = Start::new(alloc);
    start.makes(told, "mk1", "g1.h", "#include \"g2.h\"\n");
    start.file(
        told,
        "SConstruct",
        "Command('g1.h', 'g1.in', 'mk1')\nCommand('g2.h', 'g2.in', 'mk2')\nObject('a.c')\n",
    );
    start.file(told, "g1.in", "1");
    start.file(told, "g2.in", "2");
    start.file(told, "a.c", "#include \"g1.h\"\n");
    start
}

fn make_headers<T: Wait + Drop, G: Gate + Drop>(told: &mut Told, trial: &mut Trial<T, G>) {
    trial.run(told, "-Q -j3");
    trial.show(told, "a.o");
}

/// A header is written from a source, whose text changes and makes the same header again. So the object that includes it is made by
/// the first run alone.
pub(crate) fn put_written<T>(alloc: Global, rt: T, told: &mut Told)
where
    T: Threads + Wait + Clone + Send + Sync + Drop + 'static,
{
    let name = "a header that is written";
    told.put_all(&["== ", name, "\n"]);
    match Trial::new(rt, written(alloc, told), NoGate) {
        Some(mut trial) => write_header(told, &mut trial),
        None => told.refuse(),
    }
    told.end(name);
}

fn written(alloc: Global, told: &mut Told) -> Start {
    let mut start = Start::new(alloc);
    start.file(
        told,
        "SConstruct",
        "Substfile('c.h.in', SUBST_DICT={'A': 'BB', 'B': 'c'})\nObject('u.c')\n",
    );
    start.file(told, "c.h.in", "A-B\n");
    start.file(told, "u.c", "#include \"c.h\"\n");
    start
}

fn write_header<T: Wait + Drop, G: Gate + Drop>(told: &mut Told, trial: &mut Trial<T, G>) {
    trial.run(told, "-Q -j2");
    trial.show(told, "c.h");
    trial.edit(told, "c.h.in", "cc-B\n");
    trial.run(told, "-Q -j2");
    trial.show(told, "c.h");
}

/// Of two targets that a third is made of, one fails as long as its source holds `0`.
pub(crate) fn put_failed<T>(alloc: Global, rt: T, told: &mut Told)
where
    T: Threads + Wait + Clone + Send + Sync + Drop + 'static,
{
    let name = "an action that fails";
    told.put_all(&["== ", name, "\n"]);
    match Trial::new(rt, joined(alloc, told), NoGate) {
        Some(mut trial) => fail_first(told, &mut trial),
        None => told.refuse(),
    }
    told.end(name);
}

fn joined(alloc: Global, told: &mut Told) -> Start {
    let mut start = Start::new(alloc);
    start.fails(told, "bad", "s1", "0");
    start.file(
        told,
        "SConstruct",
        "Command('a', 's1', 'bad')\nCommand('b', 's2', 'good')\nCommand('c', ['a', 'b'], 'join')\n",
    );
    start.file(told, "s1", "0");
    start.file(told, "s2", "x");
    start
}

fn fail_first<T: Wait + Drop, G: Gate + Drop>(told: &mut Told, trial: &mut Trial<T, G>) {
    trial.run(told, "-j2 -k");
    trial.edit(told, "s1", "1");
    trial.run(told, "-Q");
}

/// Two rules that have nothing to do with one another, each of whose jobs is held until the other has come.
pub(crate) fn put_met<T>(alloc: Global, rt: T, told: &mut Told)
where
    T: Threads + Wait + Clone + Send + Sync + Drop + 'static,
{
    let name = "two jobs that meet";
    told.put_all(&["== ", name, "\n"]);
    match Meeting::shared(alloc) {
        Some(meeting) => put_meeting(alloc, rt, told, &meeting),
        None => told.refuse(),
    }
    told.end(name);
}

fn put_meeting<T>(alloc: Global, rt: T, told: &mut Told, meeting: &Arc<Meeting, Global>)
where
    T: Threads + Wait + Clone + Send + Sync + Drop + 'static,
{
    let Some(door) = Door::to(meeting) else {
        return told.refuse();
    };
    match Trial::new(rt, apart(alloc, told), door) {
        Some(mut trial) => meet(told, &mut trial, meeting),
        None => told.refuse(),
    }
}

fn apart(alloc: Global, told: &mut Told) -> Start {
    let mut start = Start::new(alloc);
    start.file(
        told,
        "SConstruct",
        "Command('a', 's', 'one')\nCommand('b', 's', 'two')\n",
    );
    start.file(told, "s", "abc");
    start
}

/// The run, and how many of two jobs went on without the other.
fn meet<T: Wait + Drop, G: Gate + Drop>(
    told: &mut Told,
    trial: &mut Trial<T, G>,
    meeting: &Meeting,
) {
    trial.run(told, "-Q -j2");
    told.show(meeting.missed());
    told.put(" of 2 jobs went on without the other\n");
}
