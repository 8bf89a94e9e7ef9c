//! What is told of a history.
use build_history::{HistoryFault, Told as History};
use scons_base::{Blob, PathText};
use scons_top::Report;
use trial_text::Told;

/// The report of each build and what it printed, and the files behind the last event. Of so many first builds only their number is
/// told, where each has status 0.
pub(crate) fn put_told(told: &mut Told, history: &History, untold: usize) {
    put_untold(told, history, untold);
    let builds = history.reports.iter().zip(history.outs.iter());
    for (report, out) in builds.skip(untold) {
        put_build(told, report, out);
    }
    match history.world.files() {
        Ok(files) => put_files(told, files.as_slice()),
        Err(_) => told.refuse(),
    }
    told.show(history.trees.len());
    told.put(" events\n");
}

fn put_untold(told: &mut Told, history: &History, untold: usize) {
    if untold == 0 {
        return;
    }
    for report in history.reports.iter().take(untold) {
        if report.status != 0 {
            told.refuse();
        }
    }
    told.show(untold);
    told.put(" builds with status 0\n");
}

fn put_build(told: &mut Told, report: &Report, out: &Blob) {
    told.put_bytes(out.as_slice());
    told.put("status ");
    told.show(report.status);
    told.put("\n");
    for (held, by) in report.skipped.as_slice() {
        told.put_all(&["skipped ", held.as_str(), " for ", by.as_str(), "\n"]);
    }
}

fn put_files(told: &mut Told, files: &[(PathText, Blob)]) {
    for (path, bytes) in files {
        told.put_all(&[path.as_str(), ": "]);
        told.put_bytes(bytes.as_slice());
        told.put("\n");
    }
}

/// Why a history goes no further, and the place of its event.
pub(crate) fn put_fault(told: &mut Told, fault: HistoryFault) {
    match fault {
        HistoryFault::Unsynced(place) => put_place(told, "unsynced at ", place),
        HistoryFault::HasRecord(place) => put_place(told, "has a record at ", place),
        HistoryFault::Place(place) => put_place(told, "no place at ", place),
        HistoryFault::Memory => told.refuse(),
    }
}

fn put_place(told: &mut Told, text: &str, place: usize) {
    told.put(text);
    told.show(place);
    told.put("\n");
}
