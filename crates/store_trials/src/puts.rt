//! Records that are put by one row: one record many times, or one of many targets.
use crate::disk::Banks;
use crate::fields::keep_path;
use crate::record::record_of;
use crate::shown::{put_count, put_refusal};
use deciders::Rec;
use scons_base::{Listing, PathText, Paths, Texts};
use sign_store::{Store, Ticket, Ticketed, View};
use std::alloc::Global;
use trial_text::Told;
use world_api::{Hash, Work};

/// Puts a record so many times, withdrawn before each.
pub(crate) fn put_again(
    alloc: Global,
    told: &mut Told,
    store: &mut Store,
    banks: &mut Banks,
    count: u32,
    record: &str,
) {
    for _ in 0..count {
        let rec = record_of(alloc, told, record);
        if !is_put(store, banks, rec) {
            told.refuse();
        }
    }
}

/// Withdraws what a record's targets have, and puts it: whether no bank refused.
pub(crate) fn is_put(store: &mut Store, banks: &mut Banks, rec: Rec) -> bool {
    if !store.is_live() {
        return false;
    }
    match store.prepare(rec) {
        Ok(ticket) => is_put_alone(store, banks, ticket),
        Err(_) => false,
    }
}

/// Withdraws what a ticket's targets have, and puts its record.
fn is_put_alone(store: &mut Store, banks: &mut Banks, ticket: Ticket) -> bool {
    let none: &[Ticketed<()>] = &[];
    store.is_live()
        && store.withdraw(banks, none, &ticket).is_ok()
        && store.is_live()
        && store.put(banks, &[Ticketed { hold: (), ticket }]).is_ok()
}

/// Puts a record with the targets `t0`, `t1` and so on, so many of them: how many have it, and are read with it.
pub(crate) fn put_many(
    alloc: Global,
    told: &mut Told,
    store: &mut Store,
    banks: &mut Banks,
    count: u32,
) {
    let rec = record_for(alloc, Paths::new(targets(alloc, told, count)));
    if !is_put_once(store, banks, rec) {
        return told.refuse();
    }
    let targets = targets(alloc, told, count);
    match Store::read(alloc, banks) {
        Ok(view) => put_counts(told, store, &view, targets.as_slice()),
        Err(refusal) => put_refusal(told, refusal),
    }
}

fn targets(alloc: Global, told: &mut Told, count: u32) -> Vec<PathText> {
    let mut targets = Vec::new(alloc);
    for number in 0..count {
        match format!(in alloc; "t{number}") {
            Ok(name) => keep_path(alloc, told, &mut targets, name.as_str()),
            Err(_) => told.refuse(),
        }
    }
    targets
}

fn record_for(alloc: Global, targets: Paths) -> Rec {
    Rec {
        work: Work::Shell,
        hash: Hash::Md5,
        targets,
        signed: Texts::new(Vec::new(alloc)),
        deps: Listing::empty(alloc),
    }
}

/// Puts a record whose targets have none: whether no bank refused.
fn is_put_once(store: &mut Store, banks: &mut Banks, rec: Rec) -> bool {
    if !store.is_live() {
        return false;
    }
    match store.prepare(rec) {
        Ok(ticket) => store.put(banks, &[Ticketed { hold: (), ticket }]).is_ok(),
        Err(_) => false,
    }
}

fn put_counts(told: &mut Told, store: &Store, view: &View, targets: &[PathText]) {
    let mut held: usize = 0;
    let mut read: usize = 0;
    for target in targets {
        if store.get(target).is_some() {
            held = held.saturating_add(1);
        }
        if view.get(target).is_some() {
            read = read.saturating_add(1);
        }
    }
    put_count(told, held, " have it, ");
    put_count(told, read, " are read\n");
}
