//! What the slow functions say of a graph, as far as files were scanned.
use model_trials::loops::{has_loop, led_from, list_at};
use model_trials::needs::needs;
use model_trials::order::in_order;
use model_trials::reach::{PlainRule, reach, scan_list};
use model_trials::spots::Spot;
use scons_base::{Listing, Memory};
use std::alloc::Global;
use trial_text::Told;

/// More than the files that are scanned for a rule.
const LIMIT: usize = 16;

/// More steps than a walk over all that rules lead to takes.
const STEPS: usize = 64;

/// The needed rules in the build order, and what is known of each rule by its number.
#[derive(Drop)]
pub struct Facts {
    pub order: Vec<usize>,
    needs: Vec<Listing<usize>>,
    deps: Vec<Vec<Spot>>,
    /// The files that aren't scanned yet.
    unscanned: Vec<Vec<Spot>>,
    /// Whether a needed rule waits for itself.
    pub is_cyclic: bool,
    /// Whether the slow functions came to an end, and agree.
    pub is_whole: bool,
}

impl Facts {
    pub fn new(alloc: Global) -> Facts {
        Facts {
            order: Vec::new(alloc),
            needs: Vec::new(alloc),
            deps: Vec::new(alloc),
            unscanned: Vec::new(alloc),
            is_cyclic: false,
            is_whole: false,
        }
    }

    /// The facts by these rules, where the target of the first one is requested.
    pub fn take(&mut self, alloc: Global, told: &mut Told, rules: &[PlainRule]) {
        self.needs.clear();
        self.deps.clear();
        self.unscanned.clear();
        for rule in rules {
            self.take_needs(alloc, told, rules, rule);
            self.take_deps(alloc, told, rule);
            self.take_files(alloc, told, rule);
        }
        self.take_order(alloc, told);
    }

    /// What a rule needs.
    fn take_needs(
        &mut self,
        alloc: Global,
        told: &mut Told,
        rules: &[PlainRule],
        rule: &PlainRule,
    ) {
        match needs(alloc, LIMIT, rules, rule) {
            Ok(needs) => told.keep(&mut self.needs, Listing::new(needs)),
            Err(_) => told.refuse(),
        }
    }

    /// What a rule depends on.
    fn take_deps(&mut self, alloc: Global, told: &mut Told, rule: &PlainRule) {
        match reach(alloc, LIMIT, rule) {
            Ok(deps) => told.keep(&mut self.deps, deps),
            Err(_) => told.refuse(),
        }
    }

    /// What isn't scanned for a rule.
    fn take_files(&mut self, alloc: Global, told: &mut Told, rule: &PlainRule) {
        match scan_list(alloc, LIMIT, rule) {
            Ok(mut files) => {
                files.retain(|file| !is_scanned(rule, file));
                told.keep(&mut self.unscanned, files);
            }
            Err(_) => told.refuse(),
        }
    }

    fn take_order(&mut self, alloc: Global, told: &mut Told) {
        self.is_whole = false;
        match in_order(alloc, self.needs.as_slice(), &[0]) {
            Ok(Some(order)) => {
                self.order = order;
                self.take_loop(alloc, told);
            }
            Ok(None) => {}
            Err(_) => told.refuse(),
        }
    }

    /// Whether a needed rule leads to itself, and whether the needed rules are those of the order.
    fn take_loop(&mut self, alloc: Global, told: &mut Told) {
        let needs = self.needs.as_slice();
        let order = self.order.as_slice();
        let is_cyclic = known(told, has_loop(alloc, needs, STEPS, order));
        let needed = known(told, led_from(alloc, needs, STEPS, &[0]));
        if let (Some(needed), Some(is_cyclic)) = (needed, is_cyclic) {
            self.is_whole = are_same(needed.as_slice(), order);
            self.is_cyclic = is_cyclic;
        }
    }

    pub fn needs_of(&self, rule: usize) -> &[usize] {
        list_at(self.needs.as_slice(), rule)
    }

    pub fn deps_of(&self, rule: usize) -> &[Spot] {
        spots_at(self.deps.as_slice(), rule)
    }

    pub fn unscanned_of(&self, rule: usize) -> &[Spot] {
        spots_at(self.unscanned.as_slice(), rule)
    }
}

/// What was asked for, where it is known; want of memory refuses the line.
pub fn known<T: Drop>(told: &mut Told, answer: Result<Option<T>, Memory>) -> Option<T> {
    match answer {
        Ok(known) => known,
        Err(_) => {
            told.refuse();
            None
        }
    }
}

/// The list of a rule.
fn spots_at(lists: &[Vec<Spot>], number: usize) -> &[Spot] {
    match lists.get(number) {
        Some(list) => list.as_slice(),
        None => &[],
    }
}

/// Whether the one list has the members of the other one.
fn are_same(some: &[usize], others: &[usize]) -> bool {
    some.len() == others.len() && some.iter().all(|number| others.contains(number))
}

/// Whether a file was scanned for a rule.
fn is_scanned(rule: &PlainRule, file: &Spot) -> bool {
    rule.scans.iter().any(|scan| scan.file.is(file))
}
