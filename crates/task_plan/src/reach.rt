//! The files that a rule scans, breadth first.
ghost use Rattle.std.specs.Prelude.{◌≡◌, ◌≤◌, ◌<◌, ◌+◌, ◌++◌, false, true, length, slice_get, drop, OnOk, IfOk, IfSome, is_some, if◌then◌else◌};
ghost use Rattle.scons_base.specs.declared.ids.NodeId.{NodeId};
ghost use Rattle.task_plan.specs.Named.{put_all as put_all_of};
ghost use Rattle.task_plan.specs.Settled.{is_scanned as is_scanned_of, IsScannedAt, IsUnscannedAt, AreScannedIn, IsLonger};
ghost use Rattle.task_plan.specs.Loaded.{IsBlankReach};
ghost use Rattle.task_plan.specs.Listed.{found_of, with_found, included as included_by, IsNext, IsAppended, AreAhead, IsWalked, IsWalking, IsSameReach, KeepsSeen};

use crate::sets::put_all;
use indexmap::{IndexMap, IndexSet};
use scons_base::{Memory, NodeId};
use std::alloc::Global;

/// What a rule scans: its sources with a suffix of the language, then the files that these include, and so on. Each
/// stands once, in the order of its first finding.
#[derive(Drop)]
pub(crate) struct Reach {
    /// The files in order, of which the first are sources.
    pub(crate) files: IndexSet<NodeId>,
    pub(crate) sources: usize,
    /// What each file that was scanned includes.
    pub(crate) found: IndexMap<NodeId, Vec<NodeId>>,
    /// Files that are left out where they are found.
    pub(crate) excluded: IndexSet<NodeId>,
    /// The files before this place were scanned.
    pub(crate) whole: usize,
    /// No file before this place can be scanned now.
    pub(crate) next: usize,
    /// No file from this place on was scanned.
    pub(crate) front: usize,
    alloc: Global,
}

/// What a scan changed.
#[derive(Drop)]
pub(crate) struct Growth {
    /// The files that weren't there.
    pub(crate) new: Vec<NodeId>,
    /// Whether they stand behind all others, which keep their places.
    pub(crate) in_order: bool,
}

impl Reach {
    pub(crate) fn new(alloc: Global) -> Reach
        ensures { IsBlankReach result }
    {
        Reach {
            files: IndexSet::new(alloc),
            sources: 0,
            found: IndexMap::new(alloc),
            excluded: IndexSet::new(alloc),
            whole: 0,
            next: 0,
            front: 0,
            alloc,
        }
    }

    /// Whether each of its files was scanned.
    pub(crate) fn is_scanned(&self) -> bool
        ensures scanned { result ≡ true → length self.now.files.keys ≤ self.now.whole }
        ensures not { result ≡ false → self.now.whole < length self.now.files.keys }
    {
        self.whole >= self.files.len()
    }

    /// Whether this file was scanned.
    #[tactic(auto, using(crate::proofs::ListLemmas::some_lookup))]
    pub(crate) fn has_scanned(&self, node: NodeId) -> bool
        ensures { result ≡ is_scanned_of self.now.found.entries node }
    {
        self.found.contains_key(&node)
    }

    /// Whether the file at this place was scanned.
    fn has_scanned_at(&self, place: usize) -> bool
        ensures scanned { result ≡ true → IsScannedAt self.now.found.entries self.now.files.keys place }
        ensures not { result ≡ false → IsUnscannedAt self.now.found.entries self.now.files.keys place }
    {
        match self.files.get_index(place) {
            Some(node) => self.has_scanned(*node),
            None => false,
        }
    }

    /// Notes what a file includes, and gives the files that are new among these. The files are listed anew unless they
    /// were listed, and this one stands behind all that were scanned.
    pub(crate) fn scanned(
        &mut self,
        node: NodeId,
        included: Vec<NodeId>,
        is_listed: bool,
    ) -> Result<Growth, Memory>
        requires listed { is_listed ≡ true → IsWalked self.old }
        requires sources { self.old.sources ≤ length self.old.files.keys }
        requires whole { AreScannedIn self.old.found.entries self.old.files.keys self.old.whole }
        ensures same { IsSameReach self.old self.new }
        ensures whole { AreScannedIn self.new.found.entries self.new.files.keys self.new.whole }
        ensures found { OnOk result (found_of self.new ≡ with_found (found_of self.old) node included.items) }
        ensures walked { OnOk result (IsWalked self.new) }
        ensures unscanned { OnOk result (IsUnscannedAt self.new.found.entries self.new.files.keys self.new.whole) }
        ensures seen { OnOk result (KeepsSeen self.old self.new) }
        ensures news { IfOk result (λ g. put_all_of self.old.excluded.keys self.old.files.keys included.items
            ≡ self.old.files.keys ++ g.new.items) }
        ensures growth { IfOk result (λ g. g.in_order ≡ true →
            (is_listed ≡ true) × (self.new.files.keys ≡ self.old.files.keys ++ g.new.items)) }
    {
        let next = self.next_ahead(node, is_listed);
        let before = self.files.len();
        let new = self.append(included.as_slice())?;
        let _ = self.found.insert(node, included)?;
        let in_order = self.go_on(next, before)?;
        self.note_whole();
        Ok(Growth { new, in_order })
    }

    /// The place behind a file, where the files were listed and that stands behind all that were scanned.
    fn next_ahead(&self, node: NodeId, is_listed: bool) -> Option<usize>
        ensures { IfSome result (λ next. (is_listed ≡ true) × IsNext self.now node next) }
    {
        match self.files.get_index_of(&node) {
            Some(place) if is_listed && place >= self.front && place < self.files.len() => Some(
                place + 1,
            ),
            _ => None,
        }
    }

    /// Puts those files behind that aren't there and aren't left out, and gives them.
    fn append(&mut self, included: &[NodeId]) -> Result<Vec<NodeId>, Memory>
        ensures rest { self.new ≡ record self.old { files = self.new.files } }
        ensures longer { IsLonger self.old.files.keys self.new.files.keys }
        ensures files { OnOk result (self.new.files.keys
            ≡ put_all_of self.old.excluded.keys self.old.files.keys included.now) }
        ensures new { IfOk result (λ new. self.new.files.keys ≡ self.old.files.keys ++ new.items) }
    {
        let before = self.files.len();
        put_all(&mut self.files, &self.excluded, included)?;
        files_from(self.alloc, &self.files, before)
    }

    /// A file was scanned, behind which this place is: where that isn't behind all that were, the files are listed anew.
    fn go_on(&mut self, next: Option<usize>, before: usize) -> Result<bool, Memory>
        requires next { IfSome next (λ next. IsAppended self.old next before) }
        requires sources { self.old.sources ≤ length self.old.files.keys }
        requires whole { AreScannedIn self.old.found.entries self.old.files.keys self.old.whole }
        ensures same { IsSameReach self.old self.new }
        ensures found { self.new.found ≡ self.old.found }
        ensures whole { AreScannedIn self.new.found.entries self.new.files.keys self.new.whole }
        ensures walked { OnOk result (IsWalked self.new) }
        ensures seen { OnOk result (KeepsSeen self.old self.new) }
        ensures in_order { IfOk result (λ in_order. in_order ≡ true →
            (self.new.files ≡ self.old.files) × (is_some next ≡ true)) }
    {
        match next {
            Some(next) if self.is_ahead(before) => {
                self.front = next;
                Ok(true)
            }
            _ => {
                self.walk_again()?;
                Ok(false)
            }
        }
    }

    /// Whether no file from this place on was scanned.
    fn is_ahead(&self, front: usize) -> bool
        ensures { result ≡ true → AreAhead self.now.found.entries self.now.files.keys front }
    {
        for place in front..self.files.len() {
            if !self.is_unscanned_at(place) {
                return false;
            }
        }
        true
    }

    /// Whether there is no file at this place that was scanned.
    fn is_unscanned_at(&self, place: usize) -> bool
        ensures { result ≡ true → (file : NodeId) → slice_get self.now.files.keys place ≡ Some file
            → is_scanned_of self.now.found.entries file ≡ false }
    {
        match self.files.get_index(place) {
            Some(node) => !self.has_scanned(*node),
            None => true,
        }
    }

    /// Notes how many of the first files were scanned.
    #[tactic(auto, using(crate::proofs::ListLemmas::scanned_more))]
    fn note_whole(&mut self)
        requires { AreScannedIn self.old.found.entries self.old.files.keys self.old.whole }
        ensures rest { self.new ≡ record self.old { whole = self.new.whole } }
        ensures whole { AreScannedIn self.new.found.entries self.new.files.keys self.new.whole }
        ensures unscanned { IsUnscannedAt self.new.found.entries self.new.files.keys self.new.whole }
    {
        while self.whole < self.files.len() && self.has_scanned_at(self.whole) {
            self.whole += 1;
        }
    }

    /// Lists the files anew, from the sources on.
    fn walk_again(&mut self) -> Result<(), Memory>
        requires { self.old.sources ≤ length self.old.files.keys }
        ensures same { IsSameReach self.old self.new }
        ensures found { self.new.found ≡ self.old.found }
        ensures whole { self.new.whole ≡ 0 }
        ensures next { self.new.next ≡ 0 }
        ensures walked { OnOk result (IsWalked self.new) }
    {
        self.whole = 0;
        self.next = 0;
        self.front = 0;
        self.files.truncate(self.sources);
        self.walk()
    }

    /// Lists what the files include, from the first on. There are never as many files as there are numbers.
    fn walk(&mut self) -> Result<(), Memory>
        requires walking { IsWalking self.old 0 }
        requires sources { self.old.sources ≤ length self.old.files.keys }
        ensures rest { self.new ≡ record self.old { files = self.new.files; front = self.new.front } }
        ensures longer { IsLonger self.old.files.keys self.new.files.keys }
        ensures walked { OnOk result (IsWalked self.new) }
    {
        for place in 0..usize::MAX {
            let Some(node) = self.files.get_index(place).copied() else {
                return Ok(());
            };
            self.include(node, place + 1)?;
        }
        Err(Memory)
    }

    /// Lists what a file before this place includes.
    fn include(&mut self, node: NodeId, next: usize) -> Result<(), Memory>
        ensures rest { self.new ≡ record self.old { files = self.new.files; front = self.new.front } }
        ensures longer { IsLonger self.old.files.keys self.new.files.keys }
        ensures files { OnOk result (self.new.files.keys ≡ put_all_of self.old.excluded.keys
            self.old.files.keys (included_by (found_of self.old) node)) }
        ensures front { OnOk result (self.new.front
            ≡ (if is_scanned_of self.old.found.entries node then next else self.old.front)) }
    {
        if let Some(included) = self.found.get(&node) {
            put_all(&mut self.files, &self.excluded, included.as_slice())?;
            self.front = next;
        }
        Ok(())
    }
}

/// The files from this place on.
fn files_from(alloc: Global, files: &IndexSet<NodeId>, place: usize) -> Result<Vec<NodeId>, Memory>
    requires { place ≤ length files.now.keys }
    ensures { IfOk result (λ new. new.items ≡ drop place files.now.keys) }
{
    Ok(Vec::from_slice(alloc, &files.as_slice()[place..])?)
}
