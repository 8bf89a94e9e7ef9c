//! What was found of each file.
ghost use Rattle.std.specs.Prelude.{◌≡◌, ◌<◌, [], Some, None, true, OnOk, is_some, length};
ghost use Rattle.build_files.specs.Seen.{seen_at, Sees, SeesOne, SeesTheSame};

use c_scanner::Include;
use deciders::Digest;
use scons_base::{Listing, Memory, NodeId};
use std::alloc::Global;
use std::mem;

/// What a look at a file gave, as far as it was looked at.
#[derive(Drop)]
pub(crate) struct Seen {
    /// Whether a file stood there as the build began. Asked of files without a rule alone.
    pub(crate) is_file: Option<bool>,
    /// The digest of its content, none where no file stands.
    pub(crate) digest: Option<Option<Digest>>,
    pub(crate) includes: Option<Listing<Include>>,
    pub(crate) stamp: Option<Option<u64>>,
    /// Whether its copy rule was looked for.
    pub(crate) is_settled: bool,
}

pub(crate) const UNSEEN: Seen = Seen {
    is_file: None,
    digest: None,
    includes: None,
    stamp: None,
    is_settled: false,
};

/// What was found of files, by the numbers of their nodes: nothing of those behind.
#[derive(Drop)]
pub(crate) struct SeenFiles {
    seen: Vec<Seen>,
}

impl SeenFiles {
    pub(crate) fn new(alloc: Global) -> SeenFiles
        ensures { result.seen.items ≡ [] }
    {
        SeenFiles {
            seen: Vec::new(alloc),
        }
    }

    /// Whether a file stood there as the build began, where that was asked.
    pub(crate) fn is_file(&self, node: NodeId) -> Option<bool>
        ensures { result ≡ (seen_at self.now.seen.items node.0).is_file }
    {
        match self.seen.get(node.0 as usize) {
            Some(seen) => seen.is_file,
            None => None,
        }
    }

    /// The digest of a file, where that was asked.
    pub(crate) fn digest(&self, node: NodeId) -> Option<Option<Digest>>
        ensures { result ≡ (seen_at self.now.seen.items node.0).digest }
    {
        match self.seen.get(node.0 as usize) {
            Some(seen) => seen.digest,
            None => None,
        }
    }

    /// When a file last changed, where that was asked.
    pub(crate) fn stamp(&self, node: NodeId) -> Option<Option<u64>>
        ensures { result ≡ (seen_at self.now.seen.items node.0).stamp }
    {
        match self.seen.get(node.0 as usize) {
            Some(seen) => seen.stamp,
            None => None,
        }
    }

    /// Whether it is known what a file includes.
    pub(crate) fn has_includes(&self, node: NodeId) -> bool
        ensures { result ≡ is_some (seen_at self.now.seen.items node.0).includes }
    {
        match self.seen.get(node.0 as usize) {
            Some(seen) => seen.includes.is_some(),
            None => false,
        }
    }

    /// Makes room for a file.
    #[tactic(auto, using(crate::proofs::Seeing::room_more))]
    fn make_room(&mut self, node: NodeId) -> Result<(), Memory>
        ensures same { SeesTheSame self.old.seen.items self.new.seen.items }
        ensures room { OnOk result (node.0 < length self.new.seen.items) }
    {
        for _ in self.seen.len()..(node.0 as usize).saturating_add(1) {
            self.seen.push(UNSEEN)?;
        }
        Ok(())
    }

    pub(crate) fn keep_is_file(&mut self, node: NodeId, is_file: bool) -> Result<(), Memory>
        ensures { Sees self.old.seen.items self.new.seen.items node.0 (λ seen. record seen { is_file = Some is_file }) result }
    {
        self.make_room(node)?;
        self.seen[node.0 as usize].is_file = Some(is_file);
        Ok(())
    }

    pub(crate) fn keep_digest(&mut self, node: NodeId, digest: Option<Digest>) -> Result<(), Memory>
        ensures { Sees self.old.seen.items self.new.seen.items node.0 (λ seen. record seen { digest = Some digest }) result }
    {
        self.make_room(node)?;
        self.seen[node.0 as usize].digest = Some(digest);
        Ok(())
    }

    pub(crate) fn keep_includes(
        &mut self,
        node: NodeId,
        includes: Listing<Include>,
    ) -> Result<(), Memory>
        ensures { Sees self.old.seen.items self.new.seen.items node.0 (λ seen. record seen { includes = Some includes }) result }
    {
        self.make_room(node)?;
        self.seen[node.0 as usize].includes = Some(includes);
        Ok(())
    }

    pub(crate) fn keep_stamp(&mut self, node: NodeId, stamp: Option<u64>) -> Result<(), Memory>
        ensures { Sees self.old.seen.items self.new.seen.items node.0 (λ seen. record seen { stamp = Some stamp }) result }
    {
        self.make_room(node)?;
        self.seen[node.0 as usize].stamp = Some(stamp);
        Ok(())
    }

    /// Takes out what a file includes. It isn't known any more.
    pub(crate) fn take_includes(&mut self, node: NodeId) -> Option<Listing<Include>>
        ensures was { result ≡ (seen_at self.old.seen.items node.0).includes }
        ensures sees { SeesOne self.old.seen.items self.new.seen.items node.0
            (record (seen_at self.old.seen.items node.0) { includes = None }) }
    {
        match self.seen.get_mut(node.0 as usize) {
            Some(seen) => mem::replace(&mut seen.includes, None),
            None => None,
        }
    }

    /// Whether the copy rule of a file was looked for.
    pub(crate) fn is_settled(&self, node: NodeId) -> bool
        ensures { result ≡ (seen_at self.now.seen.items node.0).is_settled }
    {
        match self.seen.get(node.0 as usize) {
            Some(seen) => seen.is_settled,
            None => false,
        }
    }

    /// Notes that the copy rule of a file was looked for.
    pub(crate) fn settle(&mut self, node: NodeId) -> Result<(), Memory>
        ensures { Sees self.old.seen.items self.new.seen.items node.0 (λ seen. record seen { is_settled = true }) result }
    {
        self.make_room(node)?;
        self.seen[node.0 as usize].is_settled = true;
        Ok(())
    }
}
