//! The files of a build.
ghost use Rattle.std.specs.Prelude.{◌≡◌, ℕ, List, [], None, Some, IfOk, OnOk, is_some, slice_get, true, ◌∷◌, false};
ghost use Rattle.std.specs.List.{list_any};
ghost use Rattle.std.specs.Option.{option_map};
ghost use Rattle.std.specs.Str.{bytes_eq};
ghost use Rattle.indexmap.specs.IndexMap.{get};
ghost use Rattle.deciders.specs.Digests.{digest_of as digest_for};
ghost use Rattle.build_files.specs.Beginnings.{Begins, BeginsBehind};
ghost use Rattle.build_files.specs.Causes.{HasLookCause};
ghost use Rattle.build_files.specs.Reading.{ReadsOnly};
ghost use Rattle.build_files.specs.Kept.{past, same_scan, stamp_past as stamp_for, AreFound, AreTrue, IsStill, IsUnmade, IsUnread, StaysTrue, SameGone, KeepsContent};
ghost use Rattle.build_files.specs.Leftovers.{stands};
ghost use Rattle.build_files.specs.Marked.{is_marked, KeepsMarks};
ghost use Rattle.build_files.specs.Seen.{seen_at};
ghost use Rattle.build_files.specs.declared.includes.Scan.{Scan};
ghost use Rattle.build_means.specs.Grown.{Begun};
ghost use Rattle.build_model.specs.Rules.{Path};
ghost use Rattle.rule_graph.specs.Graphs.{RuleGraph};
ghost use Rattle.world_api.specs.Around.{Around};
ghost use Rattle.world_api.specs.Looks.{Looks};
ghost use Rattle.world_api.specs.Reads.{stamp_of};

use crate::end::ListEnd;
use crate::includes::Found;
use crate::lookup::path_of;
use crate::seen::SeenFiles;
use c_scanner::includes;
use deciders::{Digest, digest_of};
use indexmap::IndexSet;
use rule_graph::Graph;
use scons_base::limits::FILE_LIMIT;
use scons_base::{Listing, Memory, NodeId, PathText};
use std::alloc::Global;
use world_api::{Content, Hash, Kind, World};

/// What was found of the files of a build. A file that no rule makes stays as it is while the build runs, and one that a
/// rule makes is asked for only once its rule is settled.
#[derive(Drop)]
pub struct Inputs {
    pub(crate) files: SeenFiles,
    /// Paths that no rule makes and at which no file stands.
    pub(crate) unknown: IndexSet<PathText>,
    /// Files that are looked past, as if none stood there.
    pub(crate) gone: IndexSet<PathText>,
    pub(crate) found: Found,
    /// The rules whose files were looked at for copy rules, by their numbers.
    pub(crate) looked_at: Vec<bool>,
    /// How many rules were declared. Those behind them copy files into variant directories.
    pub(crate) declared: u32,
    /// What digests are made by.
    pub(crate) hash: Hash,
    pub(crate) alloc: Global,
}

impl Inputs {
    /// The files of a build over a graph in which all rules are declared ones.
    pub fn new(alloc: Global, hash: Hash, graph: &Graph) -> Inputs
        ensures truth { (b : Begun) (around : Around) → Begins b graph.now hash [] around → AreTrue b graph.now result around }
        ensures unread { (node : ℕ) → IsUnread (seen_at result.files.seen.items node) }
        ensures unscanned { (scan : Scan) → get same_scan result.found.files scan ≡ None }
        ensures unmarked { (number : ℕ) → is_marked result number ≡ false }
        ensures gone { result.gone.keys ≡ [] }
    {
        let gone = IndexSet::new(alloc);
        Inputs::past(alloc, hash, graph, gone)
    }

    /// The files of a build that looks past these.
    pub fn past(alloc: Global, hash: Hash, graph: &Graph, gone: IndexSet<PathText>) -> Inputs
        ensures truth { (b : Begun) (around : Around) → Begins b graph.now hash gone.keys around → AreTrue b graph.now result around }
        ensures unread { (node : ℕ) → IsUnread (seen_at result.files.seen.items node) }
        ensures unscanned { (scan : Scan) → get same_scan result.found.files scan ≡ None }
        ensures unmarked { (number : ℕ) → is_marked result number ≡ false }
        ensures gone { result.gone.keys ≡ gone.keys }
    {
        Inputs::begun(alloc, hash, graph.rules(), gone)
    }

    /// The files of a build over a graph whose first so many rules are the declared ones. Those behind them copy files into
    /// variant directories, as a build before added them.
    pub fn over(alloc: Global, hash: Hash, _graph: &Graph, declared: u32) -> Inputs
        ensures truth { (b : Begun) (around : Around) → BeginsBehind b _graph.now declared hash around → AreTrue b _graph.now result around }
        ensures unread { (node : ℕ) → IsUnread (seen_at result.files.seen.items node) }
        ensures unscanned { (scan : Scan) → get same_scan result.found.files scan ≡ None }
        ensures unmarked { (number : ℕ) → is_marked result number ≡ false }
        ensures gone { result.gone.keys ≡ [] }
        ensures declared { result.declared ≡ declared }
    {
        let gone = IndexSet::new(alloc);
        Inputs::begun(alloc, hash, declared, gone)
    }

    /// The files of a build with so many declared rules that looks past these. Nothing is kept of any yet.
    fn begun(alloc: Global, hash: Hash, declared: u32, gone: IndexSet<PathText>) -> Inputs
        ensures files { result.files.seen.items ≡ [] }
        ensures unknown { result.unknown.keys ≡ [] }
        ensures gone { result.gone.keys ≡ gone.keys }
        ensures found { (b : Begun) (g : RuleGraph) (gone : List Path) (around : Around) → AreFound b g gone around result.found }
        ensures unscanned { (scan : Scan) → get same_scan result.found.files scan ≡ None }
        ensures looked { result.looked_at.items ≡ [] }
        ensures declared { result.declared ≡ declared }
        ensures hash { result.hash ≡ hash }
    {
        let files = SeenFiles::new(alloc);
        let unknown = IndexSet::new(alloc);
        let found = Found::new(alloc);
        Inputs {
            files,
            unknown,
            gone,
            found,
            looked_at: Vec::new(alloc),
            declared,
            hash,
            alloc,
        }
    }

    /// Whether a file stands at the path of a node that no rule makes.
    #[tactic(auto, using(crate::proofs::Looking::looking))]
    pub(crate) fn is_file<W: World>(
        &mut self,
        world: &mut W,
        graph: &Graph,
        node: NodeId,
    ) -> Result<bool, ListEnd>
        ensures looks { Looks W.meaning world.old world.new }
        ensures cause { HasLookCause (W.meaning.counts world.old) (W.meaning.counts world.new) result }
        ensures gone { SameGone self.old self.new }
        ensures only { ReadsOnly [] self.old self.new }
        ensures truth { IsUnmade graph.now node.0 → StaysTrue W.meaning graph.now self.old world.old graph.now self.new world.new }
        ensures file { W.meaning.tells world.new → (b : Begun) (path : List ℕ) → slice_get graph.now.nodes node.0 ≡ Some path
            → IsUnmade graph.now node.0 → AreTrue b graph.now self.old (W.meaning.around world.old)
            → IfOk result (λ is. is ≡ is_some (b.tree path)) }
        ensures marks { KeepsMarks graph.now self.old graph.now self.new }
    {
        if let Some(is_file) = self.files.is_file(node) {
            return Ok(is_file);
        }
        let is_file = self.stands(world, path_of(graph, node)?)?;
        self.files.keep_is_file(node, is_file)?;
        Ok(is_file)
    }

    /// Whether a file stands at a path that isn't looked past.
    #[tactic(auto, using(crate::proofs::Looking::looking))]
    pub(crate) fn stands<W: World>(&self, world: &mut W, path: &PathText) -> Result<bool, ListEnd>
        ensures looks { Looks W.meaning world.old world.new }
        ensures cause { HasLookCause (W.meaning.counts world.old) (W.meaning.counts world.new) result }
        ensures stands { W.meaning.tells world.new → IfOk result
            (λ is. is ≡ is_some (past self.now.gone.keys (W.meaning.around world.new).tree path.now)) }
    {
        if self.is_gone(path) {
            return Ok(false);
        }
        is_file_at(world, path)
    }

    fn is_gone(&self, path: &PathText) -> bool
        ensures { result ≡ list_any (bytes_eq path.now) self.now.gone.keys }
    {
        !self.gone.is_empty() && self.gone.contains(path)
    }

    /// The digest of what a file holds, none where no file stands.
    #[tactic(auto, using(crate::proofs::Looking::looking))]
    pub fn digest<W: World>(
        &mut self,
        world: &mut W,
        graph: &Graph,
        node: NodeId,
    ) -> Result<Option<Digest>, ListEnd>
        ensures looks { Looks W.meaning world.old world.new }
        ensures cause { HasLookCause (W.meaning.counts world.old) (W.meaning.counts world.new) result }
        ensures gone { SameGone self.old self.new }
        ensures only { ReadsOnly (node ∷ []) self.old self.new }
        ensures truth { IsStill graph.now (W.meaning.around world.old) node.0
            → StaysTrue W.meaning graph.now self.old world.old graph.now self.new world.new }
        ensures digest { W.meaning.tells world.new → (b : Begun) (path : List ℕ) → slice_get graph.now.nodes node.0 ≡ Some path
            → AreTrue b graph.now self.old (W.meaning.around world.old) → IfOk result
            (λ digest. digest ≡ option_map (digest_for b.hash) (past self.old.gone.keys (W.meaning.around world.new).tree path)) }
        ensures marks { KeepsMarks graph.now self.old graph.now self.new }
    {
        match self.files.digest(node) {
            Some(digest) => Ok(digest),
            None => self.read(world, graph, node, false),
        }
    }

    /// When a file last changed, none where no file stands.
    #[tactic(auto, using(crate::proofs::Looking::looking))]
    pub fn stamp<W: World>(
        &mut self,
        world: &mut W,
        graph: &Graph,
        node: NodeId,
    ) -> Result<Option<u64>, ListEnd>
        ensures looks { Looks W.meaning world.old world.new }
        ensures cause { HasLookCause (W.meaning.counts world.old) (W.meaning.counts world.new) result }
        ensures gone { SameGone self.old self.new }
        ensures only { ReadsOnly (node ∷ []) self.old self.new }
        ensures truth { IsStill graph.now (W.meaning.around world.old) node.0
            → StaysTrue W.meaning graph.now self.old world.old graph.now self.new world.new }
        ensures stamp { W.meaning.tells world.new → (b : Begun) (path : List ℕ) → slice_get graph.now.nodes node.0 ≡ Some path
            → AreTrue b graph.now self.old (W.meaning.around world.old) → IfOk result
            (λ time. time ≡ stamp_for self.old.gone.keys (W.meaning.around world.new) path) }
        ensures marks { KeepsMarks graph.now self.old graph.now self.new }
    {
        if let Some(stamp) = self.files.stamp(node) {
            return Ok(stamp);
        }
        let stamp = self.stamp_past(world, path_of(graph, node)?)?;
        self.files.keep_stamp(node, stamp)?;
        Ok(stamp)
    }

    /// When the file at a path last changed, none where no file stands or it is looked past.
    #[tactic(auto, using(crate::proofs::Looking::looking))]
    fn stamp_past<W: World>(&self, world: &mut W, path: &PathText) -> Result<Option<u64>, ListEnd>
        ensures looks { Looks W.meaning world.old world.new }
        ensures cause { HasLookCause (W.meaning.counts world.old) (W.meaning.counts world.new) result }
        ensures stamp { W.meaning.tells world.new → IfOk result
            (λ time. time ≡ stamp_for self.now.gone.keys (W.meaning.around world.new) path.now) }
    {
        if self.is_gone(path) {
            return Ok(None);
        }
        stamp_at(world, path)
    }

    /// Reads a file for its digest, and for what it includes where that is asked or its name says that it will be.
    #[tactic(auto, using(crate::proofs::Looking::looking))]
    pub(crate) fn read<W: World>(
        &mut self,
        world: &mut W,
        graph: &Graph,
        node: NodeId,
        is_scanned: bool,
    ) -> Result<Option<Digest>, ListEnd>
        ensures looks { Looks W.meaning world.old world.new }
        ensures cause { HasLookCause (W.meaning.counts world.old) (W.meaning.counts world.new) result }
        ensures gone { SameGone self.old self.new }
        ensures only { ReadsOnly (node ∷ []) self.old self.new }
        ensures truth { IsStill graph.now (W.meaning.around world.old) node.0
            → StaysTrue W.meaning graph.now self.old world.old graph.now self.new world.new }
        ensures digest { W.meaning.tells world.new → (path : List ℕ) → slice_get graph.now.nodes node.0 ≡ Some path → IfOk result
            (λ digest. digest ≡ option_map (digest_for self.old.hash) (past self.old.gone.keys (W.meaning.around world.new).tree path)) }
        ensures scanned { is_scanned ≡ true → OnOk result (is_some (seen_at self.new.files.seen.items node.0).includes ≡ true) }
        ensures marks { KeepsMarks graph.now self.old graph.now self.new }
    {
        let path = path_of(graph, node)?;
        let content = self.content(world, path)?;
        Ok(self.keep(path, node, is_scanned, content)?)
    }

    /// What the file at a path holds, unless it is looked past.
    #[tactic(auto, using(crate::proofs::Looking::looking))]
    fn content<W: World>(&self, world: &mut W, path: &PathText) -> Result<Content, ListEnd>
        ensures looks { Looks W.meaning world.old world.new }
        ensures cause { HasLookCause (W.meaning.counts world.old) (W.meaning.counts world.new) result }
        ensures content { W.meaning.tells world.new → IfOk result
            (λ content. content ≡ past self.now.gone.keys (W.meaning.around world.new).tree path.now) }
    {
        if self.is_gone(path) {
            return Ok(None);
        }
        content_at(world, path)
    }

    /// Keeps what was read of a file.
    fn keep(
        &mut self,
        path: &PathText,
        node: NodeId,
        is_scanned: bool,
        content: Content,
    ) -> Result<Option<Digest>, Memory>
        ensures digest { IfOk result (λ digest. digest ≡ option_map (digest_for self.old.hash) content) }
        ensures keeps { KeepsContent self.old self.new node.0 content }
        ensures scanned { is_scanned ≡ true → OnOk result (is_some (seen_at self.new.files.seen.items node.0).includes ≡ true) }
    {
        let Some(bytes) = content else {
            self.files.keep_includes(node, Listing::empty(self.alloc))?;
            self.files.keep_digest(node, None)?;
            return Ok(None);
        };
        if is_scanned || is_header(path.suffix()) {
            let found = includes(self.alloc, bytes.as_slice())?;
            self.files.keep_includes(node, found)?;
        }
        let digest = Some(digest_of(self.hash, bytes.as_slice()));
        self.files.keep_digest(node, digest)?;
        Ok(digest)
    }
}

/// Whether a file stands at a path.
#[tactic(auto, using(crate::proofs::Looking::looking))]
pub(crate) fn is_file_at<W: World>(world: &mut W, path: &PathText) -> Result<bool, ListEnd>
    ensures looks { Looks W.meaning world.old world.new }
    ensures cause { HasLookCause (W.meaning.counts world.old) (W.meaning.counts world.new) result }
    ensures stands { W.meaning.tells world.new → IfOk result (λ is. is ≡ stands (W.meaning.around world.new) path.now) }
{
    match world.kind(path) {
        Ok(kind) => Ok(kind == Kind::File),
        Err(_) => Err(ListEnd::tree(path)),
    }
}

/// When the file at a path last changed, none where no file stands.
#[tactic(auto, using(crate::proofs::Looking::looking))]
pub(crate) fn stamp_at<W: World>(world: &mut W, path: &PathText) -> Result<Option<u64>, ListEnd>
    ensures looks { Looks W.meaning world.old world.new }
    ensures cause { HasLookCause (W.meaning.counts world.old) (W.meaning.counts world.new) result }
    ensures stamp { W.meaning.tells world.new → IfOk result (λ time. time ≡ stamp_of (W.meaning.around world.new) path.now) }
{
    match world.stamp(path) {
        Ok(stamp) => Ok(stamp),
        Err(_) => Err(ListEnd::tree(path)),
    }
}

/// What the file at a path holds.
#[tactic(auto, using(crate::proofs::Looking::looking))]
fn content_at<W: World>(world: &mut W, path: &PathText) -> Result<Content, ListEnd>
    ensures looks { Looks W.meaning world.old world.new }
    ensures cause { HasLookCause (W.meaning.counts world.old) (W.meaning.counts world.new) result }
    ensures content { W.meaning.tells world.new → IfOk result (λ content. content ≡ (W.meaning.around world.new).tree path.now) }
{
    match world.read_file(path, FILE_LIMIT) {
        Ok(content) => Ok(content),
        Err(refusal) => Err(ListEnd::read(path, refusal)),
    }
}

/// Whether a file with this suffix is likely to be scanned.
fn is_header(suffix: &str) -> bool {
    matches!(suffix, ".h" | ".H" | ".hh" | ".hpp" | ".hxx")
}
