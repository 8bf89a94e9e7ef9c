//! The files that a file includes.
ghost use Rattle.std.specs.Prelude.{◌≡◌, ℕ, List, [], ◌∷◌, ◌++◌, None, Some, IfOk, IfSome, OnOk, is_some, slice_get, true};
ghost use Rattle.std.specs.Option.{option_to_list};
ghost use Rattle.indexmap.specs.IndexMap.{get};
ghost use Rattle.rule_graph.specs.declared.rule.Rule.{Rule as DeclaredRule};
ghost use Rattle.rule_graph.specs.Graphs.{RuleGraph};
ghost use Rattle.build_files.specs.Causes.{HasLookCause, IsQuiet};
ghost use Rattle.build_files.specs.Reading.{ReadsOnly};
ghost use Rattle.build_files.specs.Kept.{dirs_at, includes_in, past, same_scan, AreFound, AreTrue, Gives, IsFoundFor, IsStill, SameGone, StaysTrue};
ghost use Rattle.build_files.specs.Marked.{KeepsMarks};
ghost use Rattle.build_files.specs.Places.{ArePlaces};
ghost use Rattle.build_files.specs.Searched.{first_known, meant, AreDirs, AreNodesOf, HasMore, IsNodeOf};
ghost use Rattle.build_files.specs.Seen.{seen_at};
ghost use Rattle.build_means.specs.Finds.{dirs_for, found_for, places_in};
ghost use Rattle.build_means.specs.Grown.{Begun};
ghost use Rattle.world_api.specs.Around.{Around};
ghost use Rattle.world_api.specs.Looks.{Looks};

use crate::end::ListEnd;
use crate::inputs::Inputs;
use crate::lookup::{path_of, rule_at};
use c_scanner::Include;
use indexmap::{IndexMap, IndexSet};
use rule_graph::{Graph, Rule};
use scons_base::{Listing, Memory, NodeId, PathFault, PathText, Paths, RuleId};
use std::alloc::Global;
use std::str;
use variant_dirs::VariantFault;
use world_api::World;

/// A file that is scanned, and the directories in which what it includes is looked for, by the number of their list.
#[derive(Clone, Copy, Debug, PartialEq, Eq, Hash)]
pub(crate) struct Scan {
    file: NodeId,
    dirs: usize,
}

/// What was found by scans: a file that is scanned for many rules with the same directories is looked up once.
#[derive(Drop)]
pub(crate) struct Found {
    /// The lists of directories.
    lists: IndexSet<Vec<PathText>>,
    files: IndexMap<Scan, Vec<NodeId>>,
    /// The rule that was scanned last, and the number of its list.
    last: Option<(RuleId, usize)>,
    alloc: Global,
}

impl Found {
    pub(crate) fn new(alloc: Global) -> Found
        ensures truth { (b : Begun) (g : RuleGraph) (gone : List (List ℕ)) (around : Around) → AreFound b g gone around result }
        ensures unscanned { (scan : Scan) → get same_scan result.files scan ≡ None }
    {
        let lists = IndexSet::new(alloc);
        let files = IndexMap::new(alloc);
        Found {
            lists,
            files,
            last: None,
            alloc,
        }
    }

    /// The number of the list of directories of a rule.
    fn list_of(&mut self, id: RuleId, rule: &Rule) -> Result<usize, Memory>
        ensures truth { (b : Begun) (g : RuleGraph) (gone : List (List ℕ)) (around : Around) → slice_get g.rules id.0 ≡ Some rule.now
            → AreFound b g gone around self.old → AreFound b g gone around self.new }
        ensures list { (b : Begun) (g : RuleGraph) (gone : List (List ℕ)) (around : Around) → slice_get g.rules id.0 ≡ Some rule.now
            → AreFound b g gone around self.old → IfOk result (λ list. dirs_at self.new list ≡ Some rule.now.paths) }
        ensures files { self.new.files ≡ self.old.files }
    {
        if let Some((last, list)) = self.last {
            if last == id {
                return Ok(list);
            }
        }
        let dirs = rule.paths.copy()?.into_vec();
        let (list, _) = self.lists.insert_full(dirs)?;
        self.last = Some((id, list));
        Ok(list)
    }
}

impl Inputs {
    /// The files that a file includes as a rule finds them, in the order of the lines. Those without a known path are left
    /// out.
    #[tactic(auto, using(crate::proofs::Looking::looking))]
    pub(crate) fn scan<W: World>(
        &mut self,
        world: &mut W,
        graph: &mut Graph,
        rule: RuleId,
        file: NodeId,
    ) -> Result<Listing<NodeId>, ListEnd>
        ensures looks { Looks W.meaning world.old world.new }
        ensures cause { HasLookCause (W.meaning.counts world.old) (W.meaning.counts world.new) result }
        ensures grows { HasMore graph.old graph.new }
        ensures gone { SameGone self.old self.new }
        ensures only { ReadsOnly (file ∷ []) self.old self.new }
        ensures truth { IsStill graph.old (W.meaning.around world.old) file.0
            → StaysTrue W.meaning graph.old self.old world.old graph.new self.new world.new }
        ensures found { IsStill graph.old (W.meaning.around world.old) file.0 → (x : DeclaredRule) (path : List ℕ)
            → slice_get graph.old.rules rule.0 ≡ Some x → slice_get graph.old.nodes file.0 ≡ Some path
            → Gives W.meaning graph.old self.old world.old world.new result (λ b found. AreNodesOf graph.new
            (meant b x.paths path (includes_in (past self.old.gone.keys (W.meaning.around world.old).tree path))) found) }
        ensures marks { KeepsMarks graph.old self.old graph.new self.new }
    {
        if let Some(found) = self.found_before(graph, rule, file)? {
            return Ok(found);
        }
        let found = self.look_up(world, graph, rule, file)?;
        self.keep_found(graph, rule, file, found)
    }

    /// What was found by a scan before.
    #[tactic(auto, using(crate::proofs::Looking::looking))]
    fn found_before(
        &mut self,
        graph: &Graph,
        rule: RuleId,
        file: NodeId,
    ) -> Result<Option<Listing<NodeId>>, ListEnd>
        ensures quiet { IsQuiet result }
        ensures gone { SameGone self.old self.new }
        ensures only { ReadsOnly [] self.old self.new }
        ensures truth { (b : Begun) (around : Around) → AreTrue b graph.now self.old around → AreTrue b graph.now self.new around }
        ensures found { (b : Begun) (around : Around) (x : DeclaredRule) (path : List ℕ) → slice_get graph.now.rules rule.0 ≡ Some x
            → slice_get graph.now.nodes file.0 ≡ Some path → AreTrue b graph.now self.old around
            → IfOk result (λ found. IfSome found (AreNodesOf graph.now
            (meant b x.paths path (includes_in (past self.old.gone.keys around.tree path))))) }
        ensures marks { KeepsMarks graph.now self.old graph.now self.new }
    {
        let dirs = self.found.list_of(rule, rule_at(graph, rule)?)?;
        match self.found.files.get(&Scan { file, dirs }) {
            Some(found) => Ok(Some(Listing::new(Vec::from_slice(self.alloc, found.as_slice())?))),
            None => Ok(None),
        }
    }

    /// Keeps what a scan found.
    #[tactic(auto, using(crate::proofs::Looking::looking))]
    fn keep_found(
        &mut self,
        graph: &Graph,
        rule: RuleId,
        file: NodeId,
        found: Vec<NodeId>,
    ) -> Result<Listing<NodeId>, ListEnd>
        ensures quiet { IsQuiet result }
        ensures gone { SameGone self.old self.new }
        ensures only { ReadsOnly (file ∷ []) self.old self.new }
        ensures truth { (b : Begun) (around : Around) → IsFoundFor b graph.now self.old around rule.0 file.0 found.items
            → AreTrue b graph.now self.old around → AreTrue b graph.now self.new around }
        ensures same { IfOk result (λ kept. kept ≡ found.items) }
        ensures marks { KeepsMarks graph.now self.old graph.now self.new }
    {
        let copy = Vec::from_slice(self.alloc, found.as_slice())?;
        let dirs = self.found.list_of(rule, rule_at(graph, rule)?)?;
        let _ = self.found.files.insert(Scan { file, dirs }, found)?;
        Ok(Listing::new(copy))
    }

    /// Looks up what a file includes.
    #[tactic(auto, using(crate::proofs::Looking::looking))]
    fn look_up<W: World>(
        &mut self,
        world: &mut W,
        graph: &mut Graph,
        rule: RuleId,
        file: NodeId,
    ) -> Result<Vec<NodeId>, ListEnd>
        ensures looks { Looks W.meaning world.old world.new }
        ensures cause { HasLookCause (W.meaning.counts world.old) (W.meaning.counts world.new) result }
        ensures grows { HasMore graph.old graph.new }
        ensures gone { SameGone self.old self.new }
        ensures only { ReadsOnly (file ∷ []) self.old self.new }
        ensures truth { IsStill graph.old (W.meaning.around world.old) file.0
            → StaysTrue W.meaning graph.old self.old world.old graph.new self.new world.new }
        ensures found { IsStill graph.old (W.meaning.around world.old) file.0 → (x : DeclaredRule) (path : List ℕ)
            → slice_get graph.old.rules rule.0 ≡ Some x → slice_get graph.old.nodes file.0 ≡ Some path
            → Gives W.meaning graph.old self.old world.old world.new result (λ b found. AreNodesOf graph.new
            (meant b x.paths path (includes_in (past self.old.gone.keys (W.meaning.around world.old).tree path))) found.items) }
        ensures known { OnOk result (is_some (slice_get graph.old.nodes file.0) ≡ true) }
        ensures marks { KeepsMarks graph.old self.old graph.new self.new }
    {
        self.read_once(world, graph, file)?;
        let paths = rule_at(graph, rule)?.paths.as_slice();
        let dirs = Dirs::of(self.alloc, path_of(graph, file)?, paths)?;
        let Some(includes) = self.files.take_includes(file) else {
            return Ok(Vec::new(self.alloc));
        };
        let found = self.search_each(world, graph, &dirs, includes.as_slice())?;
        self.files.keep_includes(file, includes)?;
        Ok(found)
    }

    /// Reads a file for what it includes, where that isn't known.
    #[tactic(auto, using(crate::proofs::Looking::looking))]
    fn read_once<W: World>(
        &mut self,
        world: &mut W,
        graph: &Graph,
        file: NodeId,
    ) -> Result<(), ListEnd>
        ensures looks { Looks W.meaning world.old world.new }
        ensures cause { HasLookCause (W.meaning.counts world.old) (W.meaning.counts world.new) result }
        ensures gone { SameGone self.old self.new }
        ensures only { ReadsOnly (file ∷ []) self.old self.new }
        ensures truth { IsStill graph.now (W.meaning.around world.old) file.0
            → StaysTrue W.meaning graph.now self.old world.old graph.now self.new world.new }
        ensures kept { OnOk result (is_some (seen_at self.new.files.seen.items file.0).includes ≡ true) }
        ensures marks { KeepsMarks graph.now self.old graph.now self.new }
    {
        if self.files.has_includes(file) {
            return Ok(());
        }
        let _ = self.read(world, graph, file, true)?;
        Ok(())
    }

    /// The known files that some include lines mean.
    #[tactic(auto, using(crate::proofs::Looking::looking))]
    fn search_each<W: World>(
        &mut self,
        world: &mut W,
        graph: &mut Graph,
        dirs: &Dirs,
        includes: &[Include],
    ) -> Result<Vec<NodeId>, ListEnd>
        ensures looks { Looks W.meaning world.old world.new }
        ensures cause { HasLookCause (W.meaning.counts world.old) (W.meaning.counts world.new) result }
        ensures grows { HasMore graph.old graph.new }
        ensures gone { SameGone self.old self.new }
        ensures only { ReadsOnly [] self.old self.new }
        ensures truth { StaysTrue W.meaning graph.old self.old world.old graph.new self.new world.new }
        ensures found { (paths : List (List ℕ)) (file : List ℕ) → AreDirs dirs.now paths file
            → Gives W.meaning graph.old self.old world.old world.new result
            (λ b found. AreNodesOf graph.new (meant b paths file includes.now) found.items) }
        ensures marks { KeepsMarks graph.old self.old graph.new self.new }
    {
        let mut found = Vec::new(self.alloc);
        for include in includes {
            let node = self.search(world, graph, dirs, include)?;
            push_found(&mut found, node)?;
        }
        Ok(found)
    }

    /// The first known file among those that an include line may mean.
    #[tactic(auto, using(crate::proofs::Looking::looking))]
    fn search<W: World>(
        &mut self,
        world: &mut W,
        graph: &mut Graph,
        dirs: &Dirs,
        include: &Include,
    ) -> Result<Option<NodeId>, ListEnd>
        ensures looks { Looks W.meaning world.old world.new }
        ensures cause { HasLookCause (W.meaning.counts world.old) (W.meaning.counts world.new) result }
        ensures grows { HasMore graph.old graph.new }
        ensures gone { SameGone self.old self.new }
        ensures only { ReadsOnly [] self.old self.new }
        ensures truth { StaysTrue W.meaning graph.old self.old world.old graph.new self.new world.new }
        ensures found { (paths : List (List ℕ)) (file : List ℕ) → AreDirs dirs.now paths file
            → Gives W.meaning graph.old self.old world.old world.new result
            (λ b node. IsNodeOf graph.new (found_for b.graph b.tree paths file include.now) node) }
        ensures marks { KeepsMarks graph.old self.old graph.new self.new }
    {
        let Ok(name) = str::from_utf8(include.name.as_slice()) else {
            return Ok(None);
        };
        for dir in dirs.in_order(include.quoted) {
            let node = self.search_dir(world, graph, dir, name)?;
            if node.is_some() {
                return Ok(node);
            }
        }
        Ok(None)
    }

    /// The first known file among those that a name may mean in a directory.
    #[tactic(auto, using(crate::proofs::Looking::looking))]
    fn search_dir<W: World>(
        &mut self,
        world: &mut W,
        graph: &mut Graph,
        dir: &PathText,
        name: &str,
    ) -> Result<Option<NodeId>, ListEnd>
        ensures looks { Looks W.meaning world.old world.new }
        ensures cause { HasLookCause (W.meaning.counts world.old) (W.meaning.counts world.new) result }
        ensures grows { HasMore graph.old graph.new }
        ensures gone { SameGone self.old self.new }
        ensures only { ReadsOnly [] self.old self.new }
        ensures truth { StaysTrue W.meaning graph.old self.old world.old graph.new self.new world.new }
        ensures found { Gives W.meaning graph.old self.old world.old world.new result
            (λ b node. IsNodeOf graph.new (first_known b (places_in b.graph name.now dir.now)) node) }
        ensures marks { KeepsMarks graph.old self.old graph.new self.new }
    {
        if !graph.variants().as_slice().is_empty() {
            return self.search_places(world, graph, dir, name);
        }
        match only_place(self.alloc, graph.top(), dir, name)? {
            Some(path) => self.known(world, graph, &path),
            None => Ok(None),
        }
    }

    /// The same, where a name may stand at more than one place.
    #[tactic(auto, using(crate::proofs::Looking::looking))]
    fn search_places<W: World>(
        &mut self,
        world: &mut W,
        graph: &mut Graph,
        dir: &PathText,
        name: &str,
    ) -> Result<Option<NodeId>, ListEnd>
        ensures looks { Looks W.meaning world.old world.new }
        ensures cause { HasLookCause (W.meaning.counts world.old) (W.meaning.counts world.new) result }
        ensures grows { HasMore graph.old graph.new }
        ensures gone { SameGone self.old self.new }
        ensures only { ReadsOnly [] self.old self.new }
        ensures truth { StaysTrue W.meaning graph.old self.old world.old graph.new self.new world.new }
        ensures found { Gives W.meaning graph.old self.old world.old world.new result
            (λ b node. IsNodeOf graph.new (first_known b (places_in b.graph name.now dir.now)) node) }
        ensures marks { KeepsMarks graph.old self.old graph.new self.new }
    {
        let places = places(self.alloc, graph, dir, name)?;
        for path in places.as_slice() {
            let node = self.known(world, graph, path)?;
            if node.is_some() {
                return Ok(node);
            }
        }
        Ok(None)
    }
}

fn push_found(found: &mut Vec<NodeId>, node: Option<NodeId>) -> Result<(), Memory>
    ensures { OnOk result (found.new.items ≡ found.old.items ++ option_to_list node) }
{
    if let Some(node) = node {
        found.push(node)?;
    }
    Ok(())
}

/// Where a name may mean a file, where no variant directory is.
fn only_place(
    alloc: Global,
    top: &PathText,
    dir: &PathText,
    name: &str,
) -> Result<Option<PathText>, Memory>
    ensures places { IfOk result (λ p. ArePlaces [] top.now dir.now name.now (option_to_list p)) }
    ensures only { (g : RuleGraph) → g.top ≡ top.now → g.variants ≡ []
        → IfOk result (λ p. option_to_list p ≡ places_in g name.now dir.now) }
{
    match PathText::resolve(alloc, top, dir, name) {
        Ok(path) => Ok(Some(path)),
        Err(PathFault::Memory) => Err(Memory),
        Err(_) => Ok(None),
    }
}

/// Where a name may mean a file.
fn places(alloc: Global, graph: &Graph, dir: &PathText, name: &str) -> Result<Paths, Memory>
    ensures searched { IfOk result (ArePlaces graph.now.variants graph.now.top dir.now name.now) }
    ensures places { IfOk result (λ p. p ≡ places_in graph.now name.now dir.now) }
{
    match graph.variants().search(graph.top(), dir, name) {
        Ok(paths) => Ok(paths),
        Err(VariantFault::Memory) => Err(Memory),
        Err(_) => Ok(Paths::new(Vec::new(alloc))),
    }
}

/// The directories in which included files are looked for: the one of the including file twice, in front of the search
/// path and behind it.
#[derive(Drop)]
struct Dirs {
    dirs: Vec<PathText>,
}

impl Dirs {
    fn of(alloc: Global, file: &PathText, paths: &[PathText]) -> Result<Dirs, Memory>
        ensures { IfOk result (λ dirs. AreDirs dirs paths.now file.now) }
    {
        let mut dirs = Vec::new(alloc);
        push_dir(&mut dirs, file.dir())?;
        for dir in paths {
            dirs.push(dir.copy()?)?;
        }
        push_dir(&mut dirs, file.dir())?;
        Ok(Dirs { dirs })
    }

    /// The directories in the order in which they are searched: the including file's one first for a name in quotes, else
    /// last.
    fn in_order(&self, quoted: bool) -> &[PathText]
        ensures { (paths : List (List ℕ)) (file : List ℕ) → AreDirs self.now paths file
            → result.now ≡ dirs_for paths file quoted }
    {
        let dirs = self.dirs.as_slice();
        if dirs.is_empty() {
            return dirs;
        }
        if quoted {
            &dirs[..dirs.len() - 1]
        } else {
            &dirs[1..]
        }
    }
}

fn push_dir(dirs: &mut Vec<PathText>, dir: &str) -> Result<(), Memory>
    ensures { OnOk result (dirs.new.items ≡ dirs.old.items ++ dir.now ∷ []) }
{
    match PathText::read(*dirs.allocator(), dir) {
        Ok(dir) => dirs.push(dir)?,
        Err(_) => return Err(Memory),
    }
    Ok(())
}
