//! Lists of paths with their contents.
ghost use Rattle.std.specs.Prelude.{◌≡◌, ◌<◌, IfOk, OnOk, OnErr, ◌++◌, ◌∷◌, [], List, ℕ, Option, Some, length};
ghost use Rattle.std.specs.Option.{option_copied};
ghost use Rattle.act_table.specs.Listed.{contents_in};
ghost use Rattle.act_table.specs.Listed.{listed, same_given};
ghost use Rattle.act_table.specs.Filled.{contents_of, filled_from, paired, refilled, with_content};

use scons_base::{Blob, Listing, Memory, PathText, Paths};
use std::alloc::Global;
use std::marker::Model;
use world_api::Content;

/// Paths with their contents, as a list of pairs.
#[derive(Drop)]
pub struct Contents {
    items: Vec<(PathText, Content)>,
}

impl Model for Contents {
    ghost use Rattle.std.specs.Prelude.{List, ℕ, Option};

    ghost Value = { List (List ℕ × Option (List ℕ)) };

    ghost view = { λ c. c.items.items };
}

impl Contents {
    pub fn new(items: Vec<(PathText, Content)>) -> Contents
        ensures { result ≡ items.items }
    {
        Contents { items }
    }

    /// Where the list lies.
    pub fn alloc(&self) -> Global {
        *self.items.allocator()
    }

    pub fn as_slice(&self) -> &[(PathText, Content)]
        ensures { result.now ≡ self.now }
    {
        self.items.as_slice()
    }

    pub fn into_vec(self) -> Vec<(PathText, Content)>
        ensures { result.items ≡ self }
    {
        let Contents { items } = self;
        items
    }

    pub fn push(&mut self, path: PathText, content: Content) -> Result<(), Memory>
        ensures ok { OnOk result (self.new ≡ self.old ++ (path, content) ∷ []) }
        ensures err { OnErr result (self.new ≡ self.old) }
    {
        self.items.push((path, content))?;
        Ok(())
    }

    /// How many of the contents are files.
    pub fn files(&self) -> usize
        ensures { result ≡ length (contents_in self.now) }
    {
        let mut count = 0;
        for (_, content) in &self.items {
            if content.is_some() {
                count += 1;
            }
        }
        count
    }

    /// Whether the lists are equal.
    pub fn is(&self, other: &Contents) -> bool
        ensures { result ≡ same_given self.now other.now }
    {
        self.items == other.items
    }

    /// Puts these contents in the place of those that the paths have, in their order.
    #[tactic(auto, using(crate::proofs::Filled::filled_all))]
    pub fn refill(&mut self, contents: Listing<Content>)
        requires { length contents ≡ length self.old }
        ensures { self.new ≡ refilled self.old contents }
    {
        refill(&mut self.items, contents.into_vec());
    }

    /// The contents alone.
    pub fn contents(&self) -> Result<Listing<Content>, Memory>
        ensures { IfOk result (λ contents. contents ≡ contents_of self.now) }
    {
        let mut contents = Listing::empty(*self.items.allocator());
        for (_, content) in &self.items {
            contents.push(copy_content(content)?)?;
        }
        Ok(contents)
    }

    /// The content that is listed first for a path, or `None`.
    pub fn listed(&self, path: &PathText) -> Option<&Blob>
        ensures { option_copied result ≡ listed self.now path.now }
    {
        for (name, content) in &self.items {
            if path == name {
                return content.as_ref();
            }
        }
        None
    }

    pub fn copy(&self) -> Result<Contents, Memory>
        ensures { IfOk result (λ contents. contents ≡ self.now) }
    {
        let mut items = Vec::with_capacity(*self.items.allocator(), self.items.len())?;
        for (path, content) in &self.items {
            items.push((path.copy()?, copy_content(content)?))?;
        }
        Ok(Contents { items })
    }
}

/// The content of a file, or of none.
pub fn copy_content(content: &Content) -> Result<Content, Memory>
    ensures { IfOk result (λ copied. copied ≡ content.now) }
{
    match content {
        Some(bytes) => Ok(Some(bytes.copy()?)),
        None => Ok(None),
    }
}

/// A file as contents.
pub fn group_of(alloc: Global, path: &PathText, bytes: &[u8]) -> Result<Contents, Memory>
    ensures { IfOk result (λ group. group ≡ (path.now, Some bytes.now) ∷ []) }
{
    let mut group = Contents::new(Vec::new(alloc));
    group.push(path.copy()?, Some(Blob::of(alloc, bytes)?))?;
    Ok(group)
}

/// Puts contents beside the paths, in their order.
fn refill(items: &mut Vec<(PathText, Content)>, contents: Vec<Content>)
    requires { length contents.items ≡ length items.old.items }
    ensures { items.new.items ≡ filled_from 0 items.old.items contents.items }
{
    let mut place = 0;
    'contents: for content in contents {
        put_content(items, place, content);
        place += 1;
    }
}

fn put_content(items: &mut Vec<(PathText, Content)>, place: usize, content: Content)
    requires { place < length items.old.items }
    ensures items { items.new.items ≡ with_content place content items.old.items }
    ensures len { length items.new.items ≡ length items.old.items }
{
    items[place].1 = content;
}

/// Paths with the contents that stand beside them; a path without one isn't a file.
pub fn paired(alloc: Global, paths: &Paths, contents: &[Content]) -> Result<Contents, Memory>
    ensures { IfOk result (λ pairs. pairs ≡ paired paths.now contents.now) }
{
    let mut pairs = Contents::new(Vec::new(alloc));
    let mut rest = contents;
    for path in paths.as_slice() {
        match rest {
            [content, later @ ..] => {
                pairs.push(path.copy()?, copy_content(content)?)?;
                rest = later;
            }
            [] => pairs.push(path.copy()?, None)?,
        }
    }
    Ok(pairs)
}
