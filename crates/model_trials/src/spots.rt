//! Paths of small graphs, and plain lists of them.
ghost use Rattle.std.specs.Prelude.{◌≡◌, ◌∷◌, ◌++◌, [], IfOk, OnOk, nat_eq};
ghost use Rattle.std.specs.Str.{bytes_eq};
ghost use Rattle.std.specs.Cmp.{partial_equiv_from_equiv};
ghost use Rattle.std.specs.Cmp.Lexicographic.{pointwise, nat_list_eq_equiv};
ghost use Rattle.build_model.specs.Reach.{has as is_in, unseen as unseen_of, those as those_of};

use scons_base::Memory;
use std::alloc::Global;
use std::marker::Model;

/// A path of one character.
#[derive(Clone, Copy)]
pub struct Spot {
    letter: u8,
}

impl Model for Spot {
    ghost use Rattle.std.specs.Prelude.{List, ℕ, [], ◌∷◌, slice_index};

    ghost Value = { List ℕ };

    ghost view = { λ s. s.letter ∷ [] };

    ghost inverse = { λ p. record { letter = slice_index p 0 } };
}

impl PartialEq for Spot {
    ghost eq = { pointwise nat_eq };

    ghost laws = { partial_equiv_from_equiv nat_list_eq_equiv };

    fn eq(&self, other: &Self) -> bool {
        self.letter == other.letter
    }
}

impl Spot {
    pub fn new(letter: u8) -> Spot
        ensures { result ≡ letter ∷ [] }
    {
        Spot { letter }
    }

    pub fn letter(&self) -> u8
        ensures { self.now ≡ result ∷ [] }
    {
        self.letter
    }

    pub fn is(&self, other: &Spot) -> bool
        ensures { result ≡ bytes_eq self.now other.now }
    {
        self.letter == other.letter
    }
}

/// Whether a path stands in a list.
pub fn has(path: &Spot, paths: &[Spot]) -> bool
    ensures { result ≡ is_in path.now paths.now }
{
    for other in paths {
        if path.is(other) {
            return true;
        }
    }
    false
}

/// Adds the paths that weren't seen, each once, in order.
pub fn add_unseen(seen: &mut Vec<Spot>, paths: &[Spot], found: &mut Vec<Spot>) -> Result<(), Memory>
    ensures { OnOk result (found.new.items ≡ found.old.items ++ unseen_of seen.old.items paths.now) }
{
    for path in paths {
        if !has(path, seen.as_slice()) {
            seen.insert(0, *path)?;
            found.push(*path)?;
        }
    }
    Ok(())
}

/// The paths that weren't seen, each once, in order.
pub fn unseen(alloc: Global, seen: &[Spot], paths: &[Spot]) -> Result<Vec<Spot>, Memory>
    ensures { IfOk result (λ found. found.items ≡ unseen_of seen.now paths.now) }
{
    let mut seen = Vec::from_slice(alloc, seen)?;
    let mut found = Vec::new(alloc);
    add_unseen(&mut seen, paths, &mut found)?;
    Ok(found)
}

/// Those that are among the wanted ones.
pub fn those(alloc: Global, wanted: &[Spot], paths: &[Spot]) -> Result<Vec<Spot>, Memory>
    ensures { IfOk result (λ found. found.items ≡ those_of wanted.now paths.now) }
{
    let mut found = Vec::new(alloc);
    for path in paths {
        if has(path, wanted) {
            found.push(*path)?;
        }
    }
    Ok(found)
}

/// One list and behind it another one.
pub fn joined(alloc: Global, front: &[Spot], behind: &[Spot]) -> Result<Vec<Spot>, Memory>
    ensures { IfOk result (λ all. all.items ≡ front.now ++ behind.now) }
{
    let mut all = Vec::from_slice(alloc, front)?;
    all.extend_from_slice(behind)?;
    Ok(all)
}
