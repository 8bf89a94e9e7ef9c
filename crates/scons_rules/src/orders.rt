//! Lists in lists, gone over depth first. The stack is the walk's own, since lists stand in each other as deep as scripts put them.
//! A walk of more than 2^64 - 1 steps, which would take centuries, ends as want of memory.
ghost use Rattle.std.specs.Prelude.{◌≡◌, ◌≤◌, ◌-◌, ◌+◌, ◌++◌, ◌∷◌, [], ℕ, List, length, map, IfOk, OnOk};
ghost use Rattle.scons_rules.specs.Orders.{flattened, list_at, nothing_gone, with_member};
ghost use Rattle.scons_rules.specs.Walks.{unwound, left_of, gone_of, Begins, Takes};

use indexmap::IndexSet;
use scons_base::{Listing, Memory};
use scons_decls::Given;
use std::alloc::Global;

/// One item of a list: a member, or another list by its place.
#[derive(Drop)]
pub(crate) enum Step {
    Member(Given),
    Inner(usize),
}

/// A walk down through lists.
#[derive(Drop)]
pub(crate) struct Walk<'a> {
    /// The lists that were begun.
    met: IndexSet<usize>,
    /// What is left of the lists that are gone over, the innermost last.
    left: Vec<&'a [Step]>,
    found: Vec<&'a Given>,
}

impl Walk<'_> {
    fn new(alloc: Global) -> Self
        ensures left { left_of result ≡ [] }
        ensures gone { gone_of result ≡ nothing_gone }
    {
        Walk {
            met: IndexSet::new(alloc),
            left: Vec::new(alloc),
            found: Vec::new(alloc),
        }
    }
}

/// The members of a list. Those of a list in it stand in its place, and a list that was begun before is passed over.
pub(crate) fn flattened<'a>(
    alloc: Global,
    lists: &'a [Listing<Step>],
    place: usize,
) -> Result<Vec<&'a Given>, Memory>
    ensures { IfOk result (λ v. map (λ m. m.now) v.items ≡ flattened lists.now place) }
{
    let mut walk = Walk::new(alloc);
    enter(&mut walk, lists, place)?;
    go_over(&mut walk, lists)?;
    let Walk { found, .. } = walk;
    Ok(found)
}

/// Goes over all that is left.
fn go_over<'a>(walk: &mut Walk<'a>, lists: &'a [Listing<Step>]) -> Result<(), Memory>
    ensures { OnOk result (gone_of walk.new ≡ unwound lists.now (length lists.now) (left_of walk.old) (gone_of walk.old)) }
{
    'steps: for _ in 0..u64::MAX {
        match walk.left.pop() {
            Some(steps) => go_on(walk, lists, steps)?,
            None => return Ok(()),
        }
    }
    Err(Memory)
}

/// Takes the first of these steps, which stood last on the stack.
fn go_on<'a>(
    walk: &mut Walk<'a>,
    lists: &'a [Listing<Step>],
    steps: &'a [Step],
) -> Result<(), Memory>
    ensures { let n = length lists.now in OnOk result (unwound lists.now n (left_of walk.new) (gone_of walk.new)
        ≡ unwound lists.now n (left_of walk.old ++ steps.now ∷ []) (gone_of walk.old)) }
{
    match steps.split_first() {
        Some((step, rest)) => {
            walk.left.push(rest)?;
            take(walk, lists, step)
        }
        None => Ok(()),
    }
}

/// Takes a step, where what is left behind it stands last on the stack.
fn take<'a>(walk: &mut Walk<'a>, lists: &'a [Listing<Step>], step: &'a Step) -> Result<(), Memory>
    ensures { OnOk result (Takes lists.now step.now (left_of walk.old) (gone_of walk.old) (left_of walk.new) (gone_of walk.new)) }
{
    match step {
        Step::Member(member) => find(walk, member),
        Step::Inner(place) => enter(walk, lists, *place),
    }
}

fn find<'a>(walk: &mut Walk<'a>, member: &'a Given) -> Result<(), Memory>
    ensures left { left_of walk.new ≡ left_of walk.old }
    ensures found { OnOk result (gone_of walk.new ≡ with_member (gone_of walk.old) member.now) }
{
    walk.found.push(member)?;
    Ok(())
}

/// Begins the list at a place, unless it was begun before. More lists than there are don't stand in each other.
fn enter<'a>(walk: &mut Walk<'a>, lists: &'a [Listing<Step>], place: usize) -> Result<(), Memory>
    ensures fits { OnOk result (length (left_of walk.old) ≤ length lists.now) }
    ensures enters { let n = length lists.now in OnOk result (unwound lists.now n (left_of walk.new) (gone_of walk.new)
        ≡ unwound lists.now n (left_of walk.old)
        (list_at lists.now (n - length (left_of walk.old) + 1) place (gone_of walk.old))) }
{
    if walk.left.len() > lists.len() {
        return Err(Memory);
    }
    match lists.get(place) {
        Some(list) => begin(walk, place, list.as_slice()),
        None => Ok(()),
    }
}

/// Begins a list, unless it was begun before.
fn begin<'a>(walk: &mut Walk<'a>, place: usize, steps: &'a [Step]) -> Result<(), Memory>
    ensures { OnOk result (Begins (left_of walk.old) (gone_of walk.old) place steps.now (left_of walk.new) (gone_of walk.new)) }
{
    if walk.met.insert(place)? {
        walk.left.push(steps)?;
    }
    Ok(())
}
