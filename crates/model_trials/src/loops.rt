//! Where rules lead to, and whether one leads to itself, slowly: over numbers of rules, and lists of what each needs.
ghost use Rattle.std.specs.Prelude.{◌≡◌, [], ℕ, List, Ok, IfOk, IfSome, OnOk, get_or, Some, false, true};
ghost use Rattle.build_model.specs.Rules.{Among};
ghost use Rattle.model_trials.specs.Loops.{LeadsTo, AreLed, IsUnderWay};

use scons_base::{Listing, Memory};
use std::alloc::Global;

/// What the rule of a number needs; a number behind the last one needs nothing.
pub fn list_at(needs: &[Listing<usize>], number: usize) -> &[usize]
    ensures { result.now ≡ get_or needs.now number [] }
{
    match needs.get(number) {
        Some(list) => list.as_slice(),
        None => &[],
    }
}

/// Takes one of those that wait. Where it is met for the first time, what it needs waits.
fn take_last(
    needs: &[Listing<usize>],
    met: &mut Vec<usize>,
    waiting: &mut Vec<usize>,
) -> Result<(), Memory>
    ensures { OnOk result ((roots : List ℕ) → IsUnderWay needs.now roots met.old.items waiting.old.items →
        IsUnderWay needs.now roots met.new.items waiting.new.items) }
{
    let Some(number) = waiting.pop() else {
        return Ok(());
    };
    let is_met = met.contains(&number);
    if !is_met {
        met.push(number)?;
        waiting.extend_from_slice(list_at(needs, number))?;
    }
    Ok(())
}

/// These and all that they lead to, where so many steps suffice.
pub fn led_from(
    alloc: Global,
    needs: &[Listing<usize>],
    steps: usize,
    roots: &[usize],
) -> Result<Option<Vec<usize>>, Memory>
    ensures { IfOk result (λ answer. IfSome answer (λ all. AreLed needs.now roots.now all.items)) }
{
    let mut met = Vec::new(alloc);
    let mut waiting = Vec::from_slice(alloc, roots)?;
    for _step in 0..steps {
        if waiting.is_empty() {
            return Ok(Some(met));
        }
        take_last(needs, &mut met, &mut waiting)?;
    }
    Ok(None)
}

/// Whether a rule leads to itself, where so many steps suffice.
fn leads_back(
    alloc: Global,
    needs: &[Listing<usize>],
    steps: usize,
    number: usize,
) -> Result<Option<bool>, Memory>
    ensures back { result ≡ Ok (Some true) → LeadsTo needs.now number number }
    ensures never { result ≡ Ok (Some false) → LeadsTo needs.now number number → ⊥ }
{
    let Some(all) = led_from(alloc, needs, steps, list_at(needs, number))? else {
        return Ok(None);
    };
    let is_back = all.contains(&number);
    Ok(Some(is_back))
}

/// Whether one of these rules leads to itself: whether there is a cycle among those that they lead to. None where more steps
/// would be wanted.
pub fn has_loop(
    alloc: Global,
    needs: &[Listing<usize>],
    steps: usize,
    numbers: &[usize],
) -> Result<Option<bool>, Memory>
    ensures some { result ≡ Ok (Some true) → (n : ℕ) × (Among n numbers.now × LeadsTo needs.now n n) }
    ensures none { result ≡ Ok (Some false) → (n : ℕ) → Among n numbers.now → LeadsTo needs.now n n → ⊥ }
{
    for number in numbers {
        let Some(is_back) = leads_back(alloc, needs, steps, *number)? else {
            return Ok(None);
        };
        if is_back {
            return Ok(Some(true));
        }
    }
    Ok(Some(false))
}
