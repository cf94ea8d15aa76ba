//! Equal keys by their places.
ghost use Rattle.std.specs.Prelude.{◌≡◌, ℕ, List, map, IfOk, MatchOption};
ghost use Rattle.yaml_tree.specs.Places.{InOrder, AllRise, IsFirstEqual, Earlier};
ghost use Rattle.yaml_store_rank.specs.PartsModel.{Differ};

use std::alloc::Global;
use yaml_store::no_memory::NoMemory;

/// Copies the keys of entries in place of those of the mapping before.
pub(crate) fn copy_keys(entries: &[(u32, u32)], keys: &mut Vec<u32>) -> Result<(), NoMemory>
    ensures { IfOk result (λ _. keys.new.items ≡ map (λ p. p.0) entries.now) }
{
    keys.clear();
    for entry in entries {
        keys.push(entry.0)?;
    }
    Ok(())
}

/// The first two equal ones of these numbers: the least second place, then the least first one.
pub(crate) fn first_equal(
    alloc: Global,
    numbers: &[u32],
) -> Result<Option<(usize, usize)>, NoMemory>
    ensures { IfOk result (λ equal. MatchOption equal (Differ numbers.now) (λ places. IsFirstEqual numbers.now places.0 places.1)) }
{
    let order = in_order(alloc, numbers)?;
    Ok(equal_neighbours(&order))
}

/// The numbers, each with its place, in rising order. Equal ones stand by their places.
fn in_order(alloc: Global, numbers: &[u32]) -> Result<Vec<(u32, usize)>, NoMemory>
    ensures { IfOk result (λ order. InOrder numbers.now order.items) }
{
    let mut order = Vec::with_capacity(alloc, numbers.len())?;
    for (place, number) in numbers.iter().enumerate() {
        order.push((*number, place))?;
    }
    order.sort_unstable();
    Ok(order)
}

/// The first two places of equal numbers, which are neighbours in order.
fn equal_neighbours(order: &[(u32, usize)]) -> Option<(usize, usize)>
    ensures { (numbers : List ℕ) → InOrder numbers order.now → MatchOption result (AllRise order.now) (λ places. IsFirstEqual numbers places.0 places.1) }
{
    let mut best = None;
    for at in 1..order.len() {
        let (before, first) = order[at - 1];
        let (number, second) = order[at];
        if before == number {
            best = Some(earlier(best, (first, second)));
        }
    }
    best
}

/// The pair whose second place is less.
fn earlier(best: Option<(usize, usize)>, other: (usize, usize)) -> (usize, usize)
    ensures { Earlier best other result }
{
    match best {
        Some(best) if best.1 < other.1 => best,
        _ => other,
    }
}
