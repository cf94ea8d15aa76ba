//! Parts overwritten by their ranks.
ghost use Rattle.std.specs.Prelude.{◌≡◌, [], ◌<◌, true, map, length, slice_index, IfOk, IfErr, MatchOption};
ghost use Rattle.std.specs.List.{All};
ghost use Rattle.std.specs.List.Sorted.{IsPermutation};
ghost use Rattle.yaml_tree.specs.View.{InsideBelow};
ghost use Rattle.yaml_tree.specs.Places.{IsFirstEqual};
ghost use Rattle.yaml_store.specs.StoreModel.{place_of, inside_of, PartsWithin, Apart};
ghost use Rattle.yaml_store_rank.specs.PartsModel.{two_ranks, key_ranks, KeysRise, PlaceSettled, Rising, AllPartsWithin, LevelBelow, LevelSettled, RefusesLevel};

use crate::equal::{copy_keys, first_equal};
use std::alloc::Global;
use yaml_store::no_memory::NoMemory;
use yaml_store::nodes::{Node, Place};
use yaml_text::fault::Fault;

/// Puts the rank of each number in its place.
pub(crate) fn overwrite(items: &mut [u32], ranks: &[u32])
    requires { All (λ i. i < length ranks.now) items.old }
    ensures { items.new ≡ map (slice_index ranks.now) items.old }
{
    for item in items.iter_mut() {
        *item = ranks[*item as usize];
    }
}

/// Puts the ranks of each key and value in their place.
fn overwrite_entries(entries: &mut [(u32, u32)], ranks: &[u32])
    requires { All (λ p. (p.0 < length ranks.now) × (p.1 < length ranks.now)) entries.old }
    ensures { entries.new ≡ map (two_ranks (slice_index ranks.now)) entries.old }
{
    for entry in entries.iter_mut() {
        *entry = (ranks[entry.0 as usize], ranks[entry.1 as usize]);
    }
}

/// Whether each key is above the one before it.
fn rises(entries: &[(u32, u32)]) -> bool
    ensures { result ≡ true → KeysRise entries.now }
{
    for place in 1..entries.len() {
        if entries[place].0 <= entries[place - 1].0 {
            return false;
        }
    }
    true
}

/// Puts entries in the order of their keys. Told are the first two equal keys, if there are some: the
/// keys are copied only where the order is lost.
fn arrange(
    alloc: Global,
    entries: &mut [(u32, u32)],
    keys: &mut Vec<u32>,
) -> Result<Option<(usize, usize)>, NoMemory>
    ensures { IfOk result (λ equal. MatchOption equal (IsPermutation entries.old entries.new × KeysRise entries.new) (λ places. IsFirstEqual (map (λ p. p.0) entries.old) places.0 places.1)) }
{
    if rises(entries) {
        return Ok(None);
    }
    copy_keys(entries, keys)?;
    entries.sort_unstable();
    if rises(entries) {
        return Ok(None);
    }
    first_equal(alloc, keys)
}

/// Overwrites the parts of a node by their ranks, the entries of a mapping in the order of their keys.
/// Told are the first two equal keys, if there are some.
fn settle_one(
    alloc: Global,
    place: Place,
    items: &mut [u32],
    entries: &mut [(u32, u32)],
    ranks: &[u32],
    keys: &mut Vec<u32>,
) -> Result<Option<(usize, usize)>, NoMemory>
    requires within { PartsWithin (length items.old) (length entries.old) place }
    requires parts { InsideBelow (length ranks.now) (inside_of [] items.old entries.old place) }
    ensures { IfOk result (λ equal. MatchOption equal (PlaceSettled (slice_index ranks.now) place items.old entries.old items.new entries.new) (λ places. IsFirstEqual (key_ranks (slice_index ranks.now) (inside_of [] items.old entries.old place)) places.0 places.1)) }
{
    match place {
        Place::Scalar(_) => Ok(None),
        Place::Sequence(span) => {
            overwrite(&mut items[span.start as usize..span.end as usize], ranks);
            Ok(None)
        }
        Place::Mapping(span) => {
            let part = &mut entries[span.start as usize..span.end as usize];
            overwrite_entries(part, ranks);
            arrange(alloc, part, keys)
        }
    }
}

/// Overwrites the parts of the nodes of one height by their ranks; two equal keys are refused. The level has
/// the numbers of nodes, each once, and no two nodes share a part, so that each part is overwritten once. The
/// keys are room for copies, whatever stands there.
pub(crate) fn settle(
    alloc: Global,
    nodes: &[Node],
    items: &mut [u32],
    entries: &mut [(u32, u32)],
    ranks: &[u32],
    level: &[u32],
    keys: &mut Vec<u32>,
) -> Result<(), Fault>
    requires numbers { All (λ i. i < length nodes.now) level.now }
    requires once { Rising level.now }
    requires within { AllPartsWithin (length items.old) (length entries.old) nodes.now }
    requires apart { Apart nodes.now }
    requires below { LevelBelow (length ranks.now) nodes.now level.now items.old entries.old }
    ensures ok { IfOk result (λ _. LevelSettled (slice_index ranks.now) nodes.now level.now items.old entries.old items.new entries.new) }
    ensures err { IfErr result (RefusesLevel (slice_index ranks.now) nodes.now level.now items.old entries.old) }
{
    for number in level {
        let place = nodes[*number as usize].place();
        let equal = settle_one(alloc, place, items, entries, ranks, keys)?;
        if let Some((first, second)) = equal {
            return Err(Fault::EqualKeys(*number as usize, first, second));
        }
    }
    Ok(())
}
