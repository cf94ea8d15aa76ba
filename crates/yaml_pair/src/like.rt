//! Items that have much in common.
ghost use Rattle.std.specs.Prelude.{◌≡◌, OnOk};
ghost use Rattle.yaml_pair.specs.Named.{Keeps};

use crate::nodes::{are_collections, entries_at, items_at, rank_at, width};
use crate::partners::{Partners, is_free};
use std::alloc::{AllocError, Global};
use yaml_store_rank::RankedForests;
use yaml_tree::node::NodeId;

/// An entry that more items of a side have says nothing.
const WIDE: usize = 32;

/// An entry of a mapping by the ranks of its key and value, or an item of a sequence by its rank and how many equal ones stand before it.
type Entry = (usize, usize, usize);

/// Adds the items of a sequence.
fn put_items(
    alloc: Global,
    forests: &RankedForests<'_>,
    item: NodeId,
    place: usize,
    all: &mut Vec<(Entry, usize)>,
) -> Result<(), AllocError> {
    let mut ranks = Vec::new(alloc);
    for part in items_at(forests, item) {
        ranks.push(rank_at(forests, *part))?;
    }
    ranks.sort_unstable();
    for (index, rank) in ranks.iter().enumerate() {
        let start = ranks.partition_point(|it| *it < *rank);
        all.push(((0, *rank, index.saturating_sub(start)), place))?;
    }
    Ok(())
}

/// The entries of the items in no pair, in order, each with the place of its item.
fn entries(
    alloc: Global,
    forests: &RankedForests<'_>,
    items: &[NodeId],
    places: &[Option<usize>],
) -> Result<Vec<(Entry, usize)>, AllocError> {
    let mut all = Vec::new(alloc);
    for (place, item) in items.iter().enumerate() {
        if is_free(places, place) {
            for (key, value) in entries_at(forests, *item) {
                all.push(((1, rank_at(forests, *key), rank_at(forests, *value)), place))?;
            }
            put_items(alloc, forests, *item, place, &mut all)?;
        }
    }
    all.sort_unstable();
    Ok(all)
}

/// Where an entry stands in a list of entries in order: from this index on, and up to that one.
fn range_of(all: &[(Entry, usize)], entry: Entry) -> (usize, usize) {
    let start = all.partition_point(|it| it.0 < entry);
    let end = all.partition_point(|it| it.0 <= entry);
    (start, end)
}

/// For each entry of a left item that both sides have and few items do, the place of the item and the range of the entry on the right.
fn links(
    alloc: Global,
    lefts: &[(Entry, usize)],
    rights: &[(Entry, usize)],
) -> Result<Vec<(usize, usize, usize)>, AllocError> {
    let mut links = Vec::new(alloc);
    for (entry, left) in lefts {
        let here = range_of(lefts, *entry);
        let there = range_of(rights, *entry);
        let is_shared = there.0 < there.1;
        let are_few = here.1.saturating_sub(here.0) <= WIDE
            && there.1.saturating_sub(there.0) <= WIDE;
        if is_shared && are_few {
            links.push((*left, there.0, there.1))?;
        }
    }
    links.sort_unstable();
    Ok(links)
}

/// Two items with what they have in common: first the pairs with most of it, then those that stand nearest.
type Likeness = (usize, usize, usize, usize);

/// Adds the items of the right that have at least half of the entries of the longer of the two, of those that a left item shares entries with.
fn put_alike(
    forests: &RankedForests<'_>,
    lefts: &[NodeId],
    rights: &[NodeId],
    left: usize,
    near: &[usize],
    alike: &mut Vec<Likeness>,
) -> Result<(), AllocError> {
    for (index, right) in near.iter().enumerate() {
        let start = near.partition_point(|it| *it < *right);
        let end = near.partition_point(|it| *it <= *right);
        if index != start {
            continue;
        }
        if let Some(first) = lefts.get(left)
            && let Some(second) = rights.get(*right)
        {
            let count = end.saturating_sub(start);
            let longer = width(forests, *first).max(width(forests, *second));
            if count.saturating_mul(2) >= longer && are_collections(forests, *first, *second) {
                let rest = usize::MAX.saturating_sub(count);
                alike.push((rest, left.abs_diff(*right), left, *right))?;
            }
        }
    }
    Ok(())
}

/// All pairs of items that have enough in common.
fn all_alike(
    alloc: Global,
    forests: &RankedForests<'_>,
    lefts: &[NodeId],
    rights: &[NodeId],
    links: &[(usize, usize, usize)],
    entries: &[(Entry, usize)],
) -> Result<Vec<Likeness>, AllocError> {
    let mut alike = Vec::new(alloc);
    let mut near = Vec::new(alloc);
    let mut current = 0;
    for (left, start, end) in links {
        if *left != current {
            near.sort_unstable();
            put_alike(forests, lefts, rights, current, &near, &mut alike)?;
            near.clear();
            current = *left;
        }
        if let Some(range) = entries.get(*start..*end) {
            for (_, right) in range {
                near.push(*right)?;
            }
        }
    }
    near.sort_unstable();
    put_alike(forests, lefts, rights, current, &near, &mut alike)?;
    Ok(alike)
}

/// Pairs items of one kind and tag by their equal entries.
pub(crate) fn pair_alike(
    alloc: Global,
    forests: &RankedForests<'_>,
    lefts: &[NodeId],
    rights: &[NodeId],
    partners: &mut Partners,
) -> Result<(), AllocError>
    ensures ok { OnOk result (Keeps partners.old partners.new) }
{
    let left = entries(alloc, forests, lefts, &partners.lefts)?;
    let right = entries(alloc, forests, rights, &partners.rights)?;
    let links = links(alloc, &left, &right)?;
    let mut alike = all_alike(alloc, forests, lefts, rights, &links, &right)?;
    alike.sort_unstable();
    for (_, _, left, right) in &alike {
        partners.take(*left, *right);
    }
    Ok(())
}
