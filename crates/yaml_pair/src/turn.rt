//! Items in turn, between pairs that stay.
ghost use Rattle.std.specs.Prelude.{◌≡◌, OnOk};
ghost use Rattle.yaml_pair.specs.Named.{Keeps};

use crate::names::{Column, own_name};
use crate::nodes::{entries_at, has_key, is_mapping};
use crate::partners::{Name, Partners, is_free};
use std::alloc::{AllocError, Global};
use yaml_store_rank::RankedForests;
use yaml_tree::node::NodeId;

/// How many items of the right an item of the left looks at.
const LOOKS: usize = 64;

/// The number of a column, and the name that an item has there.
type Named<'g> = (usize, Name<'g>);

/// An item in no pair: its place, its node and its own name.
type Single<'g> = (usize, NodeId, Option<Named<'g>>);

/// The items in no pair, in order.
fn singles<'g>(
    alloc: Global,
    forests: &'g RankedForests<'_>,
    columns: &[Column<'_>],
    items: &[NodeId],
    places: &[Option<usize>],
) -> Result<Vec<Single<'g>>, AllocError> {
    let mut list = Vec::new(alloc);
    for (place, item) in items.iter().enumerate() {
        if is_free(places, place) {
            let name = own_name(forests, *item, columns);
            list.push((place, *item, name))?;
        }
    }
    Ok(list)
}

/// Whether two mappings have at least half of the keys of the longer in common; others have nothing to compare.
fn share_keys(forests: &RankedForests<'_>, left: NodeId, right: NodeId) -> bool {
    if !is_mapping(forests, left) || !is_mapping(forests, right) {
        return true;
    }
    let (lefts, rights) = (entries_at(forests, left), entries_at(forests, right));
    let longer = lefts.len().max(rights.len());
    let shorter = lefts.len().min(rights.len());
    if shorter == 0 {
        return true;
    }
    if shorter.saturating_mul(2) < longer {
        return false;
    }
    let mut count: usize = 0;
    for (key, _) in lefts {
        if has_key(forests, right, *key) {
            count = count.saturating_add(1);
        }
    }
    count.saturating_mul(2) >= longer
}

/// Whether the names of two items differ.
fn names_differ(left: Option<Named<'_>>, right: Option<Named<'_>>) -> bool {
    match (left, right) {
        (Some(left), Some(right)) => left != right,
        _ => false,
    }
}

/// The place in the list, from this one on, of the first item that a left item is paired with.
fn fitting(
    forests: &RankedForests<'_>,
    left: Single<'_>,
    rights: &[Single<'_>],
    from: usize,
) -> Option<usize> {
    for step in 0..=LOOKS {
        let at = from.saturating_add(step);
        let right = rights.get(at)?;
        if !names_differ(left.2, right.2) && share_keys(forests, left.1, right.1) {
            return Some(at);
        }
    }
    None
}

/// Pairs the items of one gap, of both of which the places rise.
fn pair_gap(
    forests: &RankedForests<'_>,
    lefts: &[Single<'_>],
    rights: &[Single<'_>],
    partners: &mut Partners,
)
    ensures { Keeps partners.old partners.new }
{
    let mut from = 0;
    for left in lefts {
        if let Some(at) = fitting(forests, *left, rights, from)
            && let Some(right) = rights.get(at)
        {
            partners.take(left.0, right.0);
            from = at.saturating_add(1);
        }
    }
}

/// The items of a list whose places stand behind the one and before the other.
fn gap_of<'a, 'g>(list: &'a [Single<'g>], from: usize, to: usize) -> &'a [Single<'g>] {
    let start = list.partition_point(|it| it.0 < from);
    let rest = &list[start..];
    &rest[..rest.partition_point(|it| it.0 < to)]
}

/// Pairs the items in no pair, between pairs that stay, in turn.
pub(crate) fn pair_in_turn(
    alloc: Global,
    forests: &RankedForests<'_>,
    columns: &[Column<'_>],
    sides: (&[NodeId], &[NodeId]),
    stay: &[(usize, usize)],
    partners: &mut Partners,
) -> Result<(), AllocError>
    ensures ok { OnOk result (Keeps partners.old partners.new) }
{
    let lefts = singles(alloc, forests, columns, sides.0, &partners.lefts)?;
    let rights = singles(alloc, forests, columns, sides.1, &partners.rights)?;
    let mut from = (0, 0);
    for pair in stay {
        let left = gap_of(&lefts, from.0, pair.0);
        let right = gap_of(&rights, from.1, pair.1);
        pair_gap(forests, left, right, partners);
        from = (pair.0.saturating_add(1), pair.1.saturating_add(1));
    }
    let left = gap_of(&lefts, from.0, usize::MAX);
    let right = gap_of(&rights, from.1, usize::MAX);
    pair_gap(forests, left, right, partners);
    Ok(())
}
