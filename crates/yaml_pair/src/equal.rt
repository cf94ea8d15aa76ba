//! Equal items.
ghost use Rattle.std.specs.Prelude.{◌≡◌, ℕ, ◌==◌, length, count_by, unwrap_or, IfOk, OnOk};
ghost use Rattle.std.specs.BTreeMap.{get};
ghost use Rattle.std.specs.Ordering.{nat_cmp};
ghost use Rattle.yaml_pair.specs.Named.{Within, AreRanks, AreCounts, IsNone, HasPairs, EqualPairs};

use crate::nodes::rank_at;
use crate::partners::{Name, Partners, join};
use std::alloc::{AllocError, Global};
use std::collections::BTreeMap;
use yaml_store_rank::RankedForests;
use yaml_tree::node::NodeId;

/// The ranks of items.
fn ranks_of(
    alloc: Global,
    forests: &RankedForests<'_>,
    items: &[NodeId],
) -> Result<Vec<usize>, AllocError>
    ensures ok { IfOk result (λ ranks. AreRanks forests.now items.now ranks.items) }
{
    let mut ranks = Vec::new(alloc);
    for item in items {
        ranks.push(rank_at(forests, *item))?;
    }
    Ok(ranks)
}

/// How often each rank stands there.
fn counts(alloc: Global, ranks: &[usize]) -> Result<BTreeMap<usize, usize>, AllocError>
    ensures ok { IfOk result (λ counts. (q : ℕ) → unwrap_or (get nat_cmp counts q) 0 ≡ count_by (λ x. x == q) ranks.now) }
{
    let mut counts = BTreeMap::new(alloc);
    for rank in ranks {
        let count: usize = counts.get(rank).copied().unwrap_or(0);
        counts.insert(*rank, count + 1)?;
    }
    Ok(counts)
}

/// Each rank with how many items have it, and how many of these stand before this one.
fn counted<'g>(alloc: Global, ranks: &[usize]) -> Result<Vec<Option<Name<'g>>>, AllocError>
    ensures ok { IfOk result (λ names. AreCounts ranks.now names.items (length ranks.now)) }
{
    let all = counts(alloc, ranks)?;
    let mut before = BTreeMap::new(alloc);
    let mut names = Vec::new(alloc);
    for rank in ranks {
        let often = all.get(rank).copied().unwrap_or(0);
        let count: usize = before.get(rank).copied().unwrap_or(0);
        names.push(Some(("", *rank, Some(often), count)))?;
        before.insert(*rank, count + 1)?;
    }
    Ok(names)
}

/// Pairs equal items that either list has equally often, in their order.
pub(crate) fn pair_equal(
    alloc: Global,
    forests: &RankedForests<'_>,
    lefts: &[NodeId],
    rights: &[NodeId],
    partners: &mut Partners,
) -> Result<(), AllocError>
    requires none { IsNone partners.old (length lefts.now) (length rights.now) }
    ensures ok { OnOk result (Within forests.now lefts.now rights.now → HasPairs partners.new (length lefts.now) (length rights.now) (EqualPairs forests.now lefts.now rights.now)) }
{
    forests.laws();
    let left = counted(alloc, &ranks_of(alloc, forests, lefts)?)?;
    let right = counted(alloc, &ranks_of(alloc, forests, rights)?)?;
    join(alloc, partners, &left, &right)
}
