//! Items that stand once in each of two sequences, as far as their places rise on both sides.
ghost use Rattle.std.specs.Prelude.{◌≤◌, length};
ghost use Rattle.yaml_diff.specs.Found.{AllWithin};

use std::alloc::{AllocError, Global};
use yaml_store_rank::RankedForests;
use yaml_tree::node::NodeId;

/// The ranks that items have once, from the front to the back, each with the place of its item.
fn lone_ranks(
    alloc: Global,
    forests: &RankedForests<'_>,
    items: &[NodeId],
    front: usize,
    back: usize,
) -> Result<Vec<(u32, usize)>, AllocError>
    requires { AllWithin forests.now items.now }
{
    let mut all = Vec::new(alloc);
    for (place, item) in items.iter().enumerate() {
        if front <= place && place < items.len().saturating_sub(back) {
            all.push((forests.rank(*item), place))?;
        }
    }
    all.sort()?;
    let mut lone = Vec::new(alloc);
    for index in 0..all.len() {
        let (rank, place) = all[index];
        let is_first = index == 0 || all[index - 1].0 != rank;
        let is_last = index + 1 == all.len() || all[index + 1].0 != rank;
        if is_first && is_last {
            lone.push((rank, place))?;
        }
    }
    Ok(lone)
}

/// The places of the ranks that stand in both lists, which rise, in the order of the left places.
fn shared(
    alloc: Global,
    lefts: &[(u32, usize)],
    rights: &[(u32, usize)],
) -> Result<Vec<(usize, usize)>, AllocError> {
    let mut pairs = Vec::new(alloc);
    let mut next = 0;
    for (rank, left) in lefts {
        while next < rights.len() && rights[next].0 < *rank {
            next += 1;
        }
        if next < rights.len() && rights[next].0 == *rank {
            pairs.push((*left, rights[next].1))?;
        }
    }
    pairs.sort()?;
    Ok(pairs)
}

/// How many of the lists that are told by their last pairs end before a right place.
fn piles_before(pairs: &[(usize, usize)], tops: &[usize], right: usize) -> usize
    ensures { result ≤ length tops.now }
{
    let mut low = 0;
    let mut high = tops.len();
    while low < high {
        let middle = low + (high - low) / 2;
        let is_before = match pairs.get(tops[middle]) {
            Some(top) => top.1 < right,
            None => false,
        };
        if is_before {
            low = middle + 1;
        } else {
            high = middle;
        }
    }
    low
}

/// As many of the pairs, whose left places rise, as there can be with rising right places.
fn longest_rising(
    alloc: Global,
    pairs: &[(usize, usize)],
) -> Result<Vec<(usize, usize)>, AllocError> {
    let mut tops = Vec::new(alloc);
    let mut before = Vec::new(alloc);
    for (index, pair) in pairs.iter().enumerate() {
        let pile = piles_before(pairs, &tops, pair.1);
        if pile == 0 {
            before.push(None)?;
        } else {
            before.push(Some(tops[pile - 1]))?;
        }
        if pile < tops.len() {
            tops[pile] = index;
        } else {
            tops.push(index)?;
        }
    }
    let mut list = Vec::new(alloc);
    let mut next = tops.last().copied();
    for _ in 0..tops.len() {
        if let Some(index) = next
            && index < pairs.len()
            && index < before.len()
        {
            list.push(pairs[index])?;
            next = before[index];
        }
    }
    list.reverse();
    Ok(list)
}

/// The places of items between equal ends that stand once there on either side, as many as rise on both.
pub(crate) fn anchors(
    alloc: Global,
    forests: &RankedForests<'_>,
    lefts: &[NodeId],
    rights: &[NodeId],
    front: usize,
    back: usize,
) -> Result<Vec<(usize, usize)>, AllocError>
    requires left { AllWithin forests.now lefts.now }
    requires right { AllWithin forests.now rights.now }
{
    let left = lone_ranks(alloc, forests, lefts, front, back)?;
    let right = lone_ranks(alloc, forests, rights, front, back)?;
    let pairs = shared(alloc, &left, &right)?;
    longest_rising(alloc, &pairs)
}
