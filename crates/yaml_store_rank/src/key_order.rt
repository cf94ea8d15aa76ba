//! The places of entries in the order of their keys.
ghost use Rattle.std.specs.Prelude.{◌≡◌, ◌<◌, map, length, slice_index, IfOk};
ghost use Rattle.std.specs.List.{All, slice_range};
ghost use Rattle.yaml_tree.specs.Places.{InOrder};
ghost use Rattle.yaml_store.specs.StoreModel.{place_of, SpanWithin};
ghost use Rattle.yaml_store_rank.specs.Forests.{IsPlaceOf};
ghost use Rattle.yaml_store_rank.specs.PartsModel.{Differ};
ghost use Rattle.yaml_store_rank.specs.KeyOrder.{number_pairs, entry_at, ranks_of_keys, IsOrder, SpanIs, CanOrder, IsPut, OrderedUpto};

use crate::ranking::zeros;
use std::alloc::Global;
use yaml_store::no_memory::NoMemory;
use yaml_store::nodes::{Node, Place, Span};
use yaml_tree::node::NodeId;

/// The places of the entries of a mapping. Another node has none.
pub(crate) fn entries_span(node: &Node) -> Option<Span>
    ensures { SpanIs (place_of node.now) result }
{
    match node.place() {
        Place::Scalar(_) => None,
        Place::Sequence(_) => None,
        Place::Mapping(span) => Some(span),
    }
}

/// The rank of the key of the entry at this place.
fn key_rank(entries: &[(NodeId, NodeId)], ranks: &[u32], place: usize) -> u32
    requires within { place < length entries.now }
    requires below { All (λ p. p.0.0 < length ranks.now) entries.now }
    ensures { result ≡ slice_index ranks.now (entry_at (number_pairs entries.now) place).0 }
{
    let (key, _) = entries[place];
    ranks[key.0]
}

/// The ranks of keys, each with the place of its entry, in rising order, in place of what stood there.
fn order_keys(
    entries: &[(NodeId, NodeId)],
    ranks: &[u32],
    keys: &mut Vec<(u32, u32)>,
) -> Result<(), NoMemory>
    requires few { length entries.now < 4294967296 }
    requires below { All (λ p. p.0.0 < length ranks.now) entries.now }
    ensures { IfOk result (λ _. InOrder (ranks_of_keys (slice_index ranks.now) (number_pairs entries.now)) keys.new.items) }
{
    keys.clear();
    for place in 0..entries.len() {
        let rank = key_rank(entries, ranks, place);
        keys.push((rank, place as u32))?;
    }
    keys.sort_unstable();
    Ok(())
}

/// Puts the places of these in order there.
fn put_places(order: &mut [u32], keys: &[(u32, u32)])
    requires { length order.old ≡ length keys.now }
    ensures { order.new ≡ map (λ p. p.1) keys.now }
{
    for place in 0..keys.len() {
        order[place] = keys[place].1;
    }
}

/// Puts the places of a mapping's entries in the order of their keys, where its entries stand.
fn order_mapping(
    span: Span,
    entries: &[(NodeId, NodeId)],
    ranks: &[u32],
    order: &mut [u32],
    keys: &mut Vec<(u32, u32)>,
) -> Result<(), NoMemory>
    requires long { length order.old ≡ length entries.now }
    requires within { SpanWithin (length entries.now) span }
    requires below { All (λ p. p.0 < length ranks.now) (slice_range (number_pairs entries.now) span.start span.end) }
    requires differ { Differ (ranks_of_keys (slice_index ranks.now) (slice_range (number_pairs entries.now) span.start span.end)) }
    ensures { IfOk result (λ _. IsPut span (slice_index ranks.now) (number_pairs entries.now) order.old order.new) }
{
    let part = &entries[span.start as usize..span.end as usize];
    order_keys(part, ranks, keys)?;
    put_places(&mut order[span.start as usize..span.end as usize], keys);
    Ok(())
}

/// The same of each mapping.
fn order_all(
    nodes: &[Node],
    entries: &[(NodeId, NodeId)],
    ranks: &[u32],
    order: &mut [u32],
    keys: &mut Vec<(u32, u32)>,
) -> Result<(), NoMemory>
    requires long { length order.old ≡ length entries.now }
    requires can { CanOrder nodes.now (number_pairs entries.now) ranks.now }
    ensures { IfOk result (λ _. OrderedUpto (length nodes.now) (slice_index ranks.now) (number_pairs entries.now) nodes.now order.new) }
{
    for node in nodes {
        if let Some(span) = entries_span(node) {
            order_mapping(span, entries, ranks, order, keys)?;
        }
    }
    Ok(())
}

/// The places of each mapping's entries in the order of their keys, where its entries stand.
pub(crate) fn key_order(
    alloc: Global,
    nodes: &[Node],
    entries: &[(NodeId, NodeId)],
    ranks: &[u32],
) -> Result<Vec<u32>, NoMemory>
    requires { CanOrder nodes.now (number_pairs entries.now) ranks.now }
    ensures { IfOk result (λ order. OrderedUpto (length nodes.now) (slice_index ranks.now) (number_pairs entries.now) nodes.now order.items) }
{
    let mut order = zeros(alloc, entries.len())?;
    let mut keys = Vec::new(alloc);
    order_all(nodes, entries, ranks, &mut order, &mut keys)?;
    Ok(order)
}

/// The place of the entry whose key has this rank, if there is one.
pub(crate) fn find_key(
    entries: &[(NodeId, NodeId)],
    order: &[u32],
    ranks: &[u32],
    rank: u32,
) -> Option<usize>
    requires below { All (λ p. p.0.0 < length ranks.now) entries.now }
    requires order { IsOrder (slice_index ranks.now) (number_pairs entries.now) order.now }
    ensures { IsPlaceOf (slice_index ranks.now) (number_pairs entries.now) rank result }
{
    let mut low = 0;
    let mut high = order.len();
    while low < high {
        let middle = low + (high - low) / 2;
        let place = order[middle] as usize;
        let here = key_rank(entries, ranks, place);
        if here == rank {
            return Some(place);
        }
        if here < rank {
            low = middle + 1;
        } else {
            high = middle;
        }
    }
    None
}
