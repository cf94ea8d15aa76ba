//! The nodes of some streams, ranked, with their entries as they are written.
ghost use Rattle.std.specs.Prelude.{◌≡◌, ℕ, ◌<◌, ◌≤◌, ◌∷◌, List, length, slice_index, Some, MatchOption, IfOk, IfErr};
ghost use Rattle.std.specs.List.{slice_get, All};
ghost use Rattle.yaml_definitions.specs.model.Tree.{height};
ghost use Rattle.yaml_store.specs.StoreGrows.{Good, IsLow};
ghost use Rattle.yaml_store_rank.specs.Refused.{RefusesStore};
ghost use Rattle.yaml_store_rank.specs.KeyOrder.{numbers};
ghost use Rattle.yaml_store_rank.specs.Written.{ShowsStore};
ghost use Rattle.yaml_store_rank.specs.Forests.{count, rank as rank_at, tree, documents_of, held_shown, entries_at, InKeyOrder, IsPlaceOf, IsRanked, AreEnds};

use crate::copies::{copied_entries, copied_items};
use crate::key_order::{entries_span, find_key, key_order};
use crate::ranking::{Ranked, compact_rank};
use std::alloc::Global;
use std::marker::Model;
use yaml_store::nodes::{Node, Place};
use yaml_store::store::Store;
use yaml_store::tags::Tags;
use yaml_store::text::Text;
use yaml_text::fault::Fault;
use yaml_tree::node::NodeId;
use yaml_tree::shown::{Inside, Shown};

/// The nodes of some streams in one store, with their ranks. A node has the number that it got when it was met first, and its entries
/// are in the order in which they are written.
#[derive(Drop)]
pub struct RankedForests<'s> {
    tags: Tags,
    text: Text<'s>,
    items: Vec<NodeId>,
    entries: Vec<(NodeId, NodeId)>,
    nodes: Vec<Node>,
    /// The rank of each node.
    ranks: Vec<u32>,
    /// Where the entries of a mapping stand, their places in the order of their keys.
    order: Vec<u32>,
    /// The roots of the documents of all streams.
    roots: Vec<NodeId>,
    /// Where the roots of each stream end.
    ends: Vec<usize>,
}

impl<'s> Model for RankedForests<'s> {
    ghost use Rattle.yaml_store_rank.specs.Forests.{Forests};

    ghost Value = { Forests };

    ghost use Rattle.yaml_store_rank.specs.Written.{forests_of, Holds};

    ghost view = { forests_of };

    ghost invariant = { Holds };
}

/// Where the part begins that reaches to the end of this place: at the end before.
fn start_of(ends: &[usize], place: usize) -> usize
    requires { place < length ends.now }
    ensures { result ≡ slice_index (0 ∷ ends.now) place }
{
    if place == 0 {
        return 0;
    }
    ends[place - 1]
}

impl<'s> RankedForests<'s> {
    /// How many nodes there are.
    pub fn len(&self) -> usize
        ensures { result ≡ count self.now }
    {
        self.nodes.len()
    }

    /// What a node shows: its tag, and its content or its parts by number, entries as they are written.
    pub fn node(&self, id: NodeId) -> Shown<'_, NodeId>
        requires { id.0 < count self.now }
        ensures { slice_get self.now.nodes id.0 ≡ Some (held_shown result) }
    {
        let node = self.nodes[id.0];
        let tag = self.tags.get(node.tag);
        match node.place() {
            Place::Scalar(span) => Shown {
                tag,
                inside: Inside::Scalar(self.text.content(span)),
            },
            Place::Sequence(span) => Shown {
                tag,
                inside: Inside::Sequence(&self.items[span.start as usize..span.end as usize]),
            },
            Place::Mapping(span) => Shown {
                tag,
                inside: Inside::Mapping(&self.entries[span.start as usize..span.end as usize]),
            },
        }
    }

    /// The same of a node that may be none of these.
    pub fn get(&self, id: NodeId) -> Option<Shown<'_, NodeId>>
        ensures { MatchOption result (count self.now ≤ id.0) (λ shown. slice_get self.now.nodes id.0 ≡ Some (held_shown shown)) }
    {
        if id.0 < self.len() {
            Some(self.node(id))
        } else {
            None
        }
    }

    /// The rank of a node: equal exactly for equal trees, and in the order of trees.
    pub fn rank(&self, id: NodeId) -> u32
        requires { id.0 < count self.now }
        ensures { result ≡ rank_at self.now id.0 }
    {
        self.ranks[id.0]
    }

    /// The height of a node's tree.
    pub fn height(&self, id: NodeId) -> u16
        requires { id.0 < count self.now }
        ensures { result ≡ height (tree self.now id.0) }
    {
        self.nodes[id.0].height
    }

    /// The place of the entry of a mapping whose key has this rank, as entries are written. Another node has no such entry.
    pub fn find(&self, mapping: NodeId, rank: u32) -> Option<usize>
        requires { mapping.0 < count self.now }
        ensures { IsPlaceOf (rank_at self.now) (entries_at self.now mapping.0) rank result }
    {
        let Some(span) = entries_span(&self.nodes[mapping.0]) else {
            return None;
        };
        let entries = &self.entries[span.start as usize..span.end as usize];
        let order = &self.order[span.start as usize..span.end as usize];
        find_key(entries, order, &self.ranks, rank)
    }

    /// The entry of a mapping that stands at this place in the order of keys.
    pub fn entry_in_order(&self, mapping: NodeId, place: usize) -> (NodeId, NodeId)
        requires mapping { mapping.0 < count self.now }
        requires place { place < length (entries_at self.now mapping.0) }
        ensures { (order : List (ℕ × ℕ)) → InKeyOrder (rank_at self.now) (entries_at self.now mapping.0) order → slice_get order place ≡ Some (result.0.0, result.1.0) }
    {
        let start = self.nodes[mapping.0].span.start as usize;
        let entry = self.order[start + place] as usize;
        self.entries[start + entry]
    }

    /// The roots of the documents of a stream that there is.
    pub fn stream(&self, place: usize) -> &[NodeId]
        requires { place < length self.now.streams }
        ensures { slice_get self.now.streams place ≡ Some (numbers result.now) }
    {
        let start = start_of(&self.ends, place);
        &self.roots[start..self.ends[place]]
    }

    /// The roots of the documents of a stream; none where there is no such stream.
    pub fn documents(&self, stream: usize) -> &[NodeId]
        ensures { numbers result.now ≡ documents_of self.now stream }
    {
        if stream < self.ends.len() {
            self.stream(stream)
        } else {
            &[]
        }
    }

    /// Says that parts stand before their node, that ranks tell trees apart and rise in their order, that no mapping has two equal
    /// keys, and that no tree is too high. Nothing is done.
    pub fn laws(&self)
        ensures { IsRanked self.now }
    {
        let _ = &self.nodes;
    }
}

/// The nodes of a store, ranked, each with the number that it has there, and its entries as they are written. The roots of each stream
/// end at one of these ends. Refused is the mapping of least height, then of least number, with two equal keys, and its first two are
/// told.
pub fn rank_written<'s>(
    alloc: Global,
    store: Store<'s>,
    roots: &[u32],
    ends: Vec<usize>,
) -> Result<RankedForests<'s>, Fault>
    requires good { Good store }
    requires low { IsLow store }
    requires roots { All (λ i. i < length store.nodes.items) roots.now }
    requires ends { AreEnds (length roots.now) 0 ends.items }
    ensures ok { IfOk result (ShowsStore store.entry roots.now ends.items) }
    ensures err { (good : Good store.entry) → IfErr result (RefusesStore store.entry good) }
{
    let items = copied_items(alloc, &store.items)?;
    let entries = copied_entries(alloc, &store.entries)?;
    let roots = copied_items(alloc, roots)?;
    let Ranked {
        tags,
        text,
        items: _,
        entries: _,
        nodes,
        ranks,
        first: _,
        visits: _,
    } = compact_rank(alloc, store)?;
    let order = key_order(alloc, &nodes, &entries, &ranks)?;
    Ok(RankedForests {
        tags,
        text,
        items,
        entries,
        nodes,
        ranks,
        order,
        roots,
        ends,
    })
}
