//! Ranking nodes by number.
ghost use Rattle.std.specs.Prelude.{◌≡◌, length, IfOk, IfErr};
ghost use Rattle.std.specs.Bool.{OnTrue};
ghost use Rattle.yaml_tree.specs.View.{View};
ghost use Rattle.yaml_tree.specs.Visited.{count_of};
ghost use Rattle.yaml_store_rank.specs.Ranking.{Stored, AllRanked};
ghost use Rattle.yaml_store.specs.StoreGrows.{Good, IsLow};
ghost use Rattle.yaml_store_rank.specs.StoreRanks.{StoreRanked};
ghost use Rattle.yaml_store_rank.specs.Refused.{RefusesView, RefusesStore};
ghost use Rattle.yaml_store.specs.StoreModel.{place_of};
ghost use Rattle.yaml_store.specs.TextModel.{text_of, border, PlaceWhole, AllWhole};

use crate::level::sorted_slots;
use crate::levels::levels;
use crate::lists::Lists;
use crate::number::number;
use crate::places::places;
use crate::settle::settle;
use std::alloc::Global;
use yaml_store::no_memory::NoMemory;
use yaml_store::nodes::{Kind, Node};
use yaml_store::store::Store;
use yaml_store::tags::Tags;
use yaml_store::text::Text;
use yaml_text::fault::Fault;
use yaml_tree::visits::Visits;

/// The nodes of a store with their ranks. Parts are ranks, and the entries of a mapping stand in the order
/// of their keys.
#[derive(Drop)]
pub struct Ranked<'s> {
    pub(crate) tags: Tags,
    pub(crate) text: Text<'s>,
    pub(crate) items: Vec<u32>,
    pub(crate) entries: Vec<(u32, u32)>,
    pub(crate) nodes: Vec<Node>,
    /// The rank of each node.
    pub ranks: Vec<u32>,
    /// The node that stands for each rank.
    pub first: Vec<u32>,
    pub(crate) visits: Visits,
}

impl Ranked<'_> {
    ghost use Rattle.std.specs.Prelude.{◌≡◌};
    ghost use Rattle.yaml_store_rank.specs.StoreRanks.{visits_of};

    /// How many nodes were visited.
    pub fn visits(&self) -> u64
        ensures { result ≡ visits_of self.now }
    {
        self.visits.count()
    }
}

/// No ranks yet, for so many nodes.
pub(crate) fn zeros(alloc: Global, len: usize) -> Result<Vec<u32>, NoMemory>
    ensures ok { IfOk result (λ ranks. length ranks.items ≡ len) }
{
    let mut ranks = Vec::with_capacity(alloc, len)?;
    for _ in 0..len {
        ranks.push(0)?;
    }
    Ok(ranks)
}

/// The rank of each node, the first node of each rank, and how many nodes were visited. Nodes are taken by
/// rising height, so that those of one height are compared by the ranks of their parts, which these ranks
/// overwrite. Each node is visited once.
fn rank_all(
    alloc: Global,
    nodes: &[Node],
    text: &Text<'_>,
    items: &mut [u32],
    entries: &mut [(u32, u32)],
    places: &[u32],
) -> Result<(Vec<u32>, Vec<u32>, Visits), Fault>
    requires stored { (v : View) × Stored v nodes.now (text_of text.now) items.old entries.old places.now }
    requires whole { AllWhole (border text.now) nodes.now }
    ensures ok { (v : View) → Stored v nodes.now (text_of text.now) items.old entries.old places.now → IfOk result (λ made. AllRanked v nodes.now (text_of text.now) items.new entries.new made.0.items made.1.items) }
    ensures visited { IfOk result (λ made. count_of made.2 ≡ length nodes.now) }
    ensures err { (v : View) → Stored v nodes.now (text_of text.now) items.old entries.old places.now → IfErr result (RefusesView v) }
{
    let levels = levels(alloc, nodes)?;
    let mut ranks = zeros(alloc, nodes.len())?;
    let mut first = Vec::new(alloc);
    let mut visits = Visits::new();
    let mut keys = Vec::new(alloc);
    for level in &levels {
        settle(alloc, nodes, items, entries, &ranks, level, &mut keys)?;
        let lists = Lists {
            nodes,
            text,
            items,
            entries,
            places,
        };
        let slots = sorted_slots(alloc, &lists, &mut visits, level)?;
        number(&lists, &mut ranks, &mut first, &slots)?;
    }
    Ok((ranks, first, visits))
}

/// Whether the content of a node, if it has one, stands in one part of the text.
fn is_whole(text: &Text<'_>, node: &Node) -> bool
    ensures { OnTrue result (PlaceWhole (border text.now) (place_of node.now)) }
{
    match node.kind {
        Kind::Scalar => text.is_whole(node.span),
        Kind::Sequence | Kind::Mapping => true,
    }
}

/// Whether each content stands in one part of the text.
fn are_whole(text: &Text<'_>, nodes: &[Node]) -> bool
    ensures { OnTrue result (AllWhole (border text.now) nodes.now) }
{
    for node in nodes {
        if !is_whole(text, node) {
            return false;
        }
    }
    true
}

/// The ranks of all nodes of a store: equal exactly for equal trees, and in the order of trees. Refused is
/// the mapping of least height, then of least number, with two equal keys, and its first two are told.
/// Each node is visited once.
pub fn compact_rank<'s>(alloc: Global, store: Store<'s>) -> Result<Ranked<'s>, Fault>
    requires good { Good store }
    requires low { IsLow store }
    ensures ok { (good : Good store.entry) → IfOk result (StoreRanked store.entry good) }
    ensures err { (good : Good store.entry) → IfErr result (RefusesStore store.entry good) }
{
    let Store {
        memo: _,
        numbers: _,
        tags,
        text,
        mut items,
        mut entries,
        nodes,
    } = store;
    if !are_whole(&text, &nodes) {
        return Err(Fault::OutOfMemory);
    }
    let places = places(alloc, &tags)?;
    let (ranks, first, visits) = rank_all(alloc, &nodes, &text, &mut items, &mut entries, &places)?;
    Ok(Ranked {
        tags,
        text,
        items,
        entries,
        nodes,
        ranks,
        first,
        visits,
    })
}
