//! Where the nodes of differences stand.
ghost use Rattle.std.specs.Prelude.{◌≡◌, ◌<◌, ◌+◌, ◌*◌, ◌∷◌, [], ℕ, Some, None, length, nat_lt, slice_get, option_map, IfSome, IfNone};
ghost use Rattle.yaml_tree.specs.declared.node.NodeId.{NodeId};
ghost use Rattle.yaml_store_rank.specs.Forests.{count, entries_at};
ghost use Rattle.yaml_store_rank.specs.KeyOrder.{number_pairs};
ghost use Rattle.review_places.specs.Layout.{offsets_of, alias_events, node_numbers, node_told};
ghost use Rattle.review_places.specs.Seats.{layout_of, forests_of, place_on, IsValue, LeadsDown, IsRoot, IsPart, IsEnd, EndsNowhere, IsSeat, HasNoSeat};

use crate::layout::Layout;
use yaml_diff::Step;
use yaml_path::places::Places;
use yaml_store_rank::RankedForests;
use yaml_tree::node::NodeId;
use yaml_tree::shown::Inside;

/// One of the two streams that are compared.
#[derive(Clone, Copy)]
pub enum Side {
    Left,
    Right,
}

impl Side {
    /// The place of an item on this side.
    fn place(self, places: Places) -> Option<usize>
        ensures { result ≡ place_on self places }
    {
        match self {
            Side::Left => places.left(),
            Side::Right => places.right(),
        }
    }
}

/// One stream of ranked forests: the roots of its documents.
#[derive(Clone, Copy)]
pub struct Stream<'g> {
    pub side: Side,
    pub roots: &'g [NodeId],
}

/// Where a node stands.
#[derive(Clone, Copy)]
pub struct Seat {
    /// The offset of its text or, of an alias, of the alias.
    pub offset: usize,
    /// The event that begins it, or the alias.
    pub event: usize,
    /// The number of the node itself among those of its stream, if it has one.
    pub node: Option<usize>,
    /// Whether the path leads through no alias, and to none.
    pub is_own: bool,
}

/// The seat of the node that an event begins, or that it stands for.
fn seat_of(layout: &Layout, event: usize, is_own: bool) -> Option<Seat>
    ensures event { IfSome result (λ seat. seat.event ≡ event) }
    ensures offset { IfSome result (λ seat. slice_get (offsets_of layout.now) event ≡ Some seat.offset) }
    ensures number { IfSome result (λ seat. seat.node ≡ node_told (slice_get (node_numbers layout.now) event)) }
    ensures own { IfSome result (λ seat. seat.is_own ≡ is_own) }
    ensures none { IfNone result (slice_get (offsets_of layout.now) event ≡ None) }
{
    match layout.offset(event) {
        Some(offset) => Some(Seat {
            offset,
            event,
            node: layout.node(event),
            is_own,
        }),
        None => None,
    }
}

/// Where the nodes of one stream stand.
#[derive(Drop)]
pub struct Finder<'g> {
    forests: &'g RankedForests<'g>,
    stream: Stream<'g>,
    layout: Layout,
}

impl<'g> Finder<'g> {
    /// For a stream of this layout.
    pub fn new(forests: &'g RankedForests<'g>, stream: Stream<'g>, layout: Layout) -> Finder<'g>
        ensures forests { forests_of result ≡ forests.now }
        ensures stream { result.stream ≡ stream.entry }
        ensures layout { layout_of result ≡ layout }
    {
        Finder {
            forests,
            stream,
            layout,
        }
    }

    /// The value of a key in a mapping of these entries, and its number among the parts. The key there may be another node of its rank.
    fn value(
        &self,
        mapping: NodeId,
        entries: &[(NodeId, NodeId)],
        key: NodeId,
    ) -> Option<(NodeId, usize)>
        requires within { mapping.0 < count (forests_of self.now) }
        requires entries { number_pairs entries.now ≡ entries_at (forests_of self.now) mapping.0 }
        ensures some { IfSome result (λ value. IsValue (forests_of self.now) mapping key value.0 value.1) }
        ensures none { IfNone result ((part : NodeId) (number : ℕ) → IsValue (forests_of self.now) mapping key part number → ⊥) }
    {
        self.forests.laws();
        if key.0 >= self.forests.len() {
            return None;
        }
        match self.forests.find(mapping, self.forests.rank(key)) {
            Some(place) => value_at(entries, place),
            None => None,
        }
    }

    /// The part to which a step leads, and its number among the parts of its node.
    fn step_down(&self, node: NodeId, step: Step) -> Option<(NodeId, usize)>
        ensures down { IfSome result (λ part. LeadsDown (forests_of self.now) self.now.stream.side step node part.0 part.1) }
        ensures none { IfNone result ((part : NodeId) (number : ℕ) → LeadsDown (forests_of self.now) self.now.stream.side step node part number → ⊥) }
    {
        let Some(shown) = self.forests.get(node) else {
            return None;
        };
        match (shown.inside, step) {
            (Inside::Sequence(items), Step::Item(places)) => {
                item_at(items, self.stream.side.place(places))
            }
            (Inside::Mapping(entries), Step::Value(key)) => self.value(node, entries, key),
            _ => None,
        }
    }

    /// The node and the event of a document's root.
    fn root(&self, step: Step) -> Option<(NodeId, usize)>
        ensures root { IfSome result (λ root. IsRoot (forests_of self.now) self.now.stream self.now.layout step root.0 root.1) }
        ensures none { IfNone result ((node : NodeId) (event : ℕ) → IsRoot (forests_of self.now) self.now.stream self.now.layout step node event → ⊥) }
    {
        let Step::Item(places) = step else {
            return None;
        };
        let document = self.stream.side.place(places)?;
        let node = root_at(self.stream.roots, document)?;
        Some((node, self.layout.root(document)?))
    }

    /// The same, and whether the event is no alias.
    fn begin(&self, step: Step) -> Option<(NodeId, usize, bool)>
        ensures leads { IfSome result (λ end. IsEnd (forests_of self.now) self.now.stream self.now.layout (step ∷ []) end.0 end.1 end.2) }
        ensures none { IfNone result ((node : NodeId) (event : ℕ) → IsRoot (forests_of self.now) self.now.stream self.now.layout step node event → ⊥) }
    {
        let (node, event) = self.root(step)?;
        Some((node, event, !self.layout.is_alias(event)))
    }

    /// The part to which one more step leads from a node, and the event that begins it or stands for it.
    fn further(&self, node: NodeId, event: usize, step: Step) -> Option<(NodeId, usize)>
        ensures leads { IfSome result (λ part. IsPart (forests_of self.now) self.now.stream self.now.layout step node event part.0 part.1) }
        ensures none { IfNone result ((part : NodeId) (below : ℕ) → IsPart (forests_of self.now) self.now.stream self.now.layout step node event part below → ⊥) }
    {
        self.forests.laws();
        let part = self.step_down(node, step)?;
        match self.layout.below(event, part.1) {
            Some(below) => Some((part.0, below)),
            None => None,
        }
    }

    /// Whether the stream has an alias.
    pub fn has_aliases(&self) -> bool
        ensures { result ≡ nat_lt 0 (length (alias_events (layout_of self.now))) }
    {
        self.layout.has_aliases()
    }

    /// The node and the event to which a path leads, the last step first; and whether no alias is on the way.
    fn walk(&self, path: &[Step]) -> Option<(NodeId, usize, bool)>
        ensures leads { IfSome result (λ end. IsEnd (forests_of self.now) self.now.stream self.now.layout path.now end.0 end.1 end.2) }
        ensures none { IfNone result (EndsNowhere (forests_of self.now) self.now.stream self.now.layout path.now) }
    {
        self.forests.laws();
        let (step, rest) = path.split_first()?;
        if rest.is_empty() {
            return self.begin(*step);
        }
        let above = self.walk(rest)?;
        let part = self.further(above.0, above.1, *step)?;
        let is_own = above.2 && !self.layout.is_alias(part.1);
        Some((part.0, part.1, is_own))
    }

    /// Where the node stands to which a path leads, which has its last step first; nowhere where none leads.
    pub fn seat(&self, path: &[Step]) -> Option<Seat>
        ensures seat { IfSome result (IsSeat self.now path.now) }
        ensures none { IfNone result (HasNoSeat self.now path.now) }
    {
        self.forests.laws();
        let end = self.walk(path)?;
        seat_of(&self.layout, end.1, end.2)
    }
}

/// The root of a document.
fn root_at(roots: &[NodeId], document: usize) -> Option<NodeId>
    ensures { result ≡ slice_get roots.now document }
{
    roots.get(document).copied()
}

/// The item at a place, and its number among the parts of its sequence.
fn item_at(items: &[NodeId], place: Option<usize>) -> Option<(NodeId, usize)>
    ensures item { IfSome result (λ item. (place ≡ Some item.1) × (slice_get items.now item.1 ≡ Some item.0)) }
    ensures none { IfNone result ((number : ℕ) → place ≡ Some number → slice_get items.now number ≡ None) }
{
    let place = place?;
    Some((*items.get(place)?, place))
}

/// The value of the entry at a place, and its number among the parts of its mapping.
fn value_at(entries: &[(NodeId, NodeId)], place: usize) -> Option<(NodeId, usize)>
    ensures { result ≡ option_map (λ entry. (entry.1, place * 2 + 1)) (slice_get entries.now place) }
{
    match entries.get(place) {
        Some((_, value)) => Some((*value, place * 2 + 1)),
        None => None,
    }
}
