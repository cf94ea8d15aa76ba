//! One pass over a stream's events, which numbers its nodes and puts aliases in place.
ghost use Rattle.std.specs.Prelude.{◌≡◌, ◌<◌, ℕ, List, length, map, Some, Ok, IfOk, IfErr, MatchResult};
ghost use Rattle.std.specs.List.{All};
ghost use Rattle.std.specs.Cow.{cow_str_bytes};
ghost use Rattle.std.specs.Option.{IfSome};
ghost use Rattle.yaml_core.specs.CoreAnswer.{RefusesScalar};
ghost use Rattle.yaml_definitions.specs.model.Event.{Anchor};
ghost use Rattle.yaml_definitions.specs.model.Core.{Resolved, resolve, collection_tag};
ghost use Rattle.yaml_definitions.specs.model.Unfold.{Outcome, and_then, placed, tree_named, last_named};
ghost use Rattle.yaml_text.specs.EventModel.{event_of, written_of, style_of};
ghost use Rattle.yaml_tree.specs.TreeLists.{AreLow};
ghost use Rattle.yaml_graph.specs.GraphModel.{node_tree, trees_in, PartsBelow};
ghost use Rattle.yaml_tree.specs.Refused.{RefusesUnfolding};
ghost use Rattle.yaml_tree.specs.ComposerSteps.{State, initial_state, node_begun, whole, collection_begun, collection_ended, added, step, scalar_added, paired as pairs_of};
ghost use Rattle.yaml_tree.specs.Anchors.{names_of, Placed};
ghost use Rattle.yaml_graph.specs.ComposerModel.{is_mapping, kind_number, anchor_view, Collects, Holds, Reached};
ghost use Rattle.yaml_graph.specs.Finished.{Finishes, RefusesHeight};
ghost use Rattle.yaml_graph.specs.declared.node.Node.{Node};
ghost use Rattle.yaml_tree.specs.declared.node.NodeId.{NodeId};

use crate::graph::Graph;
use crate::height;
use crate::kept::scalar_of;
use crate::node::{Node, NodeKind};
use crate::tag::Collection;
use std::alloc::Global;
use std::borrow::CowStr;
use std::collections::BTreeMap;
use std::mem;
use yaml_core::scalar::CoreFault;
use yaml_text::event::{Event, EventTag, Style};
use yaml_text::fault::Fault;
use yaml_tree::node::NodeId;

/// A collection that is still open.
#[derive(Drop)]
struct Open<'s> {
    /// Its place among the anchored nodes, if it has an anchor.
    place: Option<usize>,
    tag: CowStr<'s>,
    /// The nodes that stand before it in its parent.
    before: Vec<NodeId>,
}

/// What was composed of the events so far.
#[derive(Drop)]
pub struct Composer<'s> {
    nodes: Vec<Node<'s>>,
    /// The nodes' heights, cut just above the limit.
    heights: Vec<u32>,
    /// For each name of an anchor of this document, the place of the last node that has it.
    names: BTreeMap<CowStr<'s>, usize>,
    /// The nodes of this document that have anchors, in the order in which they begin; none where
    /// the node is still open.
    anchored: Vec<Option<NodeId>>,
    outer: Vec<Open<'s>>,
    /// The whole nodes of the innermost open collection. Where none is open, the roots.
    inner: Vec<NodeId>,
}

impl<'s> Composer<'s> {
    /// Nothing is composed yet.
    pub fn new(alloc: Global) -> Composer<'s>
        ensures { Holds result initial_state }
    {
        Composer {
            nodes: Vec::new(alloc),
            heights: Vec::new(alloc),
            names: BTreeMap::new(alloc),
            anchored: Vec::new(alloc),
            outer: Vec::new(alloc),
            inner: Vec::new(alloc),
        }
    }

    /// Notes that a node begins, and gives its place among the anchored ones.
    fn begin(&mut self, anchor: Option<CowStr<'s>>) -> Result<Option<usize>, Fault>
        ensures ok { (s : State) → Holds self.old s → IfOk result (λ place. Placed (names_of (node_begun (anchor_view anchor.entry) s).table) place (anchor_view anchor.entry) (length s.table) × Holds self.new (node_begun (anchor_view anchor.entry) s)) }
        ensures err { IfErr result (λ fault. fault ≡ Fault.OutOfMemory) }
    {
        let Some(name) = anchor else {
            return Ok(None);
        };
        let place = self.anchored.len();
        self.anchored.push(None)?;
        self.names.insert(name, place)?;
        Ok(Some(place))
    }

    /// Adds a whole node, with its place among the anchored ones.
    fn add(&mut self, place: Option<usize>, node: Node<'s>) -> Result<(), Fault>
        requires below { PartsBelow (length self.old.nodes.items) node.kind }
        requires within { IfSome place (λ i. i < length self.old.anchored.items) }
        requires held { (s : State) × Holds self.old s }
        ensures ok { (s : State) → Holds self.old s → (a : Anchor) (slot : ℕ) → Placed (names_of s.table) place a slot → IfOk result (λ _. Holds self.new (whole a slot (node_tree (trees_in self.old.nodes.items) node.entry) s)) }
        ensures err { IfErr result (λ fault. fault ≡ Fault.OutOfMemory) }
    {
        let id = NodeId(self.nodes.len());
        let height = height::of_kind(&self.heights, &node.kind);
        self.nodes.push(node)?;
        self.heights.push(height)?;
        self.inner.push(id)?;
        if let Some(place) = place {
            self.anchored[place] = Some(id);
        }
        Ok(())
    }

    /// The event at `at` is a scalar.
    fn scalar(
        &mut self,
        alloc: Global,
        at: usize,
        anchor: Option<CowStr<'s>>,
        tag: EventTag<'s>,
        style: Style,
        text: CowStr<'s>,
    ) -> Result<(), Fault>
        requires { (s : State) × Holds self.old s }
        ensures { (s : State) → Holds self.old s →
            let found = and_then (placed at (resolve (written_of tag.entry) (style_of style) (cow_str_bytes text.entry))) (scalar_added (anchor_view anchor.entry) s) in
            MatchResult result (λ _. Reached found self.new) (RefusesUnfolding found) }
    {
        match scalar_of(alloc, tag, style, text) {
            Ok(scalar) => {
                let place = self.begin(anchor)?;
                let kind = NodeKind::Scalar(scalar.content);
                self.add(
                    place,
                    Node {
                        tag: scalar.tag,
                        kind,
                    },
                )
            }
            Err(fault) => Err(fault_at(at, fault)),
        }
    }

    /// A collection begins at the event at `at`.
    fn enter(
        &mut self,
        alloc: Global,
        at: usize,
        collection: Collection,
        anchor: Option<CowStr<'s>>,
        tag: EventTag<'s>,
    ) -> Result<(), Fault>
        ensures { (s : State) → Holds self.old s →
            let found = and_then (placed at (collection_tag (kind_number collection) (written_of tag.entry))) (λ h. Ok (collection_begun (anchor_view anchor.entry) s h)) in
            MatchResult result (λ _. Reached found self.new) (RefusesUnfolding found) }
    {
        let tag = collection.tag(at, tag)?;
        let place = self.begin(anchor)?;
        let before = mem::replace(&mut self.inner, Vec::new(alloc));
        self.outer.push(Open { place, tag, before })?;
        Ok(())
    }

    /// The innermost collection ends.
    fn leave(&mut self, alloc: Global, collection: Collection) -> Result<(), Fault>
        requires { (s : State) × Holds self.old s }
        ensures ok { (s : State) → Holds self.old s → (found : Outcome State) → collection_ended (is_mapping collection) s s.outer ≡ Some found → IfOk result (λ _. Reached found self.new) }
        ensures err { IfErr result (λ fault. fault ≡ Fault.OutOfMemory) }
    {
        if let Some(open) = self.outer.pop() {
            let parts = mem::replace(&mut self.inner, open.before);
            let kind = kind_of(alloc, collection, parts)?;
            let tag = open.tag;
            self.add(open.place, Node { tag, kind })?;
        }
        Ok(())
    }

    /// The event at `at` is an alias.
    fn alias(&mut self, at: usize, name: &str) -> Result<(), Fault>
        requires { (s : State) × Holds self.old s }
        ensures { (s : State) → Holds self.old s →
            let found = and_then (placed at (tree_named (last_named name.now s.table))) (added s) in
            MatchResult result (λ _. Reached found self.new) (RefusesUnfolding found) }
    {
        let Some(place) = self.names.get(name).copied() else {
            return Err(Fault::UndefinedAlias(at));
        };
        let Some(node) = self.anchored[place] else {
            return Err(Fault::CyclicAlias(at));
        };
        self.inner.push(node)?;
        Ok(())
    }

    /// Takes the event at `at`.
    pub fn take(&mut self, alloc: Global, at: usize, event: Event<'s>) -> Result<(), Fault>
        requires { (s : State) × Holds self.old s }
        ensures { (s : State) → Holds self.old s → (found : Outcome State) → step at (event_of event.entry) s ≡ Some found →
            MatchResult result (λ _. Reached found self.new) (RefusesUnfolding found) }
    {
        match event {
            Event::Scalar {
                anchor,
                tag,
                style,
                text,
            } => self.scalar(alloc, at, anchor, tag, style, text),
            Event::Alias { name } => self.alias(at, name.as_str()),
            Event::SequenceStart { anchor, tag, .. } => {
                self.enter(alloc, at, Collection::Sequence, anchor, tag)
            }
            Event::MappingStart { anchor, tag, .. } => {
                self.enter(alloc, at, Collection::Mapping, anchor, tag)
            }
            Event::SequenceEnd => self.leave(alloc, Collection::Sequence),
            Event::MappingEnd => self.leave(alloc, Collection::Mapping),
            Event::DocumentStart { .. } => {
                self.names.clear();
                self.anchored.clear();
                Ok(())
            }
            Event::DocumentEnd { .. } | Event::StreamStart | Event::StreamEnd => Ok(()),
        }
    }

    /// The graph of the whole nodes, none of which may be higher than all roots; or the fault of
    /// the first root that is higher than the limit.
    pub fn finish(self) -> Result<Graph<'s>, Fault>
        requires { (s : State) × Holds self s × (AreLow s.inner → AreLow s.done) }
        ensures { (s : State) → Holds self.entry s → MatchResult result (Finishes s) (RefusesHeight s.inner) }
    {
        if let Some(document) = height::first_too_high(&self.heights, &self.inner) {
            return Err(Fault::TooHigh(document));
        }
        Ok(Graph {
            nodes: self.nodes,
            heights: self.heights,
            roots: self.inner,
        })
    }
}

/// The fault of the scalar at this event.
fn fault_at(at: usize, fault: CoreFault) -> Fault
    ensures { (found : Resolved) → RefusesScalar found fault → RefusesUnfolding (placed at found) result }
{
    match fault {
        CoreFault::WrongKind => Fault::WrongKind(at),
        CoreFault::BadContent => Fault::BadContent(at),
        CoreFault::IntRange => Fault::IntRange(at),
        CoreFault::FloatRange => Fault::FloatRange(at),
        CoreFault::OutOfMemory => Fault::OutOfMemory,
    }
}

/// The collection of these parts, which for a mapping are keys and values in turn.
fn kind_of<'a>(
    alloc: Global,
    collection: Collection,
    mut parts: Vec<NodeId>,
) -> Result<NodeKind<'a>, Fault>
    ensures ok { (nodes : List Node) → All (λ i. i.0 < length nodes) parts.items → IfOk result (Collects nodes (is_mapping collection) parts.items) }
    ensures err { IfErr result (λ fault. fault ≡ Fault.OutOfMemory) }
{
    match collection {
        Collection::Sequence => {
            parts.shrink_to_fit();
            Ok(NodeKind::Sequence(parts))
        }
        Collection::Mapping => Ok(NodeKind::Mapping(paired(alloc, &parts)?)),
    }
}

/// Keys and values in turn, as pairs.
fn paired(alloc: Global, parts: &[NodeId]) -> Result<Vec<(NodeId, NodeId)>, Fault>
    ensures ok { IfOk result (λ entries. entries.items ≡ pairs_of parts.now) }
    ensures err { IfErr result (λ fault. fault ≡ Fault.OutOfMemory) }
{
    let mut entries = Vec::with_capacity(alloc, parts.len() / 2)?;
    let mut left = parts;
    while let [key, value, rest @ ..] = left {
        entries.push((*key, *value))?;
        left = rest;
    }
    Ok(entries)
}
