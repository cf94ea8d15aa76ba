//! From nodes, as they begin and end, to nodes of a store. Where a node has no tree it says why.
ghost use Rattle.std.specs.Prelude.{◌≡◌, ℕ, Bool, false, List, ◌∷◌, ◌++◌, length, drop, get_or, None, Ok, IfOk, IfErr, MatchResult};
ghost use Rattle.yaml_definitions.specs.model.Tree.{Tree};
ghost use Rattle.yaml_definitions.specs.model.Event.{Anchor, WrittenTag, Event, untagged, document_start, mapping_start, alias_event};
ghost use Rattle.yaml_definitions.specs.model.Serial.{Document, stream_events};
ghost use Rattle.yaml_definitions.specs.grammar.Events.{Props};
ghost use Rattle.yaml_store.specs.declared.nodes.Collection.TheVariants.{Mapping};
ghost use Rattle.yaml_sink.specs.PropertyRules.{props_of, props_in};
ghost use Rattle.yaml_tree.specs.Anchors.{names_of, Placed};
ghost use Rattle.yaml_tree.specs.ComposerSteps.{State, initial_state, node_begun, whole};
ghost use Rattle.yaml_store.specs.StoreGrows.{Stands, Keeps, trees_of};
ghost use Rattle.yaml_store.specs.declared.store.Store.{Store};
ghost use Rattle.yaml_tree_builder.specs.Reached.{Reaches, UnfoldTo, HaveDocuments, all_events};
ghost use Rattle.yaml_tree_builder.specs.Nodes.{AreNodes};
ghost use Rattle.yaml_tree_builder.specs.FirstsModel.{Comes};
ghost use Rattle.yaml_tree_builder.specs.BuilderModel.{with_store, Holds, Stepped, IsForest, AreForests, AreStreams, IsNumber, HasTag, start_of, end_of, OpensBare};
ghost use Rattle.yaml_tree_builder.specs.BuilderLog.{Follows, SettlesAlone, SettlesKey};
ghost use Rattle.yaml_tree.specs.Refused.{RefusesStream};
ghost use Rattle.yaml_tree_builder.specs.Refusals.{Stops};

use crate::anchors::Anchors;
use crate::core_tags::CoreTags;
use crate::firsts::Firsts;
use crate::size::StreamSize;
use crate::stop::{Cause, Stop};
use crate::tag::tag_of;
use crate::too_high::first_too_high;
use std::alloc::Global;
use yaml_sink::properties::{Given, Properties};
use yaml_store::no_memory::NoMemory;
use yaml_store::nodes::Collection;
use yaml_store::store::Store;
use yaml_text::event::EventTag;
use yaml_text::fault::Fault;

/// A collection that is open.
#[derive(Clone, Copy)]
pub(crate) struct Open {
    /// Its place among the anchored nodes, if it has an anchor.
    place: Option<usize>,
    /// The number of its tag.
    tag: u32,
    /// How many whole nodes stand before its own.
    mark: usize,
}

/// What was composed of the events so far.
#[derive(Drop)]
pub(crate) struct TreeBuilder<'s> {
    pub(crate) store: Store<'s>,
    pub(crate) core: CoreTags,
    /// The names of this document's anchors.
    pub(crate) anchors: Anchors<'s>,
    /// The nodes of this document that have anchors, in the order in which they begin; none where
    /// the node is still open.
    pub(crate) anchored: Vec<Option<u32>>,
    /// The whole nodes of the roots and of all open collections.
    pub(crate) stack: Vec<u32>,
    pub(crate) opens: Vec<Open>,
    /// The first node of the stream that each node of the store stands for.
    pub(crate) firsts: Firsts,
}

/// The nodes from this place on.
fn parts_from(stack: &[u32], mark: usize) -> &[u32]
    ensures { result.now ≡ drop mark stack.now }
{
    &stack[mark.min(stack.len())..]
}

/// The place of a node among the anchored ones, which it has from lines above or as its own.
fn one_place(outer: Option<usize>, own: Option<usize>) -> Option<usize>
    ensures own { outer ≡ None → result ≡ own }
    ensures outer { own ≡ None → result ≡ outer }
{
    match outer {
        None => own,
        Some(_) => outer,
    }
}

/// The node at this place among the anchored ones, unless it is still open.
fn whole_at(anchored: &[Option<u32>], place: usize) -> Option<u32>
    ensures { result ≡ get_or anchored.now place None }
{
    if place < anchored.len() {
        anchored[place]
    } else {
        None
    }
}

/// The nodes of a stream, the numbers of its documents' roots, and for each node the first one of the
/// stream that it stands for.
#[derive(Drop)]
pub struct Forest<'s> {
    pub store: Store<'s>,
    pub roots: Vec<u32>,
    pub firsts: Vec<u32>,
}

impl<'s> TreeBuilder<'s> {
    /// Nothing is put down yet. Long contents may be parts of the text that is lent.
    pub(crate) fn new(alloc: Global, lent: &'s str) -> Result<TreeBuilder<'s>, NoMemory>
        ensures { IfOk result (λ c. Holds c initial_state) }
    {
        let mut store = Store::new(alloc, lent)?;
        let core = CoreTags::new(alloc, &mut store)?;
        Ok(TreeBuilder {
            store,
            core,
            anchors: Anchors::new(alloc, lent),
            anchored: Vec::new(alloc),
            stack: Vec::new(alloc),
            opens: Vec::new(alloc),
            firsts: Firsts::new(alloc),
        })
    }

    /// A document begins.
    pub(crate) fn document(&mut self) -> Result<(), NoMemory>
        ensures { (s : State) → Holds self.old s → (explicit : Bool) → IfOk result (λ _. Stepped (document_start explicit) s self.new) }
    {
        if self.opens.len() > 0 {
            return Err(NoMemory);
        }
        self.anchors.clear();
        self.anchored.clear();
        Ok(())
    }

    /// How many documents and nodes there are.
    pub(crate) fn documents(&self) -> Result<StreamSize, Fault>
        ensures size { (ds : List Document) (s : State) → Reaches (stream_events ds) initial_state s → Holds self.now s → IfOk result (UnfoldTo ds) }
        ensures streams { (dss : List (List Document)) (s : State) → Reaches (all_events dss) initial_state s → Holds self.now s → IfOk result (λ size. HaveDocuments dss size.documents) }
        ensures refused { (ds : List Document) (s : State) → Reaches (stream_events ds) initial_state s → Holds self.now s → IfErr result (RefusesStream ds) }
    {
        if let Some(document) = first_too_high(&self.store, &self.stack) {
            return Err(Fault::TooHigh(document));
        }
        Ok(StreamSize {
            documents: self.stack.len(),
            nodes: self.firsts.closed as usize,
        })
    }

    /// The stream ends, or the last one of more.
    pub(crate) fn finish(self) -> Result<Forest<'s>, Fault>
        ensures forest { (ds : List Document) (s : State) → Reaches (stream_events ds) initial_state s → Holds self.entry s → IfOk result (IsForest ds) }
        ensures refused { (ds : List Document) (s : State) → Reaches (stream_events ds) initial_state s → Holds self.entry s → IfErr result (RefusesStream ds) }
        ensures both { (ds es : List Document) (s : State) → Reaches (stream_events ds ++ stream_events es) initial_state s → Holds self.entry s → IfOk result (AreForests ds es) }
        ensures streams { (dss : List (List Document)) (s : State) → Reaches (all_events dss) initial_state s → Holds self.entry s → IfOk result (AreStreams dss) }
    {
        let TreeBuilder {
            store,
            core: _,
            anchors: _,
            anchored: _,
            stack,
            opens: _,
            firsts,
        } = self;
        if let Some(document) = first_too_high(&store, &stack) {
            return Err(Fault::TooHigh(document));
        }
        if !store.is_low() {
            return Err(Fault::OutOfMemory);
        }
        Ok(Forest {
            store,
            roots: stack,
            firsts: firsts.numbers,
        })
    }

    /// A node with these properties begins. Its place among the anchored ones, if it has an anchor.
    pub(crate) fn begin_node(&mut self, given: &Given<'_>) -> Result<Option<usize>, NoMemory>
        ensures { (s : State) → Holds self.old s →
            let a = (props_in given.now).anchor in
            IfOk result (λ place. Placed (names_of (node_begun a s).table) place a (length s.table) × Holds self.new (node_begun a s)) }
    {
        let Some(name) = &given.anchor else {
            return Ok(None);
        };
        let place = self.anchors.put(name.as_str(), given.offsets.anchor)?;
        self.anchored.push(None)?;
        Ok(Some(place))
    }

    /// A whole node stands in the innermost collection, and at its place among the anchored ones. The store
    /// has it, since before or as its last one.
    #[inline(always)]
    pub(crate) fn put(&mut self, place: Option<usize>, id: u32) -> Result<(), NoMemory>
        ensures { (s : State) (before : Store) → Holds (with_store self.old before) s → Keeps before self.old.store → (a : Anchor) (slot : ℕ) (t : Tree) → Placed (names_of s.table) place a slot → Stands self.old.store id t →
            Comes (trees_of before) (trees_of self.old.store) t → IfOk result (λ _. Holds self.new (whole a slot t s)) }
    {
        self.firsts.note(self.store.len())?;
        self.stack.push(id)?;
        if let Some(place) = place {
            if place < self.anchored.len() {
                self.anchored[place] = Some(id);
            }
        }
        Ok(())
    }

    /// An alias.
    pub(crate) fn alias(&mut self, alloc: Global, name: &str) -> Result<(), Stop>
        ensures { (s : State) → Holds self.old s → MatchResult result (λ _. Stepped (alias_event name.now) s self.new) (Stops (alias_event name.now) s) }
    {
        let found = self.anchors.find(alloc, name)?;
        let Some(place) = found else {
            return Err(Stop::Refused(Cause::UndefinedAlias));
        };
        let Some(id) = whole_at(&self.anchored, place) else {
            return Err(Stop::Refused(Cause::CyclicAlias));
        };
        self.stack.push(id)?;
        Ok(())
    }

    /// A collection with this anchor and this tag, which is written out, begins.
    fn begin_tagged(
        &mut self,
        alloc: Global,
        collection: Collection,
        given: &Given<'_>,
    ) -> Result<(), Stop>
        ensures { (s : State) → Holds self.old s → (flow : Bool) →
            let event = start_of collection flow (props_in given.now).anchor (props_in given.now).tag in
            MatchResult result (λ _. Stepped event s self.new) (Stops event s) }
    {
        let text = tag_of(collection, &given.tag)?;
        let place = self.begin_node(given)?;
        let number = self.store.tag(alloc, text)?;
        let mark = self.stack.len();
        self.opens.push(Open {
            place,
            tag: number,
            mark,
        })?;
        Ok(())
    }

    /// A collection with the tag of its kind begins, whose place among the anchored ones is this, if it has an anchor.
    fn begin_bare(&mut self, place: Option<usize>, collection: Collection) -> Result<(), NoMemory>
        ensures { OpensBare collection self.old place self.new result }
    {
        let tag = self.core.collection(collection);
        let mark = self.stack.len();
        self.opens.push(Open { place, tag, mark })?;
        Ok(())
    }

    /// A collection with this anchor and tag begins.
    fn begin_collection(
        &mut self,
        alloc: Global,
        collection: Collection,
        given: &Given<'_>,
    ) -> Result<(), Stop>
        ensures { (s : State) → Holds self.old s → (flow : Bool) →
            let event = start_of collection flow (props_in given.now).anchor (props_in given.now).tag in
            MatchResult result (λ _. Stepped event s self.new) (Stops event s) }
    {
        if let EventTag::Full(_) = &given.tag {
            return self.begin_tagged(alloc, collection, given);
        }
        let place = self.begin_node(given)?;
        self.begin_bare(place, collection)?;
        Ok(())
    }

    /// A collection with these properties begins.
    pub(crate) fn begin(
        &mut self,
        alloc: Global,
        collection: Collection,
        properties: &Properties<'_>,
    ) -> Result<(), Stop>
        ensures { (s : State) → Holds self.old s → (flow : Bool) →
            let event = start_of collection flow (props_of properties.now).anchor (props_of properties.now).tag in
            MatchResult result (λ _. Stepped event s self.new) (Stops event s) }
    {
        match &properties.given {
            None => {
                self.begin_bare(None, collection)?;
                Ok(())
            }
            Some(given) => self.begin_collection(alloc, collection, given),
        }
    }

    /// A mapping without a tag begins, of whose properties only the anchor counts.
    pub(crate) fn begin_untagged(&mut self, properties: &Properties<'_>) -> Result<(), NoMemory>
        ensures { (s : State) → Holds self.old s → IfOk result (λ _. Stepped (mapping_start false (props_of properties.now).anchor untagged) s self.new) }
    {
        match &properties.given {
            None => {
                self.begin_bare(None, Collection::Mapping)?;
                Ok(())
            }
            Some(given) => {
                let place = self.begin_node(given)?;
                self.begin_bare(place, Collection::Mapping)?;
                Ok(())
            }
        }
    }

    /// The number of the tag that a collection has.
    fn number_of(&mut self, alloc: Global, tag: &str) -> Result<u32, NoMemory>
        ensures { (s : State) → Holds self.old s → (k : Collection) (g : WrittenTag) → HasTag k g tag.now → IfOk result (λ n. IsNumber k g self.new n × Holds self.new s) }
    {
        let number = self.store.tag(alloc, tag)?;
        Ok(number)
    }

    /// The innermost collection stands in the place of the mapping around it, and has this tag.
    pub(crate) fn settle_alone(&mut self, alloc: Global, tag: &str) -> Result<(), NoMemory>
        ensures { (start : ℕ) (k : Collection) (p : Props) → HasTag k p.tag tag.now → IfOk result (λ _. SettlesAlone Follows start k p self.old self.new) }
    {
        let tag = self.number_of(alloc, tag)?;
        if let Some(own) = self.opens.pop() {
            if let Some(outer) = self.opens.pop() {
                let place = one_place(outer.place, own.place);
                self.opens.push(Open {
                    place,
                    tag,
                    mark: outer.mark,
                })?;
            }
        }
        Ok(())
    }

    /// The mapping around the innermost collection has this tag.
    pub(crate) fn settle_key(&mut self, alloc: Global, tag: &str) -> Result<(), NoMemory>
        ensures { (start : ℕ) (p : Props) → HasTag Mapping p.tag tag.now → IfOk result (λ _. SettlesKey Follows start p self.old self.new) }
    {
        let tag = self.number_of(alloc, tag)?;
        if let Some(own) = self.opens.pop() {
            if let Some(outer) = self.opens.pop() {
                self.opens.push(Open {
                    place: outer.place,
                    tag,
                    mark: outer.mark,
                })?;
                self.opens.push(own)?;
            }
        }
        Ok(())
    }

    /// A mapping without properties begins before the node that became whole last.
    pub(crate) fn precede(&mut self) -> Result<(), NoMemory>
        ensures { (front es : List Event) → AreNodes 1 es → Follows self.old (front ++ es) → IfOk result (λ _. (flow : Bool) → Follows self.new (front ++ (mapping_start flow None untagged ∷ es))) }
    {
        let tag = self.core.collection(Collection::Mapping);
        let mark = self.stack.len().saturating_sub(1);
        self.opens.push(Open {
            place: None,
            tag,
            mark,
        })?;
        Ok(())
    }

    /// The innermost collection ends.
    pub(crate) fn end(&mut self, collection: Collection) -> Result<(), NoMemory>
        ensures { (s : State) → Holds self.old s → IfOk result (λ _. Stepped (end_of collection) s self.new) }
    {
        let Some(open) = self.opens.pop() else {
            return Err(NoMemory);
        };
        let parts = parts_from(&self.stack, open.mark);
        let id = self.store.collection(collection, open.tag, parts)?;
        self.stack.truncate(open.mark);
        self.put(open.place, id)?;
        Ok(())
    }
}
