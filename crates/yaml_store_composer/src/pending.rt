//! A builder that knows the properties of a flow collection before the log of events has them. Properties on lines above are those
//! of the collection, or of a block mapping whose first key it is. Until that is known, the builder has the mapping, with the
//! anchor that they have: an alias to it inside is cyclic either way.
ghost use Rattle.std.specs.Prelude.{◌≡◌, ◌+◌, Bool, List, [], ◌∷◌, ◌++◌, length, None, IfOk, IfErr};
ghost use Rattle.std.specs.Bool.{OnTrue, OnFalse};
ghost use Rattle.std.specs.Cow.{cow_str_bytes};
ghost use Rattle.yaml_definitions.specs.model.Event.{Event, untagged, document_start, mapping_start, scalar_event, alias_event};
ghost use Rattle.yaml_definitions.specs.model.Serial.{Document, stream_events};
ghost use Rattle.yaml_definitions.specs.grammar.Events.{Props};
ghost use Rattle.yaml_text.specs.EventModel.{style_of};
ghost use Rattle.yaml_sink.specs.Held.{Puts, Alters};
ghost use Rattle.yaml_sink.specs.PropertyRules.{props_of, with_props, dressed};
ghost use Rattle.yaml_sink.specs.SinkModel.{start_of, end_of};
ghost use Rattle.yaml_tree_builder.specs.Reached.{UnfoldTo, HaveDocuments, all_events};
ghost use Rattle.yaml_tree_builder.specs.BuilderModel.{IsForest, AreForests, AreStreams};
ghost use Rattle.yaml_tree_builder.specs.TagModel.{kind_in};
ghost use Rattle.yaml_store_composer.specs.PendingModel.{settled, Tells, IsPaid, Settles, GoesOn};
ghost use Rattle.yaml_tree.specs.Refused.{RefusesStream};

use crate::copies::{are_both, are_same};
use std::alloc::Global;
use std::borrow::CowStr;
use std::mem;
use yaml_sink::properties::Properties;
use yaml_sink::sink::Collection;
use yaml_store::no_memory::NoMemory;
use yaml_store::nodes;
use yaml_text::event::Style;
use yaml_text::fault::Fault;
use yaml_tree_builder::{Forest, Judged, StreamSize};

/// Properties on lines above a collection, and its kind.
#[derive(Drop)]
pub(crate) struct Above<'s> {
    outer: Properties<'s>,
    kind: nodes::Collection,
}

/// A collection that began.
#[derive(Drop)]
pub(crate) struct Begun<'s> {
    /// The number of its first event.
    at: usize,
    /// Properties with which it was composed, and which that event has not yet in the log.
    due: Option<Properties<'s>>,
    /// What stands on lines above, where it is not known whether the collection is the first key of a mapping.
    above: Option<Above<'s>>,
}

/// A builder, and what it knows that the log does not say yet.
#[derive(Drop)]
pub(crate) struct PendingProperties<'s> {
    judged: Judged<'s>,
    /// The open collections, the innermost last.
    opens: Vec<Begun<'s>>,
    /// The collection that ended last, where nothing came after it. The builder is not told of the end of one that may be a key.
    ended: Option<Begun<'s>>,
    /// How many events more the builder was told of than the log has.
    early: usize,
}

/// A sum of counts, if it fits.
pub(crate) fn sum(a: usize, b: usize) -> Result<usize, NoMemory>
    ensures { IfOk result (λ n. n ≡ a + b) }
{
    match a.checked_add(b) {
        Some(n) => Ok(n),
        None => Err(NoMemory),
    }
}

/// A kind of collection, as nodes have it.
fn kind_of(collection: Collection) -> nodes::Collection
    ensures { result ≡ kind_in collection }
{
    match collection {
        Collection::Sequence => nodes::Collection::Sequence,
        Collection::Mapping => nodes::Collection::Mapping,
    }
}

/// What is due to a mapping that begins without properties before its first key: a block mapping gets its own after that, and is
/// composed with none.
fn due_before_key<'s>(flow: bool) -> Option<Properties<'s>>
    ensures { settled result (mapping_start flow None untagged) ≡ mapping_start flow None untagged }
{
    if flow { None } else { Some(Properties::none()) }
}

impl<'s> Begun<'s> {
    /// Whether something is due, or not known.
    fn owes(&self) -> bool
        ensures due { OnFalse result (self.now.due ≡ None) }
        ensures above { OnFalse result (self.now.above ≡ None) }
    {
        self.due.is_some() || self.above.is_some()
    }

    /// Whether its first event has this number.
    fn is_at(&self, start: usize) -> bool
        ensures { OnTrue result (self.now.at ≡ start) }
    {
        self.at == start
    }

    /// Whether these are the properties that are due.
    fn has_due(&self, properties: &Properties<'_>) -> bool {
        match &self.due {
            None => false,
            Some(given) => are_same(given, properties),
        }
    }

    /// The same once its event, which has this number, has got these properties, if they are those that are due.
    fn paid(self, start: usize, properties: &Properties<'_>) -> Result<Begun<'s>, NoMemory>
        ensures { IfOk result (IsPaid self.entry start (props_of properties.now)) }
    {
        let Begun { at, due, above } = self;
        let Some(given) = due else {
            return Err(NoMemory);
        };
        if at != start {
            return Err(NoMemory);
        }
        if are_same(&given, properties) {
            return Ok(Begun {
                at,
                due: None,
                above,
            });
        }
        Err(NoMemory)
    }
}

impl<'s> PendingProperties<'s> {
    /// No event yet.
    pub(crate) fn new(alloc: Global, lent: &'s str) -> Result<PendingProperties<'s>, NoMemory>
        ensures { IfOk result (λ pending. Tells pending []) }
    {
        let judged = Judged::new(alloc, lent)?;
        Ok(PendingProperties {
            judged,
            opens: Vec::new(alloc),
            ended: None,
            early: 0,
        })
    }

    /// The number that an event of the log has for the builder.
    #[inline(always)]
    fn number(&self, at: usize) -> Result<usize, NoMemory>
        ensures { IfOk result (λ n. n ≡ at + self.now.early) }
    {
        sum(at, self.early)
    }

    /// An event follows behind the collection that ended last, to which nothing may be due then.
    pub(crate) fn go_on(&mut self) -> Result<(), NoMemory>
        ensures { IfOk result (λ _. GoesOn self.old self.new) }
    {
        let Some(begun) = &self.ended else {
            return Ok(());
        };
        if begun.owes() {
            return Err(NoMemory);
        }
        self.ended = None;
        Ok(())
    }

    /// The event of this number is a scalar with these properties.
    pub(crate) fn scalar(
        &mut self,
        alloc: Global,
        at: usize,
        properties: &Properties<'_>,
        style: Style,
        text: &mut CowStr<'_>,
        offset: usize,
    ) -> Result<(), NoMemory>
        ensures { IfOk result (λ _. (log : List Event) → at ≡ length log → Tells self.old log → Tells self.new (log ++ (scalar_event (props_of properties.now).anchor (props_of properties.now).tag (style_of style) (cow_str_bytes text.old) ∷ []))) }
    {
        self.go_on()?;
        let number = self.number(at)?;
        self.judged
            .scalar(alloc, number, properties, style, text, offset)?;
        Ok(())
    }

    /// The event of this number is an alias.
    pub(crate) fn alias(&mut self, alloc: Global, at: usize, name: &str) -> Result<(), NoMemory>
        ensures { IfOk result (λ _. (log : List Event) → at ≡ length log → Tells self.old log → Tells self.new (log ++ (alias_event name.now ∷ []))) }
    {
        self.go_on()?;
        let number = self.number(at)?;
        self.judged.alias(alloc, number, name)?;
        Ok(())
    }

    /// A collection begins with the event of this number, which has these properties in the log.
    pub(crate) fn begin(
        &mut self,
        alloc: Global,
        collection: Collection,
        at: usize,
        properties: &Properties<'_>,
    ) -> Result<(), NoMemory>
        ensures { IfOk result (λ _. (flow : Bool) (log : List Event) → at ≡ length log → Tells self.old log → Tells self.new (log ++ (with_props (props_of properties.now) (start_of collection flow) ∷ []))) }
    {
        self.go_on()?;
        let number = self.number(at)?;
        self.judged
            .begin(alloc, number, kind_of(collection), properties)?;
        self.opens.push(Begun {
            at,
            due: None,
            above: None,
        })?;
        Ok(())
    }

    /// A collection begins with the event of this number, which gets these properties in the log later, in place of any others.
    pub(crate) fn begin_due(
        &mut self,
        alloc: Global,
        collection: Collection,
        at: usize,
        given: Properties<'s>,
    ) -> Result<(), NoMemory>
        ensures { IfOk result (λ _. (flow : Bool) (p : Props) (log : List Event) → at ≡ length log → Tells self.old log → Tells self.new (log ++ (with_props p (start_of collection flow) ∷ []))) }
    {
        self.go_on()?;
        let number = self.number(at)?;
        self.judged
            .begin(alloc, number, kind_of(collection), &given)?;
        self.opens.push(Begun {
            at,
            due: Some(given),
            above: None,
        })?;
        Ok(())
    }

    /// The same where other properties stand on lines above. They are the collection's, too, unless it is the first key of a block
    /// mapping: then they are the mapping's.
    pub(crate) fn begin_below(
        &mut self,
        alloc: Global,
        collection: Collection,
        at: usize,
        given: Properties<'s>,
        outer: Properties<'s>,
    ) -> Result<(), NoMemory>
        ensures { IfOk result (λ _. (flow : Bool) (p : Props) (log : List Event) → at ≡ length log → Tells self.old log → Tells self.new (log ++ (with_props p (start_of collection flow) ∷ []))) }
    {
        self.go_on()?;
        let number = self.number(at)?;
        let behind = sum(number, 1)?;
        let early = sum(self.early, 1)?;
        let kind = kind_of(collection);
        self.judged.begin_untagged(&outer)?;
        self.judged.begin(alloc, behind, kind, &given)?;
        self.early = early;
        let due = Some(given);
        let above = Some(Above { outer, kind });
        self.opens.push(Begun { at, due, above })?;
        Ok(())
    }

    /// The innermost collection ends.
    pub(crate) fn end(&mut self, collection: Collection) -> Result<(), NoMemory>
        ensures { IfOk result (λ _. Puts Tells self.old (end_of collection ∷ []) self.new) }
    {
        self.go_on()?;
        let kind = kind_of(collection);
        let Some(begun) = self.opens.pop() else {
            self.judged.end(kind)?;
            return Ok(());
        };
        if let Some(above) = &begun.above {
            if above.kind != kind {
                return Err(NoMemory);
            }
            self.early = self.early.saturating_sub(1);
            self.ended = Some(begun);
            return Ok(());
        }
        self.judged.end(kind)?;
        self.ended = Some(begun);
        Ok(())
    }

    /// A document begins.
    pub(crate) fn document(&mut self) -> Result<(), NoMemory>
        ensures { IfOk result (λ _. (explicit : Bool) → Puts Tells self.old (document_start explicit ∷ []) self.new) }
    {
        self.go_on()?;
        if self.opens.len() > 0 {
            return Err(NoMemory);
        }
        self.judged.document()?;
        Ok(())
    }

    /// A mapping without properties begins before the collection that ended last, whose first event stands at this mark.
    pub(crate) fn precede(
        &mut self,
        alloc: Global,
        start: usize,
        flow: bool,
    ) -> Result<(), NoMemory>
        ensures { IfOk result (λ _. Alters Tells start (λ es. mapping_start flow None untagged ∷ es) self.old self.new) }
    {
        let number = self.number(start)?;
        let Some(begun) = mem::replace(&mut self.ended, None) else {
            return Err(NoMemory);
        };
        let Begun { at, due, above } = begun;
        if start != at {
            return Err(NoMemory);
        }
        let None = due else {
            return Err(NoMemory);
        };
        let Some(above) = above else {
            self.judged.precede(number)?;
            let due = due_before_key(flow);
            self.opens.push(Begun {
                at: start,
                due,
                above: None,
            })?;
            return Ok(());
        };
        if flow {
            return Err(NoMemory);
        }
        let Above { outer, kind } = above;
        self.judged.settle_key(alloc, number, &outer)?;
        self.judged.end(kind)?;
        self.opens.push(Begun {
            at: start,
            due: Some(outer),
            above: None,
        })?;
        Ok(())
    }

    /// The collection that ended last, of which it was not known whether it is a key, is none where it gets its own properties together
    /// with those on lines above. Where it gets its own alone it is still not known.
    fn settle(
        &mut self,
        alloc: Global,
        begun: Begun<'s>,
        start: usize,
        properties: &Properties<'_>,
    ) -> Result<Begun<'s>, NoMemory>
        ensures { IfOk result (λ after. Settles begun.entry start (props_of properties.now) self.old self.new after) }
    {
        if begun.has_due(properties) {
            let paid = begun.paid(start, properties)?;
            return Ok(paid);
        }
        let number = self.number(start)?;
        if !begun.is_at(start) {
            return Err(NoMemory);
        }
        let Begun { at, due, above } = begun;
        let Some(own) = due else {
            return Err(NoMemory);
        };
        let Some(above) = above else {
            return Err(NoMemory);
        };
        let Above { outer, kind } = above;
        if !are_both(&outer, &own, properties) {
            return Err(NoMemory);
        }
        self.judged.settle_alone(alloc, number, kind, properties)?;
        self.judged.end(kind)?;
        Ok(Begun {
            at,
            due: None,
            above: None,
        })
    }

    /// The first event since a mark, that of the collection which ended last, or else of the innermost one, gets the properties
    /// that are due.
    pub(crate) fn pay(
        &mut self,
        alloc: Global,
        start: usize,
        properties: &Properties<'_>,
    ) -> Result<(), NoMemory>
        ensures { IfOk result (λ _. Alters Tells start (dressed (props_of properties.now)) self.old self.new) }
    {
        if let Some(begun) = mem::replace(&mut self.ended, None) {
            let paid = self.settle(alloc, begun, start, properties)?;
            self.ended = Some(paid);
            return Ok(());
        }
        let Some(begun) = self.opens.pop() else {
            return Err(NoMemory);
        };
        let paid = begun.paid(start, properties)?;
        self.opens.push(paid)?;
        Ok(())
    }

    /// How many documents and nodes there are, where no collection is open.
    pub(crate) fn documents(&mut self) -> Result<StreamSize, Fault>
        ensures count { (ds : List Document) → Tells self.old (stream_events ds) → IfOk result (UnfoldTo ds) }
        ensures streams { (dss : List (List Document)) → Tells self.old (all_events dss) → IfOk result (λ size. HaveDocuments dss size.documents) }
        ensures keeps { IfOk result (λ _. GoesOn self.old self.new) }
        ensures refused { (ds : List Document) → Tells self.old (stream_events ds) → IfErr result (RefusesStream ds) }
    {
        self.go_on()?;
        if self.opens.len() > 0 {
            return Err(Fault::OutOfMemory);
        }
        self.judged.documents()
    }

    /// The stream ends, or the second of two.
    pub(crate) fn finish(self) -> Result<Forest<'s>, Fault>
        ensures forest { (ds : List Document) → Tells self.entry (stream_events ds) → IfOk result (IsForest ds) }
        ensures both { (ds es : List Document) → Tells self.entry (stream_events ds ++ stream_events es) → IfOk result (AreForests ds es) }
        ensures streams { (dss : List (List Document)) → Tells self.entry (all_events dss) → IfOk result (AreStreams dss) }
        ensures refused { (ds : List Document) → Tells self.entry (stream_events ds) → IfErr result (RefusesStream ds) }
    {
        let mut pending = self;
        pending.go_on()?;
        let PendingProperties {
            judged,
            opens,
            ended: _,
            early: _,
        } = pending;
        if opens.len() > 0 {
            return Err(Fault::OutOfMemory);
        }
        judged.finish()
    }
}
