//! A builder up to the first event that is refused.
ghost use Rattle.std.specs.Prelude.{◌≡◌, Bool, false, List, [], ◌∷◌, ◌++◌, length, None, IfOk, IfErr};
ghost use Rattle.std.specs.Bool.{OnTrue, OnFalse};
ghost use Rattle.std.specs.Cow.{cow_str_bytes};
ghost use Rattle.yaml_definitions.specs.model.Event.{Event, untagged, document_start, mapping_start, scalar_event, alias_event};
ghost use Rattle.yaml_definitions.specs.model.Serial.{Document, stream_events};
ghost use Rattle.yaml_text.specs.EventModel.{style_of};
ghost use Rattle.yaml_sink.specs.Held.{Puts};
ghost use Rattle.yaml_sink.specs.PropertyRules.{props_of};
ghost use Rattle.yaml_tree_builder.specs.Reached.{UnfoldTo, HaveDocuments, all_events};
ghost use Rattle.yaml_tree_builder.specs.Nodes.{AreNodes};
ghost use Rattle.yaml_tree_builder.specs.BuilderModel.{IsForest, AreForests, AreStreams, start_of, end_of};
ghost use Rattle.yaml_tree.specs.Refused.{RefusesStream};
ghost use Rattle.yaml_tree_builder.specs.BuilderLog.{SettlesAlone, SettlesKey};
ghost use Rattle.yaml_tree_builder.specs.JudgedModel.{Judges, Takes, IsBefore, IsNoneBefore};

use crate::builder::{Forest, TreeBuilder};
use crate::size::StreamSize;
use crate::stop::Refusal;
use crate::tag::tag_given;
use std::alloc::Global;
use std::borrow::CowStr;
use yaml_sink::properties::Properties;
use yaml_store::no_memory::NoMemory;
use yaml_store::nodes::Collection;
use yaml_text::event::Style;
use yaml_text::fault::Fault;

/// A builder that is told of no more events once one is refused: its node has no tree.
#[derive(Drop)]
pub struct Judged<'s> {
    builder: TreeBuilder<'s>,
    /// The event that is refused.
    refusal: Option<Refusal>,
}

impl<'s> Judged<'s> {
    /// No event yet.
    pub fn new(alloc: Global, lent: &'s str) -> Result<Judged<'s>, NoMemory>
        ensures { IfOk result (λ judged. Judges judged []) }
    {
        let builder = TreeBuilder::new(alloc, lent)?;
        Ok(Judged {
            builder,
            refusal: None,
        })
    }

    /// The event of this number is a scalar with these properties.
    #[inline(always)]
    pub fn scalar(
        &mut self,
        alloc: Global,
        at: usize,
        properties: &Properties<'_>,
        style: Style,
        text: &mut CowStr<'_>,
        offset: usize,
    ) -> Result<(), NoMemory>
        ensures { IfOk result (λ _. Takes at (scalar_event (props_of properties.now).anchor (props_of properties.now).tag (style_of style) (cow_str_bytes text.old)) self.old self.new) }
    {
        if let Some(_) = self.refusal {
            return Ok(());
        }
        if let Err(stop) = self.builder.scalar(alloc, properties, style, text, offset) {
            self.refusal = Some(stop.refusal(at)?);
        }
        Ok(())
    }

    /// The event of this number is an alias.
    pub fn alias(&mut self, alloc: Global, at: usize, name: &str) -> Result<(), NoMemory>
        ensures { IfOk result (λ _. Takes at (alias_event name.now) self.old self.new) }
    {
        if let Some(_) = self.refusal {
            return Ok(());
        }
        if let Err(stop) = self.builder.alias(alloc, name) {
            self.refusal = Some(stop.refusal(at)?);
        }
        Ok(())
    }

    /// A collection with these properties begins with the event of this number.
    pub fn begin(
        &mut self,
        alloc: Global,
        at: usize,
        collection: Collection,
        properties: &Properties<'_>,
    ) -> Result<(), NoMemory>
        ensures { IfOk result (λ _. (flow : Bool) → Takes at (start_of collection flow (props_of properties.now).anchor (props_of properties.now).tag) self.old self.new) }
    {
        if let Some(_) = self.refusal {
            return Ok(());
        }
        if let Err(stop) = self.builder.begin(alloc, collection, properties) {
            self.refusal = Some(stop.refusal(at)?);
        }
        Ok(())
    }

    /// The innermost collection ends.
    pub fn end(&mut self, collection: Collection) -> Result<(), NoMemory>
        ensures { IfOk result (λ _. Puts Judges self.old (end_of collection ∷ []) self.new) }
    {
        if let Some(_) = self.refusal {
            return Ok(());
        }
        self.builder.end(collection)?;
        Ok(())
    }

    /// A document begins.
    pub fn document(&mut self) -> Result<(), NoMemory>
        ensures { IfOk result (λ _. (explicit : Bool) → Puts Judges self.old (document_start explicit ∷ []) self.new) }
    {
        if let Some(_) = self.refusal {
            return Ok(());
        }
        self.builder.document()?;
        Ok(())
    }

    /// A mapping without properties begins before the node that became whole last, whose first event has this number.
    pub fn precede(&mut self, start: usize) -> Result<(), NoMemory>
        ensures { (front es : List Event) → start ≡ length front → AreNodes 1 es → Judges self.old (front ++ es) → IfOk result (λ _. (flow : Bool) → Judges self.new (front ++ (mapping_start flow None untagged ∷ es))) }
    {
        let Some(refusal) = self.refusal else {
            self.builder.precede()?;
            return Ok(());
        };
        if refusal.at < start {
            return Ok(());
        }
        let Some(at) = refusal.at.checked_add(1) else {
            return Err(NoMemory);
        };
        self.refusal = Some(Refusal {
            cause: refusal.cause,
            at,
        });
        Ok(())
    }

    /// A mapping without a tag begins, of whose properties only the anchor counts.
    pub fn begin_untagged(&mut self, properties: &Properties<'_>) -> Result<(), NoMemory>
        ensures { IfOk result (λ _. Puts Judges self.old (mapping_start false (props_of properties.now).anchor untagged ∷ []) self.new) }
    {
        if let Some(_) = self.refusal {
            return Ok(());
        }
        self.builder.begin_untagged(properties)?;
        Ok(())
    }

    /// Whether an event before that of this number is refused.
    fn is_refused_before(&self, start: usize) -> bool
        ensures yes { OnTrue result (IsBefore start self.now.refusal) }
        ensures no { OnFalse result (IsNoneBefore start self.now.refusal) }
    {
        match self.refusal {
            None => false,
            Some(refusal) => refusal.at < start,
        }
    }

    /// The event of this number began a mapping around the innermost collection. There is no mapping: the collection has these
    /// properties.
    pub fn settle_alone(
        &mut self,
        alloc: Global,
        start: usize,
        collection: Collection,
        properties: &Properties<'_>,
    ) -> Result<(), NoMemory>
        ensures { IfOk result (λ _. SettlesAlone Judges start collection (props_of properties.now) self.old self.new) }
    {
        if self.is_refused_before(start) {
            return Ok(());
        }
        let tag = match tag_given(collection, properties) {
            Ok(tag) => tag,
            Err(stop) => {
                self.refusal = Some(stop.refusal(start)?);
                return Ok(());
            }
        };
        let Some(refusal) = self.refusal else {
            self.builder.settle_alone(alloc, tag)?;
            return Ok(());
        };
        let at = refusal.at.saturating_sub(1);
        self.refusal = Some(Refusal {
            cause: refusal.cause,
            at,
        });
        Ok(())
    }

    /// The event of this number began a mapping around the innermost collection, which has these properties.
    pub fn settle_key(
        &mut self,
        alloc: Global,
        start: usize,
        properties: &Properties<'_>,
    ) -> Result<(), NoMemory>
        ensures { IfOk result (λ _. SettlesKey Judges start (props_of properties.now) self.old self.new) }
    {
        if self.is_refused_before(start) {
            return Ok(());
        }
        let tag = match tag_given(Collection::Mapping, properties) {
            Ok(tag) => tag,
            Err(stop) => {
                self.refusal = Some(stop.refusal(start)?);
                return Ok(());
            }
        };
        if let Some(_) = self.refusal {
            return Ok(());
        }
        self.builder.settle_key(alloc, tag)?;
        Ok(())
    }

    /// How many documents and nodes there are, where no collection is open.
    pub fn documents(&self) -> Result<StreamSize, Fault>
        ensures count { (ds : List Document) → Judges self.now (stream_events ds) → IfOk result (UnfoldTo ds) }
        ensures streams { (dss : List (List Document)) → Judges self.now (all_events dss) → IfOk result (λ size. HaveDocuments dss size.documents) }
        ensures refused { (ds : List Document) → Judges self.now (stream_events ds) → IfErr result (RefusesStream ds) }
    {
        if let Some(refusal) = self.refusal {
            return Err(refusal.fault());
        }
        self.builder.documents()
    }

    /// The stream ends, or the second of two.
    pub fn finish(self) -> Result<Forest<'s>, Fault>
        ensures forest { (ds : List Document) → Judges self.entry (stream_events ds) → IfOk result (IsForest ds) }
        ensures both { (ds es : List Document) → Judges self.entry (stream_events ds ++ stream_events es) → IfOk result (AreForests ds es) }
        ensures streams { (dss : List (List Document)) → Judges self.entry (all_events dss) → IfOk result (AreStreams dss) }
        ensures refused { (ds : List Document) → Judges self.entry (stream_events ds) → IfErr result (RefusesStream ds) }
    {
        let Judged { builder, refusal } = self;
        if let Some(refusal) = refusal {
            return Err(refusal.fault());
        }
        builder.finish()
    }
}
