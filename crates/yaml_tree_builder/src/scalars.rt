//! Scalars, put down as nodes of the builder's store.
ghost use Rattle.std.specs.Prelude.{◌≡◌, ℕ, None, Ok, IfOk, MatchResult};
ghost use Rattle.std.specs.Cow.{cow_str_bytes};
ghost use Rattle.yaml_definitions.specs.model.Tree.{scalar};
ghost use Rattle.yaml_definitions.specs.model.Event.{Anchor, Style as PlainStyle, untagged, full, plain, scalar_event};
ghost use Rattle.yaml_text.specs.EventModel.{style_of};
ghost use Rattle.yaml_core.specs.Kind.{kind_tag};
ghost use Rattle.yaml_sink.specs.PropertyRules.{props_of, props_in};
ghost use Rattle.yaml_tree.specs.Anchors.{names_of, Placed};
ghost use Rattle.yaml_tree.specs.ComposerSteps.{State, whole};
ghost use Rattle.yaml_tree_builder.specs.TagModel.{KeepsTexts};
ghost use Rattle.yaml_tree_builder.specs.BuilderModel.{Holds, Stepped, FromBegun};
ghost use Rattle.yaml_tree_builder.specs.Refusals.{Stops};

use crate::builder::TreeBuilder;
use crate::stop::Stop;
use crate::tag::kept_tag;
use std::alloc::Global;
use std::borrow::CowStr;
use yaml_core::PlainKind;
use yaml_core::content::content;
use yaml_core::form::judge;
use yaml_core::scalar::resolve;
use yaml_sink::properties::{Given, Properties};
use yaml_store::no_memory::NoMemory;
use yaml_text::event::{EventTag, Style};

impl<'s> TreeBuilder<'s> {
    /// A scalar with this anchor and this tag, under which each text stands for itself.
    fn put_kept(
        &mut self,
        alloc: Global,
        given: &Given<'_>,
        tag: &str,
        text: &mut CowStr<'_>,
        offset: usize,
    ) -> Result<(), NoMemory>
        ensures { (y : PlainStyle) (s : State) → Holds self.old s → (props_in given.now).tag ≡ full tag.now → KeepsTexts (full tag.now) →
            IfOk result (λ _. Stepped (scalar_event (props_in given.now).anchor (props_in given.now).tag y (cow_str_bytes text.old)) s self.new) }
    {
        let place = self.begin_node(given)?;
        let id = self.store.scalar(alloc, tag, text, offset)?;
        self.put(place, id)?;
        Ok(())
    }

    /// A scalar with this anchor and this tag, which is written out.
    fn put_tagged(
        &mut self,
        alloc: Global,
        given: &Given<'_>,
        style: Style,
        text: &mut CowStr<'_>,
        offset: usize,
    ) -> Result<(), Stop>
        ensures { (s : State) → Holds self.old s →
            let event = scalar_event (props_in given.now).anchor (props_in given.now).tag (style_of style) (cow_str_bytes text.old) in
            MatchResult result (λ _. Stepped event s self.new) (Stops event s) }
    {
        if let Some(tag) = kept_tag(&given.tag) {
            self.put_kept(alloc, given, tag, text, offset)?;
            return Ok(());
        }
        let scalar = resolve(alloc, &given.tag, style, text.as_str())?;
        let place = self.begin_node(given)?;
        let mut content = CowStr::Borrowed(scalar.content.as_str());
        let id = self
            .store
            .scalar(alloc, scalar.tag.as_str(), &mut content, offset)?;
        self.put(place, id)?;
        Ok(())
    }

    /// A scalar of this kind and content, whose place among the anchored ones is this, if it has an anchor.
    #[inline(always)]
    fn put_kind(
        &mut self,
        place: Option<usize>,
        kind: PlainKind,
        content: &mut CowStr<'_>,
        offset: usize,
    ) -> Result<(), NoMemory>
        ensures { (a : Anchor) (slot : ℕ) (s : State) → Placed (names_of s.table) place a slot → Holds self.old s → IfOk result (λ _. Holds self.new (whole a slot (scalar (kind_tag kind) (cow_str_bytes content.old)) s)) }
    {
        let tag = self.core.scalar(kind);
        let id = self.store.scalar_of(tag, content, offset)?;
        self.put(place, id)?;
        Ok(())
    }

    /// A plain scalar without a tag.
    #[inline(always)]
    fn put_plain(
        &mut self,
        alloc: Global,
        place: Option<usize>,
        text: &mut CowStr<'_>,
        offset: usize,
    ) -> Result<(), Stop>
        ensures { FromBegun self.old place (λ a s.
            let event = scalar_event a untagged plain (cow_str_bytes text.old) in
            MatchResult result (λ _. Stepped event s self.new) (Stops event s)) }
    {
        let form = judge(text.as_str());
        let kind = form.kind();
        if let PlainKind::Str = kind {
            self.put_kind(place, kind, text, offset)?;
            return Ok(());
        }
        let mut content = content(alloc, kind, form, text.as_str())?;
        self.put_kind(place, kind, &mut content, offset)?;
        Ok(())
    }

    /// A scalar without a tag, whose place among the anchored ones is this, if it has an anchor.
    #[inline(always)]
    fn put_bare(
        &mut self,
        alloc: Global,
        place: Option<usize>,
        style: Style,
        text: &mut CowStr<'_>,
        offset: usize,
    ) -> Result<(), Stop>
        ensures { FromBegun self.old place (λ a s.
            let event = scalar_event a untagged (style_of style) (cow_str_bytes text.old) in
            MatchResult result (λ _. Stepped event s self.new) (Stops event s)) }
    {
        match style {
            Style::Plain => {
                self.put_plain(alloc, place, text, offset)?;
                Ok(())
            }
            Style::Single | Style::Double | Style::Literal | Style::Folded => {
                self.put_kind(place, PlainKind::Str, text, offset)?;
                Ok(())
            }
        }
    }

    /// A scalar with this anchor and tag.
    fn put_scalar(
        &mut self,
        alloc: Global,
        given: &Given<'_>,
        style: Style,
        text: &mut CowStr<'_>,
        offset: usize,
    ) -> Result<(), Stop>
        ensures { (s : State) → Holds self.old s →
            let event = scalar_event (props_in given.now).anchor (props_in given.now).tag (style_of style) (cow_str_bytes text.old) in
            MatchResult result (λ _. Stepped event s self.new) (Stops event s) }
    {
        if let EventTag::Full(_) = &given.tag {
            return self.put_tagged(alloc, given, style, text, offset);
        }
        let place = self.begin_node(given)?;
        if let EventTag::NonSpecific = &given.tag {
            self.put_kind(place, PlainKind::Str, text, offset)?;
            return Ok(());
        }
        self.put_bare(alloc, place, style, text, offset)
    }

    /// A scalar with these properties.
    #[inline(always)]
    pub(crate) fn scalar(
        &mut self,
        alloc: Global,
        properties: &Properties<'_>,
        style: Style,
        text: &mut CowStr<'_>,
        offset: usize,
    ) -> Result<(), Stop>
        ensures { (s : State) → Holds self.old s →
            let event = scalar_event (props_of properties.now).anchor (props_of properties.now).tag (style_of style) (cow_str_bytes text.old) in
            MatchResult result (λ _. Stepped event s self.new) (Stops event s) }
    {
        match &properties.given {
            None => self.put_bare(alloc, None, style, text, offset),
            Some(given) => self.put_scalar(alloc, given, style, text, offset),
        }
    }
}
