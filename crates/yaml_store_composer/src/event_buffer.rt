//! What was put down last, while it is not known yet whose its properties are and whether a mapping begins before it.
ghost use Rattle.std.specs.Prelude.{◌≡◌, [], IfOk};
ghost use Rattle.std.specs.Bool.{OnTrue, OnFalse};
ghost use Rattle.std.specs.Cow.{cow_str_bytes};
ghost use Rattle.yaml_definitions.specs.grammar.Events.{no_props};
ghost use Rattle.yaml_sink.specs.PropertyRules.{props_of};
ghost use Rattle.yaml_store_composer.specs.BufferModel.{buffered_event, start_before, waits, IsThere, PutsBuffered, ComposesWaits, Precedes, DressesWaits};

use crate::copies::{copy_over, fill, keep};
use crate::pending::PendingProperties;
use std::alloc::Global;
use std::borrow::CowStr;
use std::mem;
use yaml_sink::properties::Properties;
use yaml_sink::sink::Collection;
use yaml_store::no_memory::NoMemory;
use yaml_text::event::Style;

/// What an event is that waits.
#[derive(Clone, Copy)]
pub(crate) enum Buffered {
    Nothing,
    Scalar(Style),
    Alias,
    /// A collection's start, and whether it is a flow collection.
    Start(Collection, bool),
}

/// An event that waits, perhaps with a mapping's start before it.
#[derive(Drop)]
pub(crate) struct EventBuffer<'s> {
    buffered: Buffered,
    /// The content of a scalar, the name of an alias.
    text: CowStr<'s>,
    /// Where it may stand in the text that is read.
    offset: usize,
    /// What the event has of properties.
    own: Properties<'s>,
    /// Of the mapping's start, whether it is a flow mapping, and its properties.
    mapping: Option<bool>,
    outer: Properties<'s>,
    /// Properties of an earlier event, whose room others may have.
    spare: Properties<'s>,
}

/// Properties are of no use any more, but for their room.
#[inline(always)]
fn set_aside<'s>(own: &mut Properties<'s>, spare: &mut Properties<'s>)
    ensures { props_of own.new ≡ no_props }
{
    if own.given.is_some() {
        *spare = mem::replace(own, Properties::none());
    }
}

impl<'s> EventBuffer<'s> {
    /// Nothing waits.
    pub(crate) fn new(alloc: Global) -> EventBuffer<'s>
        ensures { waits result ≡ [] }
    {
        EventBuffer {
            buffered: Buffered::Nothing,
            text: CowStr::Owned(String::new(alloc)),
            offset: 0,
            own: Properties::none(),
            mapping: None,
            outer: Properties::none(),
            spare: Properties::none(),
        }
    }

    /// Whether nothing waits.
    pub(crate) fn is_none(&self) -> bool
        ensures yes { OnTrue result (waits self.now ≡ []) }
        ensures no { OnFalse result (IsThere self.now) }
    {
        matches!(self.buffered, Buffered::Nothing)
    }

    /// This waits, without properties.
    #[inline(always)]
    pub(crate) fn put(
        &mut self,
        alloc: Global,
        buffered: Buffered,
        text: &str,
        offset: usize,
    ) -> Result<(), NoMemory>
        ensures { IfOk result (λ _. waits self.new ≡ buffered_event buffered no_props text.now) }
    {
        fill(alloc, &mut self.text, text)?;
        self.offset = offset;
        set_aside(&mut self.own, &mut self.spare);
        self.mapping = None;
        self.buffered = buffered;
        Ok(())
    }

    /// This waits, without properties. Its text, a long one, is not copied where it is a part of the text that is lent, or may be taken.
    #[inline(never)]
    pub(crate) fn put_long(
        &mut self,
        alloc: Global,
        lent: &'s str,
        buffered: Buffered,
        text: &mut CowStr<'_>,
        offset: usize,
    ) -> Result<(), NoMemory>
        ensures { IfOk result (λ _. waits self.new ≡ buffered_event buffered no_props (cow_str_bytes text.old)) }
    {
        let kept = keep(alloc, lent, offset, text)?;
        self.put(alloc, buffered, "", offset)?;
        self.text = kept;
        Ok(())
    }

    /// A mapping's start without properties waits before the event that does, where none does yet.
    pub(crate) fn precede(&mut self, flow: bool) -> Result<(), NoMemory>
        ensures { IfOk result (λ _. IsThere self.old → Precedes flow (waits self.old) (waits self.new)) }
    {
        let None = self.mapping else {
            return Err(NoMemory);
        };
        self.mapping = Some(flow);
        self.outer = Properties::none();
        Ok(())
    }

    /// Whether all stays as it is where the first of the last so many events gets these properties: a scalar that has none, as most
    /// have, gets none.
    pub(crate) fn stays(&self, count: usize, properties: &Properties<'_>) -> bool
        ensures { OnTrue result (DressesWaits count (props_of properties.now) (waits self.now) (waits self.now)) }
    {
        let Buffered::Scalar(_) = self.buffered else {
            return false;
        };
        if count != 1 {
            return false;
        }
        if !self.own.is_none() {
            return false;
        }
        properties.is_none()
    }

    /// The same properties, in the room that earlier ones had.
    pub(crate) fn copy_of(
        &mut self,
        alloc: Global,
        lent: &'s str,
        properties: &Properties<'_>,
    ) -> Result<Properties<'s>, NoMemory>
        ensures copy { IfOk result (λ copy. props_of copy ≡ props_of properties.now) }
        ensures waits { waits self.new ≡ waits self.old }
    {
        if properties.given.is_none() {
            return Ok(Properties::none());
        }
        let spare = mem::replace(&mut self.spare, Properties::none());
        copy_over(alloc, lent, spare, properties)
    }

    /// Puts properties on the first of the last so many events, which wait.
    pub(crate) fn dress(&mut self, count: usize, properties: Properties<'s>) -> Result<(), NoMemory>
        ensures { IfOk result (λ _. IsThere self.old → DressesWaits count (props_of properties.entry) (waits self.old) (waits self.new)) }
    {
        if count == 1 {
            self.own = properties;
            return Ok(());
        }
        if count != 2 {
            return Err(NoMemory);
        }
        let Some(_) = self.mapping else {
            return Err(NoMemory);
        };
        self.outer = properties;
        Ok(())
    }

    /// Composes the mapping's start, if there is one, before the event of this number.
    fn compose_start(
        &self,
        alloc: Global,
        pending: &mut PendingProperties<'s>,
        number: usize,
    ) -> Result<(), NoMemory>
        ensures { IfOk result (λ _. ComposesWaits number (start_before self.now.mapping (props_of self.now.outer)) pending.old pending.new) }
    {
        let Some(_) = self.mapping else {
            return Ok(());
        };
        let at = number.saturating_sub(1);
        pending.begin(alloc, Collection::Mapping, at, &self.outer)?;
        Ok(())
    }

    /// Composes the event, which has this number.
    fn compose_buffered(
        &mut self,
        alloc: Global,
        pending: &mut PendingProperties<'s>,
        number: usize,
    ) -> Result<(), NoMemory>
        ensures { IfOk result (λ _. PutsBuffered number (buffered_event self.old.buffered (props_of self.old.own) (cow_str_bytes self.old.text)) pending.old pending.new) }
    {
        match self.buffered {
            Buffered::Nothing => Ok(()),
            Buffered::Scalar(style) => {
                pending.scalar(alloc, number, &self.own, style, &mut self.text, self.offset)?;
                Ok(())
            }
            Buffered::Alias => {
                pending.alias(alloc, number, self.text.as_str())?;
                Ok(())
            }
            Buffered::Start(collection, _) => {
                pending.begin(alloc, collection, number, &self.own)?;
                Ok(())
            }
        }
    }

    /// Composes what waits, the last of so many events.
    pub(crate) fn compose(
        &mut self,
        alloc: Global,
        pending: &mut PendingProperties<'s>,
        count: usize,
    ) -> Result<(), NoMemory>
        ensures composes { IfOk result (λ _. ComposesWaits count (waits self.old) pending.old pending.new) }
        ensures none { IfOk result (λ _. waits self.new ≡ []) }
    {
        if self.is_none() {
            return Ok(());
        }
        let number = count.saturating_sub(1);
        self.compose_start(alloc, pending, number)?;
        self.compose_buffered(alloc, pending, number)?;
        self.buffered = Buffered::Nothing;
        Ok(())
    }
}
