//! A list of events into which starts of mappings are put late.
ghost use Rattle.std.specs.Prelude.{◌≡◌, ◌≤◌, ◌<◌, ◌+◌, ◌∷◌, [], List, None, IfOk, IfErr, length, map, min, take};
ghost use Rattle.std.specs.Bool.{OnTrue, OnFalse};
ghost use Rattle.std.specs.Cow.{cow_str_bytes};
ghost use Rattle.yaml_definitions.specs.model.Event.{Event as PlainEvent, untagged, scalar_event, mapping_start};
ghost use Rattle.yaml_definitions.specs.grammar.Events.{map_start};
ghost use Rattle.yaml_text.specs.EventModel.{event_of, style_of};
ghost use Rattle.yaml_text.specs.declared.fault.Fault.TheVariants.{OutOfMemory};
ghost use Rattle.yaml_sink.specs.PropertyRules.{props_of, dressed};
ghost use Rattle.yaml_sink.specs.Held.{Counts, Puts, Alters};
ghost use Rattle.yaml_sink.specs.ListModel.{HeldList, IsAt, IsBefore, IsBehind, IsPut, Lifted, Splits, opening};
ghost use Rattle.yaml_sink.specs.SinkModel.{start_of, end_of};

use crate::properties::{Properties, dress};
use crate::sink::Collection;
use std::alloc::Global;
use std::borrow::CowStr;
use yaml_text::event::{Event, EventTag, Style};
use yaml_text::fault::Fault;

/// Before so many events a start is put by moving them. Before more it is kept apart.
const FEW: usize = 8;

/// A start of a mapping that is kept apart from the events: it stands before the event at its place, or behind the last.
#[derive(Drop)]
struct Start<'a> {
    place: usize,
    flow: bool,
    properties: Properties<'a>,
}

/// A list of events. A mapping's start is put before its first key once this is read, and where keys nest in keys, each level has
/// all of its key's events behind its start. So where these are many the start is kept apart until the list is taken out.
#[derive(Drop)]
pub struct EventList<'a> {
    events: Vec<Event<'a>>,
    starts: Vec<Start<'a>>,
}

/// The start of a collection without properties.
fn start_event<'a>(collection: Collection, flow: bool) -> Event<'a>
    ensures { event_of result ≡ start_of collection flow }
{
    match collection {
        Collection::Sequence => Event::SequenceStart {
            flow,
            anchor: None,
            tag: EventTag::None,
        },
        Collection::Mapping => Event::MappingStart {
            flow,
            anchor: None,
            tag: EventTag::None,
        },
    }
}

/// The start of a mapping with its properties.
fn mapping_event<'a>(flow: bool, properties: Properties<'a>) -> Event<'a>
    ensures { event_of result ≡ map_start flow (props_of properties.entry) }
{
    let (anchor, tag) = properties.parts();
    Event::MappingStart { flow, anchor, tag }
}

/// Puts so many events at a list's end, in whose place others are to come.
fn widen(events: &mut Vec<Event<'_>>, count: usize) -> Result<(), Fault>
    ensures front { IfOk result (λ _. take (length events.old.items) events.new.items ≡ events.old.items) }
    ensures len { IfOk result (λ _. length events.new.items ≡ length events.old.items + count) }
    ensures err { IfErr result (λ e. e ≡ OutOfMemory) }
{
    events.reserve_exact(count).map_err(|_| Fault::OutOfMemory)?;
    'ends: for _ in 0..count {
        events.push(Event::MappingEnd)?;
    }
    Ok(())
}

/// Moves the events from one place up to another by so many places towards the end.
fn lift(events: &mut Vec<Event<'_>>, from: usize, to: usize, by: usize)
    requires order { from ≤ to }
    requires room { to + by ≤ length events.old.items }
    ensures { Lifted events.old.items from to by events.new.items }
{
    let mut at = to;
    'places: while at > from {
        at -= 1;
        events.swap(at, at + by);
    }
}

/// Puts a start before the event at its place, or before those from `to` on, where so many are left to come before it. The events
/// up to `to` move on by the one and by those. Gives its place.
fn put_start<'a>(events: &mut Vec<Event<'a>>, start: Start<'a>, to: usize, left: usize) -> usize
    requires { to + (left + 1) ≤ length events.old.items }
    ensures place { result ≡ min start.entry.place to }
    ensures put { IsPut events.old.items (opening start.entry) result to left events.new.items }
{
    let Start {
        place,
        flow,
        properties,
    } = start;
    let from = place.min(to);
    lift(events, from, to, left + 1);
    events[from + left] = mapping_event(flow, properties);
    from
}

impl<'a> EventList<'a> {
    /// A list of no events.
    pub fn new(alloc: Global) -> EventList<'a>
        ensures { HeldList result [] }
    {
        EventList {
            events: Vec::new(alloc),
            starts: Vec::new(alloc),
        }
    }

    /// How many events are held: the mark behind the last.
    pub fn mark(&self) -> usize
        ensures { Counts HeldList self.now result }
    {
        self.events.len() + self.starts.len()
    }

    /// Puts down an event. Out of line, as the others, so that no event stands in the frame of a call that nests.
    #[inline(never)]
    pub fn push(&mut self, event: Event<'a>) -> Result<(), Fault>
        ensures ok { IfOk result (λ _. Puts HeldList self.old (event_of event.entry ∷ []) self.new) }
        ensures err { IfErr result (λ e. e ≡ OutOfMemory) }
    {
        self.events.push(event)?;
        Ok(())
    }

    /// Puts down a scalar without properties.
    #[inline(never)]
    pub fn scalar(&mut self, style: Style, text: CowStr<'a>) -> Result<(), Fault>
        ensures ok { IfOk result (λ _. Puts HeldList self.old (scalar_event None untagged (style_of style) (cow_str_bytes text.entry) ∷ []) self.new) }
        ensures err { IfErr result (λ e. e ≡ OutOfMemory) }
    {
        self.events.push(Event::Scalar {
            anchor: None,
            tag: EventTag::None,
            style,
            text,
        })?;
        Ok(())
    }

    /// Puts down the start of a collection without properties.
    #[inline(never)]
    pub fn begin(&mut self, collection: Collection, flow: bool) -> Result<(), Fault>
        ensures ok { IfOk result (λ _. Puts HeldList self.old (start_of collection flow ∷ []) self.new) }
        ensures err { IfErr result (λ e. e ≡ OutOfMemory) }
    {
        self.events.push(start_event(collection, flow))?;
        Ok(())
    }

    /// Puts down the end of a collection.
    #[inline(never)]
    pub fn end(&mut self, collection: Collection) -> Result<(), Fault>
        ensures ok { IfOk result (λ _. Puts HeldList self.old (end_of collection ∷ []) self.new) }
        ensures err { IfErr result (λ e. e ≡ OutOfMemory) }
    {
        match collection {
            Collection::Sequence => self.events.push(Event::SequenceEnd)?,
            Collection::Mapping => self.events.push(Event::MappingEnd)?,
        }
        Ok(())
    }

    /// Whether the start of this number stands before a mark.
    fn is_before(&self, start: usize, mark: usize) -> bool
        requires { start < length self.now.starts.items }
        ensures yes { OnTrue result (IsBefore self.now.starts.items start mark) }
        ensures no { OnFalse result (IsBehind self.now.starts.items start mark) }
    {
        self.starts[start].place < mark.saturating_sub(start)
    }

    /// How many of the starts stand before a mark, by halves.
    #[inline(never)]
    fn search(&self, mark: usize) -> usize
        ensures { Splits self.now.starts.items mark result }
    {
        let mut low = 0;
        let mut high = self.starts.len();
        'halves: while low < high {
            let middle = low + (high - low) / 2;
            if self.is_before(middle, mark) {
                low = middle + 1;
            } else {
                high = middle;
            }
        }
        low
    }

    /// How many of the starts stand before a mark. At most marks it is all of them.
    fn starts_before(&self, mark: usize) -> usize
        ensures { Splits self.now.starts.items mark result }
    {
        let count = self.starts.len();
        if count == 0 || self.is_before(count - 1, mark) {
            return count;
        }
        self.search(mark)
    }

    /// Puts the start of a mapping without properties before what was put down since a mark.
    #[inline(never)]
    pub fn insert(&mut self, mark: usize, flow: bool) -> Result<(), Fault>
        ensures ok { IfOk result (λ _. Alters HeldList mark (λ es. mapping_start flow None untagged ∷ es) self.old self.new) }
        ensures err { IfErr result (λ e. e ≡ OutOfMemory) }
    {
        let count = self.starts_before(mark);
        let place = (mark - count).min(self.events.len());
        if count == self.starts.len() && self.events.len() - place <= FEW {
            self.events
                .insert(place, start_event(Collection::Mapping, flow))?;
            return Ok(());
        }
        let properties = Properties::none();
        let start = Start {
            place,
            flow,
            properties,
        };
        self.starts.insert(count, start)?;
        Ok(())
    }

    /// Whether the start of this number, if there is one, stands at this place.
    fn is_at(&self, start: usize, place: usize) -> bool
        ensures yes { OnTrue result (IsAt self.now.starts.items start place) }
        ensures no { OnFalse result (IsAt self.now.starts.items start place → ⊥) }
    {
        start < self.starts.len() && self.starts[start].place == place
    }

    /// Puts properties on the first event since a mark, if there is one.
    pub fn dress(&mut self, mark: usize, properties: Properties<'a>)
        ensures { Alters HeldList mark (dressed (props_of properties.entry)) self.old self.new }
    {
        let count = self.starts_before(mark);
        let place = mark - count;
        if self.is_at(count, place) {
            let start = &mut self.starts[count];
            start.properties = properties;
        } else {
            dress(&mut self.events, place, properties);
        }
    }

    /// Takes back what was put down since a mark.
    pub fn cut(&mut self, mark: usize)
        ensures { Alters HeldList mark (λ _. []) self.old self.new }
    {
        let count = self.starts_before(mark);
        self.starts.truncate(count);
        self.events.truncate(mark - count);
    }

    /// The events as one list, each start at its place.
    pub fn settle(self) -> Result<Vec<Event<'a>>, Fault>
        ensures ok { IfOk result (λ events. (log : List PlainEvent) → HeldList self.entry log → map event_of events.items ≡ log) }
        ensures err { IfErr result (λ e. e ≡ OutOfMemory) }
    {
        let EventList {
            mut events,
            mut starts,
        } = self;
        let mut to = events.len();
        widen(&mut events, starts.len())?;
        'placing: while let Some(start) = starts.pop() {
            to = put_start(&mut events, start, to, starts.len());
        }
        Ok(events)
    }
}
