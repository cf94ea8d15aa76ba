//! A stream's events, each with the offset of its own text. An empty node's offset is the end of its properties, or of the
//! indicator that introduces it where it has none; an empty key without properties has the offset of its colon.
ghost use Rattle.std.specs.Prelude.{◌≡◌, ◌⊎◌, ℕ, List, IfOk, IfErr, IfSome, IfNone, Some, slice_get};
ghost use Rattle.std.specs.Bool.{OnTrue, OnFalse};
ghost use Rattle.yaml_definitions.specs.model.Event.{Event as PlainEvent};
ghost use Rattle.yaml_definitions.specs.model.Limits.{open_limit};
ghost use Rattle.yaml_definitions.specs.grammar.Characters.{c-tag};
ghost use Rattle.yaml_definitions.specs.grammar.Nodes.{wide};
ghost use Rattle.yaml_definitions.specs.grammar.Streams.{ReadsText};
ghost use Rattle.yaml_text.specs.LeafAnswer.{IsRefusal};
ghost use Rattle.yaml_text.specs.Placed.{IsPlaced};
ghost use Rattle.yaml_text.specs.Source.{text_of};
ghost use Rattle.yaml_read.specs.Decided.{HasNoReading};
ghost use Rattle.yaml_text.specs.EventModel.{event_of};
ghost use Rattle.review_places.specs.Trace.{TraceHolds, IsTagAt, shape_of};

use std::alloc::{AllocError, Global};
use std::borrow::CowStr;
use yaml_read::read_into;
use yaml_sink::properties::{Given, Properties};
use yaml_sink::sink::{Collection, Keeper, Sink};
use yaml_text::chars::Chars;
use yaml_text::event::{Event, EventTag, Style};
use yaml_text::fault::Fault;

/// What an event does to the nodes that are open.
#[derive(Clone, Copy)]
pub enum Shape {
    Scalar,
    Alias,
    /// A collection begins.
    Opens,
    /// The innermost one ends.
    Closes,
    /// It is none of a node.
    Other,
}

/// What is noted at an event.
#[derive(Clone, Copy)]
pub(crate) enum Note {
    /// The name of an alias or of an anchor: where it is among all names.
    Name { start: u32, end: u32 },
    /// The offset of a tag.
    Tag { at: u32 },
}

/// A note at the event of this number.
#[derive(Clone, Copy)]
pub(crate) struct Noted {
    pub(crate) event: u32,
    /// How many events there were when the note was made.
    seen: u32,
    pub(crate) note: Note,
}

impl Noted {
    ghost use Rattle.review_places.specs.Trace.{IsTagNote};

    /// The offset of a tag, if it was noted for this event and begins there in a text.
    fn tag_of(self, text: &[u8], event: usize) -> Option<usize>
        ensures tag { IfSome result (IsTagNote self text.now event) }
        ensures none { IfNone result ((at : ℕ) → IsTagNote self text.now event at → ⊥) }
    {
        let Note::Tag { at } = self.note else {
            return None;
        };
        if self.event as usize == event && begins_tag(text, at as usize) {
            Some(at as usize)
        } else {
            None
        }
    }
}

/// The events of a stream in order, each with the offset at which its own text begins, which four bytes hold: a text has at most
/// 64 MiB. With them the names of anchors and aliases, and the offsets of tags.
#[derive(Drop)]
pub struct Trace {
    pub events: Vec<(Shape, u32)>,
    /// All names, one behind another.
    names: Vec<u8>,
    /// The notes in the order in which they were made.
    pub(crate) notes: Vec<Noted>,
    /// Whether a note was lost because memory ran out.
    lost: bool,
}

/// The bytes of a stream, and a trace in which its events are those from one up to another.
#[derive(Clone, Copy)]
pub struct Traced<'t> {
    pub bytes: &'t [u8],
    pub trace: &'t Trace,
    pub first: usize,
    pub end: usize,
}

impl<'t> Traced<'t> {
    ghost use Rattle.std.specs.Prelude.{◌≡◌, length};

    /// A stream whose events are all that were traced.
    pub fn whole(bytes: &'t [u8], trace: &'t Trace) -> Traced<'t>
        ensures bytes { result.bytes.now ≡ bytes.now }
        ensures trace { result.trace.now ≡ trace.now }
        ensures first { result.first ≡ 0 }
        ensures all { result.end ≡ length trace.now.events.items }
    {
        Traced {
            bytes,
            trace,
            first: 0,
            end: trace.events.len(),
        }
    }
}

impl Trace {
    ghost use Rattle.std.specs.Prelude.{◌++◌, ◌∷◌, [], length, min, take, option_map};
    ghost use Rattle.std.specs.List.{insert};
    ghost use Rattle.review_places.specs.Trace.{TraceHolds};
    ghost use Rattle.yaml_text.specs.declared.fault.Fault.TheVariants.{OutOfMemory};

    /// No event yet.
    pub fn new(alloc: Global) -> Trace
        ensures { TraceHolds result [] }
    {
        Trace {
            events: Vec::new(alloc),
            names: Vec::new(alloc),
            notes: Vec::new(alloc),
            lost: false,
        }
    }

    /// Makes a note at the event of this number.
    fn put_note(&mut self, event: usize, note: Note) -> Result<(), AllocError>
        ensures events { self.new.events ≡ self.old.events }
    {
        let noted = Noted {
            event: short(event)?,
            seen: short(self.events.len())?,
            note,
        };
        self.notes.push(noted)?;
        Ok(())
    }

    /// Notes the name of an alias, or of an anchor, at the event of this number.
    fn note_name(&mut self, event: usize, name: &str) -> Result<(), AllocError>
        ensures events { self.new.events ≡ self.old.events }
    {
        let start = short(self.names.len())?;
        self.names.extend_from_slice(name.as_bytes())?;
        let end = short(self.names.len())?;
        self.put_note(event, Note::Name { start, end })
    }

    /// Notes the offset of a tag at the event of this number.
    fn note_tag(&mut self, event: usize, at: usize) -> Result<(), AllocError>
        ensures events { self.new.events ≡ self.old.events }
    {
        let at = short(at)?;
        self.put_note(event, Note::Tag { at })
    }

    /// Notes an anchor and a tag, where there are such, at the event of this number. Of the tag `!` nothing is noted.
    fn note_given(&mut self, event: usize, given: &Given<'_>) -> Result<(), AllocError>
        ensures events { self.new.events ≡ self.old.events }
    {
        if let Some(name) = &given.anchor {
            self.note_name(event, name.as_str())?;
        }
        if let EventTag::Full(_) = &given.tag {
            self.note_tag(event, given.offsets.tag)?;
        }
        Ok(())
    }

    /// Notes the properties of the node that begins at this event, if there is such an event.
    fn note_properties(&mut self, event: usize, properties: &Properties<'_>)
        ensures { self.new.events ≡ self.old.events }
    {
        if let Some(given) = &properties.given
            && event < self.events.len()
            && self.note_given(event, given).is_err()
        {
            self.lost = true;
        }
    }

    /// Notes the name that an event bears, whose number is this.
    fn note_event(&mut self, number: usize, event: &Event<'_>) -> Result<(), AllocError>
        ensures events { self.new.events ≡ self.old.events }
    {
        match event {
            Event::Alias { name }
            | Event::Scalar {
                anchor: Some(name),
                ..
            }
            | Event::SequenceStart {
                anchor: Some(name),
                ..
            }
            | Event::MappingStart {
                anchor: Some(name),
                ..
            } => self.note_name(number, name.as_str()),
            _ => Ok(()),
        }
    }

    /// The events behind this one have a number more.
    fn renumber(&mut self, start: usize)
        ensures { self.new.events ≡ self.old.events }
    {
        for noted in self.notes.iter_mut().rev() {
            if noted.seen as usize <= start {
                break;
            }
            if noted.event as usize >= start {
                noted.event = noted.event.saturating_add(1);
            }
        }
    }

    /// The notes that were made since there were so many events are taken back.
    fn forget(&mut self, len: usize)
        ensures { self.new.events ≡ self.old.events }
    {
        for _ in 0..self.notes.len() {
            let Some(noted) = self.notes.last().copied() else {
                break;
            };
            if noted.seen as usize <= len {
                break;
            }
            if let Note::Name { start, .. } = noted.note {
                self.names.truncate(start as usize);
            }
            self.notes.pop();
        }
    }

    /// The name of a note, if it is one of a name.
    pub(crate) fn name(&self, noted: Noted) -> Option<&[u8]> {
        match noted.note {
            Note::Name { start, end } => self.names.get(start as usize..end as usize),
            Note::Tag { .. } => None,
        }
    }

    /// The offset of the tag of the node that an event begins, in the text that was read. It has one there that is not `!` alone.
    pub fn tag_offset(&self, text: &[u8], event: usize) -> Option<usize>
        ensures tag { IfSome result (IsTagAt self.now text.now event) }
        ensures none { IfNone result ((at : ℕ) → IsTagAt self.now text.now event at → ⊥) }
    {
        'notes: for noted in &self.notes {
            if let Some(at) = noted.tag_of(text, event) {
                return Some(at);
            }
        }
        None
    }

    /// Puts an event before that of a place, or at the end.
    fn grow(&mut self, place: usize, shape: Shape, at: usize) -> Result<(), AllocError>
        ensures ok { IfOk result (λ _. self.new.events.items ≡ insert self.old.events.items (min place (length self.old.events.items)) (shape, at)) }
    {
        if self.lost {
            return Err(AllocError);
        }
        let at = short(at)?;
        let place = place.min(self.events.len());
        self.events.insert(place, (shape, at))?;
        self.renumber(place);
        Ok(())
    }

    /// Puts an event behind the others.
    fn put(&mut self, shape: Shape, at: usize) -> Result<(), AllocError>
        ensures ok { IfOk result (λ _. self.new.events.items ≡ self.old.events.items ++ ((shape, at) ∷ [])) }
    {
        if self.lost {
            return Err(AllocError);
        }
        let at = short(at)?;
        self.events.push((shape, at))?;
        Ok(())
    }

    /// Takes back the events from a place on.
    fn shorten(&mut self, len: usize)
        ensures { self.new.events.items ≡ take len self.old.events.items }
    {
        self.events.truncate(len);
        self.forget(len);
    }

    /// The offset of an event's own text.
    pub fn offset(&self, event: usize) -> Option<usize>
        ensures { result ≡ option_map (λ traced. traced.1) (slice_get self.now.events.items event) }
    {
        match self.events.get(event) {
            Some((_, offset)) => Some(*offset as usize),
            None => None,
        }
    }
}

/// An offset in four bytes. One past them, which no text has, is a want of room.
fn short(at: usize) -> Result<u32, AllocError>
    ensures ok { IfOk result (λ n. n ≡ at) }
{
    match u32::try_from(at) {
        Ok(at) => Ok(at),
        Err(_) => Err(AllocError),
    }
}

/// Whether a tag begins at this offset: with `!` (YAML 1.2.2, 6.9.1).
fn begins_tag(text: &[u8], at: usize) -> bool
    ensures tag { OnTrue result (slice_get text.now at ≡ Some c-tag) }
    ensures none { OnFalse result (slice_get text.now at ≡ Some c-tag → ⊥) }
{
    at < text.len() && text[at] == b'!'
}

/// What an event does to the nodes that are open.
fn shape_of(event: &Event<'_>) -> Shape
    ensures { result ≡ shape_of (event_of event.now) }
{
    match event {
        Event::Scalar { .. } => Shape::Scalar,
        Event::Alias { .. } => Shape::Alias,
        Event::SequenceStart { .. } | Event::MappingStart { .. } => Shape::Opens,
        Event::SequenceEnd | Event::MappingEnd => Shape::Closes,
        Event::StreamStart
        | Event::StreamEnd
        | Event::DocumentStart { .. }
        | Event::DocumentEnd { .. } => Shape::Other,
    }
}

impl Keeper for Trace {
    ghost use Rattle.yaml_sink.specs.Held.{Counts, Keeps, Puts, Alters};
    ghost use Rattle.yaml_sink.specs.PropertyRules.{props_of, dressed};
    ghost use Rattle.yaml_text.specs.EventModel.{event_of};
    ghost use Rattle.review_places.specs.Trace.{TraceHolds};

    ghost holds = { TraceHolds };

    fn mark(&self) -> usize {
        self.events.len()
    }

    fn push(&mut self, event: &Event<'_>, at: usize) -> Result<(), Fault> {
        let number = self.events.len();
        self.put(shape_of(event), at)?;
        self.note_event(number, event)?;
        Ok(())
    }

    fn scalar(&mut self, _style: Style, _text: &mut CowStr<'_>, at: usize) -> Result<(), Fault> {
        self.put(Shape::Scalar, at)?;
        Ok(())
    }

    fn begin(&mut self, _collection: Collection, _flow: bool, at: usize) -> Result<(), Fault> {
        self.put(Shape::Opens, at)?;
        Ok(())
    }

    fn end(&mut self, _collection: Collection, at: usize) -> Result<(), Fault> {
        self.put(Shape::Closes, at)?;
        Ok(())
    }

    fn insert(&mut self, start: usize, _flow: bool, at: usize) -> Result<(), Fault> {
        self.grow(start, Shape::Opens, at)?;
        Ok(())
    }

    fn announce(&mut self, _own: &Properties<'_>) {}

    fn dress(&mut self, start: usize, properties: &Properties<'_>) {
        self.note_properties(start, properties);
    }

    fn cut(&mut self, start: usize) {
        self.shorten(start);
    }
}

/// Reads a text once more for the places of its events.
///
/// # Errors
/// `OutOfMemory`; of a text that the reader rejects, the reader's.
pub fn trace_of(alloc: Global, source: &Chars<'_>) -> Result<Trace, Fault>
    ensures ok { IfOk result (λ trace. (es : List PlainEvent) × ReadsText (text_of source.now) wide open_limit es × TraceHolds trace es) }
    ensures err { IfErr result IsRefusal }
    ensures decides { IfErr result (λ e. (e ≡ Fault.OutOfMemory) ⊎ HasNoReading (text_of source.now)) }
    ensures placed { IfErr result (IsPlaced source.now) }
{
    let mut out: Sink<'_, Trace> = Sink::Kept(Trace::new(alloc));
    read_into(alloc, source, &mut out)?;
    match out {
        Sink::Kept(trace) => Ok(trace),
        Sink::Listed(list) => {
            drop(list);
            Err(Fault::OutOfMemory)
        }
        Sink::Both(both) => {
            drop(both);
            Err(Fault::OutOfMemory)
        }
    }
}
