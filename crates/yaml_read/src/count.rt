//! A reader's events, counted.
ghost use Rattle.std.specs.Prelude.{◌≡◌, ◌+◌, ◌⊎◌, List, IfOk, IfErr, OnOk, MatchOption};
ghost use Rattle.yaml_definitions.specs.model.Limits.{open_limit};
ghost use Rattle.yaml_definitions.specs.model.Event.{Event as PlainEvent};
ghost use Rattle.yaml_text.specs.EventModel.{event_of};
ghost use Rattle.yaml_text.specs.Source.{text_of};
ghost use Rattle.yaml_text.specs.LeafAnswer.{IsRefusal};
ghost use Rattle.yaml_text.specs.Placed.{IsPlaced};
ghost use Rattle.yaml_definitions.specs.grammar.Streams.{ReadsText};
ghost use Rattle.yaml_definitions.specs.grammar.Nodes.{wide};
ghost use Rattle.yaml_read.specs.Decided.{IsAlone, HasNoReading};
ghost use Rattle.yaml_read.specs.Counts.{content_of, CountHolds, Grows};

use crate::stream::read_into;
use std::alloc::Global;
use std::borrow::CowStr;
use yaml_sink::properties::Properties;
use yaml_sink::sink::{Collection, Keeper, Sink};
use yaml_text::chars::Chars;
use yaml_text::event::{Event, Style};
use yaml_text::fault::Fault;

/// How many events a stream has, and how many bytes the contents of its scalars have, together. The bytes are not known where
/// the reader took something back.
#[derive(Drop)]
pub struct Counter {
    pub events: usize,
    pub bytes: Option<usize>,
}

/// How many bytes an event's content has.
fn content_len(event: &Event<'_>) -> usize
    ensures { result ≡ content_of (event_of event.now) }
{
    match event {
        Event::Scalar { text, .. } => text.as_str().len(),
        _ => 0,
    }
}

/// A sum, where it is a number of the machine.
fn sum(a: usize, b: usize) -> Result<usize, Fault>
    ensures ok { IfOk result (λ n. n ≡ a + b) }
    ensures err { IfErr result (λ e. e ≡ Fault.OutOfMemory) }
{
    match a.checked_add(b) {
        Some(n) => Ok(n),
        None => Err(Fault::OutOfMemory),
    }
}

impl Counter {
    /// Counts one event more, of so many bytes.
    fn grow(&mut self, len: usize) -> Result<(), Fault>
        ensures ok { IfOk result (λ _. Grows self.old len self.new) }
        ensures err { IfErr result (λ e. e ≡ Fault.OutOfMemory) }
    {
        self.events = sum(self.events, 1)?;
        if let Some(bytes) = self.bytes {
            self.bytes = Some(sum(bytes, len)?);
        }
        Ok(())
    }
}

impl Keeper for Counter {
    ghost use Rattle.yaml_sink.specs.Held.{Counts, Keeps, Puts, Alters};
    ghost use Rattle.yaml_sink.specs.PropertyRules.{props_of, dressed};
    ghost use Rattle.yaml_text.specs.EventModel.{event_of};
    ghost use Rattle.yaml_read.specs.Counts.{CountHolds};

    ghost holds = { CountHolds };

    fn mark(&self) -> usize {
        self.events
    }

    fn push(&mut self, event: &Event<'_>, _at: usize) -> Result<(), Fault> {
        self.grow(content_len(event))
    }

    fn scalar(&mut self, _style: Style, text: &mut CowStr<'_>, _at: usize) -> Result<(), Fault> {
        self.grow(text.as_str().len())
    }

    fn begin(&mut self, _collection: Collection, _flow: bool, _at: usize) -> Result<(), Fault> {
        self.grow(0)
    }

    fn end(&mut self, _collection: Collection, _at: usize) -> Result<(), Fault> {
        self.grow(0)
    }

    fn insert(&mut self, _start: usize, _flow: bool, _at: usize) -> Result<(), Fault> {
        self.grow(0)
    }

    fn announce(&mut self, _own: &Properties<'_>) {}

    fn dress(&mut self, _start: usize, _properties: &Properties<'_>) {}

    fn cut(&mut self, start: usize) {
        self.events = start;
        self.bytes = None;
    }
}

/// Counts the events of a stream (9.2) and their contents' bytes, with no list of them.
pub fn count_events(alloc: Global, source: &Chars<'_>) -> Result<Counter, Fault>
    ensures ok { IfOk result (λ count. (es : List PlainEvent) × ReadsText (text_of source.now) wide open_limit es × IsAlone (text_of source.now) es × CountHolds count es) }
    ensures err { IfErr result IsRefusal }
    ensures decides { IfErr result (λ e. (e ≡ Fault.OutOfMemory) ⊎ HasNoReading (text_of source.now)) }
    ensures placed { IfErr result (IsPlaced source.now) }
{
    let mut out: Sink<'_, Counter> = Sink::Kept(Counter {
        events: 0,
        bytes: Some(0),
    });
    read_into(alloc, source, &mut out)?;
    match out {
        Sink::Kept(counter) => Ok(counter),
        Sink::Listed(_) | Sink::Both(_) => Err(Fault::OutOfMemory),
    }
}
