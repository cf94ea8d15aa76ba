//! A reader's events as the lines of their text.
ghost use Rattle.std.specs.Prelude.{◌≡◌, ◌++◌, ◌∷◌, ◌⊎◌, [], List, length, get_or, Err, IsOk, IfSome, IfOk, IfErr, OnOk};
ghost use Rattle.std.specs.String.{string_bytes};
ghost use Rattle.yaml_definitions.specs.model.Limits.{open_limit};
ghost use Rattle.yaml_definitions.specs.model.Event.{Event as PlainEvent};
ghost use Rattle.yaml_definitions.specs.model.EventText.{event_line, events_text};
ghost use Rattle.yaml_definitions.specs.grammar.Streams.{ReadsText};
ghost use Rattle.yaml_definitions.specs.grammar.Nodes.{wide};
ghost use Rattle.yaml_text.specs.Source.{text_of};
ghost use Rattle.yaml_text.specs.LeafAnswer.{IsRefusal};
ghost use Rattle.yaml_text.specs.Placed.{IsPlaced};
ghost use Rattle.yaml_text.specs.declared.fault.Fault.TheVariants.{OutOfMemory};
ghost use Rattle.yaml_sink.specs.PropertyRules.{props_of};
ghost use Rattle.yaml_sink.specs.SinkModel.{start_of, end_of};
ghost use Rattle.yaml_read.specs.Decided.{IsAlone, HasNoReading};
ghost use Rattle.yaml_definitions.specs.grammar.Characters.{b-line-feed};
ghost use Rattle.yaml_event_text.specs.LinesHeld.{LinesHold, Begins, Grows, Inserts, Fills, Gives, IsBeside, DressesLine};
ghost use Rattle.yaml_event_text.specs.Slots.{props_text};

use crate::slot::{Slot, slot_in};
use crate::starts::{move_behind, move_from};
use std::alloc::{AllocError, Global};
use std::borrow::CowStr;
use yaml_events::{push_line, push_properties, push_scalar_line};
use yaml_read::read_into;
use yaml_sink::properties::Properties;
use yaml_sink::sink::{Collection, Keeper, Sink};
use yaml_text::chars::Chars;
use yaml_text::event::{Event, Style};
use yaml_text::fault::Fault;

/// The lines of events, one after the other.
#[derive(Drop)]
pub struct Lines {
    text: String,
    /// The offset at which each line begins.
    starts: Vec<usize>,
    /// The properties that were put into a line last.
    given: String,
    /// How many bytes more may be put into lines for properties, or be moved for them.
    spare: usize,
    /// Whether a line could not be given its properties: then the text is of no use.
    failed: bool,
}

/// How many bytes may be put into the lines of a text of so many, or be moved in them, for properties. A tag of a few bytes may
/// stand for a thousand, and a flow collection moves when it is read, once for each that it stands in: lines that want more are
/// not worth their room or their time.
fn spare_of(len: usize) -> usize {
    len.saturating_mul(16).saturating_add(4096)
}

/// The line of a collection's start, without properties and with its LF.
#[tactic(auto, unfolding(yaml_definitions::specs::model::EventText::event_line))]
fn start_line(collection: Collection, flow: bool) -> &'static str
    ensures { result.now ≡ event_line (start_of collection flow) ++ (b-line-feed ∷ []) }
{
    match (collection, flow) {
        (Collection::Sequence, false) => "+SEQ\n",
        (Collection::Sequence, true) => "+SEQ []\n",
        (Collection::Mapping, false) => "+MAP\n",
        (Collection::Mapping, true) => "+MAP {}\n",
    }
}

/// The line of a collection's end, with its LF.
#[tactic(auto, unfolding(yaml_definitions::specs::model::EventText::event_line))]
fn end_line(collection: Collection) -> &'static str
    ensures { result.now ≡ event_line (end_of collection) ++ (b-line-feed ∷ []) }
{
    match collection {
        Collection::Sequence => "-SEQ\n",
        Collection::Mapping => "-MAP\n",
    }
}

impl Lines {
    /// No line yet, of a text of so many bytes.
    fn new(alloc: Global, len: usize) -> Lines
        ensures { LinesHold result [] }
    {
        Lines {
            text: String::new(alloc),
            starts: Vec::new(alloc),
            given: String::new(alloc),
            spare: spare_of(len),
            failed: false,
        }
    }

    /// Notes that a line begins at the text's end.
    fn begin_line(&mut self) -> Result<(), AllocError>
        ensures ok { OnOk result (Begins self.old self.new) }
    {
        if self.failed {
            return Err(AllocError);
        }
        self.starts.push(self.text.as_str().len())?;
        Ok(())
    }

    /// Puts a line at the text's end.
    fn put(&mut self, line: &str) -> Result<(), AllocError>
        ensures ok { OnOk result (Grows self.old line.now self.new) }
    {
        self.begin_line()?;
        self.text.push_str(line)?;
        Ok(())
    }

    /// The offset of an event's line, and behind the last that of the text's end.
    fn offset(&self, event: usize) -> usize
        ensures { result ≡ get_or self.now.starts.items event (length (string_bytes self.now.text)) }
    {
        match self.starts.get(event) {
            Some(at) => *at,
            None => self.text.as_str().len(),
        }
    }

    /// Puts a piece into the text.
    fn put_in(&mut self, at: usize, piece: &str) -> Result<(), AllocError>
        ensures ok { OnOk result (Fills self.old at piece.now self.new) }
        ensures starts { self.new.starts ≡ self.old.starts }
    {
        if !self.text.is_char_boundary(at) {
            return Err(AllocError);
        }
        self.text.insert_str(at, piece)?;
        Ok(())
    }

    /// Puts a line before an event's.
    fn put_before(&mut self, event: usize, line: &str) -> Result<(), AllocError>
        ensures ok { OnOk result (Inserts self.old event line.now self.new) }
    {
        if event > self.starts.len() {
            return Err(AllocError);
        }
        let at = self.offset(event);
        self.put_in(at, line)?;
        move_from(&mut self.starts, event, line.len())?;
        self.starts.insert(event, at)?;
        Ok(())
    }

    /// Notes properties as a line has them.
    fn spell(&mut self, properties: &Properties<'_>) -> Result<(), AllocError>
        ensures ok { OnOk result (string_bytes self.new.given ≡ props_text (props_of properties.now)) }
        ensures beside { IsBeside self.old self.new }
    {
        self.given.clear();
        if let Some(given) = &properties.given {
            push_properties(&given.anchor, &given.tag, &mut self.given)?;
        }
        Ok(())
    }

    /// Takes bytes from those to spare, if there are so many.
    fn spend(&mut self, bytes: usize) -> Result<(), AllocError>
        ensures beside { IsBeside self.old self.new }
        ensures given { self.new.given ≡ self.old.given }
    {
        match self.spare.checked_sub(bytes) {
            Some(left) => {
                self.spare = left;
                Ok(())
            }
            None => Err(AllocError),
        }
    }

    /// Puts the properties that were noted into an event's line, which has its place for them here.
    fn give(&mut self, event: usize, at: usize) -> Result<(), AllocError>
        ensures ok { OnOk result (Gives self.old event at self.new) }
        ensures count { length self.new.starts.items ≡ length self.old.starts.items }
    {
        let len = self.given.as_str().len();
        let behind = self.text.as_str().len().saturating_sub(at);
        self.spend(len.saturating_add(behind))?;
        if !self.text.is_char_boundary(at) {
            return Err(AllocError);
        }
        self.text.insert_str(at, self.given.as_str())?;
        move_behind(&mut self.starts, event, len)
    }

    /// Puts properties on an event that has none.
    fn dress_line(&mut self, event: usize, properties: &Properties<'_>) -> Result<(), AllocError>
        ensures ok { OnOk result (DressesLine self.old event (props_of properties.now) self.new) }
        ensures count { length self.new.starts.items ≡ length self.old.starts.items }
    {
        if event >= self.starts.len() {
            return Ok(());
        }
        let at = self.offset(event);
        match slot_in(self.text.as_bytes(), at) {
            Slot::Closed => Ok(()),
            Slot::Taken => Err(AllocError),
            Slot::Behind(place) => {
                if properties.is_none() {
                    return Ok(());
                }
                self.spell(properties)?;
                self.give(event, place)
            }
        }
    }

    /// The whole text, if it is of use, after a reading. Where it is of none, want of memory is no refusal.
    fn answer(self, read: Result<(), Fault>) -> Result<Option<String>, Fault>
        ensures ok { IfOk result (λ lines. IfSome lines (λ text. IsOk read × ((log : List PlainEvent) → LinesHold self log → string_bytes text ≡ events_text log))) }
        ensures err { IfErr result (λ e. read ≡ Err e) }
    {
        let Lines { text, failed, .. } = self;
        match read {
            Ok(()) if failed => Ok(None),
            Ok(()) => Ok(Some(text)),
            Err(Fault::OutOfMemory) if failed => Ok(None),
            Err(fault) => Err(fault),
        }
    }
}

impl Keeper for Lines {
    ghost use Rattle.yaml_sink.specs.Held.{Counts, Keeps, Puts, Alters};
    ghost use Rattle.yaml_sink.specs.PropertyRules.{props_of, dressed};
    ghost use Rattle.yaml_text.specs.EventModel.{event_of};
    ghost use Rattle.yaml_event_text.specs.LinesHeld.{LinesHold};

    ghost holds = { LinesHold };

    fn mark(&self) -> usize {
        self.starts.len()
    }

    fn push(&mut self, event: &Event<'_>, _at: usize) -> Result<(), Fault> {
        self.begin_line()?;
        push_line(event, &mut self.text)?;
        Ok(())
    }

    fn scalar(&mut self, style: Style, text: &mut CowStr<'_>, _at: usize) -> Result<(), Fault> {
        self.begin_line()?;
        push_scalar_line(style, text.as_str(), &mut self.text)?;
        Ok(())
    }

    fn begin(&mut self, collection: Collection, flow: bool, _at: usize) -> Result<(), Fault> {
        self.put(start_line(collection, flow))?;
        Ok(())
    }

    fn end(&mut self, collection: Collection, _at: usize) -> Result<(), Fault> {
        self.put(end_line(collection))?;
        Ok(())
    }

    fn insert(&mut self, start: usize, flow: bool, _at: usize) -> Result<(), Fault> {
        self.put_before(start, start_line(Collection::Mapping, flow))?;
        Ok(())
    }

    fn announce(&mut self, _own: &Properties<'_>) {}

    fn dress(&mut self, start: usize, properties: &Properties<'_>) {
        if self.dress_line(start, properties).is_err() {
            self.failed = true;
        }
    }

    fn cut(&mut self, start: usize) {
        let at = self.offset(start);
        if self.text.is_char_boundary(at) {
            self.text.truncate(at);
        } else {
            self.failed = true;
        }
        self.starts.truncate(start);
    }
}

/// The event text of a text: a line for each event of the one list that the productions give it, as `yaml_events` writes them.
/// The lines are written as the events are read, with no list of these. What `yaml_read::read_events` refuses is refused so.
///
/// `None` where lines could not be given their properties: there was no memory for these, or they are more, or move more, than
/// 16 bytes for each of the text. `read_events` then tells more.
pub fn event_lines(alloc: Global, source: &Chars<'_>) -> Result<Option<String>, Fault>
    ensures ok { IfOk result (λ lines. IfSome lines (λ text. (es : List PlainEvent) × ReadsText (text_of source.now) wide open_limit es × IsAlone (text_of source.now) es × (string_bytes text ≡ events_text es))) }
    ensures err { IfErr result IsRefusal }
    ensures decides { IfErr result (λ e. (e ≡ OutOfMemory) ⊎ HasNoReading (text_of source.now)) }
    ensures placed { IfErr result (IsPlaced source.now) }
{
    let mut out: Sink<'_, Lines> = Sink::Kept(Lines::new(alloc, source.end()));
    let read = read_into(alloc, source, &mut out);
    match out {
        Sink::Kept(lines) => lines.answer(read),
        Sink::Listed(list) => {
            drop(list);
            Err(Fault::OutOfMemory)
        }
        Sink::Both(both) => {
            drop(both);
            Err(Fault::OutOfMemory)
        }
    }
}
