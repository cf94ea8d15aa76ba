//! A keeper of a reader's events that composes them.
ghost use Rattle.std.specs.Prelude.{◌≡◌, Bool, List, [], ◌∷◌, ◌++◌, None, IfOk, IfErr};
ghost use Rattle.std.specs.Cow.{cow_str_bytes};
ghost use Rattle.yaml_definitions.specs.model.Event.{Event as PlainEvent, untagged, scalar_event, alias_event, document_start, mapping_start};
ghost use Rattle.yaml_definitions.specs.model.Serial.{Document, stream_events};
ghost use Rattle.yaml_text.specs.EventModel.{event_of, style_of};
ghost use Rattle.yaml_text.specs.declared.fault.Fault.TheVariants.{OutOfMemory};
ghost use Rattle.yaml_sink.specs.Held.{Keeps, Puts, Alters};
ghost use Rattle.yaml_sink.specs.PropertyRules.{props_of};
ghost use Rattle.yaml_sink.specs.SinkModel.{start_of, end_of};
ghost use Rattle.yaml_tree_builder.specs.Reached.{UnfoldTo, HaveDocuments, all_events};
ghost use Rattle.yaml_tree_builder.specs.BuilderModel.{IsForest, AreForests, AreStreams};
ghost use Rattle.yaml_store_composer.specs.KeeperModel.{Composes, MakesRoom, CountsOn, DressesOne};
ghost use Rattle.yaml_tree.specs.Refused.{RefusesStream};

use crate::event_buffer::{Buffered, EventBuffer};
use crate::pending::{PendingProperties, sum};
use std::alloc::Global;
use std::borrow::CowStr;
use std::mem;
use yaml_sink::properties::Properties;
use yaml_sink::sink::{Collection, Keeper};
use yaml_store::no_memory::NoMemory;
use yaml_text::event::{Event, Style};
use yaml_text::fault::Fault;
use yaml_tree_builder::{Forest, StreamSize};

/// A scalar's text, or an alias's name, of more bytes than this is not copied while it waits.
const LONG: usize = 4096;

/// Where the content of a scalar begins that begins here, if it stands in the text as it is: behind its quote.
fn content_offset(style: Style, at: usize) -> usize {
    match style {
        Style::Single | Style::Double => at.saturating_add(1),
        Style::Plain | Style::Literal | Style::Folded => at,
    }
}

/// A reader's events, composed as they come. Where a node has no tree it goes on counting, and at the end it tells why. Want of
/// memory is its only other answer. It counts on where events are taken back, too, as a reader does just before it rejects a text.
#[derive(Drop)]
pub struct Composing<'s> {
    alloc: Global,
    /// The text of which long contents and properties may be parts.
    lent: &'s str,
    pending: PendingProperties<'s>,
    buffer: EventBuffer<'s>,
    /// The properties of the collection that follows, if they are known: those on its line, or else those on lines above.
    announced: Option<Properties<'s>>,
    /// Those on lines above, where those on its line are known, too.
    above: Option<Properties<'s>>,
    /// How many events are held.
    count: usize,
    /// Whether what is composed no longer counts: memory was refused for properties, or events were taken back.
    is_void: bool,
}

impl<'s> Composing<'s> {
    /// No event yet. Long contents, and properties, may be parts of the text that is lent.
    pub fn new(alloc: Global, lent: &'s str) -> Result<Composing<'s>, NoMemory>
        ensures { IfOk result (λ keeper. Composes keeper []) }
    {
        let pending = PendingProperties::new(alloc, lent)?;
        Ok(Composing {
            alloc,
            lent,
            pending,
            buffer: EventBuffer::new(alloc),
            announced: None,
            above: None,
            count: 0,
            is_void: false,
        })
    }

    /// Composes what waits, and counts one event more.
    fn make_room(&mut self) -> Result<(), NoMemory>
        ensures { IfOk result (λ _. MakesRoom self.old self.new) }
    {
        self.buffer
            .compose(self.alloc, &mut self.pending, self.count)?;
        let count = sum(self.count, 1)?;
        self.count = count;
        Ok(())
    }

    /// Counts one event more, where what is composed no longer counts.
    #[inline(never)]
    fn count_on(&mut self) -> Result<(), Fault>
        ensures ok { IfOk result (λ _. CountsOn self.old self.new) }
        ensures err { IfErr result (λ e. e ≡ OutOfMemory) }
    {
        let count = sum(self.count, 1)?;
        self.count = count;
        self.is_void = true;
        Ok(())
    }

    /// Puts down a scalar without properties.
    fn put_scalar(&mut self, style: Style, text: &str, offset: usize) -> Result<(), NoMemory>
        ensures { IfOk result (λ _. Puts Composes self.old (scalar_event None untagged (style_of style) text.now ∷ []) self.new) }
    {
        self.make_room()?;
        self.announced = None;
        self.buffer
            .put(self.alloc, Buffered::Scalar(style), text, offset)?;
        Ok(())
    }

    /// Puts down a long scalar without properties.
    #[inline(never)]
    fn put_long(
        &mut self,
        style: Style,
        text: &mut CowStr<'_>,
        offset: usize,
    ) -> Result<(), NoMemory>
        ensures { IfOk result (λ _. Puts Composes self.old (scalar_event None untagged (style_of style) (cow_str_bytes text.old) ∷ []) self.new) }
    {
        self.make_room()?;
        self.announced = None;
        self.buffer.put_long(self.alloc, self.lent, Buffered::Scalar(style), text, offset)?;
        Ok(())
    }

    /// Puts down an alias.
    fn put_alias(&mut self, name: &str, offset: usize) -> Result<(), NoMemory>
        ensures { IfOk result (λ _. Puts Composes self.old (alias_event name.now ∷ []) self.new) }
    {
        self.make_room()?;
        self.announced = None;
        if name.len() > LONG {
            let mut text = CowStr::Borrowed(name);
            self.buffer
                .put_long(self.alloc, self.lent, Buffered::Alias, &mut text, offset)?;
            return Ok(());
        }
        self.buffer.put(self.alloc, Buffered::Alias, name, 0)?;
        Ok(())
    }

    /// Puts down the start of a collection without properties.
    fn put_start(&mut self, collection: Collection, flow: bool) -> Result<(), NoMemory>
        ensures { IfOk result (λ _. Puts Composes self.old (start_of collection flow ∷ []) self.new) }
    {
        let at = self.count;
        self.make_room()?;
        let Some(own) = mem::replace(&mut self.announced, None) else {
            self.buffer
                .put(self.alloc, Buffered::Start(collection, flow), "", 0)?;
            return Ok(());
        };
        let Some(outer) = mem::replace(&mut self.above, None) else {
            self.pending.begin_due(self.alloc, collection, at, own)?;
            return Ok(());
        };
        self.pending
            .begin_below(self.alloc, collection, at, own, outer)?;
        Ok(())
    }

    /// Puts down the end of a collection.
    fn put_end(&mut self, collection: Collection) -> Result<(), NoMemory>
        ensures { IfOk result (λ _. Puts Composes self.old (end_of collection ∷ []) self.new) }
    {
        self.make_room()?;
        self.pending.end(collection)?;
        Ok(())
    }

    /// Puts down a document's start.
    fn put_document(&mut self) -> Result<(), NoMemory>
        ensures { IfOk result (λ _. (explicit : Bool) → Puts Composes self.old (document_start explicit ∷ []) self.new) }
    {
        self.make_room()?;
        self.pending.document()?;
        Ok(())
    }

    /// Counts an event of which the builder is not told, behind what is composed.
    fn pass(&mut self) -> Result<(), NoMemory>
        ensures room { IfOk result (λ _. MakesRoom self.old self.new) }
        ensures none { IfOk result (λ _. self.new.pending.ended ≡ None) }
    {
        self.make_room()?;
        self.pending.go_on()?;
        Ok(())
    }

    /// Puts down an event of those that a reader gives as a whole, whose text begins at this offset.
    fn put(&mut self, event: &Event<'_>, at: usize) -> Result<(), NoMemory>
        ensures { IfOk result (λ _. Puts Composes self.old (event_of event.now ∷ []) self.new) }
    {
        match event {
            Event::Alias { name } => self.put_alias(name.as_str(), at.saturating_add(1)),
            Event::DocumentStart { .. } => {
                self.put_document()?;
                Ok(())
            }
            Event::DocumentEnd { .. } => {
                self.pass()?;
                Ok(())
            }
            Event::StreamStart => {
                self.pass()?;
                Ok(())
            }
            Event::StreamEnd => {
                self.pass()?;
                Ok(())
            }
            _ => Err(NoMemory),
        }
    }

    /// Puts a mapping's start before what was put down since a mark: the event that waits, or a collection that just ended.
    fn put_before(&mut self, start: usize, flow: bool) -> Result<(), NoMemory>
        ensures { IfOk result (λ _. Alters Composes start (λ es. mapping_start flow None untagged ∷ es) self.old self.new) }
    {
        let count = sum(self.count, 1)?;
        if self.buffer.is_none() {
            self.pending.precede(self.alloc, start, flow)?;
            self.count = count;
            return Ok(());
        }
        if self.count.saturating_sub(start) != 1 {
            return Err(NoMemory);
        }
        self.buffer.precede(flow)?;
        self.count = count;
        Ok(())
    }

    /// Puts properties on the first event since a mark: on one that waits, or on that of the collection which ended or began last.
    fn put_on(&mut self, start: usize, properties: &Properties<'_>) -> Result<(), NoMemory>
        ensures ok { IfOk result (λ _. DressesOne self.old start (props_of properties.now) self.new) }
        ensures count { self.new.count ≡ self.old.count }
        ensures is_void { self.new.is_void ≡ self.old.is_void }
    {
        if start >= self.count {
            return Ok(());
        }
        if self.buffer.is_none() {
            self.pending.pay(self.alloc, start, properties)?;
            return Ok(());
        }
        let count = self.count - start;
        if self.buffer.stays(count, properties) {
            return Ok(());
        }
        let copy = self.buffer.copy_of(self.alloc, self.lent, properties)?;
        self.buffer.dress(count, copy)?;
        Ok(())
    }

    /// How many documents and nodes a whole stream has. The events of a second one may follow.
    pub fn documents(&mut self) -> Result<StreamSize, Fault>
        ensures count { (ds : List Document) → Composes self.old (stream_events ds) → IfOk result (UnfoldTo ds) }
        ensures streams { (dss : List (List Document)) → Composes self.old (all_events dss) → IfOk result (λ size. HaveDocuments dss size.documents) }
        ensures keeps { IfOk result (λ _. Keeps Composes self.old self.new) }
        ensures refused { (ds : List Document) → Composes self.old (stream_events ds) → IfErr result (RefusesStream ds) }
    {
        if self.is_void {
            return Err(Fault::OutOfMemory);
        }
        self.buffer
            .compose(self.alloc, &mut self.pending, self.count)?;
        let documents = self.pending.documents()?;
        Ok(documents)
    }

    /// The nodes of a whole stream, or of some one behind the other.
    pub fn finish(self) -> Result<Forest<'s>, Fault>
        ensures forest { (ds : List Document) → Composes self.entry (stream_events ds) → IfOk result (IsForest ds) }
        ensures both { (ds es : List Document) → Composes self.entry (stream_events ds ++ stream_events es) → IfOk result (AreForests ds es) }
        ensures streams { (dss : List (List Document)) → Composes self.entry (all_events dss) → IfOk result (AreStreams dss) }
        ensures refused { (ds : List Document) → Composes self.entry (stream_events ds) → IfErr result (RefusesStream ds) }
    {
        let Composing {
            alloc,
            lent: _,
            mut pending,
            mut buffer,
            announced: _,
            above: _,
            count,
            is_void,
        } = self;
        if is_void {
            return Err(Fault::OutOfMemory);
        }
        buffer.compose(alloc, &mut pending, count)?;
        pending.finish()
    }
}

impl Keeper for Composing<'_> {
    ghost use Rattle.yaml_sink.specs.Held.{Counts, Keeps, Puts, Alters};
    ghost use Rattle.yaml_sink.specs.PropertyRules.{props_of, dressed};
    ghost use Rattle.yaml_text.specs.EventModel.{event_of};
    ghost use Rattle.yaml_store_composer.specs.KeeperModel.{Composes};

    ghost holds = { Composes };

    fn mark(&self) -> usize {
        self.count
    }

    #[tactic(auto, using(crate::proofs::KeeperLaws::puts_counted))]
    fn push(&mut self, event: &Event<'_>, at: usize) -> Result<(), Fault> {
        if self.is_void {
            self.count_on()?;
            return Ok(());
        }
        self.put(event, at)?;
        Ok(())
    }

    #[tactic(auto, using(crate::proofs::KeeperLaws::puts_counted))]
    fn scalar(&mut self, style: Style, text: &mut CowStr<'_>, at: usize) -> Result<(), Fault> {
        if self.is_void {
            self.count_on()?;
            return Ok(());
        }
        let offset = content_offset(style, at);
        if text.as_str().len() > LONG {
            self.put_long(style, text, offset)?;
            return Ok(());
        }
        self.put_scalar(style, text.as_str(), offset)?;
        Ok(())
    }

    #[tactic(auto, using(crate::proofs::KeeperLaws::puts_counted))]
    fn begin(&mut self, collection: Collection, flow: bool, _at: usize) -> Result<(), Fault> {
        if self.is_void {
            self.count_on()?;
            return Ok(());
        }
        self.put_start(collection, flow)?;
        Ok(())
    }

    #[tactic(auto, using(crate::proofs::KeeperLaws::puts_counted))]
    fn end(&mut self, collection: Collection, _at: usize) -> Result<(), Fault> {
        if self.is_void {
            self.count_on()?;
            return Ok(());
        }
        self.put_end(collection)?;
        Ok(())
    }

    #[tactic(auto, using(crate::proofs::KeeperLaws::inserts_counted))]
    fn insert(&mut self, start: usize, flow: bool, _at: usize) -> Result<(), Fault> {
        if self.is_void {
            self.count_on()?;
            return Ok(());
        }
        self.put_before(start, flow)?;
        Ok(())
    }

    fn announce(&mut self, own: &Properties<'_>) {
        match self.buffer.copy_of(self.alloc, self.lent, own) {
            Ok(copy) => self.above = mem::replace(&mut self.announced, Some(copy)),
            Err(_) => self.is_void = true,
        }
    }

    fn dress(&mut self, start: usize, properties: &Properties<'_>) {
        let Ok(_) = self.put_on(start, properties) else {
            self.is_void = true;
            return;
        };
    }

    fn cut(&mut self, start: usize) {
        self.is_void = true;
        self.count = self.count.min(start);
    }
}
