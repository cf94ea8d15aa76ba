//! Paths of events, where no graph is made.
ghost use Rattle.std.specs.Prelude.{◌≡◌, ◌++◌, [], codes, map, find, reverse, slice_get, option_map, string_bytes, IfOk, OnOk};
ghost use Rattle.std.specs.Fmt.{decimal};
ghost use Rattle.yaml_definitions.specs.model.Core.{resolve};
ghost use Rattle.yaml_text.specs.EventModel.{event_of, written_of, style_of};
ghost use Rattle.review_places.specs.Trails.{documents_before, documents_after, open_frames, begun_in, opened, frames_after, untold, resolved_step, key_step, has_part, is_key, frame_step, begins_document, is_numbered, number_text, steps_text, or_dot, path_of};

use review_text::text::{put_all, put_scalar_key};
use std::alloc::{AllocError, Global};
use yaml_core::CoreFault;
use yaml_core::scalar::resolve;
use yaml_text::event::{Event, EventTag, Style};

/// A collection that is open.
#[derive(Clone, Copy)]
pub struct Frame {
    /// The number of its event.
    pub event: usize,
    is_mapping: bool,
    /// How many parts began in it.
    parts: usize,
    /// The event of the last part that began.
    last: usize,
    /// The event of the key before that, where the last part is a value.
    key: usize,
}

impl Frame {
    ghost use Rattle.std.specs.Prelude.{◌≡◌};
    ghost use Rattle.review_places.specs.Trails.{key_event};

    /// The event of the key that began last in a mapping.
    fn key_event(&self) -> usize
        ensures { result ≡ key_event self.now }
    {
        if self.parts % 2 == 1 {
            self.last
        } else {
            self.key
        }
    }
}

/// The collections that are open at an event, and the number of its document.
#[derive(Drop)]
pub struct Trail {
    document: usize,
    frames: Vec<Frame>,
}

impl Trail {
    /// No document yet.
    pub fn new(alloc: Global) -> Trail
        ensures document { documents_before result ≡ 0 }
        ensures none { open_frames result ≡ [] }
    {
        Trail {
            document: 0,
            frames: Vec::new(alloc),
        }
    }

    /// A node begins at the event of this number.
    fn begin(&mut self, at: usize)
        ensures document { documents_before self.new ≡ documents_before self.old }
        ensures frames { open_frames self.new ≡ begun_in at (open_frames self.old) }
    {
        if let Some(frame) = self.frames.last_mut() {
            frame.key = frame.last;
            frame.last = at;
            frame.parts = frame.parts.saturating_add(1);
        }
    }

    fn open(&mut self, at: usize, is_mapping: bool) -> Result<(), AllocError>
        ensures document { documents_before self.new ≡ documents_before self.old }
        ensures frames { IfOk result (λ _. open_frames self.new ≡ opened at is_mapping (open_frames self.old)) }
    {
        self.begin(at);
        self.frames.push(Frame {
            event: at,
            is_mapping,
            parts: 0,
            last: at,
            key: at,
        })?;
        Ok(())
    }

    /// Takes the event of this number.
    ///
    /// # Errors
    /// `OutOfMemory`
    pub fn take(&mut self, at: usize, event: &Event<'_>) -> Result<(), AllocError>
        ensures document { IfOk result (λ _. documents_before self.new ≡ documents_after (event_of event.now) (documents_before self.old)) }
        ensures frames { IfOk result (λ _. open_frames self.new ≡ frames_after at (event_of event.now) (open_frames self.old)) }
    {
        match event {
            Event::SequenceStart { .. } => self.open(at, false)?,
            Event::MappingStart { .. } => self.open(at, true)?,
            Event::Scalar { .. } | Event::Alias { .. } => self.begin(at),
            Event::SequenceEnd | Event::MappingEnd => {
                self.frames.pop();
            }
            Event::DocumentEnd { .. } => self.document = self.document.saturating_add(1),
            Event::StreamStart | Event::StreamEnd | Event::DocumentStart { .. } => {}
        }
        Ok(())
    }

    /// The innermost open collection in which a part began. A collection without parts is the node itself.
    pub fn innermost(&self) -> Option<&Frame>
        ensures { option_map (λ frame. frame.now) result ≡ find has_part (reverse (open_frames self.now)) }
    {
        self.frames.iter().rev().find(|frame| frame.parts > 0)
    }

    /// Whether the node that began last is a key.
    pub fn is_at_key(&self) -> bool
        ensures { result ≡ is_key (find has_part (reverse (open_frames self.now))) }
    {
        match self.innermost() {
            Some(frame) => frame.is_mapping && frame.parts % 2 == 1,
            None => false,
        }
    }

    /// The number of the document, unless it is the only one.
    fn put_number(&self, out: &mut String, events: &[Event<'_>]) -> Result<(), AllocError>
        ensures ok { OnOk result (string_bytes out.new ≡ string_bytes out.old ++ number_text (map event_of events.now) (documents_before self.now)) }
    {
        if is_numbered(events) {
            let number = self.document;
            write!(out, "{number}")?;
        }
        Ok(())
    }

    /// The steps from the document to the node that began last.
    fn put_steps(
        &self,
        alloc: Global,
        out: &mut String,
        events: &[Event<'_>],
    ) -> Result<(), AllocError>
        ensures ok { OnOk result (string_bytes out.new ≡ string_bytes out.old ++ steps_text (map event_of events.now) (open_frames self.now)) }
    {
        'frames: for frame in &self.frames {
            put_frame(alloc, out, frame, events)?;
        }
        Ok(())
    }

    /// The path of the node that began last, in the stream of these events: the number of the document, unless it is the only one, and
    /// then the steps. The only document is `.`. The path of a key is that of its value, and a key that is no scalar is shown as `[?]`.
    ///
    /// # Errors
    /// `OutOfMemory`
    pub fn path(&self, alloc: Global, events: &[Event<'_>]) -> Result<String, AllocError>
        ensures ok { IfOk result (λ path. string_bytes path ≡ path_of self.now (map event_of events.now)) }
    {
        let mut text = String::new(alloc);
        self.put_number(&mut text, events)?;
        self.put_steps(alloc, &mut text, events)?;
        or_dot(text)
    }
}

/// The same text, or a dot for none.
fn or_dot(mut text: String) -> Result<String, AllocError>
    ensures ok { IfOk result (λ path. string_bytes path ≡ or_dot (string_bytes text)) }
{
    if text.is_empty() {
        text.push('.')?;
    }
    Ok(text)
}

/// Whether a document begins.
fn begins_document(event: &Event<'_>) -> bool
    ensures { result ≡ begins_document (event_of event.now) }
{
    matches!(event, Event::DocumentStart { .. })
}

/// Whether paths tell the number of the document: unless the stream has one document.
fn is_numbered(events: &[Event<'_>]) -> bool
    ensures { result ≡ is_numbered (map event_of events.now) }
{
    events.iter().filter(|event| begins_document(event)).count() != 1
}

/// The event of this number.
fn event_at<'e, 'a>(events: &'e [Event<'a>], number: usize) -> Option<&'e Event<'a>>
    ensures { option_map (λ event. event_of event.now) result ≡ slice_get (map event_of events.now) number }
{
    events.get(number)
}

/// The step from a collection to the part that began last, if one began.
fn put_frame(
    alloc: Global,
    out: &mut String,
    frame: &Frame,
    events: &[Event<'_>],
) -> Result<(), AllocError>
    ensures ok { OnOk result (string_bytes out.new ≡ string_bytes out.old ++ frame_step (map event_of events.now) frame.now) }
{
    if frame.parts == 0 {
        return Ok(());
    }
    if frame.is_mapping {
        put_key(alloc, out, event_at(events, frame.key_event()))
    } else {
        put_item(out, frame.parts.saturating_sub(1))
    }
}

/// The step to the item at a place.
fn put_item(out: &mut String, place: usize) -> Result<(), AllocError>
    ensures ok { OnOk result (string_bytes out.new ≡ string_bytes out.old ++ (codes "[" ++ (decimal place ++ codes "]"))) }
{
    write!(out, "[{place}]")?;
    Ok(())
}

/// The step to the value of the key that this event begins.
fn put_key(alloc: Global, out: &mut String, event: Option<&Event<'_>>) -> Result<(), AllocError>
    ensures ok { OnOk result (string_bytes out.new ≡ string_bytes out.old ++ key_step (option_map (λ e. event_of e.now) event.entry)) }
{
    match event {
        Some(
            Event::Scalar {
                tag,
                style,
                text,
                ..
            },
        ) => put_scalar_step(alloc, out, tag, *style, text.as_str()),
        Some(Event::Alias { name }) => put_all(out, &["[*", name.as_str(), "]"]),
        _ => put_untold(out),
    }
}

/// The step of a key that is not told.
fn put_untold(out: &mut String) -> Result<(), AllocError>
    ensures ok { OnOk result (string_bytes out.new ≡ string_bytes out.old ++ untold) }
{
    Ok(out.push_str("[?]")?)
}

/// The step to the value of a key that is a scalar.
fn put_scalar_step(
    alloc: Global,
    out: &mut String,
    tag: &EventTag<'_>,
    style: Style,
    text: &str,
) -> Result<(), AllocError>
    ensures ok { OnOk result (string_bytes out.new ≡ string_bytes out.old ++ resolved_step (resolve (written_of tag.now) (style_of style) text.now)) }
{
    match resolve(alloc, tag, style, text) {
        Ok(scalar) => put_scalar_key(alloc, out, scalar.tag.as_str(), scalar.content.as_str()),
        Err(CoreFault::OutOfMemory) => Err(AllocError),
        Err(_) => put_untold(out),
    }
}
