//! Events that are copied, so that a graph may keep their texts.
ghost use Rattle.std.specs.Prelude.{◌≡◌, map, IfOk, IfErr};
ghost use Rattle.std.specs.Cow.{cow_str_bytes};
ghost use Rattle.std.specs.Option.{option_map};
ghost use Rattle.yaml_text.specs.EventModel.{written_of, event_of};

use std::alloc::{AllocError, Global};
use std::borrow::CowStr;
use yaml_text::event::{Event, EventTag};

/// A text of an event: lent where the event lends it, else copied.
fn copied_text<'s>(alloc: Global, text: &CowStr<'s>) -> Result<CowStr<'s>, AllocError>
    ensures { IfOk result (λ copy. cow_str_bytes copy ≡ cow_str_bytes text.now) }
{
    match text {
        CowStr::Borrowed(text) => Ok(CowStr::Borrowed(text)),
        CowStr::Owned(text) => Ok(CowStr::Owned(String::from_str(alloc, text.as_str())?)),
    }
}

fn copied_tag<'s>(alloc: Global, tag: &EventTag<'s>) -> Result<EventTag<'s>, AllocError>
    ensures { IfOk result (λ copy. written_of copy ≡ written_of tag.now) }
{
    match tag {
        EventTag::None => Ok(EventTag::None),
        EventTag::NonSpecific => Ok(EventTag::NonSpecific),
        EventTag::Full(tag) => Ok(EventTag::Full(copied_text(alloc, tag)?)),
    }
}

fn copied_anchor<'s>(
    alloc: Global,
    anchor: &Option<CowStr<'s>>,
) -> Result<Option<CowStr<'s>>, AllocError>
    ensures { IfOk result (λ copy. option_map cow_str_bytes copy ≡ option_map cow_str_bytes anchor.now) }
{
    match anchor {
        None => Ok(None),
        Some(name) => Ok(Some(copied_text(alloc, name)?)),
    }
}

/// An event as this one.
fn copied<'s>(alloc: Global, event: &Event<'s>) -> Result<Event<'s>, AllocError>
    ensures { IfOk result (λ copy. event_of copy ≡ event_of event.now) }
{
    match event {
        Event::StreamStart => Ok(Event::StreamStart),
        Event::StreamEnd => Ok(Event::StreamEnd),
        Event::DocumentStart { explicit } => Ok(Event::DocumentStart {
            explicit: *explicit,
        }),
        Event::DocumentEnd { explicit } => Ok(Event::DocumentEnd {
            explicit: *explicit,
        }),
        Event::SequenceStart { flow, anchor, tag } => Ok(Event::SequenceStart {
            flow: *flow,
            anchor: copied_anchor(alloc, anchor)?,
            tag: copied_tag(alloc, tag)?,
        }),
        Event::SequenceEnd => Ok(Event::SequenceEnd),
        Event::MappingStart { flow, anchor, tag } => Ok(Event::MappingStart {
            flow: *flow,
            anchor: copied_anchor(alloc, anchor)?,
            tag: copied_tag(alloc, tag)?,
        }),
        Event::MappingEnd => Ok(Event::MappingEnd),
        Event::Scalar {
            anchor,
            tag,
            style,
            text,
        } => Ok(Event::Scalar {
            anchor: copied_anchor(alloc, anchor)?,
            tag: copied_tag(alloc, tag)?,
            style: *style,
            text: copied_text(alloc, text)?,
        }),
        Event::Alias { name } => Ok(Event::Alias {
            name: copied_text(alloc, name)?,
        }),
    }
}

/// Events as these, in order.
pub fn copies<'s>(alloc: Global, events: &[Event<'s>]) -> Result<Vec<Event<'s>>, AllocError>
    ensures { IfOk result (λ copies. map event_of copies.items ≡ map event_of events.now) }
{
    let mut copies = Vec::with_capacity(alloc, events.len())?;
    for event in events {
        copies.push(copied(alloc, event)?)?;
    }
    Ok(copies)
}
