//! The properties of a node, an anchor and a tag, and how events bear them (YAML 1.2.2, 6.9).
ghost use Rattle.std.specs.Prelude.{◌≡◌, ◌≢◌, IfOk, IfErr, None};
ghost use Rattle.std.specs.Bool.{OnTrue, OnFalse};
ghost use Rattle.std.specs.Cow.{cow_str_bytes};
ghost use Rattle.std.specs.Option.{option_map};
ghost use Rattle.yaml_definitions.specs.model.Event.{untagged};
ghost use Rattle.yaml_text.specs.EventModel.{event_of, written_of};
ghost use Rattle.yaml_definitions.specs.grammar.Events.{no_props};
ghost use Rattle.yaml_text.specs.declared.fault.Fault.TheVariants.{OutOfMemory};
ghost use Rattle.std.specs.Box.{box_value};
ghost use Rattle.yaml_sink.specs.PropertyRules.{props_of, props_in, both_props, with_props, Dresses, Disjoint};

use std::alloc::Global;
use std::borrow::CowStr;
use std::mem;
use yaml_text::event::{Event, EventTag};
use yaml_text::fault::Fault;

/// Whether there is neither an anchor nor a tag.
fn is_absent(anchor: &Option<CowStr<'_>>, tag: &EventTag<'_>) -> bool
    ensures yes { OnTrue result ((option_map cow_str_bytes anchor.now ≡ None) × (written_of tag.now ≡ untagged)) }
    ensures no { OnFalse result ((option_map cow_str_bytes anchor.now ≡ None) × (written_of tag.now ≡ untagged) → ⊥) }
{
    match (anchor, tag) {
        (None, EventTag::None) => true,
        _ => false,
    }
}

/// Where an anchor's name and a tag may stand as they are in the text that is read. Who uses it compares.
#[derive(Clone, Copy)]
pub struct Offsets {
    pub anchor: usize,
    pub tag: usize,
}

/// An anchor and a tag, of which one may be absent.
#[derive(Drop)]
pub struct Given<'a> {
    pub anchor: Option<CowStr<'a>>,
    pub tag: EventTag<'a>,
    pub offsets: Offsets,
}

/// A node's anchor and tag. Most nodes have neither, so they stand behind a pointer where there are any.
#[derive(Drop)]
pub struct Properties<'a> {
    pub given: Option<Box<Given<'a>>>,
}

impl<'a> Properties<'a> {
    /// Neither an anchor nor a tag.
    pub fn none() -> Properties<'a>
        ensures { props_of result ≡ no_props }
    {
        Properties { given: None }
    }

    /// Whether there is neither an anchor nor a tag.
    pub fn is_none(&self) -> bool
        ensures yes { OnTrue result (props_of self.now ≡ no_props) }
        ensures no { OnFalse result (props_of self.now ≢ no_props) }
    {
        match &self.given {
            None => true,
            Some(given) => is_absent(&given.anchor, &given.tag),
        }
    }

    /// Whether both have an anchor or both have a tag.
    pub fn overlaps(&self, other: &Properties<'a>) -> bool
        ensures yes { OnTrue result (Disjoint (props_of self.now) (props_of other.now) → ⊥) }
        ensures no { OnFalse result (Disjoint (props_of self.now) (props_of other.now)) }
    {
        match (&self.given, &other.given) {
            (Some(one), Some(two)) => share(one, two),
            _ => false,
        }
    }

    /// These and a node's own properties.
    pub fn and(self, own: Properties<'a>) -> Properties<'a>
        ensures { props_of result ≡ both_props (props_of self.entry) (props_of own.entry) }
    {
        match (self.given, own.given) {
            (None, given) => Properties { given },
            (given, None) => Properties { given },
            (Some(one), Some(two)) => Properties {
                given: Some(join(one, two)),
            },
        }
    }

    /// The anchor and the tag.
    pub fn parts(self) -> (Option<CowStr<'a>>, EventTag<'a>)
        ensures anchor { option_map cow_str_bytes result.0 ≡ (props_of self.entry).anchor }
        ensures tag { written_of result.1 ≡ (props_of self.entry).tag }
    {
        match self.given {
            None => (None, EventTag::None),
            Some(given) => {
                let Given { anchor, tag, .. } = Box::into_inner(given);
                (anchor, tag)
            }
        }
    }
}

/// Whether both have an anchor or both have a tag.
fn share(one: &Given<'_>, two: &Given<'_>) -> bool
    ensures yes { OnTrue result (Disjoint (props_in one.now) (props_in two.now) → ⊥) }
    ensures no { OnFalse result (Disjoint (props_in one.now) (props_in two.now)) }
{
    match (&one.anchor, &two.anchor) {
        (Some(_), Some(_)) => true,
        _ => match (&one.tag, &two.tag) {
            (EventTag::None, _) => false,
            (_, EventTag::None) => false,
            _ => true,
        },
    }
}

/// Both together, in the place of the node's own.
#[inline(never)]
fn join<'a>(outer: Box<Given<'a>>, own: Box<Given<'a>>) -> Box<Given<'a>>
    ensures { props_in (box_value result) ≡ both_props (props_in (box_value outer.entry)) (props_in (box_value own.entry)) }
{
    let mut both = own;
    let Given {
        anchor,
        tag,
        offsets,
    } = Box::into_inner(outer);
    if both.anchor.is_none() {
        both.anchor = anchor;
        both.offsets.anchor = offsets.anchor;
    }
    if let EventTag::None = both.tag {
        both.tag = tag;
        both.offsets.tag = offsets.tag;
    }
    both
}

/// An anchor and a tag that were read, which stand at these places.
#[inline(never)]
pub fn hold<'a>(
    alloc: Global,
    anchor: Option<CowStr<'a>>,
    tag: EventTag<'a>,
    offsets: Offsets,
) -> Result<Properties<'a>, Fault>
    ensures ok { IfOk result (λ p. props_of p ≡ record { anchor = option_map cow_str_bytes anchor.entry; tag = written_of tag.entry }) }
    ensures err { IfErr result (λ e. e ≡ OutOfMemory) }
{
    let held = Box::new(
        alloc,
        Given {
            anchor,
            tag,
            offsets,
        },
    )?;
    Ok(Properties { given: Some(held) })
}

/// An event with these properties in place of its own.
fn with_properties<'a>(event: Event<'a>, properties: Properties<'a>) -> Event<'a>
    ensures { event_of result ≡ with_props (props_of properties.entry) (event_of event.entry) }
{
    let (anchor, tag) = properties.parts();
    match event {
        Event::Scalar { style, text, .. } => Event::Scalar {
            anchor,
            tag,
            style,
            text,
        },
        Event::SequenceStart { flow, .. } => Event::SequenceStart { flow, anchor, tag },
        Event::MappingStart { flow, .. } => Event::MappingStart { flow, anchor, tag },
        Event::Alias { name } => Event::Alias { name },
        Event::StreamStart => Event::StreamStart,
        Event::StreamEnd => Event::StreamEnd,
        Event::DocumentStart { explicit } => Event::DocumentStart { explicit },
        Event::DocumentEnd { explicit } => Event::DocumentEnd { explicit },
        Event::SequenceEnd => Event::SequenceEnd,
        Event::MappingEnd => Event::MappingEnd,
    }
}

/// Whether an event has neither an anchor nor a tag, but could.
fn is_bare(event: &Event<'_>) -> bool
    ensures { OnTrue result (with_props no_props (event_of event.now) ≡ event_of event.now) }
{
    match event {
        Event::Scalar { anchor, tag, .. } => is_absent(anchor, tag),
        Event::SequenceStart { anchor, tag, .. } => is_absent(anchor, tag),
        Event::MappingStart { anchor, tag, .. } => is_absent(anchor, tag),
        _ => false,
    }
}

/// Whether an event stays as it is where it gets these properties: none, as most nodes have.
fn stays(event: &Event<'_>, properties: &Properties<'_>) -> bool
    ensures { OnTrue result (with_props (props_of properties.now) (event_of event.now) ≡ event_of event.now) }
{
    properties.is_none() && is_bare(event)
}

/// Puts properties on the first event of a node, which stands at `start`. An event that stays as it is
/// is not moved.
pub fn dress<'a>(out: &mut Vec<Event<'a>>, start: usize, properties: Properties<'a>)
    ensures { Dresses (props_of properties.entry) start out.old.items out.new.items }
{
    if start < out.len() && !stays(&out[start], &properties) {
        let bare = mem::replace(&mut out[start], Event::StreamEnd);
        out[start] = with_properties(bare, properties);
    }
}
