//! The events of a file that are warned of.
ghost use Rattle.std.specs.Prelude.{◌≡◌, ◌==◌, ◌+◌, ℕ, ◌++◌, ◌∷◌, [], List, Some, find, map, flat_map, option_map, option_and_then, reverse, slice_get, IfOk, OnOk};
ghost use Rattle.std.specs.List.{list_any};
ghost use Rattle.review_places.specs.Trails.{has_part, open_frames};
ghost use Rattle.yaml_text.specs.EventModel.{event_of};
ghost use Rattle.review_faults.specs.Keys.{begun_at, mapping_of};
ghost use Rattle.review_faults.specs.Slips.{begins_flow_mapping, has_call, has_empty_block, has_no_value, has_pair, is_call, is_doubled, is_empty_block, is_pair, is_unwritten};
ghost use Rattle.review_faults.specs.Warned.{AreCauses, FindsWarned, Keeps, Knows, flow_of, noted, scalar_text, source_at};

use crate::cause::{
    Cause, equal_cause, indicator_cause, name_cause, older_cause, slip_cause, tagged_cause,
};
use crate::keys::{Key, Keys, Reader};
use crate::slip::{Around, is_below, is_joined, is_listed, is_pointer, is_word_pair};
use review_places::trace::Trace;
use review_places::trail::Trail;
use std::alloc::{AllocError, Global};
use yaml_text::event::{Event, EventTag, Style};

/// The numbers of events that are warned of, and why.
#[derive(Drop)]
pub(crate) struct Found {
    pub(crate) list: Vec<(usize, Cause)>,
    /// Whether these are all.
    pub(crate) whole: bool,
}

/// Adds a warning, if there is room for it; if not, the list is not whole.
fn add(found: &mut Found, warning: (usize, Cause), room: usize) -> Result<(), AllocError>
    ensures ok { (all : List _) → Keeps room all found.old → OnOk result (Keeps room (all ++ (warning ∷ [])) found.new) }
{
    if found.list.len() < room {
        found.list.push(warning)?;
    } else {
        found.whole = false;
    }
    Ok(())
}

/// Adds the warning of an event for a cause, if there is one and no word of these is shown.
fn note(
    found: &mut Found,
    at: usize,
    event: &Event<'_>,
    cause: Option<Cause>,
    allowed: &[&str],
    room: usize,
) -> Result<(), AllocError>
    ensures ok { (all : List _) → Keeps room all found.old → OnOk result (Keeps room (all ++ noted allowed.now (event_of event.now) at cause) found.new) }
{
    match cause {
        Some(cause) if !cause.is_allowed(event, allowed) => add(found, (at, cause), room),
        _ => Ok(()),
    }
}

/// Adds the warnings of an event for its causes.
fn note_all(
    found: &mut Found,
    at: usize,
    event: &Event<'_>,
    causes: &[Option<Cause>],
    allowed: &[&str],
    room: usize,
) -> Result<(), AllocError>
    ensures ok { (all : List _) → Keeps room all found.old → OnOk result (Keeps room (all ++ flat_map (noted allowed.now (event_of event.now) at) causes.now) found.new) }
{
    for cause in causes {
        note(found, at, event, *cause, allowed, room)?;
    }
    Ok(())
}

/// The event of this number.
fn event_at<'e, 'a>(events: &'e [Event<'a>], number: Option<usize>) -> Option<&'e Event<'a>>
    ensures { option_map (λ e. event_of e.now) result ≡ option_and_then (slice_get (map event_of events.now)) number }
{
    match number {
        Some(number) => events.get(number),
        None => None,
    }
}

/// Whether the collection that begins at an event is a flow collection.
fn is_flow(event: Option<&Event<'_>>) -> bool
    ensures { result ≡ flow_of (option_map (λ e. event_of e.now) event.entry) }
{
    match event {
        Some(Event::SequenceStart { flow, .. } | Event::MappingStart { flow, .. }) => *flow,
        _ => false,
    }
}

/// The event of the innermost collection in which a part began.
fn around(trail: &Trail) -> Option<usize>
    ensures { result ≡ begun_at (find has_part (reverse (open_frames trail.now))) }
{
    match trail.innermost() {
        Some(frame) => Some(frame.event),
        None => None,
    }
}

/// The event of its mapping, if the node that began last is a key.
fn mapping_of(trail: &Trail) -> Option<usize>
    ensures { result ≡ mapping_of (find has_part (reverse (open_frames trail.now))) }
{
    if trail.is_at_key() {
        around(trail)
    } else {
        None
    }
}

/// Whether an event begins a flow mapping.
fn begins_flow_mapping(event: Option<&Event<'_>>) -> bool
    ensures { result ≡ begins_flow_mapping (option_map (λ e. event_of e.now) event.entry) }
{
    match event {
        Some(Event::MappingStart { flow, .. }) => *flow,
        _ => false,
    }
}

/// Whether flow mappings begin at the two events before the one of this number.
fn is_doubled(events: &[Event<'_>], at: usize) -> bool
    ensures { result ≡ is_doubled (map event_of events.now) at }
{
    begins_flow_mapping(event_at(events, Some(at.saturating_sub(1))))
        && begins_flow_mapping(event_at(events, Some(at.saturating_sub(2))))
}

/// Whether an event begins a node that is not written.
fn is_unwritten(event: Option<&Event<'_>>) -> bool
    ensures { result ≡ is_unwritten (option_map (λ e. event_of e.now) event.entry) }
{
    match event {
        Some(Event::Scalar { style, text, .. }) => {
            matches!(style, Style::Plain) && text.as_str().is_empty()
        }
        _ => false,
    }
}

/// Whether the node at the event after the one of this number is not written.
fn has_no_value(events: &[Event<'_>], at: usize) -> bool
    ensures { result ≡ has_no_value (map event_of events.now) at }
{
    match events.get(at..) {
        Some(rest) => is_unwritten(rest.get(1)),
        None => false,
    }
}

/// Whether an event is an empty block scalar.
fn is_empty_block(event: Option<&Event<'_>>) -> bool
    ensures { result ≡ is_empty_block (option_map (λ e. event_of e.now) event.entry) }
{
    match event {
        Some(Event::Scalar { style, text, .. }) => {
            matches!(style, Style::Literal | Style::Folded) && text.as_str().is_empty()
        }
        _ => false,
    }
}

/// Whether the event after the one of this number is an empty block scalar.
fn has_empty_block(events: &[Event<'_>], at: usize) -> bool
    ensures { result ≡ has_empty_block (map event_of events.now) at }
{
    match events.get(at..) {
        Some(rest) => is_empty_block(rest.get(1)),
        None => false,
    }
}

/// Whether a text has an opening parenthesis.
fn has_parenthesis(text: &str) -> bool
    ensures { result ≡ list_any (λ c. c == 40) text.now }
{
    text.as_bytes().iter().any(|byte| *byte == b'(')
}

/// Whether an event has a tag with a parenthesis in it, and begins a node that is not written.
fn is_call(event: Option<&Event<'_>>) -> bool
    ensures { result ≡ is_call (option_map (λ e. event_of e.now) event.entry) }
{
    match event {
        Some(
            Event::Scalar {
                tag: EventTag::Full(tag),
                style: Style::Plain,
                text,
                ..
            },
        ) => text.as_str().is_empty() && has_parenthesis(tag.as_str()),
        _ => false,
    }
}

/// Whether the event after the one of this number is such a tag.
fn has_call(events: &[Event<'_>], at: usize) -> bool
    ensures { result ≡ has_call (map event_of events.now) at }
{
    match events.get(at..) {
        Some(rest) => is_call(rest.get(1)),
        None => false,
    }
}

/// Whether an event is an untagged plain scalar of two words with a colon between them.
fn is_pair(event: Option<&Event<'_>>) -> bool
    ensures { result ≡ is_pair (option_map (λ e. event_of e.now) event.entry) }
{
    match event {
        Some(
            Event::Scalar {
                tag: EventTag::None,
                style: Style::Plain,
                text,
                ..
            },
        ) => is_word_pair(text.as_str().as_bytes()),
        _ => false,
    }
}

/// Whether the event after the one of this number is such a scalar.
fn has_pair(events: &[Event<'_>], at: usize) -> bool
    ensures { result ≡ has_pair (map event_of events.now) at }
{
    match events.get(at..) {
        Some(rest) => is_pair(rest.get(1)),
        None => false,
    }
}

/// The text from the offset that was noted at the event of this number.
fn source_at<'s>(text: &'s [u8], trace: &Trace, event: usize) -> &'s [u8]
    ensures { result.now ≡ source_at text.now trace.now event }
{
    match trace.offset(event) {
        Some(at) => text.get(at..).unwrap_or(&[]),
        None => &[],
    }
}

/// The text of a scalar.
fn scalar_text<'e>(event: &'e Event<'_>) -> &'e [u8]
    ensures { result.now ≡ scalar_text (event_of event.now) }
{
    match event {
        Event::Scalar { text, .. } => text.as_str().as_bytes(),
        _ => &[],
    }
}

/// What is known of the events that came.
#[derive(Drop)]
pub(crate) struct Known<'e> {
    trail: Trail,
    keys: Keys<'e>,
}

/// Why the event of this number is warned of, if no word is allowed.
fn causes_at<'e>(
    alloc: Global,
    events: &'e [Event<'_>],
    at: usize,
    event: &'e Event<'_>,
    source: &[u8],
    known: &mut Known<'e>,
) -> Result<[Option<Cause>; 7], AllocError>
    ensures causes { slice_get events.entry.now at ≡ Some event.entry.now → Knows ⟦<Key as Ord>⟧.cmp (map event_of events.entry.now) at known.old → (sources : ℕ → List ℕ) → sources at ≡ source.now → IfOk result (AreCauses sources (map event_of events.entry.now) at (event_of event.entry.now)) }
    ensures knows { slice_get events.entry.now at ≡ Some event.entry.now → Knows ⟦<Key as Ord>⟧.cmp (map event_of events.entry.now) at known.old → IfOk result (λ _. Knows ⟦<Key as Ord>⟧.cmp (map event_of events.entry.now) (at + 1) known.new) }
{
    known.trail.take(at, event)?;
    let equals = known.keys.take(alloc, at, event, mapping_of(&known.trail))?;
    let is_key = known.trail.is_at_key();
    let is_in_flow = is_flow(event_at(events, around(&known.trail)));
    let text = scalar_text(event);
    let around = Around {
        is_key,
        is_in_flow,
        is_doubled: is_doubled(events, at),
        has_no_value: has_no_value(events, at),
        is_listed: is_listed(source, text),
        is_joined: is_joined(source, text),
        is_pointer: is_pointer(source, text),
        is_below: is_below(source, text),
        has_empty_block: has_empty_block(events, at),
        has_call: has_call(events, at),
        has_pair: has_pair(events, at),
    };
    Ok([
        name_cause(event),
        indicator_cause(event, is_in_flow),
        equal_cause(Reader::Python, equals.python),
        equal_cause(Reader::JavaScript, equals.script),
        older_cause(event, is_key),
        tagged_cause(event),
        slip_cause(event, around),
    ])
}

/// The events of a file that are warned of, but for those of which a word of these would be shown: at most so many. The text is that
/// of the file, without a byte order mark.
pub(crate) fn find_warned(
    alloc: Global,
    events: &[Event<'_>],
    text: &[u8],
    trace: &Trace,
    allowed: &[&str],
    room: usize,
) -> Result<Found, AllocError>
    ensures ok { IfOk result (FindsWarned (source_at text.now trace.now) allowed.now room (map event_of events.now)) }
{
    let mut found = Found {
        list: Vec::new(alloc),
        whole: true,
    };
    let mut known = Known {
        trail: Trail::new(alloc),
        keys: Keys::new(alloc),
    };
    'events: for (at, event) in events.iter().enumerate() {
        let source = source_at(text, trace, at);
        let causes = causes_at(alloc, events, at, event, source, &mut known)?;
        note_all(&mut found, at, event, &causes, allowed, room)?;
    }
    Ok(found)
}
