//! Where in a file a fault is, and what is known of it there.
ghost use Rattle.std.specs.Prelude.{◌≡◌, ◌+◌, true, map, option_map, option_and_then, take, IfSome, IfOk, IfErr, string_bytes};
ghost use Rattle.std.specs.List.{count_by};
ghost use Rattle.yaml_text.specs.EventModel.{event_of};
ghost use Rattle.review_places.specs.Trace.{shapes_in};
ghost use Rattle.review_places.specs.Trails.{documents_before, open_frames, frames_of};
ghost use Rattle.review_faults.specs.Again.{CannotRead, CannotTell};
ghost use Rattle.review_faults.specs.EventPlaces.{IsEventOf, IsFirstOf, IsShownAt, IsPlaceAt, IsPlaceOf, noted_offset};
ghost use Rattle.review_faults.specs.EventSpots.{ends_document, path_at, fault_words, IsSpotAt, IsEventSpot};
ghost use Rattle.review_faults.specs.Explained.{AreWords};
ghost use Rattle.review_faults.specs.FaultLines.{offset_in, names_event, other_line, IsCause, IsSpot, IsStop, IsTold};

use crate::equal_keys::{Repeat, equal_key_words, repeat_at};
use review_hints::words::{Words, words_of};
use review_places::layout::lay_out;
use review_places::places::{mark_len, unmarked};
use review_places::trace::{Trace, trace_of};
use review_places::trail::Trail;
use review_text::tag_words::put_tag_words;
use std::alloc::{AllocError, Global};
use yaml_path::{Place, place_at};
use yaml_read::read_events;
use yaml_text::chars::Chars;
use yaml_text::event::Event;
use yaml_text::fault::Fault;

/// Where a fault is, in the text after the byte order mark.
#[derive(Drop)]
struct Spot {
    at: Option<usize>,
    /// The path of the node that a fault of an event, a document or a mapping is at.
    path: Option<String>,
    /// What is said of the fault, where that depends on the node.
    words: Option<String>,
    /// The place of the first of two equal keys.
    first: Option<Place>,
}

impl Spot {
    ghost use Rattle.std.specs.Prelude.{◌≡◌};
    ghost use Rattle.review_faults.specs.EventSpots.{HasNoNode};

    /// A spot of which no more is known than its offset.
    fn at(at: Option<usize>) -> Spot
        ensures at { result.at ≡ at }
        ensures alone { HasNoNode result }
    {
        Spot {
            at,
            path: None,
            words: None,
            first: None,
        }
    }
}

/// An offset of a text, and its line and column.
#[derive(Clone, Copy)]
pub(crate) struct Point {
    pub(crate) at: usize,
    pub(crate) place: Place,
}

/// A spot with its lines and columns, and what is said of it.
#[derive(Drop)]
pub(crate) struct Told {
    /// Where the reader stopped.
    pub(crate) place: Option<Place>,
    pub(crate) at: usize,
    pub(crate) path: Option<String>,
    pub(crate) words: String,
    /// Where the cause is, if it is on another line.
    pub(crate) cause: Option<Point>,
    pub(crate) first: Option<Place>,
}

/// The place of a point, if there is one.
pub(crate) fn place_at_point(point: Option<Point>) -> Option<Place>
    ensures { result ≡ option_map (λ p. p.place) point }
{
    match point {
        Some(point) => Some(point.place),
        None => None,
    }
}

impl Told {
    ghost use Rattle.std.specs.Prelude.{◌≡◌};
    ghost use Rattle.review_faults.specs.Explained.{shown_place, shown_point, second_place};

    /// The point that is printed first: that of the cause, or the one at which the reader stopped.
    pub(crate) fn shown(&self) -> Option<Point>
        ensures { result ≡ shown_point self.now }
    {
        match (self.cause, self.place) {
            (Some(cause), _) => Some(cause),
            (None, Some(place)) => Some(Point { at: self.at, place }),
            (None, None) => None,
        }
    }

    /// Its place.
    pub(crate) fn shown_place(&self) -> Option<Place>
        ensures { result ≡ shown_place self.now }
    {
        place_at_point(self.shown())
    }

    /// Where the reader stopped, if the cause is printed first.
    pub(crate) fn second_place(&self) -> Option<Place>
        ensures { result ≡ second_place self.now }
    {
        match self.cause {
            Some(_) => self.place,
            None => None,
        }
    }
}

/// The offset that a fault carries, which counts the byte order mark.
fn offset_in(fault: Fault) -> Option<usize>
    ensures { result ≡ offset_in fault }
{
    match fault {
        Fault::NotUtf8(at)
        | Fault::NotPrintable(at)
        | Fault::Syntax(at)
        | Fault::Tab(at)
        | Fault::KeyTooLong(at)
        | Fault::TooDeep(at)
        | Fault::BadEscape(at)
        | Fault::BadDirective(at)
        | Fault::UnknownHandle(at)
        | Fault::BadTag(at) => Some(at),
        _ => None,
    }
}

/// Whether a fault names an event, a document, or a node with two of its entries.
fn names_event(fault: Fault) -> bool
    ensures { result ≡ names_event fault }
{
    matches!(
        fault,
        Fault::UndefinedAlias(_)
            | Fault::CyclicAlias(_)
            | Fault::WrongKind(_)
            | Fault::BadContent(_)
            | Fault::IntRange(_)
            | Fault::FloatRange(_)
            | Fault::TooHigh(_)
            | Fault::EqualKeys(_, _, _)
    )
}

/// An event, if there is one, and beside it that of the first of two equal keys.
fn beside(event: Option<usize>, first: Option<usize>) -> Option<(usize, Option<usize>)>
    ensures event { option_map (λ told. told.0) result ≡ event }
    ensures first { IfSome result (λ told. told.1 ≡ first) }
{
    match event {
        Some(event) => Some((event, first)),
        None => None,
    }
}

/// The event at which a fault without an offset is, and that of the first of two equal keys.
fn events_in(
    alloc: Global,
    fault: Fault,
    trace: &Trace,
) -> Result<Option<(usize, Option<usize>)>, AllocError>
    ensures event { IfOk result (λ told. IsEventOf (shapes_in trace.now.events.items) fault (option_map (λ t. t.0) told)) }
    ensures first { IfOk result (λ told. IfSome told (λ t. IsFirstOf (shapes_in trace.now.events.items) fault t.1)) }
{
    match fault {
        Fault::UndefinedAlias(event)
        | Fault::CyclicAlias(event)
        | Fault::WrongKind(event)
        | Fault::BadContent(event)
        | Fault::IntRange(event)
        | Fault::FloatRange(event) => Ok(Some((event, None))),
        Fault::TooHigh(document) => {
            let layout = lay_out(alloc, trace)?;
            Ok(beside(layout.root(document), None))
        }
        Fault::EqualKeys(node, first, second) => {
            let layout = lay_out(alloc, trace)?;
            let one = layout.part(node, first.saturating_mul(2));
            let other = layout.part(node, second.saturating_mul(2));
            Ok(beside(other, one))
        }
        _ => Ok(None),
    }
}

/// The offset at which a fault of this event is shown: that of the node's tag where the tag is what is wrong, else that of its own
/// text.
fn offset_of(fault: Fault, text: &[u8], trace: &Trace, event: usize) -> Option<usize>
    ensures { IsShownAt trace.now text.now fault event result }
{
    match fault {
        Fault::WrongKind(_) | Fault::BadContent(_) => match trace.tag_offset(text, event) {
            Some(at) => Some(at),
            None => trace.offset(event),
        },
        _ => trace.offset(event),
    }
}

/// The offset of the first of two equal keys, if there is an event that begins it.
fn first_offset(trace: &Trace, event: Option<usize>) -> Option<usize>
    ensures { result ≡ option_and_then (noted_offset trace.now) event }
{
    match event {
        Some(event) => trace.offset(event),
        None => None,
    }
}

/// The events up to the one of this number.
fn events_to<'e, 'a>(events: &'e [Event<'a>], number: usize) -> &'e [Event<'a>]
    ensures { result.now ≡ take (number + 1) events.now }
{
    events.get(..number.saturating_add(1)).unwrap_or(events)
}

/// The trail of these events.
fn trail_of(alloc: Global, events: &[Event<'_>]) -> Result<Trail, AllocError>
    ensures ok { IfOk result (λ trail. documents_before trail ≡ count_by ends_document (map event_of events.now)) }
    ensures frames { IfOk result (λ trail. open_frames trail ≡ frames_of (map event_of events.now)) }
{
    let mut trail = Trail::new(alloc);
    for (at, event) in events.iter().enumerate() {
        trail.take(at, event)?;
    }
    Ok(trail)
}

/// The path of the node that begins at the event of this number.
fn path_at(alloc: Global, events: &[Event<'_>], number: usize) -> Result<String, AllocError>
    ensures ok { IfOk result (λ path. string_bytes path ≡ path_at (map event_of events.now) number) }
{
    let trail = trail_of(alloc, events_to(events, number))?;
    trail.path(alloc, events)
}

/// What is said of a fault of this event, where that depends on its node. The place is that of the first of two equal keys, with this
/// around it.
fn event_words(
    alloc: Global,
    fault: Fault,
    first: Option<Place>,
    around: Repeat,
    event: Option<&Event<'_>>,
) -> Result<Option<String>, AllocError>
    ensures ok { IfOk result (λ words. option_map string_bytes words ≡ fault_words fault first around (option_map (λ e. event_of e.now) event.entry)) }
{
    match (fault, event) {
        (Fault::WrongKind(_) | Fault::BadContent(_), Some(event)) => {
            let mut words = String::new(alloc);
            put_tag_words(&mut words, event)?;
            Ok(Some(words))
        }
        (Fault::EqualKeys(_, _, _), Some(event)) => {
            Ok(Some(equal_key_words(alloc, event, first, around)?))
        }
        _ => Ok(None),
    }
}

/// What is known of a fault of the event of this number.
fn spot_at(
    alloc: Global,
    fault: Fault,
    text: &[u8],
    trace: &Trace,
    events: &[Event<'_>],
    number: usize,
    first: Option<usize>,
) -> Result<Spot, AllocError>
    requires { IsFirstOf (shapes_in trace.now.events.items) fault first }
    ensures ok { IfOk result (IsSpotAt trace.now (map event_of events.now) text.now fault number) }
{
    let key = first_offset(trace, first);
    let at = offset_of(fault, text, trace, number);
    let around = repeat_at(text, key, at);
    let first = find_place(text, key);
    Ok(Spot {
        at,
        path: Some(path_at(alloc, events, number)?),
        words: event_words(alloc, fault, first, around, events.get(number))?,
        first,
    })
}

/// The spot of a fault of an event: one more reading of the text.
#[tactic(auto, using(crate::proofs::AgainLaws::text_refused, crate::proofs::AgainLaws::reading_refused, crate::proofs::AgainLaws::memory_alone))]
fn spot_of_event(alloc: Global, bytes: &[u8], fault: Fault) -> Result<Spot, Fault>
    ensures ok { IfOk result (IsEventSpot bytes.now fault) }
    ensures err { IfErr result (CannotRead bytes.now) }
{
    let source = Chars::read(bytes)?;
    let trace = trace_of(alloc, &source)?;
    let Some((number, first)) = events_in(alloc, fault, &trace)? else {
        return Ok(Spot::at(None));
    };
    let events = read_events(alloc, &source)?;
    let text = unmarked(bytes);
    Ok(spot_at(alloc, fault, text, &trace, &events, number, first)?)
}

/// The spot of a fault.
#[tactic(auto, using(crate::proofs::AgainLaws::event_told))]
fn find_spot(alloc: Global, bytes: &[u8], fault: Fault) -> Result<Spot, Fault>
    ensures ok { IfOk result (IsSpot bytes.now fault (offset_in fault)) }
    ensures err { IfErr result (CannotTell bytes.now fault) }
    ensures event { IfErr result (λ _. names_event fault ≡ true) }
{
    match offset_in(fault) {
        Some(at) => Ok(Spot::at(Some(at.saturating_sub(mark_len(bytes))))),
        None => {
            if names_event(fault) {
                spot_of_event(alloc, bytes, fault)
            } else {
                Ok(Spot::at(None))
            }
        }
    }
}

/// The place of one offset of a text.
pub(crate) fn place_of(text: &[u8], at: usize) -> Option<Place>
    ensures { IsPlaceAt text.now at result }
{
    if at <= text.len() {
        Some(place_at(text, at))
    } else {
        None
    }
}

/// The place of an offset of a text, if there is an offset.
fn find_place(text: &[u8], at: Option<usize>) -> Option<Place>
    ensures { IsPlaceOf text.now at result }
{
    match at {
        Some(at) => place_of(text, at),
        None => None,
    }
}

/// The place where the reader stopped at a fault, if the fault has one.
///
/// # Errors
/// Only for a fault of an event, for which the bytes are read again: `OutOfMemory`; of bytes that the reader rejects, the reader's.
pub fn fault_place(alloc: Global, bytes: &[u8], fault: Fault) -> Result<Option<Place>, Fault>
    ensures ok { IfOk result (IsStop bytes.now fault) }
    ensures err { IfErr result (CannotTell bytes.now fault) }
    ensures event { IfErr result (λ _. names_event fault ≡ true) }
{
    let spot = find_spot(alloc, bytes, fault)?;
    Ok(find_place(unmarked(bytes), spot.at))
}

/// What is said of a fault at this offset of a text, if its node has no words of its own.
fn words_at(
    alloc: Global,
    fault: Fault,
    text: &[u8],
    at: usize,
    own: Option<String>,
) -> Result<Words, AllocError>
    ensures ok { IfOk result (λ words. AreWords text.now fault at own words.cause (string_bytes words.text)) }
{
    match own {
        Some(own) => Ok(Words {
            text: own,
            cause: None,
        }),
        None => words_of(alloc, fault, text, at),
    }
}

/// The point of a cause, if it is on another line than the one where the reader stopped.
fn other_line(stop: Option<Place>, at: usize, place: Option<Place>) -> Option<Point>
    ensures { result ≡ other_line stop at place }
{
    match (stop, place) {
        (Some(stop), Some(place)) if stop.line != place.line => Some(Point { at, place }),
        _ => None,
    }
}

/// The same of the offset of a cause, if there is one.
fn find_cause(text: &[u8], stop: Option<Place>, cause: Option<usize>) -> Option<Point>
    ensures { IsCause text.now stop cause result }
{
    match cause {
        Some(at) => other_line(stop, at, place_of(text, at)),
        None => None,
    }
}

/// The lines and columns of a fault's spot in the text after the byte order mark, and what is said of it.
pub(crate) fn find_told(alloc: Global, bytes: &[u8], fault: Fault) -> Result<Told, Fault>
    ensures ok { IfOk result (IsTold bytes.now fault) }
    ensures err { IfErr result (CannotTell bytes.now fault) }
{
    let spot = find_spot(alloc, bytes, fault)?;
    let text = unmarked(bytes);
    let at = spot.at.unwrap_or(0);
    let place = find_place(text, spot.at);
    let words = words_at(alloc, fault, text, at, spot.words)?;
    Ok(Told {
        place,
        at,
        path: spot.path,
        cause: find_cause(text, place, words.cause),
        words: words.text,
        first: spot.first,
    })
}
