//! Where in a file nodes are that JSON cannot express.
ghost use Rattle.std.specs.Prelude.{◌≡◌, ◌++◌, ℕ, List, [], cond, codes, drop, map, not, IfOk, IfErr, OnOk, string_bytes};
ghost use Rattle.std.specs.List.{All};
ghost use Rattle.yaml_definitions.specs.model.Text.{mark_len};
ghost use Rattle.yaml_text.specs.EventModel.{event_of};
ghost use Rattle.review_places.specs.Trails.{path_of};
ghost use Rattle.review_faults.specs.Again.{CannotRead};
ghost use Rattle.review_faults.specs.EventSpots.{path_at};
ghost use Rattle.review_faults.specs.Heads.{head};
ghost use Rattle.review_faults.specs.NoJson.{IsOfText, BeginsSomewhere, HasPath, AddsPieces, TellsLacks, unknown};

use crate::faults::put_head;
use crate::label::anchor_of;
use crate::spots::place_of;
use crate::warn::go_on;
use review_places::places::unmarked;
use review_places::trace::{Trace, trace_of};
use review_places::trail::Trail;
use review_text::fronts::put_source_line;
use review_text::put_visible;
use std::alloc::{AllocError, Global};
use std::collections::BTreeMap;
use yaml_core::scalar::resolve;
use yaml_path::Place;
use yaml_read::read_events;
use yaml_text::chars::Chars;
use yaml_text::core_tag;
use yaml_text::event::{Event, EventTag};
use yaml_text::fault::Fault;

/// What of a node JSON cannot express.
#[derive(Clone, Copy, PartialEq, Eq)]
pub(crate) enum Lack {
    /// It is a key that is no string.
    Key,
    /// It is a float without digits.
    Number,
    /// Its tag is none of the core schema.
    Tag,
}

impl Lack {
    /// What is said of it.
    fn words(self) -> &'static str {
        match self {
            Lack::Key => "a key of a JSON object is a string, and this one is none",
            Lack::Number => "JSON has no `.inf`, `-.inf` and `.nan`",
            Lack::Tag => "JSON has no tags, and this one is none of the core schema",
        }
    }
}

/// What a node is to JSON.
#[derive(Clone, Copy, PartialEq, Eq)]
enum Value {
    Text,
    Other,
    Lacking(Lack),
}

impl Value {
    /// What JSON cannot express of the node, as a key or as a value.
    fn lack(self, is_key: bool) -> Option<Lack> {
        match self {
            Value::Text => None,
            Value::Lacking(Lack::Tag) => Some(Lack::Tag),
            _ if is_key => Some(Lack::Key),
            Value::Lacking(lack) => Some(lack),
            Value::Other => None,
        }
    }
}

/// What a scalar is of this tag and canonical content.
fn scalar_value(tag: &str, content: &str) -> Value {
    match tag {
        core_tag::STR => Value::Text,
        core_tag::FLOAT if content.ends_with("f") || content.ends_with("n") => {
            Value::Lacking(Lack::Number)
        }
        core_tag::NULL | core_tag::BOOL | core_tag::INT | core_tag::FLOAT => Value::Other,
        _ => Value::Lacking(Lack::Tag),
    }
}

/// What a collection is of this tag.
fn collection_value(tag: &EventTag<'_>, own: &str) -> Value {
    match tag {
        EventTag::Full(tag) if tag.as_str() != own => Value::Lacking(Lack::Tag),
        _ => Value::Other,
    }
}

/// What the node is that an event begins, if it begins one.
fn value_of(
    alloc: Global,
    event: &Event<'_>,
    named: &BTreeMap<&str, Value>,
) -> Result<Option<Value>, AllocError> {
    match event {
        Event::Scalar {
            tag,
            style,
            text,
            ..
        } => match resolve(alloc, tag, *style, text.as_str()) {
            Ok(scalar) => {
                let (tag, content) = (scalar.tag.as_str(), scalar.content.as_str());
                Ok(Some(scalar_value(tag, content)))
            }
            Err(_) => Err(AllocError),
        },
        Event::SequenceStart { tag, .. } => Ok(Some(collection_value(tag, core_tag::SEQ))),
        Event::MappingStart { tag, .. } => Ok(Some(collection_value(tag, core_tag::MAP))),
        Event::Alias { name } => Ok(named.get(name.as_str()).copied()),
        _ => Ok(None),
    }
}

/// What JSON cannot express of the node that an event begins, as a key or as a value. At an alias that is no key nothing is said
/// again of the node itself.
fn lack_at(event: &Event<'_>, value: Option<Value>, is_key: bool) -> Option<Lack> {
    match (event, value) {
        (Event::Alias { .. }, _) if !is_key => None,
        (_, Some(value)) => value.lack(is_key),
        (_, None) => None,
    }
}

/// A node that JSON cannot express.
#[derive(Drop)]
pub(crate) struct Lacking {
    /// The number of its event.
    event: usize,
    path: String,
    lack: Lack,
}

/// The nodes of a stream that JSON cannot express.
#[derive(Drop)]
pub(crate) struct Lacks {
    list: Vec<Lacking>,
    /// How many bytes their paths have.
    bytes: usize,
    /// Whether these are all.
    whole: bool,
}

/// How many nodes are told.
const NODES: usize = 1_000;

/// How many bytes the paths of all but the last one may have.
const PATHS: usize = 1 << 20;

/// Lists a node, whose path this trail has.
fn list_node(
    alloc: Global,
    lacks: &mut Lacks,
    trail: &Trail,
    events: &[Event<'_>],
    node: (usize, Lack),
) -> Result<(), AllocError>
    ensures ok { OnOk result (path_of trail.now (map event_of events.now) ≡ path_at (map event_of events.now) node.0 → All (HasPath (map event_of events.now)) lacks.old.list.items → All (HasPath (map event_of events.now)) lacks.new.list.items) }
{
    let path = trail.path(alloc, events)?;
    lacks.bytes = lacks.bytes.saturating_add(path.len());
    lacks.list.push(Lacking {
        event: node.0,
        path,
        lack: node.1,
    })?;
    Ok(())
}

/// The same if there is room for it; if not, the list is not whole.
fn add(
    alloc: Global,
    lacks: &mut Lacks,
    trail: &Trail,
    events: &[Event<'_>],
    node: (usize, Lack),
    room: usize,
) -> Result<(), AllocError>
    ensures ok { OnOk result (path_of trail.now (map event_of events.now) ≡ path_at (map event_of events.now) node.0 → All (HasPath (map event_of events.now)) lacks.old.list.items → All (HasPath (map event_of events.now)) lacks.new.list.items) }
{
    let is_full = lacks.list.len() >= room || lacks.bytes >= PATHS;
    if is_full {
        lacks.whole = false;
        return Ok(());
    }
    list_node(alloc, lacks, trail, events, node)
}

/// The same of a node that may be expressed.
fn note(
    alloc: Global,
    lacks: &mut Lacks,
    trail: &Trail,
    events: &[Event<'_>],
    node: (usize, Option<Lack>),
    room: usize,
) -> Result<(), AllocError>
    ensures ok { OnOk result (path_of trail.now (map event_of events.now) ≡ path_at (map event_of events.now) node.0 → All (HasPath (map event_of events.now)) lacks.old.list.items → All (HasPath (map event_of events.now)) lacks.new.list.items) }
{
    match node {
        (at, Some(lack)) => add(alloc, lacks, trail, events, (at, lack), room),
        (_, None) => Ok(()),
    }
}

/// Keeps what the node with an anchor is, if there is one.
fn keep<'e>(
    named: &mut BTreeMap<&'e str, Value>,
    event: &'e Event<'_>,
    value: Option<Value>,
) -> Result<(), AllocError> {
    if let (Some(name), Some(value)) = (anchor_of(event), value) {
        named.insert(name, value)?;
    }
    Ok(())
}

/// The nodes that JSON cannot express, at most so many.
fn find_lacks(alloc: Global, events: &[Event<'_>], room: usize) -> Result<Lacks, AllocError>
    ensures paths { IfOk result (λ lacks. All (HasPath (map event_of events.now)) lacks.list.items) }
{
    let mut lacks = Lacks {
        list: Vec::new(alloc),
        bytes: 0,
        whole: true,
    };
    let mut trail = Trail::new(alloc);
    let mut named = BTreeMap::new(alloc);
    'events: for (at, event) in events.iter().enumerate() {
        let value = value_of(alloc, event, &named)?;
        trail.take(at, event)?;
        let lack = lack_at(event, value, trail.is_at_key());
        note(alloc, &mut lacks, &trail, events, (at, lack), room)?;
        keep(&mut named, event, value)?;
    }
    Ok(lacks)
}

/// The offset at which it is shown: that of the tag if the tag is what JSON lacks.
fn offset_of(lacking: &Lacking, text: &[u8], trace: &Trace) -> Option<usize> {
    match lacking.lack {
        Lack::Tag => match trace.tag_offset(text, lacking.event) {
            Some(at) => Some(at),
            None => trace.offset(lacking.event),
        },
        Lack::Key | Lack::Number => trace.offset(lacking.event),
    }
}

/// The place of an offset, if there is one.
#[tactic(auto, using(crate::proofs::AgainLaws::some_place))]
fn placed(text: &[u8], offset: Option<usize>) -> Option<Place>
    ensures { IsOfText text.now result }
{
    match offset {
        Some(at) => place_of(text, at),
        None => None,
    }
}

/// Writes what is said of a node: its place, its path, what JSON cannot express of it, and these lines.
fn put_lacking(
    alloc: Global,
    out: &mut String,
    name: &str,
    place: Option<Place>,
    lacking: &Lacking,
    lines: &str,
) -> Result<(), AllocError>
    ensures ok { OnOk result ((more : List ℕ) × (string_bytes out.new ≡ string_bytes out.old ++ (head name.now place ++ more))) }
{
    let mut more = String::new(alloc);
    put_visible(&mut more, lacking.path.as_str())?;
    more.push_str(": ")?;
    more.push_str(lacking.lack.words())?;
    more.push('\n')?;
    more.push_str(lines)?;
    put_head(out, name, place)?;
    out.push_str(more.as_str())?;
    Ok(())
}

/// The source line of an offset, and a caret below it.
fn source_line(alloc: Global, text: &[u8], offset: Option<usize>) -> Result<String, AllocError> {
    let mut out = String::new(alloc);
    if let Some(at) = offset {
        put_source_line(alloc, &mut out, text, at)?;
    }
    Ok(out)
}

/// Writes what is said of the first node, with its source line.
fn put_first(
    alloc: Global,
    out: &mut String,
    name: &str,
    text: &[u8],
    trace: &Trace,
    first: &Lacking,
) -> Result<(), AllocError>
    ensures ok { OnOk result ((piece : List ℕ) × (string_bytes out.new ≡ string_bytes out.old ++ piece) × BeginsSomewhere name.now text.now piece) }
{
    let offset = offset_of(first, text, trace);
    let lines = source_line(alloc, text, offset)?;
    let place = placed(text, offset);
    put_lacking(alloc, out, name, place, first, lines.as_str())?;
    Ok(())
}

/// Writes what is said of the others. Each has an offset, so that the error is want of memory.
#[tactic(auto, using(crate::proofs::NoJsonLaws::pieces_none))]
fn put_others(
    alloc: Global,
    out: &mut String,
    name: &str,
    text: &[u8],
    trace: &Trace,
    others: &[Lacking],
) -> Result<(), AllocError>
    ensures ok { OnOk result (AddsPieces name.now text.now (string_bytes out.old) (string_bytes out.new)) }
{
    let mut at = 0;
    let mut place = Place { line: 1, column: 1 };
    'others: for lacking in others {
        let Some(offset) = offset_of(lacking, text, trace) else {
            return Err(AllocError);
        };
        let to = offset.min(text.len());
        place = go_on(text, at, place, to);
        at = to;
        put_lacking(alloc, out, name, Some(place), lacking, "")?;
    }
    Ok(())
}

/// Writes that there are more, unless these are all.
fn put_more(out: &mut String, whole: bool) -> Result<(), AllocError>
    ensures ok { OnOk result (string_bytes out.new ≡ string_bytes out.old ++ cond (not whole) (codes "...\n") []) }
{
    if !whole {
        out.push_str("...\n")?;
    }
    Ok(())
}

/// Writes that no node was found.
fn put_unknown(out: &mut String, name: &str, text: &[u8]) -> Result<(), AllocError>
    ensures ok { OnOk result (TellsLacks name.now text.now (string_bytes out.old) (string_bytes out.new)) }
{
    put_head(out, name, None)?;
    out.push_str("JSON cannot express this file\n")?;
    Ok(())
}

/// Writes what is said of the first node, of the others, and whether these are all.
fn put_found(
    alloc: Global,
    out: &mut String,
    name: &str,
    text: &[u8],
    trace: &Trace,
    nodes: (&Lacking, &[Lacking]),
    whole: bool,
) -> Result<(), AllocError>
    ensures ok { OnOk result (TellsLacks name.now text.now (string_bytes out.old) (string_bytes out.new)) }
{
    put_first(alloc, out, name, text, trace, nodes.0)?;
    put_others(alloc, out, name, text, trace, nodes.1)?;
    put_more(out, whole)?;
    Ok(())
}

/// Writes what is said of nodes of a text.
fn put_lacks(
    alloc: Global,
    out: &mut String,
    name: &str,
    text: &[u8],
    trace: &Trace,
    lacks: &Lacks,
) -> Result<(), AllocError>
    ensures ok { OnOk result (TellsLacks name.now text.now (string_bytes out.old) (string_bytes out.new)) }
{
    match lacks.list.split_first() {
        Some(nodes) => put_found(alloc, out, name, text, trace, nodes, lacks.whole),
        None => put_unknown(out, name, text),
    }
}

/// The nodes of a file that JSON cannot express, at most so many, and the offsets of its events.
#[tactic(auto, using(crate::proofs::AgainLaws::text_refused, crate::proofs::AgainLaws::reading_refused, crate::proofs::AgainLaws::memory_alone))]
fn lacks_of(alloc: Global, bytes: &[u8], room: usize) -> Result<(Lacks, Trace), Fault>
    ensures err { IfErr result (CannotRead bytes.now) }
{
    let source = Chars::read(bytes)?;
    let events = read_events(alloc, &source)?;
    let lacks = find_lacks(alloc, &events, room)?;
    let trace = trace_of(alloc, &source)?;
    Ok((lacks, trace))
}

/// Where in a file the first node is that JSON cannot express, if there is one.
///
/// # Errors
/// `OutOfMemory`; of bytes that the reader rejects, the reader's.
pub fn no_json_place(alloc: Global, bytes: &[u8]) -> Result<Option<Place>, Fault>
    ensures ok { IfOk result (IsOfText (drop (mark_len bytes.now) bytes.now)) }
    ensures err { IfErr result (CannotRead bytes.now) }
{
    let (lacks, trace) = lacks_of(alloc, bytes, 1)?;
    match lacks.list.first() {
        Some(first) => {
            let text = unmarked(bytes);
            Ok(placed(text, offset_of(first, text, &trace)))
        }
        None => Ok(None),
    }
}

/// Writes where in a file nodes are that JSON cannot express, and why: position, path and words, and of the first one the source line
/// and a caret. There are at most 1,000 nodes, and as many as have paths of 1 MiB; then there is a line `...`.
///
/// # Errors
/// `OutOfMemory`; of bytes that the reader rejects, the reader's.
#[tactic(auto, using(crate::proofs::AgainLaws::memory_alone))]
pub fn put_no_json(alloc: Global, out: &mut String, name: &str, bytes: &[u8]) -> Result<(), Fault>
    ensures ok { OnOk result (TellsLacks name.now (drop (mark_len bytes.now) bytes.now) (string_bytes out.old) (string_bytes out.new)) }
    ensures err { IfErr result (CannotRead bytes.now) }
{
    let (lacks, trace) = lacks_of(alloc, bytes, NODES)?;
    put_lacks(alloc, out, name, unmarked(bytes), &trace, &lacks)?;
    Ok(())
}
