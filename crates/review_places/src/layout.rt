//! Where the nodes of a stream stand: the events of each node's parts.
ghost use Rattle.std.specs.Prelude.{◌≡◌, ℕ, ◌+◌, List, [], Some, drop, slice_get, slice_set, IfOk, OnOk};
ghost use Rattle.std.specs.Bool.{OnTrue};
ghost use Rattle.review_places.specs.Trace.{shapes_in, offsets_in, events_in};
ghost use Rattle.review_places.specs.Layout.{offsets_of, node_numbers, Stands, IsWhole, IsLayout};
ghost use Rattle.review_places.specs.declared.layout.Open.{Open};

use crate::trace::{Noted, Shape, Trace};
use std::alloc::{AllocError, Global};
use std::collections::BTreeMap;

/// Of an event that begins no node, and is no alias of a whole one.
const NONE: u32 = u32::MAX;

/// The events of a stream's nodes, which are numbered in the order in which they end, as in a graph of their own.
#[derive(Drop)]
pub struct Layout {
    /// The offset of each event's own text.
    offsets: Vec<u32>,
    /// The number of the node that each event begins; of an alias that of the node that it stands for.
    nodes: Vec<u32>,
    /// The events of the documents' roots.
    roots: Vec<usize>,
    /// Where each node's parts begin in the list of all parts.
    firsts: Vec<usize>,
    /// The events of all nodes' parts, one node's behind another's: keys and values in turn for a mapping.
    parts: Vec<usize>,
    /// The events that are aliases, which rise.
    aliases: Vec<usize>,
}

impl Layout {
    ghost use Rattle.std.specs.Prelude.{◌≡◌, nat_lt, length, slice_get};
    ghost use Rattle.review_places.specs.Layout.{offsets_of, root_events, alias_events, is_alias_event, node_numbers, node_told, part_event, event_below};

    /// The event of a document's root.
    pub fn root(&self, document: usize) -> Option<usize>
        ensures { result ≡ slice_get (root_events self.now) document }
    {
        self.roots.get(document).copied()
    }

    /// The event of a node's part: of an alias its own, and not that of the node that it stands for.
    pub fn part(&self, node: usize, place: usize) -> Option<usize>
        ensures { result ≡ part_event self.now node place }
    {
        let first = self.firsts.get(node).copied()?;
        self.parts.get(first.saturating_add(place)).copied()
    }

    /// The event of a part of the node that an event begins, or that it stands for.
    pub fn below(&self, event: usize, place: usize) -> Option<usize>
        ensures { result ≡ event_below self.now event place }
    {
        let node = self.nodes.get(event).copied()?;
        self.part(node as usize, place)
    }

    /// The number of the node that an event begins; of an alias that of the node that it stands for.
    pub fn node(&self, event: usize) -> Option<usize>
        ensures { result ≡ node_told (slice_get (node_numbers self.now) event) }
    {
        match self.nodes.get(event) {
            Some(node) => {
                if *node == NONE {
                    None
                } else {
                    Some(*node as usize)
                }
            }
            None => None,
        }
    }

    /// Whether an event is an alias.
    pub fn is_alias(&self, event: usize) -> bool
        ensures { (s : List Shape) → IsLayout s self.now → result ≡ is_alias_event self.now event }
    {
        self.aliases.binary_search(&event).is_ok()
    }

    /// Whether the stream has an alias.
    pub fn has_aliases(&self) -> bool
        ensures { result ≡ nat_lt 0 (length (alias_events self.now)) }
    {
        self.aliases.len() > 0
    }

    /// The offset of an event's own text.
    pub fn offset(&self, event: usize) -> Option<usize>
        ensures { result ≡ slice_get (offsets_of self.now) event }
    {
        match self.offsets.get(event) {
            Some(offset) => Some(*offset as usize),
            None => None,
        }
    }
}

/// The collections that are open, and the whole nodes in each.
#[derive(Drop)]
struct Open {
    /// The event of each open collection, and how many nodes stood open before its parts.
    outer: Vec<(usize, usize)>,
    /// The events of the nodes that are parts of open collections, or roots.
    nodes: Vec<usize>,
}

/// A node's number in four bytes, of which the greatest tells that there is none.
fn number_of(len: usize) -> Result<u32, AllocError>
    ensures ok { IfOk result (λ n. n ≡ len) }
{
    match u32::try_from(len) {
        Ok(number) if number < NONE => Ok(number),
        _ => Err(AllocError),
    }
}

impl Layout {
    /// Takes the event of this number.
    fn take(&mut self, around: &mut Open, at: usize, shape: Shape) -> Result<(), AllocError>
        ensures stands { (s : List Shape) → slice_get s at ≡ Some shape → Stands s at self.old around.old → OnOk result (Stands s (at + 1) self.new around.new) }
        ensures offsets { self.new.offsets ≡ self.old.offsets }
    {
        match shape {
            Shape::Scalar => {
                self.whole(at, &[])?;
                around.nodes.push(at)?;
            }
            Shape::Alias => {
                self.aliases.push(at)?;
                around.nodes.push(at)?;
            }
            Shape::Opens => around.outer.push((at, around.nodes.len()))?,
            Shape::Closes => self.close(around)?,
            Shape::Other => {}
        }
        Ok(())
    }

    /// Sets the number of the node of an event.
    fn set_number(&mut self, event: usize, number: u32)
        ensures nodes { node_numbers self.new ≡ slice_set (node_numbers self.old) event number }
        ensures offsets { self.new.offsets ≡ self.old.offsets }
        ensures roots { self.new.roots ≡ self.old.roots }
        ensures firsts { self.new.firsts ≡ self.old.firsts }
        ensures parts { self.new.parts ≡ self.old.parts }
        ensures aliases { self.new.aliases ≡ self.old.aliases }
    {
        if let Some(node) = self.nodes.get_mut(event) {
            *node = number;
        }
    }

    /// The node that begins at this event, and whose parts begin at these, is whole.
    fn whole(&mut self, event: usize, parts: &[usize]) -> Result<(), AllocError>
        ensures ok { OnOk result (IsWhole event parts.now self.old self.new) }
        ensures offsets { self.new.offsets ≡ self.old.offsets }
    {
        let number = number_of(self.firsts.len())?;
        self.set_number(event, number);
        self.firsts.push(self.parts.len())?;
        self.parts.extend_from_slice(parts)?;
        Ok(())
    }

    /// The innermost open collection ends. That none is open is no stream's event.
    fn close(&mut self, around: &mut Open) -> Result<(), AllocError>
        ensures stands { (s : List Shape) (at : ℕ) → slice_get s at ≡ Some Shape.Closes → Stands s at self.old around.old → OnOk result (Stands s (at + 1) self.new around.new) }
        ensures offsets { self.new.offsets ≡ self.old.offsets }
    {
        let Some(last) = around.outer.pop() else {
            return Err(AllocError);
        };
        self.whole(last.0, behind(&around.nodes, last.1))?;
        around.nodes.truncate(last.1);
        around.nodes.push(last.0)?;
        Ok(())
    }
}

/// What is behind so many.
fn behind(nodes: &[usize], before: usize) -> &[usize]
    ensures { result.now ≡ drop before nodes.now }
{
    nodes.get(before..).unwrap_or(&[])
}

/// The last node of each name, by its event.
#[derive(Drop)]
struct Anchors<'t> {
    trace: &'t Trace,
    /// The notes of names in the order of their events.
    named: Vec<Noted>,
    /// How many of these were met.
    met: usize,
    last: BTreeMap<&'t [u8], usize>,
}

impl<'t> Anchors<'t> {
    /// Those of the events from one on.
    fn new(alloc: Global, trace: &'t Trace, first: usize) -> Result<Anchors<'t>, AllocError> {
        let mut named = Vec::new(alloc);
        for noted in &trace.notes {
            if trace.name(*noted).is_some() {
                named.push(*noted)?;
            }
        }
        named.sort_unstable_by_key(|it| it.event);
        let met = named.partition_point(|it| (it.event as usize) < first);
        Ok(Anchors {
            trace,
            named,
            met,
            last: BTreeMap::new(alloc),
        })
    }

    /// The name at the event of this number of the trace, which is met next.
    fn name(&mut self, event: usize) -> Option<&'t [u8]> {
        let named = self.named.get(self.met).copied()?;
        if named.event as usize != event {
            return None;
        }
        self.met = self.met.saturating_add(1);
        self.trace.name(named)
    }
}

impl Layout {
    /// The event of this number bears a name, which an alias has of the last node that it was given to.
    fn take_name<'t>(
        &mut self,
        anchors: &mut Anchors<'t>,
        at: usize,
        shape: Shape,
        name: &'t [u8],
    ) -> Result<(), AllocError>
        ensures stands { (s : List Shape) (around : Open) → Stands s at self.old around → OnOk result (Stands s at self.new around) }
        ensures offsets { self.new.offsets ≡ self.old.offsets }
        ensures aliases { self.new.aliases ≡ self.old.aliases }
    {
        if let Shape::Alias = shape {
            let target = anchors.last.get(name).copied();
            let node = target.and_then(|event| self.nodes.get(event).copied());
            self.set_number(at, node.unwrap_or(NONE));
        } else {
            anchors.last.insert(name, at)?;
        }
        Ok(())
    }

    /// Takes the event of this number, whose number in the trace is the other one.
    fn take_event(
        &mut self,
        anchors: &mut Anchors<'_>,
        around: &mut Open,
        at: usize,
        traced: usize,
        shape: Shape,
    ) -> Result<(), AllocError>
        ensures stands { (s : List Shape) → slice_get s at ≡ Some shape → Stands s at self.old around.old → OnOk result (Stands s (at + 1) self.new around.new) }
        ensures offsets { self.new.offsets ≡ self.old.offsets }
    {
        if let Some(name) = anchors.name(traced) {
            self.take_name(anchors, at, shape, name)?;
        }
        self.take(around, at, shape)
    }
}

/// The layout of a stream whose events were traced.
///
/// # Errors
/// `OutOfMemory`
pub fn lay_out(alloc: Global, trace: &Trace) -> Result<Layout, AllocError>
    ensures offsets { IfOk result (λ layout. offsets_of layout ≡ offsets_in trace.now.events.items) }
    ensures nodes { IfOk result (IsLayout (shapes_in trace.now.events.items)) }
{
    lay_out_events(alloc, trace, 0, &trace.events)
}

/// The layout of a stream whose events are those of a trace from one up to another.
///
/// # Errors
/// `OutOfMemory`
pub fn lay_out_from(
    alloc: Global,
    trace: &Trace,
    first: usize,
    end: usize,
) -> Result<Layout, AllocError>
    ensures offsets { IfOk result (λ layout. offsets_of layout ≡ offsets_in (events_in trace.now first end)) }
    ensures nodes { IfOk result (IsLayout (shapes_in (events_in trace.now first end))) }
{
    lay_out_events(alloc, trace, first, events_from(trace, first, end))
}

/// The events of a trace from one up to another.
fn events_from(trace: &Trace, first: usize, end: usize) -> &[(Shape, u32)]
    ensures { result.now ≡ events_in trace.now first end }
{
    if first <= end && end <= trace.events.len() {
        &trace.events[first..end]
    } else {
        &[]
    }
}

/// The layout of a stream with these events, whose names are those of a trace from one event on.
fn lay_out_events(
    alloc: Global,
    trace: &Trace,
    first: usize,
    events: &[(Shape, u32)],
) -> Result<Layout, AllocError>
    ensures offsets { IfOk result (λ layout. offsets_of layout ≡ offsets_in events.now) }
    ensures nodes { IfOk result (IsLayout (shapes_in events.now)) }
{
    let mut layout = Layout {
        offsets: offsets_from(alloc, events)?,
        nodes: vec![in alloc; NONE; events.len()]?,
        roots: Vec::new(alloc),
        firsts: Vec::new(alloc),
        parts: Vec::new(alloc),
        aliases: Vec::new(alloc),
    };
    let mut around = Open {
        outer: Vec::new(alloc),
        nodes: Vec::new(alloc),
    };
    let mut anchors = Anchors::new(alloc, trace, first)?;
    'events: for (at, event) in events.iter().enumerate() {
        let traced = first.saturating_add(at);
        layout.take_event(&mut anchors, &mut around, at, traced, event.0)?;
    }
    if is_none_open(&around) {
        layout.roots = around.nodes;
        return Ok(layout);
    }
    Err(AllocError)
}

/// Whether no collection is open.
fn is_none_open(around: &Open) -> bool
    ensures { OnTrue result (around.now.outer.items ≡ []) }
{
    around.outer.is_empty()
}

/// The offsets of events.
fn offsets_from(alloc: Global, events: &[(Shape, u32)]) -> Result<Vec<u32>, AllocError>
    ensures ok { IfOk result (λ offsets. offsets.items ≡ offsets_in events.now) }
{
    Ok(events.iter().map(|event| event.1).collect(alloc)?)
}
