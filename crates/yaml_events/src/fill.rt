//! A text in the room that a caller gives for it.
ghost use Rattle.std.specs.Prelude.{◌≡◌, ◌<◌, ◌≤◌, ◌+◌, ◌∷◌, ◌++◌, [], length, map, All, IsOk, IfOk, OnErr};
ghost use Rattle.std.specs.String.{string_bytes, string_len, string_capacity};
ghost use Rattle.yaml_text.specs.EventModel.{event_of};
ghost use Rattle.yaml_definitions.specs.model.EventText.{event_line, events_text};
ghost use Rattle.yaml_definitions.specs.grammar.Characters.{b-line-feed};
ghost use Rattle.yaml_events.specs.Overwriting.{Overwrites, Turns, Fills};

use crate::page::{PAGE, page_for};
use crate::sink::Sink;
use crate::writer::{push_line, put_line};
use std::alloc::{AllocError, Global};
use yaml_text::event::Event;
use yaml_text::fault::Fault;

/// A buffer for a text, and how many bytes of the text it has so far.
#[derive(Drop)]
pub struct Room<'a> {
    bytes: &'a mut [u8],
    len: usize,
    ghost within: { len ≤ length bytes.now },
}

impl<'a> Room<'a> {
    ghost use Rattle.std.specs.Prelude.{◌≡◌, ◌≤◌, ◌+◌, ◌++◌, length, []};
    ghost use Rattle.yaml_events.specs.Rooms.{room_name, room_lent, room_bytes, room_text};

    /// Nothing of the text yet.
    pub fn new(bytes: &'a mut [u8]) -> Room<'a>
        ensures text { room_text result ≡ [] }
        ensures bytes { room_bytes result ≡ bytes.old }
        ensures name { room_name result ≡ bytes.entry.ghost_name }
    {
        Room { bytes, len: 0 }
    }

    /// Puts a piece behind the text, for which there is room.
    fn fill(&mut self, piece: &[u8])
        requires { length (room_text self.old) + length piece.now ≤ length (room_bytes self.old) }
        ensures text { room_text self.new ≡ room_text self.old ++ piece.now }
        ensures lent { room_lent self.new ≡ room_lent self.old }
    {
        let end = self.len + piece.len();
        self.bytes[self.len..end].copy_from_slice(piece);
        self.len = end;
    }
}

impl<'a> Sink for Room<'a> {
    ghost use Rattle.std.specs.Prelude.{length};
    ghost use Rattle.yaml_events.specs.Rooms.{room_lent, room_bytes, room_text};

    ghost bytes = { room_text };

    ghost room = { λ r. length (room_bytes r) };

    ghost lent = { room_lent };

    fn put(&mut self, piece: &str) -> Result<(), AllocError> {
        if piece.len() > self.bytes.len() - self.len {
            return Err(AllocError);
        }
        self.fill(piece.as_bytes());
        Ok(())
    }
}

/// Writes the text of events over a buffer of exactly its length. It takes no memory and cannot fail for want of it.
pub fn fill_events(events: &[Event<'_>], room: &mut [u8]) -> Result<(), Fault>
    requires { length room.old ≡ length (events_text (map event_of events.now)) }
    ensures done { IsOk result }
    ensures text { room.new ≡ events_text (map event_of events.now) }
{
    let mut text = Room::new(room);
    'lines: for event in events {
        put_line(event, &mut text)?;
    }
    Ok(())
}

/// Puts a page over the room, from this offset on.
fn put_page(page: &str, room: &mut [u8], at: usize)
    requires { at + length page.now ≤ length room.old }
    ensures { Overwrites page.now at room.old room.new }
{
    room[at..at + page.len()].copy_from_slice(page.as_bytes());
}

/// Puts a full page over the room, from this offset on, and empties it. The answer is the offset behind what was put there.
fn turn(page: &mut String, room: &mut [u8], at: usize) -> usize
    requires { at + string_len page.old ≤ length room.old }
    ensures turns { Turns (string_bytes page.old) (string_bytes page.new) at result room.old room.new }
    ensures short { string_len page.new < 4096 }
    ensures keeps { string_capacity page.new ≡ string_capacity page.old }
{
    if page.len() < PAGE {
        return at;
    }
    let behind = at + page.len();
    put_page(page.as_str(), room, at);
    page.clear();
    behind
}

/// Puts the text of events at the start of a room that is long enough, by way of an empty page with room for each line. It
/// takes no memory, and is always done. The answer is the text's length.
fn turn_pages(events: &[Event<'_>], page: &mut String, room: &mut [u8]) -> Result<usize, AllocError>
    requires empty { string_bytes page.old ≡ [] }
    requires lines { All (λ e. 4096 + length (event_line e ++ (b-line-feed ∷ [])) ≤ string_capacity page.old) (map event_of events.now) }
    requires long { length (events_text (map event_of events.now)) ≤ length room.old }
    ensures done { IsOk result }
    ensures fills { IfOk result (Fills (events_text (map event_of events.now)) room.old room.new) }
{
    let mut at = 0;
    'lines: for event in events {
        push_line(event, page)?;
        at = turn(page, room, at);
    }
    put_page(page.as_str(), room, at);
    Ok(at + page.len())
}

/// Writes the text of events to the start of a buffer that is long enough, and returns its length. Behind the text, the buffer is
/// not changed. It takes the memory of one page before it writes. `OutOfMemory` is the only error and leaves the buffer
/// unchanged.
pub fn fill_by_pages(
    alloc: Global,
    events: &[Event<'_>],
    room: &mut [u8],
) -> Result<usize, AllocError>
    requires { length (events_text (map event_of events.now)) ≤ length room.old }
    ensures fills { IfOk result (Fills (events_text (map event_of events.now)) room.old room.new) }
    ensures kept { OnErr result (room.new ≡ room.old) }
{
    let mut page = page_for(alloc, events)?;
    turn_pages(events, &mut page, room)
}
