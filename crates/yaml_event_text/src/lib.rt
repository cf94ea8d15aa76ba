//! The event lines of bytes (`event_text`, `event_text_into`), and those of a checked text, written while it is read
//! (`event_lines`).
#![tactic(auto)]

mod lines;
mod slot;
mod starts;

ghost use Rattle.std.specs.Prelude.{◌≡◌, ℕ, List, map, IfOk, IfErr, OnErr};
ghost use Rattle.std.specs.Result.{IsErrAnd};
ghost use Rattle.std.specs.String.{string_bytes};
ghost use Rattle.yaml_definitions.specs.model.EventText.{events_text};
ghost use Rattle.yaml_definitions.specs.model.Text.{Text};
ghost use Rattle.yaml_text.specs.EventModel.{event_of};
ghost use Rattle.yaml_text.specs.Refused.{RefusesText};
ghost use Rattle.yaml_text.specs.Rooms.{Places};
ghost use Rattle.yaml_event_text.specs.EventTextAnswer.{IsEventText, IsUnread, PlacesEvents};

pub use lines::event_lines;
use std::alloc::Global;
use yaml_events::{fill_by_pages, fill_events, surely_fits, text_len, write_events};
use yaml_read::read_events;
use yaml_text::chars::Chars;
use yaml_text::event::Event;
use yaml_text::fault::Fault;

/// The events of an input, one line for each, in the notation of yaml-test-suite. No list of events is made, unless properties
/// are much longer than the input.
///
/// # Errors
/// Those of the reader (1 to 11), and `OutOfMemory`.
pub fn event_text(alloc: Global, bytes: &[u8]) -> Result<String, Fault>
    ensures ok { IfOk result (λ text. IsEventText bytes.now (string_bytes text)) }
    ensures err { IfErr result (IsUnread bytes.now) }
{
    let source = Chars::read(bytes)?;
    if let Some(text) = event_lines(alloc, &source)? {
        return Ok(text);
    }
    let events = read_events(alloc, &source)?;
    write_events(alloc, events.as_slice())
}

/// Puts the text of events at the start of the room, if that is long enough. The answer is the text's length.
fn place(alloc: Global, events: &[Event<'_>], room: &mut [u8]) -> Result<usize, Fault>
    ensures ok { IfOk result (Places (events_text (map event_of events.now)) room.old room.new) }
    ensures only { IfErr result (λ fault. fault ≡ Fault.OutOfMemory) }
    ensures kept { OnErr result (room.new ≡ room.old) }
{
    if surely_fits(events, room.len()) {
        return Ok(fill_by_pages(alloc, events, room)?);
    }
    let len = text_len(events)?;
    if len > room.len() {
        return Ok(len);
    }
    fill_events(events, &mut room[..len])?;
    Ok(len)
}

/// Writes the event lines of an input to the start of a buffer, and returns their length in bytes. If the buffer is too small, it
/// is not changed. Behind the text, the buffer is not changed. If the buffer suffices whatever is escaped, the length is not
/// computed first, and one page of text is held.
///
/// # Errors
/// Those of `event_text`. The buffer is then not changed.
pub fn event_text_into(alloc: Global, bytes: &[u8], room: &mut [u8]) -> Result<usize, Fault>
    ensures text { IfOk result (PlacesEvents bytes.now room.old room.new) }
    ensures refused { IfErr result (IsUnread bytes.now) }
    ensures kept { OnErr result (room.new ≡ room.old) }
    ensures no_text { ((cs : List ℕ) → Text bytes.now cs → ⊥) → IsErrAnd result (RefusesText bytes.now) }
{
    let chars = Chars::read(bytes)?;
    let events = read_events(alloc, &chars)?;
    place(alloc, events.as_slice(), room)
}
