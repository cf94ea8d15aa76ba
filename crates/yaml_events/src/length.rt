//! How long the lines of events can be.
ghost use Rattle.std.specs.Prelude.{◌≡◌, ◌<◌, ◌≤◌, ◌+◌, ◌*◌, ◌++◌, ◌∷◌, [], length, map, true, All, IfOk};
ghost use Rattle.std.specs.Option.{option_map};
ghost use Rattle.std.specs.Cow.{cow_str_bytes};
ghost use Rattle.yaml_text.specs.EventModel.{event_of, written_of};
ghost use Rattle.yaml_definitions.specs.model.EventText.{event_line, events_text, anchor_part, tag_part};
ghost use Rattle.yaml_definitions.specs.grammar.Characters.{b-line-feed};

use std::alloc::AllocError;
use std::borrow::CowStr;
use yaml_text::event::{Event, EventTag};

/// More bytes than a line has that are of no name, tag or value.
const FRAME: u128 = 16;

/// How many bytes an anchor's name has; none is 0.
fn name_len(anchor: &Option<CowStr<'_>>) -> usize
    ensures { length (anchor_part (option_map cow_str_bytes anchor.now)) ≤ result + 2 }
{
    match anchor {
        None => 0,
        Some(name) => name.as_str().len(),
    }
}

/// How many bytes a tag has that is written out; another has 0.
fn tag_len(tag: &EventTag<'_>) -> usize
    ensures { length (tag_part (written_of tag.now)) ≤ 3 * result + 4 }
{
    match tag {
        EventTag::None | EventTag::NonSpecific => 0,
        EventTag::Full(full) => full.as_str().len(),
    }
}

/// A number of bytes that an event's line with its LF does not exceed.
fn line_bound(event: &Event<'_>) -> u128
    ensures { length (event_line (event_of event.now) ++ (b-line-feed ∷ [])) ≤ result }
{
    match event {
        Event::SequenceStart { anchor, tag, .. } | Event::MappingStart { anchor, tag, .. } => {
            FRAME + name_len(anchor) as u128 + 3 * tag_len(tag) as u128
        }
        Event::Scalar {
            anchor,
            tag,
            text,
            ..
        } => {
            let own = FRAME + name_len(anchor) as u128 + 3 * tag_len(tag) as u128;
            own + 2 * text.as_str().len() as u128
        }
        Event::Alias { name } => FRAME + name.as_str().len() as u128,
        _ => FRAME,
    }
}

/// A number of bytes that no line of the events with its LF exceeds. No text is looked at and no memory
/// taken: each byte of a tag is taken as three, and each of a value as two. `OutOfMemory` means that
/// the number is past the greatest `usize`.
pub fn longest_line(events: &[Event<'_>]) -> Result<usize, AllocError>
    ensures ok { IfOk result (λ most. All (λ e. length (event_line e ++ (b-line-feed ∷ [])) ≤ most) (map event_of events.now)) }
{
    let mut most: u128 = 0;
    'lines: for event in events {
        most = most.max(line_bound(event));
    }
    if most > usize::MAX as u128 {
        return Err(AllocError);
    }
    Ok(most as usize)
}

/// Whether the text of events is not longer than this many bytes even where each byte of a tag takes three, and each of a
/// value two. No text is looked at; a text that is shorter than that may fit where this says no.
pub fn surely_fits(events: &[Event<'_>], room: usize) -> bool
    ensures { result ≡ true → length (events_text (map event_of events.now)) ≤ room }
{
    if events.len() as u128 * FRAME > room as u128 {
        return false;
    }
    let mut left = room;
    'lines: for event in events {
        let most = line_bound(event);
        if most > left as u128 {
            return false;
        }
        left -= most as usize;
    }
    true
}
