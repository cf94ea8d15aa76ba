//! How long the text of events is.
ghost use Rattle.std.specs.Prelude.{◌≡◌, ◌<◌, ◌≤◌, ◌+◌, ◌^◌, ◌++◌, ◌∷◌, [], length, map, IfOk};
ghost use Rattle.std.specs.Option.{option_map};
ghost use Rattle.std.specs.Cow.{cow_str_bytes};
ghost use Rattle.yaml_text.specs.EventModel.{event_of, written_of};
ghost use Rattle.yaml_definitions.specs.canonical.TagText.{encoded, spell_byte};
ghost use Rattle.yaml_definitions.specs.model.EventText.{event_line, events_text, anchor_part, tag_part, flag_text, value_byte, value_text};
ghost use Rattle.yaml_definitions.specs.grammar.Characters.{b-line-feed};

use std::alloc::AllocError;
use std::borrow::CowStr;
use yaml_text::class::is_uri;
use yaml_text::event::{Event, EventTag};

/// The bytes of a line without properties, name or value: a word of four and an LF.
const BARE: u128 = 5;

/// The bytes of a space and a style's or an alias's sign.
const SIGN: u128 = 2;

/// The greatest length of a piece of a value in which what more it takes is counted in one byte.
const PIECE: usize = 224;

/// How many bytes a flow mark takes, if there is to be one.
fn mark_len(mark: &str, flow: bool) -> u128
    ensures len { result ≡ length (flag_text flow mark.now) }
    ensures small { result < 2 ^ 66 }
{
    if flow { mark.len() as u128 } else { 0 }
}

/// How many bytes an anchor takes, where there is one.
fn anchor_len(anchor: &Option<CowStr<'_>>) -> u128
    ensures len { result ≡ length (anchor_part (option_map cow_str_bytes anchor.now)) }
    ensures small { result < 2 ^ 66 }
{
    match anchor {
        None => 0,
        Some(name) => SIGN + name.as_str().len() as u128,
    }
}

/// How many bytes more than one a byte of a tag takes.
#[tactic(auto, unfolding(yaml_definitions::specs::canonical::TagText::spell_byte))]
fn more_in_tag(byte: u8) -> u128
    ensures more { result + 1 ≡ length (spell_byte byte) }
    ensures few { result ≤ 2 }
{
    if is_uri(char::from(byte)) { 0 } else { 2 }
}

/// How many bytes a tag's percent-encoding has.
fn encoded_len(tag: &str) -> u128
    ensures len { result ≡ length (encoded tag.now []) }
    ensures small { result < 2 ^ 66 }
{
    let mut len = tag.len() as u128;
    'encode: for byte in tag.as_bytes() {
        len += more_in_tag(*byte);
    }
    len
}

/// How many bytes a tag takes, where there is one.
fn tag_len(tag: &EventTag<'_>) -> u128
    ensures len { result ≡ length (tag_part (written_of tag.now)) }
    ensures small { result < 2 ^ 67 }
{
    match tag {
        EventTag::None => 0,
        EventTag::NonSpecific => 4,
        EventTag::Full(full) => 3 + encoded_len(full.as_str()),
    }
}

/// How many bytes more than one a byte of a value takes.
#[tactic(auto, unfolding(yaml_definitions::specs::model::EventText::value_byte))]
fn more_in_value(byte: u8) -> u8
    ensures more { result + 1 ≡ length (value_byte byte) }
    ensures few { result ≤ 1 }
{
    match byte {
        b'\\' | b'\n' | b'\t' | b'\r' | 0x08 => 1,
        _ => 0,
    }
}

/// How many bytes more than it has a piece of a value takes. Counted in one byte, sixteen at a time can be added up.
fn more_in_piece(piece: &[u8]) -> u8
    requires { length piece.now < 256 }
    ensures more { result + length piece.now ≡ length (value_text piece.now) }
    ensures few { result ≤ length piece.now }
{
    let mut more: u8 = 0;
    'measure: for byte in piece {
        more += more_in_value(*byte);
    }
    more
}

/// How many bytes a text has as a value.
fn value_len(text: &str) -> u128
    ensures len { result ≡ length (value_text text.now) }
    ensures small { result < 2 ^ 66 }
{
    let mut len = text.len() as u128;
    let mut rest = text.as_bytes();
    'pieces: while rest.len() > PIECE {
        let (piece, behind) = rest.split_at(PIECE);
        len += more_in_piece(piece) as u128;
        rest = behind;
    }
    len + more_in_piece(rest) as u128
}

/// How many bytes an event's line has with its LF.
#[tactic(auto, unfolding(yaml_definitions::specs::model::EventText::event_line))]
fn line_len(event: &Event<'_>) -> u128
    ensures { result ≡ length (event_line (event_of event.now) ++ (b-line-feed ∷ [])) }
{
    match event {
        Event::StreamStart | Event::StreamEnd | Event::SequenceEnd | Event::MappingEnd => BARE,
        Event::DocumentStart { explicit } => BARE + mark_len(" ---", *explicit),
        Event::DocumentEnd { explicit } => BARE + mark_len(" ...", *explicit),
        Event::SequenceStart { flow, anchor, tag } => {
            BARE + mark_len(" []", *flow) + anchor_len(anchor) + tag_len(tag)
        }
        Event::MappingStart { flow, anchor, tag } => {
            BARE + mark_len(" {}", *flow) + anchor_len(anchor) + tag_len(tag)
        }
        Event::Scalar {
            anchor,
            tag,
            text,
            ..
        } => BARE + anchor_len(anchor) + tag_len(tag) + SIGN + value_len(text.as_str()),
        Event::Alias { name } => BARE + SIGN + name.as_str().len() as u128,
    }
}

/// How many bytes the text of events has. `OutOfMemory` means that the number is past the greatest `usize`.
pub fn text_len(events: &[Event<'_>]) -> Result<usize, AllocError>
    ensures ok { IfOk result (λ len. len ≡ length (events_text (map event_of events.now))) }
{
    let mut left = usize::MAX;
    'lines: for event in events {
        let more = line_len(event);
        if more > left as u128 {
            return Err(AllocError);
        }
        left -= more as usize;
    }
    Ok(usize::MAX - left)
}
