//! The values of event lines: a scalar's text, in which five characters are escaped.
ghost use Rattle.std.specs.Prelude.{◌≡◌, ◌<◌, ◌≤◌, ◌+◌, ◌++◌, [], ◌∷◌, true, length, MatchOption, OnOk, OnErr, IfOk, ◌≢◌, ℕ};
ghost use Rattle.std.specs.Str.{IsUtf8};
ghost use Rattle.std.specs.Cow.{cow_str_bytes};
ghost use Rattle.yaml_definitions.specs.model.EventText.{value_byte, value_text};
ghost use Rattle.yaml_definitions.specs.grammar.Characters.{c-escape};
ghost use Rattle.yaml_events.specs.LineAnswer.{Parses};

use crate::fault::LineFault;
use crate::sink::Sink;
use std::alloc::{AllocError, Global};
use std::borrow::CowStr;
use yaml_text::front::front_len;

/// The escape of a byte that no value has as itself.
#[tactic(auto, unfolding(yaml_definitions::specs::model::EventText::value_byte))]
pub fn escape_of(byte: u8) -> Option<&'static str>
    ensures { MatchOption result (value_byte byte ≡ byte ∷ []) (λ text. (text.now ≡ value_byte byte) × (byte < 128) × (value_byte byte ≢ byte ∷ [])) }
{
    // most bytes are told by two comparisons
    if byte >= b' ' && byte != b'\\' {
        return None;
    }
    match byte {
        b'\\' => Some("\\\\"),
        b'\n' => Some("\\n"),
        b'\t' => Some("\\t"),
        b'\r' => Some("\\r"),
        0x08 => Some("\\b"),
        _ => None,
    }
}

/// Whether a byte surely stands for itself in a value. It has no branch, for `front_len`.
#[tactic(auto, unfolding(yaml_definitions::specs::model::EventText::value_byte))]
fn is_kept(byte: u8) -> bool
    ensures { result ≡ true → value_byte byte ≡ byte ∷ [] }
{
    (byte >= b' ') & (byte != b'\\')
}

/// Appends a text as a value, with escapes.
pub fn push_value<S: Sink>(text: &str, out: &mut S) -> Result<(), AllocError>
    ensures ok { OnOk result (S.bytes out.new ≡ S.bytes out.old ++ value_text text.now) }
    ensures keeps { S.room out.old ≤ S.room out.new }
    ensures lent { S.lent out.new ≡ S.lent out.old }
    ensures full { OnErr result (S.room out.old < length (S.bytes out.old) + length (value_text text.now)) }
{
    let bytes = text.as_bytes();
    let mut run = 0;
    let mut at = 0;
    'spell: loop {
        let here = at + front_len(&bytes[at..], is_kept);
        if here == bytes.len() {
            return out.put(&text[run..]);
        }
        if let Some(escape) = escape_of(bytes[here]) {
            out.put(&text[run..here])?;
            out.put(escape)?;
            run = here + 1;
        }
        at = here + 1;
    }
}

/// What a backslash and this byte stand for in a value.
#[tactic(auto, unfolding(yaml_definitions::specs::model::EventText::value_byte))]
fn unescape(byte: u8) -> Option<char>
    ensures { MatchOption result ((b : ℕ) → value_byte b ≢ c-escape ∷ byte ∷ []) (λ c. (value_byte c ≡ c-escape ∷ byte ∷ []) × (byte < 128) × (c < 128)) }
{
    match byte {
        b'\\' => Some('\\'),
        b'n' => Some('\n'),
        b't' => Some('\t'),
        b'r' => Some('\r'),
        b'b' => Some('\u{8}'),
        _ => None,
    }
}

/// The text of a value: a slice if nothing in it is escaped, otherwise a new text.
pub fn read_value<'a>(alloc: Global, value: &'a str) -> Result<CowStr<'a>, LineFault>
    ensures reads { Parses (λ x. value.now ≡ value_text x) (λ x. value.now ≡ value_text x) cow_str_bytes result }
    ensures utf8 { IfOk result (λ x. IsUtf8 (cow_str_bytes x)) }
{
    let mut out = String::new(alloc);
    let mut run = 0;
    let mut escaped = false;
    'read: for (at, byte) in value.as_bytes().iter().enumerate() {
        if escaped {
            let Some(c) = unescape(*byte) else {
                return Err(LineFault::NoEvent);
            };
            out.push(c)?;
            run = at + 1;
            escaped = false;
        } else if *byte == b'\\' {
            out.push_str(&value[run..at])?;
            escaped = true;
        } else if escape_of(*byte).is_some() {
            return Err(LineFault::NoEvent);
        }
    }
    if escaped {
        return Err(LineFault::NoEvent);
    }
    if run == 0 {
        return Ok(CowStr::Borrowed(value));
    }
    out.push_str(&value[run..])?;
    Ok(CowStr::Owned(out))
}
