//! The tags of event lines, percent-encoded between angle brackets.
ghost use Rattle.std.specs.Prelude.{◌≡◌, ◌<◌, ◌≤◌, ◌+◌, ◌++◌, [], length, OnOk, OnErr, IfOk, IsTrue, ◌↔◌};
ghost use Rattle.yaml_text.specs.EventModel.{written_of};
ghost use Rattle.yaml_definitions.specs.model.EventText.{tag_part};
ghost use Rattle.yaml_definitions.specs.canonical.TagText.{encoded};
ghost use Rattle.std.specs.Cow.{cow_str_bytes};
ghost use Rattle.yaml_definitions.specs.model.Tag.{is_full};
ghost use Rattle.yaml_events.specs.LineAnswer.{Parses};
ghost use Rattle.yaml_events.specs.Parts.{IsEncoded, IsTagged, EndsTag};

use crate::fault::LineFault;
use crate::sink::Sink;
use percent_encoding::{AsciiSet, NON_ALPHANUMERIC, ascii_set, percent_decode, percent_encode};
use std::alloc::{AllocError, Global};
use std::borrow::CowStr;
use yaml_text::event::EventTag;
use yaml_text::limits::tag_limit;

/// The ASCII bytes that stand in no URI as themselves (YAML 1.2.2, 5.6); `%` is one.
const ESCAPED: AsciiSet = ascii_set!(
    NON_ALPHANUMERIC
        .remove(b'-')
        .remove(b'#')
        .remove(b';')
        .remove(b'/')
        .remove(b'?')
        .remove(b':')
        .remove(b'@')
        .remove(b'&')
        .remove(b'=')
        .remove(b'+')
        .remove(b'$')
        .remove(b',')
        .remove(b'_')
        .remove(b'.')
        .remove(b'!')
        .remove(b'~')
        .remove(b'*')
        .remove(b'\'')
        .remove(b'(')
        .remove(b')')
        .remove(b'[')
        .remove(b']')
);

/// Appends a tag's percent-encoding.
fn push_encoded<S: Sink>(tag: &str, out: &mut S) -> Result<(), AllocError>
    ensures ok { OnOk result (S.bytes out.new ≡ S.bytes out.old ++ encoded tag.now []) }
    ensures keeps { S.room out.old ≤ S.room out.new }
    ensures lent { S.lent out.new ≡ S.lent out.old }
    ensures full { OnErr result (S.room out.old < length (S.bytes out.old) + length (encoded tag.now [])) }
{
    'encode: for piece in percent_encode(tag.as_bytes(), ESCAPED) {
        out.put(piece)?;
    }
    Ok(())
}

/// Appends a tag, where there is one, after a space.
pub fn push_tag<S: Sink>(tag: &EventTag<'_>, out: &mut S) -> Result<(), AllocError>
    ensures ok { OnOk result (S.bytes out.new ≡ S.bytes out.old ++ tag_part (written_of tag.now)) }
    ensures keeps { S.room out.old ≤ S.room out.new }
    ensures lent { S.lent out.new ≡ S.lent out.old }
    ensures full { OnErr result (S.room out.old < length (S.bytes out.old) + length (tag_part (written_of tag.now))) }
{
    match tag {
        EventTag::None => Ok(()),
        EventTag::NonSpecific => out.put(" <!>"),
        EventTag::Full(full) => {
            out.put(" <")?;
            push_encoded(full.as_str(), out)?;
            out.put(">")
        }
    }
}

/// Whether a text may be a full tag.
#[tactic(auto, unfolding(yaml_definitions::specs::model::Tag::is_full))]
fn is_full(text: &str) -> bool
    ensures { result ≡ is_full text.now }
{
    !text.is_empty() && text.len() <= tag_limit() && text != "!"
}

/// Whether a text is the percent-encoding of a tag.
fn is_encoding(alloc: Global, text: &str, tag: &str) -> Result<bool, AllocError>
    ensures { IfOk result (λ b. IsTrue b ↔ (text.now ≡ encoded tag.now [])) }
{
    let encoded = percent_encode(tag.as_bytes(), ESCAPED).into_cow(alloc)?;
    Ok(encoded.as_str() == text)
}

/// The full tag whose percent-encoding this is. A tag has one encoding, so what is decoded is
/// encoded again and compared.
fn decode<'a>(alloc: Global, text: &'a str) -> Result<CowStr<'a>, LineFault>
    ensures { Parses (IsEncoded text.now) (IsEncoded text.now) cow_str_bytes result }
{
    let tag = percent_decode(text.as_bytes()).decode_utf8(alloc)?;
    if !is_full(tag.as_str()) {
        return Err(LineFault::NoEvent);
    }
    if !is_encoding(alloc, text, tag.as_str())? {
        return Err(LineFault::NoEvent);
    }
    Ok(tag)
}

/// The tag that a text begins with, if it does, after a space, and what is left.
pub fn read_tag<'a>(alloc: Global, text: &'a str) -> Result<(EventTag<'a>, &'a str), LineFault>
    ensures { Parses (IsTagged text.now) (λ p. IsTagged text.now p × EndsTag p) (λ r. (written_of r.0, r.1.now)) result }
{
    let Some(after) = text.strip_prefix(" <") else {
        return Ok((EventTag::None, text));
    };
    let Some((inner, rest)) = after.split_once('>') else {
        return Err(LineFault::NoEvent);
    };
    if inner == "!" {
        return Ok((EventTag::NonSpecific, rest));
    }
    let tag = decode(alloc, inner)?;
    Ok((EventTag::Full(tag), rest))
}
