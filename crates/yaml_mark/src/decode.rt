//! Tags decoded (YAML 1.2.2, 5.6 and 6.9.1).
ghost use Rattle.std.specs.Prelude.{◌≡◌, [], ◌∷◌, ◌++◌, ℕ, List, IfOk, IfErr, string_bytes};
ghost use Rattle.std.specs.Option.{option_map};
ghost use Rattle.std.specs.Cow.{cow_str_bytes};
ghost use Rattle.yaml_definitions.specs.model.Event.{full};
ghost use Rattle.yaml_definitions.specs.model.Tag.{is_full};
ghost use Rattle.yaml_definitions.specs.grammar.Characters.{c-tag};
ghost use Rattle.yaml_definitions.specs.grammar.Tags.{decoded, percent_decode};
ghost use Rattle.yaml_text.specs.declared.fault.Fault.TheVariants as fault;
ghost use Rattle.yaml_mark.specs.PrefixModel.{bytes_of};

use crate::decoded::Prefix;
use percent_encoding::{DecodeError, percent_decode_str};
use std::alloc::Global;
use std::borrow::CowStr;
use yaml_text::fault::Fault;
use yaml_text::limits::tag_limit;

/// Whether a decoded text is a tag: neither empty nor too long nor `!`.
#[tactic(auto, unfolding(yaml_definitions::specs::model::Tag::is_full))]
fn is_tag(text: &str) -> bool
    ensures { result ≡ is_full text.now }
{
    let longest = tag_limit();
    if text.is_empty() {
        return false;
    }
    if text.len() > longest {
        return false;
    }
    text != "!"
}

/// The text with no room to spare. Decoding takes room as it finds escapes, and each use of a tag keeps its own.
fn trimmed<'a>(text: CowStr<'a>) -> CowStr<'a>
    ensures { cow_str_bytes result ≡ cow_str_bytes text.entry }
{
    match text {
        CowStr::Borrowed(text) => CowStr::Borrowed(text),
        CowStr::Owned(mut text) => {
            text.shrink_to_fit();
            CowStr::Owned(text)
        }
    }
}

/// The tag of a text, decoded once. A text without escapes is its own tag.
pub(crate) fn decode<'a>(alloc: Global, text: &'a str) -> Result<Option<CowStr<'a>>, Fault>
    ensures ok { IfOk result (λ tag. option_map (λ t. full (cow_str_bytes t)) tag ≡ decoded text.now) }
    ensures err { IfErr result (λ e. e ≡ fault.OutOfMemory) }
{
    match percent_decode_str(text).decode_utf8(alloc) {
        Ok(tag) => {
            if is_tag(tag.as_str()) {
                Ok(Some(trimmed(tag)))
            } else {
                Ok(None)
            }
        }
        Err(DecodeError::Utf8(_)) => Ok(None),
        Err(DecodeError::OutOfMemory) => Err(Fault::OutOfMemory),
    }
}

/// The tag of decoded bytes, with no room to spare.
fn tag_of(alloc: Global, bytes: &[u8]) -> Result<Option<String>, Fault>
    ensures ok { IfOk result (λ tag. (text : List ℕ) → percent_decode text ≡ bytes.now → option_map (λ t. full (string_bytes t)) tag ≡ decoded text) }
    ensures err { IfErr result (λ e. e ≡ fault.OutOfMemory) }
{
    match simdutf8::basic::from_utf8(bytes) {
        Ok(text) => {
            if is_tag(text) {
                Ok(Some(String::from_str(alloc, text)?))
            } else {
                Ok(None)
            }
        }
        Err(_) => Ok(None),
    }
}

/// The tag of two texts together.
fn glue(alloc: Global, front: &str, back: &str) -> Result<Option<String>, Fault>
    ensures ok { IfOk result (λ tag. (text : List ℕ) → percent_decode text ≡ front.now ++ back.now → option_map (λ t. full (string_bytes t)) tag ≡ decoded text) }
    ensures err { IfErr result (λ e. e ≡ fault.OutOfMemory) }
{
    let mut tag = String::with_capacity(alloc, front.len() + back.len())?;
    tag.push_str(front)?;
    tag.push_str(back)?;
    if is_tag(tag.as_str()) {
        Ok(Some(tag))
    } else {
        Ok(None)
    }
}

/// The same as `join`, for texts that are no UTF-8 one by one.
fn join_bytes(alloc: Global, prefix: &[u8], suffix: &str) -> Result<Option<String>, Fault>
    ensures ok { IfOk result (λ tag. (text : List ℕ) → percent_decode text ≡ prefix.now ++ percent_decode suffix.now → option_map (λ t. full (string_bytes t)) tag ≡ decoded text) }
    ensures err { IfErr result (λ e. e ≡ fault.OutOfMemory) }
{
    let mut bytes = Vec::with_capacity(alloc, prefix.len() + suffix.len())?;
    bytes.extend_from_slice(prefix)?;
    percent_decode_str(suffix).append_to(&mut bytes)?;
    tag_of(alloc, bytes.as_slice())
}

/// The tag of a decoded prefix and a suffix, which is decoded here. They are judged as one, since a character's escapes may
/// stand in both.
fn join(alloc: Global, prefix: Prefix<'_>, suffix: &str) -> Result<Option<String>, Fault>
    ensures ok { IfOk result (λ tag. (text : List ℕ) → percent_decode text ≡ bytes_of prefix.entry ++ percent_decode suffix.now → option_map (λ t. full (string_bytes t)) tag ≡ decoded text) }
    ensures err { IfErr result (λ e. e ≡ fault.OutOfMemory) }
{
    let front = match prefix {
        Prefix::Text(front) => front,
        Prefix::Bytes(bytes) => return join_bytes(alloc, bytes, suffix),
    };
    if !suffix.as_bytes().contains(&b'%') {
        return glue(alloc, front, suffix);
    }
    match percent_decode_str(suffix).decode_utf8(alloc) {
        Ok(back) => glue(alloc, front, back.as_str()),
        Err(DecodeError::Utf8(_)) => join_bytes(alloc, front.as_bytes(), suffix),
        Err(DecodeError::OutOfMemory) => Err(Fault::OutOfMemory),
    }
}

/// The tag of a shorthand with this suffix, whose handle stands for this prefix. Where that is the `!` with which the shorthand
/// begins, and which is all of its handle, the tag is decoded as it stands there, and without escapes it is a part of the text.
pub(crate) fn expand<'a>(
    alloc: Global,
    prefix: Prefix<'_>,
    shorthand: &'a str,
    suffix: &str,
) -> Result<Option<CowStr<'a>>, Fault>
    requires { (handle : List ℕ) × (shorthand.now ≡ c-tag ∷ (handle ++ suffix.now)) }
    ensures ok { IfOk result (λ tag. (text : List ℕ) → percent_decode text ≡ bytes_of prefix.entry ++ percent_decode suffix.now → option_map (λ t. full (cow_str_bytes t)) tag ≡ decoded text) }
    ensures err { IfErr result (λ e. e ≡ fault.OutOfMemory) }
{
    if prefix.is_bang() && shorthand.len() - suffix.len() == 1 {
        return decode(alloc, shorthand);
    }
    match join(alloc, prefix, suffix)? {
        None => Ok(None),
        Some(tag) => Ok(Some(CowStr::Owned(tag))),
    }
}
