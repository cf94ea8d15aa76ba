//! The text of a node: that of the canonical text, with aliases in place.
ghost use Rattle.std.specs.Prelude.{◌≡◌, ℕ, ◌<◌, ◌≤◌, List, ◌++◌, ◌∷◌, ◌&&◌, [], length, map, flat_map, cond, bytes_eq, codes, string_bytes, OnOk, IfOk, MatchOption, MatchBool};
ghost use Rattle.std.specs.List.{All, list_all};
ghost use Rattle.std.specs.Str.{encode_utf8_all};
ghost use Rattle.yaml_definitions.specs.grammar.Characters.{c-mapping-start, c-sequence-start};
ghost use Rattle.yaml_definitions.specs.model.Tag.{str_tag};
ghost use Rattle.yaml_definitions.specs.model.Tree.{scalar};
ghost use Rattle.yaml_definitions.specs.model.Order.{arranged};
ghost use Rattle.yaml_definitions.specs.canonical.NodeText.{items_text, pairs_text};
ghost use Rattle.yaml_definitions.specs.canonical.TagText.{spell_byte, encoded, full_text};
ghost use Rattle.yaml_tree.specs.TreeLists.{trees, pairs};
ghost use Rattle.yaml_store_rank.specs.Forests.{count, tree, rank, entries_at, InKeyOrder};
ghost use Rattle.yaml_store_rank.specs.ArrangedForests.{two_arranged};
ghost use Rattle.yaml_scalar.specs.Spelling.{quoted_bytes};
ghost use Rattle.review_text.specs.Fills.{Fills};
ghost use Rattle.review_text.specs.NodeText.{text_of, items_out, pairs_out, separator};
ghost use Rattle.review_text.specs.PathText.{is_name_start, is_name_byte, is_name, key_text, bracketed, whole_limit};
ghost use Rattle.review_text.specs.Shown.{front, shown, IsLongFront};

use percent_encoding::percent_encode_byte;
use std::alloc::{AllocError, Global};
use yaml_scalar::spell::spell_into;
use yaml_store_rank::RankedForests;
use yaml_text::class::is_uri;
use yaml_text::core_tag;
use yaml_tree::node::NodeId;
use yaml_tree::shown::Inside;

/// How many bytes a text has that is not cut.
pub const CUT: usize = 60;

/// The same of a text that is to be shown whole, and of a key in a path: aliases in place may double at each step.
pub const WHOLE: usize = 65_536;

/// What stands behind a text that is cut.
const MORE: &str = "...";

/// Whether a name begins with this byte.
fn is_name_start(byte: u8) -> bool
    ensures { result ≡ is_name_start byte }
{
    matches!(byte, b'A'..=b'Z' | b'a'..=b'z' | b'_')
}

/// Whether this byte stands in names.
fn is_name_byte(byte: u8) -> bool
    ensures { result ≡ is_name_byte byte }
{
    is_name_start(byte) || matches!(byte, b'0'..=b'9' | b'-')
}

/// Whether these bytes stand in names.
fn are_name_bytes(bytes: &[u8]) -> bool
    ensures { result ≡ list_all is_name_byte bytes.now }
{
    bytes.iter().all(|byte| is_name_byte(*byte))
}

/// Whether a text is a name.
fn is_name(text: &str) -> bool
    ensures { result ≡ is_name text.now }
{
    match text.as_bytes().split_first() {
        Some((first, rest)) => is_name_start(*first) && are_name_bytes(rest),
        None => false,
    }
}

/// Whether a key of this tag and content is written in a path as it is.
#[tactic(auto, unfolding(yaml_definitions::specs::model::Tag::core_tag))]
fn is_named(tag: &str, content: &str) -> bool
    ensures { result ≡ (bytes_eq tag.now str_tag && is_name content.now) }
{
    tag == core_tag::STR && is_name(content)
}

/// Writes texts one behind another.
pub fn put_all(out: &mut String, texts: &[&str]) -> Result<(), AllocError>
    ensures ok { OnOk result (string_bytes out.new ≡ string_bytes out.old ++ flat_map (λ text. text.now) texts.now) }
{
    for text in texts {
        out.push_str(text)?;
    }
    Ok(())
}

/// A byte of a tag: as it is where it is a URI character, else percent-encoded.
fn put_byte(out: &mut String, byte: u8) -> Result<(), AllocError>
    ensures ok { OnOk result (string_bytes out.new ≡ string_bytes out.old ++ encode_utf8_all (spell_byte byte)) }
{
    let c = char::from(byte);
    if is_uri(c) {
        out.push(c)?;
    } else {
        out.push_str(percent_encode_byte(byte))?;
    }
    Ok(())
}

/// A tag's bytes, percent-encoded.
fn put_encoded(out: &mut String, tag: &str) -> Result<(), AllocError>
    ensures ok { OnOk result (string_bytes out.new ≡ string_bytes out.old ++ encode_utf8_all (encoded tag.now [])) }
{
    for byte in tag.as_bytes() {
        put_byte(out, *byte)?;
    }
    Ok(())
}

/// A tag and a space. A kind's own tag is not written.
fn put_tag(out: &mut String, tag: &str, own: &str) -> Result<(), AllocError>
    ensures ok { OnOk result (string_bytes out.new ≡ string_bytes out.old ++ encode_utf8_all (cond (bytes_eq tag.now own.now) [] (full_text tag.now))) }
{
    if tag == own {
        return Ok(());
    }
    if let Some(known) = core_tag::core_text(tag) {
        out.push_str(known)?;
        return Ok(());
    }
    out.push_str("!<")?;
    put_encoded(out, tag)?;
    out.push_str("> ")?;
    Ok(())
}

/// A text's start of at most so many bytes, up to the end of a character.
pub fn front(text: &str, room: usize) -> &str
    ensures { result.now ≡ front room text.now }
{
    &text[..text.floor_char_boundary(room)]
}

/// A text's start of so many bytes or some more, up to the end of a character, or all of a shorter one.
fn long_front(text: &str, room: usize) -> &str
    ensures { IsLongFront room text.now result.now }
{
    &text[..text.ceil_char_boundary(room)]
}

/// Writes a content between double quotes, as the canonical text has it (YAML 1.2.2, 5.7).
pub fn put_spelled(out: &mut String, text: &str) -> Result<(), AllocError>
    ensures ok { OnOk result (string_bytes out.new ≡ string_bytes out.old ++ quoted_bytes text.now) }
{
    match spell_into(text, out) {
        Ok(()) => Ok(()),
        Err(_) => Err(AllocError),
    }
}

/// A scalar of this tag and content, of which little more is spelled than may be shown.
pub fn put_scalar(out: &mut String, tag: &str, content: &str, room: usize) -> Result<(), AllocError>
    ensures ok { OnOk result (Fills room (string_bytes out.old) (string_bytes out.new) (text_of (scalar tag.now content.now))) }
{
    put_tag(out, tag, core_tag::STR)?;
    put_spelled(out, long_front(content, room))
}

/// Whether a text has more bytes than there is room for.
fn is_full(text: &str, room: usize) -> bool
    ensures { MatchBool result (room < length text.now) (length text.now ≤ room) }
{
    text.len() > room
}

/// What is shown of a text: one of more bytes than there is room for is cut at the end of a character, and ends with `...`.
fn cut(alloc: Global, text: String, room: usize) -> Result<String, AllocError>
    ensures ok { IfOk result (λ s. string_bytes s ≡ shown room (string_bytes text)) }
{
    if !is_full(&text, room) {
        return Ok(text);
    }
    let mut short = String::new(alloc);
    put_all(&mut short, &[front(&text, room), MORE])?;
    Ok(short)
}

/// A step in brackets.
fn put_bracketed(out: &mut String, text: &str) -> Result<(), AllocError>
    ensures ok { OnOk result (string_bytes out.new ≡ string_bytes out.old ++ bracketed text.now) }
{
    put_all(out, &["[", text, "]"])
}

/// The text of a step to the value of a key of this tag and content.
pub fn put_scalar_key(
    alloc: Global,
    out: &mut String,
    tag: &str,
    content: &str,
) -> Result<(), AllocError>
    ensures ok { OnOk result (string_bytes out.new ≡ string_bytes out.old ++ key_text (scalar tag.now content.now)) }
{
    if is_named(tag, content) {
        return put_all(out, &[".", content]);
    }
    let mut text = String::new(alloc);
    put_scalar(&mut text, tag, content, WHOLE)?;
    put_bracketed(out, &cut(alloc, text, WHOLE)?)
}
/// What stands before the part at this place.
fn put_separator(out: &mut String, place: usize) -> Result<(), AllocError>
    ensures ok { OnOk result (string_bytes out.new ≡ string_bytes out.old ++ encode_utf8_all (separator place)) }
{
    if place == 0 {
        return Ok(());
    }
    out.push_str(", ")?;
    Ok(())
}

/// Writes a node as far as there is room for it, and perhaps further.
#[cycle(node)]
fn put_node(
    forests: &RankedForests<'_>,
    id: NodeId,
    room: usize,
    out: &mut String,
) -> Result<(), AllocError>
    ensures ok { OnOk result (Fills room (string_bytes out.old) (string_bytes out.new) (text_of (tree forests.now id.0))) }
{
    if is_full(out, room) {
        return Ok(());
    }
    let Some(shown) = forests.get(id) else {
        // No difference has such a number, which would stand for an empty tree.
        return put_scalar(out, "", "", room);
    };
    forests.laws();
    match shown.inside {
        Inside::Scalar(content) => put_scalar(out, shown.tag, content, room),
        Inside::Sequence(items) => {
            put_tag(out, shown.tag, core_tag::SEQ)?;
            put_items(forests, id, items, room, out)
        }
        Inside::Mapping(entries) => {
            put_tag(out, shown.tag, core_tag::MAP)?;
            put_entries(forests, id, entries.len(), room, out)
        }
    }
}

/// The same of the items of a node between brackets.
#[cycle(node)]
fn put_items(
    forests: &RankedForests<'_>,
    owner: NodeId,
    items: &[NodeId],
    room: usize,
    out: &mut String,
) -> Result<(), AllocError>
    requires below { All (λ i. i.0 < owner.0) items.now }
    ensures ok { OnOk result (Fills room (string_bytes out.old) (string_bytes out.new) (encode_utf8_all (c-sequence-start ∷ items_text [] (items_out (trees (map (λ i. arranged (tree forests.now i.0)) items.now))) []))) }
{
    out.push('[')?;
    for (place, item) in items.iter().enumerate() {
        if is_full(out, room) {
            return Ok(());
        }
        put_separator(out, place)?;
        put_node(forests, *item, room, out)?;
    }
    out.push(']')?;
    Ok(())
}

/// The same of the entries of a mapping between braces, in the order of their keys.
#[cycle(node)]
fn put_entries(
    forests: &RankedForests<'_>,
    mapping: NodeId,
    number: usize,
    room: usize,
    out: &mut String,
) -> Result<(), AllocError>
    requires within { mapping.0 < count forests.now }
    requires all { number ≡ length (entries_at forests.now mapping.0) }
    ensures ok { OnOk result ((sorted : List (ℕ × ℕ)) → InKeyOrder (rank forests.now) (entries_at forests.now mapping.0) sorted → Fills room (string_bytes out.old) (string_bytes out.new) (encode_utf8_all (c-mapping-start ∷ pairs_text [] (pairs_out (pairs (map (two_arranged forests.now) sorted))) []))) }
{
    forests.laws();
    out.push('{')?;
    for place in 0..number {
        if is_full(out, room) {
            return Ok(());
        }
        put_separator(out, place)?;
        let (key, value) = forests.entry_in_order(mapping, place);
        put_node(forests, key, room, out)?;
        out.push_str(" : ")?;
        put_node(forests, value, room, out)?;
    }
    out.push('}')?;
    Ok(())
}

/// The text of a node. One of more bytes than there is room for is cut at the end of a character, and ends with `...`.
///
/// A whole text ends with `"`, `]` or `}`, so a `.` at the end tells a cut.
pub fn node_text(
    alloc: Global,
    forests: &RankedForests<'_>,
    id: NodeId,
    room: usize,
) -> Result<String, AllocError>
    ensures ok { IfOk result (λ s. string_bytes s ≡ shown room (text_of (tree forests.now id.0))) }
{
    let mut text = String::new(alloc);
    put_node(forests, id, room, &mut text)?;
    cut(alloc, text, room)
}

/// The content of a key that is written as it is.
fn name_of<'b>(forests: &'b RankedForests<'_>, key: NodeId) -> Option<&'b str>
    ensures { MatchOption result (key_text (tree forests.now key.0) ≡ bracketed (shown whole_limit (text_of (tree forests.now key.0)))) (λ name. key_text (tree forests.now key.0) ≡ codes "." ++ name.now) }
{
    let Some(shown) = forests.get(key) else {
        return None;
    };
    forests.laws();
    match shown.inside {
        Inside::Scalar(content) => {
            if is_named(shown.tag, content) {
                Some(content)
            } else {
                None
            }
        }
        _ => None,
    }
}

/// The text of a step to the value of a key.
pub fn put_key(
    alloc: Global,
    out: &mut String,
    forests: &RankedForests<'_>,
    key: NodeId,
) -> Result<(), AllocError>
    ensures ok { OnOk result (string_bytes out.new ≡ string_bytes out.old ++ key_text (tree forests.now key.0)) }
{
    match name_of(forests, key) {
        Some(name) => put_all(out, &[".", name]),
        None => put_bracketed(out, &node_text(alloc, forests, key, WHOLE)?),
    }
}
