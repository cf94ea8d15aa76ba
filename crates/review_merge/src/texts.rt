//! The texts of values that differ.
ghost use Rattle.std.specs.Prelude.{◌≡◌, ◌-◌, ◌<◌, ◌++◌, [], cond, max, map, length, nat_lt, unwrap_or, codes, string_bytes, OnOk, IfOk};
ghost use Rattle.std.specs.Option.{option_map};
ghost use Rattle.std.specs.Str.{IsCharBoundary};
ghost use Rattle.review_text.specs.Shown.{shown};
ghost use Rattle.review_merge.specs.Parts.{values_in, node_value, node_texts, budget, bytes_in, common, common_with, last_difference, base_text, own_place, lead, part_start, part_of, looks_like, place_behind, part_behind, parts_behind, ShowsValues, ShowsParts};

use review_text::text::{CUT, WHOLE, front, node_text, put_all};
use std::alloc::{AllocError, Global};
use yaml_store_rank::RankedForests;
use yaml_tree::node::NodeId;

/// How many bytes are shown before the place by which a text differs.
const LEAD: usize = 20;

/// A text is shown from its start if that place is before this one.
const NEAR: usize = 40;

/// How many bytes of texts are looked at to find that place in all lines together.
const BYTES: usize = 64 * 1_024 * 1_024;

/// What stands for bytes that are left out.
const MORE: &str = "...";

/// How many bytes of texts may still be looked at.
#[derive(Clone, Copy)]
pub(crate) struct Budget {
    bytes: usize,
}

impl Budget {
    /// What all lines may take together.
    pub(crate) fn new() -> Budget
        ensures { result.bytes ≡ budget }
    {
        Budget { bytes: BYTES }
    }
}

/// The text of a node, as far as there is room; none where there is no node.
fn text_in(
    alloc: Global,
    forests: &RankedForests<'_>,
    node: Option<NodeId>,
    room: usize,
) -> Result<Option<String>, AllocError>
    ensures ok { IfOk result (λ text. option_map string_bytes text ≡ node_value forests.now room node) }
{
    match node {
        Some(id) => Ok(Some(node_text(alloc, forests, id, room)?)),
        None => Ok(None),
    }
}

/// The text of each node, as far as there is room; none where there is no node.
fn texts_in(
    alloc: Global,
    forests: &RankedForests<'_>,
    nodes: &[Option<NodeId>],
    room: usize,
) -> Result<Vec<Option<String>>, AllocError>
    ensures ok { IfOk result (λ texts. values_in texts.items ≡ node_texts forests.now room nodes.now) }
{
    let mut texts = Vec::new(alloc);
    'nodes: for node in nodes {
        texts.push(text_in(alloc, forests, *node, room)?)?;
    }
    Ok(texts)
}

/// Where two texts first differ: at the end of the shorter one, if they do not before.
fn difference_of(one: &[u8], other: &[u8]) -> usize
    ensures { result ≡ common one.now other.now }
{
    'bytes: for (at, byte) in one.iter().enumerate() {
        if other.get(at) != Some(byte) {
            return at;
        }
    }
    one.len()
}

/// Where another text, if there is one, first differs from this one.
fn common_with(text: &str, other: &Option<String>) -> usize
    ensures { result ≡ common_with text.now (option_map string_bytes other.now) }
{
    match other {
        Some(other) => {
            if text == other.as_str() {
                0
            } else {
                difference_of(text.as_bytes(), other.as_bytes())
            }
        }
        None => 0,
    }
}

/// The later one of two places.
fn later(one: usize, other: usize) -> usize
    ensures { result ≡ max one other }
{
    if one < other { other } else { one }
}

/// The last place at which one of the other texts first differs from this one.
fn last_difference(text: &str, wholes: &[Option<String>]) -> usize
    ensures { result ≡ last_difference text.now (values_in wholes.now) }
{
    let mut last = 0;
    'wholes: for whole in wholes {
        last = later(last, common_with(text, whole));
    }
    last
}

/// The text of the base, or no byte.
fn base_text(wholes: &[Option<String>]) -> &[u8]
    ensures { result.now ≡ base_text (values_in wholes.now) }
{
    match wholes.first() {
        Some(Some(text)) => text.as_bytes(),
        _ => &[],
    }
}

/// Where a text first differs from the base's; if it is the base's, where the last of the others does.
fn own_place(wholes: &[Option<String>], text: &str) -> usize
    ensures { result ≡ own_place (values_in wholes.now) text.now }
{
    let base = base_text(wholes);
    if base == text.as_bytes() {
        last_difference(text, wholes)
    } else {
        difference_of(base, text.as_bytes())
    }
}

/// Dots for what is left out before a byte.
fn dots(start: usize) -> &'static str
    ensures { result.now ≡ cond (nat_lt 0 start) (codes "...") [] }
{
    if start > 0 { MORE } else { "" }
}

/// How many bytes may be left out of a text of this length before a place.
fn lead(len: usize, place: usize) -> usize
    ensures { result ≡ lead place len }
{
    if len > CUT && place >= NEAR {
        place.saturating_sub(LEAD)
    } else {
        0
    }
}

/// Where the part of a text near a place begins.
fn part_start(text: &str, place: usize) -> usize
    ensures is { result ≡ part_start place text.now }
    ensures border { IsCharBoundary text.now result }
{
    text.floor_char_boundary(lead(text.len(), place))
}

/// A text of up to 60 bytes, or the front of a longer one, and dots.
fn put_front(out: &mut String, text: &str) -> Result<(), AllocError>
    ensures ok { OnOk result (string_bytes out.new ≡ string_bytes out.old ++ shown 60 text.now) }
{
    if text.len() > CUT {
        return put_all(out, &[front(text, CUT), MORE]);
    }
    out.push_str(text)?;
    Ok(())
}

/// The part of a text near a place, with dots for what is left out.
fn part_of(alloc: Global, text: &str, place: usize) -> Result<String, AllocError>
    ensures ok { IfOk result (λ part. string_bytes part ≡ part_of place text.now) }
{
    let start = part_start(text, place);
    let rest = &text[start..];
    let mut part = String::new(alloc);
    part.push_str(dots(start))?;
    put_front(&mut part, rest)?;
    Ok(part)
}

/// Whether this is another text, of which the same part would be shown.
fn looks_like(
    alloc: Global,
    wholes: &[Option<String>],
    one: &str,
    other: &str,
) -> Result<bool, AllocError>
    ensures ok { IfOk result (λ is. is ≡ looks_like (values_in wholes.now) one.now other.now) }
{
    if one == other {
        return Ok(false);
    }
    let first = part_of(alloc, one, own_place(wholes, one))?;
    let second = part_of(alloc, other, own_place(wholes, other))?;
    Ok(first == second)
}

/// The place near which a text is shown behind some others: its own, or where it first differs from one of these that it looks like.
fn place_behind(
    alloc: Global,
    wholes: &[Option<String>],
    before: &[Option<String>],
    text: &str,
) -> Result<usize, AllocError>
    ensures ok { IfOk result (λ place. place ≡ place_behind (values_in wholes.now) (values_in before.now) text.now) }
{
    'others: for other in before {
        if let Some(other) = other {
            if looks_like(alloc, wholes, text, other)? {
                return Ok(difference_of(text.as_bytes(), other.as_bytes()));
            }
        }
    }
    Ok(own_place(wholes, text))
}

/// The part of a text that is shown behind some others, if there is a text.
fn part_behind(
    alloc: Global,
    wholes: &[Option<String>],
    before: &[Option<String>],
    whole: &Option<String>,
) -> Result<Option<String>, AllocError>
    ensures ok { IfOk result (λ part. option_map string_bytes part ≡ option_map (part_behind (values_in wholes.now) (values_in before.now)) (option_map string_bytes whole.now)) }
{
    match whole {
        Some(text) => {
            let place = place_behind(alloc, wholes, before, text)?;
            Ok(Some(part_of(alloc, text, place)?))
        }
        None => Ok(None),
    }
}

/// The parts of texts by which they differ.
fn parts_of(alloc: Global, wholes: &[Option<String>]) -> Result<Vec<Option<String>>, AllocError>
    ensures ok { IfOk result (λ parts. values_in parts.items ≡ parts_behind (values_in wholes.now) [] (values_in wholes.now)) }
{
    let mut parts = Vec::new(alloc);
    'wholes: for (at, whole) in wholes.iter().enumerate() {
        parts.push(part_behind(alloc, wholes, &wholes[..at], whole)?)?;
    }
    Ok(parts)
}

/// How many bytes a text has, if there is one.
fn len_in(text: &Option<String>) -> usize
    ensures { result ≡ length (unwrap_or (option_map string_bytes text.now) []) }
{
    match text {
        Some(text) => text.as_str().len(),
        None => 0,
    }
}

/// How many bytes may still be looked at behind those of some texts.
fn left_of(bytes: usize, texts: &[Option<String>]) -> usize
    ensures { result ≡ bytes - bytes_in (values_in texts.now) }
{
    let mut left = bytes;
    'texts: for text in texts {
        left = left.saturating_sub(len_in(text));
    }
    left
}

/// The parts of the texts of nodes by which they differ.
fn node_parts(
    alloc: Global,
    forests: &RankedForests<'_>,
    nodes: &[Option<NodeId>],
    budget: &mut Budget,
) -> Result<Vec<Option<String>>, AllocError>
    requires some_left { 0 < budget.old.bytes }
    ensures ok { IfOk result (λ texts. ShowsParts forests.now nodes.now budget.old.bytes budget.new.bytes (values_in texts.items)) }
{
    let wholes = texts_in(alloc, forests, nodes, WHOLE)?;
    budget.bytes = left_of(budget.bytes, &wholes);
    parts_of(alloc, &wholes)
}

/// The texts of nodes as they are shown: whole, or up to 60 bytes of each, by which they differ.
pub(crate) fn texts_of(
    alloc: Global,
    forests: &RankedForests<'_>,
    nodes: &[Option<NodeId>],
    whole: bool,
    budget: &mut Budget,
) -> Result<Vec<Option<String>>, AllocError>
    ensures ok { IfOk result (λ texts. ShowsValues forests.now nodes.now budget.old.bytes budget.new.bytes (values_in texts.items) whole) }
{
    if whole {
        return texts_in(alloc, forests, nodes, WHOLE);
    }
    if budget.bytes == 0 {
        return texts_in(alloc, forests, nodes, CUT);
    }
    node_parts(alloc, forests, nodes, budget)
}
