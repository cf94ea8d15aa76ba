//! What is said of a key to which another key of its mapping is equal.
ghost use Rattle.std.specs.Prelude.{◌≡◌, ◌++◌, Some, codes, cond, option_map, take, string_bytes, IfOk, OnOk};
ghost use Rattle.yaml_text.specs.EventModel.{event_of};
ghost use Rattle.review_faults.specs.EventSpots.{advice, at_line, begins_item, begins_marker, between, equal_key_words, has_marker, is_merge, is_name_at, item_advice, key_name, merge_advice, plain_advice, repeat_at};
ghost use Rattle.review_faults.specs.Labels.{label_of, node_of};
ghost use Rattle.review_faults.specs.Says.{label_text};

use crate::cause::{is_name_byte, put_label};
use crate::label::{Label, node_of};
use std::alloc::{AllocError, Global};
use yaml_path::Place;
use yaml_text::event::Event;

/// Writes a scalar or a name between backticks, of 60 bytes at most.
fn put_quoted(alloc: Global, out: &mut String, label: Label<'_>) -> Result<(), AllocError>
    ensures ok { OnOk result (string_bytes out.new ≡ string_bytes out.old ++ (codes "`" ++ (label_text (Some (label_of label.entry)) ++ codes "`"))) }
{
    out.push_str("`")?;
    put_label(alloc, out, Some(label))?;
    out.push_str("`")?;
    Ok(())
}

/// Writes the text of the key that begins at an event, if it has one.
fn put_name(alloc: Global, out: &mut String, event: &Event<'_>) -> Result<(), AllocError>
    ensures ok { OnOk result (string_bytes out.new ≡ string_bytes out.old ++ key_name (node_of (event_of event.now))) }
{
    match node_of(event) {
        Some(label) if !label.text.is_empty() => put_quoted(alloc, out, label),
        _ => {
            out.push_str("this key")?;
            Ok(())
        }
    }
}

/// Writes the line of a place, if there is one.
fn put_line(out: &mut String, place: Option<Place>) -> Result<(), AllocError>
    ensures ok { OnOk result (string_bytes out.new ≡ string_bytes out.old ++ at_line place) }
{
    if let Some(place) = place {
        let line = place.line;
        write!(out, ", at line {line}")?;
    }
    Ok(())
}

/// A text before an offset.
fn before(text: &[u8], at: usize) -> &[u8]
    ensures { result.now ≡ take at text.now }
{
    text.get(..at).unwrap_or(text)
}

/// Whether an item of a block sequence begins at an offset.
fn begins_item(text: &[u8], at: usize) -> bool
    ensures { result ≡ begins_item text.now at }
{
    before(text, at).ends_with(b"- ")
}

/// Whether a byte is a letter, a digit, `-` or `_`.
fn is_name_at(byte: Option<&u8>) -> bool
    ensures { result ≡ is_name_at (option_map (λ b. b.now) byte.entry) }
{
    match byte {
        Some(byte) => is_name_byte(*byte),
        None => false,
    }
}

/// Whether a text begins with a line feed and `---`, and goes on so that this is no document marker.
fn begins_marker(text: &[u8]) -> bool
    ensures { result ≡ begins_marker text.now }
{
    text.starts_with(b"\n---") && is_name_at(text.get(4))
}

/// Whether a line of a text after the first one begins so.
fn has_marker(text: &[u8]) -> bool
    ensures { result ≡ has_marker text.now }
{
    let mut rest = text;
    'bytes: while let Some((_, more)) = rest.split_first() {
        if begins_marker(rest) {
            return true;
        }
        rest = more;
    }
    false
}

/// The text from one offset to another one.
fn between(text: &[u8], first: usize, second: Option<usize>) -> &[u8]
    ensures { result.now ≡ between text.now first second }
{
    match second {
        Some(second) => before(text, second).get(first..).unwrap_or(&[]),
        None => &[],
    }
}

/// What is around the first of two equal keys.
#[derive(Clone, Copy)]
pub(crate) enum Repeat {
    /// Between them a line begins with `---` and goes on.
    Marker,
    /// It begins an item.
    Item,
    /// Neither.
    Plain,
}

/// What is around the first of two equal keys, whose offsets are these.
pub(crate) fn repeat_at(text: &[u8], first: Option<usize>, second: Option<usize>) -> Repeat
    ensures { result ≡ repeat_at text.now first second }
{
    let Some(first) = first else {
        return Repeat::Plain;
    };
    if has_marker(between(text, first, second)) {
        Repeat::Marker
    } else if begins_item(text, first) {
        Repeat::Item
    } else {
        Repeat::Plain
    }
}

/// Whether the key that begins at an event is the one by which tools merge.
fn is_merge(event: &Event<'_>) -> bool
    ensures { result ≡ is_merge (node_of (event_of event.now)) }
{
    match node_of(event) {
        Some(label) => label.text == "<<",
        None => false,
    }
}

/// What to do with the second key by which tools merge.
const MERGE: &str =
    ": remove one: tools that merge take `<<: [*a, *b]`, and for YAML 1.2 `<<` is a key like others";

/// What to do with the second of two equal keys, of which the first begins an item.
fn item_advice(merges: bool) -> &'static str
    ensures { result.now ≡ cond merges merge_advice item_advice }
{
    if merges {
        MERGE
    } else {
        ": remove or rename one, or begin a new item with `- `"
    }
}

/// What to do with the second of two other equal keys.
fn plain_advice(merges: bool) -> &'static str
    ensures { result.now ≡ cond merges merge_advice plain_advice }
{
    if merges {
        MERGE
    } else {
        ": remove or rename one"
    }
}

/// What to do with the key that begins at an event, with this around the first key that is equal to it.
fn advice(around: Repeat, event: &Event<'_>) -> &'static str
    ensures { result.now ≡ advice around (node_of (event_of event.now)) }
{
    match around {
        Repeat::Marker =>
            ": put a line break after the `---` between them, which begins no document so",
        Repeat::Item => item_advice(is_merge(event)),
        Repeat::Plain => plain_advice(is_merge(event)),
    }
}

/// What is said of the key that begins at an event, where the first key that is equal to it is at this place, with this around it.
pub(crate) fn equal_key_words(
    alloc: Global,
    event: &Event<'_>,
    first: Option<Place>,
    around: Repeat,
) -> Result<String, AllocError>
    ensures ok { IfOk result (λ words. string_bytes words ≡ equal_key_words (event_of event.now) first around) }
{
    let mut out = String::new(alloc);
    put_name(alloc, &mut out, event)?;
    out.push_str(" is in this mapping already")?;
    put_line(&mut out, first)?;
    out.push_str(advice(around, event))?;
    Ok(out)
}
