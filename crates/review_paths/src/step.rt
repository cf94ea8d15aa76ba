//! Steps of filters and of pointers.
ghost use Rattle.std.specs.Prelude.{◌≡◌, ◌++◌, ◌&&◌, reverse, string_bytes, OnOk};
ghost use Rattle.std.specs.List.{list_all, flat_map};
ghost use Rattle.std.specs.Str.{encode_utf8_all};
ghost use Rattle.yaml_diff.specs.Lines.{step_of};
ghost use Rattle.review_paths.specs.Pasted.{side_place, filter_char, pointer_char, escaped_char, escaped, is_letter, is_filter_byte, is_filter_name, filter_key, pointer_key, key_step, item_step, pasted_step};

use crate::fit::content_of;
use std::alloc::AllocError;
use yaml_diff::Step;
use yaml_path::places::Places;
use yaml_store_rank::RankedForests;
use yaml_tree::node::NodeId;

/// Writes a character of a string in a filter: `"` and `\` behind a `\`.
fn put_filter_char(out: &mut String, c: char) -> Result<(), AllocError>
    ensures ok { OnOk result (string_bytes out.new ≡ string_bytes out.old ++ encode_utf8_all (filter_char c)) }
{
    match c {
        '"' => out.push_str("\\\"")?,
        '\\' => out.push_str("\\\\")?,
        _ => out.push(c)?,
    }
    Ok(())
}

/// Writes a character of a pointer's token: `~0` for `~`, and `~1` for `/`.
fn put_pointer_char(out: &mut String, c: char) -> Result<(), AllocError>
    ensures ok { OnOk result (string_bytes out.new ≡ string_bytes out.old ++ encode_utf8_all (pointer_char c)) }
{
    match c {
        '~' => out.push_str("~0")?,
        '/' => out.push_str("~1")?,
        _ => out.push(c)?,
    }
    Ok(())
}

/// Writes a character of a key.
fn put_char(out: &mut String, c: char, is_filter: bool) -> Result<(), AllocError>
    ensures ok { OnOk result (string_bytes out.new ≡ string_bytes out.old ++ encode_utf8_all (escaped_char is_filter c)) }
{
    if is_filter {
        put_filter_char(out, c)
    } else {
        put_pointer_char(out, c)
    }
}

/// Writes the characters of a key.
fn put_escaped(out: &mut String, text: &str, is_filter: bool) -> Result<(), AllocError>
    ensures ok { OnOk result (string_bytes out.new ≡ string_bytes out.old ++ escaped is_filter text.now) }
{
    'chars: for c in text.chars() {
        put_char(out, c, is_filter)?;
    }
    Ok(())
}

/// Whether a name in a filter begins with this byte.
fn is_letter(byte: u8) -> bool
    ensures { result ≡ is_letter byte }
{
    matches!(byte, b'A'..=b'Z' | b'a'..=b'z' | b'_')
}

/// Whether this byte stands in names of a filter.
fn is_filter_byte(byte: u8) -> bool
    ensures { result ≡ is_filter_byte byte }
{
    is_letter(byte) || matches!(byte, b'0'..=b'9')
}

/// Whether these bytes stand in names of a filter.
fn are_filter_bytes(bytes: &[u8]) -> bool
    ensures { result ≡ list_all is_filter_byte bytes.now }
{
    bytes.iter().all(|byte| is_filter_byte(*byte))
}

/// Whether a filter has a key as a name, without quotes.
fn is_filter_name(text: &str) -> bool
    ensures { result ≡ is_filter_name text.now }
{
    match text.as_bytes().split_first() {
        Some((first, rest)) => is_letter(*first) && are_filter_bytes(rest),
        None => false,
    }
}

/// Writes the step of a filter to the value of a key.
fn put_filter_key(out: &mut String, content: &str) -> Result<(), AllocError>
    ensures ok { OnOk result (string_bytes out.new ≡ string_bytes out.old ++ filter_key content.now) }
{
    if is_filter_name(content) {
        out.push('.')?;
        out.push_str(content)?;
        return Ok(());
    }
    out.push_str("[\"")?;
    put_escaped(out, content, true)?;
    out.push_str("\"]")?;
    Ok(())
}

/// Writes the step of a pointer to the value of a key.
fn put_pointer_key(out: &mut String, content: &str) -> Result<(), AllocError>
    ensures ok { OnOk result (string_bytes out.new ≡ string_bytes out.old ++ pointer_key content.now) }
{
    out.push('/')?;
    put_escaped(out, content, false)
}

/// Writes the step to the value of a key.
fn put_key(out: &mut String, content: &str, is_filter: bool) -> Result<(), AllocError>
    ensures ok { OnOk result (string_bytes out.new ≡ string_bytes out.old ++ key_step is_filter content.now) }
{
    if is_filter {
        put_filter_key(out, content)
    } else {
        put_pointer_key(out, content)
    }
}

/// Writes the step to the item at a place.
fn put_item(out: &mut String, place: usize, is_filter: bool) -> Result<(), AllocError>
    ensures ok { OnOk result (string_bytes out.new ≡ string_bytes out.old ++ item_step is_filter place) }
{
    if is_filter {
        write!(out, "[{place}]")?;
    } else {
        write!(out, "/{place}")?;
    }
    Ok(())
}

/// The place of an item on the left side or on the right one; that on the other side where it has none.
fn side_place(is_left: bool, places: Places) -> usize
    ensures { result ≡ side_place is_left places }
{
    match places {
        Places::Both(left, right) => if is_left { left } else { right },
        Places::Left(place) | Places::Right(place) => place,
    }
}

/// Writes a step.
fn put_step(
    out: &mut String,
    forests: &RankedForests<'_>,
    step: Step,
    is_filter: bool,
    is_left: bool,
) -> Result<(), AllocError>
    ensures ok { OnOk result (string_bytes out.new ≡ string_bytes out.old ++ pasted_step is_filter is_left (step_of forests.now step)) }
{
    match step {
        Step::Item(places) => put_item(out, side_place(is_left, places), is_filter),
        Step::Value(key) => match content_of(forests, key) {
            Some(content) => put_key(out, content, is_filter),
            // No path with such a key is pasted.
            None => put_key(out, "", is_filter),
        },
    }
}

/// Writes steps, of which the last one comes first.
pub(crate) fn put_steps(
    out: &mut String,
    forests: &RankedForests<'_>,
    steps: &[Step],
    is_filter: bool,
    is_left: bool,
) -> Result<(), AllocError>
    ensures ok { OnOk result (string_bytes out.new ≡ string_bytes out.old ++ flat_map (λ step. pasted_step is_filter is_left (step_of forests.now step)) (reverse steps.now)) }
{
    'steps: for step in steps.iter().rev() {
        put_step(out, forests, *step, is_filter, is_left)?;
    }
    Ok(())
}
