//! The places of items in the texts of steps.
ghost use Rattle.std.specs.Prelude.{◌≡◌, true, false, MatchOption};
ghost use Rattle.std.specs.List.{list_all};
ghost use Rattle.std.specs.Str.Parse.{digits_value};
ghost use Rattle.review_patterns.specs.Places.{is_digit, are_digits, is_number, first_part, last_part, first_place, last_place, is_span, is_place, has_span, has_place, inside};

use std::str;

/// Neighbours on one side, by their first place and their last one.
#[derive(Clone, Copy)]
struct Span {
    first: u64,
    last: u64,
}

fn is_digit(byte: u8) -> bool
    ensures { result ≡ is_digit byte }
{
    matches!(byte, b'0'..=b'9')
}

/// Whether all bytes are digits.
fn all_digits(text: &[u8]) -> bool
    ensures { result ≡ list_all is_digit text.now }
{
    text.iter().all(|byte| is_digit(*byte))
}

/// Whether a text has digits, and nothing else.
fn are_digits(text: &[u8]) -> bool
    ensures { result ≡ are_digits text.now }
{
    match text.split_first() {
        Some((first, rest)) => is_digit(*first) && all_digits(rest),
        None => false,
    }
}

/// The number that a text is.
fn number(text: &[u8]) -> Option<u64>
    ensures { MatchOption result (is_number text.now ≡ false) (λ value. (is_number text.now ≡ true) × (value ≡ digits_value 10 text.now)) }
{
    if !are_digits(text) {
        return None;
    }
    match str::from_utf8(text) {
        Ok(text) => text.parse::<u64>().ok(),
        Err(_) => None,
    }
}

/// The parts before the first such byte and after it, or the whole text twice if it has none.
pub(crate) fn parts(separator: u8, text: &[u8]) -> (&[u8], &[u8])
    ensures first { result.0.now ≡ first_part separator text.now }
    ensures last { result.1.now ≡ last_part separator text.now }
{
    match text.iter().position(|byte| *byte == separator) {
        Some(place) => (&text[..place], &text[place + 1..]),
        None => (text, text),
    }
}

/// The places that a text has for one side.
fn read_span(text: &[u8]) -> Option<Span>
    ensures { MatchOption result (is_span text.now ≡ false) (λ span. (is_span text.now ≡ true) × (span.first ≡ first_place text.now) × (span.last ≡ last_place text.now)) }
{
    let (first, last) = parts(b'-', text);
    let first = number(first)?;
    let last = number(last)?;
    if first <= last {
        Some(Span { first, last })
    } else {
        None
    }
}

/// Whether a text has the places of items.
pub(crate) fn is_place(text: &[u8]) -> bool
    ensures { result ≡ is_place text.now }
{
    let (left, right) = parts(b':', text);
    read_span(left).is_some() && read_span(right).is_some()
}

/// Whether each place of the second text is one of the first text, on one side.
fn has_span(outer: &[u8], inner: &[u8]) -> bool
    ensures { result ≡ has_span outer.now inner.now }
{
    match (read_span(outer), read_span(inner)) {
        (Some(outer), Some(inner)) => outer.first <= inner.first && inner.last <= outer.last,
        _ => false,
    }
}

/// The same on both sides.
fn has_place(outer: &[u8], inner: &[u8]) -> bool
    ensures { result ≡ has_place outer.now inner.now }
{
    let outer = parts(b':', outer);
    let inner = parts(b':', inner);
    has_span(outer.0, inner.0) && has_span(outer.1, inner.1)
}

/// The text between the brackets of a step, or the whole of a step without brackets.
fn inside(text: &[u8]) -> &[u8]
    ensures { result.now ≡ inside text.now }
{
    let Some((first, rest)) = text.split_first() else {
        return text;
    };
    let (within, last) = rest.split_at(rest.len().saturating_sub(1));
    if *first == b'[' && last == b"]".as_slice() {
        within
    } else {
        text
    }
}

/// Whether the items to which the second step leads are among those of the first one.
pub(crate) fn has_items(outer: &str, inner: &str) -> bool
    ensures { result ≡ has_place (inside outer.now) (inside inner.now) }
{
    has_place(inside(outer.as_bytes()), inside(inner.as_bytes()))
}
