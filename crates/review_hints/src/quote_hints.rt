//! Causes of syntax faults right after a quoted scalar: quotes inside it, and quotes that are not closed.
ghost use Rattle.std.specs.Prelude.{◌≡◌, true, IfSome};
ghost use Rattle.review_hints.specs.Hinted.{is_plain};

use crate::spot::{Spot, uncommented};

/// What is wrong where a text goes on right after a quote.
pub fn quote_words(spot: &Spot<'_>) -> Option<&'static str>
    ensures { IfSome result (λ words. is_plain words.now ≡ true) }
{
    if let Some(words) = repeat_words(spot) {
        return Some(words);
    }
    let quote = if spot.before.ends_with('"') {
        '"'
    } else {
        '\''
    };
    let front = spot.before.strip_suffix(quote)?;
    if is_empty_text(front, quote) && !spot.rest.is_empty() && !spot.rest.starts_with('#') {
        return Some("the two quotes before this are an empty text: remove one of them");
    }
    if !spot.rest.starts_with(|c: char| c.is_alphanumeric()) {
        return None;
    }
    // The quote looks like the first one of a text if no letter is before it.
    if front.ends_with([' ', '\n', ',', '[', '{']) {
        match (count(spot.line, quote), count(spot.whole, quote) % 2) {
            (1, 0) => return Some("a quote on a line above is not closed"),
            (1, _) | (_, 0) => {}
            _ => return Some("a quote before this text is not closed, or one is too many"),
        }
    }
    if spot.scan.bracket().is_none() && ends_early(spot, quote) {
        return Some(early_words(quote));
    }
    if quote == '"' {
        Some("write `\\\"` for a quote inside double quotes")
    } else {
        Some("write `''` for a quote inside single quotes")
    }
}

/// What is wrong with two or three quotes in a row.
fn repeat_words(spot: &Spot<'_>) -> Option<&'static str>
    ensures { IfSome result (λ words. is_plain words.now ≡ true) }
{
    if spot.line.trim_end().ends_with("'''") {
        Some("inside single quotes `''` is a quote, and a third one ends the text: remove one")
    } else if !spot.line.ends_with('"') || !spot.rest.starts_with('"') {
        None
    } else if spot.line.ends_with("\"\"") {
        Some("YAML has no triple quotes: write `|`, and the text on the lines after it, indented")
    } else if is_spare(spot) {
        Some("remove this quote: the one before it ends the text")
    } else if spot.scan.bracket().is_none() && count(spot.rest, '"') > 1 {
        Some("write `\\\"` for a quote inside double quotes, and not two quotes")
    } else {
        None
    }
}

/// Whether a second quote after a text is one too many in its line.
fn is_spare(spot: &Spot<'_>) -> bool {
    let text = spot.rest.trim_start_matches('"');
    let is_end = text.is_empty() || text.starts_with([',', ']', '}', ':']);
    is_end && count(spot.whole, '"') % 2 == 1
}

/// Whether a text ends with the first quote of an empty text.
fn is_empty_text(text: &str, quote: char) -> bool {
    match text.strip_suffix(quote) {
        Some(front) => front.is_empty() || front.ends_with([' ', '\n', ',', '[', '{']),
        None => false,
    }
}

/// Whether a line has one quote before the one at its fault, and does not end with a quote, as in `'90s that don't`.
fn ends_early(spot: &Spot<'_>, quote: char) -> bool {
    let line = uncommented(spot.whole);
    count(spot.line, quote) == 2 && count(line, quote) == 2
}

/// Of a quote that ends a text too early, where an apostrophe of the text begins it.
fn early_words(quote: char) -> &'static str
    ensures { is_plain result.now ≡ true }
{
    if quote == '"' {
        "the quote before this ends the text: put single quotes around the whole text"
    } else {
        "the quote before this ends the text: put double quotes around the whole text"
    }
}

/// How often a quote is in a line.
pub fn count(line: &str, quote: char) -> usize {
    line.split(quote).count().saturating_sub(1)
}
