//! Causes of syntax faults in block scalars.
ghost use Rattle.std.specs.Prelude.{◌≡◌, true, IfSome};
ghost use Rattle.review_hints.specs.Hinted.{is_plain};

use crate::above::comment_above;
use crate::spot::{Spot, depth, indent_of, is_entry, is_header, last_within, uncommented};

/// What is wrong with a block scalar's header, or with the line after it.
pub fn block_words(spot: &Spot<'_>) -> Option<&'static str>
    ensures { IfSome result (λ words. is_plain words.now ≡ true) }
{
    if is_header(spot.line) && !spot.rest.is_empty() {
        return Some(header_words(spot));
    }
    if spot.is_first() && spot.rest.starts_with(['|', '>']) {
        return Some(
            "put the `|` or `>` of a block scalar on the line of its key, or indent it more than the key",
        );
    }
    if is_below(spot) && !is_entry(spot.whole) {
        return Some("indent the text of a block scalar more than its key");
    }
    if spot.is_first() && is_header(spot.above) && has_digit(spot.above) {
        return Some(
            "the digit after `|` or `>` says by how many spaces the text is indented more than its key: remove it, or indent the text so",
        );
    }
    if spot.is_first() && is_header(spot.above) && has_deep_blank(spot) {
        return Some(
            "a blank line above has more spaces than the text of this block scalar: remove them",
        );
    }
    if spot.is_first() && !is_entry(spot.whole) && is_header(spot.parent()) {
        return Some("indent each line of a block scalar at least as its first line");
    }
    None
}

/// Whether the line of the fault is right below a header, and indented too little to be of its block scalar.
fn is_below(spot: &Spot<'_>) -> bool {
    let is_root = spot.above.starts_with("---");
    is_header(spot.above) && !is_root && indent_of(spot.whole) <= column_of(spot.above)
}

/// The column, from 0, of the key of a block scalar's header, or else of its dash. The text is indented more.
fn column_of(header: &str) -> usize {
    let depth = depth(header);
    let dashes = header.get(..depth).unwrap_or("").trim_end();
    let node = header.get(depth..).unwrap_or("");
    if dashes.is_empty() || node.contains(": ") || node.starts_with("? ") {
        depth
    } else {
        dashes.len().saturating_sub(1)
    }
}

/// The offset of the comment that ended a block scalar above, where the line of the fault is indented like the text.
pub fn ended_above(spot: &Spot<'_>) -> Option<usize> {
    let indent = indent_of(spot.whole);
    let last = last_within(spot.lines_above(), usize::MAX);
    let is_text = indent_of(spot.host()) == indent || is_header(last);
    if spot.is_first() && is_text && is_header(spot.parent()) {
        comment_above(spot.lines_above(), indent)
    } else {
        None
    }
}

/// Whether a header has a digit.
fn has_digit(header: &str) -> bool {
    let text = uncommented(header).trim_end_matches(['+', '-']);
    text.ends_with(|c: char| c.is_ascii_digit())
}

/// Whether a blank line right above has more spaces than the line of the fault.
fn has_deep_blank(spot: &Spot<'_>) -> bool {
    let text = spot.lines_above();
    let blanks = text.get(text.trim_end().len()..).unwrap_or("");
    let indent = indent_of(spot.whole);
    blanks.split('\n').any(|line| indent_of(line) > indent)
}

/// What is wrong after the `|` or `>` of a header.
fn header_words(spot: &Spot<'_>) -> &'static str
    ensures { is_plain result.now ≡ true }
{
    let is_apart = spot.line.ends_with(' ');
    if spot.line.trim_start().starts_with('|') && spot.rest.ends_with('|') {
        return "a table of Markdown is no YAML: write it below a key with `|`, indented, or remove it";
    }
    if spot.line.trim() == ">" && spot.above.is_empty() {
        return "remove the `> ` of a quotation, or begin the text of a block scalar on the line after its `>`";
    }
    match spot.next() {
        Some('#') if !is_apart => "write a space before the `#` of a comment",
        _ if is_apart =>
            "begin the text of a block scalar on the line after its `|` or `>`, or quote the value",
        Some(c) if !c.is_ascii_digit() && c != '+' && c != '-' =>
            "quote a value that starts with `|` or `>`, or begin the text of a block scalar on the line after it",
        _ =>
            "write at most a digit from 1 to 9 and a `+` or `-` after the `|` or `>` of a block scalar",
    }
}
