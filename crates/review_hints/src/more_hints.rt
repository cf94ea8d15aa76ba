//! Causes of syntax faults where a line is read as more of a plain scalar above, or is no entry.
ghost use Rattle.std.specs.Prelude.{◌≡◌, true, IfSome};
ghost use Rattle.review_hints.specs.Hinted.{is_plain};

use crate::spot::{Spot, depth, indent_of, is_entry, is_in_block, is_item, uncommented, value_of};
use crate::stray_hints::{is_here_end, is_section};

/// Of an entry that is read as more of a plain scalar above.
pub fn more_words(spot: &Spot<'_>) -> &'static str
    ensures { is_plain result.now ≡ true }
{
    let above = uncommented(spot.above);
    let is_deeper = depth(spot.whole) > indent_of(spot.above);
    if is_nested(spot, above) {
        "this line is read as more of the value above: indent it like the entries that it belongs to, leave no value on the line of the key above, or write the whole value after `|` or `>`"
    } else if is_text(spot, above) {
        "this line is read as more of the value above: indent it like the entries that it belongs to, or write the whole value after `|` or `>`"
    } else if is_deeper && above.contains(": ") && (!is_item(above) || is_far(spot)) {
        "this line is read as more of the value above: indent it like the entries that it belongs to, or leave no value on the line of the key above"
    } else if is_deeper && !above.contains(':') && !spot.parent().contains(": ") {
        "this line is read as more of the value above: indent it like the entries that it belongs to, or put a colon after the line above if that is its key"
    } else {
        "this line is read as more of the value above: indent it like the entries that it belongs to"
    }
}

/// Whether a line is indented by several spaces more than the first key of the line above.
fn is_far(spot: &Spot<'_>) -> bool {
    indent_of(spot.whole) > depth(spot.above).saturating_add(1)
}

/// Whether a key of one word is below another one that has a value of several words.
fn is_nested(spot: &Spot<'_>, above: &str) -> bool {
    let text = above.trim_start_matches("- ");
    let is_above = match text.split_once(": ") {
        Some((key, value)) => !key.contains(' ') && value.contains(' '),
        None => false,
    };
    is_above && is_far(spot) && !spot.line.trim().contains(' ')
}

/// Whether the line above ends a value of several words, or a value of several lines.
fn is_text(spot: &Spot<'_>, above: &str) -> bool {
    if above.contains(": ") {
        !is_item(above) && value_of(above).contains(' ') && indent_of(spot.whole) > depth(above)
    } else {
        !is_entry(above) && spot.parent().contains(": ")
    }
}

/// Of a whole line that is no entry, where an entry has to be.
pub fn no_entry_words(spot: &Spot<'_>) -> &'static str
    ensures { is_plain result.now ≡ true }
{
    let text = spot.whole.trim();
    let above = uncommented(spot.above);
    if is_in_block(spot.lines_above()) {
        "this line ends the block scalar above: indent it like the text there if it is more of it, or write `key: value`"
    } else if above.ends_with(':') {
        "this line is no entry of a mapping: indent it more than the key above if it is its value, or write `key: value`"
    } else if is_section(text) {
        "a section of INI or TOML is no entry of a mapping: write `name:`, and indent its entries below it"
    } else if is_parent(spot) && !text.contains(' ') {
        "this line is no entry of a mapping: write `key: value`"
    } else if is_here_end(text) {
        "this line is no entry of a mapping: remove it if it is the end of a shell's here-document, or write `key: value`"
    } else {
        "this line is no entry of a mapping: write `key: value`, indent it more if it is more of the value above, or remove it"
    }
}

/// Whether the next line is indented more than the line of the fault, or is an item.
fn is_parent(spot: &Spot<'_>) -> bool {
    let next = spot.next_line();
    !next.trim().is_empty()
        && (indent_of(next) > indent_of(spot.whole) || next.trim_start().starts_with("- "))
}

/// Of a colon in a value.
pub fn colon_words(spot: &Spot<'_>) -> &'static str
    ensures { is_plain result.now ≡ true }
{
    let value = spot.value();
    let is_key = !value.is_empty() && !value.contains(' ');
    let next = spot.next_line();
    if is_key && indent_of(next) > depth(spot.whole) && is_entry(next) {
        "start a block mapping on the line after its key"
    } else if is_key && spot.rest != ":" {
        "a value with `: ` in it needs quotes, or start a block mapping on the line after its key"
    } else if spot.rest == ":" && indent_of(next) > indent_of(spot.whole) && is_entry(next) {
        "begin this key on a line of its own, or quote a value with `: ` in it"
    } else if is_second(value) {
        "a value with `: ` in it needs quotes, and a second entry a line of its own"
    } else {
        "a value with `: ` in it needs quotes"
    }
}

/// Whether a value is a number or has a comma, and one more word, as `1 b` of `a: 1 b: 2`.
fn is_second(value: &str) -> bool {
    match value.split_once(' ') {
        Some((first, key)) => {
            let is_value = first.ends_with(',') || first.starts_with(|c: char| c.is_ascii_digit());
            is_value && !key.contains(' ')
        }
        None => false,
    }
}

/// What is wrong with the beginning of a value that only a block could have there.
pub fn begin_words(spot: &Spot<'_>) -> Option<&'static str>
    ensures { IfSome result (λ words. is_plain words.now ≡ true) }
{
    if (spot.rest == "?" || spot.rest.starts_with("? ")) && spot.line.trim_end().ends_with(':') {
        Some("quote a value that starts with `?`")
    } else {
        None
    }
}
