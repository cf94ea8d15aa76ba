//! Causes of syntax faults at the first character of a line: items and entries that fit nothing above.
ghost use Rattle.std.specs.Prelude.{◌≡◌, true};
ghost use Rattle.review_hints.specs.Hinted.{is_plain};

use crate::spot::{Spot, depth, indent_of, is_entry, is_item, uncommented};
use crate::stray_hints::{is_diff, is_section};

/// Of an item, an entry or another text at the start of a line, by the lines above.
pub fn below_words(spot: &Spot<'_>) -> &'static str
    ensures { is_plain result.now ≡ true }
{
    let host = spot.host();
    if is_diff(spot.whole, spot.behind) {
        "these lines look like those of a diff: remove the line that begins with `-`, and the `+` of the next one"
    } else if indent_of(spot.whole) == 0 && host.starts_with(['[', '{', ']', '}']) {
        document_words(spot)
    } else if spot.rest == "-" || spot.rest.starts_with("- ") {
        item_words(spot, host)
    } else if host.trim() == "-" {
        "indent this line more than the `-` above, or begin it with `- `"
    } else if host.trim_start().starts_with("- ") {
        entry_words(spot, host)
    } else if is_entry(spot.whole) && has_closed_value(spot) {
        "the key above has a value already: indent this entry like that key, or remove that value"
    } else if is_entry(spot.whole) && host.is_empty() {
        "the lines above are indented more than this entry: indent all entries of a mapping alike"
    } else if is_entry(spot.whole) {
        "indent this entry like the others of its mapping"
    } else {
        "this line continues nothing above: indent it like the text that it belongs to, or write `key: value` or `- item`"
    }
}

/// Of a line after a whole flow collection.
fn document_words(spot: &Spot<'_>) -> &'static str
    ensures { is_plain result.now ≡ true }
{
    if spot.above.starts_with('[') && spot.rest.contains('=') {
        "this looks like TOML or INI, and is not YAML"
    } else if is_section(spot.above) {
        "the document ends above: put a line `---` before the next one, or write `name:` for a section of INI or TOML"
    } else {
        "the document ends above: put a line `---` before the next one"
    }
}

/// Of an item, by the last line above that is not deeper.
fn item_words(spot: &Spot<'_>, host: &str) -> &'static str
    ensures { is_plain result.now ≡ true }
{
    if is_entry(host) && depth(host) == indent_of(host) && depth(host) == indent_of(spot.whole) {
        mapping_words(spot)
    } else if has_closed_value(spot) {
        "the key above has a value already: remove that value, or put this item below another key"
    } else {
        "indent this `-` like the items above, or deeper than its key"
    }
}

/// Of an item at the column of the keys above.
fn mapping_words(spot: &Spot<'_>) -> &'static str
    ensures { is_plain result.now ≡ true }
{
    let first = spot.parent();
    if is_item(first) && depth(first) == indent_of(spot.whole) {
        "this item is in the mapping of an item: indent this `-` like the items above, or put it below a key without a value"
    } else {
        "this item is in a mapping: put it below a key without a value, write it as `key: value`, or put `- ` before each entry of the mapping"
    }
}

/// Whether the line above is an entry with a quoted value or a flow collection, indented less than the line of the fault.
fn has_closed_value(spot: &Spot<'_>) -> bool {
    let above = uncommented(spot.above);
    let is_closed = above.ends_with(['"', '\'', ']', '}']) && above.contains(": ");
    is_closed && depth(spot.above) < indent_of(spot.whole)
}

/// Of an entry after an item that is not deeper.
fn entry_item_words(spot: &Spot<'_>, host: &str) -> &'static str
    ensures { is_plain result.now ≡ true }
{
    let first = uncommented(host);
    if first.ends_with(':') && indent_of(spot.whole) > depth(host) {
        "this entry is in no mapping: indent it like the entries above that it belongs to"
    } else {
        "this entry is in no item: indent it like the first key of the item above, or begin it with `- `"
    }
}

/// Of a line after an item that is not deeper than the line.
fn entry_words(spot: &Spot<'_>, host: &str) -> &'static str
    ensures { is_plain result.now ≡ true }
{
    if is_entry(spot.whole) {
        entry_item_words(spot, host)
    } else if indent_of(host) == indent_of(spot.whole) {
        "begin this line with `- `, like the item above, or indent it more"
    } else {
        "this line continues nothing above: indent it like the text that it belongs to, or write `key: value` or `- item`"
    }
}
