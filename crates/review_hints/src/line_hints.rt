//! Causes of syntax faults that a whole line shows: what is written in another language, and what is no entry.
ghost use Rattle.std.specs.Prelude.{◌≡◌, ◌≤◌, true, ℕ, List, IfSome};
ghost use Rattle.review_hints.specs.Hinted.{is_line};
ghost use Rattle.review_hints.specs.Hints.{IsTrue};

use crate::above::{Sought, find_above};
use crate::block_hints::{block_words, ended_above};
use crate::foreign_hints::{foreign_words, is_template_below};
use crate::hints::Hint;
use crate::spot::{
    Spot, depth, indent_of, is_entry, is_header, is_in_block, is_item, last_within, uncommented,
};
use crate::stray_hints::{is_alias, is_section, stray_words};
use crate::unseen_hints::unseen_words;

const HIDDEN_SPACE: &str = "has a no-break space (U+00A0): write a space";

const NO_ENTRY: &str = "is no entry of a mapping: write `key: value`";

const TIGHT_COLON: &str = "has no space after its colon: write `: `";

const ENDED: &str =
    "has a comment, which ends the block scalar above: indent it like the text there if more of the text follows";

const QUOTED: &str = "has its key and its value in one pair of quotes: close them before the colon";

const TWO_DASHES: &str = "has a dash too many: an item begins with `- `, and a comment with `#`";

const HERE: &str = "begins a here-document of a shell: in YAML write `|`, and indent the text";

const TEMPLATE: &str = "is of a template, and no YAML: render the template first";

/// What is not seen in a line, and what is of another language.
pub fn tool_hint(spot: &Spot<'_>) -> Option<Hint>
    ensures { (text : List ℕ) → spot.now.above_at ≤ spot.now.at → IfSome result (IsTrue text spot.now.at) }
{
    if let Some(words) = unseen_words(spot.whole) {
        return Some(Hint::Line(spot.start(), words));
    }
    if let Some(words) = unseen_above(spot) {
        return Some(Hint::Line(spot.above_at, words));
    }
    if is_template_below(spot) {
        return Some(Hint::Line(spot.above_at, TEMPLATE));
    }
    if let Some(words) = foreign_words(spot) {
        return Some(Hint::Text(words));
    }
    let at = here_above(spot)?;
    Some(Hint::Line(at.min(spot.at), HERE))
}

/// What the line of the fault shows, or the line above that it continues.
pub fn line_hint(spot: &Spot<'_>) -> Option<Hint>
    ensures { (text : List ℕ) → spot.now.above_at ≤ spot.now.at → IfSome result (IsTrue text spot.now.at) }
{
    if is_open(spot) {
        return None;
    }
    if let Some(at) = ended_above(spot) {
        return Some(Hint::Line(at.min(spot.at), ENDED));
    }
    if is_inside(spot) {
        return None;
    }
    if let Some(words) = own_words(spot) {
        return Some(Hint::Line(spot.start(), words));
    }
    if let Some(words) = upper_words(spot) {
        return Some(Hint::Line(spot.above_at, words));
    }
    let at = text_above(spot)?;
    Some(Hint::Line(at.min(spot.at), NO_ENTRY))
}

/// Whether the fault is in quotes or brackets.
fn is_open(spot: &Spot<'_>) -> bool {
    spot.scan.quote().is_some() || spot.scan.bracket().is_some()
}

/// Whether the fault is in a block scalar's header, or below the head of a section of TOML.
fn is_inside(spot: &Spot<'_>) -> bool {
    let is_block = block_words(spot).is_some() && !is_conflict(spot.whole);
    is_block || (is_section(spot.above) && spot.whole.contains('='))
}

/// What the line of the fault shows.
fn own_words(spot: &Spot<'_>) -> Option<&'static str>
    ensures { IfSome result (λ words. is_line words.now ≡ true) }
{
    let host = spot.parent();
    let is_more = host.contains(": ") && depth(host) < indent_of(spot.whole);
    if is_more && !spot.is_first() && !is_conflict(spot.whole) {
        return None;
    }
    if let Some(words) = line_fault(spot.whole) {
        return Some(words);
    }
    if spot.is_first() || is_in_block(spot.lines_above()) {
        return None;
    }
    if spot.rest.is_empty() && is_quoted_entry(spot.whole.trim()) {
        return Some(QUOTED);
    }
    assign_fault(spot.whole.trim())
}

/// What the line above shows.
fn upper_words(spot: &Spot<'_>) -> Option<&'static str>
    ensures { IfSome result (λ words. is_line words.now ≡ true) }
{
    if is_alias(spot.above) && spot.is_first() && indent_of(spot.above) == indent_of(spot.whole) {
        return Some(
            "is an alias alone, and no entry: write `key: *name`, as `<<: *name` where it is merged",
        );
    }
    if is_below_quoted(spot) {
        return Some(QUOTED);
    }
    if let Some(words) = comment_words(spot) {
        return Some(words);
    }
    above_words(spot)
}

/// Whether a line is quoted as a whole, with a colon inside, as `"a: b"`.
fn is_quoted_entry(text: &str) -> bool {
    let quote = if text.starts_with('"') { '"' } else { '\'' };
    let inner = match text.strip_prefix(quote) {
        Some(rest) => rest.strip_suffix(quote).unwrap_or(""),
        None => "",
    };
    inner.contains(": ") && !inner.contains(['"', '\''])
}

/// Whether the fault begins an entry at the column of a quoted text above that has a colon inside.
fn is_below_quoted(spot: &Spot<'_>) -> bool {
    let text = spot.above.trim_start_matches([' ', '-']);
    let is_level = depth(spot.above) == indent_of(spot.whole) && !is_item(spot.whole);
    spot.is_first() && is_level && is_entry(spot.whole) && is_quoted_entry(text)
}

/// The offset of a line above that begins a here-document, and is in no block scalar.
fn here_above(spot: &Spot<'_>) -> Option<usize> {
    let at = find_above(spot.lines_above(), Sought::Here)?;
    if is_in_block(spot.before.get(..at).unwrap_or("")) {
        return None;
    }
    Some(at)
}

/// What is not seen in the line above.
fn unseen_above(spot: &Spot<'_>) -> Option<&'static str>
    ensures { IfSome result (λ words. is_line words.now ≡ true) }
{
    if spot.scan.quote().is_some() || is_in_block(spot.lines_above()) {
        return None;
    }
    unseen_words(spot.above)
}

/// The offset of a line above that is no key, where the dashes below it are read as text.
fn text_above(spot: &Spot<'_>) -> Option<usize> {
    let is_read = spot.next() == Some(':') && !spot.line.contains(": ");
    let is_below = indent_of(spot.whole) <= indent_of(spot.above);
    if !is_read || !is_below || !is_item(spot.above) {
        return None;
    }
    let indent = indent_of(spot.whole);
    let at = find_above(spot.lines_above(), Sought::Text(indent))?;
    let text = spot.before.get(at..).unwrap_or("");
    let line = text.split('\n').next().unwrap_or("");
    if is_entry(line) {
        return None;
    }
    Some(at)
}

/// What is wrong with the line above, where the line of the fault continues its plain scalar.
fn above_words(spot: &Spot<'_>) -> Option<&'static str>
    ensures { IfSome result (λ words. is_line words.now ≡ true) }
{
    if spot.above.is_empty() || is_continued(spot) {
        return None;
    }
    let above = spot.above.trim();
    if indent_of(spot.whole) >= indent_of(spot.above) {
        if let Some(words) = dash_fault(above) {
            return Some(words);
        }
    }
    if let Some(words) = stray_words(spot.above) {
        return Some(words);
    }
    if spot.is_first() {
        return None;
    }
    if let Some(words) = item_words(spot) {
        return Some(words);
    }
    text_words(spot)
}

/// What is wrong with an item above, or with a line at the column of its dash.
fn item_words(spot: &Spot<'_>) -> Option<&'static str>
    ensures { IfSome result (λ words. is_line words.now ≡ true) }
{
    if has_hidden_space(spot.above.trim_start_matches(' ')) {
        return Some(HIDDEN_SPACE);
    }
    if is_item_key(spot) {
        return Some(TIGHT_COLON);
    }
    if is_at_dash(spot) {
        return Some(
            "begins at the column of the dash above, and so in no item: indent it like the first key of the item",
        );
    }
    if is_item_word(spot) {
        return Some(
            "is no entry of a mapping: write `key: value`, or indent the next line like the entries that it belongs to",
        );
    }
    None
}

/// What is wrong with a line above that is no entry.
fn text_words(spot: &Spot<'_>) -> Option<&'static str>
    ensures { IfSome result (λ words. is_line words.now ≡ true) }
{
    let above = spot.above.trim();
    if is_entry(above) || above.starts_with('#') {
        return None;
    }
    let is_key = spot.next() == Some(':') && !spot.line.contains(": ");
    if let Some(words) = assign_fault(above) {
        return Some(words);
    }
    match line_fault(spot.above) {
        None if is_key && !is_closed(above) => Some(no_entry_words(spot)),
        words => words,
    }
}

/// What is said of a line above that has no colon.
fn no_entry_words(spot: &Spot<'_>) -> &'static str
    ensures { is_line result.now ≡ true }
{
    if spot.above.trim().contains(' ') {
        "is no entry of a mapping: write `key: value`, write `|` after the key of a long text, or remove the line"
    } else if indent_of(spot.above) < indent_of(spot.whole) {
        NO_ENTRY
    } else {
        "is no entry of a mapping: write `key: value`, or remove the line"
    }
}

/// Whether a comment in the line above ends a plain scalar that the line of the fault was meant to continue.
fn comment_words(spot: &Spot<'_>) -> Option<&'static str>
    ensures { IfSome result (λ words. is_line words.now ≡ true) }
{
    let is_comment = spot.above.trim_start().starts_with('#') || spot.above.contains(" #");
    let host = uncommented(spot.parent());
    let is_text = !host.is_empty() && !host.ends_with(':') && !is_closed(host) && !is_header(host);
    if spot.is_first() && is_comment && is_text && !is_entry(spot.whole) {
        Some(
            "has a comment, which ends the value before it: move the comment, or write the value after `|` or `>`",
        )
    } else {
        None
    }
}

/// Whether the line above is an item without a colon such as `- a b`, and the line of the fault begins at the column of its text.
fn is_item_word(spot: &Spot<'_>) -> bool {
    let is_level = indent_of(spot.whole) == depth(spot.above) && !is_item(spot.whole);
    match spot.above.trim().strip_prefix("- ") {
        Some(text) => is_level && spot.next() == Some(':') && !is_entry(text),
        None => false,
    }
}

/// Whether the line above begins at the column of a dash, and the line of the fault at that of the item.
fn is_at_dash(spot: &Spot<'_>) -> bool {
    let text = spot.before.get(..spot.above_at).unwrap_or("");
    let text = text.trim_end_matches(' ').trim_end_matches('\n');
    let indent = indent_of(spot.above);
    let item = last_within(text, indent);
    let is_level = indent_of(item) == indent && depth(item) == indent_of(spot.whole);
    is_level && is_item(item) && is_entry(item) && !is_item(spot.above)
}

/// Whether the line above is an item such as `- a:1`, and the line of the fault begins at the same column as its text.
fn is_item_key(spot: &Spot<'_>) -> bool {
    let is_level = indent_of(spot.whole) == depth(spot.above);
    match spot.above.trim().strip_prefix("- ") {
        Some(text) => is_level && !is_entry(text) && is_tight_key(text),
        None => false,
    }
}

/// Whether the line above continues a value: the one of the last line that is indented less.
fn is_continued(spot: &Spot<'_>) -> bool {
    let text = spot.before.get(..spot.above_at).unwrap_or("");
    match indent_of(spot.above) {
        0 => false,
        indent => {
            let host = last_within(text, indent.saturating_sub(1));
            is_header(host) || (host.contains(": ") && depth(host) < indent)
        }
    }
}

/// Whether a line is a directive, a document marker, or ends with the end of a node that no other line continues.
fn is_closed(line: &str) -> bool {
    line.starts_with(['%', '|', '>'])
        || line.starts_with("---")
        || line.starts_with("...")
        || line.ends_with(['"', '\'', ']', '}'])
}

/// What makes a line no line of YAML.
fn line_fault(line: &str) -> Option<&'static str>
    ensures { IfSome result (λ words. is_line words.now ≡ true) }
{
    let text = line.trim();
    if is_conflict(line) {
        Some("is a merge conflict marker: resolve the conflict first")
    } else if line.starts_with(' ') && uncommented(line) == "---" {
        Some("has an indented `---`, which is no document marker: put it at the first column")
    } else if let Some(words) = stray_words(line) {
        Some(words)
    } else if has_hidden_space(text) {
        Some(HIDDEN_SPACE)
    } else if is_other_comment(text) {
        Some("is no comment: begin a comment with `#`")
    } else if has_wide_colon(text) {
        Some("has a fullwidth colon (U+FF1A): write `: `")
    } else if let Some(words) = dash_fault(text) {
        Some(words)
    } else if is_entry(text) {
        None
    } else if is_tight_key(text) {
        Some(TIGHT_COLON)
    } else {
        None
    }
}

/// What is said of a line that assigns in the way of another language, as `a = b` and `A=b` do.
fn assign_fault(text: &str) -> Option<&'static str>
    ensures { IfSome result (λ words. is_line words.now ≡ true) }
{
    let (key, value) = text.split_once('=')?;
    let key = key
        .trim_start_matches("export ")
        .trim_end_matches([' ', ':']);
    let is_key = !key.is_empty() && !key.contains([' ', '[', '(', '$', '/', '?']);
    let is_value = !value.is_empty() && !value.starts_with('=');
    if is_key && is_value && !key.starts_with('-') && !is_entry(text) {
        Some("has `=` where an entry has its colon: write `key: value`")
    } else {
        None
    }
}

/// What is wrong with the dashes at the start of a line, or with what is there in place of a dash.
fn dash_fault(text: &str) -> Option<&'static str>
    ensures { IfSome result (λ words. is_line words.now ≡ true) }
{
    if text.starts_with("-- ") {
        Some(TWO_DASHES)
    } else if is_no_marker(text) {
        Some("is no document marker: write `---`")
    } else if is_other_dash(text) {
        Some("begins with another character than a dash: write `- ` before an item")
    } else if is_numbered(text) {
        Some("begins with a number: write `- ` before an item")
    } else if is_tight_dash(text) {
        Some("has no space after its dash: write `- `")
    } else {
        None
    }
}

/// Whether a line is a comment of another language.
fn is_other_comment(text: &str) -> bool {
    text.starts_with("//")
        || text.starts_with("/*")
        || text.starts_with("; ")
        || text.starts_with("<!--")
}

fn is_conflict(line: &str) -> bool {
    line.starts_with("<<<<<<<")
        || line.starts_with(">>>>>>>")
        || line.starts_with("|||||||")
        || line == "======="
}

/// Whether a no-break space is where a space is meant: at the start, or after an indicator.
fn has_hidden_space(text: &str) -> bool {
    text.starts_with('\u{A0}') || text.starts_with("-\u{A0}") || text.contains(":\u{A0}")
}

/// Whether a fullwidth colon comes after the first word of a line that has no other.
fn has_wide_colon(text: &str) -> bool {
    let Some(at) = text.find('\u{FF1A}') else {
        return false;
    };
    let key = text.get(..at).unwrap_or("").trim_start_matches("- ");
    !key.contains([' ', ':', '"', '\'']) && !text.contains(": ")
}

/// Whether a line has dashes only, and not as many as a document marker or an item.
fn is_no_marker(text: &str) -> bool {
    text.len() > 1 && text != "---" && text.trim_start_matches('-').is_empty()
}

/// Whether a line begins with a star and a word, or with a long dash or a bullet.
fn is_other_dash(text: &str) -> bool {
    let is_dash = text.starts_with([
        '\u{2010}', '\u{2011}', '\u{2013}', '\u{2014}', '\u{2022}', '\u{2212}',
    ]);
    match text.strip_prefix("* ") {
        Some(rest) => rest.starts_with(|c: char| c.is_alphabetic() || c == '"' || c == '\''),
        None => is_dash && text.contains(' '),
    }
}

/// Whether a line that is no entry begins as `1. `.
fn is_numbered(text: &str) -> bool {
    let rest = text.trim_start_matches(|c: char| c.is_ascii_digit());
    rest.len() != text.len() && rest.starts_with(". ") && !is_entry(text)
}

/// Whether a line begins with a dash and an item, as `-a`, `-"a"` or `-80:80`.
fn is_tight_dash(text: &str) -> bool {
    match text.strip_prefix('-') {
        Some(rest) if rest.starts_with(|c: char| c.is_ascii_digit()) => !is_entry(text),
        Some(rest) => rest.starts_with(|c: char| c.is_alphabetic() || "./\"'$[{".contains(c)),
        None => false,
    }
}

/// Whether a word is followed by a colon and no space, as in `a:1`, and not as in `http://a`.
fn is_tight_key(text: &str) -> bool {
    let Some(at) = text.find(':') else {
        return false;
    };
    let key = text.get(..at).unwrap_or("").trim_end();
    let value = text.get(at.saturating_add(1)..).unwrap_or("");
    let is_number = key.starts_with(|c: char| c.is_ascii_digit());
    let is_word = !is_number && !key.is_empty() && !key.contains([' ', '{', '[']);
    is_word && !value.starts_with("//") && !value.starts_with([':', '='])
}
