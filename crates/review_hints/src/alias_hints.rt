//! What an alias is that names nothing.
ghost use Rattle.std.specs.Prelude.{◌≡◌, true};
ghost use Rattle.review_hints.specs.Hinted.{is_plain};

use crate::byte_hints::is_name;

/// What is of an alias that names no anchor before it in its document.
pub fn alias_words(before: &str, behind: &str) -> &'static str
    ensures { is_plain result.now ≡ true }
{
    let name = word_of(behind).strip_prefix('*').unwrap_or("");
    if has_colon(before, name) {
        colon_words(before)
    } else if !is_name(name) {
        "quote a value that starts with `*`: as an alias it names no anchor before it"
    } else if before.split('\n').any(|line| is_colon(line, name)) {
        "the anchor above has a colon at its end, which is part of its name: remove the colon"
    } else if has_anchor(document_of(behind), name) {
        "the anchor of this name comes after it: put the node of the anchor before this alias"
    } else if is_parted(before) && has_anchor(before, name) {
        "an alias reaches no anchor of another document: write the node out, or define the anchor in this document too"
    } else if before.split('\n').any(|line| is_near_anchor(line, name)) {
        "no anchor of this name comes before it, but one of nearly this name: write the name of that, or quote the value"
    } else {
        "no anchor of this name comes before it in its document: define it first, or quote the value"
    }
}

/// Whether a name ends with a colon, and its document has an anchor of this name without the colon before it.
fn has_colon(before: &str, name: &str) -> bool {
    let document = before.rsplit("\n---").next().unwrap_or("");
    match name.strip_suffix(':') {
        Some(name) => is_name(name) && has_anchor(document, name),
        None => false,
    }
}

/// Of an alias whose name is read with a colon, by what is before it: where it may be a key, that may be meant.
fn colon_words(before: &str) -> &'static str
    ensures { is_plain result.now ≡ true }
{
    let line = before.rsplit('\n').next().unwrap_or("").trim();
    if line.is_empty() || line.ends_with(['{', ',', '?', '-']) {
        "the colon is read as part of the alias's name: remove it, or put a space before it if the alias is a key"
    } else {
        "the colon is read as part of the alias's name: remove it"
    }
}

/// The first word of a text, as an anchor or an alias is one.
fn word_of(text: &str) -> &str {
    text.split([' ', '\n', '\r', ',', ']', '}'])
        .next()
        .unwrap_or("")
}

/// The name of the first anchor of a line, if it is where a node begins.
fn anchor_of(line: &str) -> Option<&str> {
    let (front, text) = line.split_once('&')?;
    let front = front.trim();
    let is_node = front.is_empty() || front.ends_with([':', '-', ',', '[', '{', '?']);
    if is_node && !front.starts_with('#') {
        Some(word_of(text))
    } else {
        None
    }
}

/// Whether a line has this anchor.
fn is_anchor(line: &str, name: &str) -> bool {
    match anchor_of(line) {
        Some(anchor) => anchor == name,
        None => false,
    }
}

/// Whether a line has an anchor of this name and a colon.
fn is_colon(line: &str, name: &str) -> bool {
    match anchor_of(line) {
        Some(anchor) => anchor.len() > name.len() && anchor.trim_end_matches(':') == name,
        None => false,
    }
}

/// Whether a line has an anchor whose name begins with this one or begins it, and is not much longer or shorter.
fn is_near_anchor(line: &str, name: &str) -> bool {
    match anchor_of(line) {
        Some(anchor) => is_near(anchor, name),
        None => false,
    }
}

fn is_near(one: &str, other: &str) -> bool {
    let is_front = one.starts_with(other) || other.starts_with(one);
    let is_long = one.len() > 2 && other.len() > 2;
    is_long && is_front && matches!(one.len().abs_diff(other.len()), 1 | 2)
}

/// Whether a text has this anchor.
fn has_anchor(text: &str, name: &str) -> bool {
    text.split('\n').any(|line| is_anchor(line, name))
}

/// A text up to the end of its document.
fn document_of(text: &str) -> &str {
    text.split("\n---").next().unwrap_or("")
}

/// Whether a text has a marker between two documents.
fn is_parted(text: &str) -> bool {
    text.contains("\n---") || text.contains("\n...")
}
