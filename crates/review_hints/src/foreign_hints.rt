//! Causes of syntax faults in files that are written in another language: templates, Markdown, XML.
ghost use Rattle.std.specs.Prelude.{◌≡◌, true, IfSome};
ghost use Rattle.review_hints.specs.Hinted.{is_plain};

use crate::spot::{Spot, depth, indent_of, value_of};

/// Which other language the text is written in.
pub fn foreign_words(spot: &Spot<'_>) -> Option<&'static str>
    ensures { IfSome result (λ words. is_plain words.now ≡ true) }
{
    if is_template_value(spot) {
        Some("a template, not YAML: render it first, or quote the value")
    } else if is_template(spot) {
        Some("a template, not YAML: render it first")
    } else if spot.whole.starts_with("```") {
        Some("a fence of Markdown: remove the line")
    } else if is_markup(spot) {
        Some("this looks like XML or HTML, and is not YAML")
    } else {
        None
    }
}

/// Whether a text begins with what a template engine replaces.
fn begins_tag(text: &str) -> bool {
    text.starts_with("{{") || text.starts_with("{%")
}

/// Whether the fault is right after a line that begins with what a template engine replaces.
pub fn is_template_below(spot: &Spot<'_>) -> bool {
    spot.is_first() && begins_tag(spot.above.trim_start()) && !begins_tag(spot.rest)
}

/// Whether the fault is in what a template engine replaces.
fn is_template(spot: &Spot<'_>) -> bool {
    begins_tag(spot.line.trim_start())
        || spot.before.ends_with("{{")
        || is_statement(spot)
        || spot.whole.trim_start().starts_with("<%")
}

/// Whether the fault is right after the brace with which a statement or a comment of a template begins.
fn is_statement(spot: &Spot<'_>) -> bool {
    spot.before.ends_with('{') && spot.behind.starts_with(['%', '#'])
}

/// Whether the fault is after a value that begins with what a template engine replaces: on its line, or on a deeper one below.
fn is_template_value(spot: &Spot<'_>) -> bool {
    if let Some(quote) = spot.scan.quote() {
        return line_to(spot.before, quote.at).contains("{{");
    }
    if spot.before.ends_with('$') {
        return false;
    }
    if spot.behind.starts_with("{{") || is_behind(spot) {
        return true;
    }
    if is_statement(spot) {
        return spot.line.trim() != "{";
    }
    if spot.is_first() {
        begins_tag(value_of(spot.above)) && indent_of(spot.whole) > depth(spot.above)
    } else {
        begins_tag(spot.value()) && !begins_tag(spot.line.trim_start())
    }
}

/// Whether the fault is right after what a template engine replaces in a value.
fn is_behind(spot: &Spot<'_>) -> bool {
    let is_end = spot.before.ends_with("}}") && spot.line.contains("{{");
    is_end && !spot.line.contains("${{") && !begins_tag(spot.line.trim_start())
}

/// The line of an offset, up to it.
fn line_to(text: &str, at: usize) -> &str {
    let before = text.get(..at).unwrap_or("");
    before.rsplit('\n').next().unwrap_or("")
}

/// Whether the first line of the text is one of XML or HTML.
fn is_markup(spot: &Spot<'_>) -> bool {
    let text = spot.before.trim_start();
    let line = match text.split_once('\n') {
        Some((line, _)) => line.trim_end(),
        None => spot.whole.trim_start(),
    };
    let is_tag = match line.strip_prefix('<') {
        Some(name) => name.starts_with(|c: char| c.is_alphabetic()) && name.ends_with('>'),
        None => false,
    };
    is_tag || line.starts_with("<?xml") || line.starts_with("<!")
}
