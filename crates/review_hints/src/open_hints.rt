//! Causes of syntax faults inside quotes, brackets and braces.
ghost use Rattle.std.specs.Prelude.{◌≡◌, true, ℕ, List, IfSome};
ghost use Rattle.review_hints.specs.Hinted.{is_line, is_plain};
ghost use Rattle.review_hints.specs.Hints.{IsOpened, IsScanned, IsTrue};

use crate::hints::Hint;
use crate::quote_hints::{count, quote_words};
use crate::scan::Opened;
use crate::spot::{Spot, is_assigned, is_entry, uncommented};

const FLOW_LINE: &str = "indent this line more than the key or the item of its bracket or brace";

/// What a fault inside a quoted scalar or a flow collection is.
pub fn open_hint(spot: &Spot<'_>) -> Option<Hint>
    ensures { (text : List ℕ) → IsScanned text spot.now.at spot.now.scan → IfSome result (IsTrue text spot.now.at) }
{
    if let Some(quote) = spot.scan.quote() {
        return Some(quote_hint(spot, quote));
    }
    let bracket = spot.scan.bracket()?;
    if spot.behind.trim().is_empty() {
        return Some(Hint::Opened(bracket, unclosed_words(spot, bracket)));
    }
    if spot.is_marker() {
        return Some(Hint::Opened(bracket, "is open at this document marker"));
    }
    if spot.is_first() && indent(spot) < bracket.floor {
        return Some(flow_line_hint(spot, bracket));
    }
    flow_hint(spot, bracket)
}

/// The column of the first character of a line, from 0.
fn indent(spot: &Spot<'_>) -> usize {
    spot.line.len()
}

fn quote_hint(spot: &Spot<'_>, quote: Opened) -> Hint
    ensures { (text : List ℕ) → IsOpened text spot.now.at quote → IsTrue text spot.now.at result }
{
    if spot.is_marker() {
        return Hint::Opened(quote, "is open at this document marker");
    }
    let mark = if quote.mark == b'"' { '"' } else { '\'' };
    let is_outside = spot.is_first() && indent(spot) < quote.floor;
    if is_outside && !is_entry(spot.rest) && spot.behind.contains(mark) {
        let count = quote.floor.saturating_sub(indent(spot));
        return Hint::Indent("a line inside quotes", count);
    }
    if quote.mark == b'"' && is_escaped(spot.before, quote.at) {
        return Hint::Opened(
            quote,
            "is not closed: `\\\"` at its line's end is an escape, and closes nothing",
        );
    }
    Hint::Opened(quote, "is not closed")
}

/// Whether the line of a quote ends with an escaped quote.
fn is_escaped(before: &str, at: usize) -> bool {
    let text = before.get(at..).unwrap_or("");
    let line = text.split('\n').next().unwrap_or("");
    line.trim_end().ends_with("\\\"")
}

/// Whether the last character before a line, comments left out, is one after which a flow collection goes on.
fn is_in_flow(before: &str) -> bool {
    for line in before.rsplit('\n') {
        let text = uncommented(line);
        if !text.is_empty() && !text.starts_with('#') {
            return text.ends_with([',', '[', '{']);
        }
    }
    false
}

/// Whether a line closes a bracket or a brace, and opens none.
fn is_end(line: &str, mark: u8) -> bool {
    let is_closed = if mark == b'[' {
        line.contains(']')
    } else {
        line.contains('}')
    };
    is_closed && !line.contains(['[', '{'])
}

/// Of a line that begins left of where the lines of a flow collection may.
fn flow_line_hint(spot: &Spot<'_>, bracket: Opened) -> Hint
    ensures { (text : List ℕ) → IsOpened text spot.now.at bracket → IsTrue text spot.now.at result }
{
    let count = bracket.floor.saturating_sub(indent(spot));
    match spot.next() {
        Some(']') => Hint::Indent("the closing bracket", count),
        Some('}') => Hint::Indent("the closing brace", count),
        Some(',') => Hint::Text(FLOW_LINE),
        _ if is_in_flow(spot.before) || is_end(spot.rest, bracket.mark) => Hint::Text(FLOW_LINE),
        _ => Hint::Opened(bracket, unclosed_words(spot, bracket)),
    }
}

/// Of a bracket that is open where another entry begins, or at the end.
fn unclosed_words(spot: &Spot<'_>, bracket: Opened) -> &'static str
    ensures { is_line result.now ≡ true }
{
    if is_in_comment(spot.before, bracket) {
        "is not closed: what is after ` #` on its line is a comment"
    } else {
        "is not closed"
    }
}

/// Whether a comment on the line of a bracket has what would close it.
fn is_in_comment(before: &str, bracket: Opened) -> bool {
    let text = before.get(bracket.at..).unwrap_or("");
    let line = text.split('\n').next().unwrap_or("");
    let Some((front, comment)) = line.split_once(" #") else {
        return false;
    };
    let is_quoted = count(front, '"') % 2 == 1 || count(front, '\'') % 2 == 1;
    let close = if bracket.mark == b'[' { ']' } else { '}' };
    !is_quoted && comment.contains(close)
}

/// Of a character that cannot follow in a flow collection.
fn flow_hint(spot: &Spot<'_>, bracket: Opened) -> Option<Hint>
    ensures { (text : List ℕ) → IsOpened text spot.now.at bracket → IfSome result (IsTrue text spot.now.at) }
{
    if let Some(words) = quote_words(spot) {
        return Some(Hint::Text(words));
    }
    match spot.next() {
        Some(']') if bracket.mark == b'{' => Some(Hint::Opened(bracket, "is closed by a bracket")),
        Some('}') if bracket.mark == b'[' => Some(Hint::Opened(bracket, "is closed by a brace")),
        Some(')') => Some(Hint::Opened(bracket, "is closed by a parenthesis")),
        Some(next) => {
            let words = flow_words(spot, spot.before.trim_end(), next)?;
            Some(Hint::Text(words))
        }
        None => None,
    }
}

/// The words for such a character, after what is before it without blanks.
fn flow_words(spot: &Spot<'_>, before: &str, next: char) -> Option<&'static str>
    ensures { IfSome result (λ words. is_plain words.now ≡ true) }
{
    let word = before
        .rsplit([' ', '\n', ',', '[', '{'])
        .next()
        .unwrap_or("");
    match next {
        _ if word == "*" => Some("an alias needs a name: quote `*`"),
        ',' if word.is_empty() => Some("remove this comma: there is no item or entry before it"),
        ',' | ']' | '}' => Some("quote the text before this"),
        ':' if is_second(before) => Some("a comma is missing before this entry"),
        '\t' | '#' | ':' | '@' | '`' | '%' => None,
        '/' if spot.rest.starts_with("//") || spot.rest.starts_with("/*") => {
            Some("begin a comment with ` #`: `//` and `/*` begin none")
        }
        '[' | '{' if !word.is_empty() && !word.ends_with(['"', '\'', ']', '}']) => {
            Some("quote a text with a bracket or a brace in it, or put a comma before this")
        }
        '=' if is_assigned(spot.rest) => Some("write `: ` between a key and its value"),
        _ if before.ends_with(['"', '\'']) && is_key(spot, before) => {
            Some("a colon or a comma is missing here")
        }
        _ if before.ends_with(['"', '\'', ']', '}']) || word.starts_with('*') => {
            Some("a comma is missing here")
        }
        '-' if spot.rest.starts_with("- ") => {
            Some("remove this dash: items in brackets have commas between them")
        }
        '-' => Some("quote this dash"),
        '|' | '>' => Some("quote this text: a block scalar cannot be in brackets or braces"),
        _ => Some("nothing is allowed here: a quote, a comma or a line break is missing before it"),
    }
}

/// Whether a text in braces has no colon after the last comma or brace, as `{"a" 1}` has none.
fn is_key(spot: &Spot<'_>, before: &str) -> bool {
    let is_brace = match spot.scan.bracket() {
        Some(bracket) => bracket.mark == b'{',
        None => false,
    };
    let entry = before.rsplit([',', '{']).next().unwrap_or("");
    is_brace && !entry.contains(':')
}

/// Whether there is a blank or a line's end in a value before the key of a next entry, as in `1 b` of `{a: 1 b: 2}`.
fn is_second(before: &str) -> bool {
    match before.rsplit(": ").next() {
        Some(value) => value.trim().contains([' ', '\n']),
        None => false,
    }
}
