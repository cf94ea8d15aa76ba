//! Causes of syntax faults outside quotes and brackets, by the character at the fault.
ghost use Rattle.std.specs.Prelude.{◌≡◌, true, ℕ, List, IfSome};
ghost use Rattle.review_hints.specs.Hinted.{is_plain};
ghost use Rattle.review_hints.specs.Hints.{IsTrue};

use crate::block_hints::block_words;
use crate::byte_hints::is_name;
use crate::hints::Hint;
use crate::item_hints::below_words;
use crate::more_hints::{begin_words, colon_words, more_words, no_entry_words};
use crate::quote_hints::{count, quote_words};
use crate::spot::{Spot, is_assigned, is_entry, uncommented, value_of};
use crate::stray_hints::is_alias;

const MARKED_KEY: &str =
    "write `key: value` without `? `, with at most 1,024 characters before the `:`, or put the mapping in braces";

const PROPERTY: &str =
    "remove this anchor, alias or tag, or quote the value: a node has at most one of each";

/// What a fault outside quotes and brackets is.
pub fn node_hint(spot: &Spot<'_>) -> Hint
    ensures { (text : List ℕ) (at : ℕ) → IsTrue text at result }
{
    if let Some(words) = block_words(spot) {
        return Hint::Text(words);
    }
    if let Some(words) = value_words(spot) {
        return Hint::Text(words);
    }
    if let Some(words) = quote_words(spot) {
        return Hint::Text(words);
    }
    if spot.is_first() {
        return Hint::Text(first_words(spot));
    }
    Hint::Text(next_words(spot))
}

/// What is wrong with a value by its beginning.
fn value_words(spot: &Spot<'_>) -> Option<&'static str>
    ensures { IfSome result (λ words. is_plain words.now ≡ true) }
{
    let value = spot.value();
    if let Some(name) = alias_key(spot.line.trim()) {
        Some(key_words(name))
    } else if is_alias(spot.line) && spot.rest.is_empty() {
        Some(
            "an alias alone is no entry of a mapping: write `key: *name`, as `<<: *name` where it is merged",
        )
    } else if value.starts_with('*') && spot.next() == Some(',') {
        Some("put several aliases between brackets, as `[*a, *b]`, or quote the value")
    } else if value.starts_with('*') {
        Some("quote a value that starts with `*`")
    } else if value.trim_end() == "&" {
        Some("quote a value that starts with `&`: an anchor has a name after its `&`")
    } else if value.starts_with('!') && !value.contains(' ') {
        tag_words(spot)
    } else if value.starts_with(['\u{201C}', '\u{201D}', '\u{201E}', '\u{2018}', '\u{2019}']) {
        Some("write quotes of ASCII in place of typographic quotes")
    } else if spot.next() == Some('-') && spot.rest.starts_with("- ") {
        dash_words(spot)
    } else if let Some(words) = begin_words(spot) {
        Some(words)
    } else if spot.next() == Some(':') && spot.line.starts_with("--- ") {
        Some("start a block mapping on the line after `---`")
    } else if spot.line.starts_with("... ") {
        Some("put nothing but a comment after `...` on its line")
    } else {
        None
    }
}

/// What is between a `*` and a colon.
fn alias_key(text: &str) -> Option<&str> {
    text.strip_prefix('*')?.strip_suffix(':')
}

/// What is wrong with a key that is read as an alias, its colon too.
fn key_words(name: &str) -> &'static str
    ensures { is_plain result.now ≡ true }
{
    if is_name(name) {
        "put a space before this colon: it is read as part of the alias's name"
    } else {
        "quote a key that starts with `*`"
    }
}

/// What is wrong right after a tag.
fn tag_words(spot: &Spot<'_>) -> Option<&'static str>
    ensures { IfSome result (λ words. is_plain words.now ≡ true) }
{
    match spot.next() {
        Some('[' | '{') => Some("put a space after the tag"),
        Some(',' | ']' | '}') => Some("quote a value that starts with `!`"),
        _ => None,
    }
}

/// What is wrong with a dash on the line of what the sequence belongs to.
fn dash_words(spot: &Spot<'_>) -> Option<&'static str>
    ensures { IfSome result (λ words. is_plain words.now ≡ true) }
{
    let line = spot.line.trim();
    if line == "---" {
        Some("start a block sequence on the line after `---`")
    } else if line.ends_with(':') && is_number(spot) {
        Some(
            "write a negative number without a space after its `-`, or start a block sequence on the line after its key",
        )
    } else if line.ends_with(':') {
        Some("start a block sequence on the line after its key")
    } else if value_of(spot.line).starts_with(['&', '!']) {
        Some("start a block sequence on the line after its anchor or tag")
    } else {
        None
    }
}

/// Whether a number comes after a dash and a space.
fn is_number(spot: &Spot<'_>) -> bool {
    let is_other = |c: char| !(c.is_ascii_digit() || c == '.');
    match spot.rest.strip_prefix("- ") {
        Some(text) => !text.is_empty() && !uncommented(text).contains(is_other),
        None => false,
    }
}

/// Of a fault at the first character of a line, by that character.
fn first_words(spot: &Spot<'_>) -> &'static str
    ensures { is_plain result.now ≡ true }
{
    match spot.next() {
        _ if spot.above.starts_with('%') => directive_words(spot.above),
        None => "the text ends too early: a part of it is missing",
        Some('?') => MARKED_KEY,
        Some(':') if !spot.above.is_empty() && !is_entry(spot.above) => {
            "put a key before this colon, on the same line"
        }
        Some(':') => "put a key before this colon",
        Some('%') => {
            "quote a text that starts with `%`, or put this directive before a line `---`"
        }
        Some('@' | '`') => plain_words(spot),
        Some(']' | '}' | ',') => closing_words(spot),
        Some('&' | '*' | '!') => PROPERTY,
        Some(_) => below_words(spot),
    }
}

/// Of a text that follows a directive.
fn directive_words(above: &str) -> &'static str
    ensures { is_plain result.now ≡ true }
{
    if above.starts_with("%YAML ") || above.starts_with("%TAG ") {
        "put a line `---` after the directives"
    } else {
        "a line that begins with `%` is a directive: remove the line above, or put a line `---` after it"
    }
}

/// Of a character that begins no plain scalar.
fn plain_words(spot: &Spot<'_>) -> &'static str
    ensures { is_plain result.now ≡ true }
{
    match spot.next() {
        Some('@') => "no plain scalar begins with `@`: put quotes around it",
        Some('%') => "no plain scalar begins with `%`: put quotes around it, as in `\"%d\"`",
        _ => "no plain scalar begins with a backtick: put quotes around it",
    }
}

/// Of a closing bracket or a comma where nothing is open.
fn closing_words(spot: &Spot<'_>) -> &'static str
    ensures { is_plain result.now ≡ true }
{
    match spot.next() {
        Some(',') if is_ended(spot) && is_pair(spot.rest) => {
            "put several entries between braces, as `{a: b, c: d}`, or each on a line of its own"
        }
        Some(',') if spot.rest.len() > 1 && is_ended(spot) => {
            "put several items between brackets, as `[a, b]`, or quote the value"
        }
        Some(',') =>
            "remove this comma, or quote the value: commas separate only items of `[ ]` and entries of `{ }`",
        Some(']') => "remove this bracket, or quote the value: none is open here",
        _ => "remove this brace, or quote the value: none is open here",
    }
}

/// Whether a comma is before a key and its value.
fn is_pair(text: &str) -> bool {
    let text = text.trim_start_matches([',', ' ']);
    match text.split_once(": ") {
        Some((key, _)) => {
            !key.contains(' ') && count(key, '"') % 2 == 0 && count(key, '\'') % 2 == 0
        }
        None => false,
    }
}

/// Of a fault after other characters of its line.
fn next_words(spot: &Spot<'_>) -> &'static str
    ensures { is_plain result.now ≡ true }
{
    match spot.next() {
        None | Some('\n' | '\r') => no_entry_words(spot),
        Some('\t') =>
            "use spaces here: indentation and separation have no tabs, nor has the end of a key",
        Some('#') => "write a space before the `#` of a comment",
        Some(':') if is_ended(spot) && !spot.rest.starts_with(": ") && spot.rest != ":" => {
            after_words(spot)
        }
        Some(':') if !spot.line.contains(": ") && !spot.above.is_empty() => more_words(spot),
        Some(':') => colon_words(spot),
        Some(']' | '}' | ',') => closing_words(spot),
        Some('?') => MARKED_KEY,
        Some(_) if is_ended(spot) => after_words(spot),
        Some(next) if is_tight(spot) => tight_words(next),
        Some('@' | '`' | '%') => plain_words(spot),
        Some('*') if spot.value().starts_with(['&', '!']) => {
            "remove the anchor and the tag before this alias"
        }
        Some('&' | '*' | '!') => PROPERTY,
        Some(_) => "nothing is allowed here: a quote, a comma or a line break is missing before it",
    }
}

/// Whether a letter follows on a line that has no colon.
fn is_alone(spot: &Spot<'_>) -> bool {
    spot.rest.starts_with(|c: char| c.is_alphabetic()) && !spot.whole.contains(':')
}

/// Whether a quote or a closing bracket is before the fault.
fn is_ended(spot: &Spot<'_>) -> bool {
    spot.line.trim_end().ends_with(['"', '\'', ']', '}'])
}

/// Whether the fault is right after a colon, and a quoted key is before that at the start of its line.
fn is_tight(spot: &Spot<'_>) -> bool {
    let text = spot.line.trim_start_matches([' ', '-']);
    match text.strip_suffix(':') {
        Some(key) => {
            let key = key.trim_end();
            key.starts_with(['"', '\'']) && key.ends_with(['"', '\'']) && !key.contains(": ")
        }
        None => false,
    }
}

/// Of what is right after the colon of a quoted key.
fn tight_words(next: char) -> &'static str
    ensures { is_plain result.now ≡ true }
{
    if next == '"' || next == '\'' {
        "put a space after the colon"
    } else {
        "put a space after the colon, or the closing quote at the end of the value"
    }
}

/// Of what follows a quoted scalar or a flow collection.
fn after_words(spot: &Spot<'_>) -> &'static str
    ensures { is_plain result.now ≡ true }
{
    let is_key = spot.line.trim_start().starts_with(['"', '\'']) && !spot.line.contains(": ");
    let is_collection = spot.line.trim_start().starts_with(['[', '{', ']', '}']);
    if spot.rest.starts_with("//") {
        "begin a comment with ` #`, and not with `//`"
    } else if spot.rest.starts_with("+ ") {
        "write one text: YAML joins no texts with `+`"
    } else if is_assigned(spot.rest) && !spot.line.contains(": ") {
        "write `: ` between a key and its value"
    } else if is_key
        && spot
            .rest
            .starts_with(|c: char| c.is_alphanumeric() || c == '"')
    {
        "write `: ` after a quoted key, or put quotes around the whole text"
    } else if is_collection && spot.rest.starts_with(['[', '{']) {
        "the document ends with its closing bracket: put a line `---` before the next one"
    } else if is_collection && is_alone(spot) {
        "put quotes around the whole text, remove what follows the closing bracket, or remove the line"
    } else if is_collection && is_entry(spot.rest) {
        "quote this key: without quotes `[` and `{` begin a collection"
    } else {
        "put quotes around the whole value, or remove what follows the closing quote or bracket"
    }
}
