//! What faults of characters, escapes, directives, tags and aliases commonly are.
ghost use Rattle.std.specs.Prelude.{◌≡◌, true};
ghost use Rattle.review_hints.specs.Hinted.{is_plain};

use crate::spot::is_block_line;

/// Whether bytes are UTF-16: by its byte order mark, or by the zeros of its first letters.
pub fn is_utf16(text: &[u8]) -> bool {
    match text {
        [0xFF, 0xFE, ..] | [0xFE, 0xFF, ..] => true,
        [0, first, ..] => *first != 0,
        [first, 0, ..] => *first != 0,
        _ => false,
    }
}

/// What bytes are that are no UTF-8.
pub fn utf8_words(text: &[u8], at: usize) -> &'static str
    ensures { is_plain result.now ≡ true }
{
    let before = text.get(..at).unwrap_or(&[]);
    if is_utf16(text) {
        "this is UTF-16: convert the file by `iconv -f UTF-16 -t UTF-8`"
    } else if before.iter().any(|byte| *byte > 0x7F) {
        "these bytes are not UTF-8, and others before them are: write this character anew, and save the file as UTF-8"
    } else {
        "these bytes are not UTF-8: if they are Windows-1252 or Latin-1, convert the file by `iconv -f CP1252 -t UTF-8`"
    }
}

/// What a null is, by the byte two places before it.
fn null_words(text: &[u8], at: usize) -> &'static str
    ensures { is_plain result.now ≡ true }
{
    let is_other = |place: usize| text.get(place) == Some(&0);
    if is_other(at.saturating_add(2)) || (at > 1 && is_other(at.saturating_sub(2))) {
        "a part of the file is UTF-16, as PowerShell's `>>` writes it: write that part as UTF-8"
    } else {
        "YAML does not allow the null character (U+0000): remove it, or write `\\0` between double quotes"
    }
}

/// What a character is that is none of YAML's.
pub fn printable_words(text: &[u8], at: usize) -> &'static str
    ensures { is_plain result.now ≡ true }
{
    match text.get(at..).unwrap_or(&[]) {
        [0, ..] if is_utf16(text) && at == 0 => {
            "this is UTF-16: convert the file by `iconv -f UTF-16BE -t UTF-8`"
        }
        [0, ..] if is_utf16(text) && at == 1 => {
            "this is UTF-16: convert the file by `iconv -f UTF-16LE -t UTF-8`"
        }
        [0, ..] => null_words(text, at),
        [0xEF, 0xBB, 0xBF, ..] =>
            "remove this byte order mark: one is allowed only at the start of a file",
        _ =>
            "YAML does not allow this character: remove it, or write it as an escape between double quotes, as `\\x1B`",
    }
}

/// What a tab is where spaces would be.
pub fn tab_words(before: &str) -> &'static str
    ensures { is_plain result.now ≡ true }
{
    let line = before.rsplit('\n').next().unwrap_or("");
    let above = before
        .get(..before.len().saturating_sub(line.len()))
        .unwrap_or("");
    if line.trim().is_empty() && is_block_line(above.trim_end()) {
        "this is a tab: use spaces for indentation, and put them before a tab that belongs to the block scalar above"
    } else {
        "this is a tab: use spaces for indentation and separation"
    }
}

/// The number that an escape of so many digits has.
fn escape_number(text: &str, count: usize) -> Option<u32> {
    let digits = text.get(2..count.saturating_add(2))?;
    u32::from_str_radix(digits, 16).ok()
}

/// Whether an escape of four digits has the number of a second surrogate.
fn is_low(text: &str) -> bool {
    text.starts_with("\\u") && matches!(escape_number(text, 4), Some(0xDC00..=0xDFFF))
}

/// What an escape of four digits is that is no character, or has fewer digits.
fn short_words(text: &str) -> &'static str
    ensures { is_plain result.now ≡ true }
{
    match escape_number(text, 4) {
        Some(0xD800..=0xDBFF) if is_low(text.get(6..).unwrap_or("")) =>
            "a pair of surrogates, as JSON has it: write the character, or one escape for it, as `\\U0001F600`",
        Some(0xD800..=0xDFFF) =>
            "half a pair of surrogates is no character: write the character that is meant",
        _ =>
            "`\\u` takes four hexadecimal digits: for a backslash write `\\\\`, or put the text between single quotes",
    }
}

/// What a backslash is that begins no escape.
pub fn escape_words(behind: &str) -> &'static str
    ensures { is_plain result.now ≡ true }
{
    match behind.as_bytes() {
        [_, b'u', ..] => short_words(behind),
        [_, b'U', ..] if escape_number(behind, 8).is_some() => {
            "no character has this number: the last one is `\\U0010FFFF`"
        }
        [_, b'U', ..] =>
            "`\\U` takes eight hexadecimal digits: for a backslash write `\\\\`, or put the text between single quotes",
        [_, b'x', ..] =>
            "`\\x` takes two hexadecimal digits: for a backslash write `\\\\`, or put the text between single quotes",
        [_, b'\'', ..] => "remove this backslash: between double quotes a single quote needs none",
        _ =>
            "this is no escape: for a backslash write `\\\\`, or put the text between single quotes",
    }
}

/// What a directive is that is malformed, repeated or of another version.
pub fn directive_words(before: &str, behind: &str) -> &'static str
    ensures { is_plain result.now ≡ true }
{
    let line = behind.split('\n').next().unwrap_or("").trim_end();
    if line.starts_with("%YAML 1.1") {
        "remove this line to read the file as YAML 1.2: there `yes`, `no`, `on` and `off` are strings, `012` is 12 and `<<` is an ordinary key (`yamlreview warn` shows where)"
    } else if line.starts_with("%YAML 1.2") && before.contains("%YAML") {
        "remove this line: a document has one `%YAML` line at most"
    } else if line.starts_with("%YAML") {
        "write `%YAML 1.2`, or remove the line: other versions are not read"
    } else if line.starts_with("%TAG") && line.split(' ').count() < 3 {
        "write a handle and a prefix, as `%TAG !e! tag:example.com,2000:`"
    } else {
        "remove or correct this line: a document has one `%YAML 1.2` at most, and one `%TAG` for a handle"
    }
}

/// Whether a quote comes right after the name of a tag, as in `!name"text"`.
fn is_tight(word: &str) -> bool {
    let Some((name, _)) = word.split_once(['"', '\'']) else {
        return false;
    };
    name.len() > 1 && !name.contains(|c: char| !(c.is_alphanumeric() || "!:._-".contains(c)))
}

/// What is of a tag whose handle is not declared.
pub fn handle_words(behind: &str) -> &'static str
    ensures { is_plain result.now ≡ true }
{
    let word = behind
        .split([' ', '\n', ','])
        .next()
        .unwrap_or("")
        .trim_end();
    if word.ends_with('!') {
        "quote a value that starts with `!`"
    } else {
        "add a `%TAG` line for the handle of this tag to its document, write the tag in full, as `!<URI>`, or quote a value that starts with `!`"
    }
}

/// What is no tag.
pub fn tag_words(behind: &str) -> &'static str
    ensures { is_plain result.now ≡ true }
{
    let word = behind.split([' ', '\n']).next().unwrap_or("");
    if word.starts_with("!<") && !word.contains('>') {
        "put a `>` at the end of this tag: a full tag is `!<URI>`"
    } else if is_tight(word) {
        "put a space after this tag, or quote a value that starts with `!`"
    } else {
        "this is no tag: write `!name`, `!!name` or `!<URI>`, or quote a value that starts with `!`"
    }
}

/// Whether a text is one that people give an anchor as its name.
pub fn is_name(text: &str) -> bool {
    let is_other = |c: char| !(c.is_alphanumeric() || c == '_' || c == '-');
    !text.is_empty() && !text.starts_with('-') && !text.contains(is_other)
}
