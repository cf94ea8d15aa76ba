//! Where an offset of a text stands for a reader: its line and its column.
ghost use Rattle.std.specs.Prelude.{◌≡◌, ◌<◌, ◌≤◌, ◌+◌, ◌-◌, ◌&&◌, ◌||◌, ◌==◌, not, length};
ghost use Rattle.yaml_definitions.specs.grammar.Characters.{b-carriage-return, b-line-feed};
ghost use Rattle.yaml_path.specs.LineModel.{ends_break, starts_char, breaks, chars_from, IsPlace, IsLineStart, IsLine};

/// The length of a piece of a text, in which what is counted fits a byte: so sixteen bytes are counted at a time.
const PIECE: usize = 240;

/// A line and a column, both from 1. A column counts characters.
#[derive(Clone, Copy, Debug, PartialEq, Eq)]
pub struct Place {
    pub line: usize,
    pub column: usize,
}

/// Whether a byte before this next one is the last one of a line break: an LF, or a CR before no LF.
fn is_break_end(byte: u8, next: u8) -> bool
    ensures { result ≡ ((byte == b-line-feed) || ((byte == b-carriage-return) && not (next == b-line-feed))) }
{
    byte == b'\n' || (byte == b'\r' && next != b'\n')
}

/// Whether the byte at this offset is the last one of a line break.
fn ends_line(text: &[u8], at: usize) -> bool
    requires { at < length text.now }
    ensures { result ≡ ends_break text.now at }
{
    let next = if at + 1 < text.len() { text[at + 1] } else { 0 };
    is_break_end(text[at], next)
}

/// Whether a byte begins a character in UTF-8.
fn is_char_start(byte: u8) -> bool
    ensures { result ≡ starts_char byte }
{
    byte < 128 || byte >= 192
}

/// How many line breaks end in a piece, behind which the text goes on.
fn breaks_in(text: &[u8], from: usize, to: usize) -> u8
    requires ahead { from ≤ to }
    requires short { to < from + 256 }
    requires within { to < length text.now }
    ensures counted { breaks text.now to ≡ breaks text.now from + result }
    ensures few { from + result ≤ to }
{
    let mut count: u8 = 0;
    'bytes: for at in from..to {
        if is_break_end(text[at], text[at + 1]) {
            count += 1;
        }
    }
    count
}

/// How many line breaks end from an offset to another.
fn breaks_between(text: &[u8], from: usize, to: usize) -> usize
    requires ahead { from ≤ to }
    requires within { to ≤ length text.now }
    ensures counted { breaks text.now to ≡ breaks text.now from + result }
    ensures few { from + result ≤ to }
{
    let mut count = 0;
    let mut at = from;
    'pieces: while to - at > PIECE {
        count += breaks_in(text, at, at + PIECE) as usize;
        at += PIECE;
    }
    if at < to {
        count += breaks_in(text, at, to - 1) as usize;
        if ends_line(text, to - 1) {
            count += 1;
        }
    }
    count
}

/// How many characters begin in a piece.
fn chars_in(text: &[u8], from: usize, to: usize) -> u8
    requires ahead { from ≤ to }
    requires short { to < from + 256 }
    requires within { to ≤ length text.now }
    ensures counted { result ≡ chars_from text.now from (to - from) }
    ensures few { from + result ≤ to }
{
    let mut count: u8 = 0;
    'bytes: for at in from..to {
        if is_char_start(text[at]) {
            count += 1;
        }
    }
    count
}

/// How many characters begin from an offset to another.
fn chars_between(text: &[u8], from: usize, to: usize) -> usize
    requires ahead { from ≤ to }
    requires within { to ≤ length text.now }
    ensures counted { result ≡ chars_from text.now from (to - from) }
    ensures few { from + result ≤ to }
{
    let mut count = 0;
    let mut at = from;
    'pieces: while to - at > PIECE {
        count += chars_in(text, at, at + PIECE) as usize;
        at += PIECE;
    }
    count + chars_in(text, at, to) as usize
}

/// Where the line of an offset starts.
fn line_start(text: &[u8], at: usize) -> usize
    requires { at ≤ length text.now }
    ensures { IsLineStart text.now at result }
{
    let mut start = at;
    while start > 0 && !ends_line(text, start - 1) {
        start -= 1;
    }
    start
}

/// The line and the column of an offset, from those of one that is not behind it. What lies between is counted sixteen bytes at a
/// time, and only the last line of it byte by byte.
pub fn place_after(text: &[u8], from: usize, place: Place, to: usize) -> Place
    requires ahead { from ≤ to }
    requires within { to ≤ length text.now }
    requires place { IsPlace text.now from place.line place.column }
    ensures { IsPlace text.now to result.line result.column }
{
    let breaks = breaks_between(text, from, to);
    if breaks == 0 {
        return Place {
            line: place.line,
            column: place.column + chars_between(text, from, to),
        };
    }
    let start = line_start(text, to);
    Place {
        line: place.line + breaks,
        column: 1 + chars_between(text, start, to),
    }
}

/// The line and the column of an offset.
pub fn place_at(text: &[u8], at: usize) -> Place
    requires { at ≤ length text.now }
    ensures { IsPlace text.now at result.line result.column }
{
    place_after(text, 0, Place { line: 1, column: 1 }, at)
}

/// The line of an offset, without its line break: from which offset to which.
pub fn source_line(text: &[u8], at: usize) -> (usize, usize)
    requires { at ≤ length text.now }
    ensures { IsLine text.now at result.0 result.1 }
{
    let start = line_start(text, at);
    let mut end = at;
    while end < text.len() && text[end] != b'\n' && text[end] != b'\r' {
        end += 1;
    }
    (start, end)
}
