//! The source line of a place, and a caret under its column.
ghost use Rattle.std.specs.Prelude.{◌≡◌, ◌≤◌, ◌++◌, min, length, string_bytes, OnOk};
ghost use Rattle.review_text.specs.Terminal.{is_unprinted, is_printed, terminal_char, terminal};
ghost use Rattle.review_text.specs.Window.{spaces, below, margin, IsPartFrom, IsPartTo, IsEnd, IsStart, Sides, window, PutsLine};

use std::alloc::{AllocError, Global};
use unicode_width::UnicodeWidthChar;
use yaml_path::source_line;

/// How many characters of a line are shown on either side of the place.
const SIDE: usize = 80;

/// How many bytes these have at most.
const SIDE_BYTES: usize = 320;

/// Whether a character turns or hides text, or has no width or no form.
#[tactic(auto, unfolding(crate::specs::Terminal::is_unprinted))]
fn is_unprinted(c: char) -> bool
    ensures { result ≡ is_unprinted c }
{
    matches!(
        c,
        '\u{AD}' | '\u{61C}' | '\u{180E}' | '\u{200B}'..='\u{200F}' | '\u{2028}'..='\u{202E}'
            | '\u{2060}'..='\u{206F}' | '\u{FEFF}' | '\u{FFF0}'..='\u{FFFD}' | '\u{E0000}'..='\u{E007F}'
    )
}

/// Whether a terminal shows a character as itself: controls and what turns or hides text are not printed.
fn is_shown(c: char) -> bool
    ensures { result ≡ is_printed c }
{
    !c.is_control() && !is_unprinted(c)
}

/// The character that stands for one on a terminal.
fn shown(c: char) -> char
    ensures { result ≡ terminal_char c }
{
    if c == '\t' || is_shown(c) { c } else { '?' }
}

/// Writes a text with `?` for what a terminal would not print.
pub fn put_shown(out: &mut String, text: &str) -> Result<(), AllocError>
    ensures ok { OnOk result (string_bytes out.new ≡ string_bytes out.old ++ terminal text.now) }
{
    'chars: for c in text.chars() {
        out.push(shown(c))?;
    }
    Ok(())
}

/// The end of a text from a byte on; all of it where no character starts there.
fn end_from(text: &str, at: usize) -> &str
    ensures { IsPartFrom text.now result.now }
{
    match text.split_at_checked(at) {
        Some((_, end)) => end,
        None => text,
    }
}

/// The start of a text up to a byte; all of it where no character starts there.
fn start_to(text: &str, at: usize) -> &str
    ensures { IsPartTo text.now result.now }
{
    match text.split_at_checked(at) {
        Some((start, _)) => start,
        None => text,
    }
}

/// The last characters of a text.
fn last(text: &str) -> &str
    ensures { IsEnd text.now result.now }
{
    if text.len() <= SIDE {
        return text;
    }
    match text.char_indices().rev().nth(SIDE - 1) {
        Some((at, _)) => end_from(text, at),
        None => text,
    }
}

/// The first characters of a text.
fn first(text: &str) -> &str
    ensures { IsStart text.now result.now }
{
    if text.len() <= SIDE {
        return text;
    }
    match text.char_indices().nth(SIDE) {
        Some((at, _)) => start_to(text, at),
        None => text,
    }
}

/// So many spaces as a character is wide.
fn spaces(width: usize) -> &'static str
    ensures { result.now ≡ spaces width }
{
    if width == 1 {
        " "
    } else if width == 2 {
        "  "
    } else if width == 3 {
        "   "
    } else {
        ""
    }
}

/// What stands below a character that is shown: a tab, or as many spaces as it is wide.
#[tactic(auto, unfolding(crate::specs::Window::below))]
fn below(c: char) -> &'static str
    ensures { result.now ≡ below c }
{
    if c == '\t' {
        "\t"
    } else {
        spaces(c.width().unwrap_or(0))
    }
}

/// Writes what stands below a text.
fn put_margin(out: &mut String, text: &str) -> Result<(), AllocError>
    ensures ok { OnOk result (string_bytes out.new ≡ string_bytes out.old ++ margin text.now) }
{
    'chars: for c in text.chars() {
        out.push_str(below(shown(c)))?;
    }
    Ok(())
}

/// Writes a line of these two pieces, and below it a caret between them.
fn put_window(out: &mut String, before: &str, behind: &str) -> Result<(), AllocError>
    ensures ok { OnOk result (string_bytes out.new ≡ string_bytes out.old ++ window before.now behind.now) }
{
    put_shown(out, before)?;
    put_shown(out, behind)?;
    out.push_str("\n")?;
    put_margin(out, before)?;
    out.push_str("^\n")?;
    Ok(())
}

/// The bytes before an offset and behind it, on its line and close to it.
fn sides(text: &[u8], at: usize) -> (&[u8], &[u8])
    requires { at ≤ length text.now }
    ensures { Sides text.now at result.0.now result.1.now }
{
    let (start, end) = source_line(text, at);
    let from = at - (at - start).min(SIDE_BYTES);
    let to = at + (end - at).min(SIDE_BYTES);
    (&text[from..at], &text[at..to])
}

/// Writes the line on which an offset stands, and below it a caret under the character there. Of a long line a window round it is
/// shown, and `?` for what a terminal would not print. A tab is repeated before the caret.
///
/// # Errors
/// `OutOfMemory`
pub fn put_source_line(
    alloc: Global,
    out: &mut String,
    text: &[u8],
    at: usize,
) -> Result<(), AllocError>
    ensures ok { OnOk result (PutsLine text.now (min at (length text.now)) (string_bytes out.old) (string_bytes out.new)) }
{
    let (left, right) = sides(text, at.min(text.len()));
    let before = String::from_utf8_lossy(alloc, left)?;
    let behind = String::from_utf8_lossy(alloc, right)?;
    put_window(out, last(&before), first(&behind))
}
