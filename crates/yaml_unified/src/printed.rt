//! Edit scripts as they are printed.
ghost use Rattle.std.specs.Prelude.{◌≡◌, ◌<◌, ◌++◌, ◌||◌, [], cond, take, codes, string_bytes, OnOk};
ghost use Rattle.std.specs.List.{list_any};
ghost use Rattle.std.specs.Str.{encode_utf8_all};
ghost use Rattle.yaml_unified.specs.Script.{is_change};
ghost use Rattle.yaml_unified.specs.Printed.{is_control, byte_escape, line_char, line_text, plain, piece_text, sign, piece, edit_text, is_near, opens, place_text, script_text};

use crate::lines::Piece;
use crate::script::Edit;
use std::alloc::AllocError;
use yaml_text::digit::hex_digit;

/// What stands for lines that are left out.
const LEFT_OUT: &str = "\t...\n";

/// What follows a line that no line feed ends.
const NO_END: &str = "\n\t\\ no line feed at the end\n";

/// Writes the escape of a byte (YAML 1.2.2, 5.7).
fn put_byte(out: &mut String, byte: u32) -> Result<(), AllocError>
    requires { byte < 256 }
    ensures ok { OnOk result (string_bytes out.new ≡ string_bytes out.old ++ encode_utf8_all (byte_escape byte)) }
{
    out.push_str("\\x")?;
    out.push(char::from(hex_digit(byte / 16)))?;
    out.push(char::from(hex_digit(byte % 16)))?;
    Ok(())
}

/// Whether a character is a control character.
fn is_control(c: char) -> bool
    ensures { result ≡ is_control c }
{
    matches!(c, '\0'..='\u{1F}' | '\u{7F}'..='\u{9F}')
}

/// Writes a character of a line.
fn put_char(out: &mut String, c: char, at_end: bool) -> Result<(), AllocError>
    ensures ok { OnOk result (string_bytes out.new ≡ string_bytes out.old ++ encode_utf8_all (line_char at_end c)) }
{
    if c == '\\' {
        out.push_str("\\\\")?;
        return Ok(());
    }
    if c == '\t' {
        out.push_str("\\t")?;
        return Ok(());
    }
    if is_control(c) || (at_end && c == ' ') {
        return put_byte(out, u32::from(c));
    }
    out.push(c)?;
    Ok(())
}

/// Writes a part of a line.
fn put_chars(out: &mut String, text: &str, at_end: bool) -> Result<(), AllocError>
    ensures ok { OnOk result (string_bytes out.new ≡ string_bytes out.old ++ line_text at_end text.now) }
{
    'chars: for c in text.chars() {
        put_char(out, c, at_end)?;
    }
    Ok(())
}

/// Writes what turns a colour of a terminal off, if there is one.
fn put_plain(out: &mut String, color: bool) -> Result<(), AllocError>
    ensures ok { OnOk result (string_bytes out.new ≡ string_bytes out.old ++ plain color) }
{
    if color {
        out.push_str("\u{1b}[0m")?;
    }
    Ok(())
}

/// Writes a line, and that no line feed ends it, where none does.
fn put_piece(out: &mut String, piece: &Piece<'_>, color: bool) -> Result<(), AllocError>
    ensures ok { OnOk result (string_bytes out.new ≡ string_bytes out.old ++ piece_text color piece.now) }
{
    put_chars(out, piece.line, false)?;
    put_chars(out, piece.spaces, true)?;
    put_plain(out, color)?;
    out.push_str(end_of(piece))?;
    Ok(())
}

/// What follows a line.
fn end_of(piece: &Piece<'_>) -> &'static str
    ensures { result.now ≡ cond piece.now.has_end (codes "\n") (codes "\n\t\\ no line feed at the end\n") }
{
    if piece.has_end { "\n" } else { NO_END }
}

/// The sign of an edit behind a tab, in colour or not.
fn sign_of(edit: &Edit<'_>, color: bool) -> &'static str
    ensures { result.now ≡ sign color edit.now }
{
    match (edit, color) {
        (Edit::Kept(_), _) => "\t ",
        (Edit::Removed(_), false) => "\t-",
        (Edit::Removed(_), true) => "\t\u{1b}[31m-",
        (Edit::Added(_), false) => "\t+",
        (Edit::Added(_), true) => "\t\u{1b}[32m+",
    }
}

/// The line of an edit.
fn piece_of<'e, 't>(edit: &'e Edit<'t>) -> &'e Piece<'t>
    ensures { result.now ≡ piece edit.now }
{
    match edit {
        Edit::Kept(piece) | Edit::Removed(piece) | Edit::Added(piece) => piece,
    }
}

/// Writes an edit behind a tab and its sign.
fn put_edit(out: &mut String, edit: &Edit<'_>, color: bool) -> Result<(), AllocError>
    ensures ok { OnOk result (string_bytes out.new ≡ string_bytes out.old ++ edit_text color edit.now) }
{
    out.push_str(sign_of(edit, color))?;
    put_piece(out, piece_of(edit), color)
}

/// Whether there is a change among edits.
fn has_change(edits: &[Edit<'_>]) -> bool
    ensures { result ≡ list_any is_change edits.now }
{
    edits.iter().any(|edit| edit.is_change())
}

/// At most so many of edits, from the first on.
fn first_of<'s, 't>(edits: &'s [Edit<'t>], count: usize) -> &'s [Edit<'t>]
    ensures { result.now ≡ take count edits.now }
{
    if count < edits.len() {
        &edits[..count]
    } else {
        edits
    }
}

/// Whether the edit at a place, or one of so many before it or behind it, is a change.
fn is_near(edits: &[Edit<'_>], context: usize, place: usize) -> bool
    requires { context < 65536 }
    ensures { result ≡ is_near context edits.now place }
{
    let before = place.saturating_sub(context);
    let start = before.min(edits.len());
    has_change(first_of(&edits[start..], (place - before) + (context + 1)))
}

/// Whether lines are left out before a place, and there is a change before these.
fn opens(edits: &[Edit<'_>], context: usize, place: usize, is_behind: bool) -> bool
    requires few { context < 65536 }
    requires behind { is_behind ≡ list_any is_change (take place edits.now) }
    ensures { result ≡ opens context edits.now place }
{
    !is_near(edits, context, place.saturating_sub(1)) && is_behind
}

/// How edits are printed: so many lines before and behind each change, in colour or not.
#[derive(Clone, Copy)]
struct Look {
    context: usize,
    color: bool,
}

/// Writes the edit at a place, if a change is near, and before it that lines are left out, where they are and there is a change
/// before them.
fn put_place(
    out: &mut String,
    edits: &[Edit<'_>],
    look: Look,
    place: usize,
    edit: &Edit<'_>,
    is_behind: bool,
) -> Result<(), AllocError>
    requires few { look.context < 65536 }
    requires behind { is_behind ≡ list_any is_change (take place edits.now) }
    ensures ok { OnOk result (string_bytes out.new ≡ string_bytes out.old ++ place_text look.context look.color edits.now place edit.now) }
{
    if !is_near(edits, look.context, place) {
        return Ok(());
    }
    if opens(edits, look.context, place, is_behind) {
        out.push_str(LEFT_OUT)?;
    }
    put_edit(out, edit, look.color)
}

/// Whether there is a change, or this edit is one.
fn or_change(is_behind: bool, edit: &Edit<'_>) -> bool
    ensures { result ≡ (is_behind || is_change edit.now) }
{
    is_behind || edit.is_change()
}

/// Writes the changes of a script, each with so many lines before and behind it, in colour or not.
pub fn put_script(
    out: &mut String,
    edits: &[Edit<'_>],
    context: usize,
    color: bool,
) -> Result<(), AllocError>
    requires { context < 65536 }
    ensures ok { OnOk result (string_bytes out.new ≡ string_bytes out.old ++ script_text context color edits.now) }
{
    let look = Look { context, color };
    let mut is_behind = false;
    for (place, edit) in edits.iter().enumerate() {
        put_place(out, edits, look, place, edit, is_behind)?;
        is_behind = or_change(is_behind, edit);
    }
    Ok(())
}
