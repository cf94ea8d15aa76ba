//! One hunk.
ghost use Rattle.std.specs.Prelude.{◌≡◌, ◌≤◌, ◌++◌, length, codes, cond, decimal, string_bytes, OnOk};
ghost use Rattle.std.specs.List.{filter, flat_map};
ghost use Rattle.yaml_unified.specs.Unified.{is_left, is_right, start, range_text, head_text, end_text, line_text, hunk_text};

use crate::{Edit, Piece};
use itoa::Buffer;
use std::alloc::AllocError;

/// What follows a line that no line feed ends.
const NO_END: &str = "\n\\ No newline at end of file\n";

/// Whether the left text has the line.
fn is_left(edit: &Edit<'_>) -> bool
    ensures { result ≡ is_left edit.now }
{
    !matches!(edit, Edit::Added(_))
}

/// Whether the right text has the line.
fn is_right(edit: &Edit<'_>) -> bool
    ensures { result ≡ is_right edit.now }
{
    !matches!(edit, Edit::Removed(_))
}

/// How many of the lines the left text has.
pub fn lefts(edits: &[Edit<'_>]) -> usize
    ensures count { result ≡ length (filter is_left edits.now) }
    ensures within { result ≤ length edits.now }
{
    edits.iter().filter(|edit| is_left(edit)).count()
}

/// How many of the lines the right text has.
pub fn rights(edits: &[Edit<'_>]) -> usize
    ensures count { result ≡ length (filter is_right edits.now) }
    ensures within { result ≤ length edits.now }
{
    edits.iter().filter(|edit| is_right(edit)).count()
}

/// The line with which a range begins; of a range without lines the one before it.
fn start(line: usize, count: usize) -> usize
    ensures { result ≡ start line count }
{
    if count == 0 {
        line.saturating_sub(1)
    } else {
        line
    }
}

/// Writes a range: its first line and how many lines it has.
fn put_range(out: &mut String, line: usize, count: usize) -> Result<(), AllocError>
    ensures ok { OnOk result (string_bytes out.new ≡ string_bytes out.old ++ range_text line count) }
{
    let mut number = Buffer::new();
    out.push_str(number.format(start(line, count)))?;
    out.push_str(",")?;
    out.push_str(number.format(count))?;
    Ok(())
}

/// Writes the first line of a hunk.
fn put_head(
    out: &mut String,
    left: usize,
    right: usize,
    shown: &[Edit<'_>],
) -> Result<(), AllocError>
    ensures ok { OnOk result (string_bytes out.new ≡ string_bytes out.old ++ head_text left right shown.now) }
{
    out.push_str("@@ -")?;
    put_range(out, left, lefts(shown))?;
    out.push_str(" +")?;
    put_range(out, right, rights(shown))?;
    out.push_str(" @@\n")?;
    Ok(())
}

/// The sign of an edit, and its line.
fn parts_of<'e, 't>(edit: &'e Edit<'t>) -> (&'static str, &'e Piece<'t>)
    ensures { result.0.now ++ (result.1.now.line.now ++ (result.1.now.spaces.now ++ end_text result.1.now)) ≡ line_text edit.now }
{
    match edit {
        Edit::Kept(piece) => (" ", piece),
        Edit::Removed(piece) => ("-", piece),
        Edit::Added(piece) => ("+", piece),
    }
}

/// What follows a line.
fn end_of(piece: &Piece<'_>) -> &'static str
    ensures { result.now ≡ end_text piece.now }
{
    if piece.has_end { "\n" } else { NO_END }
}

/// Writes a line of a hunk.
fn put_line(out: &mut String, edit: &Edit<'_>) -> Result<(), AllocError>
    ensures ok { OnOk result (string_bytes out.new ≡ string_bytes out.old ++ line_text edit.now) }
{
    let (sign, piece) = parts_of(edit);
    out.push_str(sign)?;
    out.push_str(piece.line)?;
    out.push_str(piece.spaces)?;
    out.push_str(end_of(piece))?;
    Ok(())
}

/// Writes a hunk that begins at these lines.
pub fn put_hunk(
    out: &mut String,
    left: usize,
    right: usize,
    shown: &[Edit<'_>],
) -> Result<(), AllocError>
    ensures ok { OnOk result (string_bytes out.new ≡ string_bytes out.old ++ hunk_text left right shown.now) }
{
    put_head(out, left, right, shown)?;
    for edit in shown {
        put_line(out, edit)?;
    }
    Ok(())
}
