//! How many differences and moves there are.
ghost use Rattle.std.specs.Prelude.{◌≡◌, ◌++◌, decimal, string_bytes, OnOk, IfOk};
ghost use Rattle.review_lines.specs.Stat.{is_added, is_removed, is_changed, added, removed, changed, moved, moves_text, whole_text, stat_line, stat_json, numbers_text, stat_text};

use review_text::options::{Diff, Form};
use review_text::put_shown;
use std::alloc::{AllocError, Global};
use yaml_diff::{Difference, Found};

/// Whether the right side alone has a node.
fn is_added(difference: &Difference) -> bool
    ensures { result ≡ is_added difference.now }
{
    difference.left.is_none()
}

/// Whether the left side alone has a node.
fn is_removed(difference: &Difference) -> bool
    ensures { result ≡ is_removed difference.now }
{
    difference.left.is_some() && difference.right.is_none()
}

/// Whether both sides have a node.
fn is_changed(difference: &Difference) -> bool
    ensures { result ≡ is_changed difference.now }
{
    difference.left.is_some() && difference.right.is_some()
}

fn added(found: &Found) -> usize
    ensures { result ≡ added found.now }
{
    found.list.iter().filter(|one| is_added(one)).count()
}

fn removed(found: &Found) -> usize
    ensures { result ≡ removed found.now }
{
    found.list.iter().filter(|one| is_removed(one)).count()
}

fn changed(found: &Found) -> usize
    ensures { result ≡ changed found.now }
{
    found.list.iter().filter(|one| is_changed(one)).count()
}

fn moved(found: &Found) -> usize
    ensures { result ≡ moved found.now }
{
    found.moves.len()
}

/// Writes the number of moves, if there are some.
fn put_moves(out: &mut String, moves: usize) -> Result<(), AllocError>
    ensures ok { OnOk result (string_bytes out.new ≡ string_bytes out.old ++ moves_text moves) }
{
    if moves > 0 {
        write!(out, " >{moves}")?;
    }
    Ok(())
}

/// Writes the numbers and the name of the right file. Behind numbers that are not all stands `...`.
fn put_line(out: &mut String, found: &Found, right: &str) -> Result<(), AllocError>
    ensures ok { OnOk result (string_bytes out.new ≡ string_bytes out.old ++ stat_line found.now right.now) }
{
    let (added, removed, changed) = (added(found), removed(found), changed(found));
    write!(out, "+{added} -{removed} ~{changed}")?;
    put_moves(out, moved(found))?;
    out.push_str(if found.whole { " " } else { " ... " })?;
    put_shown(out, right)?;
    out.push('\n')?;
    Ok(())
}

/// Writes what stands before a member's number, and the number.
pub(crate) fn put_number(out: &mut String, front: &str, number: usize) -> Result<(), AllocError>
    ensures ok { OnOk result (string_bytes out.new ≡ string_bytes out.old ++ (front.now ++ decimal number)) }
{
    out.push_str(front)?;
    write!(out, "{number}")?;
    Ok(())
}

/// Writes whether all were looked for, and the object's end.
pub(crate) fn put_whole(out: &mut String, whole: bool) -> Result<(), AllocError>
    ensures ok { OnOk result (string_bytes out.new ≡ string_bytes out.old ++ whole_text whole) }
{
    if whole {
        out.push_str(",\"whole\":true}\n")?;
    } else {
        out.push_str(",\"whole\":false}\n")?;
    }
    Ok(())
}

/// Writes the numbers, and whether they are all, as an object of JSON.
fn put_json(out: &mut String, found: &Found) -> Result<(), AllocError>
    ensures ok { OnOk result (string_bytes out.new ≡ string_bytes out.old ++ stat_json found.now) }
{
    put_number(out, "{\"added\":", added(found))?;
    put_number(out, ",\"changed\":", changed(found))?;
    put_number(out, ",\"kind\":\"stat\",\"moved\":", moved(found))?;
    put_number(out, ",\"removed\":", removed(found))?;
    put_whole(out, found.whole)?;
    Ok(())
}

/// Writes the numbers in the form that is asked for.
fn put_numbers(out: &mut String, asked: &Diff<'_>, found: &Found) -> Result<(), AllocError>
    ensures ok { OnOk result (string_bytes out.new ≡ string_bytes out.old ++ numbers_text asked.now.form found.now asked.now.right.now) }
{
    match asked.form {
        Form::Line => put_line(out, found, asked.right),
        Form::Json => put_json(out, found),
    }
}

/// The numbers of differences and moves as a line; no line where none is asked for, or where nothing is listed.
pub(crate) fn stat_text(
    alloc: Global,
    asked: &Diff<'_>,
    found: &Found,
) -> Result<String, AllocError>
    ensures ok { IfOk result (λ text. string_bytes text ≡ stat_text asked.now found.now) }
{
    let mut out = String::new(alloc);
    if asked.lines == 0 || (found.list.is_empty() && found.moves.is_empty()) {
        return Ok(out);
    }
    put_numbers(&mut out, asked, found)?;
    Ok(out)
}
