//! The lines of a file, with links from those that differ.
ghost use Rattle.std.specs.Prelude.{◌≡◌, ◌++◌, List, ℕ, map, take, get_or, string_bytes, IfOk, OnOk};
ghost use Rattle.std.specs.List.{enumerate_from, list_any};
ghost use Rattle.review_formats.specs.Changes.{without_last};
ghost use Rattle.review_html.specs.Lines.{line_parts, file_lines, IsFront, line_begin, line_link, line_end, line_front, line_text, ShowsLine, ShowsLines, ShowsFiles};
ghost use Rattle.review_html.specs.Marks.{place_on, SetsMark, AreMarks, is_marked, is_near, is_shown};
ghost use Rattle.review_html.specs.Texts.{AreTexts};

use crate::heading::text;
use crate::side::Side;
use crate::sides::{left_of, right_of};
use review_formats::changes::without_end;
use review_formats::piece::{Piece, put_pieces};
use review_formats::{Finding, Part, Shown};
use std::alloc::{AllocError, Global};
use yaml_path::Place;

/// Of a file of so many lines, all are shown.
const FEW: usize = 400;

/// How many lines are shown before and behind one that differs.
const AROUND: usize = 3;

/// How many characters of a line are shown. A line of as many bytes is shown whole.
const WIDE: usize = 400;

/// The place of a finding on a side.
fn place_on(finding: &Finding, side: Side) -> Option<Place>
    ensures { result ≡ place_on side finding.now }
{
    match &finding.sides {
        Some(sides) => {
            if side.is_left {
                sides.left_place
            } else {
                sides.right_place
            }
        }
        None => None,
    }
}

/// Gives the line that a place is on this mark, if it is there and has none.
fn set_mark(marks: &mut [usize], place: Option<Place>, mark: usize)
    ensures { SetsMark marks.old place mark marks.new }
{
    if let Some(place) = place {
        let at = place.line.saturating_sub(1);
        if at < marks.len() && marks[at] == 0 {
            marks[at] = mark;
        }
    }
}

/// Of each line the number of the first finding at it, or 0. The lines count from 0. Before the list there are so many findings.
fn marks_of(
    alloc: Global,
    lines: usize,
    side: Side,
    list: &[Finding],
    before: usize,
) -> Result<Vec<usize>, AllocError>
    ensures ok { IfOk result (λ marks. AreMarks side before list.now lines marks.items) }
{
    let mut marks = vec![in alloc; 0usize; lines]?;
    'findings: for (at, finding) in list.iter().enumerate() {
        let number = before.saturating_add(at).saturating_add(1);
        set_mark(&mut marks, place_on(finding, side), number);
    }
    Ok(marks)
}

/// Whether one of some lines has a mark.
fn has_mark(marks: &[usize]) -> bool
    ensures { result ≡ list_any is_marked marks.now }
{
    marks.iter().any(|mark| *mark > 0)
}

/// Whether a line is near one with a mark.
fn is_near(marks: &[usize], at: usize) -> bool
    ensures { result ≡ is_near marks.now at }
{
    let from = at.saturating_sub(AROUND);
    let to = at.saturating_add(AROUND).saturating_add(1).min(marks.len());
    match marks.get(from..to) {
        Some(near) => has_mark(near),
        None => false,
    }
}

/// Whether a line is shown: all are, or it is near what differs.
fn is_shown(marks: &[usize], at: usize) -> bool
    ensures { result ≡ is_shown marks.now at }
{
    marks.len() <= FEW || is_near(marks, at)
}

/// The mark of a line.
fn mark_at(marks: &[usize], at: usize) -> usize
    ensures { result ≡ get_or marks.now at 0 }
{
    marks.get(at).copied().unwrap_or(0)
}

/// As much of a line as is shown.
fn front(line: &str) -> &str
    ensures { IsFront line.now result.now }
{
    if line.len() <= WIDE {
        return line;
    }
    match line.char_indices().nth(WIDE) {
        Some((at, _)) => start_to(line, at),
        None => line,
    }
}

/// The start of a text up to a byte; all of it where no character starts there.
fn start_to(text: &str, at: usize) -> &str
    ensures { (count : ℕ) × (result.now ≡ take count text.now) }
{
    match text.split_at_checked(at) {
        Some((start, _)) => start,
        None => text,
    }
}

/// What a line begins with, by the number of a finding at it or 0.
fn line_begin(mark: usize) -> &'static str
    ensures { result.now ≡ line_begin mark }
{
    if mark > 0 {
        "<li class=\"marked\" id=\""
    } else {
        "<li id=\""
    }
}

/// Writes the link from a line to the finding at it, if there is one.
fn put_link(out: &mut String, mark: usize) -> Result<(), AllocError>
    ensures ok { OnOk result (string_bytes out.new ≡ string_bytes out.old ++ line_link mark) }
{
    if mark > 0 {
        put_pieces(
            out,
            &[
                Piece::Raw("<a href=\"#d"),
                Piece::Number(mark),
                Piece::Raw("\" title=\"to what differs here\">"),
            ],
        )
    } else {
        Ok(())
    }
}

/// What a line ends with.
fn line_end(mark: usize) -> &'static str
    ensures { result.now ≡ line_end mark }
{
    if mark > 0 { "</a></li>\n" } else { "</li>\n" }
}

/// Writes the front of a line: its number.
#[tactic(auto, using(review_formats::proofs::PieceLaws::three_put))]
fn put_front(out: &mut String, side: Side, number: usize, mark: usize) -> Result<(), AllocError>
    ensures ok { OnOk result (string_bytes out.new ≡ string_bytes out.old ++ line_front side number mark) }
{
    out.push_str(line_begin(mark))?;
    side.put_line_id(out, number)?;
    put_pieces(
        out,
        &[
            Piece::Raw("\" value=\""),
            Piece::Number(number),
            Piece::Raw("\">"),
        ],
    )
}

/// Writes a line: its number, which leads to the first finding at it if there is one, and its text.
#[tactic(auto, using(review_formats::proofs::PieceLaws::three_put))]
fn put_line(
    out: &mut String,
    side: Side,
    at: usize,
    mark: usize,
    line: &str,
) -> Result<(), AllocError>
    ensures ok { OnOk result (string_bytes out.new ≡ string_bytes out.old ++ line_text side at mark line.now) }
{
    put_front(out, side, at.saturating_add(1), mark)?;
    put_link(out, mark)?;
    put_pieces(
        out,
        &[
            Piece::Raw("<code>"),
            text(line),
            Piece::Raw("</code>"),
            Piece::Raw(line_end(mark)),
        ],
    )
}

/// The line without the carriage return at its end.
fn without_return(line: &str) -> &str
    ensures { result.now ≡ without_last 13 line.now }
{
    match line.strip_suffix('\r') {
        Some(front) => front,
        None => line,
    }
}

/// Adds the parts of a line that CR ends.
fn add_parts<'a>(lines: &mut Vec<&'a str>, line: &'a str) -> Result<(), AllocError>
    ensures ok { OnOk result (map (λ one. one.now) lines.new.items ≡ map (λ one. one.now) lines.old.items ++ line_parts line.now) }
{
    'parts: for part in without_return(line).split('\r') {
        lines.push(part)?;
    }
    Ok(())
}

/// The lines of a text.
fn split_lines(alloc: Global, content: &str) -> Result<Vec<&str>, AllocError>
    ensures ok { IfOk result (λ lines. map (λ one. one.now) lines.items ≡ file_lines content.now) }
{
    let mut lines = Vec::new(alloc);
    'lines: for line in without_end(content).split('\n') {
        add_parts(&mut lines, line)?;
    }
    Ok(lines)
}

/// Writes a line, if it is shown.
fn put_shown(
    out: &mut String,
    side: Side,
    at: usize,
    line: &str,
    marks: &[usize],
) -> Result<(), AllocError>
    ensures ok { OnOk result ((text : List ℕ) × ShowsLine side marks.now (at, line.now) text × (string_bytes out.new ≡ string_bytes out.old ++ text)) }
{
    if is_shown(marks, at) {
        put_line(out, side, at, mark_at(marks, at), front(line))
    } else {
        Ok(())
    }
}

/// Writes lines, each if it is shown.
fn put_all(out: &mut String, side: Side, lines: &[&str], marks: &[usize]) -> Result<(), AllocError>
    ensures ok { OnOk result ((text : List ℕ) × AreTexts (ShowsLine side marks.now) (enumerate_from 0 (map (λ one. one.now) lines.now)) text × (string_bytes out.new ≡ string_bytes out.old ++ text)) }
{
    'lines: for (at, line) in lines.iter().enumerate() {
        put_shown(out, side, at, line, marks)?;
    }
    Ok(())
}

/// Writes the lines of a file, or those that are near what differs. Before the list there are so many findings.
fn put_lines(
    alloc: Global,
    out: &mut String,
    side: Side,
    shown: &Shown,
    list: &[Finding],
    before: usize,
) -> Result<(), AllocError>
    ensures ok { OnOk result ((text : List ℕ) × ShowsLines side list.now before shown.now text × (string_bytes out.new ≡ string_bytes out.old ++ text)) }
{
    let lines = split_lines(alloc, &shown.text)?;
    let marks = marks_of(alloc, lines.len(), side, list, before)?;
    put_pieces(
        out,
        &[
            Piece::Raw("<div><h2><code>"),
            text(&shown.name),
            Piece::Raw("</code></h2>\n<ol class=\"lines\">\n"),
        ],
    )?;
    put_all(out, side, &lines, &marks)?;
    out.push_str("</ol></div>\n")?;
    Ok(())
}

/// Writes the lines of the two files around what differs, if they are shown. Before the part of this number there are so many findings.
pub(crate) fn put_files(
    alloc: Global,
    out: &mut String,
    part: &Part,
    number: usize,
    before: usize,
) -> Result<(), AllocError>
    ensures ok { OnOk result ((text : List ℕ) × ShowsFiles number part.now.list.items before part.now.shown text × (string_bytes out.new ≡ string_bytes out.old ++ text)) }
{
    let Some((left, right)) = &part.shown else {
        return Ok(());
    };
    out.push_str("<section class=\"files\"><div class=\"both\">\n")?;
    put_lines(alloc, out, left_of(number), left, &part.list, before)?;
    put_lines(alloc, out, right_of(number), right, &part.list, before)?;
    out.push_str("</div></section>\n")?;
    Ok(())
}
