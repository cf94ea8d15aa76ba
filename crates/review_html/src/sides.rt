//! What a page has of a finding: what both sides have, or what is said.
ghost use Rattle.std.specs.Prelude.{◌≡◌, ◌++◌, true, codes, string_bytes, OnOk};
ghost use Rattle.std.specs.List.{flat_map};
ghost use Rattle.review_formats.specs.Changes.{changed_lines};
ghost use Rattle.review_html.specs.Sides.{known_link, place_link, value_text, side_begin, side_text, line_class, line_text, changes_text, left_of, right_of, both_places, places_by, both_text, values_by, sides_text, path_text, source_text, said_text, body_text};

use crate::heading::text;
use crate::side::Side;
use review_formats::changes::{without_end, without_tab};
use review_formats::piece::{Piece, put_pieces};
use review_formats::{Finding, Sides, Sign};
use std::alloc::AllocError;
use yaml_path::Place;

/// Writes a place that is known, as a link to its line.
fn put_known(out: &mut String, side: Side, place: Place) -> Result<(), AllocError>
    ensures ok { OnOk result (string_bytes out.new ≡ string_bytes out.old ++ known_link side place) }
{
    out.push_str(" <a href=\"#")?;
    side.put_line_id(out, place.line)?;
    put_pieces(
        out,
        &[
            Piece::Raw("\">"),
            Piece::Number(place.line),
            Piece::Raw(":"),
            Piece::Number(place.column),
            Piece::Raw("</a>"),
        ],
    )
}

/// Writes a place, if it is known.
fn put_place(out: &mut String, side: Side, place: Option<Place>) -> Result<(), AllocError>
    ensures ok { OnOk result (string_bytes out.new ≡ string_bytes out.old ++ place_link side place) }
{
    match place {
        Some(place) => put_known(out, side, place),
        None => Ok(()),
    }
}

/// Writes the text of a side, or that it has nothing.
fn put_value(out: &mut String, value: &Option<String>) -> Result<(), AllocError>
    ensures ok { OnOk result (string_bytes out.new ≡ string_bytes out.old ++ value_text value.now) }
{
    match value {
        Some(value) => put_pieces(
            out,
            &[Piece::Raw("<pre>"), text(value), Piece::Raw("</pre>")],
        ),
        None => put_pieces(out, &[Piece::Raw("<p class=\"none\">nothing</p>")]),
    }
}

/// Writes what a side is called.
fn put_title(out: &mut String, title: &'static str) -> Result<(), AllocError>
    ensures ok { OnOk result (string_bytes out.new ≡ string_bytes out.old ++ side_begin title.now) }
{
    put_pieces(
        out,
        &[
            Piece::Raw("<div class=\""),
            Piece::Raw(title),
            Piece::Raw("\"><h3>"),
            Piece::Raw(title),
        ],
    )
}

/// Writes what one side has.
fn put_side(
    out: &mut String,
    side: Side,
    place: Option<Place>,
    value: &Option<String>,
) -> Result<(), AllocError>
    ensures ok { OnOk result (string_bytes out.new ≡ string_bytes out.old ++ side_text side place value.now) }
{
    put_title(out, side.title())?;
    put_place(out, side, place)?;
    out.push_str("</h3>")?;
    put_value(out, value)?;
    out.push_str("</div>\n")?;
    Ok(())
}

/// The class of a changed line, by its sign.
fn line_class(line: &str) -> &'static str
    ensures { result.now ≡ line_class line.now }
{
    match line.as_bytes() {
        [b'-', ..] => "left",
        [b'+', ..] => "right",
        _ => "same",
    }
}

/// Writes a changed line.
fn put_line(out: &mut String, line: &str) -> Result<(), AllocError>
    ensures ok { OnOk result (string_bytes out.new ≡ string_bytes out.old ++ line_text line.now) }
{
    let shown = without_tab(line);
    put_pieces(
        out,
        &[
            Piece::Raw("<span class=\""),
            Piece::Raw(line_class(shown)),
            Piece::Raw("\">"),
            text(shown),
            Piece::Raw("\n</span>"),
        ],
    )
}

/// Writes the changed lines of two strings, one behind the other.
fn put_lines(out: &mut String, changes: &str) -> Result<(), AllocError>
    ensures ok { OnOk result (string_bytes out.new ≡ string_bytes out.old ++ flat_map line_text (changed_lines changes.now)) }
{
    'lines: for line in without_end(changes).split('\n') {
        put_line(out, line)?;
    }
    Ok(())
}

/// Writes the changed lines of two strings.
#[tactic(auto, using(review_formats::proofs::PieceLaws::three_put))]
fn put_changes(out: &mut String, changes: &str) -> Result<(), AllocError>
    ensures ok { OnOk result (string_bytes out.new ≡ string_bytes out.old ++ changes_text changes.now) }
{
    out.push_str("<pre class=\"changes\">")?;
    put_lines(out, changes)?;
    out.push_str("</pre>\n")?;
    Ok(())
}

/// The left side of the part of this number.
pub(crate) fn left_of(part: usize) -> Side
    ensures { result ≡ left_of part }
{
    Side {
        is_left: true,
        part,
    }
}

/// The right side of the part of this number.
pub(crate) fn right_of(part: usize) -> Side
    ensures { result ≡ right_of part }
{
    Side {
        is_left: false,
        part,
    }
}

/// Writes both places.
#[tactic(auto, using(review_formats::proofs::PieceLaws::four_put))]
fn put_both_places(out: &mut String, part: usize, sides: &Sides) -> Result<(), AllocError>
    ensures ok { OnOk result (string_bytes out.new ≡ string_bytes out.old ++ both_places part sides.now) }
{
    out.push_str(": left")?;
    put_place(out, left_of(part), sides.left_place)?;
    out.push_str(", right")?;
    put_place(out, right_of(part), sides.right_place)
}

/// Writes both places, if no side is shown below.
fn put_places(out: &mut String, part: usize, sides: &Sides) -> Result<(), AllocError>
    ensures ok { OnOk result (string_bytes out.new ≡ string_bytes out.old ++ places_by part sides.now sides.now.changes sides.now.sign) }
{
    match (&sides.changes, sides.sign) {
        (Some(_), _) | (None, Sign::Moved) => put_both_places(out, part, sides),
        (None, _) => Ok(()),
    }
}

/// Writes what each side has.
#[tactic(auto, using(review_formats::proofs::PieceLaws::four_put))]
fn put_both(out: &mut String, part: usize, sides: &Sides) -> Result<(), AllocError>
    ensures ok { OnOk result (string_bytes out.new ≡ string_bytes out.old ++ both_text part sides.now) }
{
    out.push_str("<div class=\"both\">\n")?;
    put_side(out, left_of(part), sides.left_place, &sides.left)?;
    put_side(out, right_of(part), sides.right_place, &sides.right)?;
    out.push_str("</div>\n")?;
    Ok(())
}

/// Writes the changed lines, or what each side has, or nothing of what moved.
fn put_values(out: &mut String, part: usize, sides: &Sides) -> Result<(), AllocError>
    ensures ok { OnOk result (string_bytes out.new ≡ string_bytes out.old ++ values_by part sides.now sides.now.changes sides.now.sign) }
{
    match (&sides.changes, sides.sign) {
        (Some(changes), _) => put_changes(out, changes),
        (None, Sign::Moved) => Ok(()),
        (None, _) => put_both(out, part, sides),
    }
}

/// Writes what both sides have, of a part of this number.
fn put_sides(out: &mut String, part: usize, sides: &Sides) -> Result<(), AllocError>
    ensures ok { OnOk result (string_bytes out.new ≡ string_bytes out.old ++ sides_text part sides.now) }
{
    out.push_str("<p>")?;
    sides.put_says(out)?;
    put_places(out, part, sides)?;
    out.push_str("</p>\n")?;
    put_values(out, part, sides)
}

/// Writes the path, if there is one, before what is said.
fn put_path(out: &mut String, path: &Option<String>) -> Result<(), AllocError>
    ensures ok { OnOk result (string_bytes out.new ≡ string_bytes out.old ++ path_text path.now) }
{
    match path {
        Some(path) => put_pieces(
            out,
            &[Piece::Raw("<code>"), text(path), Piece::Raw("</code>: ")],
        ),
        None => Ok(()),
    }
}

/// Writes the line of the place, if there is one.
fn put_source(out: &mut String, line: &Option<String>) -> Result<(), AllocError>
    ensures ok { OnOk result (string_bytes out.new ≡ string_bytes out.old ++ source_text line.now) }
{
    match line {
        Some(line) => put_pieces(
            out,
            &[Piece::Raw("<pre>"), text(line), Piece::Raw("</pre>\n")],
        ),
        None => Ok(()),
    }
}

/// Writes what is said of a fault or a warning, and its line.
fn put_said(out: &mut String, finding: &Finding) -> Result<(), AllocError>
    ensures ok { OnOk result (string_bytes out.new ≡ string_bytes out.old ++ said_text finding.now) }
{
    out.push_str("<p>")?;
    put_path(out, &finding.path)?;
    put_pieces(out, &[text(&finding.message), Piece::Raw("</p>\n")])?;
    put_source(out, &finding.line)
}

/// Writes what a part of this number has of a finding.
pub(crate) fn put_body(out: &mut String, part: usize, finding: &Finding) -> Result<(), AllocError>
    ensures ok { OnOk result (string_bytes out.new ≡ string_bytes out.old ++ body_text part finding.now) }
{
    match &finding.sides {
        Some(sides) => put_sides(out, part, sides),
        None => put_said(out, finding),
    }
}
