//! What a finding begins with, and the links to it.
ghost use Rattle.std.specs.Prelude.{◌≡◌, ◌++◌, string_bytes, OnOk};
ghost use Rattle.review_formats.specs.Escaped.{escaped};
ghost use Rattle.review_formats.specs.Pieces.{piece_text};
ghost use Rattle.review_formats.specs.declared.escape.Escape.TheVariants.{Html};
ghost use Rattle.review_html.specs.Headings.{class_text, mark_text, position_text, name_text, rule_text, heading_text, link_text, front_text, file_link, file_front};

use review_formats::escape::Escape;
use review_formats::piece::{Piece, put_pieces};
use review_formats::{Finding, Level};
use std::alloc::AllocError;
use yaml_path::Place;

/// A text of a file.
pub(crate) fn text(text: &str) -> Piece<'_>
    ensures { piece_text result ≡ escaped Html text.now }
{
    Piece::Text(Escape::Html, text)
}

/// The class of a finding's colour.
fn class_of(finding: &Finding) -> &'static str
    ensures { result.now ≡ class_text finding.now }
{
    match (&finding.sides, finding.level) {
        (Some(sides), _) => sides.sign.word(),
        (None, Level::Error) => "left",
        (None, _) => "changed",
    }
}

/// What a finding begins with.
fn mark_of(finding: &Finding) -> &'static str
    ensures { result.now ≡ mark_text finding.now }
{
    match (&finding.sides, finding.level) {
        (Some(sides), _) => sides.sign.mark(),
        (None, Level::Error) => "✗",
        (None, _) => "!",
    }
}

/// Writes the line and the column, if there are.
fn put_position(out: &mut String, place: Option<Place>) -> Result<(), AllocError>
    ensures ok { OnOk result (string_bytes out.new ≡ string_bytes out.old ++ position_text place) }
{
    match place {
        Some(place) => put_pieces(
            out,
            &[
                Piece::Raw(":"),
                Piece::Number(place.line),
                Piece::Raw(":"),
                Piece::Number(place.column),
            ],
        ),
        None => Ok(()),
    }
}

/// Writes what a finding is called by: the path of a difference, or the file and the place.
#[tactic(auto, using(review_formats::proofs::PieceLaws::two_put))]
fn put_name(out: &mut String, finding: &Finding) -> Result<(), AllocError>
    ensures ok { OnOk result (string_bytes out.new ≡ string_bytes out.old ++ name_text finding.now) }
{
    match (&finding.sides, &finding.path) {
        (Some(_), Some(path)) => put_pieces(out, &[text(path)]),
        _ => {
            put_pieces(out, &[text(&finding.file)])?;
            put_position(out, finding.place)
        }
    }
}

/// Writes the name of a fault or a warning.
fn put_rule(out: &mut String, finding: &Finding) -> Result<(), AllocError>
    ensures ok { OnOk result (string_bytes out.new ≡ string_bytes out.old ++ rule_text finding.now) }
{
    match &finding.sides {
        Some(_) => Ok(()),
        None => put_pieces(out, &[Piece::Raw(" "), text(finding.rule)]),
    }
}

/// Writes what a finding begins with.
fn put_heading(out: &mut String, finding: &Finding) -> Result<(), AllocError>
    ensures ok { OnOk result (string_bytes out.new ≡ string_bytes out.old ++ heading_text finding.now) }
{
    out.push_str("<span class=\"mark\">")?;
    out.push_str(mark_of(finding))?;
    out.push_str("</span> <code>")?;
    put_name(out, finding)?;
    out.push_str("</code>")?;
    put_rule(out, finding)
}

/// Writes the link to the finding of this number.
pub(crate) fn put_link(out: &mut String, number: usize, finding: &Finding) -> Result<(), AllocError>
    ensures ok { OnOk result (string_bytes out.new ≡ string_bytes out.old ++ link_text number finding.now) }
{
    put_pieces(
        out,
        &[
            Piece::Raw("<li class=\""),
            Piece::Raw(class_of(finding)),
            Piece::Raw("\" value=\""),
            Piece::Number(number),
            Piece::Raw("\"><a href=\"#d"),
            Piece::Number(number),
            Piece::Raw("\">"),
        ],
    )?;
    put_heading(out, finding)?;
    out.push_str("</a></li>\n")?;
    Ok(())
}

/// Writes the front of the section of the finding of this number.
pub(crate) fn put_front(
    out: &mut String,
    number: usize,
    finding: &Finding,
) -> Result<(), AllocError>
    ensures ok { OnOk result (string_bytes out.new ≡ string_bytes out.old ++ front_text number finding.now) }
{
    put_pieces(
        out,
        &[
            Piece::Raw("<section class=\""),
            Piece::Raw(class_of(finding)),
            Piece::Raw("\" id=\"d"),
            Piece::Number(number),
            Piece::Raw("\"><h2><a href=\"#d"),
            Piece::Number(number),
            Piece::Raw("\">"),
        ],
    )?;
    put_heading(out, finding)?;
    out.push_str("</a></h2>\n")?;
    Ok(())
}

/// Writes the name of a file, if there are several, as a link to the part of this number.
pub(crate) fn put_file_link(
    out: &mut String,
    name: &Option<String>,
    number: usize,
) -> Result<(), AllocError>
    ensures ok { OnOk result (string_bytes out.new ≡ string_bytes out.old ++ file_link number name.now) }
{
    match name {
        Some(name) => put_pieces(
            out,
            &[
                Piece::Raw("<h2 class=\"file\"><a href=\"#f"),
                Piece::Number(number),
                Piece::Raw("\"><code>"),
                text(name),
                Piece::Raw("</code></a></h2>\n"),
            ],
        ),
        None => Ok(()),
    }
}

/// Writes the same name above the part itself.
pub(crate) fn put_file_front(
    out: &mut String,
    name: &Option<String>,
    number: usize,
) -> Result<(), AllocError>
    ensures ok { OnOk result (string_bytes out.new ≡ string_bytes out.old ++ file_front number name.now) }
{
    match name {
        Some(name) => put_pieces(
            out,
            &[
                Piece::Raw("<h2 class=\"file\" id=\"f"),
                Piece::Number(number),
                Piece::Raw("\"><code>"),
                text(name),
                Piece::Raw("</code></h2>\n"),
            ],
        ),
        None => Ok(()),
    }
}
