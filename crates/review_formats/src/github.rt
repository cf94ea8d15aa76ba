//! Commands of GitHub's workflows.
ghost use Rattle.std.specs.Prelude.{◌≡◌, ◌++◌, string_bytes, IfOk, OnOk};
ghost use Rattle.std.specs.List.{flat_map};
ghost use Rattle.review_formats.specs.Escaped.{escaped};
ghost use Rattle.review_formats.specs.Pieces.{piece_text};
ghost use Rattle.review_formats.specs.declared.escape.Escape.TheVariants.{Message, Property};
ghost use Rattle.review_formats.specs.Github.{command_text, head_text, place_text, title_text, path_text, message_text, finding_line, part_lines, more_text, github_text};

use crate::escape::Escape;
use crate::finding::{Finding, Findings, Level, Part};
use crate::piece::{Piece, put_pieces};
use std::alloc::{AllocError, Global};
use yaml_path::Place;

/// The command of a level.
fn command_of(level: Level) -> &'static str
    ensures { result.now ≡ command_text level }
{
    match level {
        Level::Error => "::error file=",
        Level::Warning => "::warning file=",
        Level::Note => "::notice file=",
    }
}

/// A text in a property.
fn property(text: &str) -> Piece<'_>
    ensures { piece_text result ≡ escaped Property text.now }
{
    Piece::Text(Escape::Property, text)
}

/// A text in a message.
fn message(text: &str) -> Piece<'_>
    ensures { piece_text result ≡ escaped Message text.now }
{
    Piece::Text(Escape::Message, text)
}

/// Writes the command up to the name of the file.
fn put_head(out: &mut String, finding: &Finding) -> Result<(), AllocError>
    ensures ok { OnOk result (string_bytes out.new ≡ string_bytes out.old ++ head_text finding.now) }
{
    put_pieces(
        out,
        &[
            Piece::Raw(command_of(finding.level)),
            property(&finding.file),
        ],
    )
}

/// Writes the line and the column, if there are.
fn put_place(out: &mut String, place: Option<Place>) -> Result<(), AllocError>
    ensures ok { OnOk result (string_bytes out.new ≡ string_bytes out.old ++ place_text place) }
{
    match place {
        Some(place) => put_pieces(
            out,
            &[
                Piece::Raw(",line="),
                Piece::Number(place.line),
                Piece::Raw(",col="),
                Piece::Number(place.column),
            ],
        ),
        None => Ok(()),
    }
}

/// Writes the title, behind which the message stands.
fn put_title(out: &mut String, rule: &str) -> Result<(), AllocError>
    ensures ok { OnOk result (string_bytes out.new ≡ string_bytes out.old ++ title_text rule.now) }
{
    put_pieces(
        out,
        &[
            Piece::Raw(",title=yamlreview "),
            property(rule),
            Piece::Raw("::"),
        ],
    )
}

/// Writes the path, if there is one.
fn put_path(out: &mut String, path: &Option<String>) -> Result<(), AllocError>
    ensures ok { OnOk result (string_bytes out.new ≡ string_bytes out.old ++ path_text path.now) }
{
    match path {
        Some(path) => put_pieces(out, &[message(path), Piece::Raw(": ")]),
        None => Ok(()),
    }
}

/// Writes the message and ends the line.
#[tactic(auto, using(crate::proofs::PieceLaws::two_put))]
fn put_message(out: &mut String, finding: &Finding) -> Result<(), AllocError>
    ensures ok { OnOk result (string_bytes out.new ≡ string_bytes out.old ++ message_text finding.now) }
{
    put_path(out, &finding.path)?;
    put_pieces(out, &[message(&finding.message), Piece::Raw("\n")])
}

/// Writes the command of a finding, which is one line.
#[tactic(auto, using(crate::proofs::PieceLaws::four_put))]
fn put_finding(out: &mut String, finding: &Finding) -> Result<(), AllocError>
    ensures ok { OnOk result (string_bytes out.new ≡ string_bytes out.old ++ finding_line finding.now) }
{
    put_head(out, finding)?;
    put_place(out, finding.place)?;
    put_title(out, finding.rule)?;
    put_message(out, finding)
}

/// Writes the commands of a part's findings.
fn put_part(out: &mut String, part: &Part) -> Result<(), AllocError>
    ensures ok { OnOk result (string_bytes out.new ≡ string_bytes out.old ++ part_lines part.now) }
{
    'findings: for finding in &part.list {
        put_finding(out, finding)?;
    }
    Ok(())
}

/// Writes the commands of all parts.
fn put_parts(out: &mut String, parts: &[Part]) -> Result<(), AllocError>
    ensures ok { OnOk result (string_bytes out.new ≡ string_bytes out.old ++ flat_map part_lines parts.now) }
{
    'parts: for part in parts {
        put_part(out, part)?;
    }
    Ok(())
}

/// Writes what is not listed, if there is something.
fn put_more(out: &mut String, found: &Findings) -> Result<(), AllocError>
    ensures ok { OnOk result (string_bytes out.new ≡ string_bytes out.old ++ more_text found.now) }
{
    found
        .left_out()
        .put_between(out, "::notice title=yamlreview::Not listed: ", "\n")
}

/// What is found as annotations: a line for each.
///
/// # Errors
/// 21: memory is refused.
#[tactic(auto, using(crate::proofs::PieceLaws::two_put))]
pub fn github_text(alloc: Global, found: &Findings) -> Result<String, AllocError>
    ensures ok { IfOk result (λ text. string_bytes text ≡ github_text found.now) }
{
    let mut out = String::new(alloc);
    put_parts(&mut out, &found.parts)?;
    put_more(&mut out, found)?;
    Ok(out)
}
