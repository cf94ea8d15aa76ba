//! What is found, by its parts.
ghost use Rattle.std.specs.Prelude.{◌≡◌, ◌++◌, codes, option_map, IfOk, IfErr, OnOk, string_bytes};
ghost use Rattle.review_formats.specs.Findings.{sides_says};
ghost use Rattle.review_text.specs.Hidden.{visible};
ghost use Rattle.review_text.specs.Shown.{front};
ghost use Rattle.review_faults.specs.Again.{CannotTell};
ghost use Rattle.review_reports.specs.Differences.{sign_of, file_of, place_of, sides_text, message_text, AreSides, IsDifference, AreDifferences};
ghost use Rattle.review_reports.specs.Pages.{IsFault, IsFoundWarning};

use review_faults::{Warning, spot_fault};
use review_formats::{Finding, Level, Sides, Sign};
use review_lines::lines::Line;
use review_text::put_visible;
use review_text::text::{CUT, front, put_all};
use std::alloc::{AllocError, Global};
use yaml_path::Place;
use yaml_text::fault::Fault;

/// A text with escapes for the characters that would not be seen.
fn visible(alloc: Global, text: &str) -> Result<String, AllocError>
    ensures ok { IfOk result (λ s. string_bytes s ≡ visible text.now) }
{
    let mut out = String::new(alloc);
    put_visible(&mut out, text)?;
    Ok(out)
}

/// The same, if there is a text.
fn visible_of(alloc: Global, text: &Option<String>) -> Result<Option<String>, AllocError>
    ensures ok { IfOk result (λ s. option_map string_bytes s ≡ option_map (λ t. visible (string_bytes t)) text.now) }
{
    match text {
        Some(text) => Ok(Some(visible(alloc, text)?)),
        None => Ok(None),
    }
}

/// What both sides of a line have.
fn sign_of(line: &Line) -> Sign
    ensures { result ≡ sign_of line.now.left line.now.right }
{
    match (&line.left, &line.right) {
        (Some(_), Some(_)) => Sign::Changed,
        (Some(_), None) => Sign::Left,
        (None, Some(_)) => Sign::Right,
        (None, None) => Sign::Moved,
    }
}

/// Writes the texts of both sides.
fn put_sides(out: &mut String, sides: &Sides) -> Result<(), AllocError>
    ensures ok { OnOk result (string_bytes out.new ≡ string_bytes out.old ++ sides_text (option_map string_bytes sides.now.left) (option_map string_bytes sides.now.right)) }
{
    match (&sides.left, &sides.right) {
        (Some(left), Some(right)) => put_all(out, &[": ", left, " -> ", right]),
        (Some(text), None) | (None, Some(text)) => put_all(out, &[": ", text]),
        (None, None) => Ok(()),
    }
}

/// What is said of a difference behind its path.
fn message_of(alloc: Global, sides: &Sides) -> Result<String, AllocError>
    ensures ok { IfOk result (λ s. string_bytes s ≡ message_text (sides_says sides.now) (option_map string_bytes sides.now.left) (option_map string_bytes sides.now.right)) }
{
    let mut out = String::new(alloc);
    sides.put_says(&mut out)?;
    put_sides(&mut out, sides)?;
    Ok(out)
}

/// The changed lines of two strings, if there are.
fn changes_of(alloc: Global, line: &Line) -> Result<Option<String>, AllocError>
    ensures ok { IfOk result (λ s. option_map string_bytes s ≡ option_map (λ changes. visible (string_bytes changes.text)) line.now.changes) }
{
    match &line.changes {
        Some(changes) => Ok(Some(visible(alloc, &changes.text)?)),
        None => Ok(None),
    }
}

/// What both sides have.
fn sides_of(alloc: Global, line: &Line) -> Result<Sides, AllocError>
    ensures ok { IfOk result (AreSides line.now) }
{
    Ok(Sides {
        sign: sign_of(line),
        others: line.count.saturating_sub(1),
        left: visible_of(alloc, &line.left)?,
        right: visible_of(alloc, &line.right)?,
        left_place: line.left_place,
        right_place: line.right_place,
        changes: changes_of(alloc, line)?,
    })
}

/// Of two names that of the file that a difference is told of.
fn file_of<'n>(left: &'n str, right: &'n str, sign: Sign) -> &'n str
    ensures { result.now ≡ file_of sign left.now right.now }
{
    match sign {
        Sign::Left => left,
        Sign::Changed | Sign::Right | Sign::Moved => right,
    }
}

/// The place in this file.
fn place_of(line: &Line, sign: Sign) -> Option<Place>
    ensures { result ≡ place_of sign line.now }
{
    match sign {
        Sign::Left => line.left_place,
        Sign::Changed | Sign::Right | Sign::Moved => line.right_place,
    }
}

/// A difference of two files of these names, at the right one unless that has nothing there.
fn difference_found(
    alloc: Global,
    left: &str,
    right: &str,
    line: &Line,
) -> Result<Finding, AllocError>
    ensures ok { IfOk result (IsDifference left.now right.now line.now) }
{
    let sides = sides_of(alloc, line)?;
    Ok(Finding {
        rule: sides.sign.word(),
        level: Level::Note,
        file: file_of(left, right, sides.sign).to_string(alloc)?,
        place: place_of(line, sides.sign),
        path: Some(visible(alloc, &line.path)?),
        message: message_of(alloc, &sides)?,
        line: None,
        sides: Some(sides),
    })
}

/// Differences of two files of these names, one by one.
///
/// # Errors
/// 21: memory is refused.
pub fn differences_found(
    alloc: Global,
    left: &str,
    right: &str,
    lines: &[Line],
) -> Result<Vec<Finding>, AllocError>
    ensures ok { IfOk result (λ list. AreDifferences left.now right.now lines.now list.items) }
{
    let mut list = Vec::new(alloc);
    'lines: for line in lines {
        list.push(difference_found(alloc, left, right, line)?)?;
    }
    Ok(list)
}

/// A fault of a file of this name and these bytes.
///
/// # Errors
/// 21: memory is refused. For a fault of an event the bytes are read again; of bytes that the reader rejects, the reader's.
#[tactic(auto, using(review_faults::proofs::AgainLaws::memory_told))]
pub fn fault_found(alloc: Global, name: &str, bytes: &[u8], fault: Fault) -> Result<Finding, Fault>
    ensures ok { IfOk result (IsFault name.now bytes.now fault) }
    ensures err { IfErr result (CannotTell bytes.now fault) }
{
    let spotted = spot_fault(alloc, bytes, fault)?;
    Ok(Finding {
        rule: fault.name(),
        level: Level::Error,
        file: name.to_string(alloc)?,
        place: spotted.place,
        path: spotted.path,
        message: spotted.words,
        line: spotted.line,
        sides: None,
    })
}

/// What is said of a scalar or a name that other tools read otherwise.
fn warning_words(alloc: Global, warning: &Warning) -> Result<String, AllocError>
    ensures ok { IfOk result (λ s. string_bytes s ≡ visible (front 60 (string_bytes warning.now.text)) ++ (codes ": " ++ string_bytes warning.now.words)) }
{
    let mut out = visible(alloc, front(&warning.text, CUT))?;
    out.push_str(": ")?;
    out.push_str(&warning.words)?;
    Ok(out)
}

/// A scalar or a name that other tools read otherwise.
pub(crate) fn warning_found(
    alloc: Global,
    name: &str,
    warning: &Warning,
) -> Result<Finding, AllocError>
    ensures ok { IfOk result (IsFoundWarning name.now warning.now) }
{
    Ok(Finding {
        rule: warning.rule,
        level: Level::Warning,
        file: name.to_string(alloc)?,
        place: Some(warning.place),
        path: None,
        message: warning_words(alloc, warning)?,
        line: None,
        sides: None,
    })
}
