//! The lines of a fault, and its object of JSON.
ghost use Rattle.std.specs.Prelude.{◌≡◌, ◌≤◌, ◌+◌, ◌++◌, ℕ, List, drop, length, option_map, IfSome, IfOk, IfErr, OnOk, string_bytes};
ghost use Rattle.yaml_definitions.specs.model.Text.{mark_len};
ghost use Rattle.review_faults.specs.Again.{CannotTell};
ghost use Rattle.review_faults.specs.Explained.{path_part, shown_point, IsSource, place_line, other_lines, IsExplained};
ghost use Rattle.review_faults.specs.FaultLines.{called, byte_part, line_of, column_of, object_text, HasTold, TellsFault};
ghost use Rattle.review_faults.specs.Heads.{place_part, head};

use crate::spots::{Point, Told, find_told, place_at_point};
use review_places::places::{mark_len, unmarked};
use review_text::fronts::{put_shown, put_source_line};
use review_text::json::{Said, put_object, text_of};
use review_text::options::Form;
use review_text::put_visible;
use std::alloc::{AllocError, Global};
use yaml_path::Place;
use yaml_text::fault::Fault;

/// Writes a line and a column, if there are.
fn put_place(out: &mut String, place: Option<Place>) -> Result<(), AllocError>
    ensures ok { OnOk result (string_bytes out.new ≡ string_bytes out.old ++ place_part place) }
{
    if let Some(place) = place {
        let line = place.line;
        let column = place.column;
        write!(out, ":{line}:{column}")?;
    }
    Ok(())
}

/// Writes what comes before a message: the file, and the line and the column if there are.
pub fn put_head(out: &mut String, name: &str, place: Option<Place>) -> Result<(), AllocError>
    ensures ok { OnOk result (string_bytes out.new ≡ string_bytes out.old ++ head name.now place) }
{
    put_shown(out, name)?;
    put_place(out, place)?;
    out.push_str(": ")?;
    Ok(())
}

/// Writes the number and the name of a fault.
fn put_called(out: &mut String, fault: Fault) -> Result<(), AllocError>
    ensures ok { OnOk result (string_bytes out.new ≡ string_bytes out.old ++ called fault) }
{
    let number = fault.number();
    let word = fault.name();
    write!(out, "{number} {word}")?;
    Ok(())
}

/// Writes an offset of the input, if there is a place.
fn put_byte(out: &mut String, place: Option<Place>, byte: usize) -> Result<(), AllocError>
    ensures ok { OnOk result (string_bytes out.new ≡ string_bytes out.old ++ byte_part place byte) }
{
    if place.is_some() {
        write!(out, " at byte {byte}")?;
    }
    Ok(())
}

/// Writes the path of a node, if there is one.
fn put_path(out: &mut String, path: &Option<String>) -> Result<(), AllocError>
    ensures ok { OnOk result (string_bytes out.new ≡ string_bytes out.old ++ path_part (option_map string_bytes path.now)) }
{
    if let Some(path) = path {
        put_visible(out, path)?;
        out.push_str(": ")?;
    }
    Ok(())
}

/// Writes the source line and the caret of a point, if there is one.
fn put_source(
    alloc: Global,
    out: &mut String,
    text: &[u8],
    point: Option<Point>,
) -> Result<(), AllocError>
    requires { IfSome point (λ p. p.at ≤ length text.now) }
    ensures ok { OnOk result ((shown : List ℕ) × (string_bytes out.new ≡ string_bytes out.old ++ shown) × IsSource text.now point shown) }
{
    if let Some(point) = point {
        put_source_line(alloc, out, text, point.at)?;
    }
    Ok(())
}

/// Writes the line of another place, if there is one.
fn put_place_line(
    out: &mut String,
    name: &str,
    words: &str,
    place: Option<Place>,
) -> Result<(), AllocError>
    ensures ok { OnOk result (string_bytes out.new ≡ string_bytes out.old ++ place_line name.now words.now place) }
{
    if place.is_some() {
        put_head(out, name, place)?;
        out.push_str(words)?;
    }
    Ok(())
}

/// Writes the lines of other places: where the reader stopped, if the cause is printed first, and the first of two equal keys.
fn put_others(out: &mut String, name: &str, told: &Told) -> Result<(), AllocError>
    ensures ok { OnOk result (string_bytes out.new ≡ string_bytes out.old ++ other_lines name.now told.now) }
{
    put_place_line(out, name, "reading stopped here\n", told.second_place())?;
    put_place_line(out, name, "the first of the two\n", told.first)
}

/// What is after the number, the name and the offset of a fault: its path, what is said of it, the source line and the caret, and
/// the lines of other places.
fn explained(alloc: Global, name: &str, text: &[u8], told: &Told) -> Result<String, AllocError>
    requires { IfSome (shown_point told.now) (λ p. p.at ≤ length text.now) }
    ensures ok { IfOk result (λ more. IsExplained name.now text.now told.now (string_bytes more)) }
{
    let mut out = String::new(alloc);
    put_path(&mut out, &told.path)?;
    out.push_str(&told.words)?;
    out.push_str("\n")?;
    put_source(alloc, &mut out, text, told.shown())?;
    put_others(&mut out, name, told)?;
    Ok(out)
}

/// The offset in the input of a spot.
fn byte_of(bytes: &[u8], told: &Told) -> usize
    requires { IfSome told.now.place (λ _. told.now.at ≤ length (drop (mark_len bytes.now) bytes.now)) }
    ensures { IfSome told.now.place (λ _. result ≡ mark_len bytes.now + told.now.at) }
{
    mark_len(bytes).saturating_add(told.at)
}

/// The lines of a fault: the message, the source line and the caret, and other places.
fn put_lines(
    alloc: Global,
    out: &mut String,
    name: &str,
    bytes: &[u8],
    fault: Fault,
    told: &Told,
) -> Result<(), AllocError>
    requires stop { IfSome told.now.place (λ _. told.now.at ≤ length (drop (mark_len bytes.now) bytes.now)) }
    requires shown { IfSome (shown_point told.now) (λ p. p.at ≤ length (drop (mark_len bytes.now) bytes.now)) }
    ensures ok { OnOk result ((text : List ℕ) × (string_bytes out.new ≡ string_bytes out.old ++ text) × HasTold Form.Line name.now bytes.now fault told.now text) }
{
    put_head(out, name, told.shown_place())?;
    put_called(out, fault)?;
    put_byte(out, told.place, byte_of(bytes, told))?;
    out.push_str(": ")?;
    let more = explained(alloc, name, unmarked(bytes), told)?;
    out.push_str(more.as_str())?;
    Ok(())
}

/// The line of a place, if there is one.
fn line_of(place: Option<Place>) -> Option<usize>
    ensures { result ≡ line_of place }
{
    match place {
        Some(place) => Some(place.line),
        None => None,
    }
}

/// The column of a place, if there is one.
fn column_of(place: Option<Place>) -> Option<usize>
    ensures { result ≡ column_of place }
{
    match place {
        Some(place) => Some(place.column),
        None => None,
    }
}

/// The offset in the input of a spot, if it has a place.
fn told_byte(bytes: &[u8], told: &Told) -> Option<usize>
    requires { IfSome told.now.place (λ _. told.now.at ≤ length (drop (mark_len bytes.now) bytes.now)) }
    ensures { result ≡ option_map (λ _. mark_len bytes.now + told.now.at) told.now.place }
{
    match told.place {
        Some(_) => Some(byte_of(bytes, told)),
        None => None,
    }
}

/// Writes the JSON object of a fault.
fn put_members<'t>(
    alloc: Global,
    out: &mut String,
    name: &'t str,
    fault: Fault,
    told: &'t Told,
    byte: Option<usize>,
) -> Result<(), AllocError>
    ensures ok { OnOk result (string_bytes out.new ≡ string_bytes out.old ++ object_text name.now fault told.now byte) }
{
    let cause = place_at_point(told.cause);
    let members = [
        ("file", Said::Text(Some(name))),
        ("line", Said::Number(line_of(told.place))),
        ("column", Said::Number(column_of(told.place))),
        ("byte", Said::Number(byte)),
        ("number", Said::Number(Some(fault.number() as usize))),
        ("name", Said::Text(Some(fault.name()))),
        ("path", Said::Text(text_of(&told.path))),
        ("words", Said::Text(Some(told.words.as_str()))),
        ("first_line", Said::Number(line_of(told.first))),
        ("first_column", Said::Number(column_of(told.first))),
        ("cause_line", Said::Number(line_of(cause))),
        ("cause_column", Said::Number(column_of(cause))),
    ];
    put_object(alloc, out, &members)
}

/// The same as one JSON object.
fn put_json(
    alloc: Global,
    out: &mut String,
    name: &str,
    bytes: &[u8],
    fault: Fault,
    told: &Told,
) -> Result<(), AllocError>
    requires { IfSome told.now.place (λ _. told.now.at ≤ length (drop (mark_len bytes.now) bytes.now)) }
    ensures ok { OnOk result ((text : List ℕ) × (string_bytes out.new ≡ string_bytes out.old ++ text) × HasTold Form.Json name.now bytes.now fault told.now text) }
{
    put_members(alloc, out, name, fault, told, told_byte(bytes, told))
}

/// Writes what is told of a fault: its number and its name, where it is, the path of its node, and what is said of it.
///
/// # Errors
/// `OutOfMemory`. For a fault of an event the bytes are read again; of bytes that the reader rejects, the reader's.
#[tactic(auto, using(crate::proofs::AgainLaws::memory_told, crate::proofs::SpotLaws::told_within, crate::proofs::SpotLaws::shown_within))]
pub fn put_fault(
    alloc: Global,
    out: &mut String,
    name: &str,
    bytes: &[u8],
    fault: Fault,
    form: Form,
) -> Result<(), Fault>
    ensures ok { OnOk result ((text : List ℕ) × (string_bytes out.new ≡ string_bytes out.old ++ text) × TellsFault form name.now bytes.now fault text) }
    ensures err { IfErr result (CannotTell bytes.now fault) }
{
    let told = find_told(alloc, bytes, fault)?;
    match form {
        Form::Line => Ok(put_lines(alloc, out, name, bytes, fault, &told)?),
        Form::Json => Ok(put_json(alloc, out, name, bytes, fault, &told)?),
    }
}
