//! A fault of a file by its parts.
ghost use Rattle.std.specs.Prelude.{◌≡◌, ◌≤◌, ◌++◌, length, option_map, IfSome, IfOk, IfErr, OnOk, string_bytes};
ghost use Rattle.review_faults.specs.Again.{CannotTell};
ghost use Rattle.review_faults.specs.Explained.{second_place};
ghost use Rattle.review_faults.specs.Spotted.{IsSpotted, shown_path, stop_note, IsLineOf, SpotsFault};

use crate::spots::{Point, Told, find_told};
use review_places::places::unmarked;
use review_text::fronts::put_source_line;
use review_text::put_visible;
use std::alloc::{AllocError, Global};
use yaml_path::Place;
use yaml_text::fault::Fault;

/// Where a fault is and what is said of it.
#[derive(Drop)]
pub struct Spotted {
    /// That of the cause, if it is on another line than the one where the reader stopped.
    pub place: Option<Place>,
    /// The path of the node that the fault is at.
    pub path: Option<String>,
    pub words: String,
    /// The source line and the caret.
    pub line: Option<String>,
}

/// The path, with escapes for the characters that a terminal would not show.
fn path_of(alloc: Global, told: &Told) -> Result<Option<String>, AllocError>
    ensures ok { IfOk result (λ path. option_map string_bytes path ≡ shown_path told.now) }
{
    let Some(path) = &told.path else {
        return Ok(None);
    };
    let mut out = String::new(alloc);
    put_visible(&mut out, path)?;
    Ok(Some(out))
}

/// The source line and the caret of a point, if there is one.
fn line_of(alloc: Global, text: &[u8], point: Option<Point>) -> Result<Option<String>, AllocError>
    requires { IfSome point (λ p. p.at ≤ length text.now) }
    ensures ok { IfOk result (λ line. IsLineOf text.now point (option_map string_bytes line)) }
{
    let Some(point) = point else {
        return Ok(None);
    };
    let mut out = String::new(alloc);
    put_source_line(alloc, &mut out, text, point.at)?;
    Ok(Some(out))
}

/// Writes where the reader stopped, if the cause is printed first.
fn put_stop(out: &mut String, stop: Option<Place>) -> Result<(), AllocError>
    ensures ok { OnOk result (string_bytes out.new ≡ string_bytes out.old ++ stop_note stop) }
{
    if let Some(stop) = stop {
        let Place { line, column } = stop;
        write!(out, " (reading stopped at line {line}, column {column})")?;
    }
    Ok(())
}

/// What is said of a fault, with the place where the reader stopped if the cause is printed first.
fn words_of(told: &Told) -> Result<String, AllocError>
    ensures ok { IfOk result (λ words. string_bytes words ≡ string_bytes told.now.words ++ stop_note (second_place told.now)) }
{
    let mut words = told.words.clone()?;
    put_stop(&mut words, told.second_place())?;
    Ok(words)
}

/// Where in a file a fault of it is, and what is said of it.
///
/// # Errors
/// `OutOfMemory`. For a fault of an event the bytes are read again; of bytes that the reader rejects, the reader's.
#[tactic(auto, using(crate::proofs::AgainLaws::memory_told, crate::proofs::SpotLaws::shown_within))]
pub fn spot_fault(alloc: Global, bytes: &[u8], fault: Fault) -> Result<Spotted, Fault>
    ensures ok { IfOk result (λ spotted. IsSpotted bytes.now fault spotted.place) }
    ensures told { IfOk result (SpotsFault bytes.now fault) }
    ensures err { IfErr result (CannotTell bytes.now fault) }
{
    let text = unmarked(bytes);
    let told = find_told(alloc, bytes, fault)?;
    Ok(Spotted {
        place: told.shown_place(),
        path: path_of(alloc, &told)?,
        words: words_of(&told)?,
        line: line_of(alloc, text, told.shown())?,
    })
}
