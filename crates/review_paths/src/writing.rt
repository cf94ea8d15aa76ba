//! Members of an object of JSON (RFC 8259).
ghost use Rattle.std.specs.Prelude.{◌≡◌, ◌++◌, option_map, string_bytes, OnOk};
ghost use Rattle.review_paths.specs.Json.{string_json, text_json, place_json, raw_text};

use serde_json::Value;
use std::alloc::{AllocError, Global};
use yaml_path::Place;

/// Writes a text as a string of JSON.
pub(crate) fn put_string(alloc: Global, out: &mut String, text: &str) -> Result<(), AllocError>
    ensures ok { OnOk result (string_bytes out.new ≡ string_bytes out.old ++ string_json text.now) }
{
    let string = Value::try_from_str(alloc, text)?.to_string(alloc)?;
    out.push_str(string.as_str())?;
    Ok(())
}

/// Writes a text as a string, or `null` for none.
fn put_text_or_null(alloc: Global, out: &mut String, text: Option<&str>) -> Result<(), AllocError>
    ensures ok { OnOk result (string_bytes out.new ≡ string_bytes out.old ++ text_json (option_map (λ told. told.now) text.entry)) }
{
    match text {
        Some(text) => put_string(alloc, out, text),
        None => {
            out.push_str("null")?;
            Ok(())
        }
    }
}

/// Writes what stands before a member's value, and then a text as a string, or `null` for none.
pub fn put_text(
    alloc: Global,
    out: &mut String,
    front: &str,
    text: Option<&str>,
) -> Result<(), AllocError>
    ensures ok { OnOk result (string_bytes out.new ≡ string_bytes out.old ++ (front.now ++ text_json (option_map (λ told. told.now) text.entry))) }
{
    out.push_str(front)?;
    put_text_or_null(alloc, out, text)
}

/// Writes what stands before a member's value, and then a place as an object, or `null` for none.
pub fn put_place_json(out: &mut String, front: &str, place: Option<Place>) -> Result<(), AllocError>
    ensures ok { OnOk result (string_bytes out.new ≡ string_bytes out.old ++ (front.now ++ place_json place)) }
{
    out.push_str(front)?;
    match place {
        Some(place) => {
            let line = place.line;
            let column = place.column;
            write!(out, "{{\"column\":{column},\"line\":{line}}}")?;
        }
        None => out.push_str("null")?,
    }
    Ok(())
}

/// Writes what stands before a member's value, and the value's own text; nothing for none.
pub fn put_raw(out: &mut String, front: &str, text: Option<&str>) -> Result<(), AllocError>
    ensures ok { OnOk result (string_bytes out.new ≡ string_bytes out.old ++ raw_text front.now (option_map (λ told. told.now) text.entry)) }
{
    if let Some(text) = text {
        out.push_str(front)?;
        out.push_str(text)?;
    }
    Ok(())
}
