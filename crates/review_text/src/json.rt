//! Objects of JSON, one a line.
ghost use Rattle.std.specs.Prelude.{◌≡◌, ◌++◌, map, option_map, string_bytes, OnOk, IfOk};
ghost use Rattle.serde_json.specs.Data.{object, no_members};
ghost use Rattle.serde_json.specs.View.{view};
ghost use Rattle.review_text.specs.Objects.{place_data, said_data, with_members, object_line};

use crate::hidden::put_json;
use serde_json::{Map, Value, put};
use std::alloc::{AllocError, Global};
use yaml_path::Place;

/// What an object says of something, or `null`.
#[derive(Clone, Copy)]
pub enum Said<'t> {
    Number(Option<usize>),
    Text(Option<&'t str>),
    Place(Option<Place>),
}

/// The text that is told, if one is.
pub fn text_of(text: &Option<String>) -> Option<&str>
    ensures { option_map (λ told. told.now) result ≡ option_map string_bytes text.now }
{
    match text {
        Some(text) => Some(text.as_str()),
        None => None,
    }
}

/// A place as JSON.
fn place_value(alloc: Global, place: Option<Place>) -> Result<Value, AllocError>
    ensures ok { IfOk result (λ value. view value ≡ place_data place) }
{
    match place {
        Some(place) => {
            let mut members = Map::new(alloc);
            put(&mut members, alloc, "line", Value::from(place.line))?;
            put(&mut members, alloc, "column", Value::from(place.column))?;
            Ok(Value::Object(members))
        }
        None => Ok(Value::Null),
    }
}

fn value_of(alloc: Global, said: Said<'_>) -> Result<Value, AllocError>
    ensures ok { IfOk result (λ value. view value ≡ said_data said.entry) }
{
    match said {
        Said::Number(Some(number)) => Ok(Value::from(number)),
        Said::Text(Some(text)) => Ok(Value::try_from_str(alloc, text)?),
        Said::Place(place) => place_value(alloc, place),
        _ => Ok(Value::Null),
    }
}

fn object_of(alloc: Global, members: &[(&str, Said<'_>)]) -> Result<Value, AllocError>
    ensures ok { IfOk result (λ value. view value ≡ object (with_members (map (λ m. (m.0.now, said_data m.1)) members.now) no_members)) }
{
    let mut object = Map::new(alloc);
    for member in members {
        put(&mut object, alloc, member.0, value_of(alloc, member.1)?)?;
    }
    Ok(Value::Object(object))
}

/// Writes an object of these members and ends the line. The keys stand in their order.
pub fn put_object(
    alloc: Global,
    out: &mut String,
    members: &[(&str, Said<'_>)],
) -> Result<(), AllocError>
    ensures ok { OnOk result (string_bytes out.new ≡ string_bytes out.old ++ object_line (map (λ m. (m.0.now, said_data m.1)) members.now)) }
{
    let line = object_of(alloc, members)?.to_string(alloc)?;
    put_json(out, line.as_str())?;
    out.push_str("\n")?;
    Ok(())
}
