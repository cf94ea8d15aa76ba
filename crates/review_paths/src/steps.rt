//! Paths as arrays of JSON.
ghost use Rattle.std.specs.Prelude.{◌≡◌, ◌++◌, string_bytes, OnOk, IfOk, MatchOption};
ghost use Rattle.yaml_store_rank.specs.Forests.{tree};
ghost use Rattle.yaml_diff.specs.Lines.{step_of, way_of};
ghost use Rattle.review_paths.specs.Json.{string_json, places_json, key_object, key_json, unnamed_json, step_json, next_json, inner_json, steps_json};

use crate::fit::{content_of, is_short};
use crate::writing::put_string;
use review_text::text::{WHOLE, node_text};
use std::alloc::{AllocError, Global};
use yaml_diff::Step;
use yaml_path::places::Places;
use yaml_store_rank::RankedForests;
use yaml_tree::node::NodeId;

/// Writes the places of an item on the sides that have it.
fn put_places(out: &mut String, places: Places) -> Result<(), AllocError>
    ensures ok { OnOk result (string_bytes out.new ≡ string_bytes out.old ++ places_json places) }
{
    match places {
        Places::Both(left, right) => write!(out, "{{\"left\":{left},\"right\":{right}}}")?,
        Places::Left(left) => write!(out, "{{\"left\":{left}}}")?,
        Places::Right(right) => write!(out, "{{\"right\":{right}}}")?,
    }
    Ok(())
}

/// Writes a key by its text, as a path has it between brackets.
fn put_key_object(alloc: Global, out: &mut String, text: &str) -> Result<(), AllocError>
    ensures ok { OnOk result (string_bytes out.new ≡ string_bytes out.old ++ key_object text.now) }
{
    out.push_str("{\"key\":")?;
    put_string(alloc, out, text)?;
    out.push('}')?;
    Ok(())
}

/// The content of a key that is written as a string: a str that is not too long.
fn short_content<'b>(forests: &'b RankedForests<'_>, key: NodeId) -> Option<&'b str>
    ensures { MatchOption result (key_json (tree forests.now key.0) ≡ unnamed_json (tree forests.now key.0)) (λ content. key_json (tree forests.now key.0) ≡ string_json content.now) }
{
    let Some(content) = content_of(forests, key) else {
        return None;
    };
    if is_short(content) {
        Some(content)
    } else {
        None
    }
}

/// Writes a key: a str as a string, and any other key by its text.
fn put_key(
    alloc: Global,
    out: &mut String,
    forests: &RankedForests<'_>,
    key: NodeId,
) -> Result<(), AllocError>
    ensures ok { OnOk result (string_bytes out.new ≡ string_bytes out.old ++ key_json (tree forests.now key.0)) }
{
    match short_content(forests, key) {
        Some(content) => put_string(alloc, out, content),
        None => put_key_object(alloc, out, &node_text(alloc, forests, key, WHOLE)?),
    }
}

/// Writes a step that leads to an item, a document or the value of a key.
fn put_step(
    alloc: Global,
    out: &mut String,
    forests: &RankedForests<'_>,
    step: Step,
) -> Result<(), AllocError>
    ensures ok { OnOk result (string_bytes out.new ≡ string_bytes out.old ++ step_json (step_of forests.now step)) }
{
    match step {
        Step::Item(places) => put_places(out, places),
        Step::Value(key) => put_key(alloc, out, forests, key),
    }
}

/// Writes a step behind another.
fn put_next(
    alloc: Global,
    out: &mut String,
    forests: &RankedForests<'_>,
    step: Step,
) -> Result<(), AllocError>
    ensures ok { OnOk result (string_bytes out.new ≡ string_bytes out.old ++ next_json (step_of forests.now step)) }
{
    out.push(',')?;
    put_step(alloc, out, forests, step)
}

/// Writes the steps of a path, that to the document first.
fn put_steps(
    alloc: Global,
    out: &mut String,
    forests: &RankedForests<'_>,
    path: &[Step],
) -> Result<(), AllocError>
    ensures ok { OnOk result (string_bytes out.new ≡ string_bytes out.old ++ inner_json (way_of forests.now path.now)) }
{
    let Some((document, steps)) = path.split_last() else {
        return Ok(());
    };
    put_step(alloc, out, forests, *document)?;
    'steps: for step in steps.iter().rev() {
        put_next(alloc, out, forests, *step)?;
    }
    Ok(())
}

/// A path of differences of two streams as an array of JSON, in which the first step leads to a document: of an item or a document the
/// places on the sides that have it, and of a key its text.
///
/// # Errors
/// `OutOfMemory`
pub fn steps_text(
    alloc: Global,
    forests: &RankedForests<'_>,
    path: &[Step],
) -> Result<String, AllocError>
    ensures ok { IfOk result (λ s. string_bytes s ≡ steps_json (way_of forests.now path.now)) }
{
    let mut out = String::new(alloc);
    out.push('[')?;
    put_steps(alloc, &mut out, forests, path)?;
    out.push(']')?;
    Ok(out)
}
