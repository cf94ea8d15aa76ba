//! Paths of differences as text.
ghost use Rattle.std.specs.Prelude.{◌≡◌, ◌++◌, ◌==◌, string_bytes, OnOk, IfOk};
ghost use Rattle.yaml_diff.specs.Lines.{step_of, way_of};
ghost use Rattle.review_text.specs.PathText.{place_text, first_text, step_text, start_text, path_text};

use crate::text::put_key;
use std::alloc::{AllocError, Global};
use yaml_diff::Step;
use yaml_path::places::Places;
use yaml_store_rank::RankedForests;

/// Writes where an item or a document stands: its place, or two places where it has another on the right.
fn put_places(out: &mut String, places: Places) -> Result<(), AllocError>
    ensures ok { OnOk result (string_bytes out.new ≡ string_bytes out.old ++ place_text places) }
{
    match places {
        Places::Both(left, right) if left != right => write!(out, "{left}:{right}")?,
        Places::Both(place, _) | Places::Left(place) | Places::Right(place) => {
            write!(out, "{place}")?;
        }
    }
    Ok(())
}

/// Writes the step that leads to a document.
fn put_first(
    alloc: Global,
    out: &mut String,
    forests: &RankedForests<'_>,
    step: Step,
) -> Result<(), AllocError>
    ensures ok { OnOk result (string_bytes out.new ≡ string_bytes out.old ++ first_text (step_of forests.now step)) }
{
    match step {
        Step::Item(places) => put_places(out, places),
        Step::Value(key) => put_key(alloc, out, forests, key),
    }
}

/// Writes a step that leads to a part of a node.
fn put_step(
    alloc: Global,
    out: &mut String,
    forests: &RankedForests<'_>,
    step: Step,
) -> Result<(), AllocError>
    ensures ok { OnOk result (string_bytes out.new ≡ string_bytes out.old ++ step_text (step_of forests.now step)) }
{
    match step {
        Step::Item(places) => {
            out.push('[')?;
            put_places(out, places)?;
            out.push(']')?;
            Ok(())
        }
        Step::Value(key) => put_key(alloc, out, forests, key),
    }
}

/// Writes how a path begins: where the document stands or, if no number is told, nothing before a step, and `.` for the document
/// itself.
fn put_start(
    alloc: Global,
    out: &mut String,
    forests: &RankedForests<'_>,
    step: Step,
    alone: bool,
    numbered: bool,
) -> Result<(), AllocError>
    ensures ok { OnOk result (string_bytes out.new ≡ string_bytes out.old ++ start_text numbered alone (step_of forests.now step)) }
{
    if numbered {
        return put_first(alloc, out, forests, step);
    }
    if alone {
        out.push('.')?;
    }
    Ok(())
}

/// A path of differences of two streams as text: where the document stands, if that is told, then one step after another.
pub fn path_text(
    alloc: Global,
    forests: &RankedForests<'_>,
    path: &[Step],
    numbered: bool,
) -> Result<String, AllocError>
    ensures ok { IfOk result (λ s. string_bytes s ≡ path_text numbered (way_of forests.now path.now)) }
{
    let mut out = String::new(alloc);
    let Some((document, steps)) = path.split_last() else {
        return Ok(out);
    };
    let alone = steps.len() == 0;
    put_start(alloc, &mut out, forests, *document, alone, numbered)?;
    'steps: for step in steps.iter().rev() {
        put_step(alloc, &mut out, forests, *step)?;
    }
    Ok(out)
}
