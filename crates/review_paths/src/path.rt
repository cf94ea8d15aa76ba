//! Paths as filters of jq and as JSON pointers.
ghost use Rattle.std.specs.Prelude.{◌≡◌, map, reverse, string_bytes, IfOk};
ghost use Rattle.yaml_store_rank.specs.Forests.{Forests};
ghost use Rattle.yaml_diff.specs.Lines.{step_of, way_of};
ghost use Rattle.review_paths.specs.Pasted.{has_dot, dotted, begun, kept_steps, unfit, side_text, column_text, pasted};

use crate::fit::fits;
use crate::step::put_steps;
use review_text::path::path_text;
use std::alloc::{AllocError, Global};
use yaml_diff::Step;
use yaml_store_rank::RankedForests;

/// The steps that are written: without that to the document, unless its number is told.
fn kept<'p>(path: &'p [Step], numbered: bool) -> &'p [Step]
    ensures { (g : Forests) → map (step_of g) (reverse result.now) ≡ kept_steps numbered (way_of g path.now) }
{
    if numbered {
        return path;
    }
    match path.split_last() {
        Some((_, steps)) => steps,
        None => path,
    }
}

/// Whether a text begins with a dot.
fn has_dot(text: &str) -> bool
    ensures { result ≡ has_dot text.now }
{
    match text.as_bytes().split_first() {
        Some((first, _)) => *first == b'.',
        None => false,
    }
}

/// A text with a dot before it, unless it has one.
fn dotted(alloc: Global, text: String) -> Result<String, AllocError>
    ensures ok { IfOk result (λ s. string_bytes s ≡ dotted (string_bytes text)) }
{
    if has_dot(&text) {
        return Ok(text);
    }
    let mut out = String::new(alloc);
    out.push('.')?;
    out.push_str(&text)?;
    Ok(out)
}

/// A filter begins with a dot.
fn begun(alloc: Global, text: String, is_filter: bool) -> Result<String, AllocError>
    ensures ok { IfOk result (λ s. string_bytes s ≡ begun is_filter (string_bytes text)) }
{
    if is_filter {
        dotted(alloc, text)
    } else {
        Ok(text)
    }
}

/// What is written where a step cannot be pasted: the path as `path_text` has it, behind `!`.
fn unfit(
    alloc: Global,
    forests: &RankedForests<'_>,
    path: &[Step],
    numbered: bool,
) -> Result<String, AllocError>
    ensures ok { IfOk result (λ s. string_bytes s ≡ unfit numbered (way_of forests.now path.now)) }
{
    let plain = path_text(alloc, forests, path, numbered)?;
    let mut text = String::new(alloc);
    text.push('!')?;
    text.push_str(&plain)?;
    Ok(text)
}

/// The path on one side.
fn side_text(
    alloc: Global,
    forests: &RankedForests<'_>,
    path: &[Step],
    numbered: bool,
    is_filter: bool,
    is_left: bool,
) -> Result<String, AllocError>
    ensures ok { IfOk result (λ s. string_bytes s ≡ side_text is_filter numbered is_left (way_of forests.now path.now)) }
{
    let steps = kept(path, numbered);
    let fit = fits(alloc, forests, steps)?;
    if fit {
        let mut text = String::new(alloc);
        put_steps(&mut text, forests, steps, is_filter, is_left)?;
        let told = begun(alloc, text, is_filter)?;
        return Ok(told);
    }
    let told = unfit(alloc, forests, path, numbered)?;
    Ok(told)
}

/// The path on one side, or `-` if that has no node there.
fn column_text(
    alloc: Global,
    forests: &RankedForests<'_>,
    path: &[Step],
    numbered: bool,
    is_filter: bool,
    is_left: bool,
    is_there: bool,
) -> Result<String, AllocError>
    ensures ok { IfOk result (λ s. string_bytes s ≡ column_text is_there is_filter numbered is_left (way_of forests.now path.now)) }
{
    if is_there {
        return side_text(alloc, forests, path, numbered, is_filter, is_left);
    }
    let mut text = String::new(alloc);
    text.push('-')?;
    Ok(text)
}

/// A path of differences of two streams as filters of jq or as JSON pointers: that on the left side, a tab, and that on the right side.
/// A side that has no node there has `-`. The number of the document is told as the place of an item, as `jq --slurp` has it, or not at
/// all. A path with a key that is not a string, is longer than 65,536 bytes, or has a character that a terminal does not show is written
/// by `path_text`, behind `!`.
///
/// # Errors
/// `OutOfMemory`
pub fn pasted(
    alloc: Global,
    forests: &RankedForests<'_>,
    path: &[Step],
    numbered: bool,
    is_filter: bool,
    has_left: bool,
    has_right: bool,
) -> Result<String, AllocError>
    ensures ok { IfOk result (λ s. string_bytes s ≡ pasted is_filter numbered has_left has_right (way_of forests.now path.now)) }
{
    let mut text = column_text(alloc, forests, path, numbered, is_filter, true, has_left)?;
    let right = column_text(alloc, forests, path, numbered, is_filter, false, has_right)?;
    text.push('\t')?;
    text.push_str(&right)?;
    Ok(text)
}
