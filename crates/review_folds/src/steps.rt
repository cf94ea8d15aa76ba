//! The steps of paths as texts.
ghost use Rattle.std.specs.Prelude.{◌≡◌, map, string_bytes, OnOk, IfOk};
ghost use Rattle.yaml_diff.specs.Lines.{step_of, way_of};
ghost use Rattle.review_text.specs.Hidden.{visible};
ghost use Rattle.review_text.specs.PathText.{first_text, step_text};
ghost use Rattle.review_folds.specs.Ignored.{texts_of};

use review_text::path::path_text;
use review_text::put_visible;
use review_text::text::{put_all, put_key};
use std::alloc::{AllocError, Global};
use yaml_diff::Step;
use yaml_store_rank::RankedForests;

/// A text with escapes for the characters that a terminal would not show.
fn visible_text(alloc: Global, text: &str) -> Result<String, AllocError>
    ensures ok { IfOk result (λ s. string_bytes s ≡ visible text.now) }
{
    let mut out = String::new(alloc);
    put_visible(&mut out, text)?;
    Ok(out)
}

/// The step that leads to a document.
#[tactic(auto, using(crate::proofs::StepLaws::one_step))]
fn place_of(alloc: Global, forests: &RankedForests<'_>, step: Step) -> Result<String, AllocError>
    ensures ok { IfOk result (λ s. string_bytes s ≡ first_text (step_of forests.now step)) }
{
    path_text(alloc, forests, &[step], true)
}

/// The same as it is printed.
fn document_text(
    alloc: Global,
    forests: &RankedForests<'_>,
    step: Step,
) -> Result<String, AllocError>
    ensures ok { IfOk result (λ s. string_bytes s ≡ visible (first_text (step_of forests.now step))) }
{
    visible_text(alloc, place_of(alloc, forests, step)?.as_str())
}

/// The step that leads to a part of a node.
fn part_of(alloc: Global, forests: &RankedForests<'_>, step: Step) -> Result<String, AllocError>
    ensures ok { IfOk result (λ s. string_bytes s ≡ step_text (step_of forests.now step)) }
{
    let mut out = String::new(alloc);
    match step {
        Step::Item(_) => {
            let place = place_of(alloc, forests, step)?;
            put_all(&mut out, &["[", place.as_str(), "]"])?;
        }
        Step::Value(key) => put_key(alloc, &mut out, forests, key)?,
    }
    Ok(out)
}

/// The same as it is printed.
fn part_text(alloc: Global, forests: &RankedForests<'_>, step: Step) -> Result<String, AllocError>
    ensures ok { IfOk result (λ s. string_bytes s ≡ visible (step_text (step_of forests.now step))) }
{
    visible_text(alloc, part_of(alloc, forests, step)?.as_str())
}

/// The steps of a path as they are printed, that to the document first.
pub(crate) fn step_texts(
    alloc: Global,
    forests: &RankedForests<'_>,
    path: &[Step],
) -> Result<Vec<String>, AllocError>
    ensures ok { IfOk result (λ texts. map string_bytes texts.items ≡ texts_of (way_of forests.now path.now)) }
{
    let mut texts = Vec::new(alloc);
    let Some((document, steps)) = path.split_last() else {
        return Ok(texts);
    };
    texts.push(document_text(alloc, forests, *document)?)?;
    'steps: for step in steps.iter().rev() {
        texts.push(part_text(alloc, forests, *step)?)?;
    }
    Ok(texts)
}
