//! Which keys filters and pointers can have.
ghost use Rattle.std.specs.Prelude.{◌≡◌, ◌&&◌, ◌==◌, reverse, option_map, bytes_eq, IfOk};
ghost use Rattle.std.specs.List.{list_all};
ghost use Rattle.yaml_definitions.specs.model.Tag.{str_tag};
ghost use Rattle.yaml_store_rank.specs.Forests.{tree};
ghost use Rattle.yaml_diff.specs.Lines.{step_of};
ghost use Rattle.review_text.specs.Terminal.{terminal};
ghost use Rattle.review_paths.specs.Pasted.{str_content, is_no_tab, is_seen, is_short, is_fit, fits_step};

use review_text::text::WHOLE;
use review_text::{put_shown, put_visible};
use std::alloc::{AllocError, Global};
use yaml_diff::Step;
use yaml_store_rank::RankedForests;
use yaml_text::core_tag;
use yaml_tree::node::NodeId;
use yaml_tree::shown::Inside;

/// Whether a tag is that of strings.
#[tactic(auto, unfolding(yaml_definitions::specs::model::Tag::core_tag))]
fn is_str(tag: &str) -> bool
    ensures { result ≡ bytes_eq tag.now str_tag }
{
    tag == core_tag::STR
}

/// The content of a key that is a string.
pub(crate) fn content_of<'b>(forests: &'b RankedForests<'_>, key: NodeId) -> Option<&'b str>
    ensures { option_map (λ content. content.now) result ≡ str_content (tree forests.now key.0) }
{
    let Some(shown) = forests.get(key) else {
        return None;
    };
    forests.laws();
    match shown.inside {
        Inside::Scalar(content) => {
            if is_str(shown.tag) {
                Some(content)
            } else {
                None
            }
        }
        _ => None,
    }
}

/// Whether a byte is no tab.
fn is_no_tab(byte: u8) -> bool
    ensures { result ≡ is_no_tab byte }
{
    byte != b'\t'
}

/// Whether a text has no tab.
fn has_no_tab(text: &str) -> bool
    ensures { result ≡ list_all is_no_tab text.now }
{
    text.as_bytes().iter().all(|byte| is_no_tab(*byte))
}

/// Whether a terminal shows each character of a text as itself.
fn is_seen(alloc: Global, text: &str) -> Result<bool, AllocError>
    ensures ok { IfOk result (λ seen. seen ≡ is_seen text.now) }
{
    let mut shown = String::new(alloc);
    put_shown(&mut shown, text)?;
    let mut told = String::new(alloc);
    put_visible(&mut told, text)?;
    Ok(has_no_tab(text) && shown.as_str() == text && told.as_str() == text)
}

/// Whether a text has at most as many bytes as a key in a path.
pub(crate) fn is_short(text: &str) -> bool
    ensures { result ≡ is_short text.now }
{
    text.len() <= WHOLE
}

/// Whether a key of this content can be pasted.
fn is_fit(alloc: Global, text: &str) -> Result<bool, AllocError>
    ensures ok { IfOk result (λ fit. fit ≡ is_fit text.now) }
{
    if !is_short(text) {
        return Ok(false);
    }
    is_seen(alloc, text)
}

/// Whether a step can be pasted: to an item, or to the value of a key that is a string, short and seen.
fn fits_step(alloc: Global, forests: &RankedForests<'_>, step: Step) -> Result<bool, AllocError>
    ensures ok { IfOk result (λ fits. fits ≡ fits_step (step_of forests.now step)) }
{
    match step {
        Step::Item(_) => Ok(true),
        Step::Value(key) => match content_of(forests, key) {
            Some(content) => is_fit(alloc, content),
            None => Ok(false),
        },
    }
}

/// Whether both are so.
fn are(one: bool, other: bool) -> bool
    ensures { result ≡ (one && other) }
{
    one && other
}

/// Whether all steps can be pasted, of which the last one comes first.
pub(crate) fn fits(
    alloc: Global,
    forests: &RankedForests<'_>,
    steps: &[Step],
) -> Result<bool, AllocError>
    ensures ok { IfOk result (λ fits. fits ≡ list_all (λ step. fits_step (step_of forests.now step)) (reverse steps.now)) }
{
    let mut all = true;
    'steps: for step in steps.iter().rev() {
        let fit = fits_step(alloc, forests, *step)?;
        all = are(all, fit);
    }
    Ok(all)
}
