//! The differences and moves that no pattern covers.
ghost use Rattle.std.specs.Prelude.{◌≡◌, ◌∷◌, ◌||◌, [], IfOk};
ghost use Rattle.yaml_diff.specs.declared.difference.Step.TheVariants.{Item};
ghost use Rattle.review_folds.specs.Ignored.{is_ignored, item_path, covers_all, outside, moves_outside, Keeps};

use crate::steps::step_texts;
use review_patterns::Pattern;
use review_patterns::pattern::is_covered;
use std::alloc::{AllocError, Global};
use yaml_diff::{Difference, Found, Move, Step};
use yaml_store_rank::RankedForests;

/// Whether a path is at or below one that one of the patterns matches.
#[tactic(auto, using(crate::proofs::KeptLaws::none_ignored))]
fn is_ignored(
    alloc: Global,
    forests: &RankedForests<'_>,
    patterns: &[Pattern<'_>],
    path: &[Step],
) -> Result<bool, AllocError>
    ensures ok { IfOk result (λ answer. answer ≡ is_ignored forests.now patterns.now path.now) }
{
    if patterns.is_empty() {
        return Ok(false);
    }
    let texts = step_texts(alloc, forests, path)?;
    Ok(is_covered(patterns, &texts))
}

/// The path to the items of a move, the last step first.
pub fn item_path(alloc: Global, one: &Move) -> Result<Vec<Step>, AllocError>
    ensures ok { IfOk result (λ path. path.items ≡ item_path one.now) }
{
    let mut path = Vec::new(alloc);
    path.push(Step::Item(one.places))?;
    for step in &one.path {
        path.push(*step)?;
    }
    Ok(path)
}

/// Whether the items of a move are at or below such a path.
fn is_move_ignored(
    alloc: Global,
    forests: &RankedForests<'_>,
    patterns: &[Pattern<'_>],
    one: &Move,
) -> Result<bool, AllocError>
    ensures ok { IfOk result (λ answer. answer ≡ is_ignored forests.now patterns.now (item_path one.now)) }
{
    let path = item_path(alloc, one)?;
    is_ignored(alloc, forests, patterns, &path)
}

/// Whether one of the patterns matches each document.
fn covers_all(alloc: Global, patterns: &[Pattern<'_>]) -> Result<bool, AllocError>
    ensures ok { IfOk result (λ answer. answer ≡ covers_all patterns.now) }
{
    let mut document = Vec::new(alloc);
    document.push(String::new(alloc))?;
    Ok(is_covered(patterns, &document))
}

/// The differences that are not at or below a path that one of the patterns matches.
fn differences_outside(
    alloc: Global,
    forests: &RankedForests<'_>,
    patterns: &[Pattern<'_>],
    list: Vec<Difference>,
) -> Result<Vec<Difference>, AllocError>
    ensures ok { IfOk result (λ kept. kept.items ≡ outside forests.now patterns.now list.items) }
{
    let mut kept = Vec::new(alloc);
    for difference in list {
        if !is_ignored(alloc, forests, patterns, &difference.path)? {
            kept.push(difference)?;
        }
    }
    Ok(kept)
}

/// The moves whose items are not.
fn moves_outside(
    alloc: Global,
    forests: &RankedForests<'_>,
    patterns: &[Pattern<'_>],
    moves: Vec<Move>,
) -> Result<Vec<Move>, AllocError>
    ensures ok { IfOk result (λ kept. kept.items ≡ moves_outside forests.now patterns.now moves.items) }
{
    let mut kept = Vec::new(alloc);
    for one in moves {
        if !is_move_ignored(alloc, forests, patterns, &one)? {
            kept.push(one)?;
        }
    }
    Ok(kept)
}

/// Of differences and moves that were found, those that are not at or below a path that one of the patterns matches. They are all if all
/// were found, or if a pattern matches each document.
///
/// # Errors
/// `OutOfMemory`
pub fn kept(
    alloc: Global,
    forests: &RankedForests<'_>,
    patterns: &[Pattern<'_>],
    found: Found,
) -> Result<Found, AllocError>
    ensures ok { IfOk result (Keeps forests.now patterns.now found) }
{
    let Found { list, moves, whole } = found;
    Ok(Found {
        list: differences_outside(alloc, forests, patterns, list)?,
        moves: moves_outside(alloc, forests, patterns, moves)?,
        whole: covers_all(alloc, patterns)? || whole,
    })
}
