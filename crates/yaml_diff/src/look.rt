//! Whether steps that were put together anyhow take the items of two lists for each other: they are looked at.
ghost use Rattle.std.specs.Prelude.{◌≡◌, ◌⊎◌, true, [], map, IfOk};
ghost use Rattle.yaml_diff.specs.Looks.{left_of, right_of, stayer_of, pair_of, has_moved, places_in, moved_in, IsRight};
ghost use Rattle.yaml_pair.specs.Columns.{Falls};

use std::alloc::{AllocError, Global};
use yaml_pair::column::{is_each, rises};
use yaml_path::places::Places;

/// Places, and whether they are told to be a pair that moved.
pub(crate) type Step = (Places, bool);

/// Whether a step is a pair that moved.
fn has_moved(step: Step) -> bool
    ensures { result ≡ has_moved step }
{
    match step.0 {
        Places::Both(_, _) => step.1,
        _ => false,
    }
}

/// The left place of a step that did not move.
fn stayer_of(step: Step) -> Option<usize>
    ensures { result ≡ stayer_of step }
{
    if has_moved(step) { None } else { step.0.left() }
}

/// The left place of a pair.
fn pair_of(step: Step) -> Option<usize>
    ensures { result ≡ pair_of step }
{
    match step.0 {
        Places::Both(left, _) => Some(left),
        _ => None,
    }
}

/// The places of the steps.
#[tactic(auto, using(crate::proofs::LookLaws::map_more, crate::proofs::LookLaws::map_whole))]
pub(crate) fn places_of(alloc: Global, steps: &[Step]) -> Result<Vec<Places>, AllocError>
    ensures ok { IfOk result (λ list. list.items ≡ places_in steps.now) }
{
    let mut list = Vec::new(alloc);
    for step in steps {
        list.push(step.0)?;
    }
    Ok(list)
}

/// The places of the steps that moved.
#[tactic(auto, using(crate::proofs::LookLaws::moved_more, crate::proofs::LookLaws::moved_skip, crate::proofs::LookLaws::moved_whole))]
pub(crate) fn moved_of(alloc: Global, steps: &[Step]) -> Result<Vec<Places>, AllocError>
    ensures ok { IfOk result (λ list. list.items ≡ moved_in steps.now) }
{
    let mut list = Vec::new(alloc);
    for step in steps {
        if has_moved(*step) {
            list.push(step.0)?;
        }
    }
    Ok(list)
}

/// The left places of the steps.
#[tactic(auto, using(crate::proofs::LookLaws::map_more, crate::proofs::LookLaws::map_whole))]
fn lefts_of(alloc: Global, steps: &[Step]) -> Result<Vec<Option<usize>>, AllocError>
    ensures ok { IfOk result (λ list. list.items ≡ map left_of steps.now) }
{
    let mut list = Vec::new(alloc);
    for step in steps {
        list.push(step.0.left())?;
    }
    Ok(list)
}

/// The right places of the steps.
#[tactic(auto, using(crate::proofs::LookLaws::map_more, crate::proofs::LookLaws::map_whole))]
fn rights_of(alloc: Global, steps: &[Step]) -> Result<Vec<Option<usize>>, AllocError>
    ensures ok { IfOk result (λ list. list.items ≡ map right_of steps.now) }
{
    let mut list = Vec::new(alloc);
    for step in steps {
        list.push(step.0.right())?;
    }
    Ok(list)
}

/// The left places of the steps that did not move.
#[tactic(auto, using(crate::proofs::LookLaws::map_more, crate::proofs::LookLaws::map_whole))]
fn stayers_of(alloc: Global, steps: &[Step]) -> Result<Vec<Option<usize>>, AllocError>
    ensures ok { IfOk result (λ list. list.items ≡ map stayer_of steps.now) }
{
    let mut list = Vec::new(alloc);
    for step in steps {
        list.push(stayer_of(*step))?;
    }
    Ok(list)
}

/// The left places of the pairs.
#[tactic(auto, using(crate::proofs::LookLaws::map_more, crate::proofs::LookLaws::map_whole))]
fn pairs_of(alloc: Global, steps: &[Step]) -> Result<Vec<Option<usize>>, AllocError>
    ensures ok { IfOk result (λ list. list.items ≡ map pair_of steps.now) }
{
    let mut list = Vec::new(alloc);
    for step in steps {
        list.push(pair_of(*step))?;
    }
    Ok(list)
}

/// Whether none moved, or the left places of the pairs do not rise.
#[tactic(auto, using(crate::proofs::LookLaws::none_moved, crate::proofs::LookLaws::pairs_cross))]
fn may_move(alloc: Global, steps: &[Step], moved: &[Places]) -> Result<bool, AllocError>
    ensures ok { IfOk result (λ yes. yes ≡ true → (moved.now ≡ []) ⊎ Falls (map pair_of steps.now)) }
{
    if moved.len() == 0 {
        return Ok(true);
    }
    let pairs = pairs_of(alloc, steps)?;
    Ok(!rises(&pairs))
}

/// Whether the steps take each item of two lists of these lengths once, in order, and some moved only where pairs cross.
#[tactic(auto, using(crate::proofs::LookLaws::looked))]
pub(crate) fn are_right(
    alloc: Global,
    steps: &[Step],
    moved: &[Places],
    lens: (usize, usize),
) -> Result<bool, AllocError>
    ensures ok { IfOk result (λ yes. yes ≡ true → IsRight steps.now moved.now lens.0 lens.1) }
{
    let lefts = lefts_of(alloc, steps)?;
    let rights = rights_of(alloc, steps)?;
    let stayers = stayers_of(alloc, steps)?;
    if !rises(&rights) {
        return Ok(false);
    }
    if !rises(&stayers) {
        return Ok(false);
    }
    if !may_move(alloc, steps, moved)? {
        return Ok(false);
    }
    if !is_each(alloc, &lefts, lens.0)? {
        return Ok(false);
    }
    is_each(alloc, &rights, lens.1)
}
