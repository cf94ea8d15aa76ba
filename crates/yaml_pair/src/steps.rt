//! Pairs and single items as steps, in the order of the right list.
ghost use Rattle.std.specs.Prelude.{◌≡◌, IfOk, OnOk};
ghost use Rattle.yaml_pair.specs.Named.{StepsOf, GoesOn};

use crate::partners::{Partners, is_free};
use std::alloc::{AllocError, Global};
use yaml_path::places::Places;

/// Puts the single items of the left from a place on and before another.
fn put_lefts(
    steps: &mut Vec<(Places, bool)>,
    partners: &Partners,
    from: usize,
    to: usize,
    first: usize,
) -> Result<(), AllocError>
    ensures ok { OnOk result (GoesOn steps.old.items steps.new.items) }
{
    for left in from..to {
        if is_free(&partners.lefts, left) {
            steps.push((Places::Left(left.saturating_add(first)), false))?;
        }
    }
    Ok(())
}

/// The steps of two lists that begin at this place of whole ones, each with whether it is a pair that moved: right places rise, and so
/// do the left ones of what has not moved.
pub(crate) fn steps_of(
    alloc: Global,
    partners: &Partners,
    stay: &[(usize, usize)],
    first: usize,
) -> Result<Vec<(Places, bool)>, AllocError>
    ensures ok { IfOk result (λ steps. StepsOf first partners.now steps.items) }
{
    let mut steps = Vec::new(alloc);
    let mut from = 0;
    for (right, partner) in partners.rights.iter().enumerate() {
        let there = right.saturating_add(first);
        let Some(left) = partner else {
            steps.push((Places::Right(there), false))?;
            continue;
        };
        let moved = stay.binary_search_by_key(&right, |it| it.1).is_err();
        if !moved {
            put_lefts(&mut steps, partners, from, *left, first)?;
            from = left.saturating_add(1);
        }
        steps.push((Places::Both(left.saturating_add(first), there), moved))?;
    }
    put_lefts(&mut steps, partners, from, partners.lefts.len(), first)?;
    Ok(steps)
}
