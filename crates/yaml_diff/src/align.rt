//! Which items of two sequences are taken for each other.
ghost use Rattle.std.specs.Prelude.{◌≡◌, ◌≤◌, ◌-◌, ◌++◌, [], true, IfOk, IfSome, OnOk};
ghost use Rattle.yaml_path.specs.Ways.{turns};
ghost use Rattle.yaml_diff.specs.Found.{AllWithin, Aligns};
ghost use Rattle.yaml_diff.specs.Aligning.{IsFront, IsBack, AlignsFrom};
ghost use Rattle.yaml_diff.specs.Looks.{places_in, moved_in, IsRight, Checked};

use crate::anchors::anchors;
use crate::look::{Step, are_right, moved_of, places_of};
use std::alloc::{AllocError, Global};
use yaml_pair::{Asked, pair_items};
use yaml_path::places::Places;
use yaml_store_rank::RankedForests;
use yaml_tree::node::NodeId;

/// How the items of two sequences are taken for each other: steps with a place of both or of one, and the pairs among them that moved.
#[derive(Drop)]
pub(crate) struct Aligned {
    pub list: Vec<Places>,
    pub moved: Vec<Places>,
}

/// How many items are the same from the front on.
fn equal_front(forests: &RankedForests<'_>, lefts: &[NodeId], rights: &[NodeId]) -> usize
    requires left { AllWithin forests.now lefts.now }
    requires right { AllWithin forests.now rights.now }
    ensures { IsFront forests.now lefts.now rights.now result }
{
    let mut front = 0;
    while front < lefts.len()
        && front < rights.len()
        && forests.rank(lefts[front]) == forests.rank(rights[front])
    {
        front += 1;
    }
    front
}

/// How many items behind that front are the same from the back on.
fn equal_back(
    forests: &RankedForests<'_>,
    lefts: &[NodeId],
    rights: &[NodeId],
    front: usize,
) -> usize
    requires left { AllWithin forests.now lefts.now }
    requires right { AllWithin forests.now rights.now }
    requires front { IsFront forests.now lefts.now rights.now front }
    ensures { IsBack forests.now lefts.now rights.now front result }
{
    let mut left = lefts.len();
    let mut right = rights.len();
    while left > front
        && right > front
        && forests.rank(lefts[left - 1]) == forests.rank(rights[right - 1])
    {
        left -= 1;
        right -= 1;
    }
    lefts.len() - left
}

/// Takes the items from these places up to those in turn, and behind them those of the longer side alone.
#[tactic(auto, using(crate::proofs::AlignLaws::step_both, crate::proofs::AlignLaws::step_left, crate::proofs::AlignLaws::step_right, crate::proofs::AlignLaws::turns_done))]
fn take_turns(
    list: &mut Vec<Places>,
    from: (usize, usize),
    to: (usize, usize),
) -> Result<(), AllocError>
    requires left { from.0 ≤ to.0 }
    requires right { from.1 ≤ to.1 }
    ensures ok { OnOk result (list.new.items ≡ list.old.items ++ turns from.0 from.1 (to.0 - from.0) (to.1 - from.1)) }
{
    let (mut left, mut right) = from;
    while left < to.0 && right < to.1 {
        list.push(Places::Both(left, right))?;
        left += 1;
        right += 1;
    }
    while left < to.0 {
        list.push(Places::Left(left))?;
        left += 1;
    }
    while right < to.1 {
        list.push(Places::Right(right))?;
        right += 1;
    }
    Ok(())
}

/// Takes the items up to these places: those of the anchors for each other, and those between two anchors in turn.
#[tactic(auto, using(crate::proofs::AlignLaws::from_anchor, crate::proofs::AlignLaws::from_turns, crate::proofs::AlignLaws::from_on, crate::proofs::AlignLaws::from_here))]
fn take_anchors(
    list: &mut Vec<Places>,
    anchors: &[(usize, usize)],
    from: (usize, usize),
    to: (usize, usize),
) -> Result<(), AllocError>
    requires left { from.0 ≤ to.0 }
    requires right { from.1 ≤ to.1 }
    ensures ok { OnOk result (AlignsFrom list.old.items from.0 from.1 to.0 to.1 list.new.items) }
{
    let mut at = from;
    for anchor in anchors {
        let (left, right) = *anchor;
        if at.0 <= left && left < to.0 && at.1 <= right && right < to.1 {
            take_turns(list, at, (left, right))?;
            take_turns(list, (left, right), (left + 1, right + 1))?;
            at = (left + 1, right + 1);
        }
    }
    take_turns(list, at, to)
}

/// Takes the items of two sequences for each other: equal ends, between them the items that stand once on either side as far
/// as their places rise on both, and the rest in turn.
#[tactic(auto, using(crate::proofs::AlignLaws::aligned))]
fn in_turn(
    alloc: Global,
    forests: &RankedForests<'_>,
    lefts: &[NodeId],
    rights: &[NodeId],
) -> Result<Aligned, AllocError>
    requires left { AllWithin forests.now lefts.now }
    requires right { AllWithin forests.now rights.now }
    ensures ok { IfOk result (λ it. Aligns forests.now lefts.now rights.now it.list.items it.moved.items) }
    ensures calm { IfOk result (λ it. it.moved.items ≡ []) }
{
    let front = equal_front(forests, lefts, rights);
    let back = equal_back(forests, lefts, rights, front);
    let ends = (lefts.len() - back, rights.len() - back);
    let anchors = anchors(alloc, forests, lefts, rights, front, back)?;
    let mut list = Vec::new(alloc);
    take_turns(&mut list, (0, 0), (front, front))?;
    take_anchors(&mut list, &anchors, (front, front), ends)?;
    take_turns(&mut list, ends, (lefts.len(), rights.len()))?;
    Ok(Aligned {
        list,
        moved: Vec::new(alloc),
    })
}

/// Takes the items from these places up to those for each other, of which there are equally many on both sides.
#[tactic(auto, using(crate::proofs::CrossLaws::pair_step, crate::proofs::AlignLaws::turns_done))]
fn put_pairs(
    steps: &mut Vec<Step>,
    from: (usize, usize),
    to: (usize, usize),
) -> Result<(), AllocError>
    requires left { from.0 ≤ to.0 }
    requires right { from.1 ≤ to.1 }
    requires level { to.0 - from.0 ≡ to.1 - from.1 }
    ensures ok { OnOk result (places_in steps.new.items ≡ places_in steps.old.items ++ turns from.0 from.1 (to.0 - from.0) (to.1 - from.1)) }
{
    let (mut left, mut right) = from;
    while left < to.0 && right < to.1 {
        steps.push((Places::Both(left, right), false))?;
        left += 1;
        right += 1;
    }
    Ok(())
}

/// Adds steps.
fn put_steps(steps: &mut Vec<Step>, more: &[Step]) -> Result<(), AllocError>
    ensures ok { OnOk result (steps.new.items ≡ steps.old.items ++ more.now) }
{
    for step in more {
        steps.push(*step)?;
    }
    Ok(())
}

/// The steps as places, if they are right.
#[tactic(auto, using(crate::proofs::LookLaws::checked_is))]
fn checked(
    alloc: Global,
    steps: &[Step],
    lens: (usize, usize),
) -> Result<Option<Aligned>, AllocError>
    ensures ok { IfOk result (λ it. IfSome it (λ a. Checked steps.now a.list.items a.moved.items lens.0 lens.1)) }
{
    let moved = moved_of(alloc, steps)?;
    if !are_right(alloc, steps, &moved, lens)? {
        return Ok(None);
    }
    let list = places_of(alloc, steps)?;
    Ok(Some(Aligned { list, moved }))
}

/// Takes the items of two sequences for each other: equal ends, and between them those that belong together by their names or by what
/// they have in common. What was put together is looked at.
fn crossing(
    alloc: Global,
    forests: &RankedForests<'_>,
    lefts: &[NodeId],
    rights: &[NodeId],
    asked: Asked<'_>,
    documents: bool,
) -> Result<Option<Aligned>, AllocError>
    requires left { AllWithin forests.now lefts.now }
    requires right { AllWithin forests.now rights.now }
    ensures ok { IfOk result (λ it. IfSome it (λ a. Aligns forests.now lefts.now rights.now a.list.items a.moved.items)) }
{
    let front = equal_front(forests, lefts, rights);
    let back = equal_back(forests, lefts, rights, front);
    let ends = (lefts.len() - back, rights.len() - back);
    let between = (&lefts[front..ends.0], &rights[front..ends.1]);
    let middle = pair_items(alloc, forests, between, front, asked, documents)?;
    let mut steps = Vec::new(alloc);
    put_pairs(&mut steps, (0, 0), (front, front))?;
    put_steps(&mut steps, &middle)?;
    put_pairs(&mut steps, ends, (lefts.len(), rights.len()))?;
    checked(alloc, &steps, (lefts.len(), rights.len()))
}

/// Whether either stream has one document: these are a pair, whatever their names are.
fn are_lone(documents: bool, lefts: &[NodeId], rights: &[NodeId]) -> bool {
    documents && lefts.len() == 1 && rights.len() == 1
}

/// Takes the items of two sequences for each other, as is asked.
#[inline(never)] // stack
pub(crate) fn align(
    alloc: Global,
    forests: &RankedForests<'_>,
    lefts: &[NodeId],
    rights: &[NodeId],
    asked: Asked<'_>,
    documents: bool,
) -> Result<Aligned, AllocError>
    requires left { AllWithin forests.now lefts.now }
    requires right { AllWithin forests.now rights.now }
    ensures ok { IfOk result (λ it. Aligns forests.now lefts.now rights.now it.list.items it.moved.items) }
    ensures calm { asked.entry.by_position ≡ true → IfOk result (λ it. it.moved.items ≡ []) }
{
    if asked.by_position || are_lone(documents, lefts, rights) {
        return in_turn(alloc, forests, lefts, rights);
    }
    match crossing(alloc, forests, lefts, rights, asked, documents)? {
        Some(aligned) => Ok(aligned),
        None => in_turn(alloc, forests, lefts, rights),
    }
}
