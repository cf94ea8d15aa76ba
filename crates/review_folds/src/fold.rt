//! How many differences each line tells.
ghost use Rattle.std.specs.Prelude.{◌≡◌, ◌⊎◌, true, length, Some, IfOk};
ghost use Rattle.std.specs.List.{slice_get};
ghost use Rattle.yaml_diff.specs.declared.difference.Difference.{Difference};
ghost use Rattle.review_folds.specs.Folds.{OfSameNodes, OfSameAt, TellsFor, Tellers, Counted, Filled, Folds};

use std::alloc::{AllocError, Global};
use std::collections::BTreeMap;
use yaml_diff::Difference;
use yaml_tree::node::NodeId;

/// What is changed, as a number of either side: differences of one cause are one change, which aliases show at several paths.
pub type Cause = (usize, usize);

/// Whether both are the same node, or none.
fn are_same(one: Option<NodeId>, other: Option<NodeId>) -> bool
    ensures { result ≡ true → one ≡ other }
{
    match (one, other) {
        (Some(one), Some(other)) => one.0 == other.0,
        (None, None) => true,
        _ => false,
    }
}

/// Whether two differences are of the same nodes.
fn are_alike(one: &Difference, other: &Difference) -> bool
    ensures { result ≡ true → OfSameNodes one.now other.now }
{
    are_same(one.left, other.left) && are_same(one.right, other.right)
}

/// The same of those at two places of a list.
fn are_alike_at(list: &[Difference], one: usize, other: usize) -> bool
    ensures { result ≡ true → OfSameAt list.now one other }
{
    match (list.get(one), list.get(other)) {
        (Some(first), Some(second)) => are_alike(first, second),
        _ => false,
    }
}

/// Whether the difference of this number has a line that tells it.
fn tells_itself(tellers: &[usize], number: usize) -> bool
    ensures { result ≡ true → slice_get tellers.now number ≡ Some number }
{
    match tellers.get(number) {
        Some(teller) => *teller == number,
        None => false,
    }
}

/// The number of the difference whose line tells this one: the one before that is known to have the same cause, if it tells itself and
/// is of the same nodes, or else its own.
fn teller_of(list: &[Difference], tellers: &[usize], known: Option<usize>, number: usize) -> usize
    requires { length tellers.now ≡ number }
    ensures { (result ≡ number) ⊎ TellsFor list.now tellers.now number result }
{
    match known {
        Some(at) => {
            if tells_itself(tellers, at) && are_alike_at(list, number, at) {
                at
            } else {
                number
            }
        }
        None => number,
    }
}

/// The number of the first difference of the same cause, if there was one.
fn known(
    firsts: &BTreeMap<Cause, usize>,
    causes: &[Option<Cause>],
    number: usize,
) -> Option<usize> {
    match causes.get(number) {
        Some(Some(cause)) => firsts.get(cause).copied(),
        _ => None,
    }
}

/// Notes that a difference is the first one of its cause.
fn note(
    firsts: &mut BTreeMap<Cause, usize>,
    causes: &[Option<Cause>],
    number: usize,
) -> Result<(), AllocError> {
    if let Some(Some(cause)) = causes.get(number) {
        firsts.insert(*cause, number)?;
    }
    Ok(())
}

/// For each difference the number of that whose line tells it.
fn tellers(
    alloc: Global,
    list: &[Difference],
    causes: &[Option<Cause>],
) -> Result<Vec<usize>, AllocError>
    ensures ok { IfOk result (λ it. Tellers list.now it.items) }
{
    let mut firsts = BTreeMap::new(alloc);
    let mut tellers = Vec::new(alloc);
    for number in 0..list.len() {
        let teller = teller_of(list, &tellers, known(&firsts, causes, number), number);
        tellers.push(teller)?;
        if teller == number {
            note(&mut firsts, causes, number)?;
        }
    }
    Ok(tellers)
}

/// A list of one number, so many times.
fn filled(alloc: Global, number: usize, len: usize) -> Result<Vec<usize>, AllocError>
    ensures ok { IfOk result (λ it. Filled number len it.items) }
{
    let mut list = Vec::new(alloc);
    for _ in 0..len {
        list.push(number)?;
    }
    Ok(list)
}

/// How often each number below the length of a list stands in it.
fn times(alloc: Global, list: &[usize]) -> Result<Vec<usize>, AllocError>
    ensures ok { IfOk result (λ it. Counted list.now it.items) }
{
    let mut counts = filled(alloc, 0, list.len())?;
    for number in list {
        if *number < counts.len() {
            counts[*number] += 1;
        }
    }
    Ok(counts)
}

/// How many differences the line of each one tells. Without folds this is one; with folds, those of the same cause have one line, that
/// of the first one, and the others none. A difference whose cause is not known has a line of its own.
pub fn counts(
    alloc: Global,
    folds: bool,
    list: &[Difference],
    causes: &[Option<Cause>],
) -> Result<Vec<usize>, AllocError>
    ensures ok { IfOk result (λ it. Folds folds list.now it.items) }
    ensures level { IfOk result (λ it. length it.items ≡ length list.now) }
{
    if !folds {
        return filled(alloc, 1, list.len());
    }
    let tellers = tellers(alloc, list, causes)?;
    times(alloc, &tellers)
}
