//! Which pairs stay where they are: a longest list of pairs of which no two cross, and of such lists one with most pairs that have
//! the same place on both sides.
ghost use Rattle.std.specs.Prelude.{◌≡◌};

use std::alloc::{AllocError, Global};

/// The worth of the best list that ends at a pair, and one more than the number of that pair; 0 and 0 for none.
type Best = (usize, usize);

/// The best list that ends before a right place.
fn best_before(best: &[Best], right: usize) -> Best {
    let mut top = (0, 0);
    let mut at = right;
    for _ in 0..usize::BITS {
        if at == 0 {
            break;
        }
        if let Some(here) = best.get(at)
            && here.0 > top.0
        {
            top = *here;
        }
        at &= at - 1;
    }
    top
}

/// Notes a list that ends at a right place.
fn note(best: &mut [Best], right: usize, list: Best) {
    let mut at = right.saturating_add(1);
    for _ in 0..usize::BITS {
        let Some(here) = best.get_mut(at) else {
            break;
        };
        if here.0 < list.0 {
            *here = list;
        }
        let low = at & !at.saturating_sub(1);
        at = at.saturating_add(low);
    }
}

/// The pairs that stay, of pairs in the order of their left places, with right places below this bound.
pub(crate) fn stayers(
    alloc: Global,
    pairs: &[(usize, usize)],
    bound: usize,
) -> Result<Vec<(usize, usize)>, AllocError> {
    let step = pairs.len().saturating_add(1);
    let mut best = vec![in alloc; (0, 0); bound.saturating_add(1)]?;
    let mut before = Vec::new(alloc);
    let mut top = (0, 0);
    for (number, (left, right)) in pairs.iter().enumerate() {
        let old = best_before(&best, *right);
        let more = if *left == *right {
            step.saturating_add(1)
        } else {
            step
        };
        let list = (old.0.saturating_add(more), number.saturating_add(1));
        before.push(old.1)?;
        note(&mut best, *right, list);
        if list.0 > top.0 {
            top = list;
        }
    }
    let mut stay = Vec::new(alloc);
    let mut next = top.1;
    for _ in 0..pairs.len() {
        let Some(number) = next.checked_sub(1) else {
            break;
        };
        if let Some(pair) = pairs.get(number)
            && let Some(old) = before.get(number)
        {
            stay.push(*pair)?;
            next = *old;
        }
    }
    stay.reverse();
    Ok(stay)
}
