//! Equal lines of two texts.
ghost use Rattle.std.specs.Prelude.{◌≡◌};

use crate::lines::Piece;
use std::alloc::{AllocError, Global};
use std::collections::BTreeMap;

/// How many lines of each side are compared each with each.
const FEW: usize = 64;

/// Where a line stands on either side, and how often.
#[derive(Clone, Copy)]
struct Seen {
    left: usize,
    lefts: usize,
    right: usize,
    rights: usize,
}

const NOT_SEEN: Seen = Seen {
    left: 0,
    lefts: 0,
    right: 0,
    rights: 0,
};

/// Places of lines: those of the left side and of the right one from these on, and before those.
#[derive(Clone, Copy)]
struct Range {
    left: usize,
    right: usize,
    left_end: usize,
    right_end: usize,
}

/// A range without the equal lines at its ends, and how many these are.
#[derive(Clone, Copy)]
struct Inner {
    front: usize,
    middle: Range,
    back: usize,
}

/// The lines of two texts.
#[derive(Clone, Copy)]
struct Both<'s, 't> {
    left: &'s [Piece<'t>],
    right: &'s [Piece<'t>],
}

impl<'t> Both<'_, 't> {
    ghost use Rattle.std.specs.Prelude.{◌≡◌};

    /// Whether two places hold equal lines.
    fn are_same(self, left: usize, right: usize) -> bool {
        match (self.left.get(left), self.right.get(right)) {
            (Some(one), Some(other)) => one.is_same(other),
            _ => false,
        }
    }

    /// How many lines are equal from the front of a range.
    fn front(self, range: Range) -> usize {
        let most = range
            .left_end
            .saturating_sub(range.left)
            .min(range.right_end.saturating_sub(range.right));
        for count in 0..most {
            let (left, right) = (
                range.left.saturating_add(count),
                range.right.saturating_add(count),
            );
            if !self.are_same(left, right) {
                return count;
            }
        }
        most
    }

    /// How many lines are equal from the back of a range.
    fn back(self, range: Range) -> usize {
        let most = range
            .left_end
            .saturating_sub(range.left)
            .min(range.right_end.saturating_sub(range.right));
        for count in 0..most {
            let behind = count.saturating_add(1);
            let (left, right) = (
                range.left_end.saturating_sub(behind),
                range.right_end.saturating_sub(behind),
            );
            if !self.are_same(left, right) {
                return count;
            }
        }
        most
    }

    /// The lines that a range has once on either side, by their places, of which the left ones rise.
    fn lone(self, alloc: Global, range: Range) -> Result<Vec<(usize, usize)>, AllocError> {
        let mut seen: BTreeMap<&'t str, Seen> = BTreeMap::new(alloc);
        for place in range.left..range.left_end {
            if let Some(piece) = self.left.get(place) {
                let mut here = seen.get(piece.line).copied().unwrap_or(NOT_SEEN);
                here.left = place;
                here.lefts = here.lefts.saturating_add(1);
                seen.insert(piece.line, here)?;
            }
        }
        for place in range.right..range.right_end {
            if let Some(piece) = self.right.get(place)
                && let Some(here) = seen.get_mut(piece.line)
            {
                here.right = place;
                here.rights = here.rights.saturating_add(1);
            }
        }
        let mut pairs = Vec::new(alloc);
        for here in seen.values() {
            if here.lefts == 1 && here.rights == 1 {
                pairs.push((here.left, here.right))?;
            }
        }
        pairs.sort_unstable();
        Ok(pairs)
    }

    /// For each two places of a small range, by rows: how many equal lines there are from them on in one order.
    fn table(self, alloc: Global, range: Range, width: usize) -> Result<Vec<usize>, AllocError> {
        let height = range.left_end.saturating_sub(range.left).saturating_add(1);
        let mut table = vec![in alloc; 0usize; height.saturating_mul(width)]?;
        for row in (range.left..range.left_end).rev() {
            for column in (range.right..range.right_end).rev() {
                let at = row
                    .saturating_sub(range.left)
                    .saturating_mul(width)
                    .saturating_add(column.saturating_sub(range.right));
                let below = at.saturating_add(width);
                let most = if self.are_same(row, column) {
                    value(&table, below.saturating_add(1)).saturating_add(1)
                } else {
                    value(&table, below).max(value(&table, at.saturating_add(1)))
                };
                if let Some(slot) = table.get_mut(at) {
                    *slot = most;
                }
            }
        }
        Ok(table)
    }

    /// Adds the pairs of equal lines of a small range, as many as rise on both sides.
    fn add_most(
        self,
        alloc: Global,
        range: Range,
        pairs: &mut Vec<(usize, usize)>,
    ) -> Result<(), AllocError> {
        let width = range
            .right_end
            .saturating_sub(range.right)
            .saturating_add(1);
        let table = self.table(alloc, range, width)?;
        let (mut row, mut column) = (range.left, range.right);
        for _ in 0..FEW.saturating_mul(2) {
            if row >= range.left_end || column >= range.right_end {
                break;
            }
            let at = row
                .saturating_sub(range.left)
                .saturating_mul(width)
                .saturating_add(column.saturating_sub(range.right));
            if self.are_same(row, column) {
                pairs.push((row, column))?;
                row = row.saturating_add(1);
                column = column.saturating_add(1);
            } else if value(&table, at.saturating_add(width))
                >= value(&table, at.saturating_add(1))
            {
                row = row.saturating_add(1);
            } else {
                column = column.saturating_add(1);
            }
        }
        Ok(())
    }

    /// A range without the equal lines at its ends.
    fn inner(self, range: Range) -> Inner {
        let front = self.front(range);
        let behind = Range {
            left: range.left.saturating_add(front),
            right: range.right.saturating_add(front),
            ..range
        };
        let back = self.back(behind);
        let middle = Range {
            left_end: behind.left_end.saturating_sub(back),
            right_end: behind.right_end.saturating_sub(back),
            ..behind
        };
        Inner {
            front,
            middle,
            back,
        }
    }

    /// Adds the pairs of equal lines of a range between two pairs: those at its ends, and what is between them if it is small.
    fn add_gap(
        self,
        alloc: Global,
        range: Range,
        pairs: &mut Vec<(usize, usize)>,
    ) -> Result<(), AllocError> {
        let Inner {
            front,
            middle,
            back,
        } = self.inner(range);
        put_run(pairs, range.left, range.right, front)?;
        if middle.left_end.saturating_sub(middle.left) <= FEW
            && middle.right_end.saturating_sub(middle.right) <= FEW
        {
            self.add_most(alloc, middle, pairs)?;
        }
        put_run(pairs, middle.left_end, middle.right_end, back)
    }
}

/// The number at a place of a table, or 0 behind its end.
fn value(table: &[usize], at: usize) -> usize {
    table.get(at).copied().unwrap_or(0)
}

/// Adds so many pairs of places from these on.
fn put_run(
    pairs: &mut Vec<(usize, usize)>,
    left: usize,
    right: usize,
    count: usize,
) -> Result<(), AllocError> {
    for place in 0..count {
        pairs.push((left.saturating_add(place), right.saturating_add(place)))?;
    }
    Ok(())
}

/// The last pair of the chain of this length.
fn top_of(pairs: &[(usize, usize)], tops: &[usize], pile: usize) -> usize {
    match tops.get(pile) {
        Some(top) => match pairs.get(*top) {
            Some(pair) => pair.1,
            None => 0,
        },
        None => 0,
    }
}

/// How many chains end before a right place.
fn piles_before(pairs: &[(usize, usize)], tops: &[usize], right: usize) -> usize {
    let mut low = 0usize;
    let mut high = tops.len();
    for _ in 0..usize::BITS {
        if low >= high {
            break;
        }
        let middle = low + (high - low) / 2;
        if top_of(pairs, tops, middle) < right {
            low = middle.saturating_add(1);
        } else {
            high = middle;
        }
    }
    low
}

/// As many of the pairs, whose left places rise, as there can be with rising right places.
fn longest_rising(
    alloc: Global,
    pairs: &[(usize, usize)],
) -> Result<Vec<(usize, usize)>, AllocError> {
    let mut tops: Vec<usize> = Vec::new(alloc);
    let mut before: Vec<Option<usize>> = Vec::new(alloc);
    for (index, pair) in pairs.iter().enumerate() {
        let pile = piles_before(pairs, &tops, pair.1);
        before.push(match pile.checked_sub(1) {
            Some(last) => tops.get(last).copied(),
            None => None,
        })?;
        match tops.get_mut(pile) {
            Some(top) => *top = index,
            None => tops.push(index)?,
        }
    }
    let mut list = Vec::new(alloc);
    let mut next = tops.last().copied();
    for _ in 0..tops.len() {
        if let Some(index) = next
            && let Some(pair) = pairs.get(index)
        {
            list.push(*pair)?;
            next = before.get(index).copied().unwrap_or(None);
        }
    }
    list.reverse();
    Ok(list)
}

/// The places of equal lines of two texts, which rise on both sides: equal ends, lines that stand once on either side between these,
/// and equal lines between two such pairs. It takes n log n steps.
pub(crate) fn pairs_of(
    alloc: Global,
    left: &[Piece<'_>],
    right: &[Piece<'_>],
) -> Result<Vec<(usize, usize)>, AllocError> {
    let both = Both { left, right };
    let whole = Range {
        left: 0,
        right: 0,
        left_end: left.len(),
        right_end: right.len(),
    };
    let Inner {
        front,
        middle,
        back,
    } = both.inner(whole);
    let lone = longest_rising(alloc, &both.lone(alloc, middle)?)?;
    let mut pairs = Vec::new(alloc);
    put_run(&mut pairs, 0, 0, front)?;
    let mut at = (middle.left, middle.right);
    for pair in &lone {
        let gap = Range {
            left: at.0,
            right: at.1,
            left_end: pair.0,
            right_end: pair.1,
        };
        both.add_gap(alloc, gap, &mut pairs)?;
        pairs.push(*pair)?;
        at = (pair.0.saturating_add(1), pair.1.saturating_add(1));
    }
    let last = Range {
        left: at.0,
        right: at.1,
        ..middle
    };
    both.add_gap(alloc, last, &mut pairs)?;
    put_run(&mut pairs, middle.left_end, middle.right_end, back)?;
    Ok(pairs)
}
