//! The lists of which several items moved, and which differences and moves are at or below each of them.
ghost use Rattle.std.specs.Prelude.{◌≡◌, true};
ghost use Rattle.std.specs.List.{slice_get};
ghost use Rattle.review_folds.specs.Lists.{key_of, below_of, number_of, IsWider, HasNumber, Notes, NotesMoves, NotesDifferences};

use std::alloc::{AllocError, Global};
use std::collections::BTreeMap;
use yaml_diff::{Difference, Found, Move, Step};
use yaml_path::places::Places;

/// A step from the path of a number.
#[derive(Clone, Copy, PartialEq, Eq, PartialOrd, Ord)]
pub(crate) struct Key {
    above: usize,
    kind: usize,
    left: usize,
    right: usize,
}

/// The same, as numbers.
fn key_of(above: usize, step: Step) -> Key
    ensures { result ≡ key_of above step }
{
    let (kind, left, right) = match step {
        Step::Item(Places::Both(left, right)) => (0, left, right),
        Step::Item(Places::Left(left)) => (1, left, 0),
        Step::Item(Places::Right(right)) => (2, 0, right),
        Step::Value(key) => (3, key.0, 0),
    };
    Key {
        above,
        kind,
        left,
        right,
    }
}

/// The numbers of paths: that of the stream is 0, and the others are found step by step.
#[derive(Drop)]
pub(crate) struct Numbers {
    below: BTreeMap<Key, usize>,
}

impl Numbers {
    ghost use Rattle.std.specs.Prelude.{◌≡◌};
    ghost use Rattle.std.specs.BTreeMap.{get};
    ghost use Rattle.review_folds.specs.Lists.{key_of, below_of, number_of};

    /// The number of the path that leads a step below this one, if it has one.
    fn below(&self, above: usize, step: Step) -> Option<usize>
        ensures { result ≡ below_of ⟦<Key as Ord>⟧.cmp self.now.below above step }
    {
        let key = key_of(above, step);
        self.below.get(&key).copied()
    }

    /// Gives a number to each path at or above this list, where it has none, and tells that of the list.
    fn add(&mut self, path: &[Step]) -> Result<usize, AllocError> {
        let Some((step, rest)) = path.split_first() else {
            return Ok(0);
        };
        let above = self.add(rest)?;
        if let Some(number) = self.below(above, *step) {
            return Ok(number);
        }
        let number = self.below.len().saturating_add(1);
        self.below.insert(key_of(above, *step), number)?;
        Ok(number)
    }

    /// The number of a path, the last step first, if it has one.
    fn number(&self, path: &[Step]) -> Option<usize>
        ensures { result ≡ number_of (below_of ⟦<Key as Ord>⟧.cmp self.now.below) path.now }
    {
        let Some((step, rest)) = path.split_first() else {
            return Some(0);
        };
        let above = self.number(rest)?;
        self.below(above, *step)
    }
}

/// The first and the last number of the moves at or below a list. A difference has the number behind those of all moves.
#[derive(Clone, Copy)]
pub(crate) struct Span {
    pub(crate) first: usize,
    pub(crate) last: usize,
}

/// Of nothing yet.
const NONE: Span = Span {
    first: usize::MAX,
    last: 0,
};

/// Widens the span of a list, if it has one, up to this number.
fn widen(spans: &mut Vec<Span>, list: usize, number: usize)
    ensures wider { IsWider spans.old.items spans.new.items }
    ensures has { HasNumber spans.new.items list number }
{
    if list < spans.len() {
        let span = spans[list];
        spans[list] = Span {
            first: span.first.min(number),
            last: span.last.max(number),
        };
    }
}

/// Widens the spans of all lists at or above the end of a path up to this number, and tells the number of the path, if it has one.
#[tactic(auto, using(crate::proofs::ListLaws::notes_none, crate::proofs::ListLaws::notes_past, crate::proofs::ListLaws::wider_same, crate::proofs::ListLaws::wider_twice))]
fn note(numbers: &Numbers, spans: &mut Vec<Span>, path: &[Step], number: usize) -> Option<usize>
    ensures at { result ≡ number_of (below_of ⟦<Key as Ord>⟧.cmp numbers.now.below) path.now }
    ensures wider { IsWider spans.old.items spans.new.items }
    ensures notes { Notes (below_of ⟦<Key as Ord>⟧.cmp numbers.now.below) path.now number spans.new.items }
{
    let Some((step, rest)) = path.split_first() else {
        widen(spans, 0, number);
        return Some(0);
    };
    let above = note(numbers, spans, rest, number)?;
    let list = numbers.below(above, *step)?;
    widen(spans, list, number);
    Some(list)
}

/// Notes moves, each by its own number.
fn note_moves(numbers: &Numbers, spans: &mut Vec<Span>, moves: &[Move])
    ensures { NotesMoves (below_of ⟦<Key as Ord>⟧.cmp numbers.now.below) moves.now spans.new.items }
{
    for (number, one) in moves.iter().enumerate() {
        note(numbers, spans, &one.path, number);
    }
}

/// Notes differences, all by this number.
fn note_differences(numbers: &Numbers, spans: &mut Vec<Span>, list: &[Difference], number: usize)
    ensures wider { IsWider spans.old.items spans.new.items }
    ensures notes { NotesDifferences (below_of ⟦<Key as Ord>⟧.cmp numbers.now.below) list.now number spans.new.items }
{
    for difference in list {
        note(numbers, spans, &difference.path, number);
    }
}

/// Whether two steps are the same.
fn is_same(one: Step, other: Step) -> bool
    ensures { result ≡ true → one ≡ other }
{
    match (one, other) {
        (Step::Item(Places::Both(one, left)), Step::Item(Places::Both(other, right))) => {
            one == other && left == right
        }
        (Step::Item(Places::Left(one)), Step::Item(Places::Left(other))) => one == other,
        (Step::Item(Places::Right(one)), Step::Item(Places::Right(other))) => one == other,
        (Step::Value(one), Step::Value(other)) => one.0 == other.0,
        _ => false,
    }
}

/// Whether two paths are the same.
pub(crate) fn are_same(one: &[Step], other: &[Step]) -> bool
    ensures { result ≡ true → one.now ≡ other.now }
{
    match (one.split_first(), other.split_first()) {
        (Some((first, others)), Some((step, rest))) => {
            is_same(*first, *step) && are_same(others, rest)
        }
        (None, None) => true,
        _ => false,
    }
}

/// The numbers of the lists of which several moves stand one behind another.
fn numbers_of(alloc: Global, moves: &[Move]) -> Result<Numbers, AllocError> {
    let mut numbers = Numbers {
        below: BTreeMap::new(alloc),
    };
    for next in 1..moves.len() {
        if are_same(&moves[next - 1].path, &moves[next].path) {
            numbers.add(&moves[next].path)?;
        }
    }
    Ok(numbers)
}

/// The span of this number, if there is one.
fn span_at(spans: &[Span], number: usize) -> Option<Span>
    ensures { result ≡ slice_get spans.now number }
{
    spans.get(number).copied()
}

/// Lists by numbers, and the span of what is at or below each of them.
#[derive(Drop)]
pub(crate) struct Lists {
    numbers: Numbers,
    spans: Vec<Span>,
}

impl Lists {
    ghost use Rattle.std.specs.Prelude.{◌≡◌, IfOk, IfSome};
    ghost use Rattle.review_folds.specs.Lists.{Covers, IsSpan};

    /// The lists of which several moves stand one behind another.
    pub(crate) fn new(alloc: Global, found: &Found) -> Result<Lists, AllocError>
        ensures ok { IfOk result (λ lists. Covers ⟦<Key as Ord>⟧.cmp found.now lists) }
    {
        let numbers = numbers_of(alloc, &found.moves)?;
        let mut spans = vec![in alloc; NONE; numbers.below.len().saturating_add(1)]?;
        let moves: &[Move] = &found.moves;
        note_moves(&numbers, &mut spans, moves);
        note_differences(&numbers, &mut spans, &found.list, moves.len());
        Ok(Lists { numbers, spans })
    }

    /// The span of a list, if it has one.
    pub(crate) fn span(&self, found: &Found, path: &[Step]) -> Option<Span>
        requires { Covers ⟦<Key as Ord>⟧.cmp found.now self.now }
        ensures { IfSome result (IsSpan found.now path.now) }
    {
        let number = self.numbers.number(path)?;
        span_at(&self.spans, number)
    }
}
