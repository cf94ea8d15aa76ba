//! Which moves one line tells: of neighbours that moved together, or of a list of which only the order changed.
ghost use Rattle.std.specs.Prelude.{◌≡◌, ◌<◌, ◌≤◌, suc, true, false, length, IfOk, IfSome};
ghost use Rattle.review_folds.specs.Lists.{Covers};
ghost use Rattle.review_folds.specs.Moves.{places_up, IsRange, OfOneList, IsSpanOf, IsWhole, Tells, Groups};

use crate::lists::{Key, Lists, Span, are_same};
use std::alloc::{AllocError, Global};
use yaml_diff::{Found, Move};
use yaml_path::places::Places;

/// Moves that one line tells: those from one to the one before the end.
#[derive(Clone, Copy)]
pub struct Group {
    pub first: usize,
    pub end: usize,
    /// Whether they are all of a list of which only the order changed, or else of neighbours that moved together.
    pub whole: bool,
}

/// Whether a number is the next one.
fn is_next(one: usize, next: usize) -> bool
    ensures { result ≡ true → next ≡ suc one }
{
    one < next && next - one == 1
}

/// Whether both places are the next ones.
fn are_next(one: Places, next: Places) -> bool
    ensures { result ≡ true → next ≡ places_up 1 one }
{
    match (one, next) {
        (Places::Both(left, right), Places::Both(next_left, next_right)) => {
            is_next(left, next_left) && is_next(right, next_right)
        }
        _ => false,
    }
}

/// Whether the items of a move stand behind those of another, in one list.
fn follows(one: &Move, next: &Move) -> bool
    ensures path { result ≡ true → next.now.path.items ≡ one.now.path.items }
    ensures places { result ≡ true → next.now.places ≡ places_up 1 one.now.places }
{
    are_next(one.places, next.places) && are_same(&next.path, &one.path)
}

/// The end of the moves of neighbours that moved together, from this one on.
fn range_end(moves: &[Move], first: usize) -> usize
    requires { first < length moves.now }
    ensures some { first < result }
    ensures within { result ≤ length moves.now }
    ensures range { IsRange moves.now first result }
{
    'range: for next in first + 1..moves.len() {
        let before = next - 1;
        if !follows(&moves[before], &moves[next]) {
            return next;
        }
    }
    moves.len()
}

/// Whether these moves are of one list.
fn are_of_one_list(moves: &[Move], first: usize, end: usize) -> bool
    requires some { first < end }
    requires within { end ≤ length moves.now }
    ensures { result ≡ true → OfOneList moves.now first end }
{
    'moves: for number in first..end {
        if !are_same(&moves[number].path, &moves[first].path) {
            return false;
        }
    }
    true
}

/// The span of the list of this move, if it has one.
fn span_of(lists: &Lists, found: &Found, first: usize) -> Option<Span>
    requires lists { Covers ⟦<Key as Ord>⟧.cmp found.now lists.now }
    requires within { first < length found.now.moves.items }
    ensures { IfSome result (IsSpanOf found.now first) }
{
    let moves = &found.moves;
    lists.span(found, &moves[first].path)
}

/// Whether a span is of several moves, of which this is the first, and of no difference.
fn is_of_moves(found: &Found, span: Span, first: usize) -> bool
    ensures whole { result ≡ true → found.now.whole ≡ true }
    ensures first { result ≡ true → span.first ≡ first }
    ensures several { result ≡ true → first < span.last }
    ensures within { result ≡ true → span.last < length found.now.moves.items }
{
    found.whole && span.first == first && first < span.last && span.last < found.moves.len()
}

/// The end of the moves of a list of which only the order changed, if this is its first one.
#[tactic(auto, using(crate::proofs::MoveLaws::whole_is))]
fn whole_end(lists: &Lists, found: &Found, first: usize) -> Option<usize>
    requires lists { Covers ⟦<Key as Ord>⟧.cmp found.now lists.now }
    requires within { first < length found.now.moves.items }
    ensures whole { IfSome result (IsWhole found.now first) }
    ensures within { IfSome result (λ end. end ≤ length found.now.moves.items) }
{
    let span = span_of(lists, found, first)?;
    if !is_of_moves(found, span, first) {
        return None;
    }
    let end = span.last + 1;
    if !are_of_one_list(&found.moves, first, end) {
        return None;
    }
    Some(end)
}

/// The end of the moves of neighbours that moved together, if ranges are told, or else of this one alone.
fn range_or_one(ranges: bool, moves: &[Move], first: usize) -> usize
    requires { first < length moves.now }
    ensures some { first < result }
    ensures within { result ≤ length moves.now }
    ensures range { IsRange moves.now first result }
    ensures told { suc first < result → ranges ≡ true }
{
    if ranges {
        return range_end(moves, first);
    }
    first + 1
}

/// The moves that one line tells, from this one on.
fn group_at(ranges: bool, lists: &Lists, found: &Found, first: usize) -> Group
    requires lists { Covers ⟦<Key as Ord>⟧.cmp found.now lists.now }
    requires within { first < length found.now.moves.items }
    ensures first { result.first ≡ first }
    ensures some { result.first < result.end }
    ensures within { result.end ≤ length found.now.moves.items }
    ensures tells { Tells true ranges found.now result.whole result.first result.end }
{
    let end = range_or_one(ranges, &found.moves, first);
    if let Some(all) = whole_end(lists, found, first) {
        if end < all {
            return Group {
                first,
                end: all,
                whole: true,
            };
        }
    }
    Group {
        first,
        end,
        whole: false,
    }
}

/// Groups of all moves.
fn folded(alloc: Global, ranges: bool, found: &Found) -> Result<Vec<Group>, AllocError>
    ensures ok { IfOk result (λ groups. Groups true ranges found.now 0 (length found.now.moves.items) groups.items) }
{
    let lists = Lists::new(alloc, found)?;
    let mut groups = Vec::new(alloc);
    let mut at = 0;
    while at < found.moves.len() {
        let group = group_at(ranges, &lists, found, at);
        groups.push(group)?;
        at = group.end;
    }
    Ok(groups)
}

/// A group for each move.
fn single(alloc: Global, ranges: bool, found: &Found) -> Result<Vec<Group>, AllocError>
    ensures ok { IfOk result (λ groups. Groups false ranges found.now 0 (length found.now.moves.items) groups.items) }
{
    let mut groups = Vec::new(alloc);
    for first in 0..found.moves.len() {
        groups.push(Group {
            first,
            end: first + 1,
            whole: false,
        })?;
    }
    Ok(groups)
}

/// The moves in groups, of which one line each tells. With folds, a list of which only the order changed has one line, and with ranges
/// so have neighbours that moved together; without folds each move has one.
pub fn groups(
    alloc: Global,
    folds: bool,
    ranges: bool,
    found: &Found,
) -> Result<Vec<Group>, AllocError>
    ensures ok { IfOk result (λ groups. Groups folds ranges found.now 0 (length found.now.moves.items) groups.items) }
{
    if !folds {
        return single(alloc, ranges, found);
    }
    folded(alloc, ranges, found)
}
