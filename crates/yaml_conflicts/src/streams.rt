//! Where changes of a stream conflict, document by document.
ghost use Rattle.std.specs.Prelude.{◌≡◌, ◌==◌, IfOk, true, false};
ghost use Rattle.std.specs.List.{slice_get};
ghost use Rattle.yaml_path.specs.Ways.{count_in};
ghost use Rattle.yaml_conflicts.specs.Merge.{alike, follows, is_ruled, settled};
ghost use Rattle.yaml_conflicts.specs.MergedStreams.{stream, are_paired};
ghost use Rattle.yaml_diff.specs.Found.{Within, AllWithin};
ghost use Rattle.yaml_conflicts.specs.Found.{SidesWithin, Spends};
ghost use Rattle.yaml_conflicts.specs.Streams.{documents, RootsWithin, DocumentsAre, FindsDocument, FindsDocuments, FindsStreams};

use crate::lists::{add, none, one};
use crate::rules;
use crate::rules::is_alike;
use crate::sides::{Found, Room, Sides, Step};
use crate::walk::conflicts;
use std::alloc::{AllocError, Global};
use yaml_store_rank::RankedForests;
use yaml_tree::node::NodeId;

/// The roots of the documents of the base, of ours, of theirs and of the merge. Where no merge is given, those of the base stand in its
/// place.
#[derive(Clone, Copy)]
pub struct Roots<'r> {
    pub base: &'r [NodeId],
    pub ours: &'r [NodeId],
    pub theirs: &'r [NodeId],
    pub merge: &'r [NodeId],
}

/// What is found of streams.
#[derive(Debug, Drop)]
pub enum Outcome {
    /// The paths in their documents. The first step of each leads to a document.
    Documents(Found),
    /// The streams themselves, which have not equally many documents.
    Streams,
}

/// The root at this place, if there is one.
fn root_at(roots: &[NodeId], place: usize) -> Option<NodeId>
    ensures { result ≡ slice_get roots.now place }
{
    roots.get(place).copied()
}

/// The document at this place, if there is one.
fn document(forests: &RankedForests<'_>, roots: &[NodeId], place: usize) -> Option<NodeId>
    requires within { AllWithin forests.now roots.now }
    ensures is { result ≡ slice_get roots.now place }
    ensures within { Within forests.now result }
{
    let _nodes = forests.len();
    root_at(roots, place)
}

/// The documents at this place.
fn documents(forests: &RankedForests<'_>, roots: &Roots<'_>, place: usize) -> Sides
    requires within { RootsWithin forests.now roots.now }
    ensures are { DocumentsAre roots.now place result }
    ensures within { SidesWithin forests.now result }
{
    Sides {
        base: document(forests, roots.base, place),
        ours: document(forests, roots.ours, place),
        theirs: document(forests, roots.theirs, place),
        merge: document(forests, roots.merge, place),
    }
}

/// Whether two streams have equally many documents.
fn are_long(forests: &RankedForests<'_>, left: &[NodeId], right: &[NodeId]) -> bool
    ensures { result ≡ (count_in (documents forests.now left.now) == count_in (documents forests.now right.now)) }
{
    let _nodes = forests.len();
    left.len() == right.len()
}

/// Whether two streams have equally many documents, pairwise the same.
fn are_alike(forests: &RankedForests<'_>, left: &[NodeId], right: &[NodeId]) -> bool
    requires left { AllWithin forests.now left.now }
    requires right { AllWithin forests.now right.now }
    ensures { result ≡ alike (stream (documents forests.now left.now)) (stream (documents forests.now right.now)) }
{
    if !are_long(forests, left, right) {
        return false;
    }
    for place in 0..left.len() {
        let first = document(forests, left, place);
        let second = document(forests, right, place);
        if !is_alike(forests, first, second) {
            return false;
        }
    }
    true
}

/// Whether one side is as the base, or both are alike.
fn has_rule(forests: &RankedForests<'_>, roots: &Roots<'_>) -> bool
    requires within { RootsWithin forests.now roots.now }
    ensures { result ≡ is_ruled (stream (documents forests.now roots.now.base.now)) (stream (documents forests.now roots.now.ours.now)) (stream (documents forests.now roots.now.theirs.now)) }
{
    are_alike(forests, roots.ours, roots.base)
        || (are_alike(forests, roots.theirs, roots.base)
            || are_alike(forests, roots.ours, roots.theirs))
}

/// Whether the merge has what one of the rules says.
fn is_followed(forests: &RankedForests<'_>, roots: &Roots<'_>) -> bool
    requires within { RootsWithin forests.now roots.now }
    ensures { result ≡ follows (stream (documents forests.now roots.now.base.now)) (stream (documents forests.now roots.now.ours.now)) (stream (documents forests.now roots.now.theirs.now)) (stream (documents forests.now roots.now.merge.now)) }
{
    let is_ours = are_alike(forests, roots.merge, roots.ours);
    (are_alike(forests, roots.ours, roots.base) && are_alike(forests, roots.merge, roots.theirs))
        || ((are_alike(forests, roots.theirs, roots.base) && is_ours)
            || (are_alike(forests, roots.ours, roots.theirs) && is_ours))
}

/// Whether nothing is left to ask: a merge that is given follows a rule, or one can.
fn is_settled(forests: &RankedForests<'_>, roots: &Roots<'_>, given: bool) -> bool
    requires within { RootsWithin forests.now roots.now }
    ensures { result ≡ settled given (stream (documents forests.now roots.now.base.now)) (stream (documents forests.now roots.now.ours.now)) (stream (documents forests.now roots.now.theirs.now)) (stream (documents forests.now roots.now.merge.now)) }
{
    if given {
        is_followed(forests, roots)
    } else {
        has_rule(forests, roots)
    }
}

/// Whether all four have equally many documents.
fn are_paired(forests: &RankedForests<'_>, roots: &Roots<'_>) -> bool
    ensures { result ≡ are_paired (documents forests.now roots.now.base.now) (documents forests.now roots.now.ours.now) (documents forests.now roots.now.theirs.now) (documents forests.now roots.now.merge.now) }
{
    are_long(forests, roots.base, roots.ours)
        && (are_long(forests, roots.base, roots.theirs)
            && are_long(forests, roots.base, roots.merge))
}

/// The places of the documents at one place: each is one value, unless it is alone in its stream.
fn of_document(
    alloc: Global,
    forests: &RankedForests<'_>,
    sides: Sides,
    given: bool,
    is_alone: bool,
    room: Room,
) -> Result<Found, AllocError>
    requires within { SidesWithin forests.now sides }
    ensures ok { IfOk result (FindsDocument forests.now given is_alone sides) }
    ensures room { IfOk result (Spends room) }
{
    if is_alone {
        return conflicts(alloc, forests, sides, given, room);
    }
    if rules::is_settled(forests, sides, given) {
        return Ok(none(alloc, room, true));
    }
    if room.is_spent() {
        return Ok(none(alloc, room, false));
    }
    one(alloc, sides, room.without_line())
}

/// The places of the documents, one after another.
fn of_documents(
    alloc: Global,
    forests: &RankedForests<'_>,
    roots: &Roots<'_>,
    given: bool,
    room: Room,
) -> Result<Found, AllocError>
    requires within { RootsWithin forests.now roots.now }
    requires paired { are_paired (documents forests.now roots.now.base.now) (documents forests.now roots.now.ours.now) (documents forests.now roots.now.theirs.now) (documents forests.now roots.now.merge.now) ≡ true }
    ensures ok { IfOk result (FindsDocuments forests.now given (documents forests.now roots.now.base.now) (documents forests.now roots.now.ours.now) (documents forests.now roots.now.theirs.now) (documents forests.now roots.now.merge.now)) }
{
    let is_alone = roots.base.len() == 1;
    let mut found = none(alloc, room, true);
    for place in 0..roots.base.len() {
        let sides = documents(forests, roots, place);
        let more = of_document(alloc, forests, sides, given, is_alone, found.room)?;
        add(&mut found, Step::Document(place), more)?;
    }
    Ok(found)
}

/// The paths of `conflicts` in streams. Documents are taken by their places where all streams have equally many, and of several
/// documents each is one value. A stream is one value where they have not. The only error is want of memory (21).
pub fn stream_conflicts(
    alloc: Global,
    forests: &RankedForests<'_>,
    roots: &Roots<'_>,
    given: bool,
    room: Room,
) -> Result<Outcome, AllocError>
    requires within { RootsWithin forests.now roots.now }
    ensures ok { IfOk result (FindsStreams forests.now given roots.now) }
{
    if are_paired(forests, roots) {
        let found = of_documents(alloc, forests, roots, given, room)?;
        return Ok(Outcome::Documents(found));
    }
    if is_settled(forests, roots, given) {
        return Ok(Outcome::Documents(none(alloc, room, true)));
    }
    Ok(Outcome::Streams)
}
