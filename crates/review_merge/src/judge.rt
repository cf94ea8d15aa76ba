//! What is found of four streams.
ghost use Rattle.std.specs.Prelude.{◌≡◌, cond, IfOk};
ghost use Rattle.yaml_conflicts.specs.Streams.{FindsStreams};
ghost use Rattle.review_merge.specs.Merges.{Says};
ghost use Rattle.review_merge.specs.Judged.{verdict, merge_stream, stream_trees, RootsAre};

use std::alloc::Global;
use yaml_conflicts::{Outcome, Room, Roots, stream_conflicts};
use yaml_store_rank::RankedForests;
use yaml_text::fault::Fault;

/// Whether nothing is found, which is known if something is found, or all places were looked at.
pub(crate) fn verdict_of(outcome: &Outcome) -> Option<bool>
    ensures { result ≡ verdict outcome.now }
{
    match outcome {
        Outcome::Streams => Some(false),
        Outcome::Documents(found) => {
            if found.list.len() == 0 {
                if found.whole { Some(true) } else { None }
            } else {
                Some(false)
            }
        }
    }
}

/// The stream that stands in the place of the result: the base, if there is none.
fn merge_stream(given: bool) -> usize
    ensures { result ≡ merge_stream given }
{
    if given { 3 } else { 0 }
}

/// The roots of the base, of ours, of theirs and of the result.
pub(crate) fn roots_of<'f>(forests: &'f RankedForests<'_>, given: bool) -> Roots<'f>
    ensures { RootsAre forests.now given result }
{
    Roots {
        base: forests.documents(0),
        ours: forests.documents(1),
        theirs: forests.documents(2),
        merge: forests.documents(merge_stream(given)),
    }
}

/// Where the streams conflict, or where the result is not the merge.
pub(crate) fn judge(
    alloc: Global,
    forests: &RankedForests<'_>,
    roots: &Roots<'_>,
    given: bool,
    room: Room,
) -> Result<Outcome, Fault>
    requires { RootsAre forests.now given roots.now }
    ensures finds { IfOk result (FindsStreams forests.now given roots.now) }
    ensures says { IfOk result (λ outcome. Says given (stream_trees forests.now 0) (stream_trees forests.now 1) (stream_trees forests.now 2) (stream_trees forests.now 3) (verdict outcome)) }
{
    forests.laws();
    Ok(stream_conflicts(alloc, forests, roots, given, room)?)
}
