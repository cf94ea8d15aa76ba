//! Where two streams differ, as a list.
ghost use Rattle.std.specs.Prelude.{◌≡◌, ◌↔◌, true, map, take, drop, [], IfOk};
ghost use Rattle.yaml_definitions.specs.model.Same.{Alike};
ghost use Rattle.yaml_store_rank.specs.Forests.{documents_of, tree};
ghost use Rattle.review_lines.specs.Listed.{ListsFound, ListsStreams};

use crate::diff::{left_out, lines_of};
use crate::lines::Line;
use crate::moved::lines_of_moves;
use crate::search::{lists_none, searched};
use review_folds::kept;
use review_formats::LeftOut;
use review_patterns::Pattern;
use review_places::trace::Traced;
use review_text::options::Diff;
use std::alloc::{AllocError, Global};
use yaml_diff::Found;
use yaml_store_rank::RankedForests;

/// What a comparison lists: its differences, the pairs of items that moved, what is left out, and whether nothing was found.
#[derive(Drop)]
pub struct Listed {
    pub lines: Vec<Line>,
    pub moves: Vec<Line>,
    pub left_out: LeftOut,
    pub same: bool,
}

/// The lines of what was found, as many as are asked for, with places where both sides are given with their traces.
#[tactic(auto, using(crate::proofs::CompareLaws::found_listed))]
fn lines_listed(
    alloc: Global,
    forests: &RankedForests<'_>,
    asked: &Diff<'_>,
    sides: Option<(Traced<'_>, Traced<'_>)>,
    found: &Found,
) -> Result<Listed, AllocError>
    ensures ok { IfOk result (ListsFound forests.now asked.now found.now) }
{
    let lines = lines_of(alloc, forests, &found.list, asked, true, sides)?;
    let room = asked.lines.saturating_sub(lines.len());
    let moves = lines_of_moves(alloc, forests, asked, sides, found, room, false)?;
    let left_out = left_out(found, &lines, &moves);
    Ok(Listed {
        lines,
        moves: moves.lines,
        left_out,
        same: lists_none(found),
    })
}

/// The differences of the first two streams, but for those that are at or below a path that one of the patterns matches, and
/// whether there are none. Without patterns this is so if the streams have equally many documents, pairwise the same. Places are told
/// where both sides are given with their traces.
pub fn list_differences(
    alloc: Global,
    forests: &RankedForests<'_>,
    asked: &Diff<'_>,
    ignored: &[Pattern<'_>],
    sides: Option<(Traced<'_>, Traced<'_>)>,
) -> Result<Listed, AllocError>
    ensures lists { IfOk result (ListsStreams forests.now asked.now ignored.now) }
    ensures same { IfOk result (λ told. ignored.now ≡ [] → ((told.same ≡ true) ↔ Alike (map (tree forests.now) (documents_of forests.now 0)) (map (tree forests.now) (documents_of forests.now 1)))) }
{
    forests.laws();
    let found = searched(alloc, forests, asked, ignored)?;
    let kept = kept(alloc, forests, ignored, found)?;
    lines_listed(alloc, forests, asked, sides, &kept)
}
