//! The differences and moves of two streams.
ghost use Rattle.std.specs.Prelude.{◌≡◌, ◌&&◌, ◌==◌, [], true, length, IfOk};
ghost use Rattle.yaml_diff.specs.Found.{moves_of};
ghost use Rattle.review_lines.specs.Searched.{has_high, least_room, search_room, FindsStreams, Searches};

use review_patterns::Pattern;
use review_text::options::Diff;
use std::alloc::{AllocError, Global};
use yaml_diff::{Found, stream_differences};
use yaml_pair::Asked;
use yaml_store_rank::RankedForests;

/// The keys of texts, in each of which commas part them.
fn keys_of<'a>(alloc: Global, texts: &[&'a str]) -> Result<Vec<&'a str>, AllocError> {
    let mut keys = Vec::new(alloc);
    for text in texts {
        for key in text.split(',') {
            if !key.is_empty() {
                keys.push(key)?;
            }
        }
    }
    Ok(keys)
}

/// The differences and moves of two streams, at most so many.
fn list_of(
    alloc: Global,
    forests: &RankedForests<'_>,
    asked: &Diff<'_>,
    room: usize,
) -> Result<Found, AllocError>
    ensures ok { IfOk result (FindsStreams forests.now room) }
    ensures calm { asked.now.by_position ≡ true → IfOk result (λ found. moves_of found ≡ []) }
{
    forests.laws();
    let (lefts, rights) = (forests.documents(0), forests.documents(1));
    let by = keys_of(alloc, asked.by)?;
    let asked = Asked {
        by_position: asked.by_position,
        by: &by,
    };
    stream_differences(alloc, forests, lefts, rights, asked, room)
}

/// How many differences and moves are looked for, at least.
const SEARCHED: usize = 100_000;

/// How many where some are left out, at least.
const IGNORED: usize = 1_000_000;

/// How many in either case, at least, where a document is high. Each has a path, whose steps take memory.
const FEW: usize = 10_000;

/// The greatest height of a document that is not high.
const LOW: u16 = 100;

/// Whether a document of a stream is high.
fn has_high(forests: &RankedForests<'_>, stream: usize) -> bool
    ensures { result ≡ has_high forests.now stream }
{
    forests.laws();
    let roots = forests.documents(stream);
    for root in roots {
        if forests.height(*root) > LOW {
            return true;
        }
    }
    false
}

/// So many, but few where a document is high.
fn least_room(forests: &RankedForests<'_>, many: usize) -> usize
    ensures { result ≡ least_room forests.now many }
{
    if has_high(forests, 0) || has_high(forests, 1) {
        FEW
    } else {
        many
    }
}

/// How many differences and moves are looked for: as many as lines are asked for, or more.
fn search_room(forests: &RankedForests<'_>, ignored: &[Pattern<'_>], lines: usize) -> usize
    ensures { result ≡ search_room forests.now ignored.now lines }
{
    let many = if ignored.is_empty() {
        SEARCHED
    } else {
        IGNORED
    };
    least_room(forests, many).max(lines)
}

/// The differences and moves of two streams.
pub(crate) fn searched(
    alloc: Global,
    forests: &RankedForests<'_>,
    asked: &Diff<'_>,
    ignored: &[Pattern<'_>],
) -> Result<Found, AllocError>
    ensures ok { IfOk result (Searches forests.now ignored.now asked.now) }
{
    let room = search_room(forests, ignored, asked.lines);
    list_of(alloc, forests, asked, room)
}

/// Whether all differences and moves were found, and there is none.
pub(crate) fn lists_none(found: &Found) -> bool
    ensures { result ≡ ((found.now.whole && (length found.now.list.items == 0)) && (length found.now.moves.items == 0)) }
{
    found.whole && found.list.len() == 0 && found.moves.len() == 0
}
