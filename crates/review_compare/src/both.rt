//! Two streams in one store, ranked.
ghost use Rattle.std.specs.Prelude.{◌≡◌, ◌∷◌, ℕ, List, [], IfOk, IfErr, IfSome, IfNone, string_bytes};
ghost use Rattle.yaml_definitions.specs.model.Tree.{Tree};
ghost use Rattle.yaml_definitions.specs.model.Proper.{Admitted};
ghost use Rattle.yaml_definitions.specs.model.Means.{Means};
ghost use Rattle.yaml_canon.specs.Accepting.{IsMemory};
ghost use Rattle.yaml_canon.specs.Claims.{IsCanonicalText, CanonicalRefuses};
ghost use Rattle.yaml_canon.specs.FaultPlaces.{TellsPlace};
ghost use Rattle.yaml_canon.specs.Comparing.{Compares};
ghost use Rattle.yaml_canon.specs.Written.{ShowsStreams};
ghost use Rattle.review_compare.specs.Compared.{DiffLines};

use review_lines::{Compared, compare};
use review_patterns::Pattern;
use review_places::trace::{Trace, Traced};
use review_text::options::Diff;
use std::alloc::Global;
use yaml_canon::{Side, canonical_into, ranked_streams, ranked_streams_with};
use yaml_store_rank::RankedForests;
use yaml_text::fault::Fault;

/// The fault of a file that is rejected: that which `canonical` answers. The length of the canonical text is found, and no text made.
pub fn fault_of(alloc: Global, bytes: &[u8]) -> Option<Fault>
    ensures accepted { IfNone result ((text : List ℕ) × IsCanonicalText bytes.now text) }
    ensures rejected { IfSome result (CanonicalRefuses bytes.now) }
    ensures placed { IfSome result (TellsPlace bytes.now) }
    ensures accepts { (f : List Tree) → Admitted f → Means bytes.now f → IfSome result IsMemory }
{
    let mut room = [0u8; 0];
    match canonical_into(alloc, bytes, &mut room) {
        Ok(_) => None,
        Err(fault) => Some(fault),
    }
}

/// The side of the first of two streams, or of the other.
fn side_of(place: usize) -> Side {
    if place == 0 { Side::Left } else { Side::Right }
}

/// The nodes of both streams, ranked, and where it is asked for, a trace of the events that the left one is read to and then of the
/// right one's, with how many there are up to the end of each.
pub(crate) fn ranked_sides<'l>(
    alloc: Global,
    left: &'l [u8],
    right: &[u8],
    traced: bool,
) -> Result<(RankedForests<'l>, Option<(Trace, Vec<usize>)>), Side>
    ensures { IfOk result (λ made. ShowsStreams (left.now ∷ right.now ∷ []) made.0) }
{
    if traced {
        match ranked_streams_with(alloc, left, &[right], Trace::new(alloc)) {
            Ok((forests, trace, ends)) => Ok((forests, Some((trace, ends)))),
            Err(place) => Err(side_of(place)),
        }
    } else {
        match ranked_streams(alloc, left, &[right]) {
            Ok(forests) => Ok((forests, None)),
            Err(place) => Err(side_of(place)),
        }
    }
}

/// Whether a comparison looks for the places of nodes: to tell them, or to find those that have one cause.
pub(crate) fn is_traced(asked: &Diff<'_>) -> bool {
    asked.places || asked.folds
}

/// Two streams with their traces, of which one has the events of both.
pub(crate) fn traced_sides<'t>(
    left: &'t [u8],
    right: &'t [u8],
    traced: &'t Option<(Trace, Vec<usize>)>,
) -> Option<(Traced<'t>, Traced<'t>)> {
    let (trace, ends) = traced.as_ref()?;
    let middle = *ends.first()?;
    Some((
        Traced {
            bytes: left,
            trace,
            first: 0,
            end: middle,
        },
        Traced {
            bytes: right,
            trace,
            first: middle,
            end: trace.events.len(),
        },
    ))
}

/// The lines of the differences of two streams, but for those that are at or below a path that one of the patterns matches, and whether
/// there are none: without patterns this is so if the streams are the same.
///
/// # Errors
/// Where a side is rejected or memory is refused: a side to ask first. `fault_of` tells which side is rejected, and why.
pub fn compare_sides(
    alloc: Global,
    asked: &Diff<'_>,
    ignored: &[Pattern<'_>],
    left: &[u8],
    right: &[u8],
) -> Result<Compared, Side>
    ensures same { IfOk result (λ told. ignored.now ≡ [] → Compares left.now right.now told.same) }
    ensures lines { IfOk result (λ told. DiffLines left.now right.now asked.now ignored.now told.same (string_bytes told.text)) }
{
    let (forests, traced) = ranked_sides(alloc, left, right, is_traced(asked))?;
    let sides = traced_sides(left, right, &traced);
    forests.laws();
    match compare(alloc, &forests, asked, ignored, sides) {
        Ok(told) => Ok(told),
        Err(_) => Err(Side::Left),
    }
}
