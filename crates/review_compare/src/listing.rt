//! Where two streams differ, as a list.
ghost use Rattle.std.specs.Prelude.{◌≡◌, [], IfOk};
ghost use Rattle.yaml_canon.specs.Comparing.{Compares};
ghost use Rattle.review_compare.specs.Compared.{DiffLists};

use crate::both::{is_traced, ranked_sides, traced_sides};
use review_lines::{Listed, list_differences};
use review_patterns::Pattern;
use review_text::options::Diff;
use std::alloc::Global;
use yaml_canon::Side;

/// The differences of two streams, but for those that are at or below a path that one of the patterns matches, and whether there are
/// none: without patterns this is so if the streams are the same.
///
/// # Errors
/// Those of `compare_sides`.
pub fn list_sides(
    alloc: Global,
    asked: &Diff<'_>,
    ignored: &[Pattern<'_>],
    left: &[u8],
    right: &[u8],
) -> Result<Listed, Side>
    ensures same { IfOk result (λ told. ignored.now ≡ [] → Compares left.now right.now told.same) }
    ensures lists { IfOk result (DiffLists left.now right.now asked.now ignored.now) }
{
    let (forests, traced) = ranked_sides(alloc, left, right, is_traced(asked))?;
    let sides = traced_sides(left, right, &traced);
    forests.laws();
    match list_differences(alloc, &forests, asked, ignored, sides) {
        Ok(told) => Ok(told),
        Err(_) => Err(Side::Left),
    }
}
