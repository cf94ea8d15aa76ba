//! The lines of differences as JSON.
ghost use Rattle.std.specs.Prelude.{◌≡◌, ◌↔◌, List, true, string_bytes, IfOk, IfErr, MatchResult};
ghost use Rattle.yaml_definitions.specs.model.Same.{Alike};
ghost use Rattle.yaml_definitions.specs.model.Tree.{Tree};
ghost use Rattle.yaml_definitions.specs.model.Proper.{Admitted};
ghost use Rattle.yaml_definitions.specs.model.Means.{Means};
ghost use Rattle.yaml_canon.specs.Accepting.{IsMemory};
ghost use Rattle.yaml_canon.specs.Comparing.{Compares, ComparerRefuses};
ghost use Rattle.yaml_canon.specs.FaultPlaces.{TellsSidesPlace};
ghost use Rattle.review_compare.specs.Json.{AsksJson, JsonLines};

use crate::both::compare_sides;
use review_lines::Compared;
use review_text::options::{Diff, Form, Paths};
use std::alloc::Global;
use yaml_canon::{Side, same};
use yaml_text::fault::Fault;

/// What `diff --format=json` asks for, of so many lines. No line has the name of a file.
fn asked_json(lines: usize) -> Diff<'static>
    ensures { AsksJson lines result }
{
    Diff {
        left: "",
        right: "",
        places: true,
        whole: false,
        lines,
        form: Form::Json,
        context: 0,
        color: false,
        stat: false,
        by_position: false,
        by: &[],
        folds: false,
        paths: Paths::Plain,
    }
}

/// Why two streams have no lines: what `same` rejects, or else want of memory.
fn refusal_of(alloc: Global, left: &[u8], right: &[u8]) -> (Side, Fault)
    ensures refused { ComparerRefuses left.now right.now result.0 result.1 }
    ensures placed { TellsSidesPlace left.now right.now result.0 result.1 }
    ensures accepts { (f g : List Tree) → Admitted f → Admitted g → Means left.now f → Means right.now g → IsMemory result.1 }
{
    match same(alloc, left, right) {
        Ok(_) => (Side::Left, Fault::OutOfMemory),
        Err(refusal) => refusal,
    }
}

/// Where two streams differ, as `yamlreview diff --format=json` prints it: a JSON object on a line for each difference and then for each
/// item that moved, at most so many, and behind them one of the kind `more` if there are more. And whether the streams are the same.
///
/// # Errors
/// Those of `same`. If both sides mean admitted documents, the only error is want of memory.
pub fn diff_json(
    alloc: Global,
    left: &[u8],
    right: &[u8],
    lines: usize,
) -> Result<Compared, (Side, Fault)>
    ensures same { IfOk result (λ told. Compares left.now right.now told.same) }
    ensures lines { IfOk result (λ told. JsonLines left.now right.now lines told.same (string_bytes told.text)) }
    ensures refused { IfErr result (λ refusal. ComparerRefuses left.now right.now refusal.0 refusal.1) }
    ensures placed { IfErr result (λ refusal. TellsSidesPlace left.now right.now refusal.0 refusal.1) }
    ensures accepts { (f g : List Tree) → Admitted f → Admitted g → Means left.now f → Means right.now g → MatchResult result (λ told. (told.same ≡ true) ↔ Alike f g) (λ refusal. IsMemory refusal.1) }
{
    match compare_sides(alloc, &asked_json(lines), &[], left, right) {
        Ok(told) => Ok(told),
        Err(_) => Err(refusal_of(alloc, left, right)),
    }
}
