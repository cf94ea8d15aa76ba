//! The values of the stream in these bytes.
ghost use Rattle.std.specs.Prelude.{List, IfOk, IfErr, MatchResult};
ghost use Rattle.yaml_definitions.specs.model.Tree.{Tree};
ghost use Rattle.yaml_definitions.specs.model.Proper.{Admitted};
ghost use Rattle.yaml_definitions.specs.model.Means.{Means};
ghost use Rattle.yaml_canon.specs.Accepting.{IsMemory};
ghost use Rattle.yaml_canon.specs.Claims.{CanonicalRefuses};
ghost use Rattle.yaml_values.specs.ValuesOf.{AreValuesOf, AreValues};

use crate::Values;
use crate::making::values_of;
use std::alloc::Global;
use yaml_canon::laws::nothing_else_is_refused;
use yaml_canon::ranked_forest;
use yaml_text::fault::Fault;

/// The values of the stream in these bytes: one for each different node, each behind its parts, and in the canonical order. Contents are
/// canonical, and the entries of a mapping are in the order of their keys.
///
/// # Errors
/// Those of `canonical`, but a stream is not rejected because its canonical text is too long.
pub fn values(alloc: Global, bytes: &[u8]) -> Result<Values, Fault>
    ensures values { IfOk result (AreValuesOf bytes.now) }
    ensures refused { IfErr result (CanonicalRefuses bytes.now) }
    ensures accepts { (f : List Tree) → Admitted f → Means bytes.now f → MatchResult result (AreValues f) IsMemory }
{
    nothing_else_is_refused();
    let forest = ranked_forest(alloc, bytes)?;
    match values_of(alloc, &forest.ranked, &forest.roots) {
        Ok(values) => Ok(values),
        Err(_) => Err(Fault::OutOfMemory),
    }
}
