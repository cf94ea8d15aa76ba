//! Whether two streams are the same, by the ranks of their nodes in one store.
ghost use Rattle.std.specs.Prelude.{IfOk, IfErr};
ghost use Rattle.yaml_canon.specs.Refused.{RefusesSide};
ghost use Rattle.yaml_canon.specs.Comparing.{Compares};

use crate::both::ranked_both;
use std::alloc::Global;
use yaml_text::Side;
use yaml_text::fault::Fault;

/// Whether two streams have equally many roots, of the same ranks. A fault names the side.
pub(crate) fn have_same_ranks(
    alloc: Global,
    left: &[u8],
    right: &[u8],
) -> Result<bool, (Side, Fault)>
    ensures answer { IfOk result (Compares left.now right.now) }
    ensures why { IfErr result (λ refusal. RefusesSide left.now right.now refusal.0 refusal.1) }
{
    let both = ranked_both(alloc, left, right)?;
    let (first, second) = both.forest.roots.split_at(both.middle);
    Ok(first == second)
}
