//! Whether two streams are the same.
ghost use Rattle.std.specs.Prelude.{◌≡◌, ◌↔◌, ◌⊎◌, ℕ, List, true, IfOk, IfErr, MatchResult};
ghost use Rattle.std.specs.Result.{IsErrAnd};
ghost use Rattle.yaml_definitions.specs.model.Text.{Text};
ghost use Rattle.yaml_text.specs.Refused.{RefusesText};
ghost use Rattle.yaml_definitions.specs.model.Same.{Alike};
ghost use Rattle.yaml_definitions.specs.model.Tree.{Tree};
ghost use Rattle.yaml_definitions.specs.model.Proper.{Admitted};
ghost use Rattle.yaml_definitions.specs.model.Means.{Means};
ghost use Rattle.yaml_text.specs.declared.side.Side.TheVariants.{Left, Right};
ghost use Rattle.yaml_canon.specs.FaultPlaces.{TellsSidesPlace};
ghost use Rattle.yaml_canon.specs.Comparing.{Compares, ComparerRefuses};
ghost use Rattle.yaml_canon.specs.Accepting.{IsSpelling, IsMemory, TellsTexts};

use crate::same_ranks::have_same_ranks;
use std::alloc::Global;
use yaml_text::Side;
use yaml_text::fault::Fault;

/// Whether two streams have equally many documents that are pairwise equal: aliases replaced, mappings as sets of entries,
/// scalars by tag and content. If both have a canonical text, they are the same exactly if the texts are.
///
/// # Errors
/// An error names the side. It is one of `canonical`'s except 20. First the left side is checked alone (1 to 18), then the right
/// one. Then the keys of both are checked (19): the error names the lower mapping with equal keys, or the left one. Want of
/// memory after both sides were read names the left side. If both sides mean admitted documents, the only error is want of
/// memory.
pub fn same<'a>(alloc: Global, left: &'a [u8], right: &'a [u8]) -> Result<bool, (Side, Fault)>
    ensures answer { IfOk result (λ answer. Compares left.now right.now answer) }
    ensures texts { IfOk result (TellsTexts left.now right.now) }
    ensures refused { IfErr result (λ refusal. ComparerRefuses left.now right.now refusal.0 refusal.1) }
    ensures accepts { (f g : List Tree) → Admitted f → Admitted g → Means left.now f → Means right.now g → MatchResult result (λ answer. (answer ≡ true) ↔ Alike f g) (λ refusal. IsMemory refusal.1) }
    ensures spellings { (f g : List Tree) → Admitted f → Admitted g → IsSpelling left.now f → IsSpelling right.now g → MatchResult result (λ answer. (answer ≡ true) ↔ Alike f g) (λ refusal. IsMemory refusal.1) }
    ensures no_left_text { ((cs : List ℕ) → Text left.now cs → ⊥) → IsErrAnd result (λ refusal. (refusal.0 ≡ Left) × RefusesText left.now refusal.1) }
    ensures no_right_text { ((cs : List ℕ) → Text right.now cs → ⊥) → IsErrAnd result (λ refusal. (refusal.0 ≡ Left) ⊎ ((refusal.0 ≡ Right) × RefusesText right.now refusal.1)) }
    ensures placed { IfErr result (λ refusal. TellsSidesPlace left.now right.now refusal.0 refusal.1) }
{
    have_same_ranks(alloc, left, right)
}
