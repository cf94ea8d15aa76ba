//! Where the canonical text of a stream goes, and how it is written there.
ghost use Rattle.std.specs.Prelude.{ℕ, List, map, IfOk, IfErr};
ghost use Rattle.std.specs.Result.{IsErrAnd};
ghost use Rattle.yaml_definitions.specs.model.Text.{Text};
ghost use Rattle.yaml_text.specs.Refused.{RefusesText};
ghost use Rattle.yaml_spell.specs.RankedNodes.{Rooted, tree_of};
ghost use Rattle.yaml_canon.specs.FaultPlaces.{TellsPlace};
ghost use Rattle.yaml_canon.specs.Targets.{PutsArranged, ArrangedFails, PutsCanonical, PutFails};

use crate::ranks::ranked_forest;
use crate::spelled_ranks::SpelledRanks;
use std::alloc::Global;
use yaml_spell::ranked::RankedNodes;
use yaml_text::fault::Fault;

/// Where the canonical text of a stream goes: a new string, a caller's buffer, or a writer.
pub(crate) trait Target {
    /// What is answered once the whole text is there.
    type Answer;

    // It is the same target, and not another one in its place.
    ghost same: { Self → Self → Type 0 };

    // A text can be put there.
    ghost ready: { Self → Type 0 };

    // This text was put there, and that was answered.
    ghost took: { Self → List ℕ → Self → Self.Answer → Type 0 };

    // A beginning of this text was put there, and then writing failed.
    ghost broke: { Self → List ℕ → Self → Type 0 };

    /// Puts the text of the documents of these roots there.
    fn put<I: Copy, V: RankedNodes<I>>(
        &mut self,
        alloc: Global,
        view: &V,
        roots: &[I],
    ) -> Result<Self::Answer, Fault>
        requires rooted { Rooted V.stands V.count V.number view.now roots.now }
        requires ready { ready self.old }
        ensures ok { IfOk result (PutsArranged took (map (tree_of V.tree V.number view.now) roots.now) self.old self.new) }
        ensures err { IfErr result (ArrangedFails broke (map (tree_of V.tree V.number view.now) roots.now) self.old self.new) }
        ensures same { same self.old self.new };

    ghost stays: { (target : Self) → same target target };
}

/// Writes the canonical text of the stream that these bytes are into a target.
///
/// What is rejected is rejected before the first byte of the text is written, except for a writer that fails (23).
pub(crate) fn spell_stream<T: Target>(
    alloc: Global,
    bytes: &[u8],
    target: &mut T,
) -> Result<T::Answer, Fault>
    requires { T.ready target.old }
    ensures ok { IfOk result (PutsCanonical T.took bytes.now target.old target.new) }
    ensures err { IfErr result (PutFails T.broke bytes.now target.old target.new) }
    ensures no_text { ((cs : List ℕ) → Text bytes.now cs → ⊥) → IsErrAnd result (RefusesText bytes.now) }
    ensures placed { IfErr result (TellsPlace bytes.now) }
    ensures same { T.same target.old target.new }
{
    let forest = ranked_forest(alloc, bytes)?;
    let ranks = SpelledRanks::new(alloc, &forest.ranked)?;
    target.put(alloc, &ranks, &forest.roots)
}
