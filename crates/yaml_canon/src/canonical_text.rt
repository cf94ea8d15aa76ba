//! The canonical text of a stream.
ghost use Rattle.std.specs.Prelude.{◌≡◌, ◌≤◌, ℕ, List, length, map, IfOk, IfErr, MatchResult};
ghost use Rattle.std.specs.Result.{IsErrAnd};
ghost use Rattle.std.specs.String.{string_bytes};
ghost use Rattle.yaml_definitions.specs.model.Text.{Text};
ghost use Rattle.yaml_text.specs.Refused.{RefusesText};
ghost use Rattle.yaml_definitions.specs.model.Limits.{text_limit};
ghost use Rattle.yaml_definitions.specs.model.Tree.{Tree};
ghost use Rattle.yaml_definitions.specs.canonical.Spell.{spell_bytes};
ghost use Rattle.yaml_definitions.specs.model.Proper.{Admitted};
ghost use Rattle.yaml_definitions.specs.model.Means.{Means};
ghost use Rattle.yaml_spell.specs.Documents.{arranged_bytes, RefusesArranged};
ghost use Rattle.yaml_spell.specs.RankedNodes.{Rooted, tree_of};
ghost use Rattle.yaml_canon.specs.Claims.{IsCanonicalText, CanonicalRefuses};
ghost use Rattle.yaml_canon.specs.FaultPlaces.{TellsPlace};
ghost use Rattle.yaml_canon.specs.Accepting.{IsSpelling, IsMemory};

use crate::target::{Target, spell_stream};
use std::alloc::Global;
use yaml_spell::names::Names;
use yaml_spell::ranked::RankedNodes;
use yaml_spell::spell::{ranked_len, write_ranked};
use yaml_spell::whole::Whole;
use yaml_text::fault::Fault;

/// The text of the documents of these roots, for which room is taken once.
fn spelled<I: Copy, V: RankedNodes<I>>(
    alloc: Global,
    view: &V,
    roots: &[I],
) -> Result<String, Fault>
    requires { Rooted V.stands V.count V.number view.now roots.now }
    ensures ok { IfOk result (λ text. string_bytes text ≡ arranged_bytes (map (tree_of V.tree V.number view.now) roots.now)) }
    ensures fits { IfOk result (λ text. length (string_bytes text) ≤ text_limit) }
    ensures err { IfErr result (RefusesArranged (map (tree_of V.tree V.number view.now) roots.now)) }
{
    let mut names = Names::new(alloc, view.len())?;
    let len = ranked_len(view, &mut names, roots)?;
    let mut text = String::with_capacity(alloc, len)?;
    write_ranked(view, &mut names, roots, &mut Whole, &mut text)?;
    Ok(text)
}

/// A new string, which holds the text whole.
#[derive(Drop)]
struct Held;

impl Target for Held {
    ghost use Rattle.std.specs.Prelude.{◌≡◌};
    ghost use Rattle.std.specs.String.{string_bytes};

    type Answer = String;

    ghost same = { λ _ _. Unit {0} };

    ghost ready = { λ _. Unit {0} };

    ghost took = { λ _ text _ answer. string_bytes answer ≡ text };

    ghost broke = { λ _ _ _. ⊥ };

    fn put<I: Copy, V: RankedNodes<I>>(
        &mut self,
        alloc: Global,
        view: &V,
        roots: &[I],
    ) -> Result<String, Fault> {
        spelled(alloc, view, roots)
    }

    ghost stays = { λ _. tt };
}

/// The canonical text of the stream in these bytes.
///
/// # Errors
/// 1 to 3: the bytes are not a text. 4 to 11: the text is not a stream of the profile. 12 to 17: an event has an alias or a tag
/// without a meaning. 18: a document is too high. 19: a mapping has two equal keys. 20: the canonical text would be too long. 21:
/// memory does not suffice. There are no other errors: each stream with admitted documents gets its text, unless memory does not
/// suffice.
pub fn canonical(alloc: Global, bytes: &[u8]) -> Result<String, Fault>
    ensures text { IfOk result (λ text. IsCanonicalText bytes.now (string_bytes text)) }
    ensures refused { IfErr result (CanonicalRefuses bytes.now) }
    ensures no_text { ((cs : List ℕ) → Text bytes.now cs → ⊥) → IsErrAnd result (RefusesText bytes.now) }
    ensures accepts { (f : List Tree) → Admitted f → Means bytes.now f → MatchResult result (λ text. string_bytes text ≡ spell_bytes f) IsMemory }
    ensures spelling { (f : List Tree) → Admitted f → IsSpelling bytes.now f → MatchResult result (λ text. string_bytes text ≡ spell_bytes f) IsMemory }
    ensures placed { IfErr result (TellsPlace bytes.now) }
{
    spell_stream(alloc, bytes, &mut Held)
}
