//! The canonical text of a stream, in the room that a caller gives for it.
ghost use Rattle.std.specs.Prelude.{◌≡◌, ◌≤◌, ◌++◌, ℕ, List, length, map, drop, OnErr, IfOk, IfErr, IsOk, MatchResult};
ghost use Rattle.std.specs.Result.{IsErrAnd};
ghost use Rattle.yaml_definitions.specs.model.Text.{Text};
ghost use Rattle.yaml_text.specs.Refused.{RefusesText};
ghost use Rattle.yaml_definitions.specs.model.Limits.{text_limit};
ghost use Rattle.yaml_definitions.specs.model.Tree.{Tree};
ghost use Rattle.yaml_definitions.specs.canonical.Spell.{spell_bytes};
ghost use Rattle.yaml_definitions.specs.model.Proper.{Admitted};
ghost use Rattle.yaml_definitions.specs.model.Means.{Means};
ghost use Rattle.yaml_spell.specs.NamesView.{ranks_in};
ghost use Rattle.yaml_spell.specs.Documents.{arranged_bytes, RefusesArranged};
ghost use Rattle.yaml_spell.specs.RankedNodes.{Rooted, tree_of};
ghost use Rattle.yaml_canon.specs.Claims.{CanonicalRefuses};
ghost use Rattle.yaml_canon.specs.FaultPlaces.{TellsPlace};
ghost use Rattle.yaml_canon.specs.Accepting.{IsSpelling, IsMemory};
ghost use Rattle.yaml_text.specs.Rooms.{Places};
ghost use Rattle.yaml_canon.specs.Rooms.{PlacesCanonical};

use crate::target::{Target, spell_stream};
use std::alloc::Global;
use yaml_spell::names::Names;
use yaml_spell::ranked::RankedNodes;
use yaml_spell::room::Room;
use yaml_spell::spell::{ranked_len, write_ranked};
use yaml_text::fault::Fault;

/// Puts the text of the documents of these roots at the start of the room, which is long enough. It
/// takes no memory, and is always done.
fn fill<I: Copy, V: RankedNodes<I>>(
    view: &V,
    names: &mut Names,
    roots: &[I],
    room: &mut [u8],
) -> Result<(), Fault>
    requires rooted { Rooted V.stands V.count V.number view.now roots.now }
    requires long { ranks_in names.old ≡ V.count view.now }
    requires fits { length (arranged_bytes (map (tree_of V.tree V.number view.now) roots.now)) ≤ length room.old }
    ensures done { IsOk result }
    ensures text { room.new ≡ arranged_bytes (map (tree_of V.tree V.number view.now) roots.now) ++ drop (length (arranged_bytes (map (tree_of V.tree V.number view.now) roots.now))) room.old }
{
    let mut text = Room::new(room);
    write_ranked(view, names, roots, &mut text, &mut ())
}

/// Puts the text of the documents of these roots into the room, if that is long enough. The answer
/// is the text's length.
fn place<I: Copy, V: RankedNodes<I>>(
    alloc: Global,
    view: &V,
    roots: &[I],
    room: &mut [u8],
) -> Result<usize, Fault>
    requires { Rooted V.stands V.count V.number view.now roots.now }
    ensures ok { IfOk result (Places (arranged_bytes (map (tree_of V.tree V.number view.now) roots.now)) room.old room.new) }
    ensures fits { IfOk result (λ len. len ≤ text_limit) }
    ensures err { IfErr result (RefusesArranged (map (tree_of V.tree V.number view.now) roots.now)) }
    ensures kept { OnErr result (room.new ≡ room.old) }
{
    let mut names = Names::new(alloc, view.len())?;
    let len = ranked_len(view, &mut names, roots)?;
    if len > room.len() {
        return Ok(len);
    }
    fill(view, &mut names, roots, room)?;
    Ok(len)
}

/// A caller's buffer. Where it is too small, it is left as it is, and the text's length is answered.
#[derive(Drop)]
struct Buffer<'r> {
    room: &'r mut [u8],
}

impl Target for Buffer<'_> {
    ghost use Rattle.std.specs.Prelude.{refl};
    ghost use Rattle.yaml_canon.specs.Rooms.{IsSameRoom, Fills};

    type Answer = usize;

    ghost same = { IsSameRoom };

    ghost ready = { λ _. Unit {0} };

    ghost took = { Fills };

    ghost broke = { λ _ _ _. ⊥ };

    fn put<I: Copy, V: RankedNodes<I>>(
        &mut self,
        alloc: Global,
        view: &V,
        roots: &[I],
    ) -> Result<usize, Fault> {
        place(alloc, view, roots, self.room)
    }

    ghost stays = { λ _. refl };
}

/// Writes the canonical text of the stream in these bytes to the start of a buffer, if that is large enough. Returns the text's
/// length in bytes.
fn place_canonical(alloc: Global, bytes: &[u8], room: &mut [u8]) -> Result<usize, Fault>
    ensures text { IfOk result (PlacesCanonical bytes.now room.old room.new) }
    ensures refused { IfErr result (CanonicalRefuses bytes.now) }
    ensures kept { OnErr result (room.new ≡ room.old) }
    ensures no_text { ((cs : List ℕ) → Text bytes.now cs → ⊥) → IsErrAnd result (RefusesText bytes.now) }
    ensures placed { IfErr result (TellsPlace bytes.now) }
{
    let mut buffer = Buffer { room };
    spell_stream(alloc, bytes, &mut buffer)
}

/// Writes the canonical text of the stream in these bytes to the start of a buffer, and returns the text's length in bytes. If
/// the buffer is too small, it is not changed. Behind the text, the buffer is not changed. The text is held nowhere else.
///
/// # Errors
/// Those of `canonical`. The buffer is then not changed.
pub fn canonical_into(alloc: Global, bytes: &[u8], room: &mut [u8]) -> Result<usize, Fault>
    ensures text { IfOk result (PlacesCanonical bytes.now room.old room.new) }
    ensures refused { IfErr result (CanonicalRefuses bytes.now) }
    ensures kept { OnErr result (room.new ≡ room.old) }
    ensures no_text { ((cs : List ℕ) → Text bytes.now cs → ⊥) → IsErrAnd result (RefusesText bytes.now) }
    ensures accepts { (f : List Tree) → Admitted f → Means bytes.now f → MatchResult result (Places (spell_bytes f) room.old room.new) IsMemory }
    ensures spelling { (f : List Tree) → Admitted f → IsSpelling bytes.now f → MatchResult result (Places (spell_bytes f) room.old room.new) IsMemory }
    ensures placed { IfErr result (TellsPlace bytes.now) }
{
    place_canonical(alloc, bytes, room)
}
