//! What is printed of what git passes to an external diff.
ghost use Rattle.std.specs.Prelude.{◌≡◌, ◌++◌, ℕ, List, IfOk, OnOk, string_bytes, IfErr};
ghost use Rattle.review_git.specs.Sides.{kind_of};
ghost use Rattle.review_git.specs.Texts.{or_same, unmerged_text, OfKinds, OfBoth, OfSides, OfPair, WritesPair, GitWrites};

use crate::asked::{GitAsked, Kind, Pair, are_equal};
use crate::differences::{put_differences, put_new};
use crate::heads::{put_alone, put_modes, put_name, put_renamed};
use crate::targets::put_targets;
use review_text::put_shown;
use std::alloc::Global;
use yaml_command::shelf::Shelf;
use yaml_text::fault::Fault;

/// Writes what two sides of these kinds have differently.
fn put_kinds<S: Shelf>(
    shelf: &S,
    alloc: Global,
    out: &mut String,
    pair: Pair<'_>,
) -> Result<(), Fault>
    ensures ok { OnOk result ((text : List ℕ) × (string_bytes out.new ≡ string_bytes out.old ++ text) × OfKinds (S.holds shelf.now) (kind_of pair.entry.left.mode.now) (kind_of pair.entry.right.mode.now) pair.entry text) }
    ensures err { IfErr result (λ fault. fault ≡ Fault.OutOfMemory) }
{
    match (pair.left.kind(), pair.right.kind()) {
        (Kind::File, Kind::File) => put_differences(shelf, alloc, out, pair),
        (Kind::Link, Kind::Link) => put_targets(shelf, alloc, out, "symbolic link ", pair),
        (Kind::Submodule, Kind::Submodule) => put_targets(shelf, alloc, out, "submodule ", pair),
        _ => Ok(()),
    }
}

/// What is printed of two sides that exist.
fn put_changed<S: Shelf>(
    shelf: &S,
    alloc: Global,
    out: &mut String,
    pair: Pair<'_>,
) -> Result<(), Fault>
    ensures ok { OnOk result ((text : List ℕ) × (string_bytes out.new ≡ string_bytes out.old ++ text) × OfBoth (S.holds shelf.now) pair.entry text) }
    ensures err { IfErr result (λ fault. fault ≡ Fault.OutOfMemory) }
{
    put_modes(out, pair)?;
    put_renamed(out, pair)?;
    if are_equal(pair.left, pair.right) {
        return Ok(());
    }
    put_kinds(shelf, alloc, out, pair)
}

/// Writes what is printed of a pair, without its name.
fn put_pair<S: Shelf>(
    shelf: &S,
    alloc: Global,
    out: &mut String,
    pair: Pair<'_>,
) -> Result<(), Fault>
    ensures ok { OnOk result ((text : List ℕ) × (string_bytes out.new ≡ string_bytes out.old ++ text) × OfSides (S.holds shelf.now) (kind_of pair.entry.left.mode.now) (kind_of pair.entry.right.mode.now) pair.entry text) }
    ensures err { IfErr result (λ fault. fault ≡ Fault.OutOfMemory) }
{
    match pair.left.kind() {
        Kind::None => put_new(shelf, alloc, out, pair),
        Kind::File | Kind::Link | Kind::Submodule => match pair.right.kind() {
            Kind::None => Ok(put_alone(out, "deleted file", pair.left)?),
            Kind::File | Kind::Link | Kind::Submodule => put_changed(shelf, alloc, out, pair),
        },
    }
}

/// Writes what is printed of a pair, or that there is nothing to print.
fn put_pair_or_same<S: Shelf>(
    shelf: &S,
    alloc: Global,
    out: &mut String,
    pair: Pair<'_>,
) -> Result<(), Fault>
    ensures ok { OnOk result ((text : List ℕ) × (string_bytes out.new ≡ string_bytes out.old ++ text) × OfPair (S.holds shelf.now) pair.entry text) }
    ensures err { IfErr result (λ fault. fault ≡ Fault.OutOfMemory) }
{
    let mut text = String::new(alloc);
    put_pair(shelf, alloc, &mut text, pair)?;
    out.push_str(or_same(text.as_str()))?;
    Ok(())
}

/// A text, or the line that there is none.
fn or_same(text: &str) -> &str
    ensures { result.now ≡ or_same text.now }
{
    if text.is_empty() { "same\n" } else { text }
}

/// What is printed of a path that is not merged.
fn unmerged_text(alloc: Global, path: &str) -> Result<String, Fault>
    ensures ok { IfOk result (λ text. string_bytes text ≡ unmerged_text path.now) }
    ensures err { IfErr result (λ fault. fault ≡ Fault.OutOfMemory) }
{
    let mut out = String::new(alloc);
    out.push_str("diff ")?;
    put_shown(&mut out, path)?;
    out.push_str("\nnot merged\n")?;
    Ok(out)
}

/// What is printed of a changed file, from its name on.
fn changed_text<S: Shelf>(shelf: &S, alloc: Global, pair: Pair<'_>) -> Result<String, Fault>
    ensures ok { IfOk result (λ text. WritesPair (S.holds shelf.now) pair.entry (string_bytes text)) }
    ensures err { IfErr result (λ fault. fault ≡ Fault.OutOfMemory) }
{
    let mut out = String::new(alloc);
    put_name(&mut out, pair)?;
    put_pair_or_same(shelf, alloc, &mut out, pair)?;
    Ok(out)
}

/// What is printed of what git asks for. A side that cannot be read or is rejected is reported there.
///
/// # Errors
/// Want of memory.
pub fn git_text<S: Shelf>(shelf: &S, alloc: Global, asked: GitAsked<'_>) -> Result<String, Fault>
    ensures ok { IfOk result (λ text. GitWrites (S.holds shelf.now) asked.entry (string_bytes text)) }
    ensures err { IfErr result (λ fault. fault ≡ Fault.OutOfMemory) }
{
    match asked {
        GitAsked::Unmerged(path) => unmerged_text(alloc, path),
        GitAsked::Changed(pair) => changed_text(shelf, alloc, pair),
    }
}
