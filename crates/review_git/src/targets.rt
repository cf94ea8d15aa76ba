//! What a link or a submodule was and is.
ghost use Rattle.std.specs.Prelude.{◌≡◌, ◌==◌, ◌++◌, ℕ, List, OnOk, string_bytes, IfErr};
ghost use Rattle.std.specs.List.{before_first};
ghost use Rattle.yaml_definitions.specs.grammar.Characters.{b-line-feed};
ghost use Rattle.review_git.specs.Files.{IsBehind, IsTarget, targets_line, TellsTargets, TellsBothTargets};
ghost use Rattle.review_git.specs.Texts.{OfTargets};

use crate::asked::Pair;
use crate::differences::{both_of, named, put_unread};
use review_files::files::read_file;
use review_files::rejected::Named;
use review_text::put_shown;
use std::alloc::{AllocError, Global};
use std::str;
use yaml_command::shelf::Shelf;
use yaml_text::fault::Fault;

/// What the one line of a submodule's text begins with.
const COMMIT: &str = "Subproject commit ";

/// The first line of a text.
fn line_of(text: &str) -> &str
    ensures { result.now ≡ before_first (λ b. b == b-line-feed) text.now }
{
    match text.split_once('\n') {
        Some((line, _)) => line,
        None => text,
    }
}

/// The same without the words that git puts before a commit.
fn behind_commit(line: &str) -> &str
    ensures { IsBehind line.now result.now }
{
    match line.strip_prefix(COMMIT) {
        Some(commit) => commit,
        None => line,
    }
}

/// Where a link leads, or the commit of a submodule; nothing if that is not UTF-8.
fn target_of(bytes: &[u8]) -> &str
    ensures { IsTarget bytes.now result.now }
{
    match str::from_utf8(bytes) {
        Ok(text) => behind_commit(line_of(text)),
        Err(_) => "",
    }
}

/// Writes what a link or a submodule was and is, if these are different.
fn put_line(out: &mut String, words: &str, old: &str, new: &str) -> Result<(), AllocError>
    ensures ok { OnOk result (string_bytes out.new ≡ string_bytes out.old ++ targets_line words.now old.now new.now) }
{
    if old == new {
        return Ok(());
    }
    out.push_str(words)?;
    put_shown(out, old)?;
    out.push_str(" -> ")?;
    put_shown(out, new)?;
    out.push_str("\n")?;
    Ok(())
}

/// Writes what two of them hold; or why not both are read.
fn put_both(
    alloc: Global,
    out: &mut String,
    words: &str,
    left: Named<'_>,
    right: Named<'_>,
) -> Result<(), Fault>
    ensures ok { OnOk result ((text : List ℕ) × (string_bytes out.new ≡ string_bytes out.old ++ text) × TellsBothTargets words.now left.entry right.entry text) }
    ensures err { IfErr result (λ fault. fault ≡ Fault.OutOfMemory) }
{
    match both_of(left, right) {
        Some((first, second)) => Ok(put_line(out, words, target_of(first), target_of(second))?),
        None => put_unread(alloc, out, left, right),
    }
}

/// Writes what a link or a submodule was and is.
pub(crate) fn put_targets<S: Shelf>(
    shelf: &S,
    alloc: Global,
    out: &mut String,
    words: &str,
    pair: Pair<'_>,
) -> Result<(), Fault>
    ensures ok { OnOk result ((text : List ℕ) × (string_bytes out.new ≡ string_bytes out.old ++ text) × OfTargets (S.holds shelf.now) words.now pair.entry text) }
    ensures err { IfErr result (λ fault. fault ≡ Fault.OutOfMemory) }
{
    let left = read_file(shelf, alloc, pair.left.file);
    let right = read_file(shelf, alloc, pair.right.file);
    let first = named(pair.left.file, &left);
    let second = named(pair.right.file, &right);
    put_both(alloc, out, words, first, second)
}
