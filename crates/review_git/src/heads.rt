//! The lines before the differences: which file, which modes, which path it had.
ghost use Rattle.std.specs.Prelude.{◌≡◌, ◌++◌, ℕ, List, OnOk, MatchBool, codes, string_bytes};
ghost use Rattle.review_git.specs.Sides.{kind_note, mode_text, alone_line, modes_line, HasLine, IsChange};
ghost use Rattle.review_git.specs.Heads.{name_line, IsRenamedLine};

use crate::asked::{Kind, Pair, Side};
use review_text::put_shown;
use std::alloc::AllocError;

/// The mode of a file that is not executable.
const PLAIN: &str = "100644";

/// What a line of git on a copy begins with.
const COPY: &str = "copy from ";

/// The same behind another line.
const COPY_BEHIND: &str = "\ncopy from ";

/// Writes the name of a pair.
pub(crate) fn put_name(out: &mut String, pair: Pair<'_>) -> Result<(), AllocError>
    ensures ok { OnOk result (string_bytes out.new ≡ string_bytes out.old ++ name_line pair.entry) }
{
    out.push_str("diff ")?;
    put_shown(out, pair.path)?;
    if let Some((renamed, _)) = pair.renamed {
        out.push_str(" -> ")?;
        put_shown(out, renamed)?;
    }
    out.push_str("\n")?;
    Ok(())
}

/// What a mode stands for where that is no file.
fn note_of(kind: Kind) -> &'static str
    ensures { result.now ≡ kind_note kind }
{
    match kind {
        Kind::Link => " (symbolic link)",
        Kind::Submodule => " (submodule)",
        Kind::File | Kind::None => "",
    }
}

/// Writes a mode, and what it stands for where that is no file.
fn put_mode(out: &mut String, side: Side<'_>) -> Result<(), AllocError>
    ensures ok { OnOk result (string_bytes out.new ≡ string_bytes out.old ++ mode_text side.entry.mode.now) }
{
    put_shown(out, side.mode)?;
    out.push_str(note_of(side.kind()))?;
    Ok(())
}

/// Writes that a side is the only one, with its mode unless it is that of most files.
pub(crate) fn put_alone(out: &mut String, words: &str, side: Side<'_>) -> Result<(), AllocError>
    ensures ok { OnOk result (string_bytes out.new ≡ string_bytes out.old ++ alone_line words.now side.entry.mode.now) }
{
    out.push_str(words)?;
    if side.mode != PLAIN {
        out.push_str(", mode ")?;
        put_mode(out, side)?;
    }
    out.push_str("\n")?;
    Ok(())
}

/// Writes which mode was changed, if one was.
pub(crate) fn put_modes(out: &mut String, pair: Pair<'_>) -> Result<(), AllocError>
    ensures ok { OnOk result (string_bytes out.new ≡ string_bytes out.old ++ modes_line pair.entry.left.mode.now pair.entry.right.mode.now) }
{
    if pair.left.mode == pair.right.mode {
        return Ok(());
    }
    out.push_str("mode ")?;
    put_mode(out, pair.left)?;
    out.push_str(" -> ")?;
    put_mode(out, pair.right)?;
    out.push_str("\n")?;
    Ok(())
}

/// Whether git's lines on a file say that it is a copy.
fn is_copy(lines: &str) -> bool
    ensures { MatchBool result (HasLine (codes "copy from ") lines.now) (HasLine (codes "copy from ") lines.now → ⊥) }
{
    lines.starts_with(COPY) || lines.contains(COPY_BEHIND)
}

/// What is said of a file that was renamed or copied, by git's lines on it.
fn words_of(lines: &str) -> &'static str
    ensures { IsChange lines.now result.now }
{
    if is_copy(lines) {
        "copied from "
    } else {
        "renamed from "
    }
}

/// Writes from which path a file was renamed or copied, if it was.
pub(crate) fn put_renamed(out: &mut String, pair: Pair<'_>) -> Result<(), AllocError>
    ensures ok { OnOk result ((line : List ℕ) × (string_bytes out.new ≡ string_bytes out.old ++ line) × IsRenamedLine pair.entry line) }
{
    let Some((_, lines)) = pair.renamed else {
        return Ok(());
    };
    out.push_str(words_of(lines))?;
    put_shown(out, pair.path)?;
    out.push_str("\n")?;
    Ok(())
}
