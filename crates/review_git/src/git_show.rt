//! The changed lines of what `show` writes of two files.
ghost use Rattle.std.specs.Prelude.{◌≡◌, ◌++◌, ℕ, List, Some, IfOk, IfErr, OnOk, option_map, codes, string_bytes};
ghost use Rattle.review_git.specs.Shown.{IsShownFile, side_lines, TellsChanges, TellsShown};

use crate::put_unshown;
use review_text::put_shown;
use std::alloc::{AllocError, Global};
use yaml_show::{Unshown, show};
use yaml_text::fault::Fault;
use yaml_unified::{put_unified, script_of};

/// How many lines are printed before and behind changed ones, as git does.
const CONTEXT: usize = 3;

/// What `show` writes of a file; none if it is rejected, and then it is written why.
#[tactic(auto, using(crate::proofs::MemoryLaws::shown_memory))]
fn shown_of(alloc: Global, out: &mut String, file: (&str, &[u8])) -> Result<Option<String>, Fault>
    ensures ok { IfOk result (λ shown. (text : List ℕ) × (string_bytes out.new ≡ string_bytes out.old ++ text) × IsShownFile file.entry.0.now file.entry.1.now (option_map string_bytes shown) text) }
    ensures err { IfErr result (λ fault. fault ≡ Fault.OutOfMemory) }
{
    match show(alloc, file.1) {
        Ok(text) => Ok(Some(text)),
        Err(Fault::OutOfMemory) => Err(Fault::OutOfMemory),
        Err(fault) => {
            let mut why = String::new(alloc);
            put_unshown(alloc, &mut why, file.0, file.1, Unshown::Rejected(fault))?;
            out.push_str(why.as_str())?;
            Ok(None)
        }
    }
}

/// Writes the lines with the names of both sides.
fn put_sides(out: &mut String, left: &str, right: &str) -> Result<(), AllocError>
    ensures ok { OnOk result (string_bytes out.new ≡ string_bytes out.old ++ side_lines left.now right.now) }
{
    out.push_str("--- ")?;
    put_shown(out, left)?;
    out.push_str("\n+++ ")?;
    put_shown(out, right)?;
    out.push_str("\n")?;
    Ok(())
}

/// Writes the changed lines of two texts as a unified diff, behind the names of both sides. It writes nothing if the texts are equal.
fn put_changes(
    alloc: Global,
    out: &mut String,
    names: (&str, &str),
    old: &str,
    new: &str,
) -> Result<(), AllocError>
    ensures ok { OnOk result ((text : List ℕ) × (string_bytes out.new ≡ string_bytes out.old ++ text) × TellsChanges names.entry.0.now names.entry.1.now (Some old.now) (Some new.now) text) }
{
    if old == new {
        return Ok(());
    }
    put_sides(out, names.0, names.1)?;
    let edits = script_of(alloc, old, new)?;
    put_unified(out, &edits, CONTEXT)?;
    Ok(())
}

/// The same of texts of which either may be missing. Nothing is written then.
fn put_both(
    alloc: Global,
    out: &mut String,
    names: (&str, &str),
    old: &Option<String>,
    new: &Option<String>,
) -> Result<(), AllocError>
    ensures ok { OnOk result ((text : List ℕ) × (string_bytes out.new ≡ string_bytes out.old ++ text) × TellsChanges names.entry.0.now names.entry.1.now (option_map string_bytes old.now) (option_map string_bytes new.now) text) }
{
    match old {
        Some(old) => match new {
            Some(new) => put_changes(alloc, out, names, old.as_str(), new.as_str()),
            None => Ok(()),
        },
        None => Ok(()),
    }
}

/// Writes the changed lines of what `show` writes of two files, given by their names and bytes, as a unified diff; or why a file is
/// rejected. It writes nothing if the texts are equal.
pub(crate) fn put_shown_lines(
    alloc: Global,
    out: &mut String,
    left: (&str, &[u8]),
    right: (&str, &[u8]),
) -> Result<(), Fault>
    ensures ok { OnOk result ((text : List ℕ) × (string_bytes out.new ≡ string_bytes out.old ++ text) × TellsShown left.entry.0.now right.entry.0.now left.entry.1.now right.entry.1.now text) }
    ensures err { IfErr result (λ fault. fault ≡ Fault.OutOfMemory) }
{
    let old = shown_of(alloc, out, left)?;
    let new = shown_of(alloc, out, right)?;
    put_both(alloc, out, (left.0, right.0), &old, &new)?;
    Ok(())
}
