//! What is shown of a stream.
ghost use Rattle.std.specs.Prelude.{◌≡◌, List, IfOk, IfErr, IfSome, IfNone, string_bytes};
ghost use Rattle.yaml_definitions.specs.model.Tree.{Tree};
ghost use Rattle.yaml_definitions.specs.model.Same.{Alike};
ghost use Rattle.yaml_definitions.specs.model.Proper.{Admitted};
ghost use Rattle.yaml_definitions.specs.model.Means.{Means};
ghost use Rattle.yaml_show.specs.Alike.{MeanAlike};
ghost use Rattle.yaml_show.specs.Lines.{LinesOf};
ghost use Rattle.yaml_show.specs.Refused.{RefusesBy, ShowRefuses, AsReadRefuses, SharingRefuses, IsLengthOrMemory, JsonRefuses};
ghost use Rattle.yaml_show.specs.Shows.{written_in, ShowsBy, Shows, ShowsAsRead, ShowsSharing};

use crate::checked_json::are_json_lines;
use crate::checking::is_alike;
use crate::joining::join;
use crate::manner::Manner;
use crate::presenting::{readable_text, written_lines};
use crate::unshown::Unshown;
use std::alloc::Global;
use yaml_canon::canonical;
use yaml_canon::laws::nothing_else_is_refused;
use yaml_text::fault::Fault;

/// What begins a document that is on one line.
const DOCUMENT: &str = "--- ";

/// The readable text of the stream in these bytes, written so, if it is one that means the same.
#[tactic(auto, using(crate::proofs::ShownLaws::memory_shown))]
fn block_shown(alloc: Global, bytes: &[u8], manner: Manner) -> Result<Option<String>, Fault>
    ensures alike { IfOk result (λ shown. IfSome shown (λ text. MeanAlike bytes.now (string_bytes text))) }
    ensures readable { IfOk result (λ shown. IfSome shown (λ text. (f : List Tree) → Means bytes.now f → string_bytes text ≡ written_in manner f)) }
    ensures unlike { IfOk result (λ shown. IfNone shown ((f g : List Tree) → Admitted f → Admitted g → Means bytes.now f → Means (written_in manner f) g → Alike f g → ⊥)) }
    ensures refused { IfErr result (RefusesBy (written_in manner) bytes.now) }
{
    let text = readable_text(alloc, bytes, manner)?;
    match is_alike(alloc, bytes, text.as_str())? {
        true => Ok(Some(text)),
        false => Ok(None),
    }
}

/// The stream in these bytes as readable YAML, written so. If that text did not mean what the bytes mean, the canonical
/// text would take its place.
#[tactic(auto, using(crate::proofs::ShownLaws::canonical_alike, crate::proofs::ShownLaws::refused_shown, crate::proofs::ShownLaws::admitted_shown))]
fn show_in(alloc: Global, bytes: &[u8], manner: Manner) -> Result<String, Fault>
    ensures alike { IfOk result (λ text. MeanAlike bytes.now (string_bytes text)) }
    ensures shown { IfOk result (λ text. ShowsBy (written_in manner) bytes.now (string_bytes text)) }
    ensures refused { IfErr result (RefusesBy (written_in manner) bytes.now) }
    ensures accepts { (f : List Tree) → Admitted f → Means bytes.now f → IfErr result IsLengthOrMemory }
{
    nothing_else_is_refused();
    match block_shown(alloc, bytes, manner)? {
        Some(text) => Ok(text),
        None => canonical(alloc, bytes),
    }
}

/// The stream in these bytes as readable YAML: a line for each entry and item, with aliases written out. If that text did not mean what
/// the bytes mean, the canonical text would take its place; no input is known for which it does. Streams that mean the same
/// are shown as the same bytes.
///
/// # Errors
/// Those of `canonical`. 20 means that the readable text, or the canonical one, would have more than 67,108,864 bytes. If the bytes mean
/// admitted documents, the only errors are 20 and want of memory.
pub fn show(alloc: Global, bytes: &[u8]) -> Result<String, Fault>
    ensures alike { IfOk result (λ text. MeanAlike bytes.now (string_bytes text)) }
    ensures shown { IfOk result (λ text. Shows bytes.now (string_bytes text)) }
    ensures refused { IfErr result (ShowRefuses bytes.now) }
    ensures accepts { (f : List Tree) → Admitted f → Means bytes.now f → IfErr result IsLengthOrMemory }
{
    show_in(alloc, bytes, Manner::ByKey)
}

/// The stream in these bytes as readable YAML, with entries in the order of the source. Streams that mean the same may be shown
/// differently.
///
/// # Errors
/// Those of `show`.
pub fn show_as_read(alloc: Global, bytes: &[u8]) -> Result<String, Fault>
    ensures alike { IfOk result (λ text. MeanAlike bytes.now (string_bytes text)) }
    ensures shown { IfOk result (λ text. ShowsAsRead bytes.now (string_bytes text)) }
    ensures refused { IfErr result (AsReadRefuses bytes.now) }
    ensures accepts { (f : List Tree) → Admitted f → Means bytes.now f → IfErr result IsLengthOrMemory }
{
    show_in(alloc, bytes, Manner::AsRead)
}

/// The stream in these bytes as readable YAML, with the anchors and aliases of its canonical text. Streams that mean the same are shown as
/// the same bytes.
///
/// # Errors
/// Those of `show`.
pub fn show_sharing(alloc: Global, bytes: &[u8]) -> Result<String, Fault>
    ensures alike { IfOk result (λ text. MeanAlike bytes.now (string_bytes text)) }
    ensures shown { IfOk result (λ text. ShowsSharing bytes.now (string_bytes text)) }
    ensures refused { IfErr result (SharingRefuses bytes.now) }
    ensures accepts { (f : List Tree) → Admitted f → Means bytes.now f → IfErr result IsLengthOrMemory }
{
    show_in(alloc, bytes, Manner::Sharing)
}

/// The stream in these bytes as JSON: a line for each document. Streams that mean the same have the same lines.
///
/// # Errors
/// Those of `canonical`, and what JSON cannot express. 20 means that the lines would have more than 67,108,864 bytes, with four more for
/// each.
#[tactic(auto, using(crate::proofs::ShownLaws::memory_lines))]
pub fn show_json(alloc: Global, bytes: &[u8]) -> Result<String, Unshown>
    ensures lines { IfOk result (λ text. LinesOf bytes.now (string_bytes text)) }
    ensures refused { IfErr result (JsonRefuses bytes.now) }
{
    let lines = written_lines(alloc, bytes)?;
    if !are_json_lines(alloc, &lines)? {
        return Err(Unshown::Unlike);
    }
    let stream = join(alloc, DOCUMENT, &lines)?;
    if !is_alike(alloc, bytes, stream.as_str())? {
        return Err(Unshown::Unlike);
    }
    Ok(join(alloc, "", &lines)?)
}
