//! What a presenter writes of a stream.
ghost use Rattle.std.specs.Prelude.{◌≡◌, ℕ, List, IfOk, IfErr, map, string_bytes};
ghost use Rattle.yaml_definitions.specs.model.Tree.{Tree};
ghost use Rattle.yaml_definitions.specs.model.Limits.{text_limit};
ghost use Rattle.yaml_definitions.specs.model.Means.{Means};
ghost use Rattle.yaml_spell.specs.RankedNodes.{Rooted, tree_of};
ghost use Rattle.yaml_show.specs.JsonTrees.{Lacks, Overruns};
ghost use Rattle.yaml_show.specs.Lines.{all_have_json, AreTheirs};
ghost use Rattle.yaml_show_scalar.specs.Stops.{Stops};
ghost use Rattle.yaml_show.specs.Refused.{RefusesBy, JsonRefuses, lines_text, fault_of};
ghost use Rattle.yaml_show.specs.Shows.{arranged_by, written_by, written_in};
ghost use Rattle.yaml_show.specs.Layout.{shown_text};

use crate::manner::Manner;
use crate::source::SourceForests;
use crate::unshown::Unshown;
use crate::{Unwritten, block_text, json_lines, sharing_text};
use std::alloc::Global;
use yaml_canon::{SpelledRanks, ranked_forest, ranked_stream};
use yaml_show_scalar::Stop;
use yaml_spell::ranked::RankedNodes;
use yaml_text::fault::Fault;

/// The fault of a text that is not finished.
fn stopped(stop: Stop) -> Fault
    ensures { result ≡ fault_of stop }
{
    match stop {
        Stop::TooLong => Fault::TextTooLong,
        Stop::OutOfMemory => Fault::OutOfMemory,
    }
}

/// The text of the documents of these roots, with anchors and aliases or without.
fn text_by<I: Copy, V: RankedNodes<I>>(
    alloc: Global,
    view: &V,
    roots: &[I],
    shares: bool,
) -> Result<String, Stop>
    requires { Rooted V.stands V.count V.number view.now roots.now }
    ensures ok { IfOk result (λ text. string_bytes text ≡ arranged_by shares (map (tree_of V.tree V.number view.now) roots.now)) }
    ensures err { IfErr result (Stops text_limit (arranged_by shares (map (tree_of V.tree V.number view.now) roots.now))) }
{
    match shares {
        false => block_text(alloc, view, roots),
        true => sharing_text(alloc, view, roots),
    }
}

/// The readable text of the documents that these bytes mean, entries in the order of their keys, with anchors and aliases or without.
#[tactic(auto, using(crate::proofs::ShownLaws::refused_shown))]
fn text_by_key(alloc: Global, bytes: &[u8], shares: bool) -> Result<String, Fault>
    ensures text { IfOk result (λ text. (f : List Tree) → Means bytes.now f → string_bytes text ≡ written_by shares f) }
    ensures refused { IfErr result (RefusesBy (written_by shares) bytes.now) }
{
    let forest = ranked_forest(alloc, bytes)?;
    let ranks = SpelledRanks::new(alloc, &forest.ranked)?;
    match text_by(alloc, &ranks, &forest.roots, shares) {
        Ok(text) => Ok(text),
        Err(stop) => Err(stopped(stop)),
    }
}

/// The same with entries in the order of the source.
#[tactic(auto, using(crate::proofs::ShownLaws::refused_shown))]
fn text_as_read(alloc: Global, bytes: &[u8]) -> Result<String, Fault>
    ensures text { IfOk result (λ text. (f : List Tree) → Means bytes.now f → string_bytes text ≡ shown_text f) }
    ensures refused { IfErr result (RefusesBy shown_text bytes.now) }
{
    let forests = ranked_stream(alloc, bytes)?;
    forests.laws();
    let view = SourceForests { forests: &forests };
    match block_text(alloc, &view, forests.documents(0)) {
        Ok(text) => Ok(text),
        Err(stop) => Err(stopped(stop)),
    }
}

/// The readable text of the documents that these bytes mean, written so.
///
/// # Errors
/// Those of `canonical`. 20: the readable text would be too long.
pub(crate) fn readable_text(alloc: Global, bytes: &[u8], manner: Manner) -> Result<String, Fault>
    ensures text { IfOk result (λ text. (f : List Tree) → Means bytes.now f → string_bytes text ≡ written_in manner f) }
    ensures refused { IfErr result (RefusesBy (written_in manner) bytes.now) }
{
    match manner {
        Manner::ByKey => text_by_key(alloc, bytes, false),
        Manner::AsRead => text_as_read(alloc, bytes),
        Manner::Sharing => text_by_key(alloc, bytes, true),
    }
}

/// The fault of lines that are not finished.
fn unwritten(why: Unwritten) -> Unshown
    ensures { (bytes : List ℕ) (f : List Tree) → Means bytes f → ((g : List Tree) → Means bytes g → Lacks (all_have_json g) why) → Overruns text_limit (lines_text f) why → JsonRefuses bytes result }
{
    match why {
        Unwritten::Stopped(stop) => Unshown::Rejected(stopped(stop)),
        Unwritten::NoJson => Unshown::NoJson,
    }
}

/// The lines of JSON of the documents that these bytes mean.
///
/// # Errors
/// Those of `canonical`. 20: the lines would be too long. Else JSON cannot express a node.
#[tactic(auto, using(crate::proofs::ShownLaws::refused_lines))]
pub(crate) fn written_lines(alloc: Global, bytes: &[u8]) -> Result<Vec<String>, Unshown>
    ensures lines { IfOk result (λ lines. (f : List Tree) → Means bytes.now f → AreTheirs f (map string_bytes lines.items)) }
    ensures means { IfOk result (λ lines. (f : List Tree) × Means bytes.now f) }
    ensures refused { IfErr result (JsonRefuses bytes.now) }
{
    let forest = ranked_forest(alloc, bytes)?;
    let Ok(ranks) = SpelledRanks::new(alloc, &forest.ranked) else {
        return Err(Unshown::Rejected(Fault::OutOfMemory));
    };
    match json_lines(alloc, &ranks, &forest.roots) {
        Ok(lines) => Ok(lines),
        Err(why) => Err(unwritten(why)),
    }
}
