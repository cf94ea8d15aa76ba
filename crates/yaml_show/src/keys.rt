//! Keys of block mappings.
ghost use Rattle.std.specs.Prelude.{◌≡◌, ◌<◌, true, ◌++◌, ◌∷◌, [], nat_le, length, OnOk, IfOk, IfErr};
ghost use Rattle.std.specs.List.{All};
ghost use Rattle.std.specs.Str.{chars};
ghost use Rattle.yaml_spell.specs.RankedNodes.{pairs_of};
ghost use Rattle.yaml_show_scalar.specs.Stops.{limit_of, Stops};
ghost use Rattle.yaml_show_scalar.specs.declared.stop.Stop.TheVariants.{OutOfMemory};
ghost use Rattle.yaml_show_scalar.specs.Texts.{written};
ghost use Rattle.yaml_definitions.specs.grammar.Characters.{s-space};
ghost use Rattle.yaml_show.specs.Flow.{flow_text, key_text, fits, all_fit};

use crate::flow::{is_short, put_flow};
use std::alloc::Global;
use yaml_show_scalar::scalar::put_scalar;
use yaml_show_scalar::{Out, Quotes, Stop};
use yaml_spell::ranked::RankedNodes;
use yaml_tree::shown::Inside;

/// The greatest number of characters of a key in a block mapping.
const KEY_LIMIT: usize = 1_023;

/// A text of more bytes has more characters than that.
pub(crate) const KEY_BYTES: usize = 4_096;

/// Writes a collection as a key of a block mapping, without its `:`.
fn put_flow_key<I: Copy, V: RankedNodes<I>>(view: &V, id: I, out: &mut Out) -> Result<(), Stop>
    requires stands { V.stands view.now }
    requires within { V.number id < V.count view.now }
    ensures ok { OnOk result (written out.new ≡ written out.old ++ (flow_text true (V.tree view.now (V.number id)) ++ (s-space ∷ []))) }
    ensures limit { limit_of out.new ≡ limit_of out.old }
    ensures err { IfErr result (Stops (limit_of out.old) (written out.old ++ (flow_text true (V.tree view.now (V.number id)) ++ (s-space ∷ [])))) }
{
    put_flow(view, id, true, out)?;
    out.put(" ")
}

/// Writes a key of a block mapping, without its `:`.
pub(crate) fn put_key<I: Copy, V: RankedNodes<I>>(
    view: &V,
    id: I,
    out: &mut Out,
) -> Result<(), Stop>
    requires stands { V.stands view.now }
    requires within { V.number id < V.count view.now }
    ensures ok { OnOk result (written out.new ≡ written out.old ++ key_text (V.tree view.now (V.number id))) }
    ensures limit { limit_of out.new ≡ limit_of out.old }
    ensures err { IfErr result (Stops (limit_of out.old) (written out.old ++ key_text (V.tree view.now (V.number id)))) }
{
    let node = view.node(id);
    match node.inside {
        Inside::Scalar(content) => put_scalar(out, node.tag, content, Quotes::WhereNeeded),
        Inside::Sequence(_) => put_flow_key(view, id, out),
        Inside::Mapping(_) => put_flow_key(view, id, out),
    }
}

/// How many characters a text has.
pub(crate) fn char_count(text: &str) -> usize
    ensures { result ≡ length (chars text.now) }
{
    text.chars().count()
}

/// Whether a text has no more characters than a key may have.
fn is_key_len(text: &str) -> bool
    ensures { result ≡ nat_le (length (chars text.now)) 1023 }
{
    char_count(text) <= KEY_LIMIT
}

/// Whether the text of a key is short enough for a block mapping.
fn fits<I: Copy, V: RankedNodes<I>>(alloc: Global, view: &V, id: I) -> Result<bool, Stop>
    requires stands { V.stands view.now }
    requires within { V.number id < V.count view.now }
    ensures ok { IfOk result (λ answer. answer ≡ fits (V.tree view.now (V.number id))) }
    ensures err { IfErr result (λ stop. stop ≡ OutOfMemory) }
{
    if is_short(view, id) {
        return Ok(true);
    }
    let mut key = Out::new(alloc, KEY_BYTES);
    match put_key(view, id, &mut key) {
        Ok(()) => Ok(is_key_len(key.text.as_str())),
        Err(Stop::TooLong) => Ok(false),
        Err(Stop::OutOfMemory) => Err(Stop::OutOfMemory),
    }
}

/// Whether the text of each key is short enough for a block mapping.
pub(crate) fn all_fit<I: Copy, V: RankedNodes<I>>(
    alloc: Global,
    view: &V,
    entries: &[(I, I)],
) -> Result<bool, Stop>
    requires stands { V.stands view.now }
    requires within { All (λ p. (V.number p.0 < V.count view.now) × (V.number p.1 < V.count view.now)) entries.now }
    ensures ok { IfOk result (λ answer. answer ≡ all_fit (pairs_of V.tree V.number view.now entries.now)) }
    ensures err { IfErr result (λ stop. stop ≡ OutOfMemory) }
{
    for entry in entries {
        if !fits(alloc, view, entry.0)? {
            return Ok(false);
        }
    }
    Ok(true)
}
