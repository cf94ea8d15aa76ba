//! Keys of block mappings, with anchors and aliases.
ghost use Rattle.std.specs.Prelude.{◌≡◌, ◌<◌, IfOk, IfErr};
ghost use Rattle.std.specs.List.{All};
ghost use Rattle.yaml_definitions.specs.model.Tree.{scalar};
ghost use Rattle.yaml_spell.specs.NamesView.{ranks_in, given_of};
ghost use Rattle.yaml_spell.specs.RankedNodes.{Ready, pairs_of};
ghost use Rattle.yaml_spell.specs.Walked.{given, written};
ghost use Rattle.yaml_show_scalar.specs.declared.stop.Stop.TheVariants.{OutOfMemory};
ghost use Rattle.yaml_show.specs.Drafts.{Adds};
ghost use Rattle.yaml_show.specs.Sharing.{sharing_key, key_room, has_room, all_have_room};

use crate::draft::{Draft, put_alias, put_anchor};
use crate::flow::is_short;
use crate::keys::{KEY_BYTES, char_count, put_key};
use crate::sharing_flow::put_shared_flow;
use std::alloc::Global;
use yaml_show_scalar::{Out, Quotes, Stop};
use yaml_spell::names::{Names, Opening};
use yaml_spell::opening::open_node;
use yaml_spell::ranked::RankedNodes;
use yaml_tree::shown::Inside;

/// Writes a scalar of this tag and content as a key.
fn put_scalar_key<I: Copy, V: RankedNodes<I>>(
    view: &V,
    names: &mut Names,
    id: I,
    tag: &str,
    content: &str,
    draft: &mut Draft,
)
    requires ready { Ready V.stands V.count view.now names.old }
    requires within { V.number id < V.count view.now }
    requires scalar { V.tree view.now (V.number id) ≡ scalar tag.now content.now }
    ensures long { ranks_in names.new ≡ ranks_in names.old }
    ensures known { given_of names.new ≡ given (V.rank view.now) (V.tree view.now (V.number id)) (given_of names.old) }
    ensures adds { Adds draft.old draft.new (sharing_key (V.tree view.now (V.number id)) (written (V.rank view.now) (V.tree view.now (V.number id)) (given_of names.old))) }
{
    let opening = open_node(view, names, id);
    match opening {
        Opening::Alias(number) => {
            put_alias(draft, number);
            draft.put(" ");
        }
        Opening::Anchored(number) => {
            put_anchor(draft, number);
            draft.put(" ");
            draft.put_scalar(tag, content, Quotes::WhereNeeded);
        }
        Opening::Plain => draft.put_scalar(tag, content, Quotes::WhereNeeded),
    }
}

/// Writes a key of a block mapping, without its `:`.
pub(crate) fn put_shared_key<I: Copy, V: RankedNodes<I>>(
    view: &V,
    names: &mut Names,
    id: I,
    draft: &mut Draft,
)
    requires ready { Ready V.stands V.count view.now names.old }
    requires within { V.number id < V.count view.now }
    ensures long { ranks_in names.new ≡ ranks_in names.old }
    ensures known { given_of names.new ≡ given (V.rank view.now) (V.tree view.now (V.number id)) (given_of names.old) }
    ensures adds { Adds draft.old draft.new (sharing_key (V.tree view.now (V.number id)) (written (V.rank view.now) (V.tree view.now (V.number id)) (given_of names.old))) }
{
    let node = view.node(id);
    match node.inside {
        Inside::Scalar(content) => put_scalar_key(view, names, id, node.tag, content, draft),
        Inside::Sequence(_) => {
            put_shared_flow(view, names, id, true, draft);
            draft.put(" ");
        }
        Inside::Mapping(_) => {
            put_shared_flow(view, names, id, true, draft);
            draft.put(" ");
        }
    }
}

/// The greatest number of characters that a key may have without its anchors.
fn key_room<I: Copy, V: RankedNodes<I>>(view: &V, id: I) -> usize
    requires stands { V.stands view.now }
    requires within { V.number id < V.count view.now }
    ensures { result ≡ key_room (V.tree view.now (V.number id)) }
{
    let node = view.node(id);
    match node.inside {
        Inside::Scalar(_) => 1_010,
        Inside::Sequence(_) => 128,
        Inside::Mapping(_) => 128,
    }
}

/// Whether the text of a key is short enough for a block mapping, whatever anchors it has.
fn has_room<I: Copy, V: RankedNodes<I>>(alloc: Global, view: &V, id: I) -> Result<bool, Stop>
    requires stands { V.stands view.now }
    requires within { V.number id < V.count view.now }
    ensures ok { IfOk result (λ answer. answer ≡ has_room (V.tree view.now (V.number id))) }
    ensures err { IfErr result (λ stop. stop ≡ OutOfMemory) }
{
    if is_short(view, id) {
        return Ok(true);
    }
    let mut key = Out::new(alloc, KEY_BYTES);
    match put_key(view, id, &mut key) {
        Ok(()) => Ok(char_count(key.text.as_str()) <= key_room(view, id)),
        Err(Stop::TooLong) => Ok(false),
        Err(Stop::OutOfMemory) => Err(Stop::OutOfMemory),
    }
}

/// Whether the text of each key is short enough for a block mapping.
pub(crate) fn all_have_room<I: Copy, V: RankedNodes<I>>(
    alloc: Global,
    view: &V,
    entries: &[(I, I)],
) -> Result<bool, Stop>
    requires stands { V.stands view.now }
    requires within { All (λ p. (V.number p.0 < V.count view.now) × (V.number p.1 < V.count view.now)) entries.now }
    ensures ok { IfOk result (λ answer. answer ≡ all_have_room (pairs_of V.tree V.number view.now entries.now)) }
    ensures err { IfErr result (λ stop. stop ≡ OutOfMemory) }
{
    for entry in entries {
        if !has_room(alloc, view, entry.0)? {
            return Ok(false);
        }
    }
    Ok(true)
}
