//! Nodes on one line, with anchors and aliases.
ghost use Rattle.std.specs.Prelude.{◌≡◌, ◌<◌, ◌∷◌, ◌&&◌, [], not};
ghost use Rattle.std.specs.List.{All};
ghost use Rattle.yaml_definitions.specs.grammar.Characters.{c-mapping-start, c-sequence-start};
ghost use Rattle.yaml_spell.specs.declared.names.Opening.TheVariants.{Plain};
ghost use Rattle.yaml_spell.specs.NamesView.{ranks_in, given_of};
ghost use Rattle.yaml_spell.specs.RankedNodes.{Ready, trees_of, pairs_of};
ghost use Rattle.yaml_spell.specs.Walked.{separator, given, given_all, given_pairs, given_inside, written, written_all, written_pairs};
ghost use Rattle.yaml_show.specs.Drafts.{Adds};
ghost use Rattle.yaml_show.specs.Flow.{mark, colon};
ghost use Rattle.yaml_show.specs.Sharing.{is_alias, flow_inside, sharing_items, sharing_entries, sharing_flow, made};

use crate::draft::{Draft, put_alias, put_anchor};
use crate::flow::is_simple_key;
use yaml_show_scalar::Quotes;
use yaml_spell::names::{Names, Opening};
use yaml_spell::opening::open_node;
use yaml_spell::ranked::RankedNodes;
use yaml_text::core_tag;
use yaml_tree::shown::Inside;

/// What is before the part at this place.
fn separator(place: usize) -> &'static str
    ensures { result.now ≡ separator place }
{
    if place == 0 { "" } else { ", " }
}

/// What is before a key.
fn mark(is_simple: bool) -> &'static str
    ensures { result.now ≡ mark is_simple }
{
    if is_simple { "" } else { "? " }
}

/// What is between a key and its value.
fn colon(is_simple: bool, is_alias: bool) -> &'static str
    ensures { result.now ≡ colon (is_simple && not is_alias) }
{
    if is_simple && !is_alias { ": " } else { " : " }
}

/// Writes a node on one line, in a key of a block mapping or elsewhere. The answer is whether it is an alias.
#[cycle(sharing_flow)]
pub(crate) fn put_shared_flow<I: Copy, V: RankedNodes<I>>(
    view: &V,
    names: &mut Names,
    id: I,
    in_key: bool,
    draft: &mut Draft,
) -> bool
    requires ready { Ready V.stands V.count view.now names.old }
    requires within { V.number id < V.count view.now }
    ensures long { ranks_in names.new ≡ ranks_in names.old }
    ensures known { given_of names.new ≡ given (V.rank view.now) (V.tree view.now (V.number id)) (given_of names.old) }
    ensures alias { result ≡ is_alias (written (V.rank view.now) (V.tree view.now (V.number id)) (given_of names.old)) }
    ensures adds { Adds draft.old draft.new (sharing_flow in_key (V.tree view.now (V.number id)) (written (V.rank view.now) (V.tree view.now (V.number id)) (given_of names.old))) }
{
    let opening = open_node(view, names, id);
    match opening {
        Opening::Alias(number) => {
            put_alias(draft, number);
            true
        }
        Opening::Anchored(number) => {
            put_anchor(draft, number);
            draft.put(" ");
            put_flow_inside(view, names, id, in_key, draft);
            false
        }
        Opening::Plain => {
            put_flow_inside(view, names, id, in_key, draft);
            false
        }
    }
}

/// Writes a node on one line, behind its anchor.
#[cycle(sharing_flow)]
pub(crate) fn put_flow_inside<I: Copy, V: RankedNodes<I>>(
    view: &V,
    names: &mut Names,
    id: I,
    in_key: bool,
    draft: &mut Draft,
)
    requires ready { Ready V.stands V.count view.now names.old }
    requires within { V.number id < V.count view.now }
    ensures long { ranks_in names.new ≡ ranks_in names.old }
    ensures known { given_of names.new ≡ given_inside (V.rank view.now) (V.tree view.now (V.number id)) (given_of names.old) }
    ensures adds { Adds draft.old draft.new (flow_inside in_key (V.tree view.now (V.number id)) (made (V.rank view.now) (V.tree view.now (V.number id)) Plain (given_of names.old))) }
{
    let node = view.node(id);
    match node.inside {
        Inside::Scalar(content) => draft.put_scalar(node.tag, content, Quotes::Always),
        Inside::Sequence(items) => {
            draft.put_tag_before(node.tag, core_tag::SEQ);
            put_items(view, names, items, in_key, draft);
        }
        Inside::Mapping(entries) => {
            draft.put_tag_before(node.tag, core_tag::MAP);
            put_entries(view, names, entries, in_key, draft);
        }
    }
}

/// Writes items between brackets.
#[cycle(sharing_flow)]
fn put_items<I: Copy, V: RankedNodes<I>>(
    view: &V,
    names: &mut Names,
    items: &[I],
    in_key: bool,
    draft: &mut Draft,
)
    requires ready { Ready V.stands V.count view.now names.old }
    requires within { All (λ i. V.number i < V.count view.now) items.now }
    ensures long { ranks_in names.new ≡ ranks_in names.old }
    ensures known { given_of names.new ≡ given_all (V.rank view.now) (trees_of V.tree V.number view.now items.now) (given_of names.old) }
    ensures adds { Adds draft.old draft.new (c-sequence-start ∷ sharing_items in_key [] (trees_of V.tree V.number view.now items.now) (written_all (V.rank view.now) (trees_of V.tree V.number view.now items.now) (given_of names.old))) }
{
    draft.put("[");
    for (place, item) in items.iter().enumerate() {
        draft.put(separator(place));
        put_shared_flow(view, names, *item, in_key, draft);
    }
    draft.put("]");
}

/// Writes entries between braces.
#[cycle(sharing_flow)]
fn put_entries<I: Copy, V: RankedNodes<I>>(
    view: &V,
    names: &mut Names,
    entries: &[(I, I)],
    in_key: bool,
    draft: &mut Draft,
)
    requires ready { Ready V.stands V.count view.now names.old }
    requires within { All (λ p. (V.number p.0 < V.count view.now) × (V.number p.1 < V.count view.now)) entries.now }
    ensures long { ranks_in names.new ≡ ranks_in names.old }
    ensures known { given_of names.new ≡ given_pairs (V.rank view.now) (pairs_of V.tree V.number view.now entries.now) (given_of names.old) }
    ensures adds { Adds draft.old draft.new (c-mapping-start ∷ sharing_entries in_key [] (pairs_of V.tree V.number view.now entries.now) (written_pairs (V.rank view.now) (pairs_of V.tree V.number view.now entries.now) (given_of names.old))) }
{
    draft.put("{");
    for (place, entry) in entries.iter().enumerate() {
        draft.put(separator(place));
        let is_simple = is_simple_key(view, entry.0, in_key);
        draft.put(mark(is_simple));
        let is_alias = put_shared_flow(view, names, entry.0, in_key, draft);
        draft.put(colon(is_simple, is_alias));
        put_shared_flow(view, names, entry.1, in_key, draft);
    }
    draft.put("}");
}
