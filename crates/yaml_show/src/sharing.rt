//! Documents in block style, with anchors and aliases.
ghost use Rattle.std.specs.Prelude.{◌≡◌, ◌<◌, ◌++◌, ◌∷◌, [], map, string_bytes, IfOk, IfErr};
ghost use Rattle.std.specs.List.{All};
ghost use Rattle.yaml_definitions.specs.canonical.Serialize.{anchor_name};
ghost use Rattle.yaml_definitions.specs.model.Limits.{text_limit};
ghost use Rattle.yaml_spell.specs.declared.names.Opening.TheVariants.{Plain};
ghost use Rattle.yaml_spell.specs.NamesView.{ranks_in, given_of};
ghost use Rattle.yaml_spell.specs.RankedNodes.{Ready, Rooted, tree_of, trees_of, pairs_of};
ghost use Rattle.yaml_spell.specs.Walked.{given, given_all, given_pairs, given_inside, written, written_all, written_pairs};
ghost use Rattle.yaml_show_scalar.specs.Stops.{Stops};
ghost use Rattle.yaml_show.specs.Drafts.{Adds};
ghost use Rattle.yaml_show.specs.Layout.{space};
ghost use Rattle.yaml_show.specs.Sharing.{alias_line, behind_anchor, line_inside, inside_lines, sharing_item_lines, sharing_entry_lines, sharing_lines, sharing_document, sharing_shown, made};

use crate::block::DEEPEST;
use crate::draft::{Draft, put_alias, put_anchor};
use crate::lines::goes_on;
use crate::place::Place;
use crate::sharing_flow::put_flow_inside;
use crate::sharing_keys::{all_have_room, put_shared_key};
use std::alloc::Global;
use yaml_show_scalar::Stop;
use yaml_spell::names::{Names, Opening};
use yaml_spell::opening::{begin_document, open_node};
use yaml_spell::ranked::RankedNodes;
use yaml_text::core_tag;
use yaml_text::limits::text_limit;
use yaml_tree::shown::Inside;

/// The space between a node and what is before it.
fn space(place: Place) -> &'static str
    ensures { result.now ≡ space place }
{
    match place {
        Place::Item => "",
        Place::Root => " ",
        Place::Value => " ",
    }
}

/// Where a node stands that is behind an anchor.
fn behind_anchor(place: Place) -> Place
    ensures { result ≡ behind_anchor place }
{
    match place {
        Place::Root => Place::Root,
        Place::Value => Place::Value,
        Place::Item => Place::Value,
    }
}

/// Writes an alias and the end of its line.
fn put_alias_line(draft: &mut Draft, place: Place, number: usize)
    requires { 0 < number }
    ensures { Adds draft.old draft.new (alias_line place (anchor_name number)) }
{
    draft.put(space(place));
    put_alias(draft, number);
    draft.put("\n");
}

/// Writes an anchor behind what is before its node.
fn put_anchor_behind(draft: &mut Draft, place: Place, number: usize)
    requires { 0 < number }
    ensures { Adds draft.old draft.new (space place ++ (38 ∷ anchor_name number)) }
{
    draft.put(space(place));
    put_anchor(draft, number);
}

/// Writes a node on one line, behind its anchor, and the end of the line.
fn put_line<I: Copy, V: RankedNodes<I>>(
    view: &V,
    names: &mut Names,
    id: I,
    place: Place,
    draft: &mut Draft,
)
    requires ready { Ready V.stands V.count view.now names.old }
    requires within { V.number id < V.count view.now }
    ensures long { ranks_in names.new ≡ ranks_in names.old }
    ensures known { given_of names.new ≡ given_inside (V.rank view.now) (V.tree view.now (V.number id)) (given_of names.old) }
    ensures adds { Adds draft.old draft.new (line_inside place (V.tree view.now (V.number id)) (made (V.rank view.now) (V.tree view.now (V.number id)) Plain (given_of names.old))) }
{
    draft.put(space(place));
    put_flow_inside(view, names, id, false, draft);
    draft.put("\n");
}

/// Writes a node and the end of its line. Its parts, or the further lines of a scalar, are at this level.
#[cycle(sharing)]
fn put_node<I: Copy, V: RankedNodes<I>>(
    alloc: Global,
    view: &V,
    names: &mut Names,
    id: I,
    place: Place,
    level: usize,
    draft: &mut Draft,
)
    requires ready { Ready V.stands V.count view.now names.old }
    requires within { V.number id < V.count view.now }
    ensures long { ranks_in names.new ≡ ranks_in names.old }
    ensures known { given_of names.new ≡ given (V.rank view.now) (V.tree view.now (V.number id)) (given_of names.old) }
    ensures adds { Adds draft.old draft.new (sharing_lines place level (V.tree view.now (V.number id)) (written (V.rank view.now) (V.tree view.now (V.number id)) (given_of names.old))) }
{
    let opening = open_node(view, names, id);
    match opening {
        Opening::Alias(number) => put_alias_line(draft, place, number),
        Opening::Anchored(number) => {
            put_anchor_behind(draft, place, number);
            put_inside(alloc, view, names, id, behind_anchor(place), level, draft);
        }
        Opening::Plain => put_inside(alloc, view, names, id, place, level, draft),
    }
}

/// Writes a node behind its anchor, and the end of its line.
#[cycle(sharing)]
fn put_inside<I: Copy, V: RankedNodes<I>>(
    alloc: Global,
    view: &V,
    names: &mut Names,
    id: I,
    place: Place,
    level: usize,
    draft: &mut Draft,
)
    requires ready { Ready V.stands V.count view.now names.old }
    requires within { V.number id < V.count view.now }
    ensures long { ranks_in names.new ≡ ranks_in names.old }
    ensures known { given_of names.new ≡ given_inside (V.rank view.now) (V.tree view.now (V.number id)) (given_of names.old) }
    ensures adds { Adds draft.old draft.new (inside_lines place level (V.tree view.now (V.number id)) (made (V.rank view.now) (V.tree view.now (V.number id)) Plain (given_of names.old))) }
{
    let node = view.node(id);
    match node.inside {
        Inside::Scalar(content) => draft.put_scalar_node(node.tag, content, place, level),
        Inside::Sequence(items) => {
            if items.is_empty() {
                draft.put_empty(place, node.tag, core_tag::SEQ, "[]\n");
            } else if level >= DEEPEST {
                put_line(view, names, id, place, draft);
            } else {
                let begun = goes_on(place, node.tag, core_tag::SEQ);
                draft.put_head(place, node.tag, core_tag::SEQ);
                put_items(alloc, view, names, items, begun, level, draft);
            }
        }
        Inside::Mapping(entries) => {
            if entries.is_empty() {
                draft.put_empty(place, node.tag, core_tag::MAP, "{}\n");
            } else if level >= DEEPEST {
                put_line(view, names, id, place, draft);
            } else {
                match all_have_room(alloc, view, entries) {
                    Ok(true) => {
                        let begun = goes_on(place, node.tag, core_tag::MAP);
                        draft.put_head(place, node.tag, core_tag::MAP);
                        put_entries(alloc, view, names, entries, begun, level, draft);
                    }
                    Ok(false) => put_line(view, names, id, place, draft),
                    Err(_) => {
                        put_line(view, names, id, place, draft);
                        draft.forgo();
                    }
                }
            }
        }
    }
}

/// Writes items, each on lines of its own. If the line is begun, the first one is on it.
#[cycle(sharing)]
fn put_items<I: Copy, V: RankedNodes<I>>(
    alloc: Global,
    view: &V,
    names: &mut Names,
    items: &[I],
    begun: bool,
    level: usize,
    draft: &mut Draft,
)
    requires ready { Ready V.stands V.count view.now names.old }
    requires within { All (λ i. V.number i < V.count view.now) items.now }
    requires low { level < 64 }
    ensures long { ranks_in names.new ≡ ranks_in names.old }
    ensures known { given_of names.new ≡ given_all (V.rank view.now) (trees_of V.tree V.number view.now items.now) (given_of names.old) }
    ensures adds { Adds draft.old draft.new (sharing_item_lines begun level (trees_of V.tree V.number view.now items.now) (written_all (V.rank view.now) (trees_of V.tree V.number view.now items.now) (given_of names.old))) }
{
    let mut is_begun = begun;
    for item in items {
        draft.put_before(is_begun, level);
        is_begun = false;
        draft.put("- ");
        put_node(alloc, view, names, *item, Place::Item, level + 1, draft);
    }
}

/// Writes entries in the same way.
#[cycle(sharing)]
fn put_entries<I: Copy, V: RankedNodes<I>>(
    alloc: Global,
    view: &V,
    names: &mut Names,
    entries: &[(I, I)],
    begun: bool,
    level: usize,
    draft: &mut Draft,
)
    requires ready { Ready V.stands V.count view.now names.old }
    requires within { All (λ p. (V.number p.0 < V.count view.now) × (V.number p.1 < V.count view.now)) entries.now }
    requires low { level < 64 }
    ensures long { ranks_in names.new ≡ ranks_in names.old }
    ensures known { given_of names.new ≡ given_pairs (V.rank view.now) (pairs_of V.tree V.number view.now entries.now) (given_of names.old) }
    ensures adds { Adds draft.old draft.new (sharing_entry_lines begun level (pairs_of V.tree V.number view.now entries.now) (written_pairs (V.rank view.now) (pairs_of V.tree V.number view.now entries.now) (given_of names.old))) }
{
    let mut is_begun = begun;
    for entry in entries {
        draft.put_before(is_begun, level);
        is_begun = false;
        put_shared_key(view, names, entry.0, draft);
        draft.put(":");
        put_node(alloc, view, names, entry.1, Place::Value, level + 1, draft);
    }
}

/// Writes a document: `---`, and its root.
fn put_document<I: Copy, V: RankedNodes<I>>(
    alloc: Global,
    view: &V,
    names: &mut Names,
    root: I,
    draft: &mut Draft,
)
    requires ready { Ready V.stands V.count view.now names.old }
    requires within { V.number root < V.count view.now }
    ensures long { ranks_in names.new ≡ ranks_in names.old }
    ensures adds { Adds draft.old draft.new (sharing_document (V.tree view.now (V.number root))) }
{
    begin_document(view, names, root);
    draft.put("---");
    put_node(alloc, view, names, root, Place::Root, 0, draft);
}

/// Writes the documents of these roots.
fn put_documents<I: Copy, V: RankedNodes<I>>(
    alloc: Global,
    view: &V,
    names: &mut Names,
    roots: &[I],
    draft: &mut Draft,
)
    requires rooted { Rooted V.stands V.count V.number view.now roots.now }
    requires long { ranks_in names.old ≡ V.count view.now }
    ensures { Adds draft.old draft.new (sharing_shown (map (tree_of V.tree V.number view.now) roots.now)) }
{
    for root in roots {
        put_document(alloc, view, names, *root, draft);
    }
}

/// The documents of these roots in block style, with the anchors and aliases of their canonical text if the trees are arranged.
///
/// # Errors
/// Those of `block_text`.
pub fn sharing_text<I: Copy, V: RankedNodes<I>>(
    alloc: Global,
    view: &V,
    roots: &[I],
) -> Result<String, Stop>
    requires { Rooted V.stands V.count V.number view.now roots.now }
    ensures ok { IfOk result (λ text. string_bytes text ≡ sharing_shown (map (tree_of V.tree V.number view.now) roots.now)) }
    ensures err { IfErr result (Stops text_limit (sharing_shown (map (tree_of V.tree V.number view.now) roots.now))) }
{
    let Ok(names) = Names::new(alloc, view.len()) else {
        return Err(Stop::OutOfMemory);
    };
    let mut names = names;
    let mut draft = Draft::new(alloc, text_limit());
    put_documents(alloc, view, &mut names, roots, &mut draft);
    draft.finish()
}
