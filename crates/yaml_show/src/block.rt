//! Documents in block style.
ghost use Rattle.std.specs.Prelude.{◌≡◌, ◌<◌, ◌++◌, map, string_bytes, OnOk, IfOk, IfErr};
ghost use Rattle.std.specs.List.{All};
ghost use Rattle.yaml_definitions.specs.model.Limits.{text_limit};
ghost use Rattle.yaml_spell.specs.RankedNodes.{Rooted, tree_of, trees_of, pairs_of};
ghost use Rattle.yaml_show_scalar.specs.Stops.{limit_of, Stops};
ghost use Rattle.yaml_show_scalar.specs.Texts.{written};
ghost use Rattle.yaml_show.specs.Layout.{node_lines, item_lines, entry_lines, document_lines, shown_text};

use crate::keys::{all_fit, put_key};
use crate::lines::{goes_on, put_before, put_empty, put_head, put_line, put_scalar_node};
use crate::place::Place;
use std::alloc::Global;
use yaml_show_scalar::{Out, Stop};
use yaml_spell::ranked::RankedNodes;
use yaml_text::core_tag;
use yaml_text::limits::text_limit;
use yaml_tree::shown::Inside;

/// The greatest level of a collection in block style. One that is deeper is on one line, so that indentation does not grow further.
pub(crate) const DEEPEST: usize = 64;

/// Writes a node and the end of its line. Its parts, or the further lines of a scalar, are at this level.
#[cycle(block)]
fn put_node<I: Copy, V: RankedNodes<I>>(
    alloc: Global,
    view: &V,
    id: I,
    place: Place,
    level: usize,
    out: &mut Out,
) -> Result<(), Stop>
    requires stands { V.stands view.now }
    requires within { V.number id < V.count view.now }
    ensures ok { OnOk result (written out.new ≡ written out.old ++ node_lines place level (V.tree view.now (V.number id))) }
    ensures limit { limit_of out.new ≡ limit_of out.old }
    ensures err { IfErr result (Stops (limit_of out.old) (written out.old ++ node_lines place level (V.tree view.now (V.number id)))) }
{
    let node = view.node(id);
    match node.inside {
        Inside::Scalar(content) => put_scalar_node(out, node.tag, content, place, level),
        Inside::Sequence(items) => {
            if items.is_empty() {
                return put_empty(out, place, node.tag, core_tag::SEQ, "[]\n");
            }
            if level >= DEEPEST {
                return put_line(view, id, place, out);
            }
            put_head(out, place, node.tag, core_tag::SEQ)?;
            let begun = goes_on(place, node.tag, core_tag::SEQ);
            put_items(alloc, view, items, begun, level, out)
        }
        Inside::Mapping(entries) => {
            if entries.is_empty() {
                return put_empty(out, place, node.tag, core_tag::MAP, "{}\n");
            }
            if level >= DEEPEST {
                return put_line(view, id, place, out);
            }
            if !all_fit(alloc, view, entries)? {
                return put_line(view, id, place, out);
            }
            put_head(out, place, node.tag, core_tag::MAP)?;
            let begun = goes_on(place, node.tag, core_tag::MAP);
            put_entries(alloc, view, entries, begun, level, out)
        }
    }
}

/// Writes items, each on lines of its own. If the line is begun, the first one is on it.
#[cycle(block)]
fn put_items<I: Copy, V: RankedNodes<I>>(
    alloc: Global,
    view: &V,
    items: &[I],
    begun: bool,
    level: usize,
    out: &mut Out,
) -> Result<(), Stop>
    requires stands { V.stands view.now }
    requires within { All (λ i. V.number i < V.count view.now) items.now }
    requires low { level < 64 }
    ensures ok { OnOk result (written out.new ≡ written out.old ++ item_lines begun level (trees_of V.tree V.number view.now items.now)) }
    ensures limit { limit_of out.new ≡ limit_of out.old }
    ensures err { IfErr result (Stops (limit_of out.old) (written out.old ++ item_lines begun level (trees_of V.tree V.number view.now items.now))) }
{
    let mut is_begun = begun;
    for item in items {
        put_before(out, is_begun, level)?;
        is_begun = false;
        out.put("- ")?;
        put_node(alloc, view, *item, Place::Item, level + 1, out)?;
    }
    Ok(())
}

/// Writes entries in the same way.
#[cycle(block)]
fn put_entries<I: Copy, V: RankedNodes<I>>(
    alloc: Global,
    view: &V,
    entries: &[(I, I)],
    begun: bool,
    level: usize,
    out: &mut Out,
) -> Result<(), Stop>
    requires stands { V.stands view.now }
    requires within { All (λ p. (V.number p.0 < V.count view.now) × (V.number p.1 < V.count view.now)) entries.now }
    requires low { level < 64 }
    ensures ok { OnOk result (written out.new ≡ written out.old ++ entry_lines begun level (pairs_of V.tree V.number view.now entries.now)) }
    ensures limit { limit_of out.new ≡ limit_of out.old }
    ensures err { IfErr result (Stops (limit_of out.old) (written out.old ++ entry_lines begun level (pairs_of V.tree V.number view.now entries.now))) }
{
    let mut is_begun = begun;
    for entry in entries {
        put_before(out, is_begun, level)?;
        is_begun = false;
        put_key(view, entry.0, out)?;
        out.put(":")?;
        put_node(alloc, view, entry.1, Place::Value, level + 1, out)?;
    }
    Ok(())
}

/// Writes a document: `---`, and its root.
fn put_document<I: Copy, V: RankedNodes<I>>(
    alloc: Global,
    view: &V,
    root: I,
    out: &mut Out,
) -> Result<(), Stop>
    requires stands { V.stands view.now }
    requires within { V.number root < V.count view.now }
    ensures ok { OnOk result (written out.new ≡ written out.old ++ document_lines (V.tree view.now (V.number root))) }
    ensures limit { limit_of out.new ≡ limit_of out.old }
    ensures err { IfErr result (Stops (limit_of out.old) (written out.old ++ document_lines (V.tree view.now (V.number root)))) }
{
    out.put("---")?;
    put_node(alloc, view, root, Place::Root, 0, out)
}

/// Writes the documents of these roots.
fn put_documents<I: Copy, V: RankedNodes<I>>(
    alloc: Global,
    view: &V,
    roots: &[I],
    out: &mut Out,
) -> Result<(), Stop>
    requires rooted { Rooted V.stands V.count V.number view.now roots.now }
    ensures ok { OnOk result (written out.new ≡ written out.old ++ shown_text (map (tree_of V.tree V.number view.now) roots.now)) }
    ensures limit { limit_of out.new ≡ limit_of out.old }
    ensures err { IfErr result (Stops (limit_of out.old) (written out.old ++ shown_text (map (tree_of V.tree V.number view.now) roots.now))) }
{
    for root in roots {
        put_document(alloc, view, *root, out)?;
    }
    Ok(())
}

/// The documents of these roots in block style: `---`, then a line for each entry and item. Aliases are written out.
///
/// # Errors
/// `TooLong`: the text would have more than 67,108,864 bytes. `OutOfMemory`.
pub fn block_text<I: Copy, V: RankedNodes<I>>(
    alloc: Global,
    view: &V,
    roots: &[I],
) -> Result<String, Stop>
    requires { Rooted V.stands V.count V.number view.now roots.now }
    ensures ok { IfOk result (λ text. string_bytes text ≡ shown_text (map (tree_of V.tree V.number view.now) roots.now)) }
    ensures err { IfErr result (Stops text_limit (shown_text (map (tree_of V.tree V.number view.now) roots.now))) }
{
    let mut out = Out::new(alloc, text_limit());
    put_documents(alloc, view, roots, &mut out)?;
    Ok(out.text)
}
