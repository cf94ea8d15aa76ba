//! The canonical text of documents whose nodes are ranked.
ghost use Rattle.std.specs.Prelude.{◌≡◌, ◌<◌, ◌≤◌, length, map, OnOk, IfErr, IfOk};
ghost use Rattle.yaml_definitions.specs.model.Limits.{text_limit};
ghost use Rattle.yaml_spell.specs.NamesView.{ranks_in};
ghost use Rattle.yaml_spell.specs.Stops.{fault_of};
ghost use Rattle.yaml_spell.specs.Pieces.{Puts, Fails};
ghost use Rattle.yaml_spell.specs.Documents.{arranged_text, arranged_more, arranged_bytes, RefusesArranged};
ghost use Rattle.yaml_spell.specs.RankedNodes.{Ready, Rooted, tree_of};

use crate::length::Length;
use crate::names::Names;
use crate::ranked::RankedNodes;
use crate::sink::Sink;
use crate::stop::Stop;
use crate::walk::{notice, write_node};
use yaml_text::fault::Fault;
use yaml_text::limits::text_limit;

/// Writes a document: its start, the text of its root, and the end of the line.
fn write_document<I: Copy, V: RankedNodes<I>, O, S: Sink<O>>(
    view: &V,
    names: &mut Names,
    root: I,
    sink: &mut S,
    out: &mut O,
) -> Result<(), Stop>
    requires ready { Ready V.stands V.count view.now names.old }
    requires within { V.number root < V.count view.now }
    ensures long { ranks_in names.new ≡ ranks_in names.old }
    ensures ok { OnOk result (Puts S.holds sink.old out.old sink.new out.new (arranged_text (V.tree view.now (V.number root)))) }
    ensures err { IfErr result (λ stop. Fails S.holds S.stops sink.old out.old out.new (fault_of stop) (arranged_text (V.tree view.now (V.number root)))) }
{
    view.tells();
    names.begin();
    notice(view, names, root);
    sink.put(out, "--- ")?;
    write_node(view, names, root, sink, out)?;
    sink.put(out, "\n")
}

/// Writes the documents of these roots, each from its own first node on. What `names` knew before does
/// not matter.
pub fn write_ranked<I: Copy, V: RankedNodes<I>, O, S: Sink<O>>(
    view: &V,
    names: &mut Names,
    roots: &[I],
    sink: &mut S,
    out: &mut O,
) -> Result<(), Fault>
    requires rooted { Rooted V.stands V.count V.number view.now roots.now }
    requires long { ranks_in names.old ≡ V.count view.now }
    ensures long { ranks_in names.new ≡ ranks_in names.old }
    ensures ok { OnOk result (Puts S.holds sink.old out.old sink.new out.new (arranged_more (map (tree_of V.tree V.number view.now) roots.now))) }
    ensures err { IfErr result (λ fault. Fails S.holds S.stops sink.old out.old out.new fault (arranged_more (map (tree_of V.tree V.number view.now) roots.now))) }
{
    for root in roots {
        write_document(view, names, *root, sink, out)?;
    }
    Ok(())
}

/// The length of the text of the documents of these roots, in bytes. No text is made and no memory is taken. `TextTooLong` if the
/// text would be longer than the limit.
pub fn ranked_len<I: Copy, V: RankedNodes<I>>(
    view: &V,
    names: &mut Names,
    roots: &[I],
) -> Result<usize, Fault>
    requires rooted { Rooted V.stands V.count V.number view.now roots.now }
    requires long { ranks_in names.old ≡ V.count view.now }
    ensures long { ranks_in names.new ≡ ranks_in names.old }
    ensures ok { IfOk result (λ len. len ≡ length (arranged_bytes (map (tree_of V.tree V.number view.now) roots.now))) }
    ensures fits { IfOk result (λ len. len ≤ text_limit) }
    ensures err { IfErr result (RefusesArranged (map (tree_of V.tree V.number view.now) roots.now)) }
{
    let mut length = Length::new(text_limit());
    write_ranked(view, names, roots, &mut length, &mut ())?;
    Ok(length.len())
}
