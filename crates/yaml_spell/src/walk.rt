//! The walk of ranked nodes in writing order.
ghost use Rattle.std.specs.Prelude.{◌≡◌, ◌<◌, ◌++◌, ◌∷◌, [], true, false, OnOk, IfOk, IfErr};
ghost use Rattle.std.specs.List.{All};
ghost use Rattle.yaml_definitions.specs.grammar.Characters.{c-mapping-start, c-sequence-start};
ghost use Rattle.yaml_spell.specs.NamesView.{ranks_in, table_of, given_of, opening_number, NamesNone};
ghost use Rattle.yaml_spell.specs.Stops.{fault_of};
ghost use Rattle.yaml_spell.specs.Pieces.{TakesPiece, Counts, Puts, Exceeds, Fails};
ghost use Rattle.yaml_definitions.specs.canonical.NodeText.{node_text, items_text, pairs_text};
ghost use Rattle.yaml_spell.specs.RankedNodes.{Ready, trees_of, pairs_of};
ghost use Rattle.yaml_spell.specs.Walked.{noticed, noticed_all, noticed_pairs, opening_of, begun_unless_short, separator, given, given_all, given_pairs, given_inside, written, written_all, written_pairs, behind_anchor};

use crate::names::{Names, Opening};
use crate::parts::{Kind, put_alias, put_anchor, put_scalar, put_tag};
use crate::ranked::RankedNodes;
use crate::sink::Sink;
use crate::stop::Stop;
use yaml_tree::shown::Inside;

/// Notes which ranks are met in the tree of a node, and which come again. A node that comes again is
/// not entered. A short one, of which there are many, costs no call.
#[cycle(notice)]
#[inline(always)]
pub(crate) fn notice<I: Copy, V: RankedNodes<I>>(view: &V, names: &mut Names, id: I)
    requires ready { Ready V.stands V.count view.now names.old }
    requires within { V.number id < V.count view.now }
    ensures table { table_of names.new ≡ noticed (V.rank view.now) (V.tree view.now (V.number id)) (table_of names.old) }
    ensures others { NamesNone names.old names.new }
{
    if view.short_len(id) > 0 {
        return;
    }
    if !names.meet(view.rank(id)) {
        return;
    }
    let node = view.node(id);
    match node.inside {
        Inside::Scalar(_) => {}
        Inside::Sequence(items) => notice_items(view, names, items),
        Inside::Mapping(entries) => notice_entries(view, names, entries),
    }
}

/// The same of items.
#[cycle(notice)]
fn notice_items<I: Copy, V: RankedNodes<I>>(view: &V, names: &mut Names, items: &[I])
    requires ready { Ready V.stands V.count view.now names.old }
    requires within { All (λ i. V.number i < V.count view.now) items.now }
    ensures table { table_of names.new ≡ noticed_all (V.rank view.now) (trees_of V.tree V.number view.now items.now) (table_of names.old) }
    ensures others { NamesNone names.old names.new }
{
    for item in items {
        notice(view, names, *item);
    }
}

/// The same of entries.
#[cycle(notice)]
fn notice_entries<I: Copy, V: RankedNodes<I>>(view: &V, names: &mut Names, entries: &[(I, I)])
    requires ready { Ready V.stands V.count view.now names.old }
    requires within { All (λ p. (V.number p.0 < V.count view.now) × (V.number p.1 < V.count view.now)) entries.now }
    ensures table { table_of names.new ≡ noticed_pairs (V.rank view.now) (pairs_of V.tree V.number view.now entries.now) (table_of names.old) }
    ensures others { NamesNone names.old names.new }
{
    for entry in entries {
        notice(view, names, entry.0);
        notice(view, names, entry.1);
    }
}

/// How a node begins. A short one begins plainly and is not noted.
pub(crate) fn start(names: &mut Names, is_short: bool, rank: usize) -> Opening
    requires { rank < ranks_in names.old }
    ensures opening { result ≡ opening_of is_short rank (given_of names.old) }
    ensures positive { 0 < opening_number result }
    ensures given { given_of names.new ≡ begun_unless_short is_short rank (given_of names.old) }
    ensures long { ranks_in names.new ≡ ranks_in names.old }
{
    if is_short {
        return Opening::Plain;
    }
    names.open(rank)
}

/// Takes a short node, which has so many bytes, without looking at it, where the sink does so. The answer is
/// whether it did; a node of 0 bytes is none that is short.
#[inline(always)]
fn count_short<O, S: Sink<O>>(sink: &mut S, out: &mut O, len: usize) -> Result<bool, Stop>
    ensures short { IfOk result (λ counted. counted ≡ true → 0 < len) }
    ensures taken { IfOk result (λ counted. counted ≡ true → Counts S.holds sink.old out.old sink.new out.new len) }
    ensures kept { IfOk result (λ counted. counted ≡ false → TakesPiece S.holds sink.old out.old sink.new out.new []) }
    ensures err { IfErr result (λ stop. (0 < len) × Exceeds S.holds S.stops sink.old out.old out.new (fault_of stop) len) }
{
    if len == 0 {
        return Ok(false);
    }
    sink.count(out, len)
}

/// What stands before the entry at this place.
fn put_separator<O, S: Sink<O>>(sink: &mut S, out: &mut O, place: usize) -> Result<(), Stop>
    ensures ok { OnOk result (Puts S.holds sink.old out.old sink.new out.new (λ more. separator place ++ more)) }
    ensures err { IfErr result (λ stop. Fails S.holds S.stops sink.old out.old out.new (fault_of stop) (λ more. separator place ++ more)) }
{
    if place == 0 {
        return Ok(());
    }
    sink.put(out, ", ")
}

/// Writes a node: an alias where its rank came before in its document and is not short, else its
/// anchor, if its rank comes again, and what stands behind that. A sink that counts is told the length of a
/// short one. That costs no call, and there are many.
#[cycle(write)]
#[inline(always)]
pub(crate) fn write_node<I: Copy, V: RankedNodes<I>, O, S: Sink<O>>(
    view: &V,
    names: &mut Names,
    id: I,
    sink: &mut S,
    out: &mut O,
) -> Result<(), Stop>
    requires ready { Ready V.stands V.count view.now names.old }
    requires within { V.number id < V.count view.now }
    ensures long { ranks_in names.new ≡ ranks_in names.old }
    ensures known { OnOk result (given_of names.new ≡ given (V.rank view.now) (V.tree view.now (V.number id)) (given_of names.old)) }
    ensures ok { OnOk result (Puts S.holds sink.old out.old sink.new out.new (node_text (written (V.rank view.now) (V.tree view.now (V.number id)) (given_of names.old)))) }
    ensures err { IfErr result (λ stop. Fails S.holds S.stops sink.old out.old out.new (fault_of stop) (node_text (written (V.rank view.now) (V.tree view.now (V.number id)) (given_of names.old)))) }
{
    let short = view.short_len(id);
    let counted = count_short(sink, out, short)?;
    if counted {
        return Ok(());
    }
    let opening = start(names, short > 0, view.rank(id));
    match opening {
        Opening::Alias(number) => put_alias(sink, out, number),
        Opening::Anchored(number) => {
            put_anchor(sink, out, number)?;
            write_inside(view, names, id, sink, out)
        }
        Opening::Plain => write_inside(view, names, id, sink, out),
    }
}

/// Writes a node's tag and content.
#[cycle(write)]
fn write_inside<I: Copy, V: RankedNodes<I>, O, S: Sink<O>>(
    view: &V,
    names: &mut Names,
    id: I,
    sink: &mut S,
    out: &mut O,
) -> Result<(), Stop>
    requires ready { Ready V.stands V.count view.now names.old }
    requires within { V.number id < V.count view.now }
    ensures long { ranks_in names.new ≡ ranks_in names.old }
    ensures known { OnOk result (given_of names.new ≡ given_inside (V.rank view.now) (V.tree view.now (V.number id)) (given_of names.old)) }
    ensures ok { OnOk result (Puts S.holds sink.old out.old sink.new out.new (behind_anchor (V.rank view.now) (V.tree view.now (V.number id)) (given_of names.old))) }
    ensures err { IfErr result (λ stop. Fails S.holds S.stops sink.old out.old out.new (fault_of stop) (behind_anchor (V.rank view.now) (V.tree view.now (V.number id)) (given_of names.old))) }
{
    let node = view.node(id);
    match node.inside {
        Inside::Scalar(content) => put_scalar(sink, out, node.tag, content),
        Inside::Sequence(items) => {
            put_tag(sink, out, node.tag, Kind::Sequence)?;
            write_items(view, names, items, sink, out)
        }
        Inside::Mapping(entries) => {
            put_tag(sink, out, node.tag, Kind::Mapping)?;
            write_entries(view, names, entries, sink, out)
        }
    }
}

/// Writes items between brackets.
#[cycle(write)]
fn write_items<I: Copy, V: RankedNodes<I>, O, S: Sink<O>>(
    view: &V,
    names: &mut Names,
    items: &[I],
    sink: &mut S,
    out: &mut O,
) -> Result<(), Stop>
    requires ready { Ready V.stands V.count view.now names.old }
    requires within { All (λ i. V.number i < V.count view.now) items.now }
    ensures long { ranks_in names.new ≡ ranks_in names.old }
    ensures known { OnOk result (given_of names.new ≡ given_all (V.rank view.now) (trees_of V.tree V.number view.now items.now) (given_of names.old)) }
    ensures ok { OnOk result (Puts S.holds sink.old out.old sink.new out.new (λ more. c-sequence-start ∷ items_text [] (written_all (V.rank view.now) (trees_of V.tree V.number view.now items.now) (given_of names.old)) more)) }
    ensures err { IfErr result (λ stop. Fails S.holds S.stops sink.old out.old out.new (fault_of stop) (λ more. c-sequence-start ∷ items_text [] (written_all (V.rank view.now) (trees_of V.tree V.number view.now items.now) (given_of names.old)) more)) }
{
    sink.put(out, "[")?;
    for (place, item) in items.iter().enumerate() {
        put_separator(sink, out, place)?;
        write_node(view, names, *item, sink, out)?;
    }
    sink.put(out, "]")
}

/// Writes entries between braces.
#[cycle(write)]
fn write_entries<I: Copy, V: RankedNodes<I>, O, S: Sink<O>>(
    view: &V,
    names: &mut Names,
    entries: &[(I, I)],
    sink: &mut S,
    out: &mut O,
) -> Result<(), Stop>
    requires ready { Ready V.stands V.count view.now names.old }
    requires within { All (λ p. (V.number p.0 < V.count view.now) × (V.number p.1 < V.count view.now)) entries.now }
    ensures long { ranks_in names.new ≡ ranks_in names.old }
    ensures known { OnOk result (given_of names.new ≡ given_pairs (V.rank view.now) (pairs_of V.tree V.number view.now entries.now) (given_of names.old)) }
    ensures ok { OnOk result (Puts S.holds sink.old out.old sink.new out.new (λ more. c-mapping-start ∷ pairs_text [] (written_pairs (V.rank view.now) (pairs_of V.tree V.number view.now entries.now) (given_of names.old)) more)) }
    ensures err { IfErr result (λ stop. Fails S.holds S.stops sink.old out.old out.new (fault_of stop) (λ more. c-mapping-start ∷ pairs_text [] (written_pairs (V.rank view.now) (pairs_of V.tree V.number view.now entries.now) (given_of names.old)) more)) }
{
    sink.put(out, "{")?;
    for (place, entry) in entries.iter().enumerate() {
        put_separator(sink, out, place)?;
        write_node(view, names, entry.0, sink, out)?;
        sink.put(out, " : ")?;
        write_node(view, names, entry.1, sink, out)?;
    }
    sink.put(out, "}")
}
