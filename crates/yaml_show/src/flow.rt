//! Nodes on one line.
ghost use Rattle.std.specs.Prelude.{◌≡◌, ◌<◌, ◌&&◌, nat_le, length, ◌++◌, ◌∷◌, [], OnOk, IfErr};
ghost use Rattle.std.specs.List.{All};
ghost use Rattle.yaml_spell.specs.RankedNodes.{trees_of, pairs_of};
ghost use Rattle.yaml_spell.specs.Walked.{separator};
ghost use Rattle.yaml_show_scalar.specs.Stops.{limit_of, Stops};
ghost use Rattle.yaml_show_scalar.specs.Texts.{written};
ghost use Rattle.yaml_definitions.specs.grammar.Characters.{c-mapping-start, c-sequence-start};
ghost use Rattle.yaml_show.specs.Flow.{is_short, is_simple, mark, colon, flow_text, flow_items, flow_entries};

use yaml_show_scalar::scalar::put_scalar;
use yaml_show_scalar::tag::put_tag_before;
use yaml_show_scalar::{Out, Quotes, Stop};
use yaml_spell::ranked::RankedNodes;
use yaml_text::core_tag;
use yaml_tree::shown::Inside;

/// Whether a scalar has so few bytes that its text is no longer than a key's may be, whatever escapes it needs.
fn is_short_scalar(tag: &str, content: &str) -> bool
    ensures { result ≡ (nat_le (length content.now) 200 && nat_le (length tag.now) 64) }
{
    content.len() <= 200 && tag.len() <= 64
}

/// Whether a node is such a scalar.
pub(crate) fn is_short<I: Copy, V: RankedNodes<I>>(view: &V, id: I) -> bool
    requires stands { V.stands view.now }
    requires within { V.number id < V.count view.now }
    ensures { result ≡ is_short (V.tree view.now (V.number id)) }
{
    let node = view.node(id);
    match node.inside {
        Inside::Scalar(content) => is_short_scalar(node.tag, content),
        Inside::Sequence(_) => false,
        Inside::Mapping(_) => false,
    }
}

/// Whether a key has no `? ` before it. A key of a block mapping is short as a whole, so no key in it needs one.
pub(crate) fn is_simple_key<I: Copy, V: RankedNodes<I>>(view: &V, key: I, in_key: bool) -> bool
    requires stands { V.stands view.now }
    requires within { V.number key < V.count view.now }
    ensures { result ≡ is_simple in_key (V.tree view.now (V.number key)) }
{
    in_key || is_short(view, key)
}

/// Writes what is before the part at this place.
pub(crate) fn put_separator(out: &mut Out, place: usize) -> Result<(), Stop>
    ensures ok { OnOk result (written out.new ≡ written out.old ++ separator place) }
    ensures limit { limit_of out.new ≡ limit_of out.old }
    ensures err { IfErr result (Stops (limit_of out.old) (written out.old ++ separator place)) }
{
    if place == 0 {
        return Ok(());
    }
    out.put(", ")
}

/// Writes what is before a key.
fn put_mark(out: &mut Out, is_simple: bool) -> Result<(), Stop>
    ensures ok { OnOk result (written out.new ≡ written out.old ++ mark is_simple) }
    ensures limit { limit_of out.new ≡ limit_of out.old }
    ensures err { IfErr result (Stops (limit_of out.old) (written out.old ++ mark is_simple)) }
{
    if is_simple {
        return Ok(());
    }
    out.put("? ")
}

/// Writes what is between a key and its value.
fn put_colon(out: &mut Out, is_simple: bool) -> Result<(), Stop>
    ensures ok { OnOk result (written out.new ≡ written out.old ++ colon is_simple) }
    ensures limit { limit_of out.new ≡ limit_of out.old }
    ensures err { IfErr result (Stops (limit_of out.old) (written out.old ++ colon is_simple)) }
{
    out.put(if is_simple { ": " } else { " : " })
}

/// Writes a node on one line, in a key of a block mapping or elsewhere. Each string in it is quoted.
#[cycle(flow)]
pub(crate) fn put_flow<I: Copy, V: RankedNodes<I>>(
    view: &V,
    id: I,
    in_key: bool,
    out: &mut Out,
) -> Result<(), Stop>
    requires stands { V.stands view.now }
    requires within { V.number id < V.count view.now }
    ensures ok { OnOk result (written out.new ≡ written out.old ++ flow_text in_key (V.tree view.now (V.number id))) }
    ensures limit { limit_of out.new ≡ limit_of out.old }
    ensures err { IfErr result (Stops (limit_of out.old) (written out.old ++ flow_text in_key (V.tree view.now (V.number id)))) }
{
    let node = view.node(id);
    match node.inside {
        Inside::Scalar(content) => put_scalar(out, node.tag, content, Quotes::Always),
        Inside::Sequence(items) => {
            put_tag_before(out, node.tag, core_tag::SEQ)?;
            put_flow_items(view, items, in_key, out)
        }
        Inside::Mapping(entries) => {
            put_tag_before(out, node.tag, core_tag::MAP)?;
            put_flow_entries(view, entries, in_key, out)
        }
    }
}

/// Writes the items of a sequence between brackets.
#[cycle(flow)]
fn put_flow_items<I: Copy, V: RankedNodes<I>>(
    view: &V,
    items: &[I],
    in_key: bool,
    out: &mut Out,
) -> Result<(), Stop>
    requires stands { V.stands view.now }
    requires within { All (λ i. V.number i < V.count view.now) items.now }
    ensures ok { OnOk result (written out.new ≡ written out.old ++ (c-sequence-start ∷ flow_items in_key [] (trees_of V.tree V.number view.now items.now))) }
    ensures limit { limit_of out.new ≡ limit_of out.old }
    ensures err { IfErr result (Stops (limit_of out.old) (written out.old ++ (c-sequence-start ∷ flow_items in_key [] (trees_of V.tree V.number view.now items.now)))) }
{
    out.put("[")?;
    for (place, item) in items.iter().enumerate() {
        put_separator(out, place)?;
        put_flow(view, *item, in_key, out)?;
    }
    out.put("]")
}

/// Writes the entries of a mapping between braces.
#[cycle(flow)]
fn put_flow_entries<I: Copy, V: RankedNodes<I>>(
    view: &V,
    entries: &[(I, I)],
    in_key: bool,
    out: &mut Out,
) -> Result<(), Stop>
    requires stands { V.stands view.now }
    requires within { All (λ p. (V.number p.0 < V.count view.now) × (V.number p.1 < V.count view.now)) entries.now }
    ensures ok { OnOk result (written out.new ≡ written out.old ++ (c-mapping-start ∷ flow_entries in_key [] (pairs_of V.tree V.number view.now entries.now))) }
    ensures limit { limit_of out.new ≡ limit_of out.old }
    ensures err { IfErr result (Stops (limit_of out.old) (written out.old ++ (c-mapping-start ∷ flow_entries in_key [] (pairs_of V.tree V.number view.now entries.now)))) }
{
    out.put("{")?;
    for (place, entry) in entries.iter().enumerate() {
        put_separator(out, place)?;
        put_flow_entry(view, entry.0, entry.1, in_key, out)?;
    }
    out.put("}")
}

/// Writes an entry of a mapping. A key that is not simple is behind `? `: some readers take no more than 1,024 characters without it,
/// and some reject it in a key of a block mapping. It is inlined so that nesting takes no more of the stack.
#[cycle(flow)]
#[inline(always)]
fn put_flow_entry<I: Copy, V: RankedNodes<I>>(
    view: &V,
    key: I,
    value: I,
    in_key: bool,
    out: &mut Out,
) -> Result<(), Stop>
    requires stands { V.stands view.now }
    requires key_within { V.number key < V.count view.now }
    requires value_within { V.number value < V.count view.now }
    ensures ok { OnOk result (written out.new ≡ written out.old ++ (mark (is_simple in_key (V.tree view.now (V.number key))) ++ (flow_text in_key (V.tree view.now (V.number key)) ++ (colon (is_simple in_key (V.tree view.now (V.number key))) ++ flow_text in_key (V.tree view.now (V.number value)))))) }
    ensures limit { limit_of out.new ≡ limit_of out.old }
    ensures err { IfErr result (Stops (limit_of out.old) (written out.old ++ (mark (is_simple in_key (V.tree view.now (V.number key))) ++ (flow_text in_key (V.tree view.now (V.number key)) ++ (colon (is_simple in_key (V.tree view.now (V.number key))) ++ flow_text in_key (V.tree view.now (V.number value))))))) }
{
    let is_simple = is_simple_key(view, key, in_key);
    put_mark(out, is_simple)?;
    put_flow(view, key, in_key, out)?;
    put_colon(out, is_simple)?;
    put_flow(view, value, in_key, out)
}
