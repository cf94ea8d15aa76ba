//! Documents as lines of JSON (RFC 8259).
ghost use Rattle.std.specs.Prelude.{◌≡◌, ℕ, List, ◌<◌, ◌++◌, ◌∷◌, [], Bool, true, bytes_eq, codes, map, string_bytes, OnOk, IfOk, IfErr};
ghost use Rattle.std.specs.List.{All, list_all};
ghost use Rattle.yaml_definitions.specs.model.Tag.{str_tag, seq_tag, map_tag};
ghost use Rattle.yaml_definitions.specs.model.Limits.{text_limit};
ghost use Rattle.yaml_spell.specs.RankedNodes.{Rooted, tree_of, trees_of, pairs_of};
ghost use Rattle.yaml_show_scalar.specs.Escapes.{quoted};
ghost use Rattle.yaml_show_scalar.specs.declared.escapes.Language.TheVariants.{Json};
ghost use Rattle.yaml_show_scalar.specs.Stops.{limit_of, Stops};
ghost use Rattle.yaml_show_scalar.specs.Texts.{written};
ghost use Rattle.yaml_definitions.specs.grammar.Characters.{c-mapping-start, c-sequence-start};
ghost use Rattle.yaml_show.specs.JsonText.{json_scalar, json_key, json_text, json_items, json_entries, line_stream};
ghost use Rattle.yaml_show.specs.JsonTrees.{scalar_has_json, key_has_json, has_json, items_have_json, entries_have_json, Says, Lacks, Overruns};

use crate::flow::put_separator;
use crate::unwritten::Unwritten;
use std::alloc::Global;
use yaml_show_scalar::escapes::put_json_string;
use yaml_show_scalar::number::{is_in_words, put_float};
use yaml_show_scalar::tag::is_resolved;
use yaml_show_scalar::{Out, Stop};
use yaml_spell::ranked::RankedNodes;
use yaml_text::core_tag;
use yaml_text::limits::text_limit;
use yaml_tree::shown::Inside;

/// Whether JSON has a scalar of this tag and content.
#[tactic(auto, unfolding(crate::specs::JsonTrees::scalar_has_json, yaml_definitions::specs::model::Tag::core_tag))]
fn has_scalar(tag: &str, content: &str) -> bool
    ensures { result ≡ scalar_has_json tag.now content.now }
{
    tag == core_tag::STR || is_resolved(tag) && !(tag == core_tag::FLOAT && is_in_words(content))
}

/// Writes a scalar that JSON has.
#[tactic(auto, unfolding(crate::specs::JsonText::json_scalar, yaml_definitions::specs::model::Tag::core_tag))]
fn put_text(out: &mut Out, tag: &str, content: &str) -> Result<(), Stop>
    ensures ok { OnOk result (written out.new ≡ written out.old ++ json_scalar tag.now content.now) }
    ensures limit { limit_of out.new ≡ limit_of out.old }
    ensures err { IfErr result (Stops (limit_of out.old) (written out.old ++ json_scalar tag.now content.now)) }
{
    if tag == core_tag::STR {
        return put_json_string(out, content);
    }
    if tag == core_tag::FLOAT {
        return put_float(out, content);
    }
    out.put(content)
}

/// Writes a scalar, if JSON has it.
#[tactic(auto, using(crate::proofs::JsonLaws::stop_lacks))]
fn put_json_scalar(out: &mut Out, tag: &str, content: &str) -> Result<(), Unwritten>
    ensures ok { OnOk result (Says (scalar_has_json tag.now content.now) (json_scalar tag.now content.now) (written out.old) (written out.new)) }
    ensures err { IfErr result (Lacks (scalar_has_json tag.now content.now)) }
    ensures limit { limit_of out.new ≡ limit_of out.old }
    ensures stops { IfErr result (Overruns (limit_of out.old) (written out.old ++ (json_scalar tag.now content.now))) }
{
    if !has_scalar(tag, content) {
        return Err(Unwritten::NoJson);
    }
    put_text(out, tag, content)?;
    Ok(())
}

/// Whether a tag is that of strings.
#[tactic(auto, unfolding(yaml_definitions::specs::model::Tag::core_tag))]
fn is_string(tag: &str) -> bool
    ensures { result ≡ bytes_eq tag.now str_tag }
{
    tag == core_tag::STR
}

/// Whether a tag is that of sequences.
#[tactic(auto, unfolding(yaml_definitions::specs::model::Tag::core_tag))]
fn is_sequence(tag: &str) -> bool
    ensures { result ≡ bytes_eq tag.now seq_tag }
{
    tag == core_tag::SEQ
}

/// Whether a tag is that of mappings.
#[tactic(auto, unfolding(yaml_definitions::specs::model::Tag::core_tag))]
fn is_mapping(tag: &str) -> bool
    ensures { result ≡ bytes_eq tag.now map_tag }
{
    tag == core_tag::MAP
}

/// Writes a key that is a string, and its colon.
#[tactic(auto, using(crate::proofs::JsonLaws::stop_lacks))]
fn put_string_key(out: &mut Out, tag: &str, content: &str) -> Result<(), Unwritten>
    ensures ok { OnOk result (Says (bytes_eq tag.now str_tag) (quoted Json content.now ++ codes ": ") (written out.old) (written out.new)) }
    ensures err { IfErr result (Lacks (bytes_eq tag.now str_tag)) }
    ensures limit { limit_of out.new ≡ limit_of out.old }
    ensures stops { IfErr result (Overruns (limit_of out.old) (written out.old ++ (quoted Json content.now ++ codes ": "))) }
{
    if !is_string(tag) {
        return Err(Unwritten::NoJson);
    }
    put_json_string(out, content)?;
    out.put(": ")?;
    Ok(())
}

/// Writes a key, if it is a string, and its colon.
fn put_json_key<I: Copy, V: RankedNodes<I>>(view: &V, id: I, out: &mut Out) -> Result<(), Unwritten>
    requires stands { V.stands view.now }
    requires within { V.number id < V.count view.now }
    ensures ok { OnOk result (Says (key_has_json (V.tree view.now (V.number id))) (json_key (V.tree view.now (V.number id))) (written out.old) (written out.new)) }
    ensures err { IfErr result (Lacks (key_has_json (V.tree view.now (V.number id)))) }
    ensures limit { limit_of out.new ≡ limit_of out.old }
    ensures stops { IfErr result (Overruns (limit_of out.old) (written out.old ++ (json_key (V.tree view.now (V.number id))))) }
{
    let node = view.node(id);
    match node.inside {
        Inside::Scalar(content) => put_string_key(out, node.tag, content),
        Inside::Sequence(_) => Err(Unwritten::NoJson),
        Inside::Mapping(_) => Err(Unwritten::NoJson),
    }
}

/// Writes a node, if JSON has it.
#[cycle(json)]
fn put_json<I: Copy, V: RankedNodes<I>>(view: &V, id: I, out: &mut Out) -> Result<(), Unwritten>
    requires stands { V.stands view.now }
    requires within { V.number id < V.count view.now }
    ensures ok { OnOk result (Says (has_json (V.tree view.now (V.number id))) (json_text (V.tree view.now (V.number id))) (written out.old) (written out.new)) }
    ensures err { IfErr result (Lacks (has_json (V.tree view.now (V.number id)))) }
    ensures limit { limit_of out.new ≡ limit_of out.old }
    ensures stops { IfErr result (Overruns (limit_of out.old) (written out.old ++ (json_text (V.tree view.now (V.number id))))) }
{
    let node = view.node(id);
    match node.inside {
        Inside::Scalar(content) => put_json_scalar(out, node.tag, content),
        Inside::Sequence(items) => {
            if is_sequence(node.tag) {
                put_json_items(view, items, out)
            } else {
                Err(Unwritten::NoJson)
            }
        }
        Inside::Mapping(entries) => {
            if is_mapping(node.tag) {
                put_json_entries(view, entries, out)
            } else {
                Err(Unwritten::NoJson)
            }
        }
    }
}

/// Writes the items of a sequence as an array, if JSON has each.
#[cycle(json)]
fn put_json_items<I: Copy, V: RankedNodes<I>>(
    view: &V,
    items: &[I],
    out: &mut Out,
) -> Result<(), Unwritten>
    requires stands { V.stands view.now }
    requires within { All (λ i. V.number i < V.count view.now) items.now }
    ensures ok { OnOk result (Says (items_have_json (trees_of V.tree V.number view.now items.now)) (c-sequence-start ∷ json_items [] (trees_of V.tree V.number view.now items.now)) (written out.old) (written out.new)) }
    ensures err { IfErr result (Lacks (items_have_json (trees_of V.tree V.number view.now items.now))) }
    ensures limit { limit_of out.new ≡ limit_of out.old }
    ensures stops { IfErr result (Overruns (limit_of out.old) (written out.old ++ (c-sequence-start ∷ json_items [] (trees_of V.tree V.number view.now items.now)))) }
{
    out.put("[")?;
    for (place, item) in items.iter().enumerate() {
        put_separator(out, place)?;
        put_json(view, *item, out)?;
    }
    out.put("]")?;
    Ok(())
}

/// Writes the entries of a mapping as an object, if each key is a string and JSON has each value.
#[cycle(json)]
fn put_json_entries<I: Copy, V: RankedNodes<I>>(
    view: &V,
    entries: &[(I, I)],
    out: &mut Out,
) -> Result<(), Unwritten>
    requires stands { V.stands view.now }
    requires within { All (λ p. (V.number p.0 < V.count view.now) × (V.number p.1 < V.count view.now)) entries.now }
    ensures ok { OnOk result (Says (entries_have_json (pairs_of V.tree V.number view.now entries.now)) (c-mapping-start ∷ json_entries [] (pairs_of V.tree V.number view.now entries.now)) (written out.old) (written out.new)) }
    ensures err { IfErr result (Lacks (entries_have_json (pairs_of V.tree V.number view.now entries.now))) }
    ensures limit { limit_of out.new ≡ limit_of out.old }
    ensures stops { IfErr result (Overruns (limit_of out.old) (written out.old ++ (c-mapping-start ∷ json_entries [] (pairs_of V.tree V.number view.now entries.now)))) }
{
    out.put("{")?;
    for (place, entry) in entries.iter().enumerate() {
        put_separator(out, place)?;
        put_json_key(view, entry.0, out)?;
        put_json(view, entry.1, out)?;
    }
    out.put("}")?;
    Ok(())
}

/// Adds a line.
fn add_line(lines: &mut Vec<String>, line: String) -> Result<(), Unwritten>
    ensures ok { OnOk result (lines.new.items ≡ lines.old.items ++ (line ∷ [])) }
    ensures err { (has : Bool) → IfErr result (Lacks has) }
    ensures stops { (limit : ℕ) (text : List ℕ) → IfErr result (Overruns limit text) }
{
    match lines.push(line) {
        Ok(()) => Ok(()),
        Err(_) => Err(Unwritten::Stopped(Stop::OutOfMemory)),
    }
}

/// The documents of these roots as JSON: a line for each, without its line feed. Keys are in the order of their bytes if the trees are
/// arranged.
///
/// # Errors
/// `NoJson`: a key is no string, a float is `.inf`, `-.inf` or `.nan`, or a tag is none of the core schema. `Stopped`: memory does not
/// suffice, or the lines, with five bytes for each more, would have more than 67,108,864 bytes.
pub fn json_lines<I: Copy, V: RankedNodes<I>>(
    alloc: Global,
    view: &V,
    roots: &[I],
) -> Result<Vec<String>, Unwritten>
    requires { Rooted V.stands V.count V.number view.now roots.now }
    ensures ok { IfOk result (λ lines. (map string_bytes lines.items ≡ map json_text (map (tree_of V.tree V.number view.now) roots.now)) × (list_all has_json (map (tree_of V.tree V.number view.now) roots.now) ≡ true)) }
    ensures err { IfErr result (Lacks (list_all has_json (map (tree_of V.tree V.number view.now) roots.now))) }
    ensures stops { IfErr result (Overruns text_limit (line_stream (map (tree_of V.tree V.number view.now) roots.now))) }
{
    let mut lines = Vec::new(alloc);
    let mut left = text_limit();
    for root in roots {
        let mut line = Out::new(alloc, left);
        put_json(view, *root, &mut line)?;
        left = line.left().saturating_sub(5);
        add_line(&mut lines, line.text)?;
    }
    Ok(lines)
}
