//! Nodes as values of JSON (RFC 8259).
ghost use Rattle.std.specs.Prelude.{◌≡◌, ℕ, ◌<◌, List, ◌++◌, ◌+◌, ◌-◌, ◌&&◌, length, map, min, not, bytes_eq, codes, string_bytes, OnOk, IfOk, IfSome, IfNone, IfErr};
ghost use Rattle.yaml_definitions.specs.model.Tree.{scalar, height, heights, heights_of_pairs};
ghost use Rattle.yaml_definitions.specs.model.Tag.{seq_tag, map_tag};
ghost use Rattle.yaml_definitions.specs.model.Order.{arranged};
ghost use Rattle.yaml_tree.specs.TreeLists.{trees, pairs};
ghost use Rattle.yaml_store_rank.specs.Forests.{count, tree, rank, entries_at, InKeyOrder};
ghost use Rattle.yaml_store_rank.specs.ArrangedForests.{two_arranged};
ghost use Rattle.yaml_show_scalar.specs.Stops.{limit_of, Stops};
ghost use Rattle.yaml_show_scalar.specs.Texts.{written};
ghost use Rattle.review_paths.specs.Budget.{room_left, one_value};
ghost use Rattle.review_paths.specs.Values.{comma, scalar_json, scalar_has_json, is_string, name_json, value_json, items_json, entries_json, has_json, items_have_json, entries_have_json, Says, SaysKey, SaysItems, SaysEntries, Unsays, HasNoValue, IsValueOf};

use crate::fit::content_of;
use crate::room::Room;
use crate::unsaid::Unsaid;
use std::alloc::{AllocError, Global};
use yaml_json::is_json;
use yaml_show_scalar::escapes::put_json_string;
use yaml_show_scalar::number::{is_in_words, put_float};
use yaml_show_scalar::tag::is_resolved;
use yaml_show_scalar::{Out, Stop};
use yaml_store_rank::RankedForests;
use yaml_text::core_tag;
use yaml_tree::node::NodeId;
use yaml_tree::shown::Inside;

/// How many nodes may be inside one another: some readers of JSON take no more than 127 arrays and objects, and the line is one.
const LEVELS: u16 = 100;

/// Whether JSON has a scalar of this tag and content.
#[tactic(auto, unfolding(crate::specs::Values::scalar_has_json, yaml_definitions::specs::model::Tag::core_tag))]
fn has_value(tag: &str, content: &str) -> bool
    ensures { result ≡ scalar_has_json tag.now content.now }
{
    tag == core_tag::STR || is_resolved(tag) && !(tag == core_tag::FLOAT && is_in_words(content))
}

/// Writes a scalar that JSON has.
#[tactic(auto, unfolding(crate::specs::Values::scalar_json, yaml_definitions::specs::model::Tag::core_tag))]
fn put_written(out: &mut Out, tag: &str, content: &str) -> Result<(), Stop>
    ensures ok { OnOk result (written out.new ≡ written out.old ++ scalar_json tag.now content.now) }
    ensures limit { limit_of out.new ≡ limit_of out.old }
    ensures err { IfErr result (Stops (limit_of out.old) (written out.old ++ scalar_json tag.now content.now)) }
{
    if tag == core_tag::STR {
        return put_json_string(out, content);
    }
    if tag == core_tag::FLOAT {
        return put_float(out, content);
    }
    out.put(content)
}

/// Writes a scalar, if JSON has it.
fn put_scalar(out: &mut Out, tag: &str, content: &str) -> Result<(), Unsaid>
    ensures ok { OnOk result (Says (scalar tag.now content.now) (written out.old) (written out.new)) }
    ensures limit { limit_of out.new ≡ limit_of out.old }
    ensures err { IfErr result (Unsays (scalar_has_json tag.now content.now) 0 1 (limit_of out.old) (written out.old ++ scalar_json tag.now content.now)) }
{
    if !has_value(tag, content) {
        return Err(Unsaid::NoValue);
    }
    put_written(out, tag, content)?;
    Ok(())
}

/// Writes a comma, but not before the first part.
fn put_comma(out: &mut Out, place: usize) -> Result<(), Stop>
    ensures ok { OnOk result (written out.new ≡ written out.old ++ comma place) }
    ensures limit { limit_of out.new ≡ limit_of out.old }
    ensures err { IfErr result (Stops (limit_of out.old) (written out.old ++ comma place)) }
{
    if place == 0 {
        return Ok(());
    }
    out.put(",")
}

/// Whether a tag is that of sequences.
#[tactic(auto, unfolding(yaml_definitions::specs::model::Tag::core_tag))]
fn is_sequence(tag: &str) -> bool
    ensures { result ≡ bytes_eq tag.now seq_tag }
{
    tag == core_tag::SEQ
}

/// Whether a tag is that of mappings.
#[tactic(auto, unfolding(yaml_definitions::specs::model::Tag::core_tag))]
fn is_mapping(tag: &str) -> bool
    ensures { result ≡ bytes_eq tag.now map_tag }
{
    tag == core_tag::MAP
}

/// Writes a key that is a string, and its colon.
fn put_key(forests: &RankedForests<'_>, key: NodeId, out: &mut Out) -> Result<(), Unsaid>
    ensures ok { OnOk result (SaysKey (arranged (tree forests.now key.0)) (written out.old) (written out.new)) }
    ensures limit { limit_of out.new ≡ limit_of out.old }
    ensures err { IfErr result (Unsays (is_string (arranged (tree forests.now key.0))) 0 1 (limit_of out.old) (written out.old ++ (name_json (arranged (tree forests.now key.0)) ++ codes ":"))) }
{
    let Some(name) = content_of(forests, key) else {
        return Err(Unsaid::NoValue);
    };
    put_json_string(out, name)?;
    out.put(":")?;
    Ok(())
}

/// Writes a node. Of its levels, so many are left.
#[cycle(value)]
fn put_value(
    forests: &RankedForests<'_>,
    id: NodeId,
    left: u16,
    out: &mut Out,
) -> Result<(), Unsaid>
    ensures ok { OnOk result (Says (arranged (tree forests.now id.0)) (written out.old) (written out.new)) }
    ensures limit { limit_of out.new ≡ limit_of out.old }
    ensures err { IfErr result (Unsays (has_json (arranged (tree forests.now id.0))) (height (arranged (tree forests.now id.0))) left (limit_of out.old) (written out.old ++ value_json (arranged (tree forests.now id.0)))) }
{
    let Some(shown) = forests.get(id) else {
        return Err(Unsaid::NoValue);
    };
    if left == 0 {
        return Err(Unsaid::NoValue);
    }
    forests.laws();
    match shown.inside {
        Inside::Scalar(content) => put_scalar(out, shown.tag, content),
        Inside::Sequence(items) => {
            if is_sequence(shown.tag) {
                put_items(forests, items, left - 1, out)
            } else {
                Err(Unsaid::NoValue)
            }
        }
        Inside::Mapping(entries) => {
            if is_mapping(shown.tag) {
                put_entries(forests, id, entries.len(), left - 1, out)
            } else {
                Err(Unsaid::NoValue)
            }
        }
    }
}

/// Writes items as an array.
#[cycle(value)]
fn put_items(
    forests: &RankedForests<'_>,
    items: &[NodeId],
    left: u16,
    out: &mut Out,
) -> Result<(), Unsaid>
    ensures ok { OnOk result (SaysItems (trees (map (λ i. arranged (tree forests.now i.0)) items.now)) (written out.old) (written out.new)) }
    ensures limit { limit_of out.new ≡ limit_of out.old }
    ensures err { IfErr result (Unsays (items_have_json (trees (map (λ i. arranged (tree forests.now i.0)) items.now))) (heights (trees (map (λ i. arranged (tree forests.now i.0)) items.now))) (left + 1) (limit_of out.old) (written out.old ++ (codes "[" ++ (items_json 0 (trees (map (λ i. arranged (tree forests.now i.0)) items.now)) ++ codes "]")))) }
{
    out.put("[")?;
    for (place, item) in items.iter().enumerate() {
        put_comma(out, place)?;
        put_value(forests, *item, left, out)?;
    }
    out.put("]")?;
    Ok(())
}

/// Writes the entries of a mapping as an object, in the order of their keys.
#[cycle(value)]
fn put_entries(
    forests: &RankedForests<'_>,
    mapping: NodeId,
    number: usize,
    left: u16,
    out: &mut Out,
) -> Result<(), Unsaid>
    requires within { mapping.0 < count forests.now }
    requires all { number ≡ length (entries_at forests.now mapping.0) }
    ensures ok { OnOk result ((sorted : List (ℕ × ℕ)) → InKeyOrder (rank forests.now) (entries_at forests.now mapping.0) sorted → SaysEntries (pairs (map (two_arranged forests.now) sorted)) (written out.old) (written out.new)) }
    ensures limit { limit_of out.new ≡ limit_of out.old }
    ensures err { (sorted : List (ℕ × ℕ)) → InKeyOrder (rank forests.now) (entries_at forests.now mapping.0) sorted → IfErr result (Unsays (entries_have_json (pairs (map (two_arranged forests.now) sorted))) (heights_of_pairs (pairs (map (two_arranged forests.now) sorted))) (left + 1) (limit_of out.old) (written out.old ++ (codes "{" ++ (entries_json 0 (pairs (map (two_arranged forests.now) sorted)) ++ codes "}")))) }
{
    out.put("{")?;
    for place in 0..number {
        put_comma(out, place)?;
        let (key, value) = forests.entry_in_order(mapping, place);
        put_key(forests, key, out)?;
        put_value(forests, value, left, out)?;
    }
    out.put("}")?;
    Ok(())
}

/// The value of a node as JSON, if JSON has it and there is room for it: null, a boolean, a number, a string, an array, and an object with
/// its keys in their order. JSON has no node with another tag than one of the core schema, no `.inf`, `-.inf` and `.nan`, and no key but a
/// string.
///
/// # Errors
/// `OutOfMemory`
pub fn value_text(
    alloc: Global,
    forests: &RankedForests<'_>,
    id: NodeId,
    room: &mut Room,
) -> Result<Option<String>, AllocError>
    ensures ok { IfOk result (λ text. IfSome text (λ json. IsValueOf (tree forests.now id.0) (string_bytes json))) }
    ensures none { IfOk result (λ text. IfNone text (HasNoValue (tree forests.now id.0) (min (room_left room.old) one_value))) }
    ensures room { IfOk result (λ text. IfSome text (λ json. room_left room.new ≡ room_left room.old - length (string_bytes json))) }
{
    let mut out = Out::new(alloc, room.next());
    let answer = put_value(forests, id, LEVELS, &mut out);
    room.take(out.text.as_str().len());
    match answer {
        Ok(()) => {}
        Err(Unsaid::Stopped(Stop::OutOfMemory)) => return Err(AllocError),
        Err(_) => return Ok(None),
    }
    if !is_json(alloc, out.text.as_str())? {
        return Ok(None);
    }
    Ok(Some(out.text))
}
