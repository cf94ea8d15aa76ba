//! What pairing asks of a node. A number past the last node is a node without text, parts or entries.
ghost use Rattle.std.specs.Prelude.{◌≡◌, ◌<◌};
ghost use Rattle.std.specs.Option.{option_map};
ghost use Rattle.yaml_definitions.specs.model.Tag.{str_tag};
ghost use Rattle.yaml_definitions.specs.model.Tree.{scalar};
ghost use Rattle.yaml_definitions.specs.model.Same.{same};
ghost use Rattle.yaml_tree.specs.TreeLists.{pairs};
ghost use Rattle.yaml_store_rank.specs.Forests.{count, tree, rank, entry_trees};
ghost use Rattle.yaml_path.specs.Path.{part, value_in};
ghost use Rattle.yaml_pair.specs.Names.{to_key, scalar_of, content_of};
ghost use Rattle.yaml_pair.specs.Named.{EntriesWithin, IsFound, IsScalarRank, width};

use yaml_store_rank::RankedForests;
use yaml_text::core_tag;
use yaml_tree::node::NodeId;
use yaml_tree::shown::Inside;

/// The rank of a node; 0 where there is none.
pub(crate) fn rank_at(forests: &RankedForests<'_>, id: NodeId) -> usize
    ensures { id.0 < count forests.now → result ≡ rank forests.now id.0 }
{
    if id.0 < forests.len() {
        forests.rank(id) as usize
    } else {
        0
    }
}

/// The entries of a mapping as they are written; none of another node.
pub(crate) fn entries_at<'g>(forests: &'g RankedForests<'_>, id: NodeId) -> &'g [(NodeId, NodeId)] {
    match forests.get(id) {
        Some(node) => match node.inside {
            Inside::Mapping(entries) => entries,
            _ => &[],
        },
        None => &[],
    }
}

/// The items of a sequence; none of another node.
pub(crate) fn items_at<'g>(forests: &'g RankedForests<'_>, id: NodeId) -> &'g [NodeId] {
    match forests.get(id) {
        Some(node) => match node.inside {
            Inside::Sequence(items) => items,
            _ => &[],
        },
        None => &[],
    }
}

/// The content of a scalar.
pub(crate) fn text_at<'g>(forests: &'g RankedForests<'_>, id: NodeId) -> Option<&'g str>
    ensures { id.0 < count forests.now → option_map (λ content. content.now) result ≡ content_of (tree forests.now id.0) }
{
    forests.laws();
    match forests.get(id)?.inside {
        Inside::Scalar(content) => Some(content),
        _ => None,
    }
}

/// The rank of a scalar.
pub(crate) fn scalar_rank_at(forests: &RankedForests<'_>, id: NodeId) -> Option<usize>
    ensures { id.0 < count forests.now → IsScalarRank forests.now (scalar_of (tree forests.now id.0)) result }
{
    forests.laws();
    match forests.get(id)?.inside {
        Inside::Scalar(_) => Some(rank_at(forests, id)),
        _ => None,
    }
}

/// Whether a node is this text.
fn is_text(forests: &RankedForests<'_>, id: NodeId, text: &str) -> bool
    ensures { id.0 < count forests.now → result ≡ same (scalar str_tag text.now) (tree forests.now id.0) }
{
    forests.laws();
    match forests.get(id) {
        Some(node) => match node.inside {
            Inside::Scalar(content) => core_tag::STR == node.tag && text == content,
            _ => false,
        },
        None => false,
    }
}

/// The value of the first key that is this text.
fn value_in(forests: &RankedForests<'_>, entries: &[(NodeId, NodeId)], key: &str) -> Option<NodeId>
    ensures { EntriesWithin forests.now entries.now → IsFound forests.now (value_in (pairs (entry_trees forests.now entries.now)) (scalar str_tag key.now)) result }
{
    for (name, value) in entries {
        if is_text(forests, *name, key) {
            return Some(*value);
        }
    }
    None
}

/// The value of the key of a mapping that is this text.
pub(crate) fn value_at(forests: &RankedForests<'_>, id: NodeId, key: &str) -> Option<NodeId>
    ensures { id.0 < count forests.now → IsFound forests.now (part (tree forests.now id.0) (to_key key.now)) result }
{
    forests.laws();
    match forests.get(id)?.inside {
        Inside::Mapping(entries) => value_in(forests, entries, key),
        _ => None,
    }
}

/// Whether a mapping has a key that is equal to this node.
pub(crate) fn has_key(forests: &RankedForests<'_>, mapping: NodeId, key: NodeId) -> bool {
    if mapping.0 < forests.len() && key.0 < forests.len() {
        forests.find(mapping, forests.rank(key)).is_some()
    } else {
        false
    }
}

/// How many entries or items a node has.
pub(crate) fn width(forests: &RankedForests<'_>, id: NodeId) -> usize
    ensures { id.0 < count forests.now → result ≡ width (tree forests.now id.0) }
{
    forests.laws();
    match forests.get(id) {
        Some(node) => match node.inside {
            Inside::Scalar(_) => 0,
            Inside::Sequence(items) => items.len(),
            Inside::Mapping(entries) => entries.len(),
        },
        None => 0,
    }
}

/// Whether two nodes are mappings, or sequences, of one tag.
pub(crate) fn are_collections(forests: &RankedForests<'_>, left: NodeId, right: NodeId) -> bool {
    match (forests.get(left), forests.get(right)) {
        (Some(left), Some(right)) => {
            left.tag == right.tag && are_of_a_kind(left.inside, right.inside)
        }
        _ => false,
    }
}

/// Whether two nodes are mappings or sequences.
fn are_of_a_kind(left: Inside<'_, NodeId>, right: Inside<'_, NodeId>) -> bool {
    match (left, right) {
        (Inside::Mapping(_), Inside::Mapping(_)) => true,
        (Inside::Sequence(_), Inside::Sequence(_)) => true,
        _ => false,
    }
}

/// Whether a node is a mapping.
pub(crate) fn is_mapping(forests: &RankedForests<'_>, id: NodeId) -> bool {
    match forests.get(id) {
        Some(node) => match node.inside {
            Inside::Mapping(_) => true,
            _ => false,
        },
        None => false,
    }
}
