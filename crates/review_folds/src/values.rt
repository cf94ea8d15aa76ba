//! The parts of nodes.
ghost use Rattle.std.specs.Prelude.{◌≡◌, ◌<◌, Some, None};
ghost use Rattle.std.specs.List.{slice_get};
ghost use Rattle.yaml_definitions.specs.model.Tree.{Tree};
ghost use Rattle.yaml_store_rank.specs.Forests.{count as node_count, tree};
ghost use Rattle.yaml_path.specs.Path.{part, at_item, at_key};
ghost use Rattle.yaml_path.specs.Ways.{count};
ghost use Rattle.yaml_diff.specs.Lines.{trees_of};
ghost use Rattle.yaml_diff.specs.Found.{Within};
ghost use Rattle.review_folds.specs.Labels.{is_scalar, IsRankOf};

use yaml_diff::value_of;
use yaml_store_rank::RankedForests;
use yaml_tree::node::NodeId;
use yaml_tree::shown::Inside;

/// The rank of a node, if there is a node of this number.
pub(crate) fn rank_at(forests: &RankedForests<'_>, id: NodeId) -> Option<u32>
    ensures { result ≡ slice_get forests.now.ranks id.0 }
{
    forests.laws();
    if id.0 < forests.len() {
        Some(forests.rank(id))
    } else {
        None
    }
}

/// The value of the keys of this rank in a mapping. Another node has none.
#[tactic(auto, using(crate::proofs::ValueLaws::key_none, crate::proofs::ValueLaws::value_by, crate::proofs::ValueLaws::no_part, crate::proofs::ValueLaws::value_within))]
pub(crate) fn value_in(
    forests: &RankedForests<'_>,
    node: NodeId,
    rank: Option<u32>,
) -> Option<NodeId>
    ensures part { (x : Tree) → IsRankOf forests.now x rank → trees_of forests.now result ≡ part (tree forests.now node.0) (at_key x) }
    ensures within { Within forests.now result }
    ensures none { rank ≡ None → result ≡ None }
{
    forests.laws();
    let Some(rank) = rank else {
        return None;
    };
    if node.0 < forests.len() {
        value_of(forests, node, rank)
    } else {
        None
    }
}

/// The node at a place of a list, if there is one.
pub(crate) fn node_at(list: &[NodeId], place: usize) -> Option<NodeId>
    ensures { result ≡ slice_get list.now place }
{
    list.get(place).copied()
}

/// The item at this place of a sequence. Another node has none.
#[tactic(auto, using(crate::proofs::ValueLaws::no_part, crate::proofs::ValueLaws::scalar_part, crate::proofs::ValueLaws::sequence_item, crate::proofs::ValueLaws::mapping_item))]
pub(crate) fn item_in(forests: &RankedForests<'_>, node: NodeId, place: usize) -> Option<NodeId>
    ensures { trees_of forests.now result ≡ part (tree forests.now node.0) (at_item place) }
{
    forests.laws();
    let Some(shown) = forests.get(node) else {
        return None;
    };
    match shown.inside {
        Inside::Scalar(_) => None,
        Inside::Sequence(items) => node_at(items, place),
        Inside::Mapping(_) => None,
    }
}

/// How many items a sequence has. Another node has none.
#[tactic(auto, using(crate::proofs::ValueLaws::no_count, crate::proofs::ValueLaws::scalar_count, crate::proofs::ValueLaws::sequence_count, crate::proofs::ValueLaws::mapping_count))]
pub(crate) fn count_in(forests: &RankedForests<'_>, node: NodeId) -> usize
    ensures { result ≡ count (Some (tree forests.now node.0)) }
{
    forests.laws();
    let Some(shown) = forests.get(node) else {
        return 0;
    };
    match shown.inside {
        Inside::Scalar(_) => 0,
        Inside::Sequence(items) => items.len(),
        Inside::Mapping(_) => 0,
    }
}

/// Whether a node is a scalar.
#[tactic(auto, using(crate::proofs::ValueLaws::not_there, crate::proofs::ValueLaws::is_one, crate::proofs::ValueLaws::is_sequence, crate::proofs::ValueLaws::is_mapping))]
pub(crate) fn is_scalar(forests: &RankedForests<'_>, node: NodeId) -> bool
    ensures { node.0 < node_count forests.now → result ≡ is_scalar (tree forests.now node.0) }
{
    forests.laws();
    let Some(shown) = forests.get(node) else {
        return false;
    };
    match shown.inside {
        Inside::Scalar(_) => true,
        Inside::Sequence(_) => false,
        Inside::Mapping(_) => false,
    }
}
