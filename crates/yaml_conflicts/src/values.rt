//! The values of a key.
ghost use Rattle.std.specs.Prelude.{◌≡◌, ◌<◌, Some};
ghost use Rattle.yaml_store_rank.specs.Forests.{count, tree};
ghost use Rattle.yaml_path.specs.Path.{part, part_of, at_key};
ghost use Rattle.yaml_diff.specs.Lines.{tree_of, trees_of};
ghost use Rattle.yaml_diff.specs.Found.{Within};
ghost use Rattle.yaml_conflicts.specs.Found.{IsBelow, SidesWithin, ValuesAre, SidesBelow};

use crate::sides::Sides;
use yaml_diff::value_of;
use yaml_store_rank::RankedForests;
use yaml_tree::node::NodeId;

/// The value of this key in a node, if it is a mapping and has one.
fn value_in(forests: &RankedForests<'_>, node: NodeId, key: NodeId) -> Option<NodeId>
    requires within { node.0 < count forests.now }
    requires key { key.0 < count forests.now }
    ensures part { trees_of forests.now result ≡ part (tree forests.now node.0) (at_key (tree forests.now key.0)) }
    ensures below { IsBelow result (Some node) }
{
    forests.laws();
    value_of(forests, node, forests.rank(key))
}

/// The value of this key in a node, if there is a node.
pub(crate) fn value_at(
    forests: &RankedForests<'_>,
    node: Option<NodeId>,
    key: NodeId,
) -> Option<NodeId>
    requires within { Within forests.now node }
    requires key { key.0 < count forests.now }
    ensures part { trees_of forests.now result ≡ part_of (trees_of forests.now node) (at_key (tree_of forests.now key)) }
    ensures below { IsBelow result node }
{
    match node {
        Some(id) => value_in(forests, id, key),
        None => None,
    }
}

/// The value of this key on each side.
pub(crate) fn values_at(forests: &RankedForests<'_>, sides: Sides, key: NodeId) -> Sides
    requires within { SidesWithin forests.now sides }
    requires key { key.0 < count forests.now }
    ensures values { ValuesAre forests.now (tree_of forests.now key) sides result }
    ensures below { SidesBelow result sides }
{
    Sides {
        base: value_at(forests, sides.base, key),
        ours: value_at(forests, sides.ours, key),
        theirs: value_at(forests, sides.theirs, key),
        merge: value_at(forests, sides.merge, key),
    }
}
