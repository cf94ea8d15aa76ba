//! Whether nodes are of one shape.
ghost use Rattle.std.specs.Prelude.{◌≡◌, ◌<◌, ◌&&◌, Some};
ghost use Rattle.yaml_tree.specs.Shown.{inside_shown};
ghost use Rattle.yaml_store_rank.specs.Forests.{count, tree};
ghost use Rattle.yaml_conflicts.specs.Merge.{one_shape, opens};
ghost use Rattle.yaml_diff.specs.Lines.{trees_of};
ghost use Rattle.yaml_diff.specs.Found.{Within};
ghost use Rattle.yaml_conflicts.specs.Found.{SidesWithin, is_mapping};

use crate::sides::Sides;
use yaml_store_rank::RankedForests;
use yaml_tree::node::NodeId;
use yaml_tree::shown::Inside;

fn are_mappings(left: Inside<'_, NodeId>, right: Inside<'_, NodeId>) -> bool
    ensures { result ≡ (is_mapping (inside_shown (λ i. i.0) left.entry) && is_mapping (inside_shown (λ i. i.0) right.entry)) }
{
    matches!(left, Inside::Mapping(_)) && matches!(right, Inside::Mapping(_))
}

/// Whether two nodes are mappings of one tag.
fn are_one_shape(forests: &RankedForests<'_>, left: NodeId, right: NodeId) -> bool
    requires left { left.0 < count forests.now }
    requires right { right.0 < count forests.now }
    ensures { result ≡ one_shape (Some (tree forests.now left.0)) (Some (tree forests.now right.0)) }
{
    forests.laws();
    let first = forests.node(left);
    let second = forests.node(right);
    first.tag == second.tag && are_mappings(first.inside, second.inside)
}

/// The same of places at which there may be no node.
#[tactic(auto, using(crate::proofs::NodeLaws::shape_none))]
fn has_shape(forests: &RankedForests<'_>, left: Option<NodeId>, right: Option<NodeId>) -> bool
    requires left { Within forests.now left }
    requires right { Within forests.now right }
    ensures { result ≡ one_shape (trees_of forests.now left) (trees_of forests.now right) }
{
    match left {
        Some(first) => match right {
            Some(second) => are_one_shape(forests, first, second),
            None => false,
        },
        None => false,
    }
}

/// Whether all four are mappings of one tag, so that what is inside is merged key by key.
pub(crate) fn is_open(forests: &RankedForests<'_>, sides: Sides) -> bool
    requires within { SidesWithin forests.now sides }
    ensures { result ≡ opens (trees_of forests.now sides.base) (trees_of forests.now sides.ours) (trees_of forests.now sides.theirs) (trees_of forests.now sides.merge) }
{
    has_shape(forests, sides.base, sides.ours)
        && (has_shape(forests, sides.base, sides.theirs)
            && has_shape(forests, sides.base, sides.merge))
}
