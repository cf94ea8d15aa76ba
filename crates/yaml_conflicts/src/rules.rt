//! What the rules say of one place.
ghost use Rattle.std.specs.Prelude.{◌≡◌};
ghost use Rattle.yaml_conflicts.specs.Merge.{alike, follows, is_ruled, settled};
ghost use Rattle.yaml_diff.specs.Lines.{trees_of};
ghost use Rattle.yaml_diff.specs.Found.{Within};
ghost use Rattle.yaml_conflicts.specs.Found.{SidesWithin};

use crate::sides::Sides;
use yaml_store_rank::RankedForests;
use yaml_tree::node::NodeId;

/// Whether two nodes have the same tree, or neither is there.
pub(crate) fn is_alike(
    forests: &RankedForests<'_>,
    left: Option<NodeId>,
    right: Option<NodeId>,
) -> bool
    requires left { Within forests.now left }
    requires right { Within forests.now right }
    ensures { result ≡ alike (trees_of forests.now left) (trees_of forests.now right) }
{
    forests.laws();
    match left {
        Some(first) => match right {
            Some(second) => forests.rank(first) == forests.rank(second),
            None => false,
        },
        None => match right {
            Some(_) => false,
            None => true,
        },
    }
}

/// Whether one side is as the base, or both are alike.
fn has_rule(forests: &RankedForests<'_>, sides: Sides) -> bool
    requires within { SidesWithin forests.now sides }
    ensures { result ≡ is_ruled (trees_of forests.now sides.base) (trees_of forests.now sides.ours) (trees_of forests.now sides.theirs) }
{
    is_alike(forests, sides.ours, sides.base)
        || (is_alike(forests, sides.theirs, sides.base)
            || is_alike(forests, sides.ours, sides.theirs))
}

/// Whether the merge has what one of the rules says.
fn is_followed(forests: &RankedForests<'_>, sides: Sides) -> bool
    requires within { SidesWithin forests.now sides }
    ensures { result ≡ follows (trees_of forests.now sides.base) (trees_of forests.now sides.ours) (trees_of forests.now sides.theirs) (trees_of forests.now sides.merge) }
{
    let is_ours = is_alike(forests, sides.merge, sides.ours);
    (is_alike(forests, sides.ours, sides.base) && is_alike(forests, sides.merge, sides.theirs))
        || ((is_alike(forests, sides.theirs, sides.base) && is_ours)
            || (is_alike(forests, sides.ours, sides.theirs) && is_ours))
}

/// Whether nothing is left to ask: a merge that is given follows a rule there, or one can.
pub(crate) fn is_settled(forests: &RankedForests<'_>, sides: Sides, given: bool) -> bool
    requires within { SidesWithin forests.now sides }
    ensures { result ≡ settled given (trees_of forests.now sides.base) (trees_of forests.now sides.ours) (trees_of forests.now sides.theirs) (trees_of forests.now sides.merge) }
{
    if given {
        is_followed(forests, sides)
    } else {
        has_rule(forests, sides)
    }
}
