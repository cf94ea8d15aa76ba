//! Heights of nodes, from those of their parts.
ghost use Rattle.std.specs.Prelude.{◌≡◌, ◌<◌, ℕ, suc, min, max, List, map, length, MatchOption};
ghost use Rattle.std.specs.List.{All};
ghost use Rattle.yaml_definitions.specs.model.Limits as limit;
ghost use Rattle.yaml_definitions.specs.model.Tree.{Tree, sequence, mapping};
ghost use Rattle.yaml_tree.specs.TreeLists.{trees, pairs, cut};
ghost use Rattle.yaml_graph.specs.GraphModel.{trees_at, entries_at, kind_tree, PartsBelow};
ghost use Rattle.yaml_graph.specs.ComposerModel.{AllBelow, IsFirstAbove};

use crate::node::NodeKind;
use yaml_text::limits::height_limit;
use yaml_tree::node::NodeId;

/// What stands for every height above the limit.
fn too_high() -> u32
    ensures { result ≡ suc limit.height_limit }
{
    height_limit() as u32 + 1
}

/// The height of a collection with one more part, from its height so far.
fn with(height: u32, part: u32) -> u32
    ensures { result ≡ min (max height (suc part)) (suc limit.height_limit) }
{
    height.max(part.saturating_add(1)).min(too_high())
}

/// The height of the node of this number, from those of the nodes before it.
pub(crate) fn of_kind(heights: &[u32], kind: &NodeKind<'_>) -> u32
    requires { PartsBelow (length heights.now) kind.now }
    ensures { (ts : List Tree) → heights.now ≡ map cut ts → (g : List ℕ) → result ≡ cut (kind_tree ts g kind.now) }
{
    match kind {
        NodeKind::Scalar(_) => 0,
        NodeKind::Sequence(items) => of_items(heights, items),
        NodeKind::Mapping(entries) => of_entries(heights, entries),
    }
}

fn of_items(heights: &[u32], items: &[NodeId]) -> u32
    requires { All (λ i. i.0 < length heights.now) items.now }
    ensures { (ts : List Tree) → heights.now ≡ map cut ts → (g : List ℕ) → result ≡ cut (sequence g (trees (trees_at ts items.now))) }
{
    let mut height = 0;
    for item in items {
        height = with(height, heights[item.0]);
    }
    height
}

fn of_entries(heights: &[u32], entries: &[(NodeId, NodeId)]) -> u32
    requires { All (λ p. (p.0.0 < length heights.now) × (p.1.0 < length heights.now)) entries.now }
    ensures { (ts : List Tree) → heights.now ≡ map cut ts → (g : List ℕ) → result ≡ cut (mapping g (pairs (entries_at ts entries.now))) }
{
    let mut height = 0;
    for (key, value) in entries {
        height = with(with(height, heights[key.0]), heights[value.0]);
    }
    height
}

/// The first of these nodes that is higher than the limit.
pub(crate) fn first_too_high(heights: &[u32], roots: &[NodeId]) -> Option<usize>
    requires { All (λ i. i.0 < length heights.now) roots.now }
    ensures { MatchOption result (AllBelow heights.now roots.now) (IsFirstAbove heights.now roots.now) }
{
    for (document, root) in roots.iter().enumerate() {
        if heights[root.0] as usize > height_limit() {
            return Some(document);
        }
    }
    None
}
