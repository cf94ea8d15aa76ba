//! Where a path leads on the left side.
ghost use Rattle.std.specs.Prelude.{◌≡◌, Some, [], option_map};
ghost use Rattle.std.specs.List.{slice_get};
ghost use Rattle.yaml_store_rank.specs.Forests.{tree, documents_of};
ghost use Rattle.yaml_path.specs.Ways.{count};
ghost use Rattle.yaml_diff.specs.Lines.{trees_of};
ghost use Rattle.review_folds.specs.Labels.{left_below, left_documents, left_tree};

use crate::values::{count_in, item_in, node_at, rank_at, value_in};
use yaml_diff::Step;
use yaml_store_rank::RankedForests;
use yaml_tree::node::NodeId;

/// The left document at a place.
fn left_document(forests: &RankedForests<'_>, place: usize) -> Option<NodeId>
    ensures { option_map (λ id. id.0) result ≡ slice_get (documents_of forests.now 0) place }
{
    node_at(forests.documents(0), place)
}

/// The left document to which a step leads.
#[tactic(auto, using(crate::proofs::LeftLaws::placed_none, crate::proofs::LeftLaws::document_there, crate::proofs::LeftLaws::documents_value))]
fn document_at(forests: &RankedForests<'_>, step: Step) -> Option<NodeId>
    ensures { trees_of forests.now result ≡ left_below forests.now (Some (left_documents forests.now)) step }
{
    match step {
        Step::Item(places) => match places.left() {
            Some(place) => left_document(forests, place),
            None => None,
        },
        Step::Value(_) => None,
    }
}

/// The part of a left node to which a step leads.
#[tactic(auto, using(crate::proofs::LeftLaws::placed_none, crate::proofs::LeftLaws::placed_some, crate::proofs::LeftLaws::key_value))]
fn part_at(forests: &RankedForests<'_>, node: NodeId, step: Step) -> Option<NodeId>
    ensures { trees_of forests.now result ≡ left_below forests.now (Some (tree forests.now node.0)) step }
{
    forests.laws();
    match step {
        Step::Item(places) => match places.left() {
            Some(place) => item_in(forests, node, place),
            None => None,
        },
        Step::Value(key) => value_in(forests, node, rank_at(forests, key)),
    }
}

/// The left node to which a path leads, the last step first. A path of no step leads to no node.
#[tactic(auto, using(crate::proofs::LeftLaws::first_step, crate::proofs::LeftLaws::step_nowhere, crate::proofs::LeftLaws::step_below))]
pub(crate) fn left_node(forests: &RankedForests<'_>, path: &[Step]) -> Option<NodeId>
    ensures { (path.now ≡ [] → ⊥) → trees_of forests.now result ≡ left_tree forests.now path.now }
{
    let Some((step, list)) = path.split_first() else {
        return None;
    };
    if list.is_empty() {
        return document_at(forests, *step);
    }
    let Some(node) = left_node(forests, list) else {
        return None;
    };
    part_at(forests, node, *step)
}

/// How many items a list has on the left, or how many documents the left stream has.
#[tactic(auto, using(crate::proofs::LeftLaws::count_documents, crate::proofs::LeftLaws::count_some, crate::proofs::LeftLaws::count_none))]
pub(crate) fn count_of(forests: &RankedForests<'_>, list: &[Step]) -> usize
    ensures { result ≡ count (left_tree forests.now list.now) }
{
    if list.is_empty() {
        return forests.documents(0).len();
    }
    match left_node(forests, list) {
        Some(node) => count_in(forests, node),
        None => 0,
    }
}
