//! Names of items.
ghost use Rattle.std.specs.Prelude.{◌≡◌, Some, List, ℕ, option_map, codes};
ghost use Rattle.yaml_store_rank.specs.Forests.{tree};
ghost use Rattle.yaml_diff.specs.Lines.{trees_of};
ghost use Rattle.review_folds.specs.Labels.{value_of, if_scalar, first_name, metadata_name, name_of, IsKey, AreEach, AreKeys};

use crate::keys::{Key, Keys};
use crate::values::{is_scalar, value_in};
use yaml_store_rank::RankedForests;
use yaml_tree::node::NodeId;

/// The value of a key in an item, if it is a scalar.
#[tactic(auto, using(crate::proofs::NameLaws::scalar_none, crate::proofs::NameLaws::scalar_then, crate::proofs::NameLaws::scalar_else))]
fn scalar_in(forests: &RankedForests<'_>, item: NodeId, key: Key) -> Option<NodeId>
    ensures { (text : List ℕ) → IsKey forests.now text key → trees_of forests.now result ≡ if_scalar (value_of (Some (tree forests.now item.0)) text) }
{
    let Some(value) = value_in(forests, item, key.rank) else {
        return None;
    };
    if is_scalar(forests, value) {
        Some(value)
    } else {
        None
    }
}

/// The first of these keys whose value in an item is a scalar, and that scalar.
#[tactic(auto, using(crate::proofs::NameLaws::first_none, crate::proofs::NameLaws::first_some, crate::proofs::NameLaws::first_rest))]
fn first_name(
    forests: &RankedForests<'_>,
    item: NodeId,
    keys: &[Key],
) -> Option<(&'static str, NodeId)>
    ensures { (texts : List (List ℕ)) → AreEach forests.now texts keys.now → option_map (λ name. (name.0.now, tree forests.now name.1.0)) result ≡ first_name (Some (tree forests.now item.0)) texts }
{
    let Some((key, rest)) = keys.split_first() else {
        return None;
    };
    match scalar_in(forests, item, *key) {
        Some(value) => Some((key.text, value)),
        None => first_name(forests, item, rest),
    }
}

/// The name that stands in an object's metadata.
fn metadata_name(
    forests: &RankedForests<'_>,
    item: NodeId,
    keys: &Keys,
) -> Option<(&'static str, NodeId)>
    ensures { AreKeys forests.now keys.now → option_map (λ name. (name.0.now, tree forests.now name.1.0)) result ≡ metadata_name (Some (tree forests.now item.0)) }
{
    let Some(metadata) = value_in(forests, item, keys.metadata.rank) else {
        return None;
    };
    let Some(value) = scalar_in(forests, metadata, keys.name) else {
        return None;
    };
    Some(("metadata.name", value))
}

/// The words that name an item, and the scalar to which they lead.
pub(crate) fn name_of(
    forests: &RankedForests<'_>,
    item: NodeId,
    keys: &Keys,
) -> Option<(&'static str, NodeId)>
    ensures { AreKeys forests.now keys.now → option_map (λ name. (name.0.now, tree forests.now name.1.0)) result ≡ name_of (Some (tree forests.now item.0)) }
{
    match first_name(forests, item, &keys.table) {
        Some(name) => Some(name),
        None => metadata_name(forests, item, keys),
    }
}
