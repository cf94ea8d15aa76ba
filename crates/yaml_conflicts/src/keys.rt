//! The keys of which one side or another has a value.
ghost use Rattle.std.specs.Prelude.{◌≡◌, ◌<◌, IfOk, OnOk};
ghost use Rattle.yaml_store_rank.specs.Forests.{count, entries_at};
ghost use Rattle.yaml_store_rank.specs.KeyOrder.{number_pairs};
ghost use Rattle.yaml_diff.specs.Lines.{tree_of};
ghost use Rattle.yaml_diff.specs.Found.{Within, AllWithin};
ghost use Rattle.yaml_conflicts.specs.Found.{SidesWithin};
ghost use Rattle.yaml_conflicts.specs.Keys.{side_has, has_value, Stands, Covers, Adds, HasKeys, HasSide, KeysWithin};

use crate::sides::Sides;
use crate::values::value_at;
use std::alloc::{AllocError, Global};
use yaml_store_rank::RankedForests;
use yaml_tree::node::NodeId;
use yaml_tree::shown::Inside;

/// Whether this side has a value of the key.
#[tactic(auto, using(crate::proofs::KeyLaws::side_found))]
fn has_at(forests: &RankedForests<'_>, side: Option<NodeId>, key: NodeId) -> bool
    requires within { Within forests.now side }
    requires key { key.0 < count forests.now }
    ensures { result ≡ side_has forests.now side (tree_of forests.now key) }
{
    value_at(forests, side, key).is_some()
}

/// Whether one of these sides has a value of the key.
fn is_had(forests: &RankedForests<'_>, sides: Sides, key: NodeId) -> bool
    requires within { SidesWithin forests.now sides }
    requires key { key.0 < count forests.now }
    ensures { result ≡ has_value forests.now sides (tree_of forests.now key) }
{
    has_at(forests, sides.base, key)
        || (has_at(forests, sides.ours, key)
            || (has_at(forests, sides.theirs, key) || has_at(forests, sides.merge, key)))
}

/// Adds a key, but if one of the earlier sides has a value of it: the list has the keys of these.
fn add_key(
    keys: &mut Vec<NodeId>,
    forests: &RankedForests<'_>,
    key: NodeId,
    earlier: Sides,
) -> Result<(), AllocError>
    requires within { SidesWithin forests.now earlier }
    requires key { key.0 < count forests.now }
    requires covers { Covers forests.now earlier keys.old.items }
    requires keys { AllWithin forests.now keys.old.items }
    ensures adds { OnOk result (Adds forests.now keys.old.items keys.new.items) }
    ensures stands { OnOk result (Stands forests.now keys.new.items (tree_of forests.now key)) }
{
    if is_had(forests, earlier, key) {
        return Ok(());
    }
    keys.push(key)?;
    Ok(())
}

/// Adds the keys of these entries.
fn add_keys(
    keys: &mut Vec<NodeId>,
    forests: &RankedForests<'_>,
    entries: &[(NodeId, NodeId)],
    earlier: Sides,
) -> Result<(), AllocError>
    requires within { SidesWithin forests.now earlier }
    requires covers { Covers forests.now earlier keys.old.items }
    requires keys { AllWithin forests.now keys.old.items }
    requires entries { KeysWithin forests.now entries.now }
    ensures adds { OnOk result (Adds forests.now keys.old.items keys.new.items) }
    ensures keys { OnOk result (HasKeys forests.now entries.now keys.new.items) }
{
    for (key, _) in entries {
        add_key(keys, forests, *key, earlier)?;
    }
    Ok(())
}

/// The entries of a mapping as they are written; none of another node.
fn entries_of<'f>(forests: &'f RankedForests<'_>, id: NodeId) -> &'f [(NodeId, NodeId)]
    requires { id.0 < count forests.now }
    ensures { number_pairs result.now ≡ entries_at forests.now id.0 }
{
    match forests.node(id).inside {
        Inside::Mapping(entries) => entries,
        _ => &[],
    }
}

/// Adds the keys of one side.
fn add_side(
    keys: &mut Vec<NodeId>,
    forests: &RankedForests<'_>,
    side: Option<NodeId>,
    earlier: Sides,
) -> Result<(), AllocError>
    requires side { Within forests.now side }
    requires within { SidesWithin forests.now earlier }
    requires covers { Covers forests.now earlier keys.old.items }
    requires keys { AllWithin forests.now keys.old.items }
    ensures adds { OnOk result (Adds forests.now keys.old.items keys.new.items) }
    ensures side { OnOk result (HasSide forests.now side keys.new.items) }
{
    let Some(id) = side else {
        return Ok(());
    };
    forests.laws();
    add_keys(keys, forests, entries_of(forests, id), earlier)
}

/// The keys of all sides, each once.
pub(crate) fn keys_of(
    alloc: Global,
    forests: &RankedForests<'_>,
    sides: Sides,
) -> Result<Vec<NodeId>, AllocError>
    requires within { SidesWithin forests.now sides }
    ensures covers { IfOk result (λ keys. Covers forests.now sides keys.items) }
    ensures within { IfOk result (λ keys. AllWithin forests.now keys.items) }
{
    let mut keys = Vec::new(alloc);
    let mut earlier = Sides {
        base: None,
        ours: None,
        theirs: None,
        merge: None,
    };
    add_side(&mut keys, forests, sides.base, earlier)?;
    earlier.base = sides.base;
    add_side(&mut keys, forests, sides.ours, earlier)?;
    earlier.ours = sides.ours;
    add_side(&mut keys, forests, sides.theirs, earlier)?;
    earlier.theirs = sides.theirs;
    add_side(&mut keys, forests, sides.merge, earlier)?;
    Ok(keys)
}
