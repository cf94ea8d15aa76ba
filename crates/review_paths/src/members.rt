//! What a program reads of a difference beside its texts.
ghost use Rattle.std.specs.Prelude.{IfOk};
ghost use Rattle.review_paths.specs.Members.{SaysNode, SaysMembers};

use crate::room::Room;
use crate::steps::steps_text;
use crate::value::value_text;
use std::alloc::{AllocError, Global};
use yaml_diff::Difference;
use yaml_store_rank::RankedForests;
use yaml_tree::node::NodeId;

/// A difference as JSON: its path, and the values of its nodes where JSON has them.
#[derive(Drop)]
pub struct Members {
    pub steps: String,
    pub left: Option<String>,
    pub right: Option<String>,
}

/// The value of a node as JSON, if there is a node.
fn value_of(
    alloc: Global,
    forests: &RankedForests<'_>,
    id: Option<NodeId>,
    room: &mut Room,
) -> Result<Option<String>, AllocError>
    ensures ok { IfOk result (SaysNode forests.now id) }
{
    match id {
        Some(id) => value_text(alloc, forests, id, room),
        None => Ok(None),
    }
}

/// A difference of two streams as JSON.
///
/// # Errors
/// `OutOfMemory`
pub fn members_of(
    alloc: Global,
    forests: &RankedForests<'_>,
    difference: &Difference,
    room: &mut Room,
) -> Result<Members, AllocError>
    ensures ok { IfOk result (SaysMembers forests.now difference.now) }
{
    Ok(Members {
        steps: steps_text(alloc, forests, &difference.path)?,
        left: value_of(alloc, forests, difference.left, room)?,
        right: value_of(alloc, forests, difference.right, room)?,
    })
}
