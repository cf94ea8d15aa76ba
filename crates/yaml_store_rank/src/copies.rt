//! Nodes by number, copied.
ghost use Rattle.std.specs.Prelude.{◌≡◌, IfOk};
ghost use Rattle.yaml_store_rank.specs.KeyOrder.{numbers, number_pairs};

use std::alloc::Global;
use yaml_store::no_memory::NoMemory;
use yaml_tree::node::NodeId;

/// The nodes of these numbers.
pub(crate) fn copied_items(alloc: Global, parts: &[u32]) -> Result<Vec<NodeId>, NoMemory>
    ensures { IfOk result (λ items. numbers items.items ≡ parts.now) }
{
    let mut items = Vec::with_capacity(alloc, parts.len())?;
    for part in parts {
        items.push(NodeId(*part as usize))?;
    }
    Ok(items)
}

/// The same of keys and values.
pub(crate) fn copied_entries(
    alloc: Global,
    parts: &[(u32, u32)],
) -> Result<Vec<(NodeId, NodeId)>, NoMemory>
    ensures { IfOk result (λ entries. number_pairs entries.items ≡ parts.now) }
{
    let mut entries = Vec::with_capacity(alloc, parts.len())?;
    for (key, value) in parts {
        entries.push((NodeId(*key as usize), NodeId(*value as usize)))?;
    }
    Ok(entries)
}
