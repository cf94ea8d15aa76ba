//! The nodes of a store by height.
ghost use Rattle.std.specs.Prelude.{◌≡◌, ◌<◌, ◌^◌, length, IfOk};
ghost use Rattle.yaml_tree.specs.Levels.{LevelsBy, Reaches};
ghost use Rattle.yaml_store.specs.StoreModel.{height_at};

use std::alloc::Global;
use yaml_store::no_memory::NoMemory;
use yaml_store::nodes::Node;

/// The numbers of the nodes of each height, in rising order.
pub(crate) fn levels(alloc: Global, nodes: &[Node]) -> Result<Vec<Vec<u32>>, NoMemory>
    requires { length nodes.now < 2 ^ 32 }
    ensures ok { IfOk result (λ levels. LevelsBy (height_at nodes.now) (length nodes.now) levels.items) }
{
    let mut levels = Vec::new(alloc);
    for (number, node) in nodes.iter().enumerate() {
        reach(alloc, &mut levels, node.height)?;
        levels[node.height as usize].push(number as u32)?;
    }
    Ok(levels)
}

/// Adds empty levels until there is one of this height.
fn reach(alloc: Global, levels: &mut Vec<Vec<u32>>, height: u16) -> Result<(), NoMemory>
    ensures ok { IfOk result (λ _. Reaches height levels.old.items levels.new.items) }
{
    for _ in levels.len()..height as usize + 1 {
        levels.push(Vec::new(alloc))?;
    }
    Ok(())
}
