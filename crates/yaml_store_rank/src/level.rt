//! The nodes of one height, in order.
ghost use Rattle.std.specs.Prelude.{◌≡◌, ◌+◌, ◌<◌, ◌^◌, length, IfOk, OnOk};
ghost use Rattle.std.specs.List.{All};
ghost use Rattle.yaml_tree.specs.Visited.{count_of};
ghost use Rattle.yaml_store_rank.specs.LevelModel.{LevelFits, KeysMade, KeysSorted};
ghost use Rattle.yaml_store_rank.specs.SlotModel.{InRange, keys_of};
ghost use Rattle.yaml_store.specs.TextModel.{text_of};

use crate::lists::Lists;
use crate::slot::Slot;
use std::alloc::Global;
use yaml_store::no_memory::NoMemory;
use yaml_tree::visits::Visits;

/// The slots of the nodes of these numbers, whose parts are ranks. Each node is visited once.
fn slots(
    alloc: Global,
    lists: &Lists<'_, '_>,
    visits: &mut Visits,
    level: &[u32],
) -> Result<Vec<Slot>, NoMemory>
    requires range { InRange lists.now }
    requires numbers { All (λ i. i < length lists.now.nodes.now) level.now }
    requires fit { LevelFits lists.now.nodes.now (text_of lists.now.text.now) lists.now.items.now lists.now.entries.now level.now }
    requires few { count_of visits.old + length level.now < 2 ^ 63 }
    ensures visited { OnOk result (count_of visits.new ≡ count_of visits.old + length level.now) }
    ensures ok { IfOk result (λ slots. KeysMade lists.now.nodes.now (text_of lists.now.text.now) lists.now.items.now lists.now.entries.now lists.now.places.now level.now (keys_of lists.now slots.items)) }
{
    let mut slots = Vec::with_capacity(alloc, level.len())?;
    for number in level {
        visits.add();
        slots.push(lists.slot(*number))?;
    }
    Ok(slots)
}

/// The slots of the nodes of these numbers, which are of one height, in order. Each node is visited once.
pub(crate) fn sorted_slots(
    alloc: Global,
    lists: &Lists<'_, '_>,
    visits: &mut Visits,
    level: &[u32],
) -> Result<Vec<Slot>, NoMemory>
    requires range { InRange lists.now }
    requires numbers { All (λ i. i < length lists.now.nodes.now) level.now }
    requires fit { LevelFits lists.now.nodes.now (text_of lists.now.text.now) lists.now.items.now lists.now.entries.now level.now }
    requires few { count_of visits.old + length level.now < 2 ^ 63 }
    ensures visited { OnOk result (count_of visits.new ≡ count_of visits.old + length level.now) }
    ensures ok { IfOk result (λ slots. KeysSorted lists.now.nodes.now (text_of lists.now.text.now) lists.now.items.now lists.now.entries.now lists.now.places.now level.now (keys_of lists.now slots.items)) }
{
    let mut slots = slots(alloc, lists, visits, level)?;
    lists.sort(alloc, &mut slots)?;
    Ok(slots)
}
