//! Numbers of nodes in order.
ghost use Rattle.std.specs.Prelude.{◌≡◌, ◌<◌, [], ◌∷◌, ◌++◌, length, IfOk};
ghost use Rattle.std.specs.List.{All};
ghost use Rattle.yaml_store_rank.specs.LevelModel.{NumberedOn};
ghost use Rattle.yaml_store_rank.specs.SlotModel.{InRange, keys_of};

use crate::lists::Lists;
use crate::slot::Slot;
use yaml_store::no_memory::NoMemory;

/// As many ranks as leave room for one more number in 32 bits.
const MOST: usize = 4_294_967_295;

/// Ranks nodes in their order: each has the rank of the first one that is equal, which is how many were
/// noted before that one. The first ones are noted.
pub(crate) fn number(
    lists: &Lists<'_, '_>,
    ranks: &mut [u32],
    first: &mut Vec<u32>,
    slots: &[Slot],
) -> Result<(), NoMemory>
    requires range { InRange lists.now }
    requires within { All (λ slot. slot.number < length ranks.old) slots.now }
    requires few { length first.old.items < 4294967296 }
    ensures ok { IfOk result (λ _. NumberedOn (keys_of lists.now slots.now) ranks.old ranks.new first.old.items first.new.items) }
{
    let mut rank = first.len() as u32;
    for (place, slot) in slots.iter().enumerate() {
        if place == 0 || lists.is_below(&slots[place - 1], slot) {
            rank = note(first, slot.number)?;
        }
        ranks[slot.number as usize] = rank;
    }
    Ok(())
}

/// Notes the node of the next rank.
fn note(first: &mut Vec<u32>, number: u32) -> Result<u32, NoMemory>
    ensures rank { IfOk result (λ rank. rank ≡ length first.old.items) }
    ensures small { IfOk result (λ rank. rank < 4294967295) }
    ensures noted { IfOk result (λ _. first.new.items ≡ first.old.items ++ (number ∷ [])) }
{
    let rank = first.len();
    if rank >= MOST {
        return Err(NoMemory);
    }
    first.push(number)?;
    Ok(rank as u32)
}
