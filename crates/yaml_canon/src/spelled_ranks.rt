//! Ranks as ranked nodes, of which the text is written.
ghost use Rattle.std.specs.Prelude.{◌≡◌, IfOk};
ghost use Rattle.yaml_store_rank.specs.Walked.{StandsFor};
ghost use Rattle.yaml_canon.specs.Spelled.{AreShorts, Spells};

use std::alloc::Global;
use yaml_spell::node::short_len;
use yaml_spell::ranked::RankedNodes;
use yaml_store::no_memory::NoMemory;
use yaml_store_rank::Ranked;
use yaml_tree::shown::Shown;

/// Ranks, of which it is known which are short.
#[derive(Drop)]
pub struct SpelledRanks<'r, 's> {
    ranked: &'r Ranked<'s>,
    /// How many bytes each rank takes if it is short, else 0: measured once, and not at each of its nodes.
    shorts: Vec<u8>,
}

/// How many bytes each rank takes if it is short, else 0. The nodes are taken in the order in which they and
/// their contents stand, and not by rank, so that what is looked at next is near.
fn shorts(alloc: Global, ranked: &Ranked<'_>) -> Result<Vec<u8>, NoMemory>
    requires { StandsFor ranked.now }
    ensures { IfOk result (λ shorts. AreShorts ranked.now shorts.items) }
{
    let mut shorts = Vec::new(alloc);
    shorts.resize(ranked.len(), 0)?;
    for (number, rank) in ranked.ranks.iter().enumerate() {
        let rank = *rank;
        if ranked.first[rank as usize] as usize == number {
            shorts[rank as usize] = short_len(&ranked.node(rank)) as u8;
        }
    }
    Ok(shorts)
}

impl<'r, 's> SpelledRanks<'r, 's> {
    /// The ranks of the nodes of a store.
    pub fn new(alloc: Global, ranked: &'r Ranked<'s>) -> Result<SpelledRanks<'r, 's>, NoMemory>
        requires { StandsFor ranked.now }
        ensures same { IfOk result (λ ranks. ranks.ranked.now ≡ ranked.now) }
        ensures spells { IfOk result Spells }
    {
        let shorts = shorts(alloc, ranked)?;
        Ok(SpelledRanks { ranked, shorts })
    }
}

impl RankedNodes<u32> for SpelledRanks<'_, '_> {
    ghost use Rattle.std.specs.Prelude.{length};
    ghost use Rattle.yaml_store_rank.specs.Walked.{walked_tree, walked_rank};
    ghost use Rattle.yaml_canon.specs.Spelled.{Spells};

    ghost stands = { Spells };

    ghost count = { λ c. length c.ranked.now.first.items };

    ghost number = { λ r. r };

    ghost tree = { λ c. walked_tree c.ranked.now };

    ghost rank = { λ c. walked_rank c.ranked.now };

    fn len(&self) -> usize {
        self.ranked.len()
    }

    fn node(&self, id: u32) -> Shown<'_, u32> {
        self.ranked.node(id)
    }

    fn rank(&self, id: u32) -> usize {
        id as usize
    }

    fn short_len(&self, id: u32) -> usize {
        self.shorts[id as usize] as usize
    }

    fn tells(&self) {}
}
