//! Ranked forests whose mappings have their entries in the order of the source.
use yaml_spell::node::short_len;
use yaml_spell::ranked::RankedNodes;
use yaml_store_rank::RankedForests;
use yaml_tree::node::NodeId;
use yaml_tree::shown::Shown;

/// Ranked forests whose mappings have their entries in the order of the source.
#[derive(Clone, Copy)]
pub(crate) struct SourceForests<'f, 's> {
    pub forests: &'f RankedForests<'s>,
}

impl<'f, 's> RankedNodes<NodeId> for SourceForests<'f, 's> {
    ghost use Rattle.yaml_store_rank.specs.Forests.{count, tree};
    ghost use Rattle.yaml_show.specs.SourceRanks.{rank_in};

    ghost stands = { λ _. Unit {0} };

    ghost count = { λ s. count s.forests.now };

    ghost number = { λ i. i.0 };

    ghost tree = { λ s i. tree s.forests.now i };

    ghost rank = { λ s t. rank_in s.forests.now t };

    fn len(&self) -> usize {
        self.forests.len()
    }

    fn node(&self, id: NodeId) -> Shown<'_, NodeId> {
        self.forests.laws();
        self.forests.node(id)
    }

    fn rank(&self, id: NodeId) -> usize {
        self.forests.laws();
        self.forests.rank(id) as usize
    }

    fn short_len(&self, id: NodeId) -> usize {
        short_len(&self.node(id))
    }

    fn tells(&self) {
        self.forests.laws();
    }
}
