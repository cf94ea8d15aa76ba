//! A graph with its ranks.
use crate::ranks::Ranks;
use yaml_graph::graph::Graph;
use yaml_graph::node::NodeKind;
use yaml_spell::node::short_len;
use yaml_spell::ranked::RankedNodes;
use yaml_tree::node::NodeId;
use yaml_tree::shown::{Inside, Shown};

/// A graph with its ranks.
#[derive(Clone, Copy)]
pub struct RankedGraph<'g, 't> {
    pub graph: &'g Graph<'t>,
    pub ranks: &'g Ranks,
}

impl<'g, 't> RankedNodes<NodeId> for RankedGraph<'g, 't> {
    ghost use Rattle.std.specs.Prelude.{length};
    ghost use Rattle.yaml_definitions.specs.model.Order.{arranged};
    ghost use Rattle.yaml_graph.specs.GraphView.{nodes_of, tree};
    ghost use Rattle.yaml_rank.specs.RanksView.{RanksAre};
    ghost use Rattle.yaml_rank.specs.TreeRanks.{rank_in};

    ghost stands = { λ s. RanksAre s.graph.now s.ranks.now };

    ghost count = { λ s. length (nodes_of s.graph.now) };

    ghost number = { λ i. i.0 };

    ghost tree = { λ s i. arranged (tree s.graph.now i) };

    ghost rank = { λ s t. rank_in s.graph.now s.ranks.now t };

    fn len(&self) -> usize {
        self.graph.len()
    }

    fn node(&self, id: NodeId) -> Shown<'_, NodeId> {
        let node = self.graph.node(id);
        let tag = node.tag.as_str();
        match &node.kind {
            NodeKind::Scalar(content) => Shown {
                tag,
                inside: Inside::Scalar(content.as_str()),
            },
            NodeKind::Sequence(items) => Shown {
                tag,
                inside: Inside::Sequence(items),
            },
            NodeKind::Mapping(_) => Shown {
                tag,
                inside: Inside::Mapping(self.ranks.sorted(id)),
            },
        }
    }

    fn rank(&self, id: NodeId) -> usize {
        self.ranks.of(id)
    }

    fn short_len(&self, id: NodeId) -> usize {
        short_len(&self.node(id))
    }

    fn tells(&self) {}
}
