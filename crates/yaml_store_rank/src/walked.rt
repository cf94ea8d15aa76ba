//! What ranks show.
ghost use Rattle.std.specs.Prelude.{◌≡◌, ◌<◌, length};
ghost use Rattle.std.specs.List.{All};
ghost use Rattle.yaml_tree.specs.View.{inside_tree, InsideBelow};
ghost use Rattle.yaml_tree.specs.Shown.{inside_shown};
ghost use Rattle.yaml_store_rank.specs.StoreRanks.{Listed};
ghost use Rattle.yaml_store_rank.specs.RanksView.{rank_tag, rank_inside};
ghost use Rattle.yaml_store_rank.specs.Walked.{StandsFor, walked_tree, ranks_of, RanksTaken};

use crate::ranking::Ranked;
use crate::settle::overwrite;
use yaml_store::nodes::Place;
use yaml_tree::shown::{Inside, Shown};

impl Ranked<'_> {
    /// What the node that stands for a rank shows.
    fn shown(&self, rank: usize) -> Shown<'_, u32>
        requires listed { Listed self.now }
        requires within { rank < length self.now.first.items }
        ensures tag { result.tag.now ≡ rank_tag self.now rank }
        ensures inside { inside_shown (λ r. r) result.inside ≡ rank_inside self.now rank }
    {
        let node = self.nodes[self.first[rank] as usize];
        let tag = self.tags.get(node.tag);
        match node.place() {
            Place::Scalar(span) => Shown {
                tag,
                inside: Inside::Scalar(self.text.content(span)),
            },
            Place::Sequence(span) => Shown {
                tag,
                inside: Inside::Sequence(&self.items[span.start as usize..span.end as usize]),
            },
            Place::Mapping(span) => Shown {
                tag,
                inside: Inside::Mapping(&self.entries[span.start as usize..span.end as usize]),
            },
        }
    }

    /// How many ranks there are: all are below this.
    pub fn len(&self) -> usize
        ensures { result ≡ length self.now.first.items }
    {
        self.first.len()
    }

    /// What the nodes of a rank show. Parts are ranks, and the entries of a mapping stand in the order of their keys.
    pub fn node(&self, rank: u32) -> Shown<'_, u32>
        requires stands { StandsFor self.now }
        requires within { rank < length self.now.first.items }
        ensures tree { walked_tree self.now rank ≡ inside_tree (walked_tree self.now) result.tag.now (inside_shown (λ r. r) result.inside) }
        ensures within { InsideBelow (length self.now.first.items) (inside_shown (λ r. r) result.inside) }
    {
        self.shown(rank as usize)
    }

    /// Puts the rank of each of these nodes of the store in its place.
    pub fn take_ranks(&self, nodes: &mut [u32])
        requires { All (λ i. i < length (ranks_of self.now)) nodes.old }
        ensures { RanksTaken self.now nodes.old nodes.new }
    {
        overwrite(nodes, &self.ranks);
    }
}
