//! Nodes that are ranked, whichever store they lie in.
ghost use Rattle.std.specs.Prelude.{◌≡◌, ◌<◌, ℕ};
ghost use Rattle.yaml_definitions.specs.model.Tree.{Tree};
ghost use Rattle.yaml_tree.specs.View.{inside_tree, InsideBelow};
ghost use Rattle.yaml_tree.specs.Shown.{inside_shown};
ghost use Rattle.yaml_spell.specs.RankedNodes.{RanksTell};
ghost use Rattle.yaml_spell.specs.ShortNodes.{short_len};

use yaml_tree::shown::Shown;

/// Nodes that are ranked. Each is named by an id, and shows its parts by theirs.
pub trait RankedNodes<I> {
    // The ranks are those of the nodes.
    ghost stands: { Self → Type 0 };

    // How many nodes there are: their numbers and their ranks are below this.
    ghost count: { Self → ℕ };

    // The number of the node that an id names.
    ghost number: { I → ℕ };

    // The tree, arranged, that the node of a number stands for.
    ghost tree: { Self → ℕ → Tree };

    // The rank of the nodes of a tree.
    ghost rank: { Self → Tree → ℕ };

    /// How many nodes there are.
    fn len(&self) -> usize
        ensures { result ≡ count self.now };

    /// What a node shows.
    fn node(&self, id: I) -> Shown<'_, I>
        requires stands { stands self.now }
        requires within { number id < count self.now }
        ensures tree { tree self.now (number id) ≡ inside_tree (tree self.now) result.tag.now (inside_shown number result.inside) }
        ensures within { InsideBelow (count self.now) (inside_shown number result.inside) };

    /// The rank of a node.
    fn rank(&self, id: I) -> usize
        requires stands { stands self.now }
        requires within { number id < count self.now }
        ensures is { result ≡ rank self.now (tree self.now (number id)) }
        ensures within { result < count self.now };

    /// How many bytes the text of a node has that is always written out: a scalar or an empty collection of
    /// few bytes. Of any other node 0.
    fn short_len(&self, id: I) -> usize
        requires stands { stands self.now }
        requires within { number id < count self.now }
        ensures is { result ≡ short_len (tree self.now (number id)) };

    /// Says that the parts of nodes are nodes, and that ranks tell their trees apart. Its body is empty.
    fn tells(&self)
        requires { stands self.now }
        ensures { RanksTell (count self.now) (tree self.now) (rank self.now) };
}
