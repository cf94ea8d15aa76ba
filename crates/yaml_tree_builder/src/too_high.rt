//! Documents that are too high.
ghost use Rattle.std.specs.Prelude.{◌<◌, ◌↔◌, List, IsTrue, MatchOption};
ghost use Rattle.yaml_definitions.specs.model.Limits as limit;
ghost use Rattle.yaml_definitions.specs.model.Tree.{Tree, height};
ghost use Rattle.yaml_tree.specs.TreeLists.{AreLow, IsFirstTooHigh};
ghost use Rattle.yaml_store.specs.StoreGrows.{Good, Stands, trees_of};
ghost use Rattle.yaml_tree_builder.specs.BuilderModel.{AllAt};

use yaml_store::store::Store;
use yaml_text::limits::height_limit;

/// Whether the tree that a node stands for is higher than the limit.
fn is_too_high(store: &Store<'_>, id: u32) -> bool
    ensures { (t : Tree) → Good store.now → Stands store.now id t → (IsTrue result ↔ (limit.height_limit < height t)) }
{
    match store.height_of(id) {
        Some(height) => height as usize > height_limit(),
        None => false,
    }
}

/// The first document whose root stands for a tree that is higher than the limit.
pub(crate) fn first_too_high(store: &Store<'_>, roots: &[u32]) -> Option<usize>
    ensures { Good store.now → (trees : List Tree) → AllAt (trees_of store.now) roots.now trees → MatchOption result (AreLow trees) (IsFirstTooHigh trees) }
{
    for (document, root) in roots.iter().enumerate() {
        if is_too_high(store, *root) {
            return Some(document);
        }
    }
    None
}
