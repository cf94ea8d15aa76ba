//! Laws of ranks. Each function has an empty body, and its contract is a law.
ghost use Rattle.yaml_store_rank.specs.ArrangedForests.{MappingsAreArranged};
ghost use Rattle.yaml_store_rank.specs.RanksView.{RanksAreAView};

/// The ranks of a store are themselves nodes, each after its parts: their trees are arranged, and rise.
pub fn ranks_are_a_view()
    ensures { RanksAreAView }
{}

/// The tree of a mapping of ranked forests, arranged, has the mapping's entries in the order of their keys.
pub fn mappings_are_arranged()
    ensures { MappingsAreArranged }
{}
