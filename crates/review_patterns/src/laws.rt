//! The law of places in patterns. The function has an empty body, and its contract is the law.
ghost use Rattle.review_patterns.specs.Laws.{NeighboursFit};

/// What `diff` prints of neighbours, `3-5:0-2` or `3-5`, is read as their places. It stands for an item exactly if the item is among them
/// on both sides.
pub fn neighbours_fit()
    ensures { NeighboursFit }
{}
