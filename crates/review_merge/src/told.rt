//! The places of the nodes of one side.
ghost use Rattle.std.specs.List.Sorted.{IsNonDecreasingBy};

use yaml_path::Place;

/// The places of the nodes of one side, each with the number of its conflict, which rise.
#[derive(Drop)]
pub(crate) struct Seats {
    pub(crate) places: Vec<(usize, Place)>,
    ghost rising: { IsNonDecreasingBy (λ told. told.0) places.items },
}

impl Seats {
    ghost use Rattle.review_merge.specs.Placed.{IsTold};

    /// The place of the node of a conflict, if this side has a node there.
    pub(crate) fn place(&self, number: usize) -> Option<Place>
        ensures { IsTold self.now.places.items number result }
    {
        match self.places.binary_search_by_key(&number, |it| it.0) {
            Ok(at) => Some(self.places[at].1),
            Err(_) => None,
        }
    }
}
