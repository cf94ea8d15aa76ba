//! The places of the items of two sequences.

/// Where an item stands: at a place of the left and one of the right sequence, or on one side only.
#[derive(Clone, Copy, Debug, PartialEq, Eq)]
pub enum Places {
    Both(usize, usize),
    Left(usize),
    Right(usize),
}

impl Places {
    ghost use Rattle.std.specs.Prelude.{◌≡◌};
    ghost use Rattle.yaml_path.specs.Ways.{left_place, right_place};

    /// The place on the left side.
    pub fn left(self) -> Option<usize>
        ensures { result ≡ left_place self }
    {
        match self {
            Places::Both(left, _) => Some(left),
            Places::Left(left) => Some(left),
            Places::Right(_) => None,
        }
    }

    /// The place on the right side.
    pub fn right(self) -> Option<usize>
        ensures { result ≡ right_place self }
    {
        match self {
            Places::Both(_, right) => Some(right),
            Places::Left(_) => None,
            Places::Right(right) => Some(right),
        }
    }
}
