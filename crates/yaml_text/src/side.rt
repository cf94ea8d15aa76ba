//! The sides of a comparison.

/// The side of a comparison that an error names.
#[derive(Clone, Copy, Debug, PartialEq, Eq)]
pub enum Side {
    Left,
    Right,
}
