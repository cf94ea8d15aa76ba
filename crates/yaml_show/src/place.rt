//! Where a node stands.

/// What is before a node on its line.
#[derive(Clone, Copy, PartialEq, Eq)]
pub enum Place {
    /// `---`
    Root,
    /// `key:`
    Value,
    /// `- `
    Item,
}
