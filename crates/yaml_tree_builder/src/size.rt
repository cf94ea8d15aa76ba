//! How large a stream is.

/// How many documents a stream has, and how many nodes. An alias is no node of its own.
#[derive(Clone, Copy, Debug, PartialEq, Eq)]
pub struct StreamSize {
    pub documents: usize,
    pub nodes: usize,
}
