//! Numbers of nodes.

/// The number of a node: its place among the nodes of its graph.
#[derive(Clone, Copy, Debug, PartialEq, Eq)]
pub struct NodeId(pub usize);
