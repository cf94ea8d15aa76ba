//! Trees of nodes, whichever store they lie in: definitions and lemmas that stores and graphs share, numbers of nodes, and what a node
//! shows. They say how a stream is composed step by step, what ranks of nodes by height are, and which equal keys come first.
#![tactic(auto)]

pub mod node;
pub mod shown;
pub mod visits;

pub use node::NodeId;
