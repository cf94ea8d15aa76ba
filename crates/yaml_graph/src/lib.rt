//! Graphs: nodes by number, two graphs as one (`join`), the composer, which makes a graph event by event, and from the events of a
//! stream to the graph of its nodes (`compose`, `compose_owned`).
#![tactic(auto)]

pub mod composer;
pub mod composing;
pub mod copied;
pub mod graph;
mod height;
pub mod joining;
mod kept;
pub mod node;
mod tag;

pub use composing::{compose, compose_owned};
pub use graph::Graph;
pub use joining::join;
pub use node::{Node, NodeId, NodeKind};
