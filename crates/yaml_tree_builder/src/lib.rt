//! The tree builder: from nodes, as they begin and end, to nodes of the store, up to the first event whose node has no tree.
#![tactic(auto)]

mod anchors;
mod builder;
mod core_tags;
mod firsts;
mod judged;
pub mod laws;
mod scalars;
mod size;
mod stop;
mod tag;
mod too_high;

pub use builder::Forest;
pub use judged::Judged;
pub use size::StreamSize;
