//! The ranks of the nodes of a store (`compact_rank`): equal for equal trees, and in the order of trees. `rank_written` gives them with
//! the nodes of some streams, by number and with entries as they are written (`RankedForests`).
//!
//! Nodes are ranked by rising height. The nodes of one height are sorted by kind and tag; then scalars by their content, of which the first
//! fifteen bytes are compared first, and collections by the ranks of their parts.
#![tactic(auto)]

mod copies;
mod equal;
pub mod forests;
mod groups;
mod key_order;
pub mod laws;
mod level;
mod levels;
mod lists;
mod number;
mod places;
pub mod ranking;
mod settle;
mod slot;
mod walked;

pub use forests::{RankedForests, rank_written};
pub use ranking::{Ranked, compact_rank};
