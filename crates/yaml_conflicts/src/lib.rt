//! What the merge of two changes of a tree is, where they conflict, and where a third tree is not their merge: the paths of which `Breaks`
//! and `StreamBreaks` speak.
#![tactic(auto)]

mod keys;
pub mod laws;
mod lists;
mod rules;
mod shapes;
pub mod sides;
pub mod streams;
mod values;
pub mod walk;

pub use sides::{Conflict, Found, Room, Sides, Step};
pub use streams::{Outcome, Roots, stream_conflicts};
pub use walk::conflicts;
