//! What one line of differences says: those of one node for which aliases stand at other paths, items that moved and what they are called,
//! and which are left out because of their paths.
#![tactic(auto)]

pub mod fold;
pub mod keep;
pub mod keys;
pub mod label;
mod left;
mod lists;
pub mod moves;
mod names;
mod steps;
mod values;

pub use fold::{Cause, counts};
pub use keep::{item_path, kept};
pub use keys::Keys;
pub use label::label_of;
pub use moves::{Group, groups};
