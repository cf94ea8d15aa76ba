//! The lines of `diff`.
#![tactic(auto)]

pub mod diff;
pub mod lines;
pub mod listed;
mod moved;
mod nodes;
mod search;
mod stat;
mod strings;

pub use diff::{Compared, compare};
pub use listed::{Listed, list_differences};
