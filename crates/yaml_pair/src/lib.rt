//! Which items of two lists are pairs: by their names, by what they have in common, or in turn. Pairs may cross.
#![tactic(auto)]

mod asked;
pub mod column;
mod equal;
mod like;
mod names;
mod nodes;
mod pairing;
mod partners;
mod stay;
mod steps;
mod turn;

pub use asked::{Asked, TABLE};
pub use pairing::pair_items;
