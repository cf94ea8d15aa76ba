//! The command `merge3`: whether two changes of a stream conflict, and whether a third one is their merge.
#![tactic(auto)]

mod judge;
mod lines;
pub mod merge;
pub mod print;
mod seats;
mod texts;
mod told;

pub use merge::{Names, NoMerge, merge3};
pub use print::Print;
