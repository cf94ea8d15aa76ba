//! The arguments of the program `yamlcanon`.
#![tactic(auto)]

pub mod words;

pub use words::{Asked, WordsFault, behind_name, read_words};
