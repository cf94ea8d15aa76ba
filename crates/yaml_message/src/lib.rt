//! The message of a fault, as the programs print it.
#![tactic(auto)]

pub mod words;

pub use words::{Message, message_of};
