//! The store: nodes in sixteen bytes each, equal ones mostly merged; their tags and texts.
//!
//! The content of a node is a range of one text: the source, then what does not occur in it literally. Tags are in one text of their own.
//! A table finds nodes and tags that occurred before. What it finds is compared with what was asked for, so no contract speaks of it.
#![tactic(auto)]

mod memo;
pub mod no_memory;
pub mod nodes;
pub mod store;
mod tag_numbers;
pub mod tags;
pub mod text;

pub use no_memory::NoMemory;
pub use store::Store;
