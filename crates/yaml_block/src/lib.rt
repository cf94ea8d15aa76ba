//! The reader of block nodes and documents (YAML 1.2.2, 8.2 and 9.1).
#![tactic(auto)]

pub mod block;
pub mod document;
