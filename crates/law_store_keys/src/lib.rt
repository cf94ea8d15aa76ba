//! Theorems about equal keys, no code: the first equal keys of a store are those of the stream's nodes, as they close, and the ranks of
//! the stream's graph are refused for exactly these.
#![tactic(auto)]

pub mod laws;
