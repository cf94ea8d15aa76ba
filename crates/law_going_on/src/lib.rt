//! Theorems about which reading the text continues after, no code: if any reading of a scalar is followed by what must follow it,
//! the longest one is. And a reading has no more open collections than are allowed. The clauses `decides` of `yaml_flow`,
//! `yaml_block` and `yaml_read` cite them.
#![tactic(auto)]

pub mod laws;
