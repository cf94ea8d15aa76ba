//! What receives the reader's events: a list, a keeper, or both.
//!
//! So one reader, proved once, serves the list, the composer, the lines of events, and `yamlreview`, which keeps offsets. The reader emits
//! the events of a node first and adds tag and anchor later (`dress`). Only the colon after a node shows that the node was a key. Then the
//! start of the mapping is inserted before it.
#![tactic(auto)]

pub mod list;
pub mod properties;
pub mod push;
pub mod sink;
