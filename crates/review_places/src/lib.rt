//! The positions of nodes: the offsets of events, the node at the end of a path, lines and columns.
#![tactic(auto)]

pub mod finder;
pub mod layout;
pub mod places;
pub mod trace;
pub mod trail;
