//! Writing ranked nodes: the walk that writes the canonical text, its length, and the sinks that it writes to.
#![tactic(auto)]

mod few;
mod length;
pub mod names;
pub mod node;
pub mod opening;
pub mod page;
mod parts;
mod quoted;
pub mod ranked;
pub mod room;
pub mod sink;
pub mod spell;
pub mod stop;
mod walk;
pub mod whole;
