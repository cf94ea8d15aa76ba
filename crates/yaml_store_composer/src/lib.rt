//! The streaming composer: from a reader's events to nodes of the store, as they are read.
//!
//! It follows the steps of `yaml_tree/specs/ComposerSteps`, as the composer of graphs does; `TreeBuilder` makes the nodes. It holds back one
//! event (`EventBuffer`), because the properties of its node may still come. A flow collection is announced with its properties. Properties
//! on a line above a collection may be those of a mapping whose first key is this collection. So `PendingProperties` begins this mapping
//! early, and removes it if no colon follows.
#![tactic(auto)]

mod copies;
mod event_buffer;
pub mod keeper;
mod pending;

pub use keeper::Composing;
