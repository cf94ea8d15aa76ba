//! Paths as programs read them: filters of jq, JSON pointers, and JSON with the nodes of differences.
#![tactic(auto)]

mod fit;
pub mod laws;
pub mod members;
pub mod path;
pub mod room;
mod step;
pub mod steps;
pub mod unsaid;
pub mod value;
pub mod writing;

pub use members::{Members, members_of};
pub use path::pasted;
pub use room::Room;
