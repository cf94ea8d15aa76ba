//! Edit scripts: which lines of a text are other ones in another text, as lines or as hunks of a unified diff, as `diff -u` and git print
//! them.
#![tactic(auto)]

mod hunk;
pub mod lines;
mod matching;
mod places;
pub mod printed;
pub mod script;
pub mod unified;

pub use lines::{Piece, pieces_of};
pub use printed::put_script;
pub use script::{Edit, script_of};
pub use unified::put_unified;
