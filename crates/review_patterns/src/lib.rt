//! Patterns of paths, as `--ignore` takes them, and names of files with a `*`, as `--include` takes them.
#![tactic(auto)]

mod bracket;
pub mod glob;
pub mod laws;
mod name;
pub mod pattern;
mod place;
pub mod read;

pub use glob::{fits_glob, is_glob};
pub use pattern::Pattern;
pub use read::read_pattern;
