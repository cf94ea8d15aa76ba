//! The texts that `yamlreview` prints: nodes, paths, source lines, words for warnings.
#![tactic(auto)]

pub mod alike;
pub mod fronts;
pub mod hidden;
pub mod json;
pub mod options;
pub mod path;
pub mod tag_words;
pub mod text;
mod timed;
pub mod yaml11;

pub use fronts::put_shown;
pub use hidden::{put_json, put_visible};
