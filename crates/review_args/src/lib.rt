//! The arguments of the program `yamlreview`.
#![tactic(auto)]

mod arguments;
mod found;
mod grammar;
pub mod order;
pub mod reading;
pub mod words;

pub use order::in_order;
pub use reading::{read_keys, read_words};
pub use words::{Asked, Format, Merge, Report, Show, Sum, Warn};
