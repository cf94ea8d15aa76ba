//! Two streams compared: whether they are the same, and the lines of their differences.
#![tactic(auto)]

mod both;
mod json;
mod listing;

pub use both::{compare_sides, fault_of};
pub use json::diff_json;
pub use listing::list_sides;
pub use review_lines::Compared;
