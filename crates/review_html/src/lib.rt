//! What is found in files as a page of HTML.
#![tactic(auto)]

mod heading;
pub mod html;
mod lines;
mod side;
mod sides;
mod style;

pub use html::html_text;
