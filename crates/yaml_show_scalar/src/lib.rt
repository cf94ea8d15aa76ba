//! Scalars and tags as they are shown: plain, between double quotes and on several lines in YAML, between double quotes in JSON. Each text
//! is that of a definition, so it depends on the tag and the content alone.
#![tactic(auto)]

pub mod chars;
pub mod escapes;
mod fold;
mod lines;
pub mod number;
pub mod output;
mod paragraphs;
pub mod plain;
pub mod scalar;
pub mod stop;
pub mod tag;
mod texts;

pub use output::Out;
pub use scalar::Quotes;
pub use stop::Stop;
