//! What is found in files as Markdown, as SARIF, and as GitHub's annotations, and the pieces of a page.
#![tactic(auto)]

pub mod changes;
pub mod escape;
pub mod finding;
pub mod github;
pub mod left_out;
pub mod markdown;
pub mod piece;
pub mod sarif;

pub use finding::{Finding, Findings, Level, Part, Shown, Sides, Sign};
pub use github::github_text;
pub use left_out::LeftOut;
pub use markdown::markdown_text;
pub use sarif::sarif_text;
