//! Comments, directives, tags, anchors and document markers (YAML 1.2.2, 6.6 to 6.9 and 9.1).
#![tactic(auto)]

pub mod comments;
mod decode;
mod decoded;
mod directive;
pub mod directives;
pub mod handles;
pub mod name;
mod prefix;
mod runs;
pub mod starts;
pub mod tag;

pub use comments::skip_comments;
pub use directives::read_directives;
pub use handles::Handles;
pub use name::read_name;
pub use tag::read_tag;
