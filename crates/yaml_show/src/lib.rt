//! Readable texts of a stream, each checked before it is handed out: `show` in YAML, `show_json` in JSON. The check is the comparer, so no
//! text is handed out that means something else than the stream, whatever was written. The texts are in block style, a line for each entry
//! and item (`block_text`), or a line of JSON for each document (`json_lines`). Streams that mean the same are shown as the same bytes,
//! but not by `show_as_read`, which writes entries in the order of the source.
#![tactic(auto)]

mod block;
mod checked_json;
mod checking;
mod draft;
mod flow;
mod joining;
mod json;
mod keys;
pub mod laws;
mod lines;
pub mod manner;
pub mod place;
mod presenting;
mod sharing;
mod sharing_flow;
mod sharing_keys;
pub mod shown;
mod source;
pub mod unshown;
pub mod unwritten;

pub use block::block_text;
pub use json::json_lines;
pub use sharing::sharing_text;
pub use shown::{show, show_as_read, show_json, show_sharing};
pub use unshown::Unshown;
pub use unwritten::Unwritten;
