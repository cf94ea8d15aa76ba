//! Writing the canonical text of documents, and its length.

pub use yaml_rank::spelling::canonical_len;
pub use yaml_spell::spell::{ranked_len, write_ranked};
