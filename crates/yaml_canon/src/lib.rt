//! The canonical text of a stream, and whether two streams are the same: `canonical`, `canonical_into`, `same`, `run_canonical`.
#![tactic(auto)]

pub mod both;
pub mod canonical_text;
mod forest;
pub mod laws;
pub mod placing;
pub mod ranks;
pub mod run;
mod same_ranks;
pub mod same_streams;
mod sides;
pub mod spell;
pub mod spelled_ranks;
pub mod streams;
mod target;
mod tee;
pub mod written;

pub use canonical_text::canonical;
pub use placing::canonical_into;
pub use ranks::{RankedForest, ranked_forest};
pub use run::run_canonical;
pub use same_streams::same;
pub use spell::canonical_len;
pub use spelled_ranks::SpelledRanks;
pub use streams::{ranked_streams, ranked_streams_with};
pub use written::ranked_stream;
pub use yaml_text::{Side, gather, gathering, side};
