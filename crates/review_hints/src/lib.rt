//! What `yamlreview` says of a fault: its message, and a hint where the text around it shows what was meant.
#![tactic(auto)]

mod above;
mod alias_hints;
mod block_hints;
mod byte_hints;
mod foreign_hints;
mod hints;
mod item_hints;
mod line_hints;
mod more_hints;
mod node_hints;
mod open_hints;
mod quote_hints;
mod scan;
mod spot;
mod stray_hints;
mod unseen_hints;
pub mod words;
