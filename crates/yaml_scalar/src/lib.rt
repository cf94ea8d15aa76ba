//! Scalars in all five styles: read from a text, and written (YAML 1.2.2, 7.3 and 8.1).
#![tactic(auto)]

pub mod block;
mod class;
pub mod double;
mod escape;
pub mod laws;
mod line;
pub mod plain;
mod quoted;
pub mod single;
pub mod spell;
mod text;

pub use block::{read_folded, read_literal};
pub use double::read_double;
pub use plain::read_plain;
pub use single::read_single;
pub use spell::{spell_into, spelled_char, spelled_len};
