//! `sum`: the SHA-256 of each file's canonical text, in the lines of `sha256sum`, and checking such lines.
#![tactic(auto)]

pub mod asked;
mod buffers;
mod check;
mod digest;
mod file;
mod finding;
mod line;
mod list;
mod listed;
mod names;
mod parts;
mod reading;
pub mod reason;
pub mod regular;
mod stop;
pub mod sum;
mod summary;
mod telling;
mod told;
