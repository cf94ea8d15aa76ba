//! The commands of the program `yamlreview`, over streams and files that are passed in.
#![tactic(auto)]

pub mod arguments;
pub mod command;
pub mod diff;
