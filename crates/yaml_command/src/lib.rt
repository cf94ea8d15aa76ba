//! The commands of the program `yamlcanon`, over streams and files that are passed in: reading inputs, event lines, the line of a
//! rejection, and the exit status.
//! One theorem, no code: the line that a program prints of a fault has the fault's message (`yaml_message`), whatever it begins with.
#![tactic(auto)]

pub mod check;
pub mod command;
mod compare;
pub mod events;
mod files;
pub mod inputs;
pub mod line;
pub mod message_laws;
mod pages;
pub mod refusal;
pub mod shelf;
pub mod streams;
