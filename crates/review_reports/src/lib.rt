//! The commands `faults` and `warn`, and `diff` of two folders: what is found as lines, a page, a table, a log or annotations.
#![tactic(auto)]

mod entry;
pub mod findings;
mod folder_names;
mod folder_pages;
mod folder_text;
mod host;
pub mod pages;
mod parts;
pub mod reports;

pub use entry::{Entry, Has};
pub use folder_names::{are_folders, names_of};
pub use folder_pages::folder_page;
pub use folder_text::folder_lines;
pub use host::Host;
pub use parts::{lines_shown, list_found, parts_text};
