//! The lines of `faults` and `warn`, and where a file is that JSON cannot express.
#![tactic(auto)]

pub mod cause;
mod equal_keys;
pub mod faults;
mod find;
pub mod keys;
mod label;
pub mod no_json;
pub mod slip;
mod spots;
pub mod spotted;
pub mod warn;

pub use faults::put_fault;
pub use no_json::{no_json_place, put_no_json};
pub use spots::fault_place;
pub use spotted::{Spotted, spot_fault};
pub use warn::{Warning, Warnings, list_warnings, put_warnings};
