//! Whether a text is JSON (RFC 8259): `is_json`. `yaml_shown` judges with it what it writes as JSON.
#![tactic(auto)]

mod bytes;
mod next;
mod number;
mod string;
mod text;

pub use text::is_json;
