//! The values of the stream in these bytes (`values`): one of fixed size for each different node, beside their parts and their texts. It
//! rejects what `canonical` rejects.
#![tactic(auto)]

pub mod making;
mod parts;
pub mod stream;
mod tags;
mod texts;
pub mod value;

pub use making::Values;
pub use stream::values;
pub use value::Value;
