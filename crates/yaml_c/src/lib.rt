//! The calls for programs in other languages. `include/yamlcanon.h` declares them in C.
//!
//! The caller passes all memory that a call writes. A call keeps nothing. Its answer is a status: 0; 1 if two streams differ; 2
//! if an input is rejected; 3 if the buffer for a text is too small; 4 if JSON cannot express a stream; 5 if lines of JSON did not pass
//! their check.
#![tactic(auto)]

mod calls;
mod diff;
mod digest;
mod fault;
mod name;
mod numbers;
mod position;
mod room;
mod show;
mod status;
mod values;

pub use calls::{
    yaml_c_canonical, yaml_c_events, yaml_c_message, yaml_c_same, yaml_c_sha256, yamlcanon_form,
    yamlcanon_version,
};
pub use diff::yaml_c_diff;
pub use fault::YamlcanonFault;
pub use position::{yaml_c_json_position, yaml_c_position};
pub use show::{yaml_c_json, yaml_c_show};
pub use values::{Lengths, yaml_c_values};
