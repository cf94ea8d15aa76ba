//! A value, and the kinds of values.
ghost use Rattle.std.specs.Prelude.{◌≡◌};
ghost use Rattle.yaml_values.specs.Kinds.{scalar_kind};

use yaml_text::core_tag;

/// The places from one up to another.
#[derive(Clone, Copy)]
pub struct Span {
    pub start: u32,
    pub end: u32,
}

/// A value: its kind (0 to 7), where its tag is in the texts, and where its content is in the texts, or its parts are in the list of
/// parts. A mapping's parts are its keys and values in turn.
#[repr(C)]
#[derive(Clone, Copy)]
pub struct Value {
    pub kind: u32,
    pub tag_start: u32,
    pub tag_end: u32,
    pub start: u32,
    pub end: u32,
}

const _: () = prove!(size_of::<Value>() == 20);

/// The kind of a scalar with this tag: 0 for null, 1 for a Boolean, 2 for an integer, 3 for a float, 4 for a string, 5 for another tag.
#[tactic(auto, unfolding(yaml_definitions::specs::model::Tag::core_tag))]
pub(crate) fn scalar_kind(tag: &str) -> u32
    ensures { result ≡ scalar_kind tag.now }
{
    if tag == core_tag::NULL {
        0
    } else if tag == core_tag::BOOL {
        1
    } else if tag == core_tag::INT {
        2
    } else if tag == core_tag::FLOAT {
        3
    } else if tag == core_tag::STR {
        4
    } else {
        5
    }
}
