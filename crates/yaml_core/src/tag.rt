//! The tags of the core schema (YAML 1.2.2, 10.1 to 10.3), decoded.
ghost use Rattle.std.specs.Prelude.{◌≡◌};
ghost use Rattle.yaml_core.specs.Kind.{kind_tag, use_of};

use crate::kind::PlainKind;
use yaml_text::core_tag;

/// What a tag makes of a scalar.
#[derive(Clone, Copy)]
pub enum TagUse {
    /// Its text has to match the patterns of this kind.
    Judged(PlainKind),
    /// The tag is that of a collection.
    Collection,
    /// Each text stands for itself.
    Kept,
}

/// What this tag makes of a scalar.
#[tactic(auto, unfolding(yaml_definitions::specs::model::Tag::core_tag))]
pub fn tag_use(tag: &str) -> TagUse
    ensures { result ≡ use_of tag.now }
{
    if tag == core_tag::NULL {
        TagUse::Judged(PlainKind::Null)
    } else if tag == core_tag::BOOL {
        TagUse::Judged(PlainKind::Bool)
    } else if tag == core_tag::INT {
        TagUse::Judged(PlainKind::Int)
    } else if tag == core_tag::FLOAT {
        TagUse::Judged(PlainKind::Float)
    } else if tag == core_tag::SEQ || tag == core_tag::MAP {
        TagUse::Collection
    } else {
        TagUse::Kept
    }
}

impl PlainKind {
    /// The tag of this kind.
    #[tactic(auto, unfolding(yaml_definitions::specs::model::Tag::core_tag))]
    pub fn tag(self) -> &'static str
        ensures { result.now ≡ kind_tag self }
    {
        match self {
            PlainKind::Null => core_tag::NULL,
            PlainKind::Bool => core_tag::BOOL,
            PlainKind::Int => core_tag::INT,
            PlainKind::Float => core_tag::FLOAT,
            PlainKind::Str => core_tag::STR,
        }
    }
}
