//! The tags of the core schema (YAML 1.2.2, 10.1 to 10.3), decoded.
ghost use Rattle.std.specs.Prelude.{◌≡◌, ◌++◌, IfSome, IfNone, codes};
ghost use Rattle.std.specs.Str.{encode_utf8_all};
ghost use Rattle.yaml_definitions.specs.canonical.TagText.{encoded, full_text};

/// The prefix of the core tags, which `!!` is short for (6.8.2.1).
pub const PREFIX: &str = "tag:yaml.org,2002:";

/// The tag of null (10.2.1.1).
pub const NULL: &str = "tag:yaml.org,2002:null";

/// The tag of Booleans (10.2.1.2).
pub const BOOL: &str = "tag:yaml.org,2002:bool";

/// The tag of integers (10.2.1.3).
pub const INT: &str = "tag:yaml.org,2002:int";

/// The tag of floating point numbers (10.2.1.4).
pub const FLOAT: &str = "tag:yaml.org,2002:float";

/// The tag of strings (10.1.1.3).
pub const STR: &str = "tag:yaml.org,2002:str";

/// The tag of sequences (10.1.1.2).
pub const SEQ: &str = "tag:yaml.org,2002:seq";

/// The tag of mappings (10.1.1.1).
pub const MAP: &str = "tag:yaml.org,2002:map";

/// How a tag of the core schema is written in canonical text, with a space behind it, if it is one of those that have a short form there:
/// the tags of null, Booleans, integers and floats.
#[tactic(auto, unfolding(yaml_definitions::specs::model::Tag::core_tag, yaml_definitions::specs::canonical::TagText::full_text))]
pub fn core_text(tag: &str) -> Option<&'static str>
    ensures some { IfSome result (λ known. (full_text tag.now ≡ known.now) × (encode_utf8_all known.now ≡ known.now)) }
    ensures none { IfNone result (full_text tag.now ≡ codes "!<" ++ encoded tag.now (codes "> ")) }
{
    if tag == NULL {
        Some("!!null ")
    } else if tag == BOOL {
        Some("!!bool ")
    } else if tag == INT {
        Some("!!int ")
    } else if tag == FLOAT {
        Some("!!float ")
    } else {
        None
    }
}
