//! Tags of collections.
ghost use Rattle.std.specs.Prelude.{MatchResult, Ok, IfSome, ◌≡◌};
ghost use Rattle.yaml_definitions.specs.model.Tag.{default_tag, is_core};
ghost use Rattle.yaml_definitions.specs.model.Core.{collection_tag};
ghost use Rattle.yaml_definitions.specs.model.Event.{full};
ghost use Rattle.yaml_text.specs.EventModel.{written_of};
ghost use Rattle.yaml_sink.specs.PropertyRules.{props_of};
ghost use Rattle.yaml_tree_builder.specs.TagModel.{collection_number, KeepsTexts};
ghost use Rattle.yaml_tree_builder.specs.Refusals.{Blames};

use crate::stop::{Cause, Stop};
use yaml_core::tag::{TagUse, tag_use};
use yaml_sink::properties::Properties;
use yaml_store::nodes::Collection;
use yaml_text::event::EventTag;

/// Whether this is a tag of the core schema.
#[tactic(auto, unfolding(yaml_definitions::specs::model::Tag::core_tag))]
fn is_core(tag: &str) -> bool
    ensures { result ≡ is_core tag.now }
{
    matches!(
        tag,
        "tag:yaml.org,2002:null"
            | "tag:yaml.org,2002:bool"
            | "tag:yaml.org,2002:int"
            | "tag:yaml.org,2002:float"
            | "tag:yaml.org,2002:str"
            | "tag:yaml.org,2002:seq"
            | "tag:yaml.org,2002:map"
    )
}

/// The tag of a collection that carries none.
#[tactic(auto, unfolding(yaml_definitions::specs::model::Tag::core_tag))]
pub(crate) fn default_tag(collection: Collection) -> &'static str
    ensures { result.now ≡ default_tag (collection_number collection) }
{
    match collection {
        Collection::Sequence => "tag:yaml.org,2002:seq",
        Collection::Mapping => "tag:yaml.org,2002:map",
    }
}

/// The tag that is written out, if each text stands for itself under it.
pub(crate) fn kept_tag<'t>(tag: &'t EventTag<'_>) -> Option<&'t str>
    ensures is { IfSome result (λ text. written_of tag.now ≡ full text.now) }
    ensures keeps { IfSome result (λ text. KeepsTexts (full text.now)) }
{
    let EventTag::Full(full) = tag else {
        return None;
    };
    let text = full.as_str();
    match tag_use(text) {
        TagUse::Kept => Some(text),
        _ => None,
    }
}

/// The tag of a collection, by what is written.
#[tactic(auto, unfolding(yaml_definitions::specs::model::Core::collection_tag))]
pub(crate) fn tag_of<'a>(collection: Collection, tag: &'a EventTag<'_>) -> Result<&'a str, Stop>
    ensures { MatchResult result (λ text. collection_tag (collection_number collection) (written_of tag.now) ≡ Ok text.now) (Blames (collection_tag (collection_number collection) (written_of tag.now))) }
{
    let EventTag::Full(full) = tag else {
        return Ok(default_tag(collection));
    };
    let text = full.as_str();
    if text != default_tag(collection) && is_core(text) {
        return Err(Stop::Refused(Cause::WrongKind));
    }
    Ok(text)
}

/// The tag of a collection with these properties.
pub(crate) fn tag_given<'a>(
    collection: Collection,
    properties: &'a Properties<'_>,
) -> Result<&'a str, Stop>
    ensures { MatchResult result (λ text. collection_tag (collection_number collection) (props_of properties.now).tag ≡ Ok text.now) (Blames (collection_tag (collection_number collection) (props_of properties.now).tag)) }
{
    match &properties.given {
        None => Ok(default_tag(collection)),
        Some(given) => tag_of(collection, &given.tag),
    }
}
