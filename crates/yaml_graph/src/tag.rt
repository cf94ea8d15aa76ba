//! Tags of collections.
ghost use Rattle.std.specs.Prelude.{MatchResult, Ok, Err, ◌≡◌, true, length};
ghost use Rattle.std.specs.Cow.{cow_str_bytes};
ghost use Rattle.yaml_definitions.specs.model.Tag.{default_tag, is_core};
ghost use Rattle.yaml_definitions.specs.model.Core.{collection_tag};
ghost use Rattle.yaml_definitions.specs.model.Unfold.{placed};
ghost use Rattle.yaml_text.specs.EventModel.{written_of};
ghost use Rattle.yaml_tree.specs.Refused.{RefusesUnfolding};
ghost use Rattle.yaml_graph.specs.ComposerModel.{kind_number};

use std::borrow::CowStr;
use yaml_text::core_tag;
use yaml_text::event::EventTag;
use yaml_text::fault::Fault;

/// A kind of collection.
#[derive(Clone, Copy)]
pub(crate) enum Collection {
    Sequence,
    Mapping,
}

/// Whether this is a tag of the core schema.
#[tactic(auto, unfolding(yaml_definitions::specs::model::Tag::core_tag))]
fn is_core(tag: &str) -> bool
    ensures { result ≡ is_core tag.now }
{
    matches!(
        tag,
        core_tag::NULL
            | core_tag::BOOL
            | core_tag::INT
            | core_tag::FLOAT
            | core_tag::STR
            | core_tag::SEQ
            | core_tag::MAP
    )
}

impl Collection {
    /// The tag of a collection that carries none.
    #[tactic(auto, unfolding(yaml_definitions::specs::model::Tag::core_tag))]
    fn default_tag(self) -> &'static str
        ensures { result.now ≡ default_tag (kind_number self) }
    {
        match self {
            Collection::Sequence => core_tag::SEQ,
            Collection::Mapping => core_tag::MAP,
        }
    }

    /// The tag of the collection that begins at the event at `at`.
    #[tactic(auto, unfolding(yaml_definitions::specs::model::Core::collection_tag))]
    pub(crate) fn tag<'s>(self, at: usize, tag: EventTag<'s>) -> Result<CowStr<'s>, Fault>
        ensures { MatchResult result (λ text. collection_tag (kind_number self) (written_of tag.entry) ≡ Ok (cow_str_bytes text)) (RefusesUnfolding (placed at (collection_tag (kind_number self) (written_of tag.entry)))) }
    {
        let EventTag::Full(full) = tag else {
            return Ok(CowStr::Borrowed(self.default_tag()));
        };
        let text = full.as_str();
        if text == self.default_tag() {
            return Ok(CowStr::Borrowed(self.default_tag()));
        }
        if is_core(text) {
            return Err(Fault::WrongKind(at));
        }
        Ok(full)
    }
}
