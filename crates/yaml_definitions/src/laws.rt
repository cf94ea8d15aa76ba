//! Laws of trees, their canonical text and their meaning. Each function has an empty body, and
//! its contract is a law.
ghost use Rattle.yaml_definitions.specs.Laws.{OrderIsTotal, OrderTells, BeforeOrSame, BeforeGoesOn, SameToItself, SameEitherWay, SameGoesOn, SameIsArranged, NodeEventsTell, StreamEventsTell, EventTextTells, EventsHaveOneText, SoundEventsHaveText, TextsTell, SpellingsUnderstood, SpellingsAreText, BlocksAreText, EventsTell, ResolvedAgain, ContentsTell, OneCanonicalText, ReadIsProper, ReadingsHaveText, ReadingsAreProper, MeaningIsProper};

/// The comparison of trees is a total order, which tells any two trees apart.
pub fn trees_are_ordered()
    ensures total { OrderIsTotal }
    ensures tells { OrderTells }
{}

/// Of two trees without equal keys in a mapping one is before the other, or they are the same,
/// and only one of these holds.
pub fn before_or_same()
    ensures one { BeforeOrSame }
    ensures goes_on { BeforeGoesOn }
{}

/// To be the same is an equivalence; on trees without equal keys in a mapping it is to be one tree
/// once pairs stand in order.
pub fn same_is_equivalence()
    ensures itself { SameToItself }
    ensures either_way { SameEitherWay }
    ensures goes_on { SameGoesOn }
    ensures arranged { SameIsArranged }
{}

/// The events of a node belong to one serialization tree, and those of a stream to one list of
/// documents.
pub fn events_belong_to_one()
    ensures node { NodeEventsTell }
    ensures stream { StreamEventsTell }
{}

/// An event text belongs to one list of events, and events have one text; those of sound
/// documents have one.
pub fn event_text_tells()
    ensures events { EventTextTells }
    ensures text { EventsHaveOneText }
    ensures sound { SoundEventsHaveText }
{}

/// The texts of admitted forests are the same exactly if the forests are equally long and
/// pairwise the same.
pub fn texts_tell()
    ensures { TextsTell }
{}

/// The events of a forest's two spellings stand for the same forest.
pub fn spellings_understood()
    ensures { SpellingsUnderstood }
{}

/// Each canonical text is a text of the profile, and so is each block spelling that is not too
/// long.
pub fn spellings_are_text()
    ensures canonical { SpellingsAreText }
    ensures block { BlocksAreText }
{}

/// Events stand for one forest at most.
pub fn events_tell()
    ensures { EventsTell }
{}

/// A content that resolving gives is canonical: under its tag it gives itself.
pub fn resolved_again()
    ensures { ResolvedAgain }
{}

/// Canonical content stands for one value: texts of one tag have the same content exactly if they
/// denote equal values, and one of these texts at most is canonical itself.
pub fn contents_tell()
    ensures content { ContentsTell }
    ensures one { OneCanonicalText }
{}

/// The trees of sound documents are proper, and so is what bytes mean.
pub fn read_is_proper()
    ensures documents { ReadIsProper }
    ensures readings { ReadingsAreProper }
    ensures bytes { MeaningIsProper }
{}

/// What bytes are read as has an event text.
pub fn readings_have_text()
    ensures { ReadingsHaveText }
{}
