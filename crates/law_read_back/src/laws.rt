//! Laws of spellings. Each function has an empty body, and its contract is a law.
ghost use Rattle.law_read_back.specs.Spellings.{TagsComeBack, SpellingsAreRead, BlocksAreRead, SpellingsMean, BlocksMean};

/// What is percent-encoded is decoded to the same tag.
pub fn tags_come_back()
    ensures { TagsComeBack }
{}

/// Each canonical text is a stream of the profile, whose events are those spelled, and so is each block spelling that is
/// not too long and whose keys fit.
pub fn spellings_are_read()
    ensures canonical { SpellingsAreRead }
    ensures block { BlocksAreRead }
{}

/// Each of the two spellings means a forest that is admitted, the same as the one spelled, and has its text.
pub fn spellings_mean()
    ensures canonical { SpellingsMean }
    ensures block { BlocksMean }
{}
