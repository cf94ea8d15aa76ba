//! Laws of what the calls promise. Each function has an empty body, and its contract is a law.
ghost use Rattle.yaml_canon.specs.Accepting.{MeaningsAreAccepted, SpellingsAreAccepted, MeaningsHaveTheText, SpellingsHaveTheText};

/// For bytes that mean admitted documents, or are one of their presentations, the only error is want of memory.
pub fn nothing_else_is_refused()
    ensures meaning { MeaningsAreAccepted }
    ensures spelling { SpellingsAreAccepted }
{}

/// The canonical text of such bytes is that of the documents.
pub fn the_text_is_the_forests()
    ensures meaning { MeaningsHaveTheText }
    ensures spelling { SpellingsHaveTheText }
{}
