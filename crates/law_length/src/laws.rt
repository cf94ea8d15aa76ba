//! Laws of lengths. Each function has an empty body, and its contract is a law.
ghost use Rattle.law_length.specs.Sizes.{CanonicalIsBounded, MeaningIsBounded};

/// A canonical text is not much longer than the events that it stands for.
pub fn canonical_is_bounded()
    ensures documents { CanonicalIsBounded }
    ensures meaning { MeaningIsBounded }
{}
