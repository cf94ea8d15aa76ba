//! Laws of readings that go on. Each function has an empty body, and its contract is a law.
ghost use Rattle.law_going_on.specs.Laws.{PlainGoesOn, PlainInFlowGoesOn, SingleEnds, DoubleEnds, LiteralGoesOn, FoldedGoesOn, ReadingsFit};

/// Where any reading of a scalar goes on, the one that ends furthest does: a reader that takes as much as there is loses no
/// reading of what stands round it.
pub fn scalars_go_on()
    ensures plain { PlainGoesOn }
    ensures plain_in_flow { PlainInFlowGoesOn }
    ensures single { SingleEnds }
    ensures double { DoubleEnds }
    ensures literal { LiteralGoesOn }
    ensures folded { FoldedGoesOn }
{}

/// No more collections are open at one place of a reading than there was room for.
pub fn readings_fit_their_room()
    ensures { ReadingsFit }
{}
