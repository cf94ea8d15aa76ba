//! Laws of the grammar. Each function has an empty body, and its contract is a law.
ghost use Rattle.law_one_reading.specs.Laws.{OneReading, OneMeaning};

/// Bytes are read as one list of events at most.
pub fn one_reading()
    ensures { OneReading }
{}

/// Bytes mean one forest at most: two forests that the same bytes mean are equal lists of trees.
pub fn one_meaning()
    ensures { OneMeaning }
{}
