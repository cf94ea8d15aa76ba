//! A law of scalars. The function has an empty body, and its contract is the law.
ghost use Rattle.yaml_scalar.specs.Spelling.{ReadsBack};

/// A spelling is read back: wherever it stands it is a double-quoted scalar of the content that it spells, and no other
/// reading begins there.
pub fn spellings_are_read_back()
    ensures { ReadsBack }
{}
