//! Laws of texts. Each function has an empty body, and its contract is a law.
ghost use Rattle.yaml_text.specs.TextLaws.{RefusedIsNoText};

/// Bytes that one of the three checks rejects are not a text.
pub fn refused_is_no_text()
    ensures { RefusedIsNoText }
{}
