//! Laws of canonical content. Each function has an empty body, and its contract is a law.
ghost use Rattle.yaml_core.specs.CanonicalForms.{NullForm, BoolForm, IntForm, FloatForm, GivesNull, GivesBool, GivesInt, GivesFloat};

/// The canonical content of what a text denotes under null, bool, int or float is of the one form
/// of that tag, and each text of the form is the content of what it denotes itself.
pub fn contents_have_forms()
    ensures null { NullForm }
    ensures bool { BoolForm }
    ensures int { IntForm }
    ensures float { FloatForm }
{}

/// What resolving gives with one of these tags is of the form, with an int or an exponent in range,
/// and each such text gives itself under the tag.
pub fn resolved_have_forms()
    ensures null { GivesNull }
    ensures bool { GivesBool }
    ensures int { GivesInt }
    ensures float { GivesFloat }
{}
