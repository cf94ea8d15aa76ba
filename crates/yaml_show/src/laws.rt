//! Laws of what the calls promise. The function has an empty body, and its contract is the laws.
ghost use Rattle.yaml_show.specs.Lines.{SameIsJsonAlike};
ghost use Rattle.yaml_show.specs.Shows.{SameIsShownAlike, SameIsSharedAlike};

/// Streams that mean the same are shown as the same bytes: in YAML, with anchors and aliases too, and in JSON.
pub fn same_is_shown_alike()
    ensures yaml { SameIsShownAlike }
    ensures sharing { SameIsSharedAlike }
    ensures json { SameIsJsonAlike }
{}
