//! What texts begin and end with.
ghost use Rattle.std.specs.Prelude.{◌≡◌, ◌<◌, ◌==◌, slice_index};
ghost use Rattle.std.specs.List.{before_first, after_first};
ghost use Rattle.std.specs.Option.{option_map};
ghost use Rattle.yaml_show_scalar.specs.Texts.{ends_in, behind};

/// The byte at a place; 0 behind the end.
pub(crate) fn byte_at(text: &str, place: usize) -> u8
    ensures { result ≡ slice_index text.now place }
{
    let bytes = text.as_bytes();
    if place < bytes.len() { bytes[place] } else { 0 }
}

/// Whether a text ends with a character of ASCII.
pub(crate) fn ends_in(text: &str, mark: char) -> bool
    requires { mark < 128 }
    ensures { result ≡ ends_in mark text.now }
{
    text.ends_with(mark)
}

/// What stands before the first such character, and what stands behind it; all and nothing if there is none.
pub(crate) fn cut(text: &str, mark: char) -> (&str, &str)
    requires { mark < 128 }
    ensures front { result.0.now ≡ before_first (λ b. b == mark) text.now }
    ensures rest { result.1.now ≡ after_first (λ b. b == mark) text.now }
{
    match text.split_once(mark) {
        Some(parts) => parts,
        None => (text, ""),
    }
}

/// The text behind a front, if it has it.
pub(crate) fn behind<'t>(text: &'t str, front: &str) -> Option<&'t str>
    ensures { option_map (λ rest. rest.now) result ≡ behind front.now text.now }
{
    text.strip_prefix(front)
}
