//! The limits of the profile, each tied to its definition.
ghost use Rattle.std.specs.Prelude.{◌≡◌};
ghost use Rattle.yaml_definitions.specs.model.Limits as limit;

/// The greatest length of an input and of a canonical text, in bytes.
pub fn text_limit() -> usize
    ensures { result ≡ limit.text_limit }
{
    67_108_864
}

/// How many collections may be open at one place.
pub fn open_limit() -> usize
    ensures { result ≡ limit.open_limit }
{
    1_024
}

/// The greatest height of a document's tree.
pub fn height_limit() -> usize
    ensures { result ≡ limit.height_limit }
{
    1_023
}

/// How many characters an implicit key may have before its `:`.
pub fn key_limit() -> usize
    ensures { result ≡ limit.key_limit }
{
    1_024
}

/// The greatest length of a decoded tag, in bytes.
pub fn tag_limit() -> usize
    ensures { result ≡ limit.tag_limit }
{
    1_024
}

/// The greatest length of the text of a node that is always written out, in bytes.
pub fn short_limit() -> usize
    ensures { result ≡ limit.short_limit }
{
    64
}
