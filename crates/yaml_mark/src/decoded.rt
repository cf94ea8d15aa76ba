//! Prefixes of tags, decoded (YAML 1.2.2, 6.8.2).
ghost use Rattle.std.specs.Prelude.{◌≡◌, [], ◌∷◌, IfOk, IfErr};
ghost use Rattle.std.specs.Bool.{OnTrue};
ghost use Rattle.yaml_definitions.specs.grammar.Characters.{c-tag};
ghost use Rattle.yaml_definitions.specs.grammar.Tags.{percent_decode};
ghost use Rattle.yaml_text.specs.declared.fault.Fault.TheVariants as fault;
ghost use Rattle.yaml_mark.specs.PrefixModel.{bytes_of, decoded_of, made_of};

use percent_encoding::{DecodeError, percent_decode_str};
use std::alloc::Global;
use std::borrow::{CowSlice, CowStr};
use yaml_text::fault::Fault;

/// The decoded prefix of a handle: a text, if its bytes are one. They need be none, since a character's escapes may stand in the
/// prefix and in the suffix.
#[derive(Clone, Copy)]
pub(crate) enum Prefix<'p> {
    Text(&'p str),
    Bytes(&'p [u8]),
}

/// A decoded prefix that is kept.
#[derive(Drop)]
pub(crate) enum Decoded<'a> {
    /// It has no escapes.
    Text(&'a str),
    Made(Box<Made<'a>>),
}

/// A prefix that was made out of escapes, in a box, since few are: an enum has room for all its parts.
#[derive(Drop)]
pub(crate) enum Made<'a> {
    Text(String),
    Bytes(CowSlice<'a, u8>),
}

impl Prefix<'_> {
    /// Whether this is `!`.
    pub(crate) fn is_bang(self) -> bool
        ensures { OnTrue result (bytes_of self.entry ≡ c-tag ∷ []) }
    {
        match self {
            Prefix::Text(text) => text == "!",
            Prefix::Bytes(_) => false,
        }
    }
}

impl Made<'_> {
    /// The prefix that was made.
    fn prefix(&self) -> Prefix<'_>
        ensures { bytes_of result ≡ made_of self.now }
    {
        match self {
            Made::Text(text) => Prefix::Text(text.as_str()),
            Made::Bytes(bytes) => Prefix::Bytes(bytes.as_slice()),
        }
    }
}

impl Decoded<'_> {
    /// The prefix that is kept.
    pub(crate) fn prefix(&self) -> Prefix<'_>
        ensures { bytes_of result ≡ decoded_of self.now }
    {
        match self {
            Decoded::Text(text) => Prefix::Text(text),
            Decoded::Made(made) => made.prefix(),
        }
    }
}

/// A prefix, decoded.
pub(crate) fn decode_prefix<'a>(alloc: Global, prefix: &'a str) -> Result<Decoded<'a>, Fault>
    ensures ok { IfOk result (λ kept. decoded_of kept ≡ percent_decode prefix.now) }
    ensures err { IfErr result (λ e. e ≡ fault.OutOfMemory) }
{
    match percent_decode_str(prefix).decode_utf8(alloc) {
        Ok(CowStr::Borrowed(text)) => Ok(Decoded::Text(text)),
        Ok(CowStr::Owned(text)) => {
            let made = Box::new(alloc, Made::Text(text))?;
            Ok(Decoded::Made(made))
        }
        Err(DecodeError::Utf8(_)) => {
            let bytes = percent_decode_str(prefix).into_cow(alloc)?;
            let made = Box::new(alloc, Made::Bytes(bytes))?;
            Ok(Decoded::Made(made))
        }
        Err(DecodeError::OutOfMemory) => Err(Fault::OutOfMemory),
    }
}
