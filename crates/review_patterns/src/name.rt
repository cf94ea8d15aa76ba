//! Names and fronts of texts.
ghost use Rattle.std.specs.Prelude.{◌≡◌, ◌≤◌, length};
ghost use Rattle.std.specs.List.{prefix_len};
ghost use Rattle.review_patterns.specs.Classes.{passes};
ghost use Rattle.review_patterns.specs.Grammar.{is_name_start, is_name_byte, name_len, begins_step};

/// The bytes of a part of a text.
#[derive(Clone, Copy)]
pub(crate) enum Class {
    /// Those of names.
    Name,
    /// Those before the first step.
    Document,
}

fn is_name_start(byte: u8) -> bool
    ensures { result ≡ is_name_start byte }
{
    matches!(byte, b'A'..=b'Z' | b'a'..=b'z' | b'_')
}

fn is_name_byte(byte: u8) -> bool
    ensures { result ≡ is_name_byte byte }
{
    is_name_start(byte) || matches!(byte, b'0'..=b'9' | b'-')
}

fn begins_step(byte: u8) -> bool
    ensures { result ≡ begins_step byte }
{
    matches!(byte, b'.' | b'[')
}

impl Class {
    fn passes(self, byte: u8) -> bool
        ensures { result ≡ passes self byte }
    {
        match self {
            Class::Name => is_name_byte(byte),
            Class::Document => !begins_step(byte),
        }
    }
}

/// How many bytes of a class stand at the front of a text.
pub(crate) fn front_len(class: Class, text: &[u8]) -> usize
    ensures is { result ≡ prefix_len (passes class) text.now }
    ensures within { result ≤ length text.now }
{
    'bytes: for (place, byte) in text.iter().enumerate() {
        if !class.passes(*byte) {
            return place;
        }
    }
    text.len()
}

/// How many bytes a text has of a name with which it begins; 0 where it begins with none.
pub(crate) fn name_len(text: &[u8]) -> usize
    ensures is { result ≡ name_len text.now }
    ensures within { result ≤ length text.now }
{
    match text.split_first() {
        Some((first, rest)) if is_name_start(*first) => front_len(Class::Name, rest) + 1,
        _ => 0,
    }
}
