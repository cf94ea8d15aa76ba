//! Signs and digits at the beginning of a number's text.
ghost use Rattle.std.specs.Prelude.{◌≡◌, ◌+◌, ◌<◌, [], ◌∷◌, ◌++◌, IfOk};
ghost use Rattle.std.specs.Option.{option_map};
ghost use Rattle.std.specs.Str.{IsAscii};
ghost use Rattle.std.specs.String.{string_bytes};
ghost use Rattle.yaml_definitions.specs.model.Core.{is_negative, unsigned, split_at, natural_text};
ghost use Rattle.yaml_core.specs.Digits.{without_zeros, without_last_zeros};
ghost use Rattle.yaml_core.specs.Delimiter.{is_delimiter};

use std::alloc::AllocError;

/// Whether a text begins with a minus sign.
pub(crate) fn is_negative(text: &str) -> bool
    ensures { result ≡ is_negative text.now }
{
    matches!(text.as_bytes(), [b'-', ..])
}

/// A text without the sign that it begins with, if any.
pub(crate) fn unsigned(text: &str) -> &str
    ensures { result.now ≡ unsigned text.now }
{
    match text.as_bytes() {
        [b'+' | b'-', ..] => &text[1..],
        _ => text,
    }
}

/// A text without the zeros that it begins with.
pub(crate) fn without_zeros(text: &str) -> &str
    requires { IsAscii text.now }
    ensures { result.now ≡ without_zeros text.now }
{
    let bytes = text.as_bytes();
    for (at, byte) in bytes.iter().enumerate() {
        if *byte != b'0' {
            return &text[at..];
        }
    }
    ""
}

/// A text without the zeros that it ends with.
pub(crate) fn without_last_zeros(text: &str) -> &str
    requires { IsAscii text.now }
    ensures { result.now ≡ without_last_zeros text.now }
{
    let bytes = text.as_bytes();
    let mut end = bytes.len();
    while end > 0 && bytes[end - 1] == b'0' {
        end -= 1;
    }
    &text[..end]
}

/// What parts the text of a float.
#[derive(Clone, Copy)]
pub(crate) enum Delimiter {
    Point,
    Exponent,
}

impl Delimiter {
    fn is_at(self, byte: u8) -> bool
        ensures { result ≡ is_delimiter self byte }
    {
        match self {
            Delimiter::Point => byte == b'.',
            Delimiter::Exponent => byte == b'e' || byte == b'E',
        }
    }
}

/// The text before the first mark of this kind, and the text after it where there is one.
pub(crate) fn cut(text: &str, mark: Delimiter) -> (&str, Option<&str>)
    ensures { (result.0.now, option_map (λ s. s.now) result.1) ≡ split_at (is_delimiter mark) text.now }
{
    let bytes = text.as_bytes();
    for (at, byte) in bytes.iter().enumerate() {
        if mark.is_at(*byte) {
            return (&text[..at], Some(&text[at + 1..]));
        }
    }
    (text, None)
}

/// Appends a number in decimal.
pub(crate) fn push_natural(out: &mut String, number: u128) -> Result<(), AllocError>
    ensures { IfOk result (λ _. string_bytes out.new ≡ string_bytes out.old ++ natural_text number) }
{
    if number < 10 {
        return push_digit(out, number as u8);
    }
    push_natural(out, number / 10)?;
    push_digit(out, (number % 10) as u8)
}

/// Appends a decimal digit.
fn push_digit(out: &mut String, digit: u8) -> Result<(), AllocError>
    requires { digit < 10 }
    ensures { IfOk result (λ _. string_bytes out.new ≡ string_bytes out.old ++ (48 + digit) ∷ []) }
{
    out.push(char::from(b'0' + digit))
}
