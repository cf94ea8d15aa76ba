//! Texts of files in pages, tables and commands.
ghost use Rattle.std.specs.Prelude.{◌≡◌, ◌<◌, ◌++◌, ◌||◌, string_bytes, OnOk};
ghost use Rattle.std.specs.Str.{encode_utf8_all};
ghost use Rattle.review_formats.specs.Escaped.{is_plain, is_of_reference, reference, percent, escape_of, escaped_char, escaped, HasNoMarkup};

use std::alloc::AllocError;
use yaml_text::digit::hex_digit;

/// What a text stands in.
#[derive(Clone, Copy, Debug, PartialEq, Eq)]
pub enum Escape {
    /// An element or an attribute of HTML.
    Html,
    /// An element of HTML in Markdown.
    Markdown,
    /// The message of a command of GitHub's workflows.
    Message,
    /// A property of such a command.
    Property,
}

/// Whether a character is a letter or a digit of ASCII, or a space.
fn is_plain(c: char) -> bool
    ensures { result ≡ is_plain c }
{
    matches!(c, '0'..='9' | 'A'..='Z' | 'a'..='z' | ' ')
}

/// Whether a reference to a character is made of this one, beside letters and digits.
fn is_of_reference(c: char) -> bool
    ensures { result ≡ is_of_reference c }
{
    matches!(c, '&' | '#' | ';')
}

impl Escape {
    ghost use Rattle.std.specs.Prelude.{◌≡◌, ◌<◌, ◌||◌, true};
    ghost use Rattle.review_formats.specs.Escaped.{is_markup, is_of_escape};

    /// Whether a character would be markup.
    #[tactic(auto, unfolding(crate::specs::Escaped::is_markup))]
    fn is_markup(self, c: char) -> bool
        ensures { result ≡ is_markup self c }
    {
        match self {
            Escape::Html => matches!(c, '"' | '\'' | '<' | '>' | '`'),
            Escape::Markdown => c < '\u{80}' && !(is_plain(c) || is_of_reference(c)),
            Escape::Message => matches!(c, '\n' | '\r'),
            Escape::Property => matches!(c, '\n' | '\r' | ',' | ':'),
        }
    }

    /// Whether an escape is made of a character.
    fn is_of_escape(self, c: char) -> bool
        ensures { result ≡ is_of_escape self c }
    {
        match self {
            Escape::Html => c == '&',
            Escape::Markdown => is_of_reference(c),
            Escape::Message | Escape::Property => c == '%',
        }
    }

    /// Whether a character is escaped.
    #[tactic(auto, using(crate::proofs::EscapeLaws::escaped_low))]
    fn escapes(self, c: char) -> bool
        ensures told { result ≡ (is_markup self c || is_of_escape self c) }
        ensures low { (result ≡ true) → c < 128 }
    {
        self.is_markup(c) || self.is_of_escape(c)
    }
}

/// Writes a reference to a character.
fn put_reference(out: &mut String, code: u32) -> Result<(), AllocError>
    requires { code < 256 }
    ensures ok { OnOk result (string_bytes out.new ≡ string_bytes out.old ++ encode_utf8_all (reference code)) }
{
    out.push_str("&#x")?;
    out.push(char::from(hex_digit(code / 16)))?;
    out.push(char::from(hex_digit(code % 16)))?;
    out.push(';')?;
    Ok(())
}

/// Writes a percent sign and the digits of a character.
fn put_percent(out: &mut String, code: u32) -> Result<(), AllocError>
    requires { code < 256 }
    ensures ok { OnOk result (string_bytes out.new ≡ string_bytes out.old ++ encode_utf8_all (percent code)) }
{
    out.push('%')?;
    out.push(char::from(hex_digit(code / 16)))?;
    out.push(char::from(hex_digit(code % 16)))?;
    Ok(())
}

/// Writes the escape of a character of ASCII.
fn put_escape(out: &mut String, c: char, escape: Escape) -> Result<(), AllocError>
    requires { c < 128 }
    ensures ok { OnOk result (string_bytes out.new ≡ string_bytes out.old ++ encode_utf8_all (escape_of escape c)) }
{
    match escape {
        Escape::Html | Escape::Markdown => put_reference(out, u32::from(c)),
        Escape::Message | Escape::Property => put_percent(out, u32::from(c)),
    }
}

/// Writes a character, or its escape where it would be markup or part of an escape.
fn put_char(out: &mut String, c: char, escape: Escape) -> Result<(), AllocError>
    ensures ok { OnOk result (string_bytes out.new ≡ string_bytes out.old ++ encode_utf8_all (escaped_char escape c)) }
{
    if escape.escapes(c) {
        put_escape(out, c, escape)
    } else {
        out.push(c)?;
        Ok(())
    }
}

/// Writes a text with an escape for each character that would be markup. No byte of what is written would be.
#[tactic(auto, using(crate::proofs::EscapeLaws::clean))]
pub fn put_escaped(out: &mut String, text: &str, escape: Escape) -> Result<(), AllocError>
    ensures told { OnOk result (string_bytes out.new ≡ string_bytes out.old ++ escaped escape text.now) }
    ensures clean { HasNoMarkup escape (escaped escape text.now) }
{
    'chars: for c in text.chars() {
        put_char(out, c, escape)?;
    }
    Ok(())
}
