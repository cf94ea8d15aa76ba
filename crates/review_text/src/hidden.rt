//! Texts in which a terminal shows each character, as they are and in JSON.
ghost use Rattle.std.specs.Prelude.{◌≡◌, ◌<◌, ◌++◌, ◌||◌, string_bytes, OnOk};
ghost use Rattle.std.specs.Str.{encode_utf8_all};
ghost use Rattle.review_text.specs.Hidden.{is_hidden_low, is_hidden_high, is_hidden, is_control_high, two_digits, escape_text, visible_char, visible, ascii_char, ascii, json_escape, json_char, escaped_char, escaped, json_visible};

use std::alloc::AllocError;
use yaml_text::digit::hex_digit;

/// Whether a character below U+3000 is hidden.
#[tactic(auto, unfolding(crate::specs::Hidden::is_hidden_low))]
fn is_hidden_low(c: char) -> bool
    ensures { result ≡ is_hidden_low c }
{
    matches!(
        c,
        '\u{AD}' | '\u{34F}' | '\u{61C}' | '\u{115F}'..='\u{1160}' | '\u{17B4}'..='\u{17B5}' | '\u{180B}'..='\u{180F}'
            | '\u{200B}'..='\u{200F}' | '\u{2028}'..='\u{202E}' | '\u{2060}'..='\u{206F}'
    )
}

/// Whether a character from U+3000 on is hidden.
#[tactic(auto, unfolding(crate::specs::Hidden::is_hidden_high))]
fn is_hidden_high(c: char) -> bool
    ensures { result ≡ is_hidden_high c }
{
    matches!(
        c,
        '\u{3164}' | '\u{FEFF}' | '\u{FFA0}' | '\u{FE00}'..='\u{FE0F}' | '\u{FFF0}'..='\u{FFFB}' | '\u{1BCA0}'..='\u{1BCA3}'
            | '\u{1D173}'..='\u{1D17A}' | '\u{E0000}'..='\u{E0FFF}'
    )
}

/// Whether a terminal shows nothing for a character, or the character turns or hides the text around it.
fn is_hidden(c: char) -> bool
    ensures { result ≡ is_hidden c }
{
    is_hidden_low(c) || is_hidden_high(c)
}

/// Writes the two digits of a byte.
fn put_digits(out: &mut String, byte: u32) -> Result<(), AllocError>
    requires { byte < 256 }
    ensures ok { OnOk result (string_bytes out.new ≡ string_bytes out.old ++ encode_utf8_all (two_digits byte)) }
{
    out.push(char::from(hex_digit(byte / 16)))?;
    out.push(char::from(hex_digit(byte % 16)))?;
    Ok(())
}

/// Writes the escape of a character by its number.
fn put_escape(out: &mut String, code: u32) -> Result<(), AllocError>
    requires { code < 1114112 }
    ensures ok { OnOk result (string_bytes out.new ≡ string_bytes out.old ++ encode_utf8_all (escape_text code)) }
{
    if code < 65_536 {
        out.push_str("\\u")?;
        put_digits(out, code / 256)?;
        put_digits(out, code % 256)
    } else {
        out.push_str("\\U00")?;
        put_digits(out, code / 65_536)?;
        put_digits(out, code / 256 % 256)?;
        put_digits(out, code % 256)
    }
}

/// Whether a character is DEL or a control above it, which JSON may have as it is.
fn is_control_high(c: char) -> bool
    ensures { result ≡ is_control_high c }
{
    matches!(c, '\u{7F}'..='\u{9F}')
}

/// Writes the escape of a character in JSON (RFC 8259, 7): two escapes for one above U+FFFF.
#[tactic(auto, using(crate::proofs::HiddenLaws::two_escapes))]
fn put_json_escape(out: &mut String, code: u32) -> Result<(), AllocError>
    requires { code < 1114112 }
    ensures ok { OnOk result (string_bytes out.new ≡ string_bytes out.old ++ encode_utf8_all (json_escape code)) }
{
    if code < 65_536 {
        return put_escape(out, code);
    }
    put_escape(out, 55_296 + (code - 65_536) / 1_024)?;
    put_escape(out, 56_320 + code % 1_024)
}

/// Writes a character of JSON, or its escape if a terminal does not show it.
fn put_json_char(out: &mut String, c: char) -> Result<(), AllocError>
    ensures ok { OnOk result (string_bytes out.new ≡ string_bytes out.old ++ encode_utf8_all (json_char c)) }
{
    if is_control_high(c) || is_hidden(c) {
        put_json_escape(out, u32::from(c))
    } else {
        out.push(c)?;
        Ok(())
    }
}

/// Writes a character, or its escape if it is hidden.
fn put_visible_char(out: &mut String, c: char) -> Result<(), AllocError>
    ensures ok { OnOk result (string_bytes out.new ≡ string_bytes out.old ++ encode_utf8_all (visible_char c)) }
{
    if is_hidden(c) {
        put_escape(out, u32::from(c))
    } else {
        out.push(c)?;
        Ok(())
    }
}

/// Writes a character of ASCII, or the escape of another.
fn put_ascii_char(out: &mut String, c: char) -> Result<(), AllocError>
    ensures ok { OnOk result (string_bytes out.new ≡ string_bytes out.old ++ encode_utf8_all (ascii_char c)) }
{
    if u32::from(c) < 128 {
        out.push(c)?;
        Ok(())
    } else {
        put_escape(out, u32::from(c))
    }
}

/// What a text is, and so which of its characters have escapes.
#[derive(Clone, Copy)]
enum Kind {
    /// A text of a node, or another one that is read by people.
    Node,
    /// The same, where the text is to be told from another that looks like it.
    Ascii,
    Json,
}

/// Writes a character of a text, or its escape.
fn put_char(out: &mut String, c: char, kind: Kind) -> Result<(), AllocError>
    ensures ok { OnOk result (string_bytes out.new ≡ string_bytes out.old ++ encode_utf8_all (escaped_char kind c)) }
{
    match kind {
        Kind::Node => put_visible_char(out, c),
        Kind::Ascii => put_ascii_char(out, c),
        Kind::Json => put_json_char(out, c),
    }
}

/// Writes a text with escapes for some of its characters.
fn put_escaped(out: &mut String, text: &str, kind: Kind) -> Result<(), AllocError>
    ensures ok { OnOk result (string_bytes out.new ≡ string_bytes out.old ++ escaped kind text.now) }
{
    'chars: for c in text.chars() {
        put_char(out, c, kind)?;
    }
    Ok(())
}

/// Writes a text with the escape of each hidden character (YAML 1.2.2, 5.7). In the text of a node these stand between double quotes
/// alone, where the escape is read as the character.
pub fn put_visible(out: &mut String, text: &str) -> Result<(), AllocError>
    ensures ok { OnOk result (string_bytes out.new ≡ string_bytes out.old ++ visible text.now) }
{
    put_escaped(out, text, Kind::Node)
}

/// Writes a text of a node with the escape of each character outside ASCII (YAML 1.2.2, 5.7).
pub(crate) fn put_ascii(out: &mut String, text: &str) -> Result<(), AllocError>
    ensures ok { OnOk result (string_bytes out.new ≡ string_bytes out.old ++ ascii text.now) }
{
    put_escaped(out, text, Kind::Ascii)
}

/// Writes a text of JSON with the escape of each character that a terminal does not show. Such characters stand in strings alone, where
/// the escape is read as the character.
pub fn put_json(out: &mut String, text: &str) -> Result<(), AllocError>
    ensures ok { OnOk result (string_bytes out.new ≡ string_bytes out.old ++ json_visible text.now) }
{
    put_escaped(out, text, Kind::Json)
}
