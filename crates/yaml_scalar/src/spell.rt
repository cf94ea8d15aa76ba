//! The spelling of a content between double quotes.
ghost use Rattle.std.specs.Prelude.{◌≡◌, ◌<◌, ◌≤◌, length, ◌++◌, false, take, drop, OnOk, OnErr, IfErr};
ghost use Rattle.std.specs.Char.{encode_utf8};
ghost use Rattle.std.specs.List.{All};
ghost use Rattle.std.specs.Str.{encode_utf8_all};
ghost use Rattle.std.specs.String.{string_bytes};
ghost use Rattle.yaml_definitions.specs.canonical.CharText.{spell_char};
ghost use Rattle.yaml_scalar.specs.Spelling.{Grows, quoted_bytes, spelled_chars, is_verbatim, code_text, byte_text};

use std::alloc::AllocError;
use yaml_text::digit::hex_digit;
use yaml_text::fault::Fault;

/// Appends a content's spelling: its characters between double quotes, each that does not stand for itself as an escape
/// (YAML 1.2.2, 5.7). After `OutOfMemory`, the only fault, nothing is appended.
pub fn spell_into(text: &str, out: &mut String) -> Result<(), Fault>
    ensures ok { OnOk result (string_bytes out.new ≡ string_bytes out.old ++ quoted_bytes text.now) }
    ensures kept { OnErr result (string_bytes out.new ≡ string_bytes out.old) }
    ensures only { IfErr result (λ fault. fault ≡ Fault.OutOfMemory) }
{
    let start = out.len();
    match push_quoted(text, out) {
        Ok(()) => Ok(()),
        Err(_) => {
            out.truncate(start);
            Err(Fault::OutOfMemory)
        }
    }
}

/// How many bytes a content's spelling has, quotes included.
pub fn spelled_len(text: &str) -> u128
    ensures { result ≡ length (quoted_bytes text.now) }
{
    let mut len: u128 = 2;
    'measure: for c in text.chars() {
        len += char_len(c) as u128;
    }
    len
}

/// A character's spelling between double quotes, and how many bytes it has; the rest of the array is
/// zero. A content's spelling is a quote, these texts in order, and a quote.
#[tactic(auto, unfolding(yaml_definitions::specs::canonical::CharText::spell_char))]
pub fn spelled_char(c: char) -> ([u8; 6], usize)
    ensures text { take result.1 result.0 ≡ encode_utf8_all (spell_char c) }
    ensures len { result.1 ≡ length (encode_utf8_all (spell_char c)) }
    ensures bound { result.1 ≤ 6 }
    ensures rest { All (λ b. b ≡ 0) (drop result.1 result.0) }
{
    if is_verbatim(c) {
        return itself(c);
    }
    match c {
        '"' => ([b'\\', b'"', 0, 0, 0, 0], 2),
        '\\' => ([b'\\', b'\\', 0, 0, 0, 0], 2),
        '\n' => ([b'\\', b'n', 0, 0, 0, 0], 2),
        '\t' => ([b'\\', b't', 0, 0, 0, 0], 2),
        _ => escape(u32::from(c)),
    }
}

/// A character's own bytes.
fn itself(c: char) -> ([u8; 6], usize)
    ensures text { take result.1 result.0 ≡ encode_utf8 c }
    ensures len { result.1 ≡ length (encode_utf8 c) }
    ensures bound { result.1 ≤ 6 }
    ensures rest { All (λ b. b ≡ 0) (drop result.1 result.0) }
{
    let mut spelling = [0u8; 6];
    let mut utf8 = [0u8; 4];
    let text = c.encode_utf8(&mut utf8);
    spelling[..text.len()].copy_from_slice(text.as_bytes());
    (spelling, text.len())
}

/// `\xHH` below 256, else `\uHHHH`.
fn escape(code: u32) -> ([u8; 6], usize)
    requires { code < 65536 }
    ensures text { take result.1 result.0 ≡ encode_utf8_all (code_text code) }
    ensures len { result.1 ≡ length (encode_utf8_all (code_text code)) }
    ensures bound { result.1 ≤ 6 }
    ensures rest { All (λ b. b ≡ 0) (drop result.1 result.0) }
{
    let low = hex_digit(code % 16);
    let next = hex_digit(code / 16 % 16);
    if code < 256 {
        ([b'\\', b'x', next, low, 0, 0], 4)
    } else {
        let third = hex_digit(code / 256 % 16);
        ([b'\\', b'u', hex_digit(code / 4096), third, next, low], 6)
    }
}

/// How many bytes a character takes between double quotes.
#[tactic(auto, unfolding(crate::specs::Spelling::is_verbatim, yaml_definitions::specs::canonical::CharText::spell_char))]
fn char_len(c: char) -> usize
    ensures len { result ≡ length (encode_utf8_all (spell_char c)) }
    ensures bound { result ≤ 6 }
{
    if is_verbatim(c) {
        return c.len_utf8();
    }
    match c {
        '"' | '\\' | '\n' | '\t' => 2,
        _ => { if u32::from(c) < 256 { 4 } else { 6 } }
    }
}

/// Appends the quotes and what stands between them; where memory is wanted, perhaps a beginning.
fn push_quoted(text: &str, out: &mut String) -> Result<(), AllocError>
    ensures ok { OnOk result (string_bytes out.new ≡ string_bytes out.old ++ quoted_bytes text.now) }
    ensures grows { Grows (string_bytes out.old) (string_bytes out.new) }
{
    out.push('"')?;
    push_chars(text, out)?;
    out.push('"')
}

/// Appends what stands between the quotes, by runs of characters that stand for themselves.
fn push_chars(text: &str, out: &mut String) -> Result<(), AllocError>
    ensures ok { OnOk result (string_bytes out.new ≡ string_bytes out.old ++ spelled_chars text.now) }
    ensures grows { Grows (string_bytes out.old) (string_bytes out.new) }
{
    let mut run = 0;
    'spell: for (at, c) in text.char_indices() {
        if !is_verbatim(c) {
            out.push_str(&text[run..at])?;
            push_escape(c, out)?;
            run = at + c.len_utf8();
        }
    }
    out.push_str(&text[run..])
}

/// Whether a character stands for itself between double quotes.
#[tactic(auto, unfolding(crate::specs::Spelling::is_verbatim))]
fn is_verbatim(c: char) -> bool
    ensures { result ≡ is_verbatim c }
{
    matches!(
        c,
        ' ' | '!' | '#'..='[' | ']'..='~' | '\u{A0}'..='\u{D7FF}' | '\u{E000}'..='\u{FEFE}' | '\u{FF00}'..='\u{FFFD}' | '\u{10000}'..='\u{10FFFF}'
    )
}

/// Appends the escape of a character that does not stand for itself.
fn push_escape(c: char, out: &mut String) -> Result<(), AllocError>
    requires { is_verbatim c ≡ false }
    ensures ok { OnOk result (string_bytes out.new ≡ string_bytes out.old ++ encode_utf8_all (spell_char c)) }
    ensures grows { Grows (string_bytes out.old) (string_bytes out.new) }
{
    match c {
        '"' => out.push_str("\\\""),
        '\\' => out.push_str("\\\\"),
        '\n' => out.push_str("\\n"),
        '\t' => out.push_str("\\t"),
        _ => push_code(u32::from(c), out),
    }
}

/// Appends `\xHH` below 256, else `\uHHHH`.
fn push_code(code: u32, out: &mut String) -> Result<(), AllocError>
    requires { code < 65536 }
    ensures ok { OnOk result (string_bytes out.new ≡ string_bytes out.old ++ encode_utf8_all (code_text code)) }
    ensures grows { Grows (string_bytes out.old) (string_bytes out.new) }
{
    if code < 256 {
        out.push_str("\\x")?;
        push_byte(code, out)
    } else {
        out.push_str("\\u")?;
        push_byte(code / 256, out)?;
        push_byte(code % 256, out)
    }
}

/// Appends the two digits of a byte.
fn push_byte(byte: u32, out: &mut String) -> Result<(), AllocError>
    requires { byte < 256 }
    ensures ok { OnOk result (string_bytes out.new ≡ string_bytes out.old ++ encode_utf8_all (byte_text byte)) }
    ensures grows { Grows (string_bytes out.old) (string_bytes out.new) }
{
    out.push(char::from(hex_digit(byte / 16)))?;
    out.push(char::from(hex_digit(byte % 16)))
}
