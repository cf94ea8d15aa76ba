//! Strings (RFC 8259, 7).
ghost use Rattle.std.specs.Prelude.{◌≡◌, ◌∷◌, true, false, ℕ, IfSome, IfNone};
ghost use Rattle.yaml_json.specs.Json.{is_hex_digit, is_unescaped, is_escaped, Chars, Str, letter-u, quotation-mark, reverse-solidus};
ghost use Rattle.yaml_json.specs.Reading.{begins, Only, No, Char};

use crate::bytes::{after_byte, first};

fn is_hex_digit(c: u8) -> bool
    ensures { result ≡ is_hex_digit c }
{
    matches!(c, b'0'..=b'9' | b'A'..=b'F' | b'a'..=b'f')
}

fn is_escaped(c: u8) -> bool
    ensures { result ≡ is_escaped c }
{
    matches!(c, b'"' | b'\\' | b'/' | b'b' | b'f' | b'n' | b'r' | b't')
}

fn is_unescaped(c: u8) -> bool
    ensures { result ≡ is_unescaped c }
{
    matches!(c, 32..=33 | 35..=91 | 93..=255)
}

fn after_hex_digit(bytes: &[u8]) -> Option<&[u8]>
    ensures some { IfSome result (λ rest. (c : ℕ) × (is_hex_digit c ≡ true) × (bytes.now ≡ c ∷ rest.now)) }
    ensures none { IfNone result (begins is_hex_digit bytes.now ≡ false) }
{
    let (c, rest) = first(bytes)?;
    if is_hex_digit(c) {
        return Some(rest);
    }
    None
}

/// The bytes after the four digits of an escape, whose `\u` is before them.
fn after_code_point(bytes: &[u8]) -> Option<&[u8]>
    ensures some { IfSome result (λ rest. Char (reverse-solidus ∷ letter-u ∷ bytes.now) rest.now) }
    ensures none { IfNone result (No (Char (reverse-solidus ∷ letter-u ∷ bytes.now))) }
{
    let one = after_hex_digit(bytes)?;
    let two = after_hex_digit(one)?;
    let three = after_hex_digit(two)?;
    let four = after_hex_digit(three)?;
    Some(four)
}

/// The bytes after an escape, whose `\` is before them.
fn after_escape(bytes: &[u8]) -> Option<&[u8]>
    ensures some { IfSome result (λ rest. Char (reverse-solidus ∷ bytes.now) rest.now) }
    ensures none { IfNone result (No (Char (reverse-solidus ∷ bytes.now))) }
{
    let (c, rest) = first(bytes)?;
    if is_escaped(c) {
        return Some(rest);
    }
    if c != b'u' {
        return None;
    }
    after_code_point(rest)
}

/// The bytes after one character of a string.
fn after_char(bytes: &[u8]) -> Option<&[u8]>
    ensures some { IfSome result (λ rest. Char bytes.now rest.now) }
    ensures none { IfNone result (No (Char bytes.now)) }
{
    let (c, rest) = first(bytes)?;
    if is_unescaped(c) {
        return Some(rest);
    }
    if c != b'\\' {
        return None;
    }
    after_escape(rest)
}

/// The bytes after the quotation mark that ends a string.
fn after_chars(bytes: &[u8]) -> Option<&[u8]>
    ensures some { IfSome result (λ rest. Chars bytes.now (quotation-mark ∷ rest.now)) }
    ensures only { IfSome result (λ rest. Only (λ r. Chars bytes.now (quotation-mark ∷ r)) rest.now) }
    ensures none { IfNone result (No (λ r. Chars bytes.now (quotation-mark ∷ r))) }
{
    let mut rest = bytes;
    'chars: loop {
        if let Some(after) = after_byte(rest, b'"') {
            return Some(after);
        }
        rest = after_char(rest)?;
    }
}

/// The bytes after a string.
pub(crate) fn after_string(bytes: &[u8]) -> Option<&[u8]>
    ensures some { IfSome result (λ rest. Str bytes.now rest.now) }
    ensures only { IfSome result (λ rest. Only (Str bytes.now) rest.now) }
    ensures none { IfNone result (No (Str bytes.now)) }
{
    let chars = after_byte(bytes, b'"')?;
    let rest = after_chars(chars)?;
    Some(rest)
}
