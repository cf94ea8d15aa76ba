//! Numbers (RFC 8259, 6).
ghost use Rattle.std.specs.Prelude.{◌≡◌, ◌∷◌, ℕ, true, false, IfSome, IfNone};
ghost use Rattle.yaml_json.specs.Json.{is_digit, is_nonzero_digit, is_e, is_sign, Digits, SomeDigits, Minus, Int, Frac, Exp, Number};
ghost use Rattle.yaml_json.specs.Reading.{begins, Only, No, DigitsTo, MinusTo, IntTo, FracTo, ExpTo, NumberTo};

use crate::bytes::{after_byte, first};

fn is_digit(c: u8) -> bool
    ensures { result ≡ is_digit c }
{
    matches!(c, b'0'..=b'9')
}

fn is_nonzero_digit(c: u8) -> bool
    ensures { result ≡ is_nonzero_digit c }
{
    matches!(c, b'1'..=b'9')
}

fn is_e(c: u8) -> bool
    ensures { result ≡ is_e c }
{
    c == b'e' || c == b'E'
}

fn is_sign(c: u8) -> bool
    ensures { result ≡ is_sign c }
{
    c == b'-' || c == b'+'
}

/// The bytes after one digit.
fn after_digit(bytes: &[u8]) -> Option<&[u8]>
    ensures some { IfSome result (λ rest. (c : ℕ) × (is_digit c ≡ true) × (bytes.now ≡ c ∷ rest.now)) }
    ensures none { IfNone result (begins is_digit bytes.now ≡ false) }
{
    let (c, rest) = first(bytes)?;
    if is_digit(c) {
        return Some(rest);
    }
    None
}

/// The bytes after the digits with which they begin.
fn after_digits(bytes: &[u8]) -> &[u8]
    ensures digits { Digits bytes.now result.now }
    ensures all { begins is_digit result.now ≡ false }
{
    let mut rest = bytes;
    'digits: while let Some(after) = after_digit(rest) {
        rest = after;
    }
    rest
}

/// The same, where there is at least one digit.
fn after_some_digits(bytes: &[u8]) -> Option<&[u8]>
    ensures some { IfSome result (λ rest. SomeDigits bytes.now rest.now) }
    ensures only { IfSome result (λ rest. Only (DigitsTo bytes.now) rest.now) }
    ensures none { IfNone result (No (DigitsTo bytes.now)) }
{
    let more = after_digit(bytes)?;
    Some(after_digits(more))
}

/// The bytes after the minus, if there is one.
fn after_minus(bytes: &[u8]) -> &[u8]
    ensures minus { Minus bytes.now result.now }
    ensures only { Only (MinusTo bytes.now) result.now }
{
    match after_byte(bytes, b'-') {
        Some(rest) => rest,
        None => bytes,
    }
}

/// The bytes after the integer part.
fn after_int(bytes: &[u8]) -> Option<&[u8]>
    ensures some { IfSome result (λ rest. Int bytes.now rest.now) }
    ensures only { IfSome result (λ rest. Only (IntTo bytes.now) rest.now) }
    ensures none { IfNone result (No (IntTo bytes.now)) }
{
    let (c, rest) = first(bytes)?;
    if c == b'0' {
        return Some(rest);
    }
    if is_nonzero_digit(c) {
        return Some(after_digits(rest));
    }
    None
}

/// The bytes after the fraction, if there is one.
fn after_frac(bytes: &[u8]) -> Option<&[u8]>
    ensures some { IfSome result (λ rest. Frac bytes.now rest.now) }
    ensures only { IfSome result (λ rest. Only (FracTo bytes.now) rest.now) }
    ensures none { IfNone result (No (FracTo bytes.now)) }
{
    let Some(digits) = after_byte(bytes, b'.') else {
        return Some(bytes);
    };
    let rest = after_some_digits(digits)?;
    Some(rest)
}

/// The bytes after the exponent, whose `e` is before them.
fn after_power(bytes: &[u8], e: u8) -> Option<&[u8]>
    requires { is_e e ≡ true }
    ensures some { IfSome result (λ rest. Exp (e ∷ bytes.now) rest.now) }
    ensures only { IfSome result (λ rest. Only (ExpTo (e ∷ bytes.now)) rest.now) }
    ensures none { IfNone result (No (ExpTo (e ∷ bytes.now))) }
{
    let (c, digits) = first(bytes)?;
    if is_sign(c) {
        let rest = after_some_digits(digits)?;
        return Some(rest);
    }
    let rest = after_some_digits(bytes)?;
    Some(rest)
}

/// The bytes after the exponent, if there is one.
fn after_exp(bytes: &[u8]) -> Option<&[u8]>
    ensures some { IfSome result (λ rest. Exp bytes.now rest.now) }
    ensures only { IfSome result (λ rest. Only (ExpTo bytes.now) rest.now) }
    ensures none { IfNone result (No (ExpTo bytes.now)) }
{
    let Some((e, power)) = first(bytes) else {
        return Some(bytes);
    };
    if is_e(e) {
        let rest = after_power(power, e)?;
        return Some(rest);
    }
    Some(bytes)
}

/// The bytes after a number.
pub(crate) fn after_number(bytes: &[u8]) -> Option<&[u8]>
    ensures some { IfSome result (λ rest. Number bytes.now rest.now) }
    ensures only { IfSome result (λ rest. Only (NumberTo bytes.now) rest.now) }
    ensures none { IfNone result (No (NumberTo bytes.now)) }
{
    let int = after_minus(bytes);
    let frac = after_int(int)?;
    let exp = after_frac(frac)?;
    let rest = after_exp(exp)?;
    Some(rest)
}
