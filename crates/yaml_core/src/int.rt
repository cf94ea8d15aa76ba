//! Ints of any length, judged by their digits.
ghost use Rattle.std.specs.Prelude.{◌≡◌, ◌<◌, ◌≤◌, ◌^◌, ◌∷◌, true, pos, drop, length, MatchOption, MatchResult};
ghost use Rattle.std.specs.Char.{is_digit, digit_value};
ghost use Rattle.std.specs.Cow.{cow_str_bytes};
ghost use Rattle.yaml_definitions.specs.model.Core.{are_digits, number_in, unsigned, int_value, natural_text, refused};
ghost use Rattle.yaml_core.specs.CoreAnswer.{IsContent, RefusesValue};
ghost use Rattle.yaml_core.specs.State.{all_digits};
ghost use Rattle.yaml_core.specs.Decimal.{minus_sign};
ghost use Rattle.yaml_core.specs.Digits.{most_of};
ghost use Rattle.yaml_core.specs.Values.{decimal_int};

use crate::fault::CoreFault;
use crate::text::{is_negative, push_natural, unsigned, without_zeros};
use std::alloc::Global;
use std::borrow::CowStr;

/// One more than the greatest int; its negative is the least.
const BOUND: u128 = 1 << 127;

/// The canonical content of a decimal int.
pub(crate) fn decimal<'a>(alloc: Global, text: &'a str) -> Result<CowStr<'a>, CoreFault>
    requires { are_digits 10 (unsigned text.now) ≡ true }
    ensures { MatchResult result (λ c. IsContent (int_value (decimal_int text.now)) (cow_str_bytes c)) (RefusesValue (refused (int_value (decimal_int text.now)))) }
{
    let negative = is_negative(text);
    let digits = without_zeros(unsigned(text));
    if number(digits.as_bytes(), 10, most(negative)).is_none() {
        return Err(CoreFault::IntRange);
    }
    if digits.is_empty() {
        Ok(CowStr::Borrowed("0"))
    } else if !negative {
        Ok(CowStr::Borrowed(digits))
    } else if digits.len() + 1 == text.len() {
        Ok(CowStr::Borrowed(text))
    } else {
        minus(alloc, digits)
    }
}

/// How far the number of an int with or without a minus sign goes.
fn most(negative: bool) -> u128
    ensures { result ≡ most_of negative }
{
    if negative { BOUND } else { BOUND - 1 }
}

/// These digits after a minus sign.
fn minus<'a>(alloc: Global, digits: &str) -> Result<CowStr<'a>, CoreFault>
    ensures { MatchResult result (λ c. cow_str_bytes c ≡ minus_sign ∷ digits.now) (λ fault. fault ≡ CoreFault.OutOfMemory) }
{
    let mut out = String::from_str(alloc, "-").map_err(|_| CoreFault::OutOfMemory)?;
    out.push_str(digits).map_err(|_| CoreFault::OutOfMemory)?;
    Ok(CowStr::Owned(out))
}

/// The canonical content of an int in base 8 or 16, whose digits stand after two characters.
pub(crate) fn prefixed<'a>(
    alloc: Global,
    text: &'a str,
    base: u128,
) -> Result<CowStr<'a>, CoreFault>
    requires least { 2 ≤ base }
    requires greatest { base ≤ 16 }
    requires digits { are_digits base (drop 2 text.now) ≡ true }
    ensures { MatchResult result (λ c. IsContent (int_value (pos (number_in base (drop 2 text.now)))) (cow_str_bytes c)) (RefusesValue (refused (int_value (pos (number_in base (drop 2 text.now)))))) }
{
    let bytes = text.as_bytes();
    match number(&bytes[2..], base, BOUND - 1) {
        Some(number) => natural(alloc, number),
        None => Err(CoreFault::IntRange),
    }
}

/// A number in decimal.
fn natural<'a>(alloc: Global, number: u128) -> Result<CowStr<'a>, CoreFault>
    ensures { MatchResult result (λ c. cow_str_bytes c ≡ natural_text number) (λ fault. fault ≡ CoreFault.OutOfMemory) }
{
    let mut out = String::new(alloc);
    push_natural(&mut out, number).map_err(|_| CoreFault::OutOfMemory)?;
    Ok(CowStr::Owned(out))
}

/// The number that digits write, unless it is past `most`: then no further digit is read.
pub(crate) fn number(digits: &[u8], base: u128, most: u128) -> Option<u128>
    requires least { 2 ≤ base }
    requires greatest { base ≤ 16 }
    requires bound { most ≤ 2 ^ 127 }
    requires digits { all_digits base digits.now ≡ true }
    ensures { MatchOption result (most < number_in base digits.now) (λ n. (n ≡ number_in base digits.now) × (n ≤ most)) }
{
    let last = most / base;
    let mut number = 0;
    for byte in digits {
        if number > last {
            return None;
        }
        number = number * base + digit_value(*byte);
        if number > most {
            return None;
        }
    }
    Some(number)
}

/// The value of a digit in a base of at most 16.
fn digit_value(byte: u8) -> u128
    requires { is_digit byte 16 ≡ true }
    ensures { result ≡ digit_value byte }
{
    let value = match byte {
        b'0'..=b'9' => byte - b'0',
        b'a'..=b'f' => byte - b'a' + 10,
        _ => byte - b'A' + 10,
    };
    u128::from(value)
}
