//! Floats: exact decimals, judged by their digits (YAML 1.2.2, 10.3.2).
ghost use Rattle.std.specs.Prelude.{◌≡◌, ℕ, ◌+◌, ◌<◌, ◌≤◌, ◌^◌, ◌++◌, Bool, true, is_some, Some, ℤ, pos, ◌+ℤ◌, ◌-ℤ◌, nat_abs, length, IfOk, MatchOption, MatchResult};
ghost use Rattle.std.specs.Cow.{cow_str_bytes};
ghost use Rattle.std.specs.Option.{option_map};
ghost use Rattle.std.specs.Str.{IsAscii};
ghost use Rattle.std.specs.String.{string_bytes};
ghost use Rattle.yaml_definitions.specs.model.Core.{infinity, is_negative, decimal_of, content_of, signed, exponent_of, exponent_text};
ghost use Rattle.yaml_definitions.specs.model.Limits.{exponent_limit};
ghost use Rattle.yaml_core.specs.CoreAnswer.{RefusesDecimal, IsDecimalContent};
ghost use Rattle.yaml_core.specs.Decimal.{AreParts, With, scale_of, significant, float_text, mantissa_text, pointed_text};
ghost use Rattle.yaml_core.specs.Digits.{without_zeros, without_last_zeros};

use crate::fault::CoreFault;
use crate::int::number;
use crate::text::{
    Delimiter, cut, is_negative, push_natural, unsigned, without_last_zeros, without_zeros,
};
use std::alloc::{AllocError, Global};
use std::borrow::CowStr;

/// The greatest exponent of canonical content, and the least is its negative.
const EXPONENT_LIMIT: u128 = 1_000_000;

/// An exponent past this is out of range, however many digits stand beside it.
const FAR: u128 = 1 << 100;

/// A float's text in its parts, the sign in front left out.
#[derive(Clone, Copy)]
struct Parts<'a> {
    /// The digits before the point.
    whole: &'a str,
    /// The digits after it.
    part: &'a str,
    /// What stands after the `e`.
    exponent: Option<&'a str>,
}

/// The digits of a float without the zeros at both ends.
#[derive(Clone, Copy)]
struct Significand<'a> {
    /// Those before the point.
    whole: &'a str,
    /// Those after it.
    part: &'a str,
    /// How many there are together with the zeros at the end.
    len: u128,
    ghost ascii: { IsAscii whole.now × IsAscii part.now },
    ghost short: { len < 2 ^ 65 },
}

/// The exponent once one digit stands before the point.
#[derive(Clone, Copy)]
struct Exponent {
    negative: bool,
    size: u128,
}

/// The canonical content of a finite float.
pub(crate) fn decimal<'a>(alloc: Global, text: &'a str) -> Result<CowStr<'a>, CoreFault>
    requires { is_some (decimal_of text.now) ≡ true }
    ensures { MatchResult result (λ c. IsDecimalContent (decimal_of text.now) (cow_str_bytes c)) (RefusesDecimal (decimal_of text.now)) }
{
    let parts = take_apart(text);
    let digits = without_outer_zeros(parts.whole, parts.part);
    if digits.len == 0 {
        return Ok(CowStr::Borrowed("0"));
    }
    match scale(parts.exponent, digits.len, parts.part.len()) {
        Some(exponent) => written(alloc, is_negative(text), &digits, exponent),
        None => Err(CoreFault::FloatRange),
    }
}

/// The parts of a float's text.
fn take_apart<'a>(text: &'a str) -> Parts<'a>
    ensures { AreParts text.now result.whole.now result.part.now (option_map (λ s. s.now) result.exponent) }
{
    let (number, exponent) = cut(unsigned(text), Delimiter::Exponent);
    let (whole, part) = cut(number, Delimiter::Point);
    Parts {
        whole,
        part: part.unwrap_or(""),
        exponent,
    }
}

/// The digits that count.
fn without_outer_zeros<'a>(whole: &'a str, part: &'a str) -> Significand<'a>
    requires whole { IsAscii whole.now }
    requires part { IsAscii part.now }
    ensures digits { result.whole.now ++ result.part.now ≡ significant (whole.now ++ part.now) }
    ensures len { result.len ≡ length (without_zeros (whole.now ++ part.now)) }
{
    let whole = without_zeros(whole);
    if whole.is_empty() {
        without_end("", without_zeros(part))
    } else {
        without_end(whole, part)
    }
}

/// Digits without the zeros at their end.
fn without_end<'a>(whole: &'a str, part: &'a str) -> Significand<'a>
    requires whole { IsAscii whole.now }
    requires part { IsAscii part.now }
    ensures digits { result.whole.now ++ result.part.now ≡ without_last_zeros (whole.now ++ part.now) }
    ensures len { result.len ≡ length (whole.now ++ part.now) }
{
    let len = whole.len() as u128 + part.len() as u128;
    let last = without_last_zeros(part);
    if last.is_empty() {
        let whole = without_last_zeros(whole);
        return Significand {
            whole,
            part: last,
            len,
        };
    }
    Significand {
        whole,
        part: last,
        len,
    }
}

/// The exponent once one digit stands before the point, for so many digits, the zeros in front not
/// counted, where `part_len` digits stand after the point. None where it is out of range.
fn scale(exponent: Option<&str>, len: u128, part_len: usize) -> Option<Exponent>
    requires some { is_some (exponent_of (option_map (λ s. s.now) exponent)) ≡ true }
    requires len { len < 2 ^ 65 }
    ensures { MatchOption result (With (exponent_of (option_map (λ s. s.now) exponent.entry)) (λ e. exponent_limit < nat_abs (scale_of e part_len len)))
        (λ x. With (exponent_of (option_map (λ s. s.now) exponent.entry)) (λ e. (scale_of e part_len len ≡ signed x.negative x.size) × (x.size ≤ exponent_limit))) }
{
    match written_exponent(exponent) {
        None => None,
        Some(written) => {
            let exponent = shifted(written, len, part_len as u128 + 1);
            if exponent.size <= EXPONENT_LIMIT {
                Some(exponent)
            } else {
                None
            }
        }
    }
}

/// The exponent that is written; none is 0. None where it is too far from 0 to count.
fn written_exponent(exponent: Option<&str>) -> Option<Exponent>
    requires { is_some (exponent_of (option_map (λ s. s.now) exponent)) ≡ true }
    ensures { MatchOption result (With (exponent_of (option_map (λ s. s.now) exponent.entry)) (λ e. 2 ^ 100 < nat_abs e))
        (λ x. (exponent_of (option_map (λ s. s.now) exponent.entry) ≡ Some (signed x.negative x.size)) × (x.size ≤ 2 ^ 100)) }
{
    match exponent {
        None => Some(Exponent {
            negative: false,
            size: 0,
        }),
        Some(text) => match number(unsigned(text).as_bytes(), 10, FAR) {
            Some(size) => Some(Exponent {
                negative: is_negative(text),
                size,
            }),
            None => None,
        },
    }
}

/// An exponent with `up` added and `down` taken away.
fn shifted(exponent: Exponent, up: u128, down: u128) -> Exponent
    requires size { exponent.size ≤ 2 ^ 100 }
    requires up { up < 2 ^ 65 }
    requires down { down < 2 ^ 65 }
    ensures { signed result.negative result.size ≡ (signed exponent.negative exponent.size +ℤ pos up) -ℤ pos down }
{
    if exponent.negative {
        difference(up, down + exponent.size)
    } else {
        difference(up + exponent.size, down)
    }
}

fn difference(up: u128, down: u128) -> Exponent
    ensures { signed result.negative result.size ≡ pos up -ℤ pos down }
{
    if up < down {
        Exponent {
            negative: true,
            size: down - up,
        }
    } else {
        Exponent {
            negative: false,
            size: up - down,
        }
    }
}

/// The canonical text of a float that is not 0.
fn written<'a>(
    alloc: Global,
    negative: bool,
    digits: &Significand<'_>,
    exponent: Exponent,
) -> Result<CowStr<'a>, CoreFault>
    ensures { MatchResult result (λ c. cow_str_bytes c ≡ float_text negative (digits.now.whole.now ++ digits.now.part.now) (signed exponent.negative exponent.size)) (λ fault. fault ≡ CoreFault.OutOfMemory) }
{
    let mut out = String::new(alloc);
    match push_float(&mut out, negative, digits, exponent) {
        Ok(()) => Ok(CowStr::Owned(out)),
        Err(_) => Err(CoreFault::OutOfMemory),
    }
}

/// Appends the canonical text of a float that is not 0.
fn push_float(
    out: &mut String,
    negative: bool,
    digits: &Significand<'_>,
    exponent: Exponent,
) -> Result<(), AllocError>
    ensures { IfOk result (λ _. string_bytes out.new ≡ string_bytes out.old ++ float_text negative (digits.now.whole.now ++ digits.now.part.now) (signed exponent.negative exponent.size)) }
{
    out.push_str(if negative { "-" } else { "" })?;
    push_mantissa(out, digits.whole, digits.part)?;
    push_exponent(out, exponent)
}

/// Appends digits, with a point after the first where there are more.
fn push_mantissa(out: &mut String, whole: &str, part: &str) -> Result<(), AllocError>
    requires whole { IsAscii whole.now }
    requires part { IsAscii part.now }
    ensures { IfOk result (λ _. string_bytes out.new ≡ string_bytes out.old ++ mantissa_text (whole.now ++ part.now)) }
{
    if whole.is_empty() {
        push_pointed(out, part, "")
    } else {
        push_pointed(out, whole, part)
    }
}

/// Appends digits that begin with those of `first`, if any, with a point after the first where there
/// are more.
fn push_pointed(out: &mut String, first: &str, more: &str) -> Result<(), AllocError>
    requires { IsAscii first.now }
    ensures { IfOk result (λ _. string_bytes out.new ≡ string_bytes out.old ++ pointed_text first.now more.now) }
{
    if first.is_empty() {
        return Ok(());
    }
    out.push_str(&first[..1])?;
    if first.len() > 1 || !more.is_empty() {
        out.push('.')?;
    }
    out.push_str(&first[1..])?;
    out.push_str(more)
}

/// Appends an exponent that is not 0.
fn push_exponent(out: &mut String, exponent: Exponent) -> Result<(), AllocError>
    ensures { IfOk result (λ _. string_bytes out.new ≡ string_bytes out.old ++ exponent_text (signed exponent.negative exponent.size)) }
{
    if exponent.size == 0 {
        return Ok(());
    }
    out.push_str(if exponent.negative { "e-" } else { "e+" })?;
    push_natural(out, exponent.size)
}

/// The canonical content of an infinity.
#[tactic(auto, unfolding(yaml_definitions::specs::model::Core::content_of))]
pub(crate) fn infinity(text: &str) -> &'static str
    ensures { result.now ≡ content_of (infinity (is_negative text.now)) }
{
    if is_negative(text) { "-.inf" } else { ".inf" }
}
