//! Floats as people write them.
ghost use Rattle.std.specs.Prelude.{◌≡◌, ◌++◌, true, OnOk, IfErr};
ghost use Rattle.std.specs.List.{list_all};
ghost use Rattle.yaml_show_scalar.specs.Numbers.{is_in_words, zeros_before, digits_before, is_digit, pointed, with_exponent, great_or, small_text, digits_text, float_text};
ghost use Rattle.yaml_show_scalar.specs.Stops.{limit_of, Stops};
ghost use Rattle.yaml_show_scalar.specs.Texts.{written};

use crate::output::Out;
use crate::stop::Stop;
use crate::texts::{behind, cut, ends_in};

/// Whether the canonical content of a float is `.inf`, `-.inf` or `.nan`.
#[tactic(auto, unfolding(crate::specs::Numbers::is_in_words))]
pub fn is_in_words(content: &str) -> bool
    ensures { result ≡ is_in_words content.now }
{
    ends_in(content, 'f') || ends_in(content, 'n')
}

/// How many zeros stand between the point and the digits of a float below 1, by its exponent, if that is from -1 to -4.
#[tactic(auto, unfolding(crate::specs::Numbers::zeros_before))]
fn zeros_before(exponent: &str) -> Option<usize>
    ensures { result ≡ zeros_before exponent.now }
{
    match exponent {
        "-1" => Some(0),
        "-2" => Some(1),
        "-3" => Some(2),
        "-4" => Some(3),
        _ => None,
    }
}

/// How many digits behind the first one stand before the point, by an exponent from 0 to 15.
#[tactic(auto, unfolding(crate::specs::Numbers::digits_before))]
fn digits_before(exponent: &str) -> Option<usize>
    ensures { result ≡ digits_before exponent.now }
{
    match exponent {
        "" => Some(0),
        "+1" => Some(1),
        "+2" => Some(2),
        "+3" => Some(3),
        "+4" => Some(4),
        "+5" => Some(5),
        "+6" => Some(6),
        "+7" => Some(7),
        "+8" => Some(8),
        "+9" => Some(9),
        "+10" => Some(10),
        "+11" => Some(11),
        "+12" => Some(12),
        "+13" => Some(13),
        "+14" => Some(14),
        "+15" => Some(15),
        _ => None,
    }
}

/// Whether a byte is a digit of base 10.
pub(crate) fn is_digit(byte: u8) -> bool
    ensures { result ≡ is_digit byte }
{
    b'0' <= byte && byte <= b'9'
}

/// Whether a text has nothing but digits.
fn are_digits(text: &str) -> bool
    ensures { result ≡ list_all is_digit text.now }
{
    text.as_bytes().iter().all(|byte| is_digit(*byte))
}

/// Writes digits with a point behind so many of them, and zeros for those that are wanting.
#[tactic(auto, unfolding(crate::specs::Numbers::pointed))]
fn put_pointed(out: &mut Out, rest: &str, before: usize) -> Result<(), Stop>
    requires { list_all is_digit rest.now ≡ true }
    ensures ok { OnOk result (written out.new ≡ written out.old ++ pointed rest.now before) }
    ensures limit { limit_of out.new ≡ limit_of out.old }
    ensures err { IfErr result (Stops (limit_of out.old) (written out.old ++ pointed rest.now before)) }
{
    if rest.len() <= before {
        out.put(rest)?;
        out.put_times(before - rest.len(), "0")?;
        return out.put(".0");
    }
    out.put(&rest[..before])?;
    out.put(".")?;
    out.put(&rest[before..])
}

/// Writes a float with its exponent.
fn put_with_exponent(out: &mut Out, first: &str, rest: &str, exponent: &str) -> Result<(), Stop>
    ensures ok { OnOk result (written out.new ≡ written out.old ++ with_exponent first.now rest.now exponent.now) }
    ensures limit { limit_of out.new ≡ limit_of out.old }
    ensures err { IfErr result (Stops (limit_of out.old) (written out.old ++ with_exponent first.now rest.now exponent.now)) }
{
    out.put(first)?;
    out.put(".")?;
    out.put(if rest.is_empty() { "0" } else { rest })?;
    out.put("e")?;
    out.put(exponent)
}

/// Writes a float of at least 1, or one below 0.0001, by its first digit, its further digits and its exponent.
fn put_great(out: &mut Out, first: &str, rest: &str, exponent: &str) -> Result<(), Stop>
    ensures ok { OnOk result (written out.new ≡ written out.old ++ great_or (digits_before exponent.now) first.now rest.now exponent.now) }
    ensures limit { limit_of out.new ≡ limit_of out.old }
    ensures err { IfErr result (Stops (limit_of out.old) (written out.old ++ great_or (digits_before exponent.now) first.now rest.now exponent.now)) }
{
    match digits_before(exponent) {
        Some(before) if are_digits(rest) => {
            out.put(first)?;
            put_pointed(out, rest, before)
        }
        _ => put_with_exponent(out, first, rest, exponent),
    }
}

/// Writes a float below 1 with so many zeros behind the point.
fn put_small(out: &mut Out, zeros: usize, first: &str, rest: &str) -> Result<(), Stop>
    ensures ok { OnOk result (written out.new ≡ written out.old ++ small_text zeros first.now rest.now) }
    ensures limit { limit_of out.new ≡ limit_of out.old }
    ensures err { IfErr result (Stops (limit_of out.old) (written out.old ++ small_text zeros first.now rest.now)) }
{
    out.put("0.")?;
    out.put_times(zeros, "0")?;
    out.put(first)?;
    out.put(rest)
}

/// Writes a float without its sign.
#[tactic(auto, unfolding(crate::specs::Numbers::digits_text))]
fn put_digits(out: &mut Out, digits: &str) -> Result<(), Stop>
    ensures ok { OnOk result (written out.new ≡ written out.old ++ digits_text digits.now) }
    ensures limit { limit_of out.new ≡ limit_of out.old }
    ensures err { IfErr result (Stops (limit_of out.old) (written out.old ++ digits_text digits.now)) }
{
    let (front, exponent) = cut(digits, 'e');
    let (first, rest) = cut(front, '.');
    match zeros_before(exponent) {
        Some(zeros) => put_small(out, zeros, first, rest),
        None => put_great(out, first, rest, exponent),
    }
}

/// Writes a float from its canonical content: with a point, and without an exponent if that is from -4 to 15.
#[tactic(auto, unfolding(crate::specs::Numbers::float_text))]
pub fn put_float(out: &mut Out, content: &str) -> Result<(), Stop>
    ensures ok { OnOk result (written out.new ≡ written out.old ++ float_text content.now) }
    ensures limit { limit_of out.new ≡ limit_of out.old }
    ensures err { IfErr result (Stops (limit_of out.old) (written out.old ++ float_text content.now)) }
{
    if is_in_words(content) {
        return out.put(content);
    }
    match behind(content, "-") {
        Some(digits) => {
            out.put("-")?;
            put_digits(out, digits)
        }
        None => put_digits(out, content),
    }
}
