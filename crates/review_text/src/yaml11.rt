//! What a plain text is in YAML 1.1, and where the core schema of YAML 1.2 (1.2.2, 10.3.2) reads it otherwise.

ghost use Rattle.std.specs.Prelude.{◌≡◌, ◌++◌, option_map, codes, string_bytes, IfOk};
ghost use Rattle.review_text.specs.Yaml11.{after_one, all_of, some_of, behind_all, unsigned, octal, prefixed, is_bool_word, is_null_word, is_float_word, old_exponent, old_fraction, old_decimal, pointed, is_old_float, spaced, is_old_int, long_fraction, trailing_zero, old_kind, new_kind, are_same, older_of, SaysShorter, IsTimedWarning, IsOlder};

use crate::timed::read_timed;
use std::alloc::{AllocError, Global};
use yaml_core::kind::{PlainKind, plain_kind};

/// The kinds of plain scalars of YAML 1.1; the first five are those of the core schema.
#[derive(Clone, Copy)]
pub enum Kind {
    Null,
    Bool,
    Int,
    Float,
    Str,
    /// `<<`, by which a mapping takes the entries of others.
    Merge,
    Timestamp,
    /// `=`, the key of a mapping's default value.
    Default,
}

impl Kind {
    ghost use Rattle.std.specs.Prelude.{◌≡◌};
    ghost use Rattle.review_text.specs.Yaml11.{kind_words};

    /// The name of the kind, with its article.
    pub fn words(self) -> &'static str
        ensures { result.now ≡ kind_words self }
    {
        match self {
            Kind::Null => "a null",
            Kind::Bool => "a bool",
            Kind::Int => "an int",
            Kind::Float => "a float",
            Kind::Str => "a string",
            Kind::Merge => "a merge",
            Kind::Timestamp => "a timestamp",
            Kind::Default => "a default value",
        }
    }
}

/// Why a plain text is warned of.
#[derive(Clone, Copy)]
pub enum Older {
    /// It is of this kind by the core schema, and of another in YAML 1.1.
    Kinds(Kind, Kind),
    /// It is an int of base 10, and in YAML 1.1 one of base 8 that is another number.
    Octal,
    /// It is a float in both, and its value does not keep the zero at its end, as of a version number.
    Shorter,
}

/// That an int is one of base 10, and of base 8 in YAML 1.1.
fn bases(alloc: Global) -> Result<String, AllocError>
    ensures ok { IfOk result (λ s. string_bytes s ≡ codes "an int of base 10 here, of base 8 in YAML 1.1") }
{
    Ok("an int of base 10 here, of base 8 in YAML 1.1".to_string(alloc)?)
}

/// Which number a text is by base 10, and which by base 8.
fn numbers(alloc: Global, text: &str) -> Result<String, AllocError> {
    match i128::from_str_radix(text, 10) {
        Ok(here) => match i128::from_str_radix(text, 8) {
            Ok(there) => {
                Ok(format!(in alloc; "the int {here} here, the int {there} in YAML 1.1")?)
            }
            Err(_) => bases(alloc),
        },
        Err(_) => bases(alloc),
    }
}

/// What is left of a float whose zeros at the end are lost.
fn shorter(alloc: Global, text: &str) -> Result<String, AllocError>
    ensures ok { IfOk result (λ s. SaysShorter text.now (string_bytes s)) }
{
    let short = text.trim_end_matches('0').trim_end_matches('.');
    Ok(format!(in alloc; "a float, {short}")?)
}

/// Which two kinds a text is of.
fn both_kinds(alloc: Global, here: &str, there: &str) -> Result<String, AllocError>
    ensures ok { IfOk result (λ s. string_bytes s ≡ here.now ++ (codes " here, " ++ (there.now ++ codes " in YAML 1.1"))) }
{
    Ok(format!(in alloc; "{here} here, {there} in YAML 1.1")?)
}

impl Older {
    ghost use Rattle.std.specs.Prelude.{◌≡◌, string_bytes, IfOk};
    ghost use Rattle.review_text.specs.Yaml11.{SaysOlder};

    /// What the warning says of a text.
    ///
    /// # Errors
    /// `OutOfMemory`
    pub fn words(self, alloc: Global, text: &str) -> Result<String, AllocError>
        ensures ok { IfOk result (λ s. SaysOlder self text.now (string_bytes s)) }
    {
        match self {
            Older::Kinds(here, there) => both_kinds(alloc, here.words(), there.words()),
            Older::Octal => numbers(alloc, text),
            Older::Shorter => shorter(alloc, text),
        }
    }
}

/// The bytes after the first one, if that is of a set.
pub(crate) fn behind_one<'a>(text: &'a [u8], set: &[u8]) -> Option<&'a [u8]>
    ensures { option_map (λ rest. rest.now) result ≡ after_one set.now text.now }
{
    match text.split_first() {
        Some((first, rest)) if set.contains(first) => Some(rest),
        _ => None,
    }
}

/// Whether all bytes are of a set.
fn all_of(text: &[u8], set: &[u8]) -> bool
    ensures { result ≡ all_of set.now text.now }
{
    text.iter().all(|byte| set.contains(byte))
}

/// The same of a text that is not empty.
fn some_of(text: &[u8], set: &[u8]) -> bool
    ensures { result ≡ some_of set.now text.now }
{
    !text.is_empty() && all_of(text, set)
}

/// A text without the sign with which it may begin.
fn unsigned(text: &[u8]) -> &[u8]
    ensures { result.now ≡ unsigned text.now }
{
    match behind_one(text, b"+-") {
        Some(rest) => rest,
        None => text,
    }
}

/// A text without the bytes of a set with which it may begin.
fn behind_all<'a>(text: &'a [u8], set: &[u8]) -> &'a [u8]
    ensures { result.now ≡ behind_all set.now text.now }
{
    let mut rest = text;
    'bytes: while let Some(more) = behind_one(rest, set) {
        rest = more;
    }
    rest
}

/// Whether digits after a zero are another number in base 8 than in base 10: two follow all its zeros.
fn is_octal(text: &[u8]) -> bool
    ensures { result ≡ octal text.now }
{
    match behind_one(text, b"0") {
        Some(rest) => all_of(rest, b"01234567") && behind_all(rest, b"0").len() > 1,
        None => false,
    }
}

/// A zero, a letter and some bytes of a set.
fn is_prefixed(text: &[u8], letter: &[u8], set: &[u8]) -> bool
    ensures { result ≡ prefixed letter.now set.now text.now }
{
    match behind_one(text, b"0") {
        Some(rest) => match behind_one(rest, letter) {
            Some(rest) => some_of(rest, set),
            None => false,
        },
        None => false,
    }
}

/// An int of base 10 or 8 by the bytes that it may have, `_` among them.
fn is_spaced(text: &[u8]) -> bool
    ensures { result ≡ spaced text.now }
{
    match behind_one(text, b"0") {
        Some(rest) => all_of(rest, b"01234567_"),
        None => match behind_one(text, b"123456789") {
            Some(rest) => all_of(rest, b"0123456789_"),
            None => false,
        },
    }
}

/// An int of YAML 1.1, those of base 60 left out.
fn is_old_int(text: &[u8]) -> bool
    ensures { result ≡ is_old_int text.now }
{
    let number = unsigned(text);
    is_spaced(number)
        || is_prefixed(number, b"b", b"01_")
        || is_prefixed(number, b"x", b"0123456789abcdefABCDEF_")
}

/// Nothing, or an exponent with its sign.
fn is_old_exponent(text: &[u8]) -> bool
    ensures { result ≡ old_exponent text.now }
{
    if text.is_empty() {
        return true;
    }
    match behind_one(text, b"eE") {
        Some(rest) => match behind_one(rest, b"+-") {
            Some(rest) => some_of(rest, b"0123456789"),
            None => false,
        },
        None => false,
    }
}

/// What may follow the point of a float.
fn is_old_fraction(text: &[u8]) -> bool
    ensures { result ≡ old_fraction text.now }
{
    is_old_exponent(behind_all(text, b"0123456789_"))
}

/// Digits, a point and what may follow it.
fn is_old_decimal(text: &[u8]) -> bool
    ensures { result ≡ old_decimal text.now }
{
    match behind_one(text, b"0123456789") {
        Some(rest) => match behind_one(behind_all(rest, b"0123456789_"), b".") {
            Some(rest) => is_old_fraction(rest),
            None => false,
        },
        None => false,
    }
}

/// A point and a digit.
fn is_pointed(text: &[u8]) -> bool
    ensures { result ≡ pointed text.now }
{
    match behind_one(text, b".") {
        Some(rest) => match behind_one(rest, b"0123456789") {
            Some(rest) => is_old_fraction(rest),
            None => false,
        },
        None => false,
    }
}

fn is_float_word(text: &str) -> bool
    ensures { result ≡ is_float_word text.now }
{
    matches!(
        text,
        ".inf"
            | ".Inf"
            | ".INF"
            | "+.inf"
            | "+.Inf"
            | "+.INF"
            | "-.inf"
            | "-.Inf"
            | "-.INF"
            | ".nan"
            | ".NaN"
            | ".NAN"
    )
}

/// A float of YAML 1.1, those of base 60 left out.
fn is_old_float(text: &str) -> bool
    ensures { result ≡ is_old_float text.now }
{
    let bytes = text.as_bytes();
    is_old_decimal(unsigned(bytes)) || is_pointed(bytes) || is_float_word(text)
}

fn is_bool_word(text: &str) -> bool
    ensures { result ≡ is_bool_word text.now }
{
    matches!(
        text,
        "y" | "Y"
            | "yes"
            | "Yes"
            | "YES"
            | "n"
            | "N"
            | "no"
            | "No"
            | "NO"
            | "true"
            | "True"
            | "TRUE"
            | "false"
            | "False"
            | "FALSE"
            | "on"
            | "On"
            | "ON"
            | "off"
            | "Off"
            | "OFF"
    )
}

fn is_null_word(text: &str) -> bool
    ensures { result ≡ is_null_word text.now }
{
    matches!(text, "" | "~" | "null" | "Null" | "NULL")
}

/// What an untagged plain scalar is in YAML 1.1, numbers of base 60 and timestamps left out.
fn old_kind(text: &str, is_key: bool) -> Kind
    ensures { result ≡ old_kind text.now is_key }
{
    if is_bool_word(text) {
        Kind::Bool
    } else if is_old_float(text) {
        Kind::Float
    } else if is_old_int(text.as_bytes()) {
        Kind::Int
    } else if is_key && text == "<<" {
        Kind::Merge
    } else if is_null_word(text) {
        Kind::Null
    } else if text == "=" {
        Kind::Default
    } else {
        Kind::Str
    }
}

/// What it is by the core schema.
fn new_kind(text: &str) -> Kind
    ensures { result ≡ new_kind text.now }
{
    match plain_kind(text) {
        PlainKind::Null => Kind::Null,
        PlainKind::Bool => Kind::Bool,
        PlainKind::Int => Kind::Int,
        PlainKind::Float => Kind::Float,
        PlainKind::Str => Kind::Str,
    }
}

/// Whether a kind of the core schema and one of YAML 1.1 are the same.
fn are_same(here: Kind, there: Kind) -> bool
    ensures { result ≡ are_same here there }
{
    match (here, there) {
        (Kind::Null, Kind::Null) => true,
        (Kind::Bool, Kind::Bool) => true,
        (Kind::Int, Kind::Int) => true,
        (Kind::Float, Kind::Float) => true,
        (Kind::Str, Kind::Str) => true,
        _ => false,
    }
}

/// A fraction of two digits at least, of which the last is a zero.
fn is_long_fraction(text: &[u8]) -> bool
    ensures { result ≡ long_fraction text.now }
{
    match behind_one(text, b"0123456789") {
        Some(rest) => all_of(rest, b"0123456789") && rest.ends_with(b"0"),
        None => false,
    }
}

/// Digits, a point and such a fraction.
fn has_trailing_zero(text: &[u8]) -> bool
    ensures { result ≡ trailing_zero text.now }
{
    match behind_one(text, b"0123456789") {
        Some(rest) => match behind_one(behind_all(rest, b"0123456789"), b".") {
            Some(rest) => is_long_fraction(rest),
            None => false,
        },
        None => false,
    }
}

/// The warning of a text that is a string by the patterns above: in YAML 1.1 it may be a number of base 60 or a timestamp.
fn timed_warning(text: &[u8], here: Kind) -> Option<Older>
    ensures { IsTimedWarning here result }
{
    match here {
        Kind::Str => match read_timed(text) {
            Some(there) => Some(Older::Kinds(Kind::Str, there)),
            None => None,
        },
        _ => None,
    }
}

/// Why an untagged plain scalar is warned of, if it is: YAML 1.1 reads it otherwise than the core schema of YAML 1.2, or it is a
/// float whose value does not keep the zero at its end.
pub fn read_older(text: &str, is_key: bool) -> Option<Older>
    ensures { IsOlder (older_of text.now is_key) (new_kind text.now) result }
{
    let number = unsigned(text.as_bytes());
    let here = new_kind(text);
    let there = old_kind(text, is_key);
    if !are_same(here, there) {
        Some(Older::Kinds(here, there))
    } else if is_octal(number) {
        Some(Older::Octal)
    } else if has_trailing_zero(number) {
        Some(Older::Shorter)
    } else {
        timed_warning(text.as_bytes(), here)
    }
}
