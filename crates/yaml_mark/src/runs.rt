//! Runs of characters of one class.
ghost use Rattle.std.specs.Prelude.{◌≡◌, ◌≤◌, ◌<◌, true, false, length, slice_get, slice_index, Some, IfSome, IfNone, ℕ};
ghost use Rattle.std.specs.Bool.{OnTrue, OnFalse};
ghost use Rattle.yaml_text.specs.Source.{text_of, place_of, IsBorder};
ghost use Rattle.yaml_definitions.specs.grammar.Rules.{run, Stands, one, any_span};
ghost use Rattle.std.specs.Char.{is_ascii_hexdigit};
ghost use Rattle.yaml_mark.specs.Classes.{class_of};
ghost use Rattle.yaml_mark.specs.Parts.{percent_escape, char_or_escape};

use yaml_text::chars::Chars;
use yaml_text::class::{is_flow_indicator, is_ns, is_uri, is_word};
use yaml_text::places::{accept, next};

/// A class of characters that runs are made of.
#[derive(Clone, Copy)]
pub(crate) enum Class {
    /// No white and no break (5.5).
    Solid,
    /// The same, but no flow indicator either (6.9.2).
    Name,
    /// An ASCII letter, a digit or `-` (5.6).
    Word,
    /// What stands for itself in a URI.
    Uri,
    /// The same, but no `!` and no flow indicator.
    Tag,
}

impl Class {
    #[inline(always)]
    #[tactic(auto, unfolding(yaml_definitions::specs::grammar::Tags::is_name, yaml_definitions::specs::grammar::Characters::is_tag))]
    fn has(self, c: char) -> bool
        ensures { result ≡ class_of self c }
    {
        match self {
            Class::Solid => is_ns(c),
            Class::Name => is_ns(c) && !is_flow_indicator(c),
            Class::Word => is_word(c),
            Class::Uri => is_uri(c),
            // most are letters and digits
            Class::Tag => is_word(c) || is_uri(c) && c != '!' && !is_flow_indicator(c),
        }
    }

    /// Whether a byte is an ASCII character of the class.
    #[inline(always)]
    fn has_ascii(self, byte: u8) -> bool
        ensures ascii { result ≡ true → byte < 128 }
        ensures has { result ≡ true → class_of self byte ≡ true }
        ensures other { result ≡ false → byte < 128 → class_of self byte ≡ false }
    {
        byte.is_ascii() && self.has(byte as char)
    }
}

/// How many bytes at the start are ASCII characters of a class.
#[inline(always)]
fn ascii_len(bytes: &[u8], class: Class) -> usize
    ensures len { result ≤ length bytes.now }
    ensures front { (k : ℕ) → k < result → (slice_index bytes.now k < 128) × (class_of class (slice_index bytes.now k) ≡ true) }
    ensures behind { result < length bytes.now → slice_index bytes.now result < 128 → class_of class (slice_index bytes.now result) ≡ false }
{
    for (at, byte) in bytes.iter().enumerate() {
        if !class.has_ascii(*byte) {
            return at;
        }
    }
    bytes.len()
}

/// The border after the ASCII characters of a class that stand at a border, which are not decoded, and the ASCII character that
/// stands behind them, if one does: it is none of the class.
#[inline(always)]
fn skip_ascii(source: &Chars<'_>, at: usize, class: Class) -> (usize, Option<u8>)
    requires { IsBorder source.now at }
    ensures border { IsBorder source.now result.0 }
    ensures onward { at ≤ result.0 }
    ensures run { run (text_of source.now) (class_of class) (place_of source.now at) (place_of source.now result.0) }
    ensures behind { IfSome result.1 (λ byte. slice_get (text_of source.now) (place_of source.now result.0) ≡ Some byte) }
    ensures other { IfSome result.1 (λ byte. class_of class byte ≡ false) }
{
    let bytes = source.rest(at).as_bytes();
    let len = ascii_len(bytes, class);
    if len < bytes.len() && bytes[len].is_ascii() {
        (at + len, Some(bytes[len]))
    } else {
        (at + len, None)
    }
}

/// The same as `skip_run`, for any characters, which are decoded.
#[inline(never)]
fn skip_decoded(source: &Chars<'_>, at: usize, class: Class) -> usize
    requires { IsBorder source.now at }
    ensures border { IsBorder source.now result }
    ensures onward { at ≤ result }
    ensures run { run (text_of source.now) (class_of class) (place_of source.now at) (place_of source.now result) }
    ensures furthest { Stands (text_of source.now) (class_of class) (place_of source.now result) → ⊥ }
{
    let mut here = at;
    'run: loop {
        match next(source, here) {
            None => return here,
            Some((c, to)) => {
                if !class.has(c) {
                    return here;
                }
                here = to;
            }
        }
    }
}

/// The border after the characters of a class that stand at a border. Most runs are short, and end at an ASCII character.
#[inline(always)]
pub(crate) fn skip_run(source: &Chars<'_>, at: usize, class: Class) -> usize
    requires { IsBorder source.now at }
    ensures border { IsBorder source.now result }
    ensures onward { at ≤ result }
    ensures run { run (text_of source.now) (class_of class) (place_of source.now at) (place_of source.now result) }
    ensures furthest { Stands (text_of source.now) (class_of class) (place_of source.now result) → ⊥ }
{
    let (here, behind) = skip_ascii(source, at, class);
    match behind {
        Some(_) => here,
        None => skip_decoded(source, here, class),
    }
}

/// Whether a character of a class stands at a border.
pub(crate) fn stands(source: &Chars<'_>, at: usize, class: Class) -> bool
    requires { IsBorder source.now at }
    ensures yes { OnTrue result (Stands (text_of source.now) (class_of class) (place_of source.now at)) }
    ensures no { OnFalse result (Stands (text_of source.now) (class_of class) (place_of source.now at) → ⊥) }
{
    match next(source, at) {
        None => false,
        Some((c, _)) => class.has(c),
    }
}

/// The border after the hexadecimal digit that stands at a border.
fn next_digit(source: &Chars<'_>, at: usize) -> Option<usize>
    requires { IsBorder source.now at }
    ensures border { IfSome result (λ to. IsBorder source.now to) }
    ensures onward { IfSome result (λ to. at < to) }
    ensures some { IfSome result (λ to. one (text_of source.now) is_ascii_hexdigit (place_of source.now at) (place_of source.now to)) }
    ensures none { IfNone result (Stands (text_of source.now) is_ascii_hexdigit (place_of source.now at) → ⊥) }
{
    match next(source, at) {
        None => None,
        Some((c, to)) => {
            if c.is_ascii_hexdigit() {
                Some(to)
            } else {
                None
            }
        }
    }
}

/// The border after the `%` and the two digits that stand at a border.
fn next_escape(source: &Chars<'_>, at: usize) -> Option<usize>
    requires { IsBorder source.now at }
    ensures border { IfSome result (λ to. IsBorder source.now to) }
    ensures onward { IfSome result (λ to. at < to) }
    ensures some { IfSome result (λ to. percent_escape (text_of source.now) (place_of source.now at) (place_of source.now to)) }
    ensures none { IfNone result ((j : ℕ) → percent_escape (text_of source.now) (place_of source.now at) j → ⊥) }
{
    match accept(source, at, '%') {
        None => None,
        Some(high) => match next_digit(source, high) {
            None => None,
            Some(low) => match next_digit(source, low) {
                None => None,
                Some(to) => Some(to),
            },
        },
    }
}

/// The border after the character of a class, or the escape, that stands at a border.
pub(crate) fn next_escaped(source: &Chars<'_>, at: usize, class: Class) -> Option<usize>
    requires { IsBorder source.now at }
    ensures border { IfSome result (λ to. IsBorder source.now to) }
    ensures onward { IfSome result (λ to. at < to) }
    ensures some { IfSome result (λ to. char_or_escape (text_of source.now) (class_of class) (place_of source.now at) (place_of source.now to)) }
    ensures none { IfNone result ((j : ℕ) → char_or_escape (text_of source.now) (class_of class) (place_of source.now at) j → ⊥) }
{
    match next(source, at) {
        None => None,
        Some((c, to)) => {
            if class.has(c) {
                return Some(to);
            }
            match next_escape(source, at) {
                None => None,
                Some(after) => Some(after),
            }
        }
    }
}

/// The border after the characters of a class and the escapes that stand at a border.
pub(crate) fn skip_escaped(source: &Chars<'_>, at: usize, class: Class) -> usize
    requires { IsBorder source.now at }
    ensures border { IsBorder source.now result }
    ensures onward { at ≤ result }
    ensures spans { any_span (char_or_escape (text_of source.now) (class_of class)) (place_of source.now at) (place_of source.now result) }
    ensures furthest { (j : ℕ) → char_or_escape (text_of source.now) (class_of class) (place_of source.now result) j → ⊥ }
{
    let (mut here, behind) = skip_ascii(source, at, class);
    if let Some(byte) = behind {
        if byte != b'%' {
            return here;
        }
    }
    'run: loop {
        match next_escaped(source, here, class) {
            None => return here,
            Some(to) => here = to,
        }
    }
}
