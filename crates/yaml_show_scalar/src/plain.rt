//! Which strings are written without quotes: those that readers of YAML 1.1 and of 1.2 take for the same string.
ghost use Rattle.std.specs.Prelude.{◌≡◌, ◌==◌, not};
ghost use Rattle.std.specs.List.{list_all};
ghost use Rattle.std.specs.Str.{chars};
ghost use Rattle.yaml_definitions.specs.grammar.Characters.{c-comment, c-mapping-value, s-space};
ghost use Rattle.yaml_show_scalar.specs.Escapes.{is_unseen};
ghost use Rattle.yaml_show_scalar.specs.Texts.{has_pair};
ghost use Rattle.yaml_show_scalar.specs.Plain.{is_letter, is_numeric, is_based, has_points, may_be_number, begins_plainly, is_core_word, is_old_word, is_dotted, is_plain_inside, is_plain};

use crate::chars::is_unseen;
use crate::number::is_digit;
use crate::texts::{byte_at, cut, ends_in};

/// Whether a byte is a letter of ASCII.
#[tactic(auto, unfolding(crate::specs::Plain::is_letter))]
fn is_letter(byte: u8) -> bool
    ensures { result ≡ is_letter byte }
{
    matches!(byte, b'A'..=b'Z' | b'a'..=b'z')
}

/// Whether a byte may be one of a number of base 10 or 60, or of a time.
#[tactic(auto, unfolding(crate::specs::Plain::is_numeric))]
fn is_numeric(byte: u8) -> bool
    ensures { result ≡ is_numeric byte }
{
    matches!(
        byte,
        b'0'..=b'9'
            | b'_'
            | b'.'
            | b','
            | b':'
            | b'+'
            | b'-'
            | b'e'
            | b'E'
            | b't'
            | b'T'
            | b'Z'
            | b' '
    )
}

/// Whether a byte may be one of a number of base 2, 8 or 16.
#[tactic(auto, unfolding(crate::specs::Plain::is_based))]
fn is_based(byte: u8) -> bool
    ensures { result ≡ is_based byte }
{
    matches!(byte, b'0'..=b'9' | b'A'..=b'F' | b'a'..=b'f' | b'_' | b',' | b'+' | b'-' | b'x' | b'X' | b'o' | b'O')
}

/// Whether each byte may be one of a number of base 10 or 60, or of a time.
fn is_all_numeric(text: &str) -> bool
    ensures { result ≡ list_all is_numeric text.now }
{
    text.as_bytes().iter().all(|byte| is_numeric(*byte))
}

/// Whether each byte may be one of a number of base 2, 8 or 16.
fn is_all_based(text: &str) -> bool
    ensures { result ≡ list_all is_based text.now }
{
    text.as_bytes().iter().all(|byte| is_based(*byte))
}

/// Whether two bytes of a text are `.`.
fn has_points(text: &str) -> bool
    ensures { result ≡ has_points text.now }
{
    cut(text, '.').1.as_bytes().iter().any(|byte| *byte == b'.')
}

/// Whether some reader may take a text that begins with a digit for a number or a time. A number has at most one `.`, so a version or an
/// address is none.
#[tactic(auto, unfolding(crate::specs::Plain::may_be_number))]
fn may_be_number(text: &str) -> bool
    ensures { result ≡ may_be_number text.now }
{
    (is_all_numeric(text) && !has_points(text)) || (byte_at(text, 0) == b'0' && is_all_based(text))
}

/// Whether a text begins as a plain string does.
#[tactic(auto, unfolding(crate::specs::Plain::begins_plainly))]
fn begins_plainly(text: &str) -> bool
    ensures { result ≡ begins_plainly text.now }
{
    let first = byte_at(text, 0);
    let second = byte_at(text, 1);
    if first == b'.' {
        return is_letter(second) || second == b'/' || second == b'.';
    }
    if first == b'-' {
        return is_letter(second) || (second == b'-' && is_letter(byte_at(text, 2)));
    }
    if is_digit(first) {
        return !may_be_number(text);
    }
    is_letter(first) || first == b'_' || first == b'/' || first == b'$' || first >= 128
}

/// Whether a text is null or a Boolean in YAML 1.2.
fn is_core_word(text: &str) -> bool
    ensures { result ≡ is_core_word text.now }
{
    matches!(
        text,
        "null" | "Null" | "NULL" | "true" | "True" | "TRUE" | "false" | "False" | "FALSE"
    )
}

/// Whether a text is another Boolean of YAML 1.1.
fn is_old_word(text: &str) -> bool
    ensures { result ≡ is_old_word text.now }
{
    matches!(
        text,
        "yes"
            | "Yes"
            | "YES"
            | "no"
            | "No"
            | "NO"
            | "on"
            | "On"
            | "ON"
            | "off"
            | "Off"
            | "OFF"
            | "y"
            | "Y"
            | "n"
            | "N"
    )
}

/// Whether a text is nothing but dots.
fn is_dots(text: &str) -> bool
    ensures { result ≡ list_all (λ b. b == 46) text.now }
{
    text.as_bytes().iter().all(|byte| *byte == b'.')
}

/// Whether a text is a float in words, or nothing but dots, which the pattern of YAML 1.1 takes for a float.
#[tactic(auto, unfolding(crate::specs::Plain::is_dotted))]
fn is_dotted(text: &str) -> bool
    ensures { result ≡ is_dotted text.now }
{
    text.eq_ignore_ascii_case(".inf") || text.eq_ignore_ascii_case(".nan") || is_dots(text)
}

/// Whether no character of a text is unseen.
pub(crate) fn is_all_seen(text: &str) -> bool
    ensures { result ≡ list_all (λ c. not (is_unseen c)) (chars text.now) }
{
    text.chars().all(|c| !is_unseen(c))
}

/// Whether a text has a colon before a space.
fn has_colon(text: &str) -> bool
    ensures { result ≡ has_pair c-mapping-value s-space text.now }
{
    text.contains(": ")
}

/// Whether a text has a space before `#`.
fn has_comment(text: &str) -> bool
    ensures { result ≡ has_pair s-space c-comment text.now }
{
    text.contains(" #")
}

/// Whether a text has no unseen character and nothing that would end a plain scalar.
#[tactic(auto, unfolding(crate::specs::Plain::is_plain_inside))]
fn is_plain_inside(text: &str) -> bool
    ensures { result ≡ is_plain_inside text.now }
{
    !has_colon(text)
        && !has_comment(text)
        && !ends_in(text, ' ')
        && !ends_in(text, ':')
        && is_all_seen(text)
}

/// Whether a string is written without quotes.
#[tactic(auto, unfolding(crate::specs::Plain::is_plain))]
pub fn is_plain(text: &str) -> bool
    ensures { result ≡ is_plain text.now }
{
    begins_plainly(text)
        && !is_core_word(text)
        && !is_old_word(text)
        && !is_dotted(text)
        && is_plain_inside(text)
}
